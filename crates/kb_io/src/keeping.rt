// A source that keeps what it gave.
ghost use Rattle.std.specs.Prelude.{◌≡◌, ◌≤◌, ◌<◌, IfOk, OnErr, IfSome, IsOk, IsTrue, Some, length, take, option_map};
ghost use Rattle.kb_io.specs.Bytes.{IsAtEnd, Keeps, Rose, Takes};
ghost use Rattle.kb_io.specs.Keeping.{IsKept};

use crate::source::{Failed, Source};
use std::alloc::Global;

/// A source that keeps a copy of the bytes that it gave, for whoever shows a part of them later. Where there is no memory for the
/// copy it keeps nothing from then on, and gives on.
#[derive(Drop)]
pub struct KeepingSource<S: Source> {
    source: S,
    kept: Option<Vec<u8>>,
}

impl<S: Source> KeepingSource<S> {
    ghost use Rattle.std.specs.Prelude.{◌≡◌, [], Some, option_map};
    ghost use Rattle.kb_io.specs.Keeping.{kept_of, kept_from};

    /// This source, of which nothing is kept yet.
    pub fn new(alloc: Global, source: S) -> KeepingSource<S>
        ensures kept { kept_of result ≡ Some [] }
        ensures source { kept_from result ≡ source }
    {
        KeepingSource {
            source,
            kept: Some(Vec::new(alloc)),
        }
    }

    /// The bytes that it gave, in order; none where there was no memory for them.
    pub fn kept(&self) -> Option<&[u8]>
        ensures { option_map (λ bytes. bytes.now) result ≡ kept_of self.now }
    {
        match &self.kept {
            Some(kept) => Some(kept.as_slice()),
            None => None,
        }
    }

    // Keeps one piece more.
    fn keep(&mut self, piece: &[u8])
        ensures kept { IsKept (kept_of self.old) piece.now (kept_of self.new) }
        ensures source { kept_from self.new ≡ kept_from self.old }
    {
        let has_room = match &mut self.kept {
            Some(kept) => kept.extend_from_slice(piece).is_ok(),
            None => false,
        };
        if !has_room {
            self.kept = None;
        }
    }
}

impl<S: Source> Source for KeepingSource<S> {
    ghost use Rattle.kb_io.specs.Keeping.{kept_from, kept_of};

    ghost left = { λ s. S.left s.source };

    ghost faults = { λ s. S.faults s.source };

    ghost quiet = { λ s. S.quiet s.source };

    ghost most = { λ s. S.most s.source };

    fn read(&mut self, buf: &mut [u8]) -> Result<usize, Failed>
        requires { 0 < length buf.old }
        ensures within { IfOk result (λ n. n ≤ length buf.old) }
        ensures taken { IfOk result (λ n. Takes (S.left (kept_from self.old)) (take n buf.new) (S.left (kept_from self.new))) }
        ensures end { IfOk result (λ n. n ≡ 0 → IsAtEnd (S.left (kept_from self.old))) }
        ensures most { IfOk result (λ n. IfSome (S.most (kept_from self.old)) (λ m. n ≤ m)) }
        ensures failed { OnErr result (Keeps (S.left (kept_from self.old)) (S.left (kept_from self.new))) }
        ensures count { S.faults (kept_from self.old) ≤ S.faults (kept_from self.new) }
        ensures cause { OnErr result (Rose (S.faults (kept_from self.old)) (S.faults (kept_from self.new))) }
        ensures quiet { IsTrue (S.quiet (kept_from self.old)) → IsOk result × IsTrue (S.quiet (kept_from self.new)) × (S.faults (kept_from self.new) ≡ S.faults (kept_from self.old)) }
        // What it gave is kept behind what it had kept.
        ensures kept { IfOk result (λ n. IsKept (kept_of self.old) (take n buf.new) (kept_of self.new)) }
        ensures nothing { OnErr result (kept_of self.new ≡ kept_of self.old) }
    {
        let n = self.source.read(buf)?;
        self.keep(&buf[..n]);
        Ok(n)
    }
}

// Names as a list keeps them.
ghost use Rattle.std.specs.Prelude.{◌≡◌, ◌≤◌, length, IfOk, None};
ghost use Rattle.kb_label.specs.Names.{name_cmp, IsInNameOrder};
ghost use Rattle.kb_label.specs.Kept.{kept_name, IsKept, IsPlaceOf};

use crate::process::{Process, WORD_BITS};
use std::alloc::{AllocError, Global};
use std::cmp::Ordering;
use std::marker::Model;

/// A name in a list: the length and the first word in place, and the whole name on the heap where it has more bits than
/// that word. So a list of short names takes little memory.
#[derive(Drop)]
pub(crate) struct KeptName {
    first: u64,
    len: u16,
    whole: Option<Box<Process>>,
}

impl Model for KeptName {
    ghost use Rattle.kb_label.specs.Names.{Name};
    ghost use Rattle.kb_label.specs.Kept.{kept_name, whole_name, IsKept};

    ghost Value = { Name };

    ghost view = { λ n. kept_name n.first n.len (whole_name n.whole) };

    ghost invariant = { λ n. IsKept n.first n.len (whole_name n.whole) };
}

impl KeptName {
    /// The name, kept.
    pub(crate) fn of(alloc: Global, name: &Process) -> Result<KeptName, AllocError>
        ensures { IfOk result (λ kept. kept ≡ name.now) }
    {
        if name.len() <= WORD_BITS {
            return Ok(KeptName::short(name));
        }
        Ok(KeptName {
            first: name.first_word(),
            len: name.len() as u16,
            whole: Some(Box::new(alloc, *name)?),
        })
    }

    /// A name that fits a word, kept. It takes no memory.
    pub(crate) fn short(name: &Process) -> KeptName
        requires { length name.now ≤ WORD_BITS }
        ensures { result ≡ name.now }
    {
        KeptName {
            first: name.first_word(),
            len: name.len() as u16,
            whole: None,
        }
    }

    /// The name itself.
    pub(crate) fn name(&self) -> Process
        ensures { result ≡ self.now }
    {
        match &self.whole {
            Some(whole) => **whole,
            None => Process::of_word(self.first, self.len),
        }
    }

    /// How the name stands to another in the order of names.
    pub(crate) fn against(&self, name: &Process) -> Ordering
        ensures { result ≡ name_cmp self.now name.now }
    {
        match &self.whole {
            Some(whole) => (**whole).cmp(name),
            None => name.behind_word(self.first, self.len),
        }
    }

    /// How the name stands to another one that is kept.
    pub(crate) fn beside(&self, other: &KeptName) -> Ordering
        ensures { result ≡ name_cmp self.now other.now }
    {
        match &other.whole {
            Some(whole) => self.against(whole),
            None => self.beside_word(other.first, other.len),
        }
    }

    /// How the name stands to the short name with this word and this length.
    pub(crate) fn beside_word(&self, first: u64, len: u16) -> Ordering
        requires { IsKept first len None }
        ensures { result ≡ name_cmp self.now (kept_name first len None) }
    {
        match self.len.cmp(&len) {
            Ordering::Equal => self.first.cmp(&first),
            by_length => by_length,
        }
    }

    /// Where the name stands among others, or where it would have to be put.
    pub(crate) fn place_in(&self, names: &[KeptName]) -> Result<usize, usize>
        requires { IsInNameOrder names.now }
        ensures { IsPlaceOf names.now self.now result }
    {
        match &self.whole {
            Some(whole) => long_place(names, whole),
            None => short_place(names, self.first, self.len),
        }
    }
}

/// Where a name stands among others, or where it would have to be put.
pub(crate) fn place_of(names: &[KeptName], name: &Process) -> Result<usize, usize>
    requires { IsInNameOrder names.now }
    ensures { IsPlaceOf names.now name.now result }
{
    if name.len() <= WORD_BITS {
        short_place(names, name.first_word(), name.len() as u16)
    } else {
        long_place(names, name)
    }
}

// The same for the short name with this word and this length.
fn short_place(names: &[KeptName], first: u64, len: u16) -> Result<usize, usize>
    requires kept { IsKept first len None }
    requires in_order { IsInNameOrder names.now }
    ensures { IsPlaceOf names.now (kept_name first len None) result }
{
    names.binary_search_by(|name| name.beside_word(first, len))
}

// The same for a name of any length.
fn long_place(names: &[KeptName], name: &Process) -> Result<usize, usize>
    requires { IsInNameOrder names.now }
    ensures { IsPlaceOf names.now name.now result }
{
    names.binary_search_by(|other| other.against(name))
}

impl Clone for KeptName {
    ghost use Rattle.std.specs.Prelude.{◌≡◌};

    ghost is_clone = { λ p q. q ≡ p };

    fn clone(&self) -> Result<KeptName, AllocError> {
        let whole = self.whole.clone()?;
        Ok(KeptName {
            first: self.first,
            len: self.len,
            whole,
        })
    }
}

// Shows how a run goes on.
use kb_io::{Gate, Moment};
use mkbtt_shown::{Progress, cleared, progress_text};
use std::io::{Stdout, Write};
use std::sync::atomic::AtomicU64;
use std::sync::atomic::Ordering::SeqCst;
use std::time::Instant;

/// A gate that lets every call pass, and shows on standard error how the run goes on: at most once a second, as a worker begins its
/// work.
#[derive(Drop)]
pub(crate) struct ShowingGate<'a> {
    rt: &'a HostRuntime,
    progress: Progress,
    // When the run began, where it is shown how it goes on and there is a clock.
    began: Option<Instant>,
    // The second that was shown last.
    shown: AtomicU64,
}

impl<'a> ShowingGate<'a> {
    /// A gate for a run that begins now.
    pub(crate) fn new(rt: &'a HostRuntime, progress: Progress) -> ShowingGate<'a> {
        let began = match progress {
            Progress::Hidden => None,
            Progress::Lines | Progress::InPlace => Instant::now(rt).ok(),
        };
        ShowingGate {
            rt,
            progress,
            began,
            shown: AtomicU64::new(0),
        }
    }

    // How many seconds the run has taken.
    fn seconds(&self) -> Option<u64> {
        let began = self.began?;
        match began.elapsed(self.rt) {
            Ok(time) => Some(time.as_secs()),
            Err(_) => None,
        }
    }

    // Whether this second is the first to be shown after the one before; it then counts as shown.
    fn is_new(&self, second: u64) -> bool {
        let shown = self.shown.load(SeqCst);
        shown < second
            && self
                .shown
                .compare_exchange(shown, second, SeqCst, SeqCst)
                .is_ok()
    }

    // Writes how the run stands. Where nothing can be written there is nobody to tell.
    fn show(&self, moment: &Moment, second: u64) {
        if let Ok(text) = progress_text(self.rt.alloc(), self.progress, moment, second) {
            let _ = self.rt.stderr().write_all(&text);
        }
    }

    /// Clears what was written in place, where it wasn't cleared yet.
    pub(crate) fn clear(&self) {
        if self.shown.swap(0, SeqCst) != 0 {
            let _ = self.rt.stderr().write_all(cleared(self.progress));
        }
    }
}

/// Standard output, before whose first byte what was written in place is cleared.
#[derive(Drop)]
pub(crate) struct ClearedOutput<'a, 'b> {
    pub(crate) gate: &'b ShowingGate<'a>,
    pub(crate) output: Stdout,
}

impl<'a, 'b> Write for ClearedOutput<'a, 'b> {
    fn write(&mut self, buf: &[u8]) -> std::io::Result<usize> {
        self.gate.clear();
        self.output.write(buf)
    }

    fn flush(&mut self) -> std::io::Result<()> {
        self.output.flush()
    }
}

impl<'a> Gate for ShowingGate<'a> {
    fn wants_cost(&self) -> bool {
        match self.seconds() {
            Some(second) => self.shown.load(SeqCst) < second,
            None => false,
        }
    }

    fn pass(&self, moment: &Moment, _turn: u32) -> bool {
        if let Some(second) = self.seconds() {
            if self.is_new(second) {
                self.show(moment, second);
            }
        }
        true
    }
}

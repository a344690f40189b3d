// What wakes the workers that nap, at the end of a run.
use std::sync::Wait;
use std::sync::atomic::AtomicU64;
use std::sync::atomic::Ordering::SeqCst;
use std::time::Duration;

/// The state before the run has ended.
const SILENT: u64 = 0;

/// The state from its end on.
const RUNG: u64 = 1;

/// A bell that is rung at the end of a run, and wakes whoever naps by it. Contracts say nothing of it.
#[derive(Drop)]
pub(crate) struct Bell {
    state: AtomicU64,
}

impl Bell {
    /// A bell that wasn't rung.
    pub(crate) fn new() -> Bell {
        Bell {
            state: AtomicU64::new(SILENT),
        }
    }

    /// Sleeps for so long, but not past the bell: whether it wasn't rung then. It may also wake early for no reason.
    pub(crate) fn nap<R: Wait>(&self, rt: &R, longest: Duration) -> bool {
        self.state.park_timeout(rt, SILENT as u32, longest);
        self.state.load(SeqCst) == SILENT
    }

    /// Rings: whoever naps wakes, and nobody naps from here on.
    pub(crate) fn ring(&self) {
        self.state.store(RUNG, SeqCst);
        self.state.wake_all();
    }
}

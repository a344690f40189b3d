// How long work takes, by the clock.
use std::time::{Clock, Duration, Instant};

/// Whether at least so many microseconds have passed since then; so they have where the clock can't be read.
pub fn has_taken<R: Clock>(rt: &R, begun: &Option<Instant>, micros: u64) -> bool {
    let Some(begun) = begun else {
        return true;
    };
    match begun.elapsed(rt) {
        Ok(taken) => taken >= Duration::from_micros(micros),
        Err(_) => true,
    }
}

//! A lock that threads take in turns. The history of its value is known to each of them in part, and to the last one whole.
#![tactic(auto)]

mod backoff;
mod lock;
mod rule;
mod turned;

pub use backoff::Backoff;
pub use lock::{Seat, Turns};
pub use rule::{Joined, View};
pub use turned::{Counted, Turned};

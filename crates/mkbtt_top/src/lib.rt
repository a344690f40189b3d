//! The top call: from words and bytes to bytes and a status.
#![tactic(auto)]

mod answering;
mod checking;
mod completing;
mod converting;
mod deciding;
mod explaining;
mod generating;
mod host;
mod laws;
mod reducing;
mod replaying;
mod reply;
mod status;
mod task;
mod top;
mod workers;

pub use explaining::hint;
pub use laws::rounds_write_one_text;
pub use reply::Outcome;
pub use status::{Status, status_code, status_line};
pub use top::run;

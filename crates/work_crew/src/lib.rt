//! Workers that complete a board.
#![tactic(auto)]

mod alone;
mod bell;
mod gates;
mod moments;
mod shared;
mod timing;
mod together;

pub use alone::{Crew, work_alone};
pub use cert_pool::CertPool;
pub use gates::ask;
pub use shared::Assignment;
pub use timing::has_taken;
pub use together::{work_together, work_together_by};

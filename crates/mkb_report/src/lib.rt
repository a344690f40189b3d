//! What a board reports: the answer of a complete process, or why there is none, and the summary in numbers.
#![tactic(auto)]

mod laws;
mod report;
mod summary;

pub use laws::{reports_are_good, reports_are_one};
pub use report::report_of;
pub use summary::summary_of;

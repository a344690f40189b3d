//! Answers of searches, kept for all threads of a run.
#![tactic(auto)]

mod comparing;
mod hashing;
mod pool;

pub use pool::CertPool;

//! What is shown on standard error beside the line of a status: how a run goes on, and what helps whoever wrote a text that is
//! refused, the line that holds the place, a caret under it, and a sentence.
#![tactic(auto)]

mod excerpts;
mod hints;
mod manner;
mod progress;
mod sentences;

pub use excerpts::excerpt;
pub use hints::{line_hint, refusal_hint, spent_hint};
pub use manner::{Manner, Progress, manner_of, other_words};
pub use progress::{cleared, progress_text};

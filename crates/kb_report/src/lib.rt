//! The texts of answers and summaries.
#![tactic(auto)]

mod answer;
mod header;
mod laws;
mod order;
mod parts;
mod read;
mod report;
mod sides;
mod steps;
mod summary;
mod symbols;
mod version;

pub use answer::{push_counted, push_equations, push_symbols};
pub use header::{first_line, read_count, read_word};
pub use laws::{bad_lines_are_one, texts_are_one, written_systems_are_read_back};
pub use read::read_answer;
pub use report::{Report, answer_text, reason_word};
pub use sides::{are_numbered, read_equations};
pub use summary::{Summary, process_text, summary_text};
pub use symbols::read_symbols;
pub use version::Version;

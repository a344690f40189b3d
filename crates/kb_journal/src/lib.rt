//! Journals as texts: the lines of a board's entries, their one spelling, and how it is read.
#![tactic(auto)]

mod entry_line;
mod entry_text;
mod fault;
mod journal;
mod laws;
mod line_reading;
mod lines;
mod ranges;
mod read;
mod replaying;
mod sections;
mod text;

pub use entry_line::EntryLine;
pub use fault::ReplayFault;
pub use journal::JournalText;
pub use laws::{journal_texts_are_one, lines_decide_journals};
pub use read::read_journal;
pub use replaying::replay;
pub use text::journal_text;

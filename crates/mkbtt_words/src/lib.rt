//! The words of the command line: a mode, options with a number each, a selection and a format.
#![tactic(auto)]

mod command;
mod fault;
mod format;
mod laws;
mod message;
mod mode;
mod named;
mod naming;
mod selection;
mod words;

pub use fault::WordsFault;
pub use format::Format;
pub use laws::words_are_read_or_refused;
pub use message::refusal_message;
pub use mode::Mode;
pub use selection::Selection;
pub use words::{Words, read_words};

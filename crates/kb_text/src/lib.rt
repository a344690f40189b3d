//! The text of problems: tokens, names, and what is written of terms.
#![tactic(auto)]

mod fault;
mod kind;
mod laws;
mod lexer;
mod line;
mod names;
mod number;
mod printer;
mod read;
mod sign;
mod text;
mod uses;

pub use fault::TextFault;
pub use kind::{Bound, Kind, Refusal};
pub use laws::{bytes_spell_one_term, tokens_spell_their_text, written_problems_are_spelled};
pub use lexer::{Form, Found, Mark, next_token};
pub use line::{Fields, is_word};
pub use names::Names;
pub use number::{line_length, read_number};
pub use printer::problem_text;
pub use read::read_term;
pub use sign::Sign;
pub use text::{prefix_of, push_term, term_text};
pub use uses::{Use, Uses};

//! Problems read from their text, and problems that are generated.
#![tactic(auto)]

mod equation;
mod fault;
mod generator;
mod laws;
mod notes;
mod parse;
mod problem;
mod reader;
mod side;
mod variables;
mod written;

pub use fault::SyntaxFault;
pub use generator::generate;
pub use kb_text::{
    Bound, Fields, Kind, Refusal, prefix_of, problem_text, push_term, read_term, term_text,
};
pub use laws::{
    bytes_are_refused_in_one_way, bytes_spell_one_problem, refused_bytes_spell_no_problem,
    spelled_problems_are_within_limits,
};
pub use parse::parse_problem;

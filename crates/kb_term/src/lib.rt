//! Terms, pairs, rules, signatures and problems.
#![tactic(auto)]

mod arities;
mod digits;
mod fault;
mod laws;
mod limit;
mod limits;
mod memory;
mod names;
mod number;
mod origin;
mod pair;
mod position;
mod problem;
mod replacement;
mod rule;
mod signature;
mod subst;
mod term;
mod variables;
mod variant;

pub use arities::has_few_arguments;
pub use digits::push_number;
pub use fault::TermFault;
pub use laws::{canonical_pairs_tell_equations, numberings_tell_variants};
pub use limit::Limit;
pub use limits::{
    MAX_ANSWER_BYTES, MAX_ARITY, MAX_DEPTH, MAX_EQUATIONS, MAX_NAME_BYTES, MAX_NODES,
    MAX_PROBLEM_BYTES, MAX_SIZE, MAX_SYMBOLS, MAX_VARIABLES, pair_limit, term_limit,
};
pub use memory::Memory;
pub use origin::{Found, Origin, RuleRef};
pub use pair::{Pair, canonical};
pub use position::{Position, subterm};
pub use problem::Problem;
pub use replacement::replace;
pub use rule::{Rule, numbered_rule, rule_from, rule_of};
pub use signature::Signature;
pub use subst::{Subst, apply, instance_of};
pub use term::{Symbol, Term, Terms, compare, depth, size};
pub use variables::{apart, has_variables_below, is_rule_below, variable_bound};
pub use variant::is_variant;

// Which limit a term or a pair passes.
ghost use Rattle.std.specs.Prelude.{◌≡◌, ◌↔◌, min, IsNone};
ghost use Rattle.kb_term.specs.Pair.{term_limit as limit_of_term, pair_limit as limit_of_pair, IsWithin, ArePairWithin};
ghost use Rattle.kb_term.specs.Tree.{tree_size, tree_depth};
ghost use Rattle.kb_term.specs.View.{tree_of};

use crate::limit::Limit;
use crate::names::Names;
use crate::term::Term;

/// The most bytes of a name.
pub const MAX_NAME_BYTES: usize = 64;

/// The most function symbols of a problem.
pub const MAX_SYMBOLS: usize = 24;

/// The most arguments of a symbol of a problem.
pub const MAX_ARITY: usize = 8;

/// The most equations of a problem.
pub const MAX_EQUATIONS: usize = 256;

/// The most variables of a pair; each is below this number, and renamed apart it is this number more.
pub const MAX_VARIABLES: usize = 64;

/// The greatest size of a term.
pub const MAX_SIZE: u32 = 512;

/// The greatest depth of a term.
pub const MAX_DEPTH: u32 = 64;

/// The most nodes of a board; so the most steps of a trace, and the most rules and constraints of an answer.
pub const MAX_NODES: usize = 4_096;

/// The most bytes of a problem that is read.
pub const MAX_PROBLEM_BYTES: usize = 1_048_576;

/// The most bytes of an answer or a journal that is read.
pub const MAX_ANSWER_BYTES: usize = 67_108_864;

/// The limit that a term passes: a size above 512, else a depth above 64.
pub fn term_limit(t: &Term) -> Option<Limit>
    ensures limit { result ≡ limit_of_term (tree_of t.now) }
    ensures within { IsNone result ↔ IsWithin (tree_of t.now) }
{
    if size_up_to(t, MAX_SIZE + 1) > MAX_SIZE {
        Some(Limit::Size)
    } else if depth_up_to(t, MAX_DEPTH + 1) > MAX_DEPTH {
        Some(Limit::Depth)
    } else {
        None
    }
}

/// The limit that a pair passes: a side of a size above 512, else a side of a depth above 64, else more than 64 variables.
pub fn pair_limit(a: &Term, b: &Term) -> Option<Limit>
    ensures limit { result ≡ limit_of_pair (tree_of a.now) (tree_of b.now) }
    ensures within { IsNone result ↔ ArePairWithin (tree_of a.now) (tree_of b.now) }
{
    if size_up_to(a, MAX_SIZE + 1) > MAX_SIZE || size_up_to(b, MAX_SIZE + 1) > MAX_SIZE {
        return Some(Limit::Size);
    }
    if depth_up_to(a, MAX_DEPTH + 1) > MAX_DEPTH || depth_up_to(b, MAX_DEPTH + 1) > MAX_DEPTH {
        return Some(Limit::Depth);
    }
    if Names::of(a, b).len() > 64 {
        return Some(Limit::Variables);
    }
    None
}

/// The size, or the cap where the size is greater. It looks no further than the cap asks.
pub(crate) fn size_up_to(t: &Term, cap: u32) -> u32
    ensures { result ≡ min (tree_size (tree_of t.now)) cap }
{
    if cap == 0 {
        return 0;
    }
    match t {
        Term::Var(_) => 1,
        Term::App(_, arguments) => {
            let mut total = 1;
            for argument in &arguments.items {
                total += size_up_to(argument, cap - total);
            }
            total
        }
    }
}

/// The depth, or the cap where the depth is greater.
pub(crate) fn depth_up_to(t: &Term, cap: u32) -> u32
    ensures { result ≡ min (tree_depth (tree_of t.now)) cap }
{
    if cap == 0 {
        return 0;
    }
    match t {
        Term::Var(_) => 1,
        Term::App(_, arguments) => {
            let mut deepest = 0;
            for argument in &arguments.items {
                deepest = depth_up_to(argument, cap - 1).max(deepest);
            }
            deepest + 1
        }
    }
}

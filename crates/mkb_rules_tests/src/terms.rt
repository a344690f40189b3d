// Small terms, pairs, orders and names of processes.
use kb_cert::Certificate;
use kb_label::Process;
use kb_lpo::Precedence;
use kb_node::Deduced;
use kb_term::{Pair, Position, RuleRef, Symbol, Term, Terms, canonical, pair_limit};
use std::alloc::Global;
use std::process::Abort;

/// The symbol applied to nothing.
pub(crate) fn constant(alloc: Global, f: u8) -> Term {
    Term::App(Symbol(f), Terms::new(Vec::new(alloc)))
}

/// The symbol applied to the term.
pub(crate) fn applied(rt: &impl Abort, alloc: Global, f: u8, t: Term) -> Term {
    let mut items = Vec::new(alloc);
    items.push(t).expect(rt, "memory");
    Term::App(Symbol(f), Terms::new(items))
}

/// The canonical pair of two different terms.
pub(crate) fn pair(rt: &impl Abort, alloc: Global, s: &Term, t: &Term) -> Pair {
    if pair_limit(s, t).is_some() {
        panic!(rt; "a limit");
    }
    match canonical(alloc, s, t).expect(rt, "memory") {
        Some(pair) => pair,
        None => panic!(rt; "one term"),
    }
}

/// The canonical pair of f(a) and a, of the symbols 0 and 1.
pub(crate) fn applied_and_bare(rt: &impl Abort, alloc: Global) -> Pair {
    let bare = constant(alloc, 1);
    let t = applied(rt, alloc, 0, constant(alloc, 1));
    pair(rt, alloc, &t, &bare)
}

/// The pair as that of an overlap of two rules below the first argument of the outer one.
pub(crate) fn overlap(
    rt: &impl Abort,
    alloc: Global,
    outer: RuleRef,
    inner: RuleRef,
    pair: Pair,
) -> Vec<Deduced> {
    let mut pairs = Vec::new(alloc);
    let position = Position::from_steps(alloc, &[1]).expect(rt, "memory");
    let deduced = Deduced {
        outer,
        inner,
        position,
        pair,
    };
    pairs.push(deduced).expect(rt, "memory");
    pairs
}

/// The path order in which the first symbol is above the second.
pub(crate) fn above(rt: &impl Abort, alloc: Global, first: u8, second: u8) -> Certificate {
    let mut symbols = Vec::new(alloc);
    symbols.push(Symbol(first)).expect(rt, "memory");
    symbols.push(Symbol(second)).expect(rt, "memory");
    Certificate::Lpo(Precedence::new(symbols))
}

/// The rule of the node from side 0 to side 1.
pub(crate) fn forth(node: u16) -> RuleRef {
    RuleRef { node, dir: 0 }
}

/// The first process.
pub(crate) fn first() -> Process {
    Process::root()
}

/// The left child of the first process.
pub(crate) fn left() -> Process {
    Process::from_bits(&[false])
}

/// The right child of the first process.
pub(crate) fn right() -> Process {
    Process::from_bits(&[true])
}

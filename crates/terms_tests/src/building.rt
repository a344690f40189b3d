// Terms of one symbol and its arguments.
use kb_term::{Symbol, Term, Terms};
use std::alloc::Global;
use std::process::Abort;

/// The symbol applied to nothing.
pub(crate) fn constant(alloc: Global, f: u8) -> Term {
    Term::App(Symbol(f), Terms::new(Vec::new(alloc)))
}

/// The symbol applied to the term.
pub(crate) fn unary(rt: &impl Abort, alloc: Global, f: u8, t: Term) -> Term {
    let mut items = Vec::new(alloc);
    items.push(t).expect(rt, "memory");
    Term::App(Symbol(f), Terms::new(items))
}

/// The symbol applied to two terms.
pub(crate) fn binary(rt: &impl Abort, alloc: Global, f: u8, a: Term, b: Term) -> Term {
    let mut items = Vec::new(alloc);
    items.push(a).expect(rt, "memory");
    items.push(b).expect(rt, "memory");
    Term::App(Symbol(f), Terms::new(items))
}

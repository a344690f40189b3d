// What a substitution was made of, given back without a copy.
use crate::building::constant;
use kb_term::{Subst, Symbol, Term};
use std::mem::drop;
use std::test::Fail;

/// Whether the term is the symbol applied to nothing.
fn is_constant(t: &Term, f: Symbol) -> bool {
    match t {
        Term::Var(_) => false,
        Term::App(g, arguments) => *g == f && arguments.items().is_empty(),
    }
}

#[test]
fn a_substitution_gives_its_entries_back(rt: HostRuntime) -> Result<(), Fail> {
    let alloc = rt.alloc();
    let mut entries = Vec::new(alloc);
    entries.push((7, constant(alloc, 3))).expect(&rt, "memory");
    let entries = Subst::new(entries).into_entries();
    assert!(rt; entries.len() == 1 && entries[0].0 == 7 && is_constant(&entries[0].1, Symbol(3)));
    drop(entries);
    Ok(())
}

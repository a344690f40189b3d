// Worked examples.
ghost use Rattle.std.specs.Prelude.{◌<◌, length, IfOk};

use crate::building::{binary, constant, unary};
use kb_term::{Memory, Symbol, Term, term_limit};
use std::alloc::Global;
use std::mem::drop;
use std::process::Abort;
use term_bank::{Bank, Cell, TermId};

/// Brings in a term within the limits.
fn interned(bank: &mut Bank, t: &Term) -> Result<TermId, Memory>
    ensures { IfOk result (λ id. id.0 < length bank.new) }
{
    if term_limit(t).is_some() || bank.used() > 4_000_000 {
        return Err(Memory);
    }
    bank.intern(t)
}

#[test]
fn terms_come_in_once_and_go_from_the_end(rt: HostRuntime) {
    let alloc = rt.alloc();
    let mut bank = Bank::new(alloc);
    let one = unary(&rt, alloc, 1, constant(alloc, 0));
    let first = interned(&mut bank, &one).expect(&rt, "memory");
    assert_eq!(rt; bank.used(), 2);
    let again = interned(&mut bank, &one).expect(&rt, "memory");
    assert_eq!(rt; bank.used(), 2);
    assert!(rt; first == again);
    let inner = constant(alloc, 0);
    assert!(rt; bank.lookup(&inner).is_some());
    drop(inner);
    let other = unary(&rt, alloc, 1, Term::Var(0));
    assert!(rt; bank.lookup(&other).is_none());
    drop(other);
    let two = unary(&rt, alloc, 2, one);
    let last = interned(&mut bank, &two).expect(&rt, "memory");
    assert_eq!(rt; bank.used(), 3);
    assert_eq!(rt; last.0, 2);
    bank.cut(2);
    assert_eq!(rt; bank.used(), 2);
    assert!(rt; bank.lookup(&two).is_none());
    drop(two);
    drop(bank);
}

#[test]
fn a_cell_tells_its_term(rt: HostRuntime) {
    let alloc = rt.alloc();
    let mut bank = Bank::new(alloc);
    let inner = unary(&rt, alloc, 1, Term::Var(3));
    let copy = inner.clone().expect(&rt, "memory");
    let whole = binary(&rt, alloc, 2, inner, copy);
    let id = interned(&mut bank, &whole).expect(&rt, "memory");
    assert_eq!(rt; bank.used(), 3);
    assert_eq!(rt; bank.size(id), 5);
    assert_eq!(rt; bank.depth(id), 3);
    assert!(rt; bank.same(id, id));
    let seen = bank.view(id).expect(&rt, "memory");
    assert!(rt; seen == whole);
    drop(seen);
    drop(whole);
    match bank.cell(id) {
        Cell::Var(_) => assert!(rt; false),
        Cell::App(f, ids) => {
            assert!(rt; f == Symbol(2));
            assert!(rt; ids == [TermId(1), TermId(1)].as_slice());
        }
    }
    drop(bank);
}

/// The term f(..f(x)..) with so many symbols, whose innermost variable has this number.
fn tower(rt: &impl Abort, alloc: Global, height: u8, n: u16) -> Term {
    let mut t = Term::Var(n);
    for _ in 0..height {
        t = unary(rt, alloc, 1, t);
    }
    t
}

#[test]
fn many_terms_keep_their_cells(rt: HostRuntime) {
    let alloc = rt.alloc();
    let mut bank = Bank::new(alloc);
    for n in 0..60u16 {
        let t = tower(&rt, alloc, 9, n);
        let id = interned(&mut bank, &t).expect(&rt, "memory");
        drop(t);
        assert_eq!(rt; id.0, 10 * n as u32 + 9);
    }
    for n in 0..60u16 {
        let t = tower(&rt, alloc, 4, n);
        let id = bank.lookup(&t).expect(&rt, "a cell");
        assert_eq!(rt; id.0, 10 * n as u32 + 4);
        let seen = bank.view(id).expect(&rt, "memory");
        assert!(rt; seen == t);
        drop(seen);
        drop(t);
    }
    if bank.used() >= 300 {
        bank.cut(300);
    }
    for n in 0..60u16 {
        assert_eq!(rt; bank.lookup(&Term::Var(n)).is_some(), n < 30);
    }
    drop(bank);
}

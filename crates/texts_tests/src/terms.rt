use kb_term::{Problem, Signature, Symbol, Term, Terms};
use kb_text::{Fields, line_length, problem_text, read_number, read_term, term_text};
use std::alloc::Global;
use std::process::Abort;

// One symbol, whose name looks like a variable.
fn signature(rt: &impl Abort, alloc: Global) -> Signature {
    let mut symbols = Vec::new(alloc);
    let name = Vec::from_slice(alloc, b"x1").expect(rt, "memory");
    symbols.push((name, 1)).expect(rt, "memory");
    Signature::new(symbols)
}

#[test]
fn variables_look_like_no_symbol(rt: HostRuntime) {
    let signature = signature(&rt, rt.alloc());
    let mut arguments = Vec::new(rt.alloc());
    arguments.push(Term::Var(0)).expect(&rt, "memory");
    let t = Term::App(Symbol(0), Terms::new(arguments));
    let written = term_text(rt.alloc(), &signature, &t).expect(&rt, "memory");
    assert_eq!(rt; written.as_slice(), b"x1(xx1)".as_slice());
}

#[test]
fn a_term_is_read_back(rt: HostRuntime) {
    let signature = signature(&rt, rt.alloc());
    assert_eq!(rt; signature.count(), 1);
    let read = read_term(rt.alloc(), &signature, b"x1(xx64)").expect(&rt, "memory");
    let t = read.expect(&rt, "a term");
    let written = term_text(rt.alloc(), &signature, &t).expect(&rt, "memory");
    assert_eq!(rt; written.as_slice(), b"x1(xx64)".as_slice());
}

#[test]
fn a_problem_is_written(rt: HostRuntime) {
    let mut equations = Vec::new(rt.alloc());
    equations
        .push((Term::Var(0), Term::Var(1)))
        .expect(&rt, "memory");
    let problem = Problem::new(signature(&rt, rt.alloc()), equations);
    let written = problem_text(rt.alloc(), &problem).expect(&rt, "memory");
    assert_eq!(rt;
        written.as_slice(),
        b"(VAR xx1 xx2)\n(RULES\nxx1 == xx2\n)\n".as_slice()
    );
}

#[test]
fn a_text_is_cut(rt: HostRuntime) {
    let fields = Fields::cut(rt.alloc(), b"12 x  y", b' ').expect(&rt, "memory");
    assert_eq!(rt; fields.len(), 4);
    assert!(rt; matches!(read_number(b"4096"), Some(4096)));
    assert!(rt; matches!(read_number(b"04"), None));
    assert!(rt; matches!(line_length(b"ab\nc\n"), Some(2)));
}

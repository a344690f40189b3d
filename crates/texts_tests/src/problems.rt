use kb_syntax::{Bound, Kind, SyntaxFault, parse_problem, term_text};
use kb_term::{Memory, Symbol};
use kb_text::is_word;
use std::alloc::{AllocError, Global};
use std::mem::drop;
use std::test::Fail;

fn side_text(alloc: Global, text: &str) -> Result<Option<Vec<u8>>, Memory> {
    match parse_problem(alloc, text.as_bytes()) {
        Ok(problem) => match problem.equations() {
            [(left, _), ..] => Ok(Some(term_text(alloc, problem.signature(), left)?)),
            [] => Ok(None),
        },
        Err(SyntaxFault::Refused(_)) => Ok(None),
        Err(SyntaxFault::Memory) => Err(Memory),
    }
}

fn read(alloc: Global, text: &str) -> Result<Option<Vec<u8>>, AllocError> {
    side_text(alloc, text).map_err(|_| AllocError)
}

#[test]
fn an_equation_is_read_and_its_left_side_written(rt: HostRuntime) -> Result<(), Fail> {
    let text = "(VAR y x)(RULES f(g(x), y, c()) == x)";
    let written = read(rt.alloc(), text)?.ok_or("not read")?;
    assert_eq!(rt; written.as_slice(), b"f(g(x1),x2,c)".as_slice());
    Ok(())
}

#[test]
fn variables_look_like_no_symbol(rt: HostRuntime) -> Result<(), Fail> {
    let written = read(rt.alloc(), "(VAR y)(RULES x1(y) -> y)")?.ok_or("not read")?;
    assert_eq!(rt; written.as_slice(), b"x1(xx1)".as_slice());
    Ok(())
}

#[test]
fn a_problem_gives_its_parts_back(rt: HostRuntime) {
    let Ok(problem) = parse_problem(rt.alloc(), b"(RULES f(a) == a)") else {
        panic!(&rt; "not read");
    };
    let (signature, equations) = problem.into_parts();
    let symbols = signature.into_symbols();
    assert!(rt;
        symbols.len() == 2 && symbols[0].0.as_slice() == b"f".as_slice() && symbols[0].1 == 1
    );
    assert!(rt; equations.len() == 1);
}

#[test]
fn a_symbol_is_found_by_its_name(rt: HostRuntime) {
    let Ok(problem) = parse_problem(rt.alloc(), b"(RULES f(a) == a)") else {
        panic!(&rt; "not read");
    };
    let signature = problem.signature();
    assert_eq!(rt; signature.symbol_named(b"a"), Some(Symbol(1)));
    assert_eq!(rt; signature.symbol_named(b"g"), None);
    drop(problem);
}

#[test]
fn bytes_are_a_word_or_not(rt: HostRuntime) {
    assert!(rt; is_word(b"END", b"END"));
    assert!(rt; !is_word(b"ENDS", b"END"));
}

// What is read: how many symbols and equations, or the refusal.
#[derive(Clone, Copy, Debug, PartialEq, Eq)]
enum Answer {
    Spelled(usize, usize),
    Refused(Kind, u64),
    NoMemory,
}

fn parsed(alloc: Global, text: &[u8]) -> Answer {
    match parse_problem(alloc, text) {
        Ok(problem) => Answer::Spelled(problem.signature().count(), problem.equations().len()),
        Err(SyntaxFault::Refused(refusal)) => Answer::Refused(refusal.kind, refusal.at),
        Err(SyntaxFault::Memory) => Answer::NoMemory,
    }
}

const REFUSALS: [(&str, Kind, u64); 36] = [
    ("(VAR x y)(RULES f(x,y) == f(x))", Kind::ArityClash, 26),
    ("(RULES f(a) == f)", Kind::ArityClash, 15),
    ("(RULES f(f) == a)", Kind::ArityClash, 7),
    ("(VAR x)(RULES x(a) == a)", Kind::VariableApplied, 14),
    ("(VAR x)(RULES f(x(a)) == a)", Kind::VariableApplied, 16),
    ("(RULES a == b", Kind::Unclosed, 13),
    ("(", Kind::Unclosed, 1),
    ("(COMMENT (a)", Kind::Unclosed, 12),
    ("(RULES a ->= b)", Kind::Relative, 9),
    ("(RULES ->= a)", Kind::Relative, 7),
    ("(RULES a -> b | c -> d)", Kind::Conditional, 14),
    ("(RULES |", Kind::Conditional, 7),
    ("(THEORY (AC f))(RULES )", Kind::Theory, 1),
    ("(RULES )(THEORY )", Kind::Theory, 9),
    ("(STRATEGY INNERMOST)(RULES )", Kind::Strategy, 1),
    ("(VAR x)(STRATEGY )", Kind::Strategy, 8),
    ("", Kind::BadSection, 0),
    ("(VAR x)", Kind::BadSection, 7),
    ("(RULES )(VAR x)", Kind::BadSection, 9),
    ("(\"x\")", Kind::BadSection, 1),
    ("(VAR x x)", Kind::DoubleVariable, 7),
    ("(VAR x)(VAR y x)", Kind::DoubleVariable, 14),
    ("x", Kind::BadToken, 0),
    ("(RULES a b)", Kind::BadToken, 9),
    ("(RULES f(a,) == a)", Kind::BadToken, 11),
    ("(RULES f(a) = f(a))", Kind::BadToken, 12),
    ("(RULES a == b))", Kind::BadToken, 14),
    (
        "(RULES f(a,a,a,a,a,a,a,a,a) == a)",
        Kind::Limit(Bound::Arity),
        24,
    ),
    (
        "(RULES g(f(a,a,a,a,a,a,a,a,a)) == a)",
        Kind::Limit(Bound::Arity),
        26,
    ),
    (
        "(RULES a == b c == d e == f g == h i == j k == l m == n o == p q == r s == t u == v w == x y == a)",
        Kind::Limit(Bound::Symbols),
        91,
    ),
    (
        "(RULES a == b c == d e == f g == h i == j k == l m == n o == p q == r s == t u == v w == x a == y)",
        Kind::Limit(Bound::Symbols),
        96,
    ),
    (
        "v2345678901234567890123456789012345678901234567890123456789012345",
        Kind::Limit(Bound::Name),
        0,
    ),
    (
        "(VAR v2345678901234567890123456789012345678901234567890123456789012345)",
        Kind::Limit(Bound::Name),
        5,
    ),
    (
        "(v2345678901234567890123456789012345678901234567890123456789012345)",
        Kind::Limit(Bound::Name),
        1,
    ),
    (
        "(VAR a b c d e f g h i j k l m n o p q r s t u v w x y z A B C D E F G H I J K L M N O P Q R S T U V W X Y Z 0 1 2 3 4 5 6 7 8 9 + * /)(RULES ff(a,b,c,d,e,f,g,ff(h,i,j,k,l,m,n,ff(o,p,q,r,s,t,u,ff(v,w,x,y,z,A,B,ff(C,D,E,F,G,H,I,ff(J,K,L,M,N,O,P,ff(Q,R,S,T,U,V,W,ff(X,Y,Z,0,1,2,3,ff(4,5,6,7,8,9,+,ff(*,/,a,a,a,a,a,a)))))))))) == a)",
        Kind::Limit(Bound::Variables),
        300,
    ),
    (
        "(VAR a b c d e f g h i j k l m n o p q r s t u v w x y z A B C D E F G H I J K L M N O P Q R S T U V W X Y Z 0 1 2 3 4 5 6 7 8 9 + * /)(RULES ff(a,b,c,d,e,f,g,ff(h,i,j,k,l,m,n,ff(o,p,q,r,s,t,u,ff(v,w,x,y,z,A,B,ff(C,D,E,F,G,H,I,ff(J,K,L,M,N,O,P,ff(Q,R,S,T,U,V,W,ff(X,Y,Z,0,1,2,3,ff(4,5,6,7,8,9,+,*))))))))) == /)",
        Kind::Limit(Bound::Variables),
        309,
    ),
];

#[test]
fn refusals_have_their_kinds_and_places(rt: HostRuntime) {
    for (text, kind, at) in REFUSALS {
        let found = parsed(rt.alloc(), text.as_bytes());
        assert_eq!(rt; found, Answer::Refused(kind, at), "at {text}");
    }
}

const PROBLEMS: [(&str, usize, usize); 10] = [
    ("(RULES )", 0, 0),
    ("(COMMENT \"(a)\" -> | ->= x)(RULES a->b)", 2, 1),
    ("(RULES a-b == =)", 2, 1),
    ("(RULES a == b)(x (VAR))(RULES b -> a)", 2, 2),
    ("(VAR x)(RULES f(c(),x) == c)", 2, 1),
    ("(VAR)(VAR f x)(RULES f == g(x,f))", 1, 1),
    ("(RULES f(a,a,a,a,a,a,a,a) == a)", 2, 1),
    (
        "(RULES a == b c == d e == f g == h i == j k == l m == n o == p q == r s == t u == v w == x)",
        24,
        12,
    ),
    (
        "(RULES v234567890123456789012345678901234567890123456789012345678901234 == a)",
        2,
        1,
    ),
    (
        "(VAR a b c d e f g h i j k l m n o p q r s t u v w x y z A B C D E F G H I J K L M N O P Q R S T U V W X Y Z 0 1 2 3 4 5 6 7 8 9 + * /)(RULES ff(a,b,c,d,e,f,g,ff(h,i,j,k,l,m,n,ff(o,p,q,r,s,t,u,ff(v,w,x,y,z,A,B,ff(C,D,E,F,G,H,I,ff(J,K,L,M,N,O,P,ff(Q,R,S,T,U,V,W,ff(X,Y,Z,0,1,2,3,ff(4,5,6,7,8,9,+,*))))))))) == a)",
        1,
        1,
    ),
];

#[test]
fn problems_are_read(rt: HostRuntime) {
    for (text, symbols, equations) in PROBLEMS {
        let found = parsed(rt.alloc(), text.as_bytes());
        assert_eq!(rt; found, Answer::Spelled(symbols, equations), "at {text}");
    }
}

#[test]
fn bytes_that_are_no_text_are_refused(rt: HostRuntime) {
    let first = parsed(rt.alloc(), b"\xff(RULES )".as_slice());
    assert_eq!(rt; first, Answer::Refused(Kind::NotUtf8, 0));
    let later = parsed(rt.alloc(), b"(VAR x x)\xc3(".as_slice());
    assert_eq!(rt; later, Answer::Refused(Kind::NotUtf8, 9));
}

// The head, so many times the part, and the tail.
fn repeated(
    alloc: Global,
    head: &str,
    part: &str,
    count: usize,
    tail: &str,
) -> Result<Vec<u8>, AllocError> {
    let mut text = Vec::from_slice(alloc, head.as_bytes())?;
    for _ in 0..count {
        text.extend_from_slice(part.as_bytes())?;
    }
    text.extend_from_slice(tail.as_bytes())?;
    Ok(text)
}

const LONG: [(&str, usize, &str, Answer); 9] = [
    ("a == a ", 256, ")", Answer::Spelled(1, 256)),
    (
        "a == a ",
        257,
        ")",
        Answer::Refused(Kind::Limit(Bound::Equations), 1799),
    ),
    (
        "a == a ",
        256,
        ")(RULES b",
        Answer::Refused(Kind::Limit(Bound::Equations), 1807),
    ),
    ("f(", 63, "a", Answer::Refused(Kind::Unclosed, 134)),
    (
        "f(",
        64,
        "a",
        Answer::Refused(Kind::Limit(Bound::Depth), 135),
    ),
    (
        "f(",
        64,
        " a",
        Answer::Refused(Kind::Limit(Bound::Depth), 136),
    ),
    (
        "f(g(a,a,a,a,a,a,a,a),",
        51,
        "a,a",
        Answer::Refused(Kind::Unclosed, 1081),
    ),
    (
        "f(g(a,a,a,a,a,a,a,a),",
        51,
        "a,a,a",
        Answer::Refused(Kind::Limit(Bound::Size), 1082),
    ),
    (
        "f(g(a,a,a,a,a,a,a,a),",
        51,
        "a,a, a",
        Answer::Refused(Kind::Limit(Bound::Size), 1083),
    ),
];

#[test]
fn long_texts_meet_the_limits(rt: HostRuntime) {
    for (part, count, tail, answer) in LONG {
        let text = repeated(rt.alloc(), "(RULES ", part, count, tail).expect(&rt, "memory");
        assert_eq!(rt;
            parsed(rt.alloc(), &text),
            answer,
            "at {count} times {part}"
        );
    }
}

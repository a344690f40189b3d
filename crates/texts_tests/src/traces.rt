// Worked traces: f(f(x)) = a with its overlap with itself, and g(x) = h(x) that rewrites h(x) = k(x).
ghost use Rattle.std.specs.Bool.{OnTrue};
ghost use Rattle.kb_trace.specs.Steps.{ArePairsWithin};

use kb_term::{
    Memory, Origin, Pair, Position, Problem, RuleRef, Signature, Symbol, Term, Terms, canonical,
    pair_limit,
};
use kb_text::TextFault;
use kb_trace::{Step, Trace, TraceFault, read_trace, replay_trace, trace_of, trace_text};
use std::alloc::Global;
use std::mem::drop;
use std::process::Abort;

fn applied(alloc: Global, f: u8, t: Term) -> Result<Term, Memory> {
    let mut items = Vec::new(alloc);
    items.push(t)?;
    Ok(Term::App(Symbol(f), Terms::new(items)))
}

fn constant(alloc: Global, f: u8) -> Term {
    Term::App(Symbol(f), Terms::new(Vec::new(alloc)))
}

fn pair_of(alloc: Global, s: &Term, t: &Term) -> Result<Pair, Memory> {
    if pair_limit(s, t).is_some() {
        return Err(Memory);
    }
    match canonical(alloc, s, t)? {
        None => Err(Memory),
        Some(pair) => Ok(pair),
    }
}

/// f(f(x)) = a.
fn square(alloc: Global) -> Result<(Term, Term), Memory> {
    let once = applied(alloc, 0, Term::Var(0))?;
    let twice = applied(alloc, 0, once)?;
    Ok((twice, constant(alloc, 1)))
}

/// The symbols with these numbers, applied to one variable.
fn alike(alloc: Global, f: u8, g: u8) -> Result<(Term, Term), Memory> {
    Ok((
        applied(alloc, f, Term::Var(0))?,
        applied(alloc, g, Term::Var(0))?,
    ))
}

/// f(f(x)) = a, g(x) = h(x), and h(x) = k(x).
fn problem(alloc: Global) -> Result<Problem, Memory> {
    let mut equations = Vec::new(alloc);
    equations.push(square(alloc)?)?;
    equations.push(alike(alloc, 2, 3)?)?;
    equations.push(alike(alloc, 3, 4)?)?;
    Ok(Problem::new(Signature::new(Vec::new(alloc)), equations))
}

/// The equation, and its overlap with the rule that a step with the number is, at the argument with the number.
fn trace(alloc: Global, cited: u16, argument: u8) -> Result<Trace, Memory> {
    let (left, right) = square(alloc)?;
    let input = Step::new(Origin::Input(1), pair_of(alloc, &left, &right)?);
    let mut position = Position::root(alloc);
    position.push(argument)?;
    let origin = Origin::Overlap {
        outer: RuleRef {
            node: cited,
            dir: 0,
        },
        inner: RuleRef { node: 1, dir: 0 },
        position,
    };
    let below = applied(alloc, 0, constant(alloc, 1))?;
    let overlap = Step::new(origin, pair_of(alloc, &right, &below)?);
    let mut steps = Vec::new(alloc);
    steps.push(input)?;
    steps.push(overlap)?;
    Ok(Trace::new(steps))
}

/// A step with the pair of two such terms.
fn step_alike(alloc: Global, origin: Origin, f: u8, g: u8) -> Result<Step, Memory> {
    let (s, t) = alike(alloc, f, g)?;
    Ok(Step::new(origin, pair_of(alloc, &s, &t)?))
}

/// g(x) = h(x), h(x) = k(x), and g(x) = k(x) by the first of them in the direction, on the side of the second.
fn rewritten(alloc: Global, side: u8, dir: u8) -> Result<Trace, Memory> {
    let origin = Origin::Rewrite {
        node: 2,
        side,
        position: Position::root(alloc),
        rule: RuleRef { node: 1, dir },
    };
    let mut steps = Vec::new(alloc);
    steps.push(step_alike(alloc, Origin::Input(2), 2, 3)?)?;
    steps.push(step_alike(alloc, Origin::Input(3), 3, 4)?)?;
    steps.push(step_alike(alloc, origin, 2, 4)?)?;
    Ok(Trace::new(steps))
}

fn are_within(t: &Trace) -> bool
    ensures { OnTrue result (ArePairsWithin t.now) }
{
    let steps = t.steps();
    for k in 0..steps.len() {
        let pair = steps[k].pair();
        if pair_limit(pair.first(), pair.second()).is_some() {
            return false;
        }
    }
    true
}

fn replayed(alloc: Global, t: &Trace) -> Result<usize, TraceFault> {
    let problem = problem(alloc)?;
    if are_within(t) {
        let pairs = replay_trace(alloc, &problem, t)?;
        Ok(pairs.len())
    } else {
        Err(TraceFault::Memory)
    }
}

#[test]
fn a_right_trace_gives_its_pairs(rt: HostRuntime) {
    let alloc = rt.alloc();
    let t = trace(alloc, 1, 1).expect(&rt, "memory");
    let found = replayed(alloc, &t).expect(&rt, "right");
    assert!(rt; found == 2);
    drop(t);
}

#[test]
fn a_step_that_cites_itself_and_one_at_no_position_are_bad(rt: HostRuntime) {
    let alloc = rt.alloc();
    let own = trace(alloc, 2, 1).expect(&rt, "memory");
    assert!(rt; matches!(&replayed(alloc, &own), Err(TraceFault::BadStep(2))));
    drop(own);
    let nowhere = trace(alloc, 1, 2).expect(&rt, "memory");
    assert!(rt; matches!(&replayed(alloc, &nowhere), Err(TraceFault::BadStep(2))));
    drop(nowhere);
}

#[test]
fn a_direction_above_1_is_bad(rt: HostRuntime) {
    let alloc = rt.alloc();
    let right = rewritten(alloc, 0, 1).expect(&rt, "memory");
    assert!(rt; matches!(&replayed(alloc, &right), Ok(3)));
    drop(right);
    let above = rewritten(alloc, 0, 2).expect(&rt, "memory");
    assert!(rt; matches!(&replayed(alloc, &above), Err(TraceFault::BadStep(3))));
    drop(above);
}

#[test]
fn a_step_has_a_line(rt: HostRuntime) {
    let alloc = rt.alloc();
    let pair = pair_of(alloc, &Term::Var(7), &Term::Var(3)).expect(&rt, "memory");
    let mut steps = Vec::new(alloc);
    steps
        .push(Step::new(Origin::Input(1), pair))
        .expect(&rt, "memory");
    let signature = Signature::new(Vec::new(alloc));
    let t = Trace::new(steps);
    let text = trace_text(alloc, &signature, &t).expect(&rt, "memory");
    drop(t);
    drop(signature);
    assert!(rt; text.as_slice() == b"1 input 1 : x1 = x2\n".as_slice());
    drop(text);
}

#[test]
fn a_step_gives_its_parts_back(rt: HostRuntime) {
    let alloc = rt.alloc();
    let pair = pair_of(alloc, &Term::Var(7), &Term::Var(3)).expect(&rt, "memory");
    let (origin, pair) = Step::new(Origin::Input(1), pair).into_parts();
    assert!(rt; matches!(&origin, Origin::Input(1)) && *pair.second() == Term::Var(1));
}

#[test]
fn nothing_wanted_of_no_nodes_is_no_trace(rt: HostRuntime) {
    let alloc = rt.alloc();
    let nodes: Vec<(Pair, Origin)> = Vec::new(alloc);
    let wanted: Vec<u16> = Vec::new(alloc);
    let found = trace_of(alloc, &nodes, &wanted).expect(&rt, "memory");
    assert!(rt; found.steps().is_empty());
}

/// The number of the first bad line; 0 where the text is read.
fn bad_line(rt: &impl Abort, alloc: Global, lines: &[u8]) -> u64 {
    let signature = Signature::new(Vec::new(alloc));
    match read_trace(alloc, &signature, lines) {
        Ok(_) => 0,
        Err(TextFault::BadText(n)) => n,
        Err(TextFault::Memory) => panic!(rt; "memory"),
    }
}

#[test]
fn a_trace_is_read_back(rt: HostRuntime) {
    let alloc = rt.alloc();
    let signature = Signature::new(Vec::new(alloc));
    let lines =
        b"1 input 256 : x1 = x2\n2 rewrite 1 side 0 at 1.8 by 1 dir 1 : x1 = x2\n3 overlap 4096 dir 0 with 1 dir 1 at e : x1 = x2\n";
    let t = read_trace(alloc, &signature, lines.as_slice()).expect(&rt, "read");
    let text = trace_text(alloc, &signature, &t).expect(&rt, "memory");
    drop(t);
    drop(signature);
    assert!(rt; text.as_slice() == lines.as_slice());
    drop(text);
}

#[test]
fn the_first_bad_line_is_named(rt: HostRuntime) {
    let alloc = rt.alloc();
    assert!(rt; bad_line(&rt, alloc, b"01 input 1 : x1 = x2\n") == 1);
    assert!(rt; bad_line(&rt, alloc, b"1 input 1 : x2 = x1\n") == 1);
    assert!(rt; bad_line(&rt, alloc, b"1 input 1 : x1 = x2\n2 input 1 : x1 = x2") == 2);
    assert!(rt; bad_line(&rt, alloc, b"1 input 1 : x1 = x2\n2 input  1 : x1 = x2\n") == 2);
    assert!(rt; bad_line(&rt, alloc, b"1 input 1 : x1 = x2\n\n") == 2);
}

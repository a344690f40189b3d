// The trace of the nodes that wanted ones reach.
ghost use Rattle.std.specs.Prelude.{◌≡◌, ◌+◌, ◌<◌, ◌≤◌, ℕ, [], ◌∷◌, All, IfOk, OnOk, length, get_or, replicate, false};
ghost use Rattle.kb_trace.specs.Reached.{cites, CitesEarlier, IsTraceOf, AreMarks, HasMarked, with_numbers};

use crate::trace::{Step, Trace};
use kb_term::{Memory, Origin, Pair, RuleRef};
use std::alloc::Global;

/// The trace of the nodes that the wanted ones reach through origins, in node order, numbered from 1. Nodes are numbered from 0,
/// and each cites nodes before it alone.
///
/// It takes time linear in the nodes, and looks at each once from the last on.
pub fn trace_of(alloc: Global, nodes: &[(Pair, Origin)], wanted: &[u16]) -> Result<Trace, Memory>
    requires few { length nodes.now < 65536 }
    requires earlier { CitesEarlier nodes.now }
    requires there { All (λ w. w < length nodes.now) wanted.now }
    ensures { IfOk result (IsTraceOf nodes.now wanted.now) }
{
    let marks = reached(alloc, nodes, wanted)?;
    let mut places = Vec::new(alloc);
    let mut steps = Vec::new(alloc);
    for n in 0..nodes.len() {
        places.push(steps.len() as u16)?;
        if marks[n] {
            let node = &nodes[n];
            let origin = renumbered(&places, &node.1)?;
            let pair = node.0.clone()?;
            steps.push(Step::new(origin, pair))?;
        }
    }
    Ok(Trace::new(steps))
}

/// For each node whether a wanted one reaches it.
fn reached(alloc: Global, nodes: &[(Pair, Origin)], wanted: &[u16]) -> Result<Vec<bool>, Memory>
    requires earlier { CitesEarlier nodes.now }
    requires there { All (λ w. w < length nodes.now) wanted.now }
    ensures { IfOk result (λ marks. AreMarks nodes.now wanted.now marks.items) }
{
    let mut marks = unmarked(alloc, nodes.len())?;
    mark(&mut marks, wanted);
    for i in 0..nodes.len() {
        let n = nodes.len() - 1 - i;
        if marks[n] {
            mark_cited(&mut marks, &nodes[n].1);
        }
    }
    Ok(marks)
}

/// So many marks, none of them set.
fn unmarked(alloc: Global, count: usize) -> Result<Vec<bool>, Memory>
    ensures { IfOk result (λ marks. marks.items ≡ replicate count false) }
{
    let mut marks = Vec::new(alloc);
    for i in 0..count {
        marks.push(false)?;
    }
    Ok(marks)
}

/// Marks these numbers.
fn mark(marks: &mut Vec<bool>, numbers: &[u16])
    requires { All (λ n. n < length marks.old.items) numbers.now }
    ensures { HasMarked numbers.now marks.old.items marks.new.items }
{
    for k in 0..numbers.len() {
        marks[numbers[k] as usize] = true;
    }
}

/// Marks the numbers that the origin cites.
fn mark_cited(marks: &mut Vec<bool>, origin: &Origin)
    requires { All (λ n. n < length marks.old.items) (cites origin.now) }
    ensures { HasMarked (cites origin.now) marks.old.items marks.new.items }
{
    match origin {
        Origin::Input(_) => {}
        Origin::Rewrite { node, rule, .. } => mark(marks, &[*node, rule.node]),
        Origin::Overlap { outer, inner, .. } => mark(marks, &[outer.node, inner.node]),
    }
}

/// The origin with the number, from 1, that each cited node has by its place.
fn renumbered(places: &[u16], origin: &Origin) -> Result<Origin, Memory>
    requires there { All (λ n. n < length places.now) (cites origin.now) }
    requires small { All (λ p. p < 65535) places.now }
    ensures { IfOk result (λ o. o ≡ with_numbers (λ n. get_or places.now n 0 + 1) origin.now) }
{
    match origin {
        Origin::Input(i) => Ok(Origin::Input(*i)),
        Origin::Rewrite {
            node,
            side,
            position,
            rule,
        } => Ok(Origin::Rewrite {
            node: places[*node as usize] + 1,
            side: *side,
            position: position.clone()?,
            rule: renumbered_rule(places, *rule),
        }),
        Origin::Overlap {
            outer,
            inner,
            position,
        } => Ok(Origin::Overlap {
            outer: renumbered_rule(places, *outer),
            inner: renumbered_rule(places, *inner),
            position: position.clone()?,
        }),
    }
}

/// The same of a rule.
fn renumbered_rule(places: &[u16], rule: RuleRef) -> RuleRef
    requires there { rule.node < length places.now }
    requires small { All (λ p. p < 65535) places.now }
    ensures { result ≡ record { node = get_or places.now rule.node 0 + 1; dir = rule.dir } }
{
    RuleRef {
        node: places[rule.node as usize] + 1,
        dir: rule.dir,
    }
}

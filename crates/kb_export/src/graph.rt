// The trace of an answer as a graph.
ghost use Rattle.std.specs.Prelude.{◌≡◌, ◌≤◌, ◌<◌, ◌^◌, ◌++◌, IfOk, OnOk, flat_map, length};
ghost use Rattle.kb_term.specs.View.{equations_of_list, tree_of};
ghost use Rattle.kb_text.specs.Terms.{names_of, term_text as text_of};
ghost use Rattle.kb_export.specs.Graphs.{arrow_line, equation_lines, escaped, escaped_byte, graph_text, label_text, node_line, node_text, origin_lines, rule_line, step_lines, step_text};

use kb_checker::Answer;
use kb_term::{Memory, Origin, Rule, Signature, Term, push_number};
use kb_text::term_text;
use kb_trace::Step;
use std::alloc::Global;

/// A node of the graph: an equation of the problem or a step of the trace, by its number from 1.
#[derive(Clone, Copy)]
pub(crate) enum Node {
    Equation(u64),
    Step(u64),
}

fn push_node(alloc: Global, out: &mut Vec<u8>, node: Node) -> Result<(), Memory>
    ensures { OnOk result (out.new.items ≡ out.old.items ++ node_text node) }
{
    match node {
        Node::Equation(n) => {
            out.extend_from_slice(b"input")?;
            push_number(alloc, out, n)
        }
        Node::Step(n) => {
            out.extend_from_slice(b"step")?;
            push_number(alloc, out, n)
        }
    }
}

// One byte of a label.
fn push_escaped_byte(out: &mut Vec<u8>, b: u8) -> Result<(), Memory>
    ensures { OnOk result (out.new.items ≡ out.old.items ++ escaped_byte b) }
{
    match b {
        b'"' => out.extend_from_slice(b"\\\"")?,
        b'\\' => out.extend_from_slice(b"\\\\")?,
        b'&' => out.extend_from_slice(b"&amp;")?,
        _ => out.push(b)?,
    }
    Ok(())
}

fn push_escaped(out: &mut Vec<u8>, bytes: &[u8]) -> Result<(), Memory>
    ensures { OnOk result (out.new.items ≡ out.old.items ++ escaped bytes.now) }
{
    for b in bytes {
        push_escaped_byte(out, *b)?;
    }
    Ok(())
}

// Two terms with a sign between, as they stand in a label.
fn push_label(
    alloc: Global,
    out: &mut Vec<u8>,
    signature: &Signature,
    sign: &[u8],
    sides: (&Term, &Term),
) -> Result<(), Memory>
    ensures { OnOk result (out.new.items ≡ out.old.items ++ label_text (names_of signature.now) sign.now (tree_of sides.entry.0.now, tree_of sides.entry.1.now)) }
{
    push_escaped(out, &term_text(alloc, signature, sides.0)?)?;
    out.extend_from_slice(sign)?;
    push_escaped(out, &term_text(alloc, signature, sides.1)?)
}

fn push_node_line(
    alloc: Global,
    out: &mut Vec<u8>,
    signature: &Signature,
    node: Node,
    sides: (&Term, &Term),
) -> Result<(), Memory>
    ensures { OnOk result (out.new.items ≡ out.old.items ++ node_line (names_of signature.now) node (tree_of sides.entry.0.now, tree_of sides.entry.1.now)) }
{
    push_node(alloc, out, node)?;
    out.extend_from_slice(b" [label=\"")?;
    push_node(alloc, out, node)?;
    out.extend_from_slice(b": ")?;
    push_label(alloc, out, signature, b" = ", sides)?;
    out.extend_from_slice(b"\"];\n")?;
    Ok(())
}

fn push_arrow(alloc: Global, out: &mut Vec<u8>, from: Node, to: Node) -> Result<(), Memory>
    ensures { OnOk result (out.new.items ≡ out.old.items ++ arrow_line from to) }
{
    push_node(alloc, out, from)?;
    out.extend_from_slice(b" -> ")?;
    push_node(alloc, out, to)?;
    out.extend_from_slice(b";\n")?;
    Ok(())
}

// The arrows to the step with this number.
fn push_origin(alloc: Global, out: &mut Vec<u8>, k: u64, origin: &Origin) -> Result<(), Memory>
    ensures { OnOk result (out.new.items ≡ out.old.items ++ origin_lines k origin.now) }
{
    let step = Node::Step(k);
    match origin {
        Origin::Input(i) => push_arrow(alloc, out, Node::Equation(*i as u64), step),
        Origin::Rewrite { node, rule, .. } => {
            push_arrow(alloc, out, Node::Step(*node as u64), step)?;
            push_arrow(alloc, out, Node::Step(rule.node as u64), step)
        }
        Origin::Overlap { outer, inner, .. } => {
            push_arrow(alloc, out, Node::Step(outer.node as u64), step)?;
            push_arrow(alloc, out, Node::Step(inner.node as u64), step)
        }
    }
}

fn push_equations(
    alloc: Global,
    out: &mut Vec<u8>,
    signature: &Signature,
    equations: &[(Term, Term)],
) -> Result<(), Memory>
    ensures { OnOk result (out.new.items ≡ out.old.items ++ equation_lines (names_of signature.now) 1 (equations_of_list equations.now)) }
{
    for i in 0..equations.len() {
        let equation = &equations[i];
        let node = Node::Equation((i + 1) as u64);
        push_node_line(alloc, out, signature, node, (&equation.0, &equation.1))?;
    }
    Ok(())
}

fn push_step(
    alloc: Global,
    out: &mut Vec<u8>,
    signature: &Signature,
    k: u64,
    step: &Step,
) -> Result<(), Memory>
    ensures { OnOk result (out.new.items ≡ out.old.items ++ step_text (names_of signature.now) k step.now) }
{
    let pair = step.pair();
    let sides = (pair.first(), pair.second());
    push_node_line(alloc, out, signature, Node::Step(k), sides)?;
    push_origin(alloc, out, k, step.origin())
}

fn push_steps(
    alloc: Global,
    out: &mut Vec<u8>,
    signature: &Signature,
    steps: &[Step],
) -> Result<(), Memory>
    ensures { OnOk result (out.new.items ≡ out.old.items ++ step_lines (names_of signature.now) 1 steps.now) }
{
    for i in 0..steps.len() {
        push_step(alloc, out, signature, (i + 1) as u64, &steps[i])?;
    }
    Ok(())
}

// What marks the step that a rule cites.
fn push_rule(
    alloc: Global,
    out: &mut Vec<u8>,
    signature: &Signature,
    rule: &(Rule, u32),
) -> Result<(), Memory>
    ensures { OnOk result (out.new.items ≡ out.old.items ++ rule_line (names_of signature.now) rule.now) }
{
    let (sides, cited) = rule;
    let step = Node::Step(*cited as u64);
    push_node(alloc, out, step)?;
    out.extend_from_slice(b" [style=bold, label=\"")?;
    push_node(alloc, out, step)?;
    out.extend_from_slice(b": ")?;
    push_label(
        alloc,
        out,
        signature,
        b" -> ",
        (sides.left(), sides.right()),
    )?;
    out.extend_from_slice(b"\"];\n")?;
    Ok(())
}

fn push_rules(
    alloc: Global,
    out: &mut Vec<u8>,
    signature: &Signature,
    rules: &[(Rule, u32)],
) -> Result<(), Memory>
    ensures { OnOk result (out.new.items ≡ out.old.items ++ flat_map (rule_line (names_of signature.now)) rules.now) }
{
    for rule in rules {
        push_rule(alloc, out, signature, rule)?;
    }
    Ok(())
}

/// The trace of an answer as a directed graph in the language of Graphviz: a box for each equation of the problem and for each
/// step, with its number and its equation, and an arrow to each step from all that it is made of. The step that a rule cites is
/// drawn bold, with the rule in place of its equation: a later label takes the place of an earlier one.
///
/// In labels a quote and a backslash stand behind a backslash, and an ampersand is written `&amp;`. The time is linear in the
/// answer.
pub fn dot_text(alloc: Global, answer: &Answer) -> Result<Vec<u8>, Memory>
    ensures { IfOk result (λ text. text.items ≡ graph_text answer.now) }
{
    let problem = answer.problem();
    let signature = problem.signature();
    let mut out = Vec::from_slice(alloc, b"digraph trace {\nnode [shape=box];\n")?;
    push_equations(alloc, &mut out, signature, problem.equations())?;
    push_steps(alloc, &mut out, signature, answer.trace().steps())?;
    push_rules(alloc, &mut out, signature, answer.rules())?;
    out.extend_from_slice(b"}\n")?;
    Ok(out)
}

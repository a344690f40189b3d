// Worked examples: each call once, with ample memory.
ghost use Rattle.std.specs.Prelude.{IfOk};
ghost use Rattle.kb_jobs.specs.Rules.{AreNamed};

use kb_jobs::{NamedRules, ReduceSnapshot, SharedPair, SharedRules, reduce};
use kb_label::Process;
use kb_node::NodeId;
use kb_term::{
    Memory, Pair, Rule, RuleRef, Symbol, Term, Terms, canonical, has_few_arguments, pair_limit,
};
use mkb_model::Proposed;
use std::alloc::Global;

fn constant(alloc: Global, f: u8) -> Term {
    Term::App(Symbol(f), Terms::new(Vec::new(alloc)))
}

fn unary(alloc: Global, f: u8, t: Term) -> Result<Term, Memory> {
    let mut items = Vec::new(alloc);
    items.push(t)?;
    Ok(Term::App(Symbol(f), Terms::new(items)))
}

// The rule f(x1) -> x1 of node 1, by the symbol f of the number 0.
fn one_rule(alloc: Global) -> Result<NamedRules, Memory>
    ensures { IfOk result AreNamed }
{
    let mut names = Vec::new(alloc);
    names.push(RuleRef { node: 1, dir: 0 })?;
    let mut rules = Vec::new(alloc);
    rules.push(Rule::new(unary(alloc, 0, Term::Var(0))?, Term::Var(0)))?;
    let rules = SharedRules::new(alloc, rules)?;
    Ok(NamedRules { names, rules })
}

fn pair_of(alloc: Global, a: &Term, b: &Term) -> Option<Pair> {
    match pair_limit(a, b) {
        Some(_) => None,
        None => match canonical(alloc, a, b) {
            Ok(pair) => pair,
            Err(_) => None,
        },
    }
}

fn reduced(alloc: Global, pair: Pair, rules: NamedRules) -> Result<Proposed, Memory>
    requires { AreNamed rules }
{
    if rules.rules.as_slice().len() < 1000 {
        if has_few_arguments(pair.first()) {
            if has_few_arguments(pair.second()) {
                let s = ReduceSnapshot {
                    process: Process::root(),
                    node: NodeId(0),
                    pair: SharedPair::new(alloc, pair)?,
                    rules,
                    any_first: true,
                    any_second: true,
                    unknown: Vec::new(alloc),
                };
                return reduce(alloc, &s);
            }
        }
    }
    Err(Memory)
}

// f(c) = d rewrites to c by f(x1) -> x1: f(c) is the second side of the canonical pair.
#[test]
fn a_node_is_rewritten_at_its_redex(rt: HostRuntime) {
    let alloc = rt.alloc();
    let rules = one_rule(alloc).expect(&rt, "memory");
    let left = unary(alloc, 0, constant(alloc, 1)).expect(&rt, "memory");
    let pair = pair_of(alloc, &left, &constant(alloc, 2)).expect(&rt, "a pair");
    let proposed = reduced(alloc, pair, rules).expect(&rt, "memory");
    assert!(rt; matches!(&proposed, Proposed::Rewrite { .. }));
}

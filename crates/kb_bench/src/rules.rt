// The rules of the cases, measurable by the linear order.
ghost use Rattle.std.specs.Prelude.{◌≡◌, ◌<◌, ◌≤◌, length, IfOk};
ghost use Rattle.std.specs.Bool.{OnTrue};
ghost use Rattle.kb_term.specs.View.{tree_of};
ghost use Rattle.kb_linear.specs.Limits.{IsMeasurable, AreMeasurable};
ghost use Rattle.kb_kbo.specs.Measures.{IsWeight};
ghost use Rattle.std.specs.Prelude.{All};

use crate::shapes::{binary, unary};
use kb_kbo::{Kbo, kbo_greater};
use kb_linear::{Interp, linear_greater};
use kb_lpo::{Precedence, lpo_greater};
use kb_term::{Memory, Rule, Symbol, Term, Terms, has_variables_below, term_limit};
use std::alloc::Global;

// How many pairs of terms are tried at most for the rules of a case.
const MOST_TRIES: u32 = 100000;

fn is_measurable(t: &Term) -> bool
    ensures { OnTrue result (IsMeasurable (tree_of t.now)) }
{
    if !has_variables_below(64, t) {
        return false;
    }
    term_limit(t).is_none()
}

// Adds the rule; a rule above the limits is left out.
fn push_rule(rules: &mut Vec<Rule>, left: Term, right: Term) -> Result<(), Memory>
    requires { AreMeasurable rules.old.items }
    ensures { IfOk result (λ _. AreMeasurable rules.new.items) }
{
    if is_measurable(&left) && is_measurable(&right) {
        rules.push(Rule::new(left, right))?;
    }
    Ok(())
}

/// The next number of a fixed row of numbers, below the bound.
pub fn next(seed: &mut u32, bound: u32) -> u32
    requires { 1 ≤ bound }
    ensures { result < bound }
{
    *seed = seed.wrapping_mul(1664525).wrapping_add(1013904223);
    (*seed >> 16) % bound
}

/// A term of three variables and symbols of these arities, at most so deep.
pub fn some_term(alloc: Global, seed: &mut u32, arities: &[u8], depth: u8) -> Result<Term, Memory>
    requires { length arities.now ≤ 24 }
{
    if depth == 0 || arities.is_empty() || next(seed, 7) == 0 {
        return Ok(Term::Var(next(seed, 3) as u16));
    }
    let f = next(seed, arities.len() as u32) as usize;
    let mut items = Vec::new(alloc);
    for _ in 0..arities[f] {
        items.push(some_term(alloc, seed, arities, depth - 1)?)?;
    }
    Ok(Term::App(Symbol(f as u8), Terms::new(items)))
}

// The precedence of so many symbols that puts every fifth one next.
fn every_fifth(alloc: Global, count: usize) -> Result<Precedence, Memory>
    requires { count ≤ 24 }
{
    let mut symbols = Vec::new(alloc);
    for f in 0..count {
        symbols.push(Symbol(((f * 5 + 3) % count) as u8))?;
    }
    Ok(Precedence::new(symbols))
}

// Constants 1, 0, 3, 2, .. and coefficients 1, 2, 1, 2, .. of so many symbols of one argument.
fn alternating(alloc: Global, count: usize) -> Result<Interp, Memory>
    requires { count ≤ 24 }
{
    let mut rows = Vec::new(alloc);
    for f in 0..count {
        let mut coefficients = Vec::new(alloc);
        coefficients.push(1 + f as u8 % 2)?;
        rows.push((f as u8 * 3 % 4, coefficients))?;
    }
    Ok(Interp::new(rows))
}

// Weights 1, 2, 3, 1, .. of so many symbols.
fn rising_weights(alloc: Global, count: usize) -> Result<Vec<u8>, Memory>
    requires { count ≤ 24 }
    ensures { IfOk result (λ weights. All IsWeight weights.items) }
{
    let mut weights = Vec::new(alloc);
    for f in 0..count {
        weights.push(f as u8 % 3 + 1)?;
    }
    Ok(weights)
}

// An order that chooses the rules of a case.
#[derive(Drop)]
enum Guide {
    Path(Precedence),
    Linear(Interp),
    Weights(Kbo),
}

fn is_above(guide: &Guide, s: &Term, t: &Term) -> bool
    requires left { IsMeasurable (tree_of s.now) }
    requires right { IsMeasurable (tree_of t.now) }
{
    match guide {
        Guide::Path(prec) => lpo_greater(prec, s, t),
        Guide::Linear(interp) => linear_greater(interp, s, t),
        Guide::Weights(order) => kbo_greater(order, s, t),
    }
}

// Adds the rule from the one term to the other where the guide orients it, turned round where asked.
fn push_guided(
    guide: &Guide,
    rules: &mut Vec<Rule>,
    s: Term,
    t: Term,
    turned: bool,
) -> Result<(), Memory>
    requires { AreMeasurable rules.old.items }
    ensures { IfOk result (λ _. AreMeasurable rules.new.items) }
{
    if !is_measurable(&s) {
        return Ok(());
    }
    if !is_measurable(&t) {
        return Ok(());
    }
    if !is_above(guide, &s, &t) {
        return Ok(());
    }
    if turned {
        return push_rule(rules, t, s);
    }
    push_rule(rules, s, t)
}

// So many rules that the guide orients, of terms at most so deep. Where asked, two of them are turned round.
fn guided_rules(
    alloc: Global,
    guide: &Guide,
    arities: &[u8],
    count: usize,
    depth: u8,
    is_turned: bool,
) -> Result<Vec<Rule>, Memory>
    requires { length arities.now ≤ 24 }
    ensures { IfOk result (λ rules. AreMeasurable rules.items) }
{
    let mut seed = 5;
    let mut rules = Vec::new(alloc);
    for _ in 0..MOST_TRIES {
        if rules.len() >= count {
            return Ok(rules);
        }
        let s = some_term(alloc, &mut seed, arities, depth)?;
        let t = some_term(alloc, &mut seed, arities, depth)?;
        let turned = is_turned && (rules.len() == 7 || rules.len() == 11);
        push_guided(guide, &mut rules, s, t, turned)?;
    }
    Ok(rules)
}

/// So many rules that one precedence orients, of terms at most so deep. Where asked, two of them are turned round.
pub fn path_rules(
    alloc: Global,
    arities: &[u8],
    count: usize,
    depth: u8,
    is_turned: bool,
) -> Result<Vec<Rule>, Memory>
    requires { length arities.now ≤ 24 }
    ensures { IfOk result (λ rules. AreMeasurable rules.items) }
{
    let guide = Guide::Path(every_fifth(alloc, arities.len())?);
    guided_rules(alloc, &guide, arities, count, depth, is_turned)
}

/// So many rules over symbols of one argument that one interpretation orients. Where asked, two of them are turned round.
pub fn linear_rules(
    alloc: Global,
    arities: &[u8],
    count: usize,
    depth: u8,
    is_turned: bool,
) -> Result<Vec<Rule>, Memory>
    requires { length arities.now ≤ 24 }
    ensures { IfOk result (λ rules. AreMeasurable rules.items) }
{
    let guide = Guide::Linear(alternating(alloc, arities.len())?);
    guided_rules(alloc, &guide, arities, count, depth, is_turned)
}

/// So many rules that one Knuth-Bendix order orients, of terms at most so deep. Where asked, two of them are turned round.
pub fn weighted_rules(
    alloc: Global,
    arities: &[u8],
    count: usize,
    depth: u8,
    is_turned: bool,
) -> Result<Vec<Rule>, Memory>
    requires { length arities.now ≤ 24 }
    ensures { IfOk result (λ rules. AreMeasurable rules.items) }
{
    let weights = rising_weights(alloc, arities.len())?;
    let guide = Guide::Weights(Kbo::new(weights, every_fifth(alloc, arities.len())?));
    guided_rules(alloc, &guide, arities, count, depth, is_turned)
}

fn product(alloc: Global, s: Term, t: Term) -> Result<Term, Memory> {
    binary(alloc, 0, s, t)
}

fn inverse(alloc: Global, t: Term) -> Result<Term, Memory> {
    unary(alloc, 1, t)
}

fn unit(alloc: Global) -> Term {
    Term::App(Symbol(2), Terms::new(Vec::new(alloc)))
}

fn x() -> Term {
    Term::Var(0)
}

fn y() -> Term {
    Term::Var(1)
}

fn z() -> Term {
    Term::Var(2)
}

// The axioms of groups as rules.
fn push_axioms(alloc: Global, rules: &mut Vec<Rule>) -> Result<(), Memory>
    requires { AreMeasurable rules.old.items }
    ensures { IfOk result (λ _. AreMeasurable rules.new.items) }
{
    push_rule(rules, product(alloc, unit(alloc), x())?, x())?;
    push_rule(
        rules,
        product(alloc, inverse(alloc, x())?, x())?,
        unit(alloc),
    )?;
    push_associativity(alloc, rules)
}

fn push_associativity(alloc: Global, rules: &mut Vec<Rule>) -> Result<(), Memory>
    requires { AreMeasurable rules.old.items }
    ensures { IfOk result (λ _. AreMeasurable rules.new.items) }
{
    let rest = product(alloc, y(), z())?;
    let right = product(alloc, x(), rest)?;
    let left = product(alloc, product(alloc, x(), y())?, z())?;
    push_rule(rules, left, right)
}

// What follows of the unit, and the product of an inverse with a product.
fn push_unit_laws(alloc: Global, rules: &mut Vec<Rule>) -> Result<(), Memory>
    requires { AreMeasurable rules.old.items }
    ensures { IfOk result (λ _. AreMeasurable rules.new.items) }
{
    let left = product(alloc, inverse(alloc, x())?, product(alloc, x(), y())?)?;
    push_rule(rules, left, y())?;
    push_rule(rules, inverse(alloc, unit(alloc))?, unit(alloc))?;
    push_rule(rules, product(alloc, x(), unit(alloc))?, x())
}

// What follows of inverses.
fn push_inverse_laws(alloc: Global, rules: &mut Vec<Rule>) -> Result<(), Memory>
    requires { AreMeasurable rules.old.items }
    ensures { IfOk result (λ _. AreMeasurable rules.new.items) }
{
    push_rule(rules, inverse(alloc, inverse(alloc, x())?)?, x())?;
    push_rule(
        rules,
        product(alloc, x(), inverse(alloc, x())?)?,
        unit(alloc),
    )
}

// What follows of an inverse in a product, and of that of a product.
fn push_product_laws(alloc: Global, rules: &mut Vec<Rule>) -> Result<(), Memory>
    requires { AreMeasurable rules.old.items }
    ensures { IfOk result (λ _. AreMeasurable rules.new.items) }
{
    let left = product(alloc, x(), product(alloc, inverse(alloc, x())?, y())?)?;
    push_rule(rules, left, y())?;
    let left = inverse(alloc, product(alloc, x(), y())?)?;
    push_rule(
        rules,
        left,
        product(alloc, inverse(alloc, y())?, inverse(alloc, x())?)?,
    )
}

// The rules of the completed axioms of groups.
fn push_group_rules(alloc: Global, rules: &mut Vec<Rule>) -> Result<(), Memory>
    requires { AreMeasurable rules.old.items }
    ensures { IfOk result (λ _. AreMeasurable rules.new.items) }
{
    push_axioms(alloc, rules)?;
    push_unit_laws(alloc, rules)?;
    push_inverse_laws(alloc, rules)?;
    push_product_laws(alloc, rules)
}

/// The ten rules of the completed axioms of groups: symbol 0 is the product, 1 the inverse, 2 the unit.
pub fn group_rules(alloc: Global) -> Result<Vec<Rule>, Memory>
    ensures { IfOk result (λ rules. AreMeasurable rules.items) }
{
    let mut rules = Vec::new(alloc);
    push_group_rules(alloc, &mut rules)?;
    Ok(rules)
}

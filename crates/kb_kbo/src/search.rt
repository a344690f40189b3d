// The first Knuth-Bendix order that orients given rules.
ghost use Rattle.std.specs.Prelude.{ℕ, List, ◌≡◌, ◌++◌, ◌∷◌, [], ◌+◌, ◌<◌, ◌≤◌, IsTrue, ◌↔◌, IfOk, All, Contains, length, true, slice_index, slice_index_or};
ghost use Rattle.kb_term.specs.First.{IsFirst};
ghost use Rattle.kb_lpo.specs.Precedences.{precedences};
ghost use Rattle.kb_linear.specs.Limits.{AreMeasurable};
ghost use Rattle.kb_lpo.specs.Search.{numbers};
ghost use Rattle.kb_kbo.specs.Measures.{IsWeight, order_of};
ghost use Rattle.kb_kbo.specs.Orders.{KboOrients, IsFirstKbo, IsLowerBound};
ghost use Rattle.kb_kbo.specs.Search.{Fits, IsAsked, IsPlaced, IsWeighed, IsFloor, lowest_of, floor_behind};

use crate::kbo::{Kbo, MIN_WEIGHT};
use crate::known::Known;
use crate::level::MAX_SYMBOLS;
use crate::needs::{Asked, asked_of, gather, may_orient};
use crate::order::greater;
use kb_lpo::{Precedence, is_listed};
use kb_term::{Memory, Rule, Signature, Symbol};
use std::alloc::Global;

/// The greatest weight that is tried.
const TOP_WEIGHT: u8 = 3;

/// Whether the order orients all rules.
fn orients(weights: &[u8], symbols: &[Symbol], rules: &[Rule]) -> bool
    requires weights { All IsWeight weights.now }
    requires measurable { AreMeasurable rules.now }
    ensures { IsTrue result ↔ KboOrients (order_of weights.now (numbers symbols.now)) rules.now }
{
    for i in 0..rules.len() {
        if !greater(weights, symbols, rules[i].left(), rules[i].right()) {
            return false;
        }
    }
    true
}

/// Whether `f` may stand behind the listed symbols: it is none of them, and no other is known to be above it.
fn may_follow(known: &Known, symbols: &[Symbol], f: Symbol) -> bool
    ensures unlisted { result ≡ true → ¬ Contains (numbers symbols.now) f.0 }
    ensures sound { (rest : List ℕ) → ¬ Contains (numbers symbols.now) f.0 → Fits known.now (numbers symbols.now ++ f.0 ∷ rest) → IsTrue result }
{
    if is_listed(symbols, f) {
        return false;
    }
    for y in 0..8u8 {
        if known.is_above(Symbol(y), f) {
            if !is_listed(symbols, Symbol(y)) {
                return false;
            }
        }
    }
    true
}

/// Puts the symbols that are left behind those of the prefix, as the first arrangement with which these weights orient
/// all rules: place by place each that may follow, the least first.
fn place(
    known: &Known,
    rules: &[Rule],
    weights: &[u8],
    prefix: &mut Vec<Symbol>,
    left: u8,
) -> Result<bool, Memory>
    requires few { length weights.now ≤ 8 }
    requires weights { All IsWeight weights.now }
    requires measurable { AreMeasurable rules.now }
    requires sound { (rest : List ℕ) → KboOrients (order_of weights.now (numbers prefix.old.items ++ rest)) rules.now → Fits known.now (numbers prefix.old.items ++ rest) }
    ensures { IfOk result (λ found. IsPlaced (λ p. KboOrients (order_of weights.now p) rules.now) (length weights.now) left (numbers prefix.old.items) (numbers prefix.new.items) found) }
{
    if left == 0 {
        return Ok(orients(weights, prefix, rules));
    }
    for y in 0..weights.len() as u8 {
        let f = Symbol(y);
        if may_follow(known, prefix, f) {
            prefix.push(f)?;
            if place(known, rules, weights, prefix, left - 1)? {
                return Ok(true);
            }
            prefix.pop();
        }
    }
    Ok(false)
}

/// The weights of the first 8 symbols: those that are given, and for the others the value.
fn filled(weights: &[u8], value: u8) -> [u8; 8]
    ensures { (f : ℕ) → f < 8 → slice_index result f ≡ slice_index_or weights.now f value }
{
    let mut all = [value; 8];
    for f in 0..weights.len().min(8) {
        all[f] = weights[f];
    }
    all
}

/// The first precedence with which these weights orient all rules.
fn first_precedence(
    alloc: Global,
    asked: &Asked,
    rules: &[Rule],
    weights: &[u8],
) -> Result<Option<Precedence>, Memory>
    requires few { length weights.now ≤ 8 }
    requires weights { All IsWeight weights.now }
    requires measurable { AreMeasurable rules.now }
    requires asked { IsAsked rules.now asked.now }
    ensures { IfOk result (λ found. IsFirst (λ p. KboOrients (order_of weights.now p) rules.now) (precedences (length weights.now)) found) }
{
    let mut known = asked.known;
    if !gather(&asked.table, &filled(weights, MIN_WEIGHT), &mut known) {
        return Ok(None);
    }
    let mut symbols = Vec::new(alloc);
    if place(&known, rules, weights, &mut symbols, weights.len() as u8)? {
        return Ok(Some(Precedence::new(symbols)));
    }
    Ok(None)
}

/// The least weight with which weights begin that aren't before the floor.
fn lowest(floor: &[u8]) -> u8
    ensures { result ≡ lowest_of floor.now }
{
    if floor.is_empty() {
        MIN_WEIGHT
    } else {
        floor[0]
    }
}

/// The floor of the search behind the weight.
fn behind(floor: &[u8], weight: u8) -> &[u8]
    ensures { result.now ≡ floor_behind floor.now weight }
{
    if floor.is_empty() {
        return floor;
    }
    if floor[0] == weight {
        &floor[1..]
    } else {
        &floor[..0]
    }
}

/// Puts so many more weights behind those that are given, as in the first order that orients all rules, and answers its
/// precedence. No order with weights before the floor does, so the search begins there.
fn search(
    asked: &Asked,
    rules: &[Rule],
    weights: &mut Vec<u8>,
    left: usize,
    floor: &[u8],
) -> Result<Option<Precedence>, Memory>
    requires few { length weights.old.items + left ≤ 8 }
    requires weights { All IsWeight weights.old.items }
    requires measurable { AreMeasurable rules.now }
    requires asked { IsAsked rules.now asked.now }
    requires floor { IsFloor rules.now (length weights.old.items + left) left weights.old.items floor.now }
    ensures found { IfOk result (IsWeighed rules.now (length weights.old.items + left) left weights.old.items weights.new.items) }
    ensures weights { IfOk result (λ _. All IsWeight weights.new.items) }
{
    if !may_orient(
        &asked.table,
        &filled(weights, MIN_WEIGHT),
        &filled(weights, TOP_WEIGHT),
    ) {
        return Ok(None);
    }
    if left == 0 {
        return first_precedence(*weights.allocator(), asked, rules, weights);
    }
    for weight in lowest(floor)..TOP_WEIGHT + 1 {
        weights.push(weight)?;
        if let Some(found) = search(asked, rules, weights, left - 1, behind(floor, weight))? {
            return Ok(Some(found));
        }
        weights.pop();
    }
    Ok(None)
}

/// The first order that orients all rules, where none with weights before the floor does.
fn search_above(
    alloc: Global,
    sig: &Signature,
    rules: &[Rule],
    floor: &[u8],
) -> Result<Option<Kbo>, Memory>
    requires measurable { AreMeasurable rules.now }
    requires floor { IsFloor rules.now (length sig.now) (length sig.now) [] floor.now }
    ensures { IfOk result (λ found. IsFirstKbo sig.now rules.now found) }
{
    let count = sig.count();
    if count > MAX_SYMBOLS {
        return Ok(None);
    }
    let Some(asked) = asked_of(alloc, rules)? else {
        return Ok(None);
    };
    let mut weights = Vec::with_capacity(alloc, count)?;
    match search(&asked, rules, &mut weights, count, floor)? {
        Some(precedence) => Ok(Some(Kbo::new(weights, precedence))),
        None => Ok(None),
    }
}

/// The first order with weights 1 to 3, by the weights and then by the precedence, that orients all rules; none where none
/// does, or where the signature has more than 8 symbols.
pub fn search_kbo(alloc: Global, sig: &Signature, rules: &[Rule]) -> Result<Option<Kbo>, Memory>
    requires few { length sig.now ≤ 24 }
    requires measurable { AreMeasurable rules.now }
    ensures { IfOk result (λ found. IsFirstKbo sig.now rules.now found) }
{
    search_above(alloc, sig, rules, &[])
}

/// The same, where nothing that is tried before `start` orients all rules, as where `start` is the first for some of them.
pub fn search_kbo_from(
    alloc: Global,
    sig: &Signature,
    rules: &[Rule],
    start: Kbo,
) -> Result<Option<Kbo>, Memory>
    requires few { length sig.now ≤ 24 }
    requires measurable { AreMeasurable rules.now }
    requires start { IsLowerBound sig.now rules.now start }
    ensures { IfOk result (λ found. IsFirstKbo sig.now rules.now found) }
{
    if orients(start.weights(), start.precedence().symbols(), rules) {
        return Ok(Some(start));
    }
    search_above(alloc, sig, rules, start.weights())
}

// The first precedence that orients given rules.
ghost use Rattle.std.specs.Prelude.{ℕ, List, ◌≡◌, ◌++◌, IsTrue, IsSome, IsSomeAnd, ◌↔◌, IfOk, IfSome, map, ◌+◌, ◌<◌, ◌≤◌, length, Contains, [], ◌∷◌, true, false};
ghost use Rattle.std.specs.Int.{bit_at};
ghost use Rattle.kb_term.specs.Pair.{place_in};
ghost use Rattle.kb_lpo.specs.PathOrder.{LpoGreater, IsAbove};
ghost use Rattle.kb_lpo.specs.Precedences.{precedences};
ghost use Rattle.kb_term.specs.First.{IsFirst};
ghost use Rattle.kb_term.specs.declared.term.Symbol.{Symbol};
ghost use Rattle.kb_lpo.specs.Search.{EachThatGoesOn, Fits, IsFloor, IsSearched, IsTried, floor_behind, lowest_of, numbers};
ghost use Rattle.kb_lpo.specs.Precedences.{IsLowerBound, LpoOrients};

use crate::known::Known;
use crate::needs::force;
use crate::open::open_pair;
use crate::order::{greater, has_symbol};
use crate::possible::possible;
use crate::precedence::Precedence;
use kb_term::{Memory, Rule, Signature, Symbol};
use std::alloc::Global;

/// The steps that a search takes to find what one rule needs before it leaves the rest of it open. Rules that are compared
/// in more steps have hundreds of ways to be oriented.
const FUEL: u32 = 1000;

/// The same on the first way through the rules, after which most sets have an answer.
const FIRST_FUEL: u32 = 30;

/// How many pairs of symbols are decided one after the other at the most: as many as 24 symbols have.
const PAIRS: u32 = 276;

/// Whether the precedence orients all rules.
fn orients(symbols: &[Symbol], rules: &[Rule]) -> bool
    ensures { IsTrue result ↔ LpoOrients (numbers symbols.now) rules.now }
{
    for i in 0..rules.len() {
        if !greater(symbols, rules[i].left(), rules[i].right()) {
            return false;
        }
    }
    true
}

/// Records what each rule needs, in so many steps for each: false where no precedence that fits orients all.
fn force_all(known: &mut Known, rules: &[Rule], fuel: u32) -> bool
    ensures { (prec : List ℕ) → Fits known.old prec → LpoOrients prec rules.now → IsTrue result × Fits known.new prec }
{
    for i in 0..rules.len() {
        let mut left = fuel;
        match force(known, rules[i].left(), rules[i].right(), &mut left) {
            Some(more) => *known = more,
            None => return false,
        }
    }
    true
}

/// Whether the rules are still possible, where `f` was put above other symbols: false where no precedence that fits orients
/// all. This changes nothing for rules without `f` on the right, so they are left out.
fn are_possible(known: &Known, rules: &[Rule], f: Symbol) -> bool
    ensures { (prec : List ℕ) → Fits known.now prec → LpoOrients prec rules.now → IsTrue result }
{
    for i in 0..rules.len() {
        if has_symbol(rules[i].right(), f) {
            if !possible(known, rules[i].left(), rules[i].right()) {
                return false;
            }
        }
    }
    true
}

/// Records what the rules need until nothing new is learnt: false where no precedence that fits orients all.
fn propagate(known: &mut Known, rules: &[Rule]) -> bool
    ensures { (prec : List ℕ) → Fits known.old prec → LpoOrients prec rules.now → IsTrue result × Fits known.new prec }
{
    for _ in 0..PAIRS {
        let before = *known;
        if !force_all(known, rules, FUEL) {
            return false;
        }
        if *known == before {
            return true;
        }
    }
    true
}

/// What is known and more, by which the rules are decided: none only where no precedence that fits orients all. Each
/// comparison of two symbols that the rules leave open is decided one way and then the other; `pairs` bounds how many are
/// decided at a time.
#[cycle(decide)]
fn decide(known: &Known, rules: &[Rule], pairs: u32) -> Option<Known>
    ensures { (prec : List ℕ) → Fits known.now prec → LpoOrients prec rules.now → IsSome result }
{
    if pairs == 0 {
        return Some(*known);
    }
    match open_pair(known, rules) {
        None => Some(*known),
        Some(open) => {
            let rest = &rules[open.place..];
            let found = decide_with(known, rest, open.first, open.second, pairs - 1);
            if found.is_some() {
                return found;
            }
            decide_with(known, rest, open.second, open.first, pairs - 1)
        }
    }
}

/// The same of the precedences in which `f` doesn't stand behind `g`.
#[cycle(decide)]
fn decide_with(known: &Known, rules: &[Rule], f: Symbol, g: Symbol, pairs: u32) -> Option<Known>
    ensures { (prec : List ℕ) → Fits known.now prec → place_in prec f.0 ≤ place_in prec g.0 → LpoOrients prec rules.now → IsSome result }
{
    let mut more = *known;
    more.put(f, g);
    if !propagate(&mut more, rules) {
        return None;
    }
    decide(&more, rules, pairs)
}

/// The table by which the rules were decided before, or one that is looked for: none only where no precedence that fits
/// orients all.
fn decided(known: &Known, rules: &[Rule], before: Option<Known>) -> Option<Known>
    ensures { (prec : List ℕ) → Fits known.now prec → LpoOrients prec rules.now → IsSome result }
{
    if before.is_some() {
        return before;
    }
    decide(known, rules, PAIRS)
}

/// Whether the symbol is listed.
pub fn is_listed(symbols: &[Symbol], f: Symbol) -> bool
    ensures { IsTrue result ↔ Contains (numbers symbols.now) f.0 }
{
    for i in 0..symbols.len() {
        if symbols[i] == f {
            return true;
        }
    }
    false
}

/// Records that `f` is above `g`, if `g` is another symbol and is not listed: false where this cannot be.
fn put_above(known: &mut Known, symbols: &[Symbol], f: Symbol, g: Symbol) -> bool
    ensures { (prec : List ℕ) → Fits known.old prec → (¬ Contains (numbers symbols.now) g.0 → ¬ (f.0 ≡ g.0) → IsAbove prec f.0 g.0) → IsTrue result × Fits known.new prec }
{
    if f == g {
        return true;
    }
    if is_listed(symbols, g) {
        return true;
    }
    known.learn(f, g)
}

/// Records that `f` is above each symbol below `count` that is not listed: false where this cannot be.
fn put_next(known: &mut Known, symbols: &[Symbol], f: Symbol, count: u8) -> bool
    ensures { (prec : List ℕ) → Fits known.old prec → ((g : ℕ) → ¬ Contains (numbers symbols.now) g → ¬ (f.0 ≡ g) → IsAbove prec f.0 g) → IsTrue result × Fits known.new prec }
{
    for y in 0..count {
        if !put_above(known, symbols, f, Symbol(y)) {
            return false;
        }
    }
    true
}

/// Puts `f` behind the listed symbols: false where it is listed, or what the rules need refuses it.
fn place_next(known: &mut Known, rules: &[Rule], symbols: &[Symbol], f: Symbol, count: u8) -> bool
    ensures unlisted { result ≡ true → ¬ Contains (numbers symbols.now) f.0 }
    ensures sound { EachThatGoesOn known.old rules.now (numbers symbols.now) f.0 (λ prec. IsTrue result × Fits known.new prec) }
{
    if is_listed(symbols, f) {
        return false;
    }
    if !put_next(known, symbols, f, count) {
        return false;
    }
    propagate(known, rules)
}

/// Whether `f` may stand behind the listed symbols: it is none of them, and none of the others has to stand before it.
fn may_follow(known: &Known, symbols: &[Symbol], f: Symbol, count: u8) -> bool
    ensures unlisted { result ≡ true → ¬ Contains (numbers symbols.now) f.0 }
    ensures sound { (rest : List ℕ) → ¬ Contains (numbers symbols.now) f.0 → Fits known.now (numbers symbols.now ++ f.0 ∷ rest) → IsTrue result }
{
    if is_listed(symbols, f) {
        return false;
    }
    for y in 0..count {
        if y != f.0 && known.is_from(Symbol(y), f) {
            if !is_listed(symbols, Symbol(y)) {
                return false;
            }
        }
    }
    true
}

/// The same, where less is refused in fewer steps: rules that alone are no longer possible.
fn place_possible(
    known: &mut Known,
    rules: &[Rule],
    symbols: &[Symbol],
    f: Symbol,
    count: u8,
) -> bool
    ensures unlisted { result ≡ true → ¬ Contains (numbers symbols.now) f.0 }
    ensures sound { EachThatGoesOn known.old rules.now (numbers symbols.now) f.0 (λ prec. IsTrue result × Fits known.new prec) }
{
    if is_listed(symbols, f) {
        return false;
    }
    if !put_next(known, symbols, f, count) {
        return false;
    }
    are_possible(known, rules, f)
}

/// The table, if `f` may stand behind the listed symbols by it.
fn fitting(table: &Known, symbols: &[Symbol], f: Symbol, count: u8) -> Option<Known>
    ensures unlisted { IfSome result (λ more. ¬ Contains (numbers symbols.now) f.0) }
    ensures sound { (rest : List ℕ) → ¬ Contains (numbers symbols.now) f.0 → Fits table.now (numbers symbols.now ++ f.0 ∷ rest) → IsSomeAnd result (λ more. Fits more (numbers symbols.now ++ f.0 ∷ rest)) }
{
    if may_follow(table, symbols, f, count) {
        return Some(*table);
    }
    None
}

/// What is known once `f` stands behind the listed symbols, if it may by what is known and by each rule alone.
fn fitting_rules(
    known: &Known,
    rules: &[Rule],
    symbols: &[Symbol],
    f: Symbol,
    count: u8,
) -> Option<Known>
    ensures unlisted { IfSome result (λ more. ¬ Contains (numbers symbols.now) f.0) }
    ensures sound { EachThatGoesOn known.now rules.now (numbers symbols.now) f.0 (λ prec. IsSomeAnd result (λ more. Fits more prec)) }
{
    let mut more = *known;
    if place_possible(&mut more, rules, symbols, f, count) {
        return Some(more);
    }
    None
}

/// A bit for each of the symbols below 32.
fn marks_of(symbols: &[Symbol]) -> u32
    ensures { (y : ℕ) → bit_at result y ≡ 1 → Contains (numbers symbols.now) y }
{
    let mut marks: u32 = 0;
    for i in 0..symbols.len() {
        let f = symbols[i].0;
        if f < u32::BITS as u8 {
            marks |= 1 << f;
        }
    }
    marks
}

/// Whether the bit of the number is set.
fn is_marked(marks: u32, y: u8) -> bool
    ensures { result ≡ true → bit_at marks y ≡ 1 }
{
    if y < u32::BITS as u8 {
        return marks >> y & 1 == 1;
    }
    false
}

/// By what it is tested whether a symbol may come next, where one arrangement is built.
#[derive(Clone, Copy)]
enum Test {
    /// By what is known.
    Known,
    /// By what is known and by each rule alone, whether it is possible.
    Rules,
}

/// How one arrangement of so many symbols is built that is to orient all rules.
#[derive(Clone, Copy)]
struct Arranging<'a> {
    rules: &'a [Rule],
    count: u8,
    test: Test,
}

impl<'a> Arranging<'a> {
    /// What is known once `f` stands behind the listed symbols: none where it is listed, or the test refuses it.
    fn placed(&self, known: &Known, symbols: &[Symbol], f: Symbol) -> Option<Known>
        ensures unlisted { IfSome result (λ more. ¬ Contains (numbers symbols.now) f.0) }
        ensures sound { EachThatGoesOn known.now self.now.rules.now (numbers symbols.now) f.0 (λ prec. IsSomeAnd result (λ more. Fits more prec)) }
    {
        match self.test {
            Test::Known => fitting(known, symbols, f, self.count),
            Test::Rules => fitting_rules(known, self.rules, symbols, f, self.count),
        }
    }

    /// Puts the symbols that are left behind those of the prefix, each time the least that passes the test, and tries this one
    /// arrangement. Where it orients all rules it is the first that does; else the prefix is as before.
    fn try_first(&self, known: &Known, prefix: &mut Vec<Symbol>, left: u8) -> Result<bool, Memory>
        requires { (rest : List ℕ) → LpoOrients (numbers prefix.old.items ++ rest) self.now.rules.now → Fits known.now (numbers prefix.old.items ++ rest) }
        ensures { IfOk result (λ found. IsTried self.now.rules.now self.now.count left (numbers prefix.old.items) (numbers prefix.new.items) found) }
    {
        if left == 0 {
            return Ok(orients(prefix, self.rules));
        }
        let listed = marks_of(prefix);
        for y in 0..self.count {
            if is_marked(listed, y) {
                continue;
            }
            let f = Symbol(y);
            if let Some(more) = self.placed(known, prefix, f) {
                prefix.push(f)?;
                if self.try_first(&more, prefix, left - 1)? {
                    return Ok(true);
                }
                prefix.pop();
                return Ok(false);
            }
        }
        Ok(false)
    }
}

/// The least symbol with which an arrangement that isn't before the floor begins.
fn lowest(floor: &[Symbol]) -> u8
    ensures { result ≡ lowest_of (numbers floor.now) }
{
    if floor.is_empty() { 0 } else { floor[0].0 }
}

/// The floor of the search behind `f`.
fn behind(floor: &[Symbol], f: Symbol) -> &[Symbol]
    ensures { numbers result.now ≡ floor_behind (numbers floor.now) f.0 }
{
    if floor.is_empty() {
        return floor;
    }
    if floor[0] == f {
        &floor[1..]
    } else {
        &floor[..0]
    }
}

/// Puts the symbols that are left behind those of the prefix, as the first arrangement that orients all rules: at each
/// place the least symbol with which the rules can still be decided. None before the floor orients them, so the search
/// begins there; an empty floor lets it begin at the first arrangement. A table by which the rules were decided goes on to
/// the next place where its symbol fits it.
#[cycle(search_from)]
fn search_from(
    known: &Known,
    rules: &[Rule],
    count: u8,
    prefix: &mut Vec<Symbol>,
    left: u8,
    floor: &[Symbol],
    before: Option<Known>,
) -> Result<bool, Memory>
    requires sound { (rest : List ℕ) → LpoOrients (numbers prefix.old.items ++ rest) rules.now → Fits known.now (numbers prefix.old.items ++ rest) }
    requires bound { IsFloor rules.now count left (numbers prefix.old.items) (numbers floor.now) }
    ensures { IfOk result (λ found. IsSearched rules.now count left (numbers prefix.old.items) (numbers prefix.new.items) found) }
{
    if left == 0 {
        return Ok(orients(prefix, rules));
    }
    let Some(table) = decided(known, rules, before) else {
        return Ok(false);
    };
    for y in lowest(floor)..count {
        let f = Symbol(y);
        let mut more = *known;
        if place_next(&mut more, rules, prefix, f, count) {
            let next = fitting(&table, prefix, f, count);
            prefix.push(f)?;
            let next_floor = behind(floor, f);
            if search_or_fit(&more, rules, count, prefix, left - 1, next_floor, next)? {
                return Ok(true);
            }
            prefix.pop();
        }
    }
    Ok(false)
}

/// The same, where the first arrangement that fits what is known is tested before.
#[cycle(search_from)]
fn search_or_fit(
    known: &Known,
    rules: &[Rule],
    count: u8,
    prefix: &mut Vec<Symbol>,
    left: u8,
    floor: &[Symbol],
    before: Option<Known>,
) -> Result<bool, Memory>
    requires sound { (rest : List ℕ) → LpoOrients (numbers prefix.old.items ++ rest) rules.now → Fits known.now (numbers prefix.old.items ++ rest) }
    requires bound { IsFloor rules.now count left (numbers prefix.old.items) (numbers floor.now) }
    ensures { IfOk result (λ found. IsSearched rules.now count left (numbers prefix.old.items) (numbers prefix.new.items) found) }
{
    let fitting = Arranging {
        rules,
        count,
        test: Test::Known,
    };
    if fitting.try_first(known, prefix, left)? {
        return Ok(true);
    }
    search_from(known, rules, count, prefix, left, floor, before)
}

/// The first precedence that orients all rules, where none before the floor does.
fn search_above(
    alloc: Global,
    sig: &Signature,
    rules: &[Rule],
    floor: &[Symbol],
) -> Result<Option<Precedence>, Memory>
    requires few { length sig.now ≤ 24 }
    requires bound { IsFloor rules.now (length sig.now) (length sig.now) [] (numbers floor.now) }
    ensures { IfOk result (λ found. IsFirst (λ prec. LpoOrients prec rules.now) (precedences (length sig.now)) found) }
{
    let count = sig.count() as u8;
    let mut known = Known::new();
    if !force_all(&mut known, rules, FIRST_FUEL) {
        return Ok(None);
    }
    let mut prefix = Vec::new(alloc);
    let fitting = Arranging {
        rules,
        count,
        test: Test::Known,
    };
    if fitting.try_first(&known, &mut prefix, count)? {
        return Ok(Some(Precedence::new(prefix)));
    }
    let possible = Arranging {
        rules,
        count,
        test: Test::Rules,
    };
    if possible.try_first(&known, &mut prefix, count)? {
        return Ok(Some(Precedence::new(prefix)));
    }
    if !propagate(&mut known, rules) {
        return Ok(None);
    }
    if search_or_fit(&known, rules, count, &mut prefix, count, floor, None)? {
        return Ok(Some(Precedence::new(prefix)));
    }
    Ok(None)
}

/// The first precedence of the signature's symbols, in lexicographic order of their numbers, that orients all rules;
/// none where none does. Its memory is that of the precedence.
pub fn search_lpo(
    alloc: Global,
    sig: &Signature,
    rules: &[Rule],
) -> Result<Option<Precedence>, Memory>
    requires { length sig.now ≤ 24 }
    ensures { IfOk result (λ found. IsFirst (λ prec. LpoOrients prec rules.now) (precedences (length sig.now)) found) }
{
    search_above(alloc, sig, rules, &[])
}

/// The same from `start` on, where no precedence before `start` orients all rules, as where `start` is the first for
/// some of them.
pub fn search_lpo_from(
    alloc: Global,
    sig: &Signature,
    rules: &[Rule],
    start: Precedence,
) -> Result<Option<Precedence>, Memory>
    requires few { length sig.now ≤ 24 }
    requires bound { IsLowerBound (length sig.now) rules.now start }
    ensures { IfOk result (λ found. IsFirst (λ prec. LpoOrients prec rules.now) (precedences (length sig.now)) found) }
{
    if orients(start.symbols(), rules) {
        return Ok(Some(start));
    }
    search_above(alloc, sig, rules, start.symbols())
}

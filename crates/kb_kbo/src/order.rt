// The Knuth-Bendix order of a given order: D. E. Knuth and P. B. Bendix, Simple word problems in universal algebras (1970).
ghost use Rattle.std.specs.Prelude.{ℕ, List, ◌≡◌, ◌↔◌, ◌+◌, ◌*◌, ◌<◌, ◌≤◌, IsTrue, All, map, length, slice_index, slice_index_or};
ghost use Rattle.kb_term.specs.Tree.{tree_size, variables_of};
ghost use Rattle.kb_term.specs.View.{tree_of};
ghost use Rattle.kb_linear.specs.Limits.{IsMeasurable};
ghost use Rattle.kb_kbo.specs.KnuthBendix.{KboGreater, HoldsVariables, occurrences, weight};
ghost use Rattle.kb_lpo.specs.Search.{numbers};
ghost use Rattle.kb_kbo.specs.Measures.{IsWeight, order_of};

use crate::kbo::Kbo;
use kb_lpo::{agreement, is_above};
use kb_term::{MAX_SIZE, Symbol, Term};

/// The weight of the symbol; one without a weight of its own weighs 1.
fn weight_at(weights: &[u8], f: Symbol) -> u32
    requires { All IsWeight weights.now }
    ensures weight { result ≡ slice_index_or weights.now f.0 1 }
    ensures most { result ≤ 15 }
{
    if (f.0 as usize) < weights.len() {
        u32::from(weights[f.0 as usize])
    } else {
        1
    }
}

/// The weight of the term.
pub(crate) fn weight_of(weights: &[u8], t: &Term) -> u32
    requires weights { All IsWeight weights.now }
    requires size { tree_size (tree_of t.now) ≤ MAX_SIZE }
    ensures weight { (p : List ℕ) → result ≡ weight (order_of weights.now p) (tree_of t.now) }
    ensures most { result ≤ 15 * tree_size (tree_of t.now) }
{
    match t {
        Term::Var(_) => 1,
        Term::App(f, arguments) => {
            let mut total = weight_at(weights, *f);
            let items = arguments.items();
            for j in 0..items.len() {
                total += weight_of(weights, &items[j]);
            }
            total
        }
    }
}

/// No occurrences.
fn no_counts() -> [u16; 64]
    ensures { (n : ℕ) → slice_index result n ≡ 0 }
{
    [0; 64]
}

/// Adds how often each variable occurs in the term.
fn count_variables(counts: &mut [u16; 64], t: &Term)
    requires variables { All (λ n. n < 64) (variables_of (tree_of t.now)) }
    requires room { (n : ℕ) → slice_index counts.old n + tree_size (tree_of t.now) ≤ MAX_SIZE }
    ensures { (n : ℕ) → slice_index counts.new n ≡ slice_index counts.old n + occurrences n (variables_of (tree_of t.now)) }
{
    match t {
        Term::Var(n) => {
            counts[*n as usize] += 1;
        }
        Term::App(_, arguments) => {
            let items = arguments.items();
            for j in 0..items.len() {
                count_variables(counts, &items[j]);
            }
        }
    }
}

/// Whether each variable occurs at least as often in `s` as in `t`.
pub(crate) fn holds_variables(s: &Term, t: &Term) -> bool
    requires left { IsMeasurable (tree_of s.now) }
    requires right { IsMeasurable (tree_of t.now) }
    ensures { IsTrue result ↔ HoldsVariables (tree_of s.now) (tree_of t.now) }
{
    let mut left = no_counts();
    count_variables(&mut left, s);
    let mut right = no_counts();
    count_variables(&mut right, t);
    for k in 0..64 {
        if left[k] < right[k] {
            return false;
        }
    }
    true
}

/// Whether `s` is above `t`: at each level of the lexicographic comparison the two arguments are weighed and their
/// variables counted anew, so the cost is at most the product of size and depth.
pub(crate) fn greater(weights: &[u8], symbols: &[Symbol], s: &Term, t: &Term) -> bool
    requires weights { All IsWeight weights.now }
    requires left { IsMeasurable (tree_of s.now) }
    requires right { IsMeasurable (tree_of t.now) }
    ensures { IsTrue result ↔ KboGreater (order_of weights.now (numbers symbols.now)) (tree_of s.now) (tree_of t.now) }
{
    let left = weight_of(weights, s);
    let right = weight_of(weights, t);
    if left < right {
        return false;
    }
    if !holds_variables(s, t) {
        return false;
    }
    if left > right {
        return true;
    }
    match (s, t) {
        (Term::App(f, front), Term::App(g, back)) => {
            if *f != *g {
                return is_above(symbols, *f, *g);
            }
            let ss = front.items();
            let ts = back.items();
            let n = agreement(ss, ts);
            if n < ss.len() && n < ts.len() {
                return greater(weights, symbols, &ss[n], &ts[n]);
            }
            false
        }
        _ => false,
    }
}

/// Whether `s` is above `t` in the Knuth-Bendix order. It takes no memory.
pub fn kbo_greater(order: &Kbo, s: &Term, t: &Term) -> bool
    requires left { IsMeasurable (tree_of s.now) }
    requires right { IsMeasurable (tree_of t.now) }
    ensures { IsTrue result ↔ KboGreater order.now (tree_of s.now) (tree_of t.now) }
{
    greater(order.weights(), order.precedence().symbols(), s, t)
}

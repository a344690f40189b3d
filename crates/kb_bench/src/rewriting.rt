// The cases of rewriting, and their answers' checksums.
ghost use Rattle.std.specs.Prelude.{◌≡◌, length, IfOk};

use crate::runs::with_next;
use crate::shapes::{binary, full_tree, unary};
use kb_rewrite::{Normal, System, normal_form};
use kb_term::{Memory, Rule, Symbol, Term, Terms};
use std::alloc::Global;

fn zero(alloc: Global) -> Term {
    Term::App(Symbol(0), Terms::new(Vec::new(alloc)))
}

fn successor(alloc: Global, t: Term) -> Result<Term, Memory> {
    unary(alloc, 1, t)
}

fn sum(alloc: Global, s: Term, t: Term) -> Result<Term, Memory> {
    binary(alloc, 2, s, t)
}

fn product(alloc: Global, s: Term, t: Term) -> Result<Term, Memory> {
    binary(alloc, 3, s, t)
}

fn numeral(alloc: Global, n: u8) -> Result<Term, Memory> {
    let mut t = zero(alloc);
    for _ in 0..n {
        t = successor(alloc, t)?;
    }
    Ok(t)
}

fn push_sum_rules(alloc: Global, rules: &mut Vec<Rule>) -> Result<(), Memory> {
    rules.push(Rule::new(sum(alloc, zero(alloc), Term::Var(0))?, Term::Var(0)))?;
    let more = successor(alloc, Term::Var(0))?;
    let rest = sum(alloc, Term::Var(0), Term::Var(1))?;
    rules.push(Rule::new(sum(alloc, more, Term::Var(1))?, successor(alloc, rest)?))?;
    Ok(())
}

fn push_product_rules(alloc: Global, rules: &mut Vec<Rule>) -> Result<(), Memory> {
    rules.push(Rule::new(product(alloc, zero(alloc), Term::Var(0))?, zero(alloc)))?;
    let more = successor(alloc, Term::Var(0))?;
    let rest = product(alloc, Term::Var(0), Term::Var(1))?;
    rules.push(Rule::new(
        product(alloc, more, Term::Var(1))?,
        sum(alloc, Term::Var(1), rest)?,
    ))?;
    Ok(())
}

// Sums and products of numerals: the symbols 0 to 3 are zero, the successor, the sum and the product.
fn numeral_rules(alloc: Global) -> Result<Vec<Rule>, Memory> {
    let mut rules = Vec::new(alloc);
    push_sum_rules(alloc, &mut rules)?;
    push_product_rules(alloc, &mut rules)?;
    Ok(rules)
}

// The rule that turns a node of symbol 0 round, to one of symbol 1.
fn turning_rules(alloc: Global) -> Result<Vec<Rule>, Memory> {
    let left = binary(alloc, 0, Term::Var(0), Term::Var(1))?;
    let right = binary(alloc, 1, Term::Var(1), Term::Var(0))?;
    let mut rules = Vec::new(alloc);
    rules.push(Rule::new(left, right))?;
    Ok(rules)
}

fn term_code(t: &Term) -> u64 {
    match t {
        Term::Var(n) => u64::from(*n),
        Term::App(f, arguments) => {
            let mut code = u64::from(f.0);
            let items = arguments.items();
            for k in 0..items.len() {
                code = with_next(code, term_code(&items[k]));
            }
            code
        }
    }
}

// The normal form and the number of steps; less than 1000 where there is none.
fn normal_code(normal: &Normal) -> u64 {
    match normal {
        Normal::Form(t, steps) => with_next(term_code(t), u64::from(*steps)),
        Normal::Long(_) => 1,
        Normal::Large(_) => 2,
    }
}

fn repeat_normal(alloc: Global, rules: &[Rule], t: &Term, repetitions: u32) -> Result<u64, Memory> {
    let mut sum = 0;
    for _ in 0..repetitions {
        sum = with_next(sum, normal_code(&normal_form(alloc, rules, t)?));
    }
    Ok(sum)
}

/// 7 times 7, in numerals: 64 steps.
pub(crate) fn product_case(alloc: Global, repetitions: u32) -> Result<u64, Memory> {
    let t = product(alloc, numeral(alloc, 7)?, numeral(alloc, 7)?)?;
    repeat_normal(alloc, &numeral_rules(alloc)?, &t, repetitions)
}

/// The 255 nodes of a full tree turned round, a step each, in a term of size 512.
pub(crate) fn tree_case(alloc: Global, repetitions: u32) -> Result<u64, Memory> {
    let t = unary(alloc, 2, full_tree(alloc, 8, 0, 1, 0)?)?;
    repeat_normal(alloc, &turning_rules(alloc)?, &t, repetitions)
}

/// How redexes are found.
#[derive(Clone, Copy, PartialEq, Eq)]
pub(crate) enum Redexes {
    /// By an index of left sides.
    ByIndex,
    /// Rule by rule.
    ByScan,
}

/// The rules of the words.
const WORDS: u16 = 300;

// The word with this number, of four letters of five, with a symbol before it, over the term: symbols 1 to 5 are letters, 6
// begins a word.
fn word(alloc: Global, number: u16, t: Term) -> Result<Term, Memory> {
    let mut rest = number;
    let mut t = t;
    for _ in 0..4 {
        t = unary(alloc, (rest % 5) as u8 + 1, t)?;
        rest /= 5;
    }
    unary(alloc, 6, t)
}

// Each of 300 words over zero goes to zero.
fn word_rules(alloc: Global) -> Result<Vec<Rule>, Memory>
    ensures { IfOk result (λ rules. length rules.items ≡ 300) }
{
    let mut rules = Vec::new(alloc);
    for number in 0..WORDS {
        rules.push(Rule::new(word(alloc, number, zero(alloc))?, zero(alloc)))?;
    }
    Ok(rules)
}

// Twelve words over zero, one in the other.
fn words_term(alloc: Global) -> Result<Term, Memory> {
    let mut t = zero(alloc);
    for k in 0..12 {
        t = word(alloc, k * 97 % WORDS, t)?;
    }
    Ok(t)
}

/// Twelve steps by 300 rules, the innermost word first.
pub(crate) fn words_case(alloc: Global, redexes: Redexes, repetitions: u32) -> Result<u64, Memory> {
    let rules = word_rules(alloc)?;
    let t = words_term(alloc)?;
    if redexes == Redexes::ByScan {
        return repeat_normal(alloc, &rules, &t, repetitions);
    }
    let system = System::indexed(alloc, &rules)?;
    let mut sum = 0;
    for _ in 0..repetitions {
        sum = with_next(sum, normal_code(&system.normal_form(alloc, &t)?));
    }
    Ok(sum)
}

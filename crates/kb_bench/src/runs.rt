// The cases, and their answers' checksums.
ghost use Rattle.std.specs.Prelude.{◌≤◌, length};
ghost use Rattle.kb_linear.specs.Limits.{AreMeasurable};

use crate::reading;
use crate::rewriting::{Redexes, product_case, tree_case, words_case};
use crate::rules::{group_rules, linear_rules, path_rules, weighted_rules};
use crate::sets::selectors;
use crate::shapes::{comb, eight_doubles, eight_variables, full_tree, signature, unary};
use kb_kbo::{Kbo, search_kbo};
use kb_linear::{Interp, search_linear};
use kb_lpo::{Precedence, search_lpo};
use kb_term::{Memory, Rule, Signature, Term, has_variables_below};
use kb_unify::{UnifyFault, unify};
use std::alloc::Global;

/// What is repeated.
#[derive(Clone, Copy)]
pub enum Case {
    LpoGroup,
    LpoUnary,
    LpoWide,
    LpoWideNone,
    LpoSelectors,
    LpoSelectorsWide,
    LinearGroup,
    LinearUnary,
    LinearUnaryNone,
    LinearUnaryEight,
    LinearUnaryEightNone,
    KboGroup,
    KboEight,
    KboEightNone,
    KboWords,
    KboWordsNone,
    UnifyTree,
    UnifyComb,
    UnifyDoubling,
    RewriteProduct,
    RewriteTree,
    RewriteWordsByIndex,
    RewriteWordsByScan,
    ReadRules,
    ReadVariables,
}

/// The case of this name.
pub(crate) fn case_named(name: &str) -> Option<Case> {
    match name {
        "lpo_group" => Some(Case::LpoGroup),
        "lpo_unary" => Some(Case::LpoUnary),
        "lpo_wide" => Some(Case::LpoWide),
        "lpo_wide_none" => Some(Case::LpoWideNone),
        "lpo_selectors" => Some(Case::LpoSelectors),
        "lpo_selectors_wide" => Some(Case::LpoSelectorsWide),
        "linear_group" => Some(Case::LinearGroup),
        "linear_unary" => Some(Case::LinearUnary),
        "linear_unary_none" => Some(Case::LinearUnaryNone),
        "linear_unary_eight" => Some(Case::LinearUnaryEight),
        "linear_unary_eight_none" => Some(Case::LinearUnaryEightNone),
        "kbo_group" => Some(Case::KboGroup),
        "kbo_eight" => Some(Case::KboEight),
        "kbo_eight_none" => Some(Case::KboEightNone),
        "kbo_words" => Some(Case::KboWords),
        "kbo_words_none" => Some(Case::KboWordsNone),
        "unify_tree" => Some(Case::UnifyTree),
        "unify_comb" => Some(Case::UnifyComb),
        "unify_doubling" => Some(Case::UnifyDoubling),
        "rewrite_product" => Some(Case::RewriteProduct),
        "rewrite_tree" => Some(Case::RewriteTree),
        "rewrite_words_index" => Some(Case::RewriteWordsByIndex),
        "rewrite_words_scan" => Some(Case::RewriteWordsByScan),
        "read_rules" => Some(Case::ReadRules),
        "read_variables" => Some(Case::ReadVariables),
        _ => None,
    }
}

const GROUP: [u8; 3] = [2, 1, 0];

const UNARY: [u8; 12] = [1; 12];

const FIVE: [u8; 5] = [1; 5];

const EIGHT: [u8; 8] = [1; 8];

const MIXED: [u8; 8] = [2, 1, 1, 2, 0, 1, 3, 0];

const FOURTEEN: [u8; 14] = [1; 14];

const TWENTY_FOUR: [u8; 24] = [1; 24];

const WIDE: [u8; 24] = [
    2, 3, 2, 0, 1, 2, 3, 1, 3, 0, 0, 3, 2, 1, 1, 3, 2, 2, 1, 1, 1, 1, 2, 3,
];

/// The sum of numbers so far, with one number more.
pub(crate) fn with_next(sum: u64, number: u64) -> u64 {
    sum.wrapping_mul(31).wrapping_add(number)
}

/// The symbols of the precedence in one number.
pub(crate) fn precedence_code(found: &Option<Precedence>) -> u64 {
    let mut sum = 1;
    if let Some(prec) = found {
        for f in prec.symbols() {
            sum = with_next(sum, u64::from(f.0));
        }
    }
    sum
}

fn interpretation_code(found: &Option<Interp>) -> u64 {
    let mut sum = 1;
    if let Some(interp) = found {
        for row in interp.rows() {
            sum = with_next(sum, u64::from(row.0));
            for coefficient in &row.1 {
                sum = with_next(sum, u64::from(*coefficient));
            }
        }
    }
    sum
}

fn order_code(found: &Option<Kbo>) -> u64 {
    let mut sum = 1;
    if let Some(order) = found {
        for weight in order.weights() {
            sum = with_next(sum, u64::from(*weight));
        }
        for f in order.precedence().symbols() {
            sum = with_next(sum, u64::from(f.0));
        }
    }
    sum
}

// 1000 more than how many variables get a term, in which most general unifiers agree; less where there is none.
fn unifier_code(alloc: Global, s: &Term, t: &Term) -> Result<u64, Memory> {
    if !has_variables_below(128, s) {
        return Ok(0);
    }
    if !has_variables_below(128, t) {
        return Ok(0);
    }
    match unify(alloc, s, t) {
        Ok(Some(m)) => Ok((m.entries().len() as u64).wrapping_add(1000)),
        Ok(None) => Ok(1),
        Err(UnifyFault::Large(_)) => Ok(2),
        Err(UnifyFault::Memory) => Err(Memory),
    }
}

fn repeat_lpo(
    alloc: Global,
    sig: &Signature,
    rules: &[Rule],
    repetitions: u32,
) -> Result<u64, Memory>
    requires { length sig.now ≤ 24 }
{
    let mut sum = 0;
    for _ in 0..repetitions {
        sum = with_next(sum, precedence_code(&search_lpo(alloc, sig, rules)?));
    }
    Ok(sum)
}

fn repeat_linear(
    alloc: Global,
    sig: &Signature,
    rules: &[Rule],
    repetitions: u32,
) -> Result<u64, Memory>
    requires few { length sig.now ≤ 24 }
    requires measurable { AreMeasurable rules.now }
{
    let mut sum = 0;
    for _ in 0..repetitions {
        sum = with_next(sum, interpretation_code(&search_linear(alloc, sig, rules)?));
    }
    Ok(sum)
}

fn repeat_kbo(
    alloc: Global,
    sig: &Signature,
    rules: &[Rule],
    repetitions: u32,
) -> Result<u64, Memory>
    requires few { length sig.now ≤ 24 }
    requires measurable { AreMeasurable rules.now }
{
    let mut sum = 0;
    for _ in 0..repetitions {
        sum = with_next(sum, order_code(&search_kbo(alloc, sig, rules)?));
    }
    Ok(sum)
}

fn repeat_unify(alloc: Global, s: &Term, t: &Term, repetitions: u32) -> Result<u64, Memory> {
    let mut sum = 0;
    for _ in 0..repetitions {
        sum = with_next(sum, unifier_code(alloc, s, t)?);
    }
    Ok(sum)
}

fn path_case(
    alloc: Global,
    arities: &[u8],
    count: usize,
    is_turned: bool,
    repetitions: u32,
) -> Result<u64, Memory>
    requires { length arities.now ≤ 24 }
{
    let sig = signature(alloc, arities)?;
    let rules = path_rules(alloc, arities, count, 4, is_turned)?;
    repeat_lpo(alloc, &sig, &rules, repetitions)
}

fn selector_case(alloc: Global, arities: &[u8], pairs: u8, repetitions: u32) -> Result<u64, Memory>
    requires few { length arities.now ≤ 24 }
    requires pairs { pairs ≤ 11 }
{
    let sig = signature(alloc, arities)?;
    repeat_lpo(alloc, &sig, &selectors(alloc, pairs)?, repetitions)
}

fn linear_case(
    alloc: Global,
    arities: &[u8],
    is_turned: bool,
    repetitions: u32,
) -> Result<u64, Memory>
    requires { length arities.now ≤ 24 }
{
    let sig = signature(alloc, arities)?;
    let rules = linear_rules(alloc, arities, 20, 5, is_turned)?;
    repeat_linear(alloc, &sig, &rules, repetitions)
}

fn weighted_case(
    alloc: Global,
    arities: &[u8],
    depth: u8,
    is_turned: bool,
    repetitions: u32,
) -> Result<u64, Memory>
    requires { length arities.now ≤ 24 }
{
    let sig = signature(alloc, arities)?;
    let rules = weighted_rules(alloc, arities, 60, depth, is_turned)?;
    repeat_kbo(alloc, &sig, &rules, repetitions)
}

fn path_group_case(alloc: Global, repetitions: u32) -> Result<u64, Memory> {
    let sig = signature(alloc, &GROUP)?;
    repeat_lpo(alloc, &sig, &group_rules(alloc)?, repetitions)
}

fn linear_group_case(alloc: Global, repetitions: u32) -> Result<u64, Memory> {
    let sig = signature(alloc, &GROUP)?;
    repeat_linear(alloc, &sig, &group_rules(alloc)?, repetitions)
}

fn weighted_group_case(alloc: Global, repetitions: u32) -> Result<u64, Memory> {
    let sig = signature(alloc, &GROUP)?;
    repeat_kbo(alloc, &sig, &group_rules(alloc)?, repetitions)
}

// Two full trees, each under one more symbol.
fn tree_pair_case(alloc: Global, repetitions: u32) -> Result<u64, Memory> {
    let s = unary(alloc, 2, full_tree(alloc, 8, 0, 1, 0)?)?;
    let t = unary(alloc, 2, full_tree(alloc, 8, 0, 5, 1)?)?;
    repeat_unify(alloc, &s, &t, repetitions)
}

// Two combs, each under one more symbol.
fn comb_pair_case(alloc: Global, repetitions: u32) -> Result<u64, Memory> {
    let s = unary(alloc, 2, comb(alloc, 255, 1, 0)?)?;
    let t = unary(alloc, 2, comb(alloc, 255, 5, 1)?)?;
    repeat_unify(alloc, &s, &t, repetitions)
}

// Eight variables, each of which gets twice the term of the one before.
fn doubling_case(alloc: Global, repetitions: u32) -> Result<u64, Memory> {
    let s = eight_variables(alloc)?;
    let t = eight_doubles(alloc)?;
    repeat_unify(alloc, &s, &t, repetitions)
}

/// The answers of so many runs of the case in one number.
pub(crate) fn checksum(alloc: Global, case: Case, repetitions: u32) -> Result<u64, Memory> {
    match case {
        Case::LpoGroup => path_group_case(alloc, repetitions),
        Case::LpoUnary => path_case(alloc, &UNARY, 20, false, repetitions),
        Case::LpoWide => path_case(alloc, &WIDE, 60, false, repetitions),
        Case::LpoWideNone => path_case(alloc, &WIDE, 60, true, repetitions),
        Case::LpoSelectors => selector_case(alloc, &FOURTEEN, 6, repetitions),
        Case::LpoSelectorsWide => selector_case(alloc, &TWENTY_FOUR, 11, repetitions),
        Case::LinearGroup => linear_group_case(alloc, repetitions),
        Case::LinearUnary => linear_case(alloc, &FIVE, false, repetitions),
        Case::LinearUnaryNone => linear_case(alloc, &FIVE, true, repetitions),
        Case::LinearUnaryEight => linear_case(alloc, &EIGHT, false, repetitions),
        Case::LinearUnaryEightNone => linear_case(alloc, &EIGHT, true, repetitions),
        Case::KboGroup => weighted_group_case(alloc, repetitions),
        Case::KboEight => weighted_case(alloc, &MIXED, 4, false, repetitions),
        Case::KboEightNone => weighted_case(alloc, &MIXED, 4, true, repetitions),
        Case::KboWords => weighted_case(alloc, &EIGHT, 5, false, repetitions),
        Case::KboWordsNone => weighted_case(alloc, &EIGHT, 5, true, repetitions),
        Case::UnifyTree => tree_pair_case(alloc, repetitions),
        Case::UnifyComb => comb_pair_case(alloc, repetitions),
        Case::UnifyDoubling => doubling_case(alloc, repetitions),
        Case::RewriteProduct => product_case(alloc, repetitions),
        Case::RewriteTree => tree_case(alloc, repetitions),
        Case::RewriteWordsByIndex => words_case(alloc, Redexes::ByIndex, repetitions),
        Case::RewriteWordsByScan => words_case(alloc, Redexes::ByScan, repetitions),
        Case::ReadRules => reading::rules_case(alloc, repetitions),
        Case::ReadVariables => reading::variables_case(alloc, repetitions),
    }
}

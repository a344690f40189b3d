// The order of a certificate, and the search of a family.
ghost use Rattle.std.specs.Prelude.{[], ◌∷◌, ◌++◌, map, ◌≡◌, ◌≤◌, length, option_map, IfOk, IfSome, IsTrue, ◌↔◌};
ghost use Rattle.kb_linear.specs.Limits.{IsMeasurable, AreMeasurable};
ghost use Rattle.kb_linear.specs.Interpretations.{interpretations, IsLowerBound as IsLinearBound};
ghost use Rattle.kb_kbo.specs.Orders.{kbo_orders};
ghost use Rattle.kb_term.specs.First.{IsFirst};
ghost use Rattle.kb_cert.specs.CertificateText.{is_certificate};
ghost use Rattle.kb_cert.specs.Family.{Orders, IsFirstOrder, IsLowerBound};
ghost use Rattle.kb_cert.specs.declared.family.Family.TheVariants.{Stated};

use crate::certificate::Certificate;
use crate::family::Family;
use kb_kbo::{Kbo, kbo_greater, search_kbo, search_kbo_from};
use kb_linear::{Interp, linear_greater, search_linear, search_linear_from};
use kb_lpo::{lpo_greater, search_lpo, search_lpo_from};
use kb_term::{Memory, Rule, Signature};
use std::alloc::Global;

/// Whether the certificate makes the left side of the rule greater than its right side.
pub fn is_greater(c: &Certificate, rule: &Rule) -> bool
    requires left { IsMeasurable rule.now.left }
    requires right { IsMeasurable rule.now.right }
    ensures { IsTrue result ↔ Orders c.now (rule.now ∷ []) }
{
    match c {
        Certificate::Lpo(prec) => lpo_greater(prec, rule.left(), rule.right()),
        Certificate::Linear(i) => linear_greater(i, rule.left(), rule.right()),
        Certificate::Kbo(order) => kbo_greater(order, rule.left(), rule.right()),
    }
}

/// Whether the certificate makes the left side of each rule greater than its right side.
pub fn orients(c: &Certificate, rules: &[Rule]) -> bool
    requires { AreMeasurable rules.now }
    ensures { IsTrue result ↔ Orders c.now rules.now }
{
    for rule in rules {
        if !is_greater(c, rule) {
            return false;
        }
    }
    true
}

fn kbo(found: Option<Kbo>) -> Option<Certificate>
    ensures { result ≡ option_map Certificate.Kbo found }
{
    match found {
        Some(order) => Some(Certificate::Kbo(order)),
        None => None,
    }
}

/// The first member behind the precedences that orders all rules; none where none does.
fn search_later(
    alloc: Global,
    sig: &Signature,
    rules: &[Rule],
) -> Result<Option<Certificate>, Memory>
    requires few { length sig.now ≤ 24 }
    requires measurable { AreMeasurable rules.now }
    ensures { IfOk result (λ found. IsFirst (λ c. Orders c rules.now) (map Certificate.Linear (interpretations sig.now) ++ map Certificate.Kbo (kbo_orders sig.now)) found) }
{
    match search_linear(alloc, sig, rules)? {
        Some(i) => Ok(Some(Certificate::Linear(i))),
        None => Ok(kbo(search_kbo(alloc, sig, rules)?)),
    }
}

/// The first stated order that orders all rules; none where none does.
fn search_stated(
    alloc: Global,
    sig: &Signature,
    rules: &[Rule],
) -> Result<Option<Certificate>, Memory>
    requires few { length sig.now ≤ 24 }
    requires measurable { AreMeasurable rules.now }
    ensures first { IfOk result (λ found. IsFirstOrder Stated sig.now rules.now found) }
    ensures text { IfOk result (λ found. IfSome found (λ c. IsTrue (is_certificate sig.now c))) }
{
    match search_lpo(alloc, sig, rules)? {
        Some(prec) => Ok(Some(Certificate::Lpo(prec))),
        None => Ok(search_later(alloc, sig, rules)?),
    }
}

/// The first member of the family that orders all rules; none where none does.
pub fn search(
    alloc: Global,
    family: Family,
    sig: &Signature,
    rules: &[Rule],
) -> Result<Option<Certificate>, Memory>
    requires few { length sig.now ≤ 24 }
    requires measurable { AreMeasurable rules.now }
    ensures first { IfOk result (λ found. IsFirstOrder family sig.now rules.now found) }
    ensures text { IfOk result (λ found. IfSome found (λ c. IsTrue (is_certificate sig.now c))) }
{
    match family {
        Family::Stated => search_stated(alloc, sig, rules),
    }
}

/// The same from a lower bound behind the precedences.
fn search_later_from(
    alloc: Global,
    sig: &Signature,
    rules: &[Rule],
    least: Interp,
) -> Result<Option<Certificate>, Memory>
    requires few { length sig.now ≤ 24 }
    requires measurable { AreMeasurable rules.now }
    requires start { IsLinearBound sig.now rules.now least }
    ensures { IfOk result (λ found. IsFirst (λ c. Orders c rules.now) (map Certificate.Linear (interpretations sig.now) ++ map Certificate.Kbo (kbo_orders sig.now)) found) }
{
    match search_linear_from(alloc, sig, rules, least)? {
        Some(i) => Ok(Some(Certificate::Linear(i))),
        None => Ok(kbo(search_kbo(alloc, sig, rules)?)),
    }
}

/// The same from a lower bound among the stated orders.
fn search_stated_from(
    alloc: Global,
    sig: &Signature,
    rules: &[Rule],
    start: Certificate,
) -> Result<Option<Certificate>, Memory>
    requires few { length sig.now ≤ 24 }
    requires measurable { AreMeasurable rules.now }
    requires start { IsLowerBound Stated sig.now rules.now start }
    ensures first { IfOk result (λ found. IsFirstOrder Stated sig.now rules.now found) }
    ensures text { IfOk result (λ found. IfSome found (λ c. IsTrue (is_certificate sig.now c))) }
{
    match start {
        Certificate::Lpo(least) => match search_lpo_from(alloc, sig, rules, least)? {
            Some(prec) => Ok(Some(Certificate::Lpo(prec))),
            None => Ok(search_later(alloc, sig, rules)?),
        },
        Certificate::Linear(least) => Ok(search_later_from(alloc, sig, rules, least)?),
        Certificate::Kbo(least) => Ok(kbo(search_kbo_from(alloc, sig, rules, least)?)),
    }
}

/// The same, where no member of the family before `start` orders all rules, as where `start` is the first for some of them.
pub fn search_from(
    alloc: Global,
    family: Family,
    sig: &Signature,
    rules: &[Rule],
    start: Certificate,
) -> Result<Option<Certificate>, Memory>
    requires few { length sig.now ≤ 24 }
    requires measurable { AreMeasurable rules.now }
    requires start { IsLowerBound family sig.now rules.now start }
    ensures first { IfOk result (λ found. IsFirstOrder family sig.now rules.now found) }
    ensures text { IfOk result (λ found. IfSome found (λ c. IsTrue (is_certificate sig.now c))) }
{
    match family {
        Family::Stated => search_stated_from(alloc, sig, rules, start),
    }
}

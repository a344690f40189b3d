// What searches families of orders.
ghost use Rattle.std.specs.Prelude.{◌≤◌, length, IfOk, IfSome, IsTrue};
ghost use Rattle.kb_linear.specs.Limits.{AreMeasurable};
ghost use Rattle.kb_cert.specs.CertificateText.{is_certificate};
ghost use Rattle.kb_cert.specs.Family.{IsFirstOrder, IsLowerBound};

use kb_cert::{Certificate, Family, search, search_from};
use kb_term::{Memory, Rule, Signature};
use std::alloc::Global;
use std::sync::Wait;

/// Answers which member of a family of orders is the first that orders given rules. It is shared by threads, and may wait.
pub trait Searcher: Sync {
    /// The first member of the family that orders all rules; none where none does.
    fn search<R: Wait>(
        &self,
        rt: &R,
        family: Family,
        sig: &Signature,
        rules: &[Rule],
    ) -> Result<Option<Certificate>, Memory>
        requires few { length sig.now ≤ 24 }
        requires measurable { AreMeasurable rules.now }
        ensures first { IfOk result (λ found. IsFirstOrder family sig.now rules.now found) }
        ensures text { IfOk result (λ found. IfSome found (λ c. IsTrue (is_certificate sig.now c))) };

    /// The same, where no member of the family before `start` orders all rules. A searcher that has no use for that searches
    /// the whole family.
    fn search_from<R: Wait>(
        &self,
        rt: &R,
        family: Family,
        sig: &Signature,
        rules: &[Rule],
        start: Certificate,
    ) -> Result<Option<Certificate>, Memory>
        requires few { length sig.now ≤ 24 }
        requires measurable { AreMeasurable rules.now }
        requires start { IsLowerBound family sig.now rules.now start }
        ensures first { IfOk result (λ found. IsFirstOrder family sig.now rules.now found) }
        ensures text { IfOk result (λ found. IfSome found (λ c. IsTrue (is_certificate sig.now c))) }
    {
        let _start = start;
        self.search(rt, family, sig, rules)
    }
}

/// Searches anew for each question.
#[derive(Drop)]
pub struct FamilySearcher {
    alloc: Global,
}

impl FamilySearcher {
    /// A searcher that takes its memory from `alloc`.
    pub fn new(alloc: Global) -> FamilySearcher {
        FamilySearcher { alloc }
    }
}

impl Searcher for FamilySearcher {
    fn search<R: Wait>(
        &self,
        _rt: &R,
        family: Family,
        sig: &Signature,
        rules: &[Rule],
    ) -> Result<Option<Certificate>, Memory> {
        search(self.alloc, family, sig, rules)
    }

    fn search_from<R: Wait>(
        &self,
        _rt: &R,
        family: Family,
        sig: &Signature,
        rules: &[Rule],
        start: Certificate,
    ) -> Result<Option<Certificate>, Memory> {
        search_from(self.alloc, family, sig, rules, start)
    }
}

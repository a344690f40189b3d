// Rules with the fingerprints of their left sides.
ghost use Rattle.std.specs.Prelude.{◌≡◌, IfOk, All};
ghost use Rattle.kb_rewrite.specs.Roots.{IsNoted};
ghost use Rattle.kb_rewrite.specs.Fingerprints.{AreFingerprints};

use crate::fingerprint::Fingerprint;
use crate::roots::Roots;
use kb_term::Rule;
use std::alloc::{AllocError, Global};
use std::marker::Model;

/// Rules that are searched again and again, with what a scan reads of their left sides: it is made once, with the list.
#[derive(Drop)]
pub struct RuleList {
    rules: Vec<Rule>,
    prints: Vec<Fingerprint>,
    roots: Roots,
}

impl Model for RuleList {
    ghost use Rattle.std.specs.Prelude.{List, All};
    ghost use Rattle.std.specs.Coded.{coded_list};
    ghost use Rattle.kb_term.specs.Coding.{coded_rule};
    ghost use Rattle.kb_term.specs.Rule.{Rule};
    ghost use Rattle.kb_rewrite.specs.Roots.{IsNoted};
    ghost use Rattle.kb_rewrite.specs.Fingerprints.{AreFingerprints};

    ghost Value = { List Rule };

    ghost coded = { coded_list coded_rule };

    ghost view = { λ s. s.rules.items };

    ghost invariant = { λ s. AreFingerprints s.rules.items s.prints.items × All (λ (rule : Rule). IsNoted s.roots rule.left) s.rules.items };
}

impl RuleList {
    /// These rules.
    ///
    /// # Errors
    ///
    /// Want of memory.
    pub fn new(alloc: Global, rules: Vec<Rule>) -> Result<RuleList, AllocError>
        ensures { IfOk result (λ list. list ≡ rules.items) }
    {
        let prints = prints_of(alloc, rules.as_slice())?;
        let roots = Roots::of(rules.as_slice());
        Ok(RuleList {
            rules,
            prints,
            roots,
        })
    }

    /// The rules, in their order.
    pub fn as_slice(&self) -> &[Rule]
        ensures { result.now ≡ self.now }
    {
        self.rules.as_slice()
    }

    /// The fingerprints of their left sides.
    pub(crate) fn prints(&self) -> &[Fingerprint]
        ensures { AreFingerprints self.now result.now }
    {
        self.prints.as_slice()
    }

    /// The roots of their left sides.
    pub(crate) fn roots(&self) -> Roots
        ensures { All (λ rule. IsNoted result rule.left) self.now }
    {
        self.roots
    }
}

/// The fingerprints of the left sides.
fn prints_of(alloc: Global, rules: &[Rule]) -> Result<Vec<Fingerprint>, AllocError>
    ensures { IfOk result (λ prints. AreFingerprints rules.now prints.items) }
{
    let mut prints = Vec::with_capacity(alloc, rules.len())?;
    for i in 0..rules.len() {
        prints.push(Fingerprint::of(rules[i].left()))?;
    }
    Ok(prints)
}

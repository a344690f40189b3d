// What the definitions imply, as contracts of functions that do nothing.
ghost use Rattle.std.specs.Prelude.{◌≤◌, length};
ghost use Rattle.kb_term.specs.Signature.{IsSignature, IsWithinLimits, Problem};
ghost use Rattle.kb_export.specs.ReadBack.{SpellsSame};
ghost use Rattle.kb_export.specs.RuleTexts.{rules_text};

use kb_term::MAX_PROBLEM_BYTES;

/// The text of rules within the limits of a problem spells a problem, where it is short enough to be read: its equations are
/// the rules, in their order, with the same names of symbols and the same numbers of variables.
pub fn written_rules_are_spelled()
    ensures { (p : Problem) → IsSignature p.signature → IsWithinLimits p → length (rules_text p) ≤ MAX_PROBLEM_BYTES → SpellsSame (rules_text p) p }
{}

// What the definitions imply, as contracts of functions that do nothing.
ghost use Rattle.std.specs.Prelude.{List, ◌≡◌, false};
ghost use Rattle.kb_term.specs.Tree.{Tree};
ghost use Rattle.kb_term.specs.Rule.{Rule};
ghost use Rattle.kb_term.specs.Proving.{Step};
ghost use Rattle.kb_rewrite.specs.NormalForm.{HasNoRedex, HoldVariables, IsNormal, Normalised, NormalisesTo, StrategyStep};

/// No rewrite step leads from a term without redex.
pub fn no_redex_is_normal()
    ensures { (rules : List Rule) (t : Tree) → HasNoRedex rules false t → IsNormal rules t }
{}

/// A step of the strategy is a rewrite step.
pub fn strategy_rewrites()
    ensures { (rules : List Rule) (t u : Tree) → StrategyStep rules t u → Step rules t u }
{}

/// What normalising a term answers is one answer, where the left side of each rule holds the variables of its right side.
pub fn normal_forms_are_one()
    ensures { (rules : List Rule) (t : Tree) (a b : Normalised) → HoldVariables rules → NormalisesTo rules t a → NormalisesTo rules t b → a ≡ b }
{}

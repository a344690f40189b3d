// What simplified terms mean, as a contract of a function that does nothing.
ghost use Rattle.std.specs.Prelude.{List, ℕ};
ghost use Rattle.kb_term.specs.Tree.{Tree};
ghost use Rattle.kb_term.specs.Rule.{Rule};
ghost use Rattle.kb_term.specs.Signature.{Signature};
ghost use Rattle.kb_term.specs.View.{tree_of};
ghost use Rattle.kb_term.specs.declared.term.Term.{Term};
ghost use Rattle.kb_rewrite.specs.NormalForm.{HoldVariables, IsNormal};
ghost use Rattle.kb_decide.specs.Deciding.{ProvesGoal};
ghost use Rattle.kb_decide.specs.declared.decision.Reason.{Reason};
ghost use Rattle.kb_goals.specs.Simplifying.{EqualsHaveOneForm, HasOneForm, IsSimplified};
ghost use Rattle.kb_goals.specs.declared.simplifying.Simplified.TheVariants.{Normal, Unknown};

/// No rule applies to a term's normal form, and the rules prove the two equal. Where rules are confluent over a signature, two
/// terms over it that they prove equal have one normal form, where both have one within the limits.
///
/// Where each rule's left side holds the variables of its right side, a term has one normal form and one number of steps, or it
/// is unknown.
pub fn simplified_terms_are_right()
    ensures normal { (rules : List Rule) (t : Tree) (n : ℕ) (u : Term) → IsSimplified rules t (Normal n u) → IsNormal rules (tree_of u) }
    ensures equal { (rules : List Rule) (t : Tree) (n : ℕ) (u : Term) → IsSimplified rules t (Normal n u) → ProvesGoal rules t (tree_of u) }
    ensures one { (signature : Signature) (rules : List Rule) (s t : Tree) → EqualsHaveOneForm signature rules s t }
    ensures same { (rules : List Rule) (t : Tree) → HasOneForm rules t }
    ensures known { (rules : List Rule) (t : Tree) (n : ℕ) (u : Term) (reason : Reason) → HoldVariables rules → IsSimplified rules t (Normal n u) → ¬ IsSimplified rules t (Unknown reason) }
{}

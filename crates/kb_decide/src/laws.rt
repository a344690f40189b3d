// What decisions mean, as contracts of functions that do nothing.
ghost use Rattle.std.specs.Prelude.{List, false};
ghost use Rattle.kb_term.specs.Tree.{Tree};
ghost use Rattle.kb_term.specs.Rule.{Rule};
ghost use Rattle.kb_term.specs.Signature.{Signature};
ghost use Rattle.kb_term.specs.View.{tree_of};
ghost use Rattle.kb_term.specs.declared.term.Term.{Term};
ghost use Rattle.kb_decide.specs.Deciding.{IsDecision, IsRightNo, IsYes, ProvesGoal, Replays};
ghost use Rattle.kb_decide.specs.declared.decision.Decision.{Decision};

/// Whatever the rules are: where the lines of a decision replay, the rules prove the goal.
pub fn replayed_goals_are_proved()
    ensures { (rules : List Rule) (left right : Tree) (d : Decision) → Replays rules left right d → ProvesGoal rules left right }
{}

/// The lines of each yes replay, so the rules prove the goal. Where rules are confluent over a signature and the goal is over it, each no says
/// that they don't prove it.
pub fn decisions_are_right()
    ensures yes { (rules : List Rule) (left right : Tree) (d : Decision) → IsDecision rules left right d → IsYes d → Replays rules left right d }
    ensures no { (signature : Signature) (rules : List Rule) (left right : Tree) (s t : Term) → IsRightNo signature rules left right s t }
{}

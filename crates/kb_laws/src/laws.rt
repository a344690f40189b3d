// The laws. A signature gives the terms that they speak of.
ghost use Rattle.std.specs.Prelude.{List};
ghost use Rattle.kb_term.specs.Tree.{Tree};
ghost use Rattle.kb_term.specs.Rule.{Rule};
ghost use Rattle.kb_term.specs.Signature.{Signature, Problem};
ghost use Rattle.kb_kbo.specs.KnuthBendix.{KboOrder};
ghost use Rattle.kb_cert.specs.declared.certificate.Certificate.{Certificate};
ghost use Rattle.kb_cert.specs.declared.family.Family.{Family};
ghost use Rattle.kb_linear.specs.LinearOrder.{Interpretation};
ghost use Rattle.kb_laws.specs.Halting.{HasMember, MemberOrdersRulesOnly, MemberHalts, InterpretationHalts, LighterAreFew, ChainsAreShort};
ghost use Rattle.kb_laws.specs.Completion.{KbState};
ghost use Rattle.kb_laws.specs.Confluence.{CriticalPairLemma, ClosedOverlapsJoin, NewmansLemma, ConfluentByOverlaps, ChurchRosser};
ghost use Rattle.kb_laws.specs.Runs.{StepKeepsProved, StepKeepsOver, StepKeepsChained, StepKeepsOrderable, RunKeepsProved, RunIsChained, RunIsOver, RunIsOrderable};
ghost use Rattle.kb_laws.specs.Complete.{IsCompleteSystem, CompleteStateIsSystem, LoneRuleIsSystem, PairRuleIsSystem};
ghost use Rattle.kb_laws.specs.Square.{square_problem, square_order, square_rules};

/// Critical pair lemma: where the overlaps of every two rules are joinable, any two steps from one term lead to
/// joinable terms. Overlaps whose terms normalise to one are joinable.
pub fn critical_pair_lemma()
    ensures overlaps { (signature : Signature) (rules : List Rule) → CriticalPairLemma signature rules }
    ensures closed { (rules : List Rule) → ClosedOverlapsJoin rules }
{}

/// Newman's lemma: terminating and locally confluent rules are confluent; so terminating rules with joinable overlaps are.
pub fn newmans_lemma()
    ensures local { (signature : Signature) (rules : List Rule) → NewmansLemma signature rules }
    ensures overlaps { (signature : Signature) (rules : List Rule) → ConfluentByOverlaps signature rules }
{}

/// Church-Rosser: confluent rules prove an equation between terms over the signature, by a proof that may pass any terms, exactly where its
/// sides are joinable.
pub fn church_rosser()
    ensures { (signature : Signature) (rules : List Rule) → ChurchRosser signature rules }
{}

/// Each step of completion keeps what equations and rules together prove, that all are over the signature, that each rule is a chain of
/// constraint rules, and that some member of a family orders the constraint rules.
pub fn completion_keeps()
    ensures proved { (signature : Signature) → StepKeepsProved signature }
    ensures over { (signature : Signature) → StepKeepsOver signature }
    ensures chained { (signature : Signature) → StepKeepsChained signature }
    ensures orderable { (signature : Signature) → StepKeepsOrderable signature }
{}

/// So does each run from the equations of a problem: in each state these prove what the problem proves, each rule is a chain of one or more
/// constraint rules, all are over the signature, and the constraint rules are orderable.
pub fn runs_keep()
    ensures proved { (problem : Problem) (states : List KbState) → RunKeepsProved problem states }
    ensures chained { (problem : Problem) (states : List KbState) → RunIsChained problem states }
    ensures over { (problem : Problem) (states : List KbState) → RunIsOver problem states }
    ensures orderable { (problem : Problem) (states : List KbState) → RunIsOrderable problem states }
{}

/// A state of a run without equations, whose constraint rules some member of a family orders and whose overlaps are joinable, is a
/// terminating and confluent system that proves exactly what the problem proves.
pub fn complete_state()
    ensures { (problem : Problem) (states : List KbState) (order : Certificate) (state : KbState) → CompleteStateIsSystem problem states order state }
{}

/// One rule between terms over a signature that some member of a family orders, and that doesn't overlap itself, is such a system for its
/// own equation, read either way round and up to variants; so the rule that is the canonical pair of an equation in either direction is one
/// for that equation.
pub fn lone_rule()
    ensures same { (signature : Signature) (order : Certificate) (rule : Rule) (e : Tree × Tree) → LoneRuleIsSystem signature order rule e }
    ensures pair { (signature : Signature) (order : Certificate) (rule : Rule) (e : Tree × Tree) → PairRuleIsSystem signature order rule e }
{}

/// Each family has a member for each signature. What a member orders are rules, and they halt: a number bounds the steps of every chain from
/// each term over the signature. So do rules that any linear interpretation of the signature orders. By a Knuth-Bendix order of a family a
/// chain has fewer steps than there are terms over the variables of its first one that are no heavier, and these are finitely many.
pub fn ordered_rules_halt()
    ensures exists { (f : Family) (signature : Signature) → HasMember f signature }
    ensures rules { (signature : Signature) (order : Certificate) → MemberOrdersRulesOnly signature order }
    ensures halts { (signature : Signature) (order : Certificate) → MemberHalts signature order }
    ensures linear { (signature : Signature) (i : Interpretation) → InterpretationHalts signature i }
    ensures few { (signature : Signature) (order : KboOrder) → LighterAreFew signature order }
    ensures short { (signature : Signature) (order : KboOrder) → ChainsAreShort signature order }
{}

/// What these laws ask can be met where rules overlap: f(f(x)) -> a and f(a) -> a, ordered by the path order with f above a, are a complete
/// system for f(f(x)) = a.
pub fn square_completes()
    ensures { IsCompleteSystem square_problem square_order square_rules }
{}

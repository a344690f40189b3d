// The laws. A run lists its moments, each a board and the entry made on it, the newest first.
ghost use Rattle.std.specs.Prelude.{◌≡◌, ◌≢◌, ◌++◌, ℕ, List, [], Contains, Some, None, IsTrue, IsFalse};
ghost use Rattle.kb_term.specs.declared.term.Term.{Term};
ghost use Rattle.kb_term.specs.declared.origin.RuleRef.{RuleRef};
ghost use Rattle.kb_term.specs.declared.origin.Found.{Found};
ghost use Rattle.kb_cert.specs.declared.certificate.Certificate.{Certificate};
ghost use Rattle.kb_label.specs.Names.{Name, has};
ghost use Rattle.kb_label.specs.declared.verdict.Reason.{Reason};
ghost use Rattle.kb_label.specs.declared.verdict.Spent.TheVariants.{Over as OverFor};
ghost use Rattle.kb_label.specs.declared.verdict.Verdict.TheVariants.{AllFailed, Spent};
ghost use Rattle.kb_node.specs.declared.node.NodeId.{NodeId};
ghost use Rattle.kb_node.specs.declared.node.LabelKind.TheVariants.{X};
ghost use Rattle.kb_node.specs.declared.job.Job.{Job};
ghost use Rattle.kb_node.specs.declared.job.Job.TheVariants.{Orient, Close};
ghost use Rattle.kb_node.specs.declared.job.Deduced.{Deduced};
ghost use Rattle.kb_node.specs.declared.job.Fact.{Fact};
ghost use Rattle.mkb_model.specs.Plain.{Plain, label, view};
ghost use Rattle.mkb_model.specs.DueJobs.{first_job, free_jobs, is_due};
ghost use Rattle.mkb_model.specs.Sleeping.{is_failed};
ghost use Rattle.mkb_model.specs.Effects.{effect_label};
ghost use Rattle.mkb_model.specs.Verdicts.{verdict};
ghost use Rattle.mkb_model.specs.Runs.{OfEachRun, OfEachLimitedRun, OfAnyCommit, OfEachCommit};
ghost use Rattle.mkb_model.specs.declared.entry.Effect.{Effect};
ghost use Rattle.mkb_model.specs.declared.entry.Effect.TheVariants.{Over, Made};
ghost use Rattle.mkb_model.specs.declared.proposed.Proposed.TheVariants.{Facts, Rewrite, One, Both, Refuse, Deduce, Unjoined, Closed};
ghost use Rattle.mkb_moves.specs.Changes.{IsNotOfFacts, OthersKeepJobs, OpensNoWork, ReducesNodeOf, IsDueAsBefore, EndsOneJob, KeepsWork, HasNoJob, EndsOverlapByBoth, OpensPairs, LeavesOtherWork, SharesWork, LeavesWorkAtEach, IsAnother, KeepsCosts, OthersKeepCosts, IsUsedAsBefore, KeepsRulesInUse, KeepsRulesElsewhere};
ghost use Rattle.mkb_moves.specs.Moves.{IsLeftAlone, Orients, Forks, Deduces, DeducesByBoth, MovesItsLabel, GivesUp};
ghost use Rattle.mkb_moves.specs.Order.{IsLeastFree, MayBeTaken, IsFirstOver};
ghost use Rattle.mkb_moves.specs.Stuck.{IsUnorientable, IsStuck};

/// In each possible run each commit leaves alone the living processes that its effect label does not name: they live on with the
/// same equations, rules and constraints, are refused the same nodes and have overlapped the same rules, and are closed or have
/// given up as before.
pub fn others_keep_their_state()
    ensures { (effect : Effect) → OfEachCommit effect (λ board next proposal. (p : Name) → IsTrue (has board.living p) → IsFalse (has (effect_label board proposal) p) → IsLeftAlone board next p) }
{}

/// Where an orientation has its effect, its process has the equation of the node no more, but the rule in the direction, which
/// is a constraint too, and else what it had. At a fork the two children take the place of the process, with a direction each.
/// A refusal is noted of the node, and its process has what it had.
pub fn orienting_makes_rules()
    ensures one { (p : Name) (n : NodeId) (d : ℕ) (c : Certificate) → OfAnyCommit (Made (One p n d c)) (λ board next. Orients board p next p (record { node = n.0; dir = d })) }
    ensures both { (p : Name) (n : NodeId) (c0 c1 : Certificate) → OfEachCommit (Made (Both p n c0 c1)) (λ board next _. Forks board p next n.0) }
    ensures refused { (p : Name) (n : NodeId) → OfAnyCommit (Made (Refuse p n)) (λ board next. IsTrue (has (label next n.0 X) p) × (view next p ≡ view board p)) }
{}

/// In each possible run, where the pairs of the overlaps of two rules are committed, each process that has both and has not
/// overlapped them yet gains the pairs as equations, but for those that it has as rules; its rules and constraints stay, and the
/// two rules are noted as overlapped. The process of a closing gains the pairs of its overlaps that do not join in the same way.
pub fn deducing_adds_equations()
    ensures overlaps { (a c : RuleRef) (pairs : List Deduced) → OfEachCommit (Made (Deduce a c pairs)) (λ board next _. DeducesByBoth board next a c pairs) }
    ensures unjoined { (p : Name) (pairs : List Deduced) → OfEachCommit (Made (Unjoined p pairs)) (λ board next _. Deduces board next p pairs) }
{}

/// In each possible run of a problem within the limits, where a rewriting has its effect, each process of its label has the rule,
/// and its equation of the node is simplified, its rule with the side on the right is composed, or its rule with the side on the
/// left, where the redex is strict, is collapsed. Its other equations and rules stay, and so do its constraints.
pub fn rewriting_moves_its_label()
    ensures { (n : NodeId) (w : ℕ) (at : List ℕ) (a : RuleRef) (found : Found) (t : Term) → MovesItsLabel n w at a found t }
{}

/// Where a closing has its effect, the process is closed, and has the equations, rules and constraints that it had. Facts are noted
/// after those that were known, and act on no process.
pub fn closings_and_facts_are_noted()
    ensures closed { (p : Name) → OfAnyCommit (Made (Closed p)) (λ board next. IsTrue (has next.closed p) × (view next p ≡ view board p)) }
    ensures facts { (facts : List Fact) → OfAnyCommit (Made (Facts facts)) (λ board next. (next.facts ≡ board.facts ++ facts) × ((p : Name) → view next p ≡ view board p)) }
{}

/// In each possible run, where a commit comes to a limit, each process of its effect label has given up, for this reason unless it
/// had before, and has the equations, rules and constraints that it had.
pub fn limits_stop_their_processes()
    ensures { (reason : Reason) → OfEachCommit (Over reason) (λ board next proposal. (p : Name) → IsTrue (has (effect_label board proposal) p) → GivesUp board next p reason) }
{}

/// On any board, the first job is one of those that may be taken, and each other of these comes after it: by the cost of its
/// process, then that process's name, the kind of the job, its weight by the selection, and the nodes and rules that it names.
/// There is none only where none may be taken. What may be taken is due, for a process that lives and does not sleep, and clashes
/// with no job in flight.
pub fn first_job_is_the_least()
    ensures least { (board : Plain) (first : Job) → first_job board ≡ Some first → IsLeastFree board first }
    ensures none { (board : Plain) → first_job board ≡ None → free_jobs board ≡ [] }
    ensures free { (board : Plain) (job : Job) → Contains (free_jobs board) job → MayBeTaken board job }
{}

/// In each possible run, where the verdict is that all failed or gave up, its reason is that of the first living process by name
/// that gave up.
pub fn reasons_are_of_the_first()
    ensures { OfEachRun (λ board. (reason : Reason) → verdict board ≡ Some (Spent (OverFor reason)) → (p : Name) × IsFirstOver board p reason) }
{}

/// In each possible run no order of the run's family orders the constraints of a process and an equation that it is refused, in
/// either direction. A living process that failed, of a problem within the limits, has an equation; each equation of it is
/// refused so, and none of its rules rewrites a side of it at any position, to whatever term. Where the verdict is that all failed,
/// this holds of each living process.
pub fn failed_processes_are_stuck()
    ensures refused { OfEachRun (λ board. (p : Name) (n : ℕ) → IsTrue (has (label board n X) p) → IsUnorientable board p n) }
    ensures stuck { OfEachLimitedRun (λ board. (p : Name) → IsTrue (has board.living p) → IsTrue (is_failed board p) → IsStuck board p) }
    ensures all { OfEachLimitedRun (λ board. (p : Name) → verdict board ≡ Some AllFailed → IsTrue (has board.living p) → IsStuck board p) }
{}

/// In each possible run, after each commit but one of facts, each living process that the effect label does not name has the same
/// jobs due as before.
pub fn others_keep_their_jobs()
    ensures { (effect : Effect) → OfEachCommit effect (λ board next proposal. IsNotOfFacts proposal → OthersKeepJobs board next proposal) }
{}

/// Where facts are noted, no work is due that was not before, and work other than reducing a node that one of the facts names is due
/// just where it was.
pub fn facts_end_reductions()
    ensures opened { (facts : List Fact) → OfAnyCommit (Made (Facts facts)) (λ board next. OpensNoWork board next) }
    ensures others { (facts : List Fact) → OfAnyCommit (Made (Facts facts)) (λ board next. (j : Job) → ¬ ReducesNodeOf facts j → IsDueAsBefore board next j) }
{}

/// Where a refusal has its effect, the process is not to orient the node any more, and all other work of every process is due just
/// where it was.
pub fn refusals_end_one_orientation()
    ensures { (p : Name) (n : NodeId) → OfAnyCommit (Made (Refuse p n)) (λ board next. EndsOneJob board next (Orient p n)) }
{}

/// Where a closing has its effect, closing is not due for the process any more, and all work of every process is due just where it
/// was. Where a commit comes to a limit, in each possible run, no job is due afterwards for a process of its effect label; and by what
/// each process sees all work is due just where it was.
pub fn closings_and_limits_end_jobs()
    ensures closed { (p : Name) → OfAnyCommit (Made (Closed p)) (λ board next. IsFalse (is_due next (Close p)) × KeepsWork board next) }
    ensures limits { (reason : Reason) → OfEachCommit (Over reason) (λ board next proposal. (p : Name) → IsTrue (has (effect_label board proposal) p) → HasNoJob next p) }
    ensures work { (reason : Reason) → OfAnyCommit (Over reason) (λ board next. KeepsWork board next) }
{}

/// In each possible run, where the pairs of the overlaps of two rules are committed, that overlap is not due any more for a process
/// of the effect label; its other work, but for reducing and orienting the nodes of the pairs, is due just where it was, and that on
/// the nodes of the pairs stays due. The pairs that a closing deduces leave the work of its process in the same way.
pub fn deductions_open_their_nodes()
    ensures overlaps { (a c : RuleRef) (pairs : List Deduced) → OfEachCommit (Made (Deduce a c pairs)) (λ board next _. EndsOverlapByBoth board next a c pairs) }
    ensures unjoined { (p : Name) (pairs : List Deduced) → OfEachCommit (Made (Unjoined p pairs)) (λ board next _. OpensPairs board next p pairs) }
{}

/// Where an orientation has its effect, the process is not to orient the node any more, and to reduce it only where it was. It is to
/// orient other nodes just where it was, its overlaps of two other rules are due just where they were, and each other node that it
/// was to reduce it still is. At a fork, in each possible run, each child has the work of the process so, with the rule of its
/// direction, and the process has no job.
pub fn new_rules_leave_other_work()
    ensures one { (p : Name) (n : NodeId) (d : ℕ) (c : Certificate) → OfAnyCommit (Made (One p n d c)) (λ board next. LeavesOtherWork board p next p (record { node = n.0; dir = d })) }
    ensures both { (p : Name) (n : NodeId) (c0 c1 : Certificate) → OfEachCommit (Made (Both p n c0 c1)) (λ board next _. SharesWork board p next n.0) }
{}

/// In each possible run of a problem within the limits, where a rewriting has its effect, no work on its node is due any more for a
/// process of its label. Nodes but this one and that of the new equation it is to orient, and their rules to overlap, just where it
/// was; where it had no rule with the rewritten side on the right, so too the rules of the new equation's node. Where it had the node
/// as an equation, it is to reduce those nodes just where it was, and where it had the rule with the rewritten side on the left, only
/// where it was.
pub fn rewritings_leave_other_work()
    ensures { (n : NodeId) (w : ℕ) (at : List ℕ) (a : RuleRef) (found : Found) (t : Term) → LeavesWorkAtEach n w at a found t }
{}

/// In each possible run each commit leaves the costs of the living processes that its effect label does not name. Where facts, a
/// refusal or a closing have their effect, and where a commit comes to a limit, each process costs what it did.
pub fn others_keep_their_cost()
    ensures others { (effect : Effect) → OfEachCommit effect (λ board next proposal. OthersKeepCosts board next proposal) }
    ensures facts { (facts : List Fact) → OfAnyCommit (Made (Facts facts)) (λ board next. KeepsCosts board next) }
    ensures refused { (p : Name) (n : NodeId) → OfAnyCommit (Made (Refuse p n)) (λ board next. KeepsCosts board next) }
    ensures closed { (p : Name) → OfAnyCommit (Made (Closed p)) (λ board next. KeepsCosts board next) }
    ensures limits { (reason : Reason) → OfAnyCommit (Over reason) (λ board next. KeepsCosts board next) }
{}

/// Which rules some process has, at any commit. Facts, refusals, closings, deduced pairs and limits leave this of each rule. An
/// orientation leaves it of each rule but its own, a fork of each but the two of its node, and a rewriting of each but those of its
/// node and of that of the new equation.
pub fn rules_in_use_change_where_the_effect_is()
    ensures facts { (facts : List Fact) → OfAnyCommit (Made (Facts facts)) (λ board next. KeepsRulesInUse board next) }
    ensures refused { (p : Name) (n : NodeId) → OfAnyCommit (Made (Refuse p n)) (λ board next. KeepsRulesInUse board next) }
    ensures closed { (p : Name) → OfAnyCommit (Made (Closed p)) (λ board next. KeepsRulesInUse board next) }
    ensures overlaps { (a c : RuleRef) (pairs : List Deduced) → OfAnyCommit (Made (Deduce a c pairs)) (λ board next. KeepsRulesInUse board next) }
    ensures unjoined { (p : Name) (pairs : List Deduced) → OfAnyCommit (Made (Unjoined p pairs)) (λ board next. KeepsRulesInUse board next) }
    ensures limits { (reason : Reason) → OfAnyCommit (Over reason) (λ board next. KeepsRulesInUse board next) }
    ensures one { (p : Name) (n : NodeId) (d : ℕ) (c : Certificate) → OfAnyCommit (Made (One p n d c)) (λ board next. (a : RuleRef) → IsAnother (record { node = n.0; dir = d }) a → IsUsedAsBefore board next a) }
    ensures both { (p : Name) (n : NodeId) (c0 c1 : Certificate) → OfAnyCommit (Made (Both p n c0 c1)) (λ board next. (a : RuleRef) → a.node ≢ n.0 → IsUsedAsBefore board next a) }
    ensures rewritten { (n : NodeId) (w : ℕ) (at : List ℕ) (a : RuleRef) (found : Found) (t : Term) → OfAnyCommit (Made (Rewrite n w at a found t)) (λ board next. KeepsRulesElsewhere board next n w t) }
{}

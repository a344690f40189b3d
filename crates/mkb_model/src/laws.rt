// The laws. A run lists its moments, each a board and the entry made on it, the newest first.
ghost use Rattle.std.specs.Prelude.{◌≡◌, ◌≢◌, ◌⊎◌, ◌≤◌, ◌<◌, ℕ, List, [], Contains, Some, None, IsTrue, IsFalse, filter, length};
ghost use Rattle.kb_term.specs.Signature.{Problem, IsWithinLimits};
ghost use Rattle.kb_label.specs.Names.{Name, root, has};
ghost use Rattle.kb_label.specs.declared.verdict.Verdict.{Verdict};
ghost use Rattle.kb_label.specs.declared.verdict.Verdict.TheVariants.{Complete};
ghost use Rattle.kb_laws.specs.Completion.{KbReaches, kb_start};
ghost use Rattle.mkb_model.specs.Plain.{Plain, PlainNode, state_of};
ghost use Rattle.mkb_model.specs.DueJobs.{awake, first_job, free_jobs};
ghost use Rattle.mkb_model.specs.Sleeping.{is_active};
ghost use Rattle.mkb_model.specs.Verdicts.{verdict, VerdictMeans};
ghost use Rattle.mkb_model.specs.Journals.{Moment, Follows, IsFreeJob, IsPossibleRun, IsRun, IsLeaving, After, journal_of, moves_of, opening, tickets};
ghost use Rattle.mkb_model.specs.Runs.{OfEachRun, OfEachLimitedRun, OfEachWholeRun, OfEachWholeLimitedRun, OfEachLimitedCommit, DecidesRuns, HasOneWayAlone};
ghost use Rattle.mkb_model.specs.Limits.{AreLimited};
ghost use Rattle.kb_overlap.specs.Trace.{IsOriginOfForm};
ghost use Rattle.mkb_model.specs.Changing.{IsChanged, IsIdleLimit, IdleLimitsOnlyCount};
ghost use Rattle.mkb_model.specs.Ready.{KeepsPairs, AllFine};
ghost use Rattle.kb_node.specs.declared.job.Job.{Job};
ghost use Rattle.mkb_model.specs.Tickets.{DropsFollowCommits, DropsNoClosing};
ghost use Rattle.mkb_model.specs.GoodAnswers.{IsGoodAnswer};
ghost use Rattle.mkb_model.specs.Proposals.{IsClosedOn, Proposes};
ghost use Rattle.mkb_model.specs.Headline.{EachCompletes};
ghost use Rattle.mkb_model.specs.Invariants.{IsSound, ClosedIsAtRest, RulesFollow, IsCertified, FactsHold, FlightIsClear, FlightIsNumbered, HasOneRole, LabelsAreLabels, LivingIsForked, PairsDiffer, IsWithinBudget};
ghost use Rattle.mkb_model.specs.declared.entry.Entry.{Entry};
ghost use Rattle.mkb_model.specs.declared.entry.Effect.{Effect};
ghost use Rattle.mkb_model.specs.declared.settings.Settings.{Settings};
ghost use Rattle.mkb_model.specs.declared.proposed.Proposed.{Proposed};

/// A legal run, in which each take is of the first job, is a possible run, in which each take is of any due job that clashes
/// with none in flight.
pub fn legal_runs_are_possible()
    ensures { (problem : Problem) (settings : Settings) (past : List Moment) (board : Plain) → IsRun problem settings past board → IsPossibleRun problem settings past board }
{}

/// What is known of a side of a node and a rule is true, and is never that the redex is strict.
pub fn facts_hold()
    ensures { OfEachRun FactsHold }
{}

/// No ticket in flight clashes with one that was taken before it; the tickets in flight have different numbers, from 1 to
/// the number of takes.
pub fn flight_is_in_order()
    ensures clear { OfEachRun FlightIsClear }
    ensures numbered { OfEachWholeRun (λ _ _ past board _. FlightIsNumbered (tickets past) board) }
{}

/// Every label names living processes, each once, in name order: those of the nodes, of the overlapped rules, of the closed
/// processes, of those that gave up and of those that sleep.
pub fn labels_name_the_living()
    ensures { OfEachRun LabelsAreLabels }
{}

/// The living names are what forks of living processes make of the first one, none begins another, and they are at most 1,024.
pub fn living_names_come_of_forks()
    ensures { OfEachRun LivingIsForked }
{}

/// The pairs of the nodes are canonical, not trivial, and no two are the same; each stays at its number.
pub fn pairs_stay()
    ensures differ { OfEachRun PairsDiffer }
    ensures numbers { OfEachWholeRun (λ _ _ past board _. (earlier : Moment) → Contains past earlier → KeepsPairs earlier.board.nodes board.nodes) }
{}

/// In each possible run the sides and directions that the origin of each node names are 0 or 1.
pub fn origins_are_of_form()
    ensures { OfEachRun (λ board. (x : PlainNode) → Contains board.nodes x → IsOriginOfForm x.origin) }
{}

/// In each possible run of a problem within the limits the pair of each node is within the limits: both sides are terms over the
/// signature of at most size 512 and depth 64, with at most 64 variables together.
pub fn pairs_are_within_limits()
    ensures { OfEachWholeLimitedRun (λ problem _ _ board _. AreLimited problem.signature board.nodes) }
{}

/// The board is of the run's problem and settings, and has at most as many commits as their budget.
pub fn commits_stay_within_the_budget()
    ensures { OfEachWholeRun (λ problem settings _ board _. IsWithinBudget problem settings board) }
{}

/// What a verdict says of the processes, on any board. A verdict that stands stays, and then tickets are only given back or a
/// halt is made.
pub fn verdicts_stay()
    ensures means { (board : Plain) (v : Verdict) → verdict board ≡ Some v → VerdictMeans board v }
    ensures leaves { (past : List Moment) (board : Plain) (entry : Entry) (next : Plain) (v : Verdict) → Follows IsFreeJob past board entry next → verdict board ≡ Some v → IsLeaving entry }
    ensures stays { (past : List Moment) (board : Plain) (entry : Entry) (next : Plain) (v : Verdict) → Follows IsFreeJob past board entry next → verdict board ≡ Some v → verdict next ≡ Some v }
{}

/// At most 64 processes are active (they live, and have neither failed nor given up) and awake. Where fewer are, no active
/// process is asleep.
pub fn sixty_four_are_worked_on()
    ensures few { OfEachRun (λ board. length (filter (is_active board) (awake board)) ≤ 64) }
    ensures none_waits { OfEachRun (λ board. length (filter (is_active board) (awake board)) < 64 → (p : Name) → IsTrue (has board.asleep p) → IsFalse (is_active board p)) }
{}

/// Where no verdict stands and no job may be taken, a ticket is in flight: some process is active, so one is active and awake.
/// There is a first job where there is one that may be taken.
pub fn work_goes_on()
    ensures free { OfEachRun (λ board. verdict board ≡ None → free_jobs board ≡ [] → board.flight ≢ []) }
    ensures first { OfEachRun (λ board. verdict board ≡ None → first_job board ≡ None → board.flight ≢ []) }
{}

/// The first process begins with the problem's equations: its state on the opening board is reached from them by completion,
/// in which the trivial ones are deleted.
pub fn opening_is_reached()
    ensures { (problem : Problem) (settings : Settings) → KbReaches problem.signature (kb_start problem) (state_of (opening problem settings) root) }
{}

/// In each possible run of a problem within the limits: each commit is fine for the board on which it is made; each process has
/// each node as an equation, as one of its two rules, or not at all; and the views of each living process are a run of
/// completion of that process alone.
pub fn runs_complete()
    ensures fine { OfEachWholeLimitedRun (AllFine IsFreeJob) }
    ensures one_role { OfEachLimitedRun (λ board. (p : Name) (n : ℕ) → HasOneRole board p n) }
    ensures completes { OfEachWholeLimitedRun (λ problem _ past board _. EachCompletes problem past board) }
{}

/// In each possible run: nothing but a closing is due for a process that is closed or being closed, and it has not given up; and
/// a closed one is neither oriented nor closed again. What is closed stays closed: the terms of each overlap of its rules
/// normalise to one term or to an equation that it has.
pub fn closed_processes_rest()
    ensures rest { OfEachRun (λ board. (p : Name) → ClosedIsAtRest board p) }
    ensures closed { OfEachRun (λ board. (p : Name) → IsTrue (has board.closed p) → IsClosedOn board p) }
{}

/// In each possible run of a problem within the limits: the certificate of each living process is of the run's family and orders its
/// constraints; and each rule of a process leads from its left to its right side by its constraints, in one step or more.
pub fn certificates_order()
    ensures certified { OfEachLimitedRun (λ board. (p : Name) → IsTrue (has board.living p) → IsCertified board p) }
    ensures rules_follow { OfEachLimitedRun (λ board. (p : Name) → RulesFollow board p) }
{}

/// All invariants at once, of each board of a possible run of a problem within the limits: beside what the other laws say, each
/// pair follows from the input equations and earlier pairs as its origin says.
pub fn boards_are_sound()
    ensures { OfEachWholeLimitedRun (λ _ _ past board _. IsSound (tickets past) board) }
{}

/// Where the verdict of a possible run of a problem within the limits is that a process is complete, its rules, ordered by its
/// certificate, are terminating and confluent and prove exactly what the problem proves; all their overlaps join, and the sides
/// of each input equation have one normal form.
pub fn complete_is_good()
    ensures { OfEachWholeLimitedRun (λ problem _ _ board _. (p : Name) → verdict board ≡ Some (Complete p) → IsGoodAnswer problem board p) }
{}

/// In each possible run a ticket is dropped only where a commit was made since its take; and a closing is never dropped.
pub fn tickets_are_dropped_after_commits()
    ensures since { OfEachWholeRun (λ _ _ past board _. DropsFollowCommits past board) }
    ensures closings { OfEachWholeRun (λ _ _ past board _. DropsNoClosing past board) }
{}

/// A journal decides its run: two possible runs of one problem and settings with the same entries have the same boards. So a legal
/// journal leads to one board.
pub fn journals_decide_runs()
    ensures runs { (problem : Problem) (settings : Settings) → DecidesRuns journal_of problem settings }
    ensures after { (problem : Problem) (settings : Settings) (journal : List Entry) (board end : Plain) → After problem settings journal board → After problem settings journal end → board ≡ end }
{}

/// What a job proposes is a function of the board on which it is taken. So at most one possible run of a problem within the
/// limits has given moves, which the lines of a journal text keep: the worker, the ticket and the job of each take, and the
/// ticket of each other entry but a halt.
pub fn moves_decide_runs()
    ensures proposals { OfEachLimitedRun (λ board. (job : Job) (one other : Proposed) → Proposes board job one → Proposes board job other → one ≡ other) }
    ensures runs { (problem : Problem) (settings : Settings) → IsWithinLimits problem → DecidesRuns moves_of problem settings }
{}

/// One worker alone, which ends each ticket before it takes the next one, up to a verdict, has one journal for a problem within
/// the limits and settings, and one board at its end.
pub fn one_worker_has_one_journal()
    ensures { (problem : Problem) (settings : Settings) → IsWithinLimits problem → HasOneWayAlone problem settings }
{}

/// In each possible run of a problem within the limits each commit changes which processes some label names, what is known of some
/// side and rule, or which processes live; but where it comes to want of room and all processes on which its proposal acts have
/// given up before, it changes the number of commits and the flight alone.
pub fn commits_change_the_board()
    ensures changes { (effect : Effect) → OfEachLimitedCommit effect (λ board next proposal. IsChanged board next ⊎ IsIdleLimit board proposal) }
    ensures idle { OfEachWholeRun (λ _ _ past board _. IdleLimitsOnlyCount past board) }
{}

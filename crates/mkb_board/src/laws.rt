// Laws of tickets and commits.
ghost use Rattle.std.specs.Prelude.{◌≡◌, ◌≢◌, ℕ, List, [], Contains};
ghost use Rattle.kb_jobs.specs.Working.{ProposesBy};
ghost use Rattle.kb_jobs.specs.declared.working.Snapshot.{Snapshot};
ghost use Rattle.mkb_model.specs.Effects.{effect_label};
ghost use Rattle.mkb_model.specs.Sleeping.{settle};
ghost use Rattle.mkb_model.specs.declared.entry.Ticket.{Ticket};
ghost use Rattle.mkb_model.specs.declared.entry.Entry.{Entry};
ghost use Rattle.mkb_model.specs.declared.proposed.Proposed.{Proposed};
ghost use Rattle.mkb_rules.specs.Rewriting.{LeadsTo};
ghost use Rattle.mkb_rules.specs.declared.applied.Applied.{Applied};
ghost use Rattle.mkb_agenda.specs.Following.{HasNodesOf, IsCommitOn};
ghost use Rattle.mkb_agenda.specs.declared.following.Commit.{Commit};
ghost use Rattle.mkb_board.specs.Boards.{Seen, IsLegalBoard};
ghost use Rattle.mkb_board.specs.Takes.{IsTakenBy, IsFinishedBy, IsProposalOf, IsCommittedBy, unsettled};
ghost use Rattle.mkb_board.specs.Held.{IsHeld, MadeNoEntry, StaysHeld, StaysHeldIf};
ghost use Rattle.mkb_board.specs.declared.answers.Taken.{Taken};
ghost use Rattle.mkb_board.specs.declared.answers.Taken.TheVariants.{Job as TakenJob};
ghost use Rattle.mkb_board.specs.declared.answers.Finished.{Finished};

/// Several tickets may be held at once. A take gives a ticket that is held, of a number that no held one has; a held one
/// stays held as long as it is in flight, so also where others take tickets and end theirs, and over any entries in which its
/// worker made none; and what its job proposes by what it read may end it.
pub fn held_tickets_stay()
    ensures taken { (old new : Seen) (worker : ℕ) (t : Ticket) (s : Snapshot) → IsLegalBoard old → IsTakenBy old new worker (TakenJob t s) → IsHeld new t s }
    ensures numbered { (old new : Seen) (worker : ℕ) (t u : Ticket) (s r : Snapshot) → IsLegalBoard old → IsTakenBy old new worker (TakenJob t s) → IsHeld old u r → u.number ≢ t.number }
    ensures in_flight { (old new : Seen) (more : List Entry) (u : Ticket) (r : Snapshot) → StaysHeldIf old new more u r (Contains new.plain.flight u) }
    ensures of_others { (old new : Seen) (more : List Entry) (u : Ticket) (r : Snapshot) → IsLegalBoard old → IsLegalBoard new → StaysHeldIf old new more u r (MadeNoEntry old new u.worker) }
    ensures after_take { (old new : Seen) (worker : ℕ) (a : Taken) (u : Ticket) (r : Snapshot) → IsTakenBy old new worker a → StaysHeld old new u r }
    ensures after_finish { (old new : Seen) (t : Ticket) (x : Proposed) (f : Finished) (u : Ticket) (r : Snapshot) → IsFinishedBy old new t x f → u.number ≢ t.number → StaysHeld old new u r }
    ensures proposes { (b : Seen) (t : Ticket) (s : Snapshot) (x : Proposed) → IsHeld b t s → ProposesBy s x → IsProposalOf b t x }
{}

/// What a board commits is a commit that its agenda, and an index of its rules, can follow: told with those whom the label of
/// the proposal names, and with the node to which a rewriting led, it makes the board as it is before any process falls asleep or wakes; the nodes that the proposal names
/// are there; and then processes fall asleep or wake, which is all that is left to the new board.
pub fn commits_can_be_followed()
    ensures commit { (old new : Seen) (t : Ticket) (x : Proposed) (commit : Commit) → IsCommittedBy old new t x commit.applied → commit.proposal.now ≡ x → commit.names.now ≡ effect_label old.plain x → (commit.applied ≡ Applied.Done → LeadsTo (unsettled old.plain x) x commit.target) → IsCommitOn old.plain commit (unsettled old.plain x) }
    ensures nodes { (old new : Seen) (t : Ticket) (x : Proposed) (a : Applied) → IsCommittedBy old new t x a → HasNodesOf (unsettled old.plain x) x }
    ensures settles { (old new : Seen) (t : Ticket) (x : Proposed) (a : Applied) → IsCommittedBy old new t x a → record new.plain { flight = [] } ≡ settle (unsettled old.plain x) }
{}

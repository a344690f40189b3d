// The law that ties what jobs propose to the board.
ghost use Rattle.mkb_model.specs.Plain.{Plain};
ghost use Rattle.mkb_model.specs.Proposals.{Proposes};
ghost use Rattle.mkb_model.specs.declared.proposed.Proposed.{Proposed};
ghost use Rattle.kb_jobs.specs.Working.{job_of, IsTaken, ProposesBy};
ghost use Rattle.kb_jobs.specs.declared.working.Snapshot.{Snapshot};

/// What a job proposes by its snapshot is what it proposes on the board from which the snapshot was taken.
pub fn work_is_as_on_the_board()
    ensures { (b : Plain) (s : Snapshot) (x : Proposed) → IsTaken b s → ProposesBy s x → Proposes b (job_of s) x }
{}

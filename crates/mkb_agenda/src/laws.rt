// Laws of agendas.
ghost use Rattle.std.specs.Prelude.{ℕ, ◌≡◌, ◌↔◌, [], ◌∷◌, List, Option, true, false};
ghost use Rattle.kb_label.specs.Names.{Name, add, minus};
ghost use Rattle.kb_node.specs.declared.job.Job.{Job};
ghost use Rattle.mkb_model.specs.Plain.{Plain};
ghost use Rattle.mkb_model.specs.DueJobs.{first_job, flying_jobs};
ghost use Rattle.mkb_model.specs.declared.entry.Ticket.{Ticket};
ghost use Rattle.mkb_pick.specs.Listings.{Listed, HasJob, IsLeastOffered, SetsRest};
ghost use Rattle.mkb_agenda.specs.Agendas.{IsAgendaOf};

/// What the agenda of a board offers first beside the jobs in flight is the first job of the board; it offers none exactly where
/// there is none.
pub fn what_is_offered_first_is_the_first_job()
    ensures { (board : Plain) (listed : List Listed) (offered : Option Job) → IsAgendaOf board listed → IsLeastOffered listed (flying_jobs board) offered → offered ≡ first_job board }
{}

/// A process that falls asleep, or wakes, changes the agenda of a board by its rest alone; what flies does not change it.
pub fn who_sleeps_rests()
    ensures sleeps { (board : Plain) (p : Name) (before after : List Listed) → IsAgendaOf board before → SetsRest before p true after → ((j : Job) (w : ℕ) → HasJob after j w ↔ HasJob before j w) → IsAgendaOf (record board { asleep = add p board.asleep }) after }
    ensures wakes { (board : Plain) (p : Name) (before after : List Listed) → IsAgendaOf board before → SetsRest before p false after → ((j : Job) (w : ℕ) → HasJob after j w ↔ HasJob before j w) → IsAgendaOf (record board { asleep = minus board.asleep (p ∷ []) }) after }
    ensures flies { (board : Plain) (flight : List Ticket) (listed : List Listed) → IsAgendaOf board listed → IsAgendaOf (record board { flight = flight }) listed }
{}

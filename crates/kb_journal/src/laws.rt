// What holds of the texts of journals.
ghost use Rattle.std.specs.Prelude.{◌≡◌, ℕ, List};
ghost use Rattle.kb_term.specs.Signature.{Problem, IsWithinLimits};
ghost use Rattle.mkb_model.specs.declared.settings.Settings.{Settings};
ghost use Rattle.kb_journal.specs.Journals.{Journal, JournalSpelled};
ghost use Rattle.kb_journal.specs.Replays.{LinesDecideJournals};

/// A text is that of one journal alone, and a journal has one text.
pub fn journal_texts_are_one()
    ensures journal { (bytes : List ℕ) (j k : Journal) → JournalSpelled bytes j → JournalSpelled bytes k → j ≡ k }
    ensures text { (bytes other : List ℕ) (j : Journal) → JournalSpelled bytes j → JournalSpelled other j → bytes ≡ other }
{}

/// At most one legal journal of a problem within the limits and settings has given lines, and it leads to one board.
pub fn lines_decide_journals()
    ensures { (problem : Problem) (settings : Settings) → IsWithinLimits problem → LinesDecideJournals problem settings }
{}

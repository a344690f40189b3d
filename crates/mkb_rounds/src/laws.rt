// Laws of rounds.
ghost use Rattle.kb_term.specs.Signature.{Problem};
ghost use Rattle.mkb_model.specs.declared.settings.Settings.{Settings};
ghost use Rattle.mkb_rounds.specs.Rounds.{HasOneJournal};

/// Rounds have one journal for a problem within the limits and settings, and one board at its end. So neither depends on how many
/// workers there were.
pub fn rounds_have_one_journal()
    ensures { (problem : Problem) (settings : Settings) → HasOneJournal problem settings }
{}

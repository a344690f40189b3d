// Laws of runs.
ghost use Rattle.std.specs.Prelude.{ℕ, List};
ghost use Rattle.mkb_model.specs.declared.settings.Settings.{Settings};
ghost use Rattle.mkbtt_top.specs.Completing.{RoundsAgree};

/// By rounds the bytes of a problem and the settings decide the status and the text of a completion, whatever the number of workers.
pub fn rounds_write_one_text()
    ensures { (bytes : List ℕ) (settings : Settings) (few many : ℕ) → RoundsAgree bytes settings few many }
{}

// Laws of what the command reads.
ghost use Rattle.std.specs.Prelude.{ℕ, ◌≡◌, ◌⊎◌, List};
ghost use Rattle.mkbtt_words.specs.Reading.{AreRead, AreRefused, AreTaken, AreWithin};
ghost use Rattle.mkbtt_words.specs.declared.words.Words.{Words};

/// Words are taken or refused and not both, and what is read of them is one value, whose numbers are within their bounds.
pub fn words_are_read_or_refused()
    ensures either { (words : List (List ℕ)) → AreTaken words ⊎ AreRefused words }
    ensures not_both { (words : List (List ℕ)) → AreTaken words → ¬ AreRefused words }
    ensures one { (words : List (List ℕ)) (v w : Words) → AreRead words v → AreRead words w → v ≡ w }
    ensures within { (words : List (List ℕ)) (w : Words) → AreRead words w → AreWithin w }
{}

// The law of fairness. A run lists its moments, each a board and the entry made on it, the newest first.
ghost use Rattle.std.specs.Prelude.{◌≡◌, ℕ, List};
ghost use Rattle.kb_term.specs.Pair.{Pair};
ghost use Rattle.kb_term.specs.Signature.{Signature, IsWithinLimits};
ghost use Rattle.mkb_model.specs.declared.settings.Selection.TheVariants.{Size};
ghost use Rattle.mkb_fairness.specs.Fairness.{AreDifferent, AreNoHeavier, AreNoMoreThanLighter, HasPairsUpTo, OfEachWait};

/// One worker alone, which ends each ticket before it takes the next one, works by the selection `size`. While an overlap of a
/// process waits, the overlaps of that process that are taken weigh no more than it, and no two are the same. They are no more
/// than there are pairs of canonical pairs that together weigh no more than it, since the process has each pair as a rule in one
/// direction alone. These pairs of pairs are finitely many.
pub fn overlaps_wait_their_turn()
    ensures lighter { OfEachWait (λ _ settings board overlap taken. settings.selection ≡ Size → AreNoHeavier board overlap taken) }
    ensures once { OfEachWait (λ _ _ _ _ taken. AreDifferent taken) }
    ensures few { (signature : Signature) (size : ℕ) → (all : List (Pair × Pair)) × HasPairsUpTo signature size all }
    ensures bounded { OfEachWait (λ problem settings board overlap taken. settings.selection ≡ Size → IsWithinLimits problem → AreNoMoreThanLighter problem.signature board overlap taken) }
{}

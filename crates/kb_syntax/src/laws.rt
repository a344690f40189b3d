// What the definitions imply, as contracts of functions that do nothing.
ghost use Rattle.std.specs.Prelude.{◌≡◌, ℕ, List};
ghost use Rattle.kb_term.specs.Signature.{Problem, IsWithinLimits};
ghost use Rattle.kb_text.specs.Problems.{Spells};
ghost use Rattle.kb_text.specs.Refusals.{IsRefused};
ghost use Rattle.kb_text.specs.declared.kind.Kind.{Kind};

/// Bytes spell at most one problem.
pub fn bytes_spell_one_problem()
    ensures { (bytes : List ℕ) (p q : Problem) → Spells bytes p → Spells bytes q → p ≡ q }
{}

/// Bytes are refused in one way at most.
pub fn bytes_are_refused_in_one_way()
    ensures { (bytes : List ℕ) (a b : Kind) (m n : ℕ) → IsRefused bytes a m → IsRefused bytes b n → (a ≡ b) × (m ≡ n) }
{}

/// Bytes that are refused spell no problem.
pub fn refused_bytes_spell_no_problem()
    ensures { (bytes : List ℕ) (kind : Kind) (at : ℕ) (p : Problem) → IsRefused bytes kind at → Spells bytes p → ⊥ }
{}

/// A problem that bytes spell is within the limits, and the variables of each equation are numbered by first occurrence.
pub fn spelled_problems_are_within_limits()
    ensures { (bytes : List ℕ) (p : Problem) → Spells bytes p → IsWithinLimits p }
{}

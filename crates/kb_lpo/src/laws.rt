// What holds of the path order. Each function has an empty body: its clauses are theorems over the definitions.
ghost use Rattle.std.specs.Prelude.{ℕ, List};
ghost use Rattle.kb_lpo.specs.PathOrder.{LpoGreater};
ghost use Rattle.kb_lpo.specs.PathOrderLaws.{IsTransitive, IsIrreflexive, IsDecided, IsClosedUnderSubstitutions, IsClosedUnderContexts, OrientsRulesOnly, RewritingDescends, HaltsWhatItOrients, FirstBoundsMore, NoneForMore};

/// The path order over any list of symbols is transitive, irreflexive and decided.
pub fn lpo_is_strict_order()
    ensures transitive { (prec : List ℕ) → IsTransitive (LpoGreater prec) }
    ensures irreflexive { (prec : List ℕ) → IsIrreflexive (LpoGreater prec) }
    ensures decided { (prec : List ℕ) → IsDecided (LpoGreater prec) }
{}

/// The path order is kept under substitutions and in contexts, so what oriented rules rewrite becomes smaller.
pub fn lpo_is_rewrite_order()
    ensures substitutions { (prec : List ℕ) → IsClosedUnderSubstitutions (LpoGreater prec) }
    ensures contexts { (prec : List ℕ) → IsClosedUnderContexts (LpoGreater prec) }
    ensures steps { (prec : List ℕ) → RewritingDescends prec }
{}

/// What the path order orients is a rule, and such rules halt: a number bounds the steps of every chain from each term
/// over the signature.
pub fn lpo_halts()
    ensures rules { (prec : List ℕ) → OrientsRulesOnly prec }
    ensures halts { (prec : List ℕ) → HaltsWhatItOrients prec }
{}

/// With more rules the first precedence is never earlier: the first one for some rules is a lower bound of the search
/// for all, and where some rules have none, all have none.
pub fn more_rules_are_never_earlier()
    ensures bound { (count : ℕ) → FirstBoundsMore count }
    ensures none { (count : ℕ) → NoneForMore count }
{}

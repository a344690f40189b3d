// What holds of the Knuth-Bendix order. Each function has an empty body: its clauses are theorems over the definitions.
ghost use Rattle.kb_term.specs.Signature.{Signature};
ghost use Rattle.kb_lpo.specs.PathOrderLaws.{IsTransitive, IsIrreflexive, IsDecided, IsClosedUnderSubstitutions, IsClosedUnderContexts};
ghost use Rattle.kb_kbo.specs.KnuthBendix.{KboOrder, KboGreater};
ghost use Rattle.kb_kbo.specs.KnuthBendixLaws.{HasWeights, OrientsRulesOnly, RewritingDescends, LighterAreFew, ChainsAreShort, HaltsWhatItOrients};

/// The Knuth-Bendix order over any weights and any list of symbols is transitive, irreflexive and decided.
pub fn kbo_is_strict_order()
    ensures transitive { (order : KboOrder) → IsTransitive (KboGreater order) }
    ensures irreflexive { (order : KboOrder) → IsIrreflexive (KboGreater order) }
    ensures decided { (order : KboOrder) → IsDecided (KboGreater order) }
{}

/// Where each symbol weighs at least 1, the Knuth-Bendix order is kept under substitutions; it is kept in contexts, and so
/// what oriented rules rewrite becomes smaller.
pub fn kbo_is_rewrite_order()
    ensures substitutions { (order : KboOrder) → HasWeights order → IsClosedUnderSubstitutions (KboGreater order) }
    ensures contexts { (order : KboOrder) → IsClosedUnderContexts (KboGreater order) }
    ensures steps { (order : KboOrder) → RewritingDescends order }
{}

/// What the Knuth-Bendix order orients is a rule, and such rules halt: a chain from a term has fewer steps than there are
/// terms over its variables that weigh at most what it weighs, and these are finitely many.
pub fn kbo_halts()
    ensures rules { (order : KboOrder) → OrientsRulesOnly order }
    ensures few { (signature : Signature) (order : KboOrder) → LighterAreFew signature order }
    ensures short { (signature : Signature) (order : KboOrder) → ChainsAreShort signature order }
    ensures halts { (signature : Signature) (order : KboOrder) → HaltsWhatItOrients signature order }
{}

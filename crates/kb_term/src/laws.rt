// What the definitions imply, as contracts of functions that do nothing.
ghost use Rattle.std.specs.Prelude.{◌≡◌, ◌↔◌, IsTrue};
ghost use Rattle.std.specs.Ordering.{is_eq};
ghost use Rattle.kb_term.specs.Tree.{Tree, tree_cmp};
ghost use Rattle.kb_term.specs.TermOrder.{pair_eq};
ghost use Rattle.kb_term.specs.Pair.{Pair, canonical, numbered, IsSameEquation, IsVariantEquation};

/// Two equations have one canonical pair exactly where they are variants, in the same order of their sides or in the other.
pub fn canonical_pairs_tell_equations()
    ensures { (s t u v : Tree) → (canonical s t ≡ canonical u v) ↔ IsSameEquation (s, t) (u, v) }
{}

/// Two pairs of terms are variants exactly where numbering their variables by first occurrence makes them equal.
pub fn numberings_tell_variants()
    ensures { (s t u v : Tree) → (numbered s t ≡ numbered u v) ↔ IsVariantEquation (s, t) (u, v) }
{}

/// The orders of terms and of pairs call equal only what is one: so `==` decides it.
pub fn equal_pairs_are_one()
    ensures terms { (s t : Tree) → IsTrue (is_eq (tree_cmp s t)) ↔ (s ≡ t) }
    ensures pairs { (d e : Pair) → IsTrue (pair_eq d e) ↔ (d ≡ e) }
{}

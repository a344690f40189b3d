// The overlaps of two rules are one up to renaming.
ghost use Rattle.std.specs.Prelude.{List, Bool, ◌≡◌};
ghost use Rattle.kb_term.specs.Rule.{Rule};
ghost use Rattle.kb_overlap.specs.Overlap.{Overlap, IsOverlapList, IsOverlapOrLimit, ListsAgree, SidesAgree};

/// The overlaps of two rules are one up to renaming, whichever variant of the inner rule and whichever most general
/// unifiers are taken: two lists of them have the same positions, limits and canonical pairs in the same order.
pub fn overlaps_alike()
    ensures lists { (outer inner : Rule) (same : Bool) (xs ys : List Overlap) → IsOverlapList outer inner same xs → IsOverlapList outer inner same ys → ListsAgree xs ys }
    ensures overlaps { (outer inner : Rule) (x y : Overlap) → x.position ≡ y.position → IsOverlapOrLimit outer inner x → IsOverlapOrLimit outer inner y → SidesAgree x y }
{}

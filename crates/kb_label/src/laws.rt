// Laws of names and labels.
ghost use Rattle.std.specs.Prelude.{◌≡◌, ◌↔◌, ◌<◌, ◌||◌, ◌&&◌, not, List, length, true, false, IsTrue};
ghost use Rattle.kb_label.specs.Names.{Name, child, name_eq, is_beginning, has, add, join, meet, minus, relabel, IsInNameOrder};
ghost use Rattle.kb_label.specs.Forks.{IsForked};

/// What a label names after each operation.
pub fn operations_are_those_of_sets()
    ensures add { (l : List Name) (p q : Name) → has (add p l) q ≡ (name_eq q p || has l q) }
    ensures join { (l m : List Name) (q : Name) → has (join l m) q ≡ (has l q || has m q) }
    ensures meet { (l m : List Name) (q : Name) → has (meet l m) q ≡ (has m q && has l q) }
    ensures minus { (l m : List Name) (q : Name) → has (minus l m) q ≡ (not (has m q) && has l q) }
    ensures relabel { (l : List Name) (p q : Name) → IsTrue (has l p) → has (relabel p l) q ≡ (name_eq q (child p false) || (name_eq q (child p true) || (not (name_eq q p) && has l q))) }
    ensures relabel_absent { (l : List Name) (p : Name) → has l p ≡ false → relabel p l ≡ l }
{}

/// Two lists in the order of names that name the same are the same.
pub fn ordered_names_are_told_by_members()
    ensures { (l m : List Name) → IsInNameOrder l → IsInNameOrder m → ((q : Name) → has l q ≡ has m q) → l ≡ m }
{}

/// Of the names that live after forks: they are in their order, none is the beginning of another, and each has fewer
/// bits than there are names.
pub fn forked_names_are_apart()
    ensures in_order { (l : List Name) → IsForked l → IsInNameOrder l }
    ensures apart { (l : List Name) (p q : Name) → IsForked l → IsTrue (has l p) → IsTrue (has l q) → IsTrue (is_beginning p q) → p ≡ q }
    ensures short { (l : List Name) (p : Name) → IsForked l → IsTrue (has l p) → length p < length l }
{}

/// Names that `==` calls equal are one.
pub fn equal_names_are_one()
    ensures { (p q : Name) → IsTrue (name_eq p q) ↔ (p ≡ q) }
{}

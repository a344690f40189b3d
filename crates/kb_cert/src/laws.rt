// A law of the families of orders.
ghost use Rattle.kb_term.specs.Signature.{Signature};
ghost use Rattle.kb_cert.specs.Family.{FirstBoundsMore, NoneForMore};
ghost use Rattle.kb_cert.specs.declared.family.Family.{Family};

/// With more rules the first member of a family is never earlier: the first one for some rules is a lower bound of the search for
/// all, and where some rules have none, all have none.
pub fn more_rules_are_never_earlier()
    ensures bound { (f : Family) (signature : Signature) → FirstBoundsMore f signature }
    ensures none { (f : Family) (signature : Signature) → NoneForMore f signature }
{}

// What the definitions imply, as contracts of functions that do nothing.
ghost use Rattle.std.specs.Prelude.{◌↔◌, ◌∷◌, [], true, false};
ghost use Rattle.kb_term.specs.Tree.{Tree};
ghost use Rattle.kb_match.specs.Fitting.{Fits};
ghost use Rattle.rule_index.specs.Agreeing.{Agree};
ghost use Rattle.rule_index.specs.Marks.{marks_of};
ghost use Rattle.rule_index.specs.Walk.{Leads};

/// The marks of a left side lead through just the terms that it fits.
pub fn marks_lead_where_left_sides_fit()
    ensures { (left t : Tree) → Leads false (marks_of left) (t ∷ []) ↔ Fits left t }
{}

/// In loose walks they lead through just the terms that it agrees with.
pub fn marks_lead_loosely_where_left_sides_agree()
    ensures { (left t : Tree) → Leads true (marks_of left) (t ∷ []) ↔ Agree left t }
{}

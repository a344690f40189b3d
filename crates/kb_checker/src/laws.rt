// What holds of the verdicts on answers.
ghost use Rattle.std.specs.Prelude.{◌≡◌};
ghost use Rattle.kb_checker.specs.Answers.{Answer, IsAnswer};
ghost use Rattle.kb_checker.specs.Verdicts.{IsVerdict};
ghost use Rattle.kb_checker.specs.declared.verdict.Checked.{Checked};

/// What the checker says of an answer is one: no answer is both accepted and rejected, and it is rejected for one reason at one
/// number. So what `check` answers is the verdict.
pub fn verdicts_are_one()
    ensures { (answer : Answer) (one other : Checked) → IsAnswer answer → IsVerdict answer one → IsVerdict answer other → one ≡ other }
{}

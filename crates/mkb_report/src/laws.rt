// What reports say: laws over definitions.
ghost use Rattle.std.specs.Prelude.{◌≡◌, ℕ, Some, List};
ghost use Rattle.kb_term.specs.Signature.{Problem, IsWithinLimits};
ghost use Rattle.kb_label.specs.Names.{Name};
ghost use Rattle.kb_label.specs.declared.verdict.Verdict.{Verdict};
ghost use Rattle.kb_label.specs.declared.verdict.Verdict.TheVariants.{Complete};
ghost use Rattle.kb_checker.specs.Answers.{Answer, IsAnswer, IsGoodAnswer};
ghost use Rattle.kb_checker.specs.Verdicts.{IsAccepted, IsVerdict};
ghost use Rattle.kb_checker.specs.declared.verdict.Checked.{Checked};
ghost use Rattle.kb_checker.specs.declared.verdict.Checked.TheVariants.{Accepted};
ghost use Rattle.mkb_model.specs.Plain.{Plain};
ghost use Rattle.mkb_model.specs.Verdicts.{verdict};
ghost use Rattle.kb_report.specs.declared.report.Report.{Report};
ghost use Rattle.mkb_report.specs.Reports.{IsReached, IsAnswerOf, IsReportOf};

/// On a board that a legal journal of a problem within the limits leads to, where the verdict is that a process is complete, its
/// answer is good: its rules halt, are confluent and prove exactly what the problem proves, its order orders them and the
/// constraints, its trace is right and traces each rule and each constraint. No item of the check of this answer fails; so what the checker says of it, where it has the form of an answer, is that it
/// is accepted.
pub fn reports_are_good()
    ensures good { (b : Plain) (p : Name) (a : Answer) → IsReached b → verdict b ≡ Some (Complete p) → IsAnswerOf b p a → IsGoodAnswer a }
    ensures accepted { (b : Plain) (p : Name) (a : Answer) → IsReached b → verdict b ≡ Some (Complete p) → IsAnswerOf b p a → IsAccepted a }
    ensures checked { (b : Plain) (p : Name) (a : Answer) (said : Checked) → IsReached b → verdict b ≡ Some (Complete p) → IsAnswerOf b p a → IsAnswer a → IsVerdict a said → said ≡ Accepted }
{}

/// A board has at most one report.
pub fn reports_are_one()
    ensures { (b : Plain) (v : Verdict) (one other : Report) → IsReportOf b v one → IsReportOf b v other → one ≡ other }
{}

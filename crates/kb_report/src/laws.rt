// What holds of the texts of systems.
ghost use Rattle.std.specs.Prelude.{◌≡◌, ℕ, List};
ghost use Rattle.kb_text.specs.Lines.{IsBadLine};
ghost use Rattle.kb_checker.specs.Answers.{Answer};
ghost use Rattle.kb_report.specs.Answers.{AnswerSpelled, IsSystem, IsTextOf, IsSystemText};
ghost use Rattle.kb_report.specs.Reports.{report_text};
ghost use Rattle.kb_report.specs.declared.report.Report.TheVariants.{System};

/// A text is that of one system alone, in whichever version. What is written is read, as what it was written from.
pub fn texts_are_one()
    ensures one { (bytes : List ℕ) (a b : Answer) → IsTextOf bytes a → IsTextOf bytes b → a ≡ b }
    ensures read { (bytes : List ℕ) (a : Answer) → AnswerSpelled bytes a → IsTextOf bytes a }
{}

/// What `answer_text` writes of a system is a text of that system and of no other, so `read_answer` gives it back.
pub fn written_systems_are_read_back()
    ensures written { (a : Answer) → IsSystem a → IsTextOf (report_text (System a)) a }
    ensures alone { (a b : Answer) → IsSystem a → IsTextOf (report_text (System a)) b → b ≡ a }
{}

/// A text has at most one first line that isn't of its form, and the text of a system has none.
pub fn bad_lines_are_one()
    ensures one { (bytes : List ℕ) (m n : ℕ) → IsBadLine IsSystemText bytes m → IsBadLine IsSystemText bytes n → m ≡ n }
    ensures none { (bytes : List ℕ) (a : Answer) (n : ℕ) → IsTextOf bytes a → ¬ IsBadLine IsSystemText bytes n }
{}

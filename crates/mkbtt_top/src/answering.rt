// The answer that a task reads, alone or with what stands behind it, or the journal.
ghost use Rattle.std.specs.Prelude.{◌≡◌, ◌≤◌, IfOk, IfErr, map};
ghost use Rattle.kb_io.specs.Bytes.{TakesAll, TakesAtMost};
ghost use Rattle.kb_term.specs.View.{equations_of_list, tree_of};
ghost use Rattle.kb_report.specs.Answers.{IsSystemText};
ghost use Rattle.kb_goals.specs.Asking.{IsGoalsText};
ghost use Rattle.kb_goals.specs.Simplifying.{IsTermsText};
ghost use Rattle.kb_journal.specs.Journals.{IsJournalText};
ghost use Rattle.mkbtt_top.specs.Replaying.{IsJournalFrom};
ghost use Rattle.mkbtt_top.specs.Answering.{AreGoalsFrom, AreTermsFrom, IsNoTextBy, IsReadFrom, IsUnreadBy};

use crate::reply::Stop;
use kb_checker::Answer;
use kb_goals::{read_goals, read_terms};
use kb_io::{ReadAllFault, Source, read_all};
use kb_journal::{JournalText, read_journal};
use kb_report::read_answer;
use kb_syntax::{Bound, Kind};
use kb_term::{MAX_ANSWER_BYTES, Term};
use kb_text::TextFault;
use std::alloc::Global;

// Reads the source to its end.
fn bytes_from<S: Source>(alloc: Global, source: &mut S) -> Result<Vec<u8>, Stop>
    ensures bytes { IfOk result (λ bytes. TakesAll (S.left source.old) bytes.items (S.left source.new)) }
    ensures stop { IfErr result (IsUnreadBy (S.left source.old) (S.quiet source.old) (S.faults source.old) (S.faults source.new)) }
    ensures few { TakesAtMost (S.left source.old) 67108865 (S.left source.new) }
    ensures count { S.faults source.old ≤ S.faults source.new }
{
    match read_all(alloc, source, MAX_ANSWER_BYTES) {
        Ok(bytes) => Ok(bytes),
        Err(ReadAllFault::ReadFault) => Err(Stop::ReadFault),
        Err(ReadAllFault::TooLong) => Err(Stop::Refused(
            Kind::Limit(Bound::Input),
            MAX_ANSWER_BYTES as u64,
        )),
        Err(ReadAllFault::Memory) => Err(Stop::Memory(None)),
    }
}

/// Reads the source to its end, and the answer whose text its bytes are.
pub(crate) fn answer_from<S: Source>(alloc: Global, source: &mut S) -> Result<Answer, Stop>
    ensures answer { IfOk result (IsReadFrom (S.left source.old) (S.left source.new)) }
    ensures stop { IfErr result (IsNoTextBy IsSystemText (S.left source.old) (S.left source.new) (S.quiet source.old) (S.faults source.old) (S.faults source.new)) }
    ensures few { TakesAtMost (S.left source.old) 67108865 (S.left source.new) }
    ensures count { S.faults source.old ≤ S.faults source.new }
{
    let bytes = bytes_from(alloc, source)?;
    match read_answer(alloc, &bytes) {
        Ok(answer) => Ok(answer),
        Err(TextFault::BadText(n)) => Err(Stop::BadText(n)),
        Err(TextFault::Memory) => Err(Stop::Memory(None)),
    }
}

/// Reads the source to its end, and the answer and the goals whose text its bytes are.
pub(crate) fn goals_from<S: Source>(
    alloc: Global,
    source: &mut S,
) -> Result<(Answer, Vec<(Term, Term)>), Stop>
    ensures goals { IfOk result (λ r. AreGoalsFrom (S.left source.old) (S.left source.new) r.0 (equations_of_list r.1.items)) }
    ensures stop { IfErr result (IsNoTextBy IsGoalsText (S.left source.old) (S.left source.new) (S.quiet source.old) (S.faults source.old) (S.faults source.new)) }
    ensures few { TakesAtMost (S.left source.old) 67108865 (S.left source.new) }
    ensures count { S.faults source.old ≤ S.faults source.new }
{
    let bytes = bytes_from(alloc, source)?;
    match read_goals(alloc, &bytes) {
        Ok(read) => Ok(read),
        Err(TextFault::BadText(n)) => Err(Stop::BadText(n)),
        Err(TextFault::Memory) => Err(Stop::Memory(None)),
    }
}

/// Reads the source to its end, and the answer and the terms whose text its bytes are.
pub(crate) fn terms_from<S: Source>(
    alloc: Global,
    source: &mut S,
) -> Result<(Answer, Vec<Term>), Stop>
    ensures terms { IfOk result (λ r. AreTermsFrom (S.left source.old) (S.left source.new) r.0 (map tree_of r.1.items)) }
    ensures stop { IfErr result (IsNoTextBy IsTermsText (S.left source.old) (S.left source.new) (S.quiet source.old) (S.faults source.old) (S.faults source.new)) }
    ensures few { TakesAtMost (S.left source.old) 67108865 (S.left source.new) }
    ensures count { S.faults source.old ≤ S.faults source.new }
{
    let bytes = bytes_from(alloc, source)?;
    match read_terms(alloc, &bytes) {
        Ok(read) => Ok(read),
        Err(TextFault::BadText(n)) => Err(Stop::BadText(n)),
        Err(TextFault::Memory) => Err(Stop::Memory(None)),
    }
}

/// Reads the source to its end, and the journal whose text its bytes are.
pub(crate) fn journal_from<S: Source>(alloc: Global, source: &mut S) -> Result<JournalText, Stop>
    ensures journal { IfOk result (IsJournalFrom (S.left source.old) (S.left source.new)) }
    ensures stop { IfErr result (IsNoTextBy IsJournalText (S.left source.old) (S.left source.new) (S.quiet source.old) (S.faults source.old) (S.faults source.new)) }
    ensures few { TakesAtMost (S.left source.old) 67108865 (S.left source.new) }
    ensures count { S.faults source.old ≤ S.faults source.new }
{
    let bytes = bytes_from(alloc, source)?;
    match read_journal(alloc, &bytes) {
        Ok(journal) => Ok(journal),
        Err(TextFault::BadText(n)) => Err(Stop::BadText(n)),
        Err(TextFault::Memory) => Err(Stop::Memory(None)),
    }
}

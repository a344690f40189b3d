// The completion of a problem.
ghost use Rattle.std.specs.Prelude.{◌≡◌, ◌≤◌, Some, IfOk, IfErr, IfSome};
ghost use Rattle.kb_term.specs.Signature.{IsWithinLimits};
ghost use Rattle.mkb_model.specs.Verdicts.{verdict as verdict_on};
ghost use Rattle.kb_io.specs.Bytes.{TakesAtMost};
ghost use Rattle.mkbtt_top.specs.Completing.{status_of as status_by, IsBroken, IsFinished, IsLeft, IsReported, IsTold, IsCompletion, IsCompletionOf, Completes, IsRefusal, IsUnfinishedBy};
ghost use Rattle.mkbtt_top.specs.Workers.{FewWorkers};

use crate::host::Host;
use crate::reply::{Reply, Stop};
use crate::status::Status;
use crate::workers::{Workers, worked_on};
use kb_io::{Gate, ReadAllFault, Source, read_all};
use kb_journal::journal_text;
use kb_label::Verdict;
use kb_report::answer_text;
use kb_syntax::{Bound, Kind, SyntaxFault, parse_problem, spelled_problems_are_within_limits};
use kb_term::{MAX_PROBLEM_BYTES, Memory, Problem};
use mkb_board::Board;
use mkb_model::Settings;
use mkb_report::{report_of, reports_are_good};
use std::alloc::Global;
use std::sync::Wait;
use std::thread::Threads;
use std::time::Clock;

fn status_of(verdict: &Verdict) -> Status
    ensures { result ≡ status_by verdict.now }
{
    match verdict {
        Verdict::Complete(_) => Status::Done,
        Verdict::AllFailed => Status::AllFailed,
        Verdict::Spent(spent) => Status::Spent(*spent),
    }
}

// The text of the report of the verdict that stands on the board.
fn report_text(alloc: Global, board: &Board, verdict: &Verdict) -> Result<Vec<u8>, Memory>
    requires { verdict_on board.now.plain ≡ Some verdict.now }
    ensures { IfOk result (λ text. IsReported board.now verdict.now text.items) }
{
    // laws: the report is good, and the journal is legal
    reports_are_good();
    board.journal_is_legal();
    let report = report_of(alloc, board.state(), verdict)?;
    answer_text(alloc, &report)
}

/// What is told of a board on which a verdict stands.
#[derive(Clone, Copy, PartialEq, Eq)]
pub(crate) enum Told {
    /// The report of the verdict.
    Report,
    /// The journal.
    Journal,
}

// The text of what is told of the board on which the verdict stands.
fn told_text(alloc: Global, board: &Board, verdict: &Verdict, told: Told) -> Result<Vec<u8>, Memory>
    requires { verdict_on board.now.plain ≡ Some verdict.now }
    ensures { IfOk result (λ text. IsTold told board.now verdict.now text.items) }
{
    match told {
        Told::Report => report_text(alloc, board, verdict),
        Told::Journal => journal_text(alloc, board),
    }
}

/// The board of the problem, on which the workers have ended their work.
///
/// # Errors
///
/// Want of memory before a verdict stands, with the board where one was made.
pub(crate) fn finish<R: Threads + Wait + Clock + Sync, G: Gate>(
    host: &Host<R, G>,
    problem: Problem,
    settings: Settings,
    workers: Workers,
) -> Result<(Board, Verdict), Option<Board>>
    requires within { IsWithinLimits problem }
    requires few { FewWorkers workers }
    ensures finished { IfOk result (λ end. IsFinished problem settings workers end.0 end.1) }
    ensures broken { IfErr result (λ board. IfSome board (IsBroken problem settings workers)) }
{
    let Ok(board) = Board::start(host.alloc, problem, settings) else {
        return Err(None);
    };
    let crew = worked_on(host, board, workers);
    match crew.board.verdict() {
        Some(verdict) => Ok((crew.board, verdict)),
        None => Err(Some(crew.board)),
    }
}

// The reply to the problem.
fn complete_problem<R: Threads + Wait + Clock + Sync, G: Gate>(
    host: &Host<R, G>,
    problem: Problem,
    settings: Settings,
    workers: Workers,
    told: Told,
) -> Result<Reply, Option<Board>>
    requires within { IsWithinLimits problem }
    requires few { FewWorkers workers }
    ensures reply { IfOk result (λ r. IsCompletion told problem settings workers r.status r.board r.text.items) }
    ensures left { IfErr result (λ board. IfSome board (IsLeft problem settings workers)) }
{
    let (board, verdict) = finish(host, problem, settings, workers)?;
    match told_text(host.alloc, &board, &verdict, told) {
        Ok(text) => Ok(Reply {
            text,
            status: status_of(&verdict),
            board: Some(board),
        }),
        Err(Memory) => Err(Some(board)),
    }
}

// The reply to the problem that the bytes spell.
fn complete_bytes<R: Threads + Wait + Clock + Sync, G: Gate>(
    host: &Host<R, G>,
    bytes: &[u8],
    settings: Settings,
    workers: Workers,
    told: Told,
) -> Result<Reply, Stop>
    requires few { FewWorkers workers }
    ensures reply { IfOk result (λ r. IsCompletionOf told bytes.now settings workers r.status r.board r.text.items) }
    ensures stop { IfErr result (IsRefusal settings workers bytes.now) }
{
    // a law: what the bytes spell is within the limits
    spelled_problems_are_within_limits();
    let problem = match parse_problem(host.alloc, bytes) {
        Ok(problem) => problem,
        Err(SyntaxFault::Refused(refusal)) => return Err(Stop::Refused(refusal.kind, refusal.at)),
        Err(SyntaxFault::Memory) => return Err(Stop::Memory(None)),
    };
    complete_problem(host, problem, settings, workers, told).map_err(Stop::Memory)
}

/// Reads a problem from the source and completes it by these workers; the reply is the report of the verdict, or the journal.
pub(crate) fn complete_source<R: Threads + Wait + Clock + Sync, S: Source, G: Gate>(
    host: &Host<R, G>,
    source: &mut S,
    settings: Settings,
    workers: Workers,
    told: Told,
) -> Result<Reply, Stop>
    requires few { FewWorkers workers }
    ensures reply { IfOk result (λ r. Completes told settings workers r.status r.board (S.left source.old) (S.left source.new) r.text.items) }
    ensures stop { IfErr result (IsUnfinishedBy settings workers (S.left source.old) (S.left source.new) (S.quiet source.old) (S.faults source.old) (S.faults source.new)) }
    ensures few { TakesAtMost (S.left source.old) 1048577 (S.left source.new) }
    ensures count { S.faults source.old ≤ S.faults source.new }
{
    let bytes = match read_all(host.alloc, source, MAX_PROBLEM_BYTES) {
        Ok(bytes) => bytes,
        Err(ReadAllFault::ReadFault) => return Err(Stop::ReadFault),
        Err(ReadAllFault::TooLong) => {
            return Err(Stop::Refused(Kind::Limit(Bound::Input), MAX_PROBLEM_BYTES as u64));
        }
        Err(ReadAllFault::Memory) => return Err(Stop::Memory(None)),
    };
    complete_bytes(host, &bytes, settings, workers, told)
}

// The top call.
ghost use Rattle.std.specs.Prelude.{◌≡◌, ◌⊎◌, ◌≤◌, None, map, IfOk, IfErr, IfSome, IsTrue};
ghost use Rattle.kb_io.specs.Bytes.{Rose};
ghost use Rattle.mkbtt_top.specs.Runs.{Answers, AnswersInPart, AskToRead, Ends, HasBadAnswer, HasNoBoard, HoldsText, IsAnswered, IsQuietFor, IsUnrefused, LeavesBoard, Makes, ReadsIfAsked, Refuses, StopsBy, WritesNothing};
ghost use Rattle.mkbtt_words.specs.Reading.{AreRefused, AreTaken};
ghost use Rattle.mkbtt_top.specs.Tasks.{AskFor, HasNumber, TakesFew};

use crate::checking::check_source;
use crate::completing::{Told, complete_source};
use crate::converting::convert_source;
use crate::deciding::{decide_source, simplify_source};
use crate::generating::{generated_text, summarise};
use crate::host::Host;
use crate::reducing::reduce_source;
use crate::replaying::replay_source;
use crate::reply::{Outcome, Reply, Stop, outcome_of, write_reply};
use crate::status::Status;
use crate::task::{Task, asked_task};
use kb_io::{Gate, Sink, Source};
use kb_term::Memory;
use std::alloc::Global;
use std::sync::Wait;
use std::thread::Threads;
use std::time::Clock;

// What the task makes of what it reads.
fn make<R: Threads + Wait + Clock + Sync, S: Source, G: Gate>(
    host: &Host<R, G>,
    task: Task,
    source: &mut S,
) -> Result<Reply, Stop>
    requires { HasNumber task }
    ensures reply { IfOk result (λ r. Makes task r.status r.board (S.left source.old) (S.left source.new) r.text.items) }
    ensures stop { IfErr result (StopsBy task (S.left source.old) (S.left source.new) (S.quiet source.old) (S.faults source.old) (S.faults source.new)) }
    ensures few { TakesFew task (S.left source.old) (S.left source.new) }
    ensures count { S.faults source.old ≤ S.faults source.new }
{
    match task {
        Task::Complete { settings, workers } => {
            complete_source(host, source, settings, workers, Told::Report)
        }
        Task::Journal { settings, workers } => {
            complete_source(host, source, settings, workers, Told::Journal)
        }
        Task::Replay => replay_source(host.alloc, source),
        Task::Check => check_source(host.alloc, source),
        Task::Convert { format } => convert_source(host.alloc, source, format),
        Task::Reduce => reduce_source(host.alloc, source),
        Task::Decide => decide_source(host.alloc, source),
        Task::Simplify => simplify_source(host.alloc, source),
        Task::Summary { settings, number } => {
            summarise(host, settings, number).map_err(Stop::Memory)
        },
        Task::Generate { number } => Ok(generated_text(host.alloc, number)?),
    }
}

// Does the task: reads what it reads and writes what it makes.
fn run_task<R: Threads + Wait + Clock + Sync, S: Source, K: Sink, G: Gate>(
    host: &Host<R, G>,
    task: Task,
    source: &mut S,
    sink: &mut K,
) -> Outcome
    requires { HasNumber task }
    ensures ends { Ends task result.status result.board (S.left source.old) (S.left source.new) (S.quiet source.old) (S.faults source.old) (S.faults source.new) (K.written sink.old) (K.written sink.new) (K.quiet sink.old) (K.faults sink.old) (K.faults sink.new) }
    ensures few { TakesFew task (S.left source.old) (S.left source.new) }
    ensures source_count { S.faults source.old ≤ S.faults source.new }
    ensures sink_count { K.faults sink.old ≤ K.faults sink.new }
{
    match make(host, task, source) {
        Ok(reply) => write_reply(reply, sink),
        Err(stop) => outcome_of(stop),
    }
}

/// Does what the words ask for: `complete` and `rounds` read a problem from the source, complete it, and write the report of
/// the verdict to the sink; `journal` does the same and writes the journal of the run; `replay` reads a journal, makes its entries
/// again on a board of its own, and writes the summary of the board to which they lead, or `BAD ENTRY` with the number of the first
/// that no board makes; `check` reads an answer, checks it, and writes `ACCEPTED`, or `REJECTED` with the reason and the
/// number of the first item that fails; `convert` reads an answer of either version and writes it in the format of the words,
/// its text of version 2, its rules alone, or its trace as a graph; `reduce` reads an answer and writes it with its rules
/// reduced, `decide` and `simplify` read an answer with goals or terms behind it and write what its rules say of them, where
/// the checker accepts the answer; `gen` writes the generated problem with the number; `summary` completes that problem and
/// writes the summary of the run.
///
/// The words are those of `read_words`. A completion has as many workers as the words say: one alone, or several, each in a thread of its own; each asks the gate
/// between a take and the work. By `rounds` the journal, and so all that is written, is the same for every number of workers. A
/// summary has one worker. Bytes that spell no problem are refused by the first thing that is wrong, with its place; bytes that
/// are no answer's text, or have no goals or terms behind one, by the first line that isn't of its form. Each text is made
/// whole before its first byte is written. The outcome has the board of a completion, where one was made.
pub fn run<R: Threads + Wait + Clock + Sync, S: Source, K: Sink, G: Gate>(
    rt: &R,
    alloc: Global,
    words: &[&str],
    source: &mut S,
    sink: &mut K,
    gate: &G,
) -> Outcome
    // With Done, AllFailed, Rejected, BadEntry, Unreduced and Spent the sink gained the whole text that the words ask for.
    ensures answered { IsAnswered result.status → Answers (map (λ w. w.now) words.now) result.status result.board (S.left source.old) (S.left source.new) (K.written sink.old) (K.written sink.new) }
    // With WriteFault it gained a proper front of such a text, for which it isn't quiet.
    ensures write_fault { result.status ≡ Status.WriteFault → AnswersInPart (map (λ w. w.now) words.now) result.board (S.left source.old) (S.left source.new) (K.written sink.old) (K.written sink.new) (K.quiet sink.old) }

    // Causes.
    ensures words { result.status ≡ Status.Words → AreRefused (map (λ w. w.now) words.now) }
    ensures refused_words { AreRefused (map (λ w. w.now) words.now) → (result.status ≡ Status.Words) ⊎ (result.status ≡ Status.Memory) }
    ensures taken_words { AreTaken (map (λ w. w.now) words.now) → ¬ (result.status ≡ Status.Words) }
    ensures taken { ¬ (result.status ≡ Status.Words) → ¬ (result.status ≡ Status.Memory) → (task : Task) × AskFor task (map (λ w. w.now) words.now) }
    ensures read_task { result.status ≡ Status.ReadFault → AskToRead (map (λ w. w.now) words.now) }
    ensures read_cause { result.status ≡ Status.ReadFault → Rose (S.faults source.old) (S.faults source.new) }
    ensures read_quiet { IsTrue (S.quiet source.old) → ¬ (result.status ≡ Status.ReadFault) }
    ensures write_cause { result.status ≡ Status.WriteFault → Rose (K.faults sink.old) (K.faults sink.new) }
    ensures refused { (kind : _) (at : _) → result.status ≡ Status.Refused kind at → Refuses (map (λ w. w.now) words.now) (S.left source.old) (S.left source.new) kind at }
    ensures bad_text { (n : _) → result.status ≡ Status.BadText n → HasBadAnswer (map (λ w. w.now) words.now) (S.left source.old) (S.left source.new) n }

    // Bytes that spell what the task reads aren't refused; where the source is quiet too, the whole text is written, or there is no
    // memory, or the sink fails in a text for which it isn't quiet.
    ensures unrefused { (task : Task) → AskFor task (map (λ w. w.now) words.now) → HoldsText task (S.left source.old) → IsUnrefused result.status }
    ensures completes { (task : Task) → AskFor task (map (λ w. w.now) words.now) → HoldsText task (S.left source.old) → IsQuietFor task (S.quiet source.old) → IsAnswered result.status ⊎ ((result.status ≡ Status.Memory) ⊎ ((result.status ≡ Status.WriteFault) × AnswersInPart (map (λ w. w.now) words.now) result.board (S.left source.old) (S.left source.new) (K.written sink.old) (K.written sink.new) (K.quiet sink.old))) }

    // No board is made where nothing is completed.
    ensures no_board { HasNoBoard result.status → result.board ≡ None }
    // With Memory it is one that is left of the completion for which the words ask.
    ensures memory { result.status ≡ Status.Memory → IfSome result.board (LeavesBoard (map (λ w. w.now) words.now) (S.left source.old) (S.left source.new)) }

    // With every other status nothing is written; with Words nothing is read, nor for a mode that reads nothing, and else at most
    // one byte more than the mode may read.
    ensures nothing { WritesNothing result.status (K.written sink.old) (K.written sink.new) }
    ensures unread { result.status ≡ Status.Words → S.left source.new ≡ S.left source.old }
    ensures reads { ReadsIfAsked (map (λ w. w.now) words.now) (S.left source.old) (S.left source.new) }
    ensures source_count { S.faults source.old ≤ S.faults source.new }
    ensures sink_count { K.faults sink.old ≤ K.faults sink.new }
{
    match asked_task(alloc, words) {
        Ok(Some(task)) => run_task(&Host { rt, alloc, gate }, task, source, sink),
        Ok(None) => Outcome {
            status: Status::Words,
            board: None,
        },
        Err(Memory) => Outcome {
            status: Status::Memory,
            board: None,
        },
    }
}

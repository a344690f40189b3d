// Generated problems: their text, and the summary of their completion.
ghost use Rattle.std.specs.Prelude.{◌≡◌, ◌≤◌, IfOk, IfErr, IfSome};
ghost use Rattle.kb_syntax.specs.Generator.{generated};
ghost use Rattle.mkbtt_top.specs.Completing.{IsLeft};
ghost use Rattle.mkbtt_top.specs.declared.workers.Workers.TheVariants.{Free};
ghost use Rattle.mkbtt_top.specs.Generating.{board_text as text_of_board, Generates, Summarises};

use crate::completing::finish;
use crate::host::Host;
use crate::reply::Reply;
use crate::status::Status;
use crate::workers::Workers;
use kb_io::Gate;
use kb_report::summary_text;
use kb_syntax::{generate, problem_text};
use kb_term::Memory;
use mkb_board::Board;
use mkb_model::Settings;
use mkb_report::summary_of;
use std::alloc::Global;
use std::sync::Wait;
use std::thread::Threads;
use std::time::Clock;

/// The reply is the text of the generated problem with this number.
///
/// # Errors
///
/// Want of memory.
pub(crate) fn generated_text(alloc: Global, number: u32) -> Result<Reply, Memory>
    requires some { 1 ≤ number }
    requires most { number ≤ 64 }
    ensures { IfOk result (λ r. Generates number r.status r.board r.text.items) }
{
    let problem = generate(alloc, number)?;
    Ok(Reply {
        text: problem_text(alloc, &problem)?,
        status: Status::Done,
        board: None,
    })
}

/// Completes the generated problem with this number by one worker; the reply is the summary of the run.
///
/// # Errors
///
/// Want of memory, with the board where one was made.
pub(crate) fn summarise<R: Threads + Wait + Clock + Sync, G: Gate>(
    host: &Host<R, G>,
    settings: Settings,
    number: u32,
) -> Result<Reply, Option<Board>>
    requires some { 1 ≤ number }
    requires most { number ≤ 64 }
    ensures reply { IfOk result (λ r. Summarises settings number r.status r.board r.text.items) }
    ensures left { IfErr result (λ board. IfSome board (IsLeft (generated number) settings (Free 1))) }
{
    let Ok(problem) = generate(host.alloc, number) else {
        return Err(None);
    };
    let (board, _) = finish(host, problem, settings, Workers::Free(1))?;
    match board_text(host.alloc, &board) {
        Ok(text) => Ok(Reply {
            text,
            status: Status::Done,
            board: Some(board),
        }),
        Err(Memory) => Err(Some(board)),
    }
}

/// The text of the summary of a board.
///
/// # Errors
///
/// Want of memory.
pub(crate) fn board_text(alloc: Global, board: &Board) -> Result<Vec<u8>, Memory>
    ensures { IfOk result (λ text. text.items ≡ text_of_board board.now) }
{
    let summary = summary_of(board.state(), &board.verdict(), board.drops());
    summary_text(alloc, &summary)
}

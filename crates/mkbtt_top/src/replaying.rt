// The replay of a journal.
ghost use Rattle.std.specs.Prelude.{◌≡◌, ◌≤◌, IfOk, IfErr};
ghost use Rattle.kb_io.specs.Bytes.{TakesAtMost};
ghost use Rattle.mkbtt_top.specs.Replaying.{bad_entry_text as text_of_bad_entry, IsReplay, Replays};
ghost use Rattle.mkbtt_top.specs.Runs.{StopsBy};

use crate::answering::journal_from;
use crate::generating::board_text;
use crate::reply::{Reply, Stop};
use crate::status::Status;
use crate::task::Task;
use kb_io::Source;
use kb_journal::{JournalText, ReplayFault, replay};
use kb_syntax::Fields;
use kb_term::Memory;
use std::alloc::Global;

// The one line that names the first entry that no board makes.
fn bad_entry_text(alloc: Global, n: u64) -> Result<Vec<u8>, Memory>
    ensures { IfOk result (λ text. text.items ≡ text_of_bad_entry n) }
{
    let mut line = Fields::new(alloc);
    line.word(alloc, b"BAD")?;
    line.word(alloc, b"ENTRY")?;
    line.number(alloc, n)?;
    let mut text = Vec::new(alloc);
    line.line_to(&mut text)?;
    Ok(text)
}

// The reply to the journal.
fn replay_journal(alloc: Global, journal: &JournalText) -> Result<Reply, Memory>
    ensures { IfOk result (λ r. IsReplay journal.now r.status r.board r.text.items) }
{
    match replay(alloc, journal) {
        Ok(board) => match board_text(alloc, &board) {
            Ok(text) => Ok(Reply {
                text,
                status: Status::Done,
                board: Some(board),
            }),
            Err(Memory) => {
                drop(board);
                Err(Memory)
            }
        },
        Err(ReplayFault::BadEntry(n)) => Ok(Reply {
            text: bad_entry_text(alloc, n)?,
            status: Status::BadEntry(n),
            board: None,
        }),
        Err(ReplayFault::Memory) => Err(Memory),
    }
}

/// Reads a journal from the source and makes its entries again; the reply is the summary of the board to which they lead, or
/// names the first entry that no board makes.
pub(crate) fn replay_source<S: Source>(alloc: Global, source: &mut S) -> Result<Reply, Stop>
    ensures reply { IfOk result (λ r. Replays r.status r.board (S.left source.old) (S.left source.new) r.text.items) }
    ensures stop { IfErr result (StopsBy Task.Replay (S.left source.old) (S.left source.new) (S.quiet source.old) (S.faults source.old) (S.faults source.new)) }
    ensures few { TakesAtMost (S.left source.old) 67108865 (S.left source.new) }
    ensures count { S.faults source.old ≤ S.faults source.new }
{
    let journal = journal_from(alloc, source)?;
    Ok(replay_journal(alloc, &journal)?)
}

// What a run writes, and why it has nothing to write.
ghost use Rattle.std.specs.Prelude.{◌≡◌, ◌≤◌};
ghost use Rattle.mkbtt_top.specs.Replies.{IsWritten, status_of_stop, board_of_stop};

use crate::status::Status;
use kb_io::{Sink, write_all};
use kb_syntax::Kind;
use kb_term::Memory;
use mkb_board::Board;

/// How a run ended.
#[derive(Drop)]
pub struct Outcome {
    pub status: Status,
    /// The board, where one was made.
    pub board: Option<Board>,
}

/// What is to be written, and how the run ends once it is.
#[derive(Drop)]
pub(crate) struct Reply {
    pub text: Vec<u8>,
    pub status: Status,
    pub board: Option<Board>,
}

/// Why there is nothing to write.
#[derive(Drop)]
pub(crate) enum Stop {
    /// The bytes that were read are refused, for this reason at this place.
    Refused(Kind, u64),
    /// The line with this number, from 1, is the first that isn't of the form of the text that is read.
    BadText(u64),
    /// The source failed.
    ReadFault,
    /// There was no memory.
    Memory(Option<Board>),
}

impl Reply {
    /// A text that is written by a run that did its work without a board.
    pub(crate) fn done(text: Vec<u8>) -> Reply
        ensures status { result.status ≡ Status.Done }
        ensures text { result.text.items ≡ text.items }
        ensures board { result.board ≡ None }
    {
        Reply {
            text,
            status: Status::Done,
            board: None,
        }
    }
}

impl From<Memory> for Stop {
    ghost use Rattle.std.specs.Prelude.{◌≡◌, None};
    ghost use Rattle.mkbtt_top.specs.declared.reply.Stop.TheVariants as stops;

    ghost from_gives = { λ _ e. e ≡ stops.Memory None };

    fn from(_: Memory) -> Stop {
        Stop::Memory(None)
    }
}

/// Writes the reply to the sink.
pub(crate) fn write_reply<K: Sink>(reply: Reply, sink: &mut K) -> Outcome
    ensures written { IsWritten reply.status reply.text.items result.status (K.written sink.old) (K.written sink.new) (K.quiet sink.old) (K.faults sink.old) (K.faults sink.new) }
    ensures board { result.board ≡ reply.board }
    ensures count { K.faults sink.old ≤ K.faults sink.new }
{
    let Reply {
        text,
        status,
        board,
    } = reply;
    match write_all(sink, &text) {
        Ok(()) => Outcome { status, board },
        Err(_) => Outcome {
            status: Status::WriteFault,
            board,
        },
    }
}

/// How a run ends that has nothing to write.
pub(crate) fn outcome_of(stop: Stop) -> Outcome
    ensures status { result.status ≡ status_of_stop stop }
    ensures board { result.board ≡ board_of_stop stop }
{
    let (status, board) = match stop {
        Stop::Refused(kind, at) => (Status::Refused(kind, at), None),
        Stop::BadText(n) => (Status::BadText(n), None),
        Stop::ReadFault => (Status::ReadFault, None),
        Stop::Memory(board) => (Status::Memory, board),
    };
    Outcome { status, board }
}

// What tests run with, and cases that are told as text.
use kb_io::{Gate, MemorySink, MemorySource, OpenGate, Source};
use mkbtt_top::{Outcome, Status, run, status_code, status_line};
use std::alloc::Global;
use std::mem::drop;
use std::process::Abort;
use std::sync::Wait;
use std::thread::Threads;
use std::time::Clock;

/// What runs a test, and where it takes memory.
#[derive(Drop)]
pub(crate) struct Bench<'a, R> {
    pub rt: &'a R,
    pub alloc: Global,
}

/// How a run ended: its status, and of its board, where there is one, how many commits it has, how many of its processes live,
/// and how many of these are asleep.
#[derive(Clone, Copy)]
pub(crate) struct Told {
    pub status: Status,
    pub commits: Option<u32>,
    pub processes: Option<(u32, u32)>,
}

/// What a run came to, in short.
fn in_short(outcome: &Outcome) -> Told {
    let status = outcome.status;
    match &outcome.board {
        Some(board) => Told {
            status,
            commits: Some(board.commits()),
            processes: Some((board.living(), board.asleep())),
        },
        None => Told {
            status,
            commits: None,
            processes: None,
        },
    }
}

impl<'a, R: Threads + Wait + Clock + Sync + Abort> Bench<'a, R> {
    /// The run; what is proved of it isn't asked for in tests. Its board is dropped by a call: to let it go at the end of a test
    /// makes the test's proof slow.
    pub(crate) fn perform<S: Source, G: Gate>(
        &self,
        words: &[&str],
        source: &mut S,
        sink: &mut MemorySink,
        gate: &G,
    ) -> Told {
        let outcome = run(self.rt, self.alloc, words, source, sink, gate);
        let told = in_short(&outcome);
        drop(outcome);
        told
    }

    /// A source of the texts, one behind the other, that gives seven bytes at a time.
    pub(crate) fn source(&self, texts: &[&str]) -> MemorySource {
        let mut bytes = Vec::new(self.alloc);
        for text in texts {
            bytes
                .extend_from_slice(text.as_bytes())
                .expect(self.rt, "memory");
        }
        MemorySource::new(bytes, Vec::new(self.alloc), 7)
    }

    /// A sink with so much room.
    pub(crate) fn sink(&self, room: usize) -> MemorySink {
        MemorySink::new(self.alloc, room, Vec::new(self.alloc), 64).expect(self.rt, "memory")
    }

    /// Whether each case of the table holds. A case begins with `$ ` and the words; below them stand the input, a line with `> `,
    /// the code and the board's commits, where there is a board, and what is written, or from code 3 on the status line.
    pub(crate) fn assert_cases(&self, table: &str) {
        for case in table.split("$ ").skip(1) {
            assert!(self.rt; self.holds(case) == Some(true), "{case}");
        }
    }

    /// Whether the case holds, if it has the form of one.
    fn holds(&self, case: &str) -> Option<bool> {
        let (words, rest) = case.split_once('\n')?;
        let (input, told) = rest.split_once("\n> ")?;
        let (numbers, written) = told.split_once('\n')?;
        let words = words
            .split(' ')
            .collect::<Vec<&str>>(self.alloc)
            .expect(self.rt, "memory");
        Some(self.ends(&words, &[input, "\n"], numbers, written))
    }

    /// Whether a run with these words on the texts, one behind the other, ends with these numbers, which are the code and the
    /// board's commits, where there is a board, and writes this, or from code 3 on nothing and has this status line.
    pub(crate) fn ends(
        &self,
        words: &[&str],
        texts: &[&str],
        numbers: &str,
        written: &str,
    ) -> bool {
        let mut source = self.source(texts);
        let mut sink = self.sink(2000);
        let outcome = self.perform(words, &mut source, &mut sink, &OpenGate);
        self.are_numbers(&outcome, numbers) && self.is_answer(&outcome, &sink, written.as_bytes())
    }

    /// Whether a run with the words on the text, altered as each line of the table says, has what the line tells. A line is
    /// `PART | OTHER | TOLD`: the other text stands in the place of the part, and what is told is written, or from code 3 on
    /// nothing is written and it is the status line. A `;` stands for the end of a line.
    pub(crate) fn assert_altered(&self, words: &[&str], text: &str, table: &str) {
        for line in table.lines() {
            assert!(self.rt; self.is_told(words, text, line) == Some(true), "{line}");
        }
    }

    /// Whether the line holds, if it has the form of one.
    fn is_told(&self, words: &[&str], text: &str, line: &str) -> Option<bool> {
        let (part, rest) = line.split_once(" | ")?;
        let (other, told) = rest.split_once(" | ")?;
        let (front, back) = text.split_once(part)?;
        let altered = self.lines_of(&[front, other, back]);
        let mut source = MemorySource::new(altered, Vec::new(self.alloc), 7);
        let mut sink = self.sink(2000);
        let outcome = self.perform(words, &mut source, &mut sink, &OpenGate);
        Some(self.is_answer(&outcome, &sink, &self.lines_of(&[told, ";"])))
    }

    /// The bytes of the texts, one behind the other, with the end of a line for each `;`.
    fn lines_of(&self, texts: &[&str]) -> Vec<u8> {
        let mut bytes = Vec::new(self.alloc);
        for text in texts {
            for byte in text.bytes() {
                let byte = if byte == b';' { b'\n' } else { byte };
                bytes.push(byte).expect(self.rt, "memory");
            }
        }
        bytes
    }

    /// Whether this was written, or from code 3 on nothing, and it is the status line.
    fn is_answer(&self, outcome: &Told, sink: &MemorySink, answer: &[u8]) -> bool {
        if status_code(&outcome.status) < 3 {
            return sink.bytes() == answer;
        }
        let line = status_line(self.alloc, &outcome.status).expect(self.rt, "memory");
        sink.bytes().is_empty() && line.as_slice() == answer
    }

    /// Whether these are the code and the board's commits, where there is a board.
    fn are_numbers(&self, outcome: &Told, numbers: &str) -> bool {
        let code = status_code(&outcome.status);
        let told = match outcome.commits {
            Some(commits) => format!(in self.alloc; "{code} {commits}"),
            None => format!(in self.alloc; "{code}"),
        };
        told.expect(self.rt, "memory").as_str() == numbers
    }

    /// Whether the checker accepts what a run with these words writes on the text, where it ends with Done; and else whether
    /// its status is another verdict's.
    pub(crate) fn is_sound(&self, words: &[&str], text: &str) -> bool {
        let mut source = self.source(&[text]);
        let mut sink = self.sink(100_000);
        let outcome = self.perform(words, &mut source, &mut sink, &OpenGate);
        match outcome.status {
            Status::Done => self.is_accepted(&sink),
            Status::Spent(_) | Status::AllFailed => true,
            _ => false,
        }
    }

    /// Whether the checker accepts what the sink was given.
    pub(crate) fn is_accepted(&self, sink: &MemorySink) -> bool {
        let bytes = Vec::from_slice(self.alloc, sink.bytes()).expect(self.rt, "memory");
        let mut answer = MemorySource::new(bytes, Vec::new(self.alloc), 1000);
        let mut line = self.sink(1000);
        let checked = self.perform(&["check"], &mut answer, &mut line, &OpenGate);
        checked.status == Status::Done
    }
}

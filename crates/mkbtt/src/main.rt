//! Completes a set of term equations: reads a problem, writes a convergent rewrite system with its certificate and traces.
#![tactic(auto)]

mod showing;

ghost use Rattle.std.specs.Prelude.{◌≡◌};
ghost use Rattle.std.specs.Process.{exit_status};
ghost use Rattle.mkbtt_top.specs.Statuses.{code_of};

use kb_io::{KeepingSource, StdSink, StdSource};
use mkbtt_shown::{manner_of, other_words};
use mkbtt_top::{Status, hint, run, status_code, status_line};
use mkbtt_words::refusal_message;
use showing::{ClearedOutput, ShowingGate};
use std::alloc::{AllocError, Global};
use std::env;
use std::io::{ErrorKind, IsTerminal, Write};
use std::mem::forget;
use std::process::ExitCode;
use std::sync::Wait;
use std::thread::Threads;
use std::time::Clock;

fn texts(alloc: Global, words: &[String]) -> Result<Vec<&str>, AllocError> {
    let mut texts = Vec::new(alloc);
    for word in words {
        texts.push(word.as_str())?;
    }
    Ok(texts)
}

// The words after the program's name.
fn words(rt: &HostRuntime) -> Result<Vec<String>, Status> {
    let args = env::args(rt).map_err(|fault| match fault.kind() {
        ErrorKind::OutOfMemory => Status::Memory,
        _ => Status::Words,
    })?;
    let mut words = Vec::new(rt.alloc());
    for word in args.skip(1) {
        words.push(word).map_err(|_| Status::Memory)?;
    }
    Ok(words)
}

// Tells the status: by a line on standard error where it has one, and as the program's own.
fn told(rt: &HostRuntime, status: &Status) -> ExitCode
    ensures { exit_status result ≡ code_of status.now }
{
    if let Ok(line) = status_line(rt.alloc(), status) {
        let _ = rt.stderr().write_all(&line);
    }
    ExitCode::from(status_code(status))
}

// Writes what helps behind the line of the status: of refused words the message, of a refused text its line.
fn explain(rt: &HostRuntime, status: &Status, words: &[&str], text: &[u8]) {
    if *status == Status::Words {
        if let Ok(Some(message)) = refusal_message(rt.alloc(), words) {
            let _ = rt.stderr().write_all(message.as_bytes());
        }
    } else if let Ok(hint) = hint(rt.alloc(), status, text) {
        let _ = rt.stderr().write_all(&hint);
    }
}

// Does what the words ask for, shows how it goes on, and tells how it ended.
fn perform<R: Threads + Wait + Clock + Sync>(
    threads: &R,
    rt: &HostRuntime,
    texts: &[&str],
) -> ExitCode {
    let manner = manner_of(texts, rt.stderr().is_terminal());
    let words = match other_words(rt.alloc(), texts) {
        Ok(words) => words,
        Err(_) => return told(rt, &Status::Memory),
    };
    let gate = ShowingGate::new(rt, manner.progress);
    let mut source = KeepingSource::new(rt.alloc(), StdSource::new(rt.stdin()));
    let output = rt.stdout();
    let mut sink = StdSink::new(ClearedOutput {
        gate: &gate,
        output,
    });
    let outcome = run(threads, rt.alloc(), &words, &mut source, &mut sink, &gate);
    let status = outcome.status;
    // The process ends soon, and the system takes the memory of the board back in one piece.
    forget(outcome);
    gate.clear();
    let code = told(rt, &status);
    if manner.explains {
        explain(rt, &status, &words, source.kept().unwrap_or(b""));
    }
    code
}

fn main(rt: HostRuntime) -> ExitCode {
    match words(&rt) {
        Ok(words) => match texts(rt.alloc(), &words) {
            Ok(texts) => perform(&rt, &rt, &texts),
            Err(_) => told(&rt, &Status::Memory),
        },
        Err(status) => told(&rt, &status),
    }
}

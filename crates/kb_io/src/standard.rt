// A source and a sink over a reader and a writer, as standard input and output: a few lines over them, which count failures.
ghost use Rattle.std.specs.Prelude.{false, None};

use crate::sink::Sink;
use crate::source::{Failed, Source};
use std::io::{Read, Write};

/// A source over a reader. It tells the bytes that the reader has left, where the reader does; standard input doesn't.
#[derive(Drop)]
pub struct StdSource<R: Read> {
    input: R,
    faults: u64,
}

impl<R: Read> StdSource<R> {
    ghost use Rattle.std.specs.Prelude.{◌≡◌};
    ghost use Rattle.kb_io.specs.Standard.{input_of, input_faults};

    /// A source over this reader, which has not failed yet.
    pub fn new(input: R) -> StdSource<R>
        ensures input { input_of result ≡ input }
        ensures faults { input_faults result ≡ 0 }
    {
        StdSource { input, faults: 0 }
    }
}

impl<R: Read> Source for StdSource<R> {
    ghost left = { λ s. R.remaining s.input };

    ghost faults = { λ s. s.faults };

    ghost quiet = { λ _. false };

    ghost most = { λ _. None };

    fn read(&mut self, buf: &mut [u8]) -> Result<usize, Failed> {
        match self.input.read(buf) {
            Ok(n) => Ok(n),
            Err(_) => {
                self.faults = self.faults.saturating_add(1);
                Err(Failed)
            }
        }
    }
}

/// A sink over a writer. It tells what the writer holds, where the writer does; standard output doesn't.
#[derive(Drop)]
pub struct StdSink<W: Write> {
    output: W,
    faults: u64,
}

impl<W: Write> StdSink<W> {
    ghost use Rattle.std.specs.Prelude.{◌≡◌};
    ghost use Rattle.kb_io.specs.Standard.{output_of, output_faults};

    /// A sink over this writer, which has not failed yet.
    pub fn new(output: W) -> StdSink<W>
        ensures output { output_of result ≡ output }
        ensures faults { output_faults result ≡ 0 }
    {
        StdSink { output, faults: 0 }
    }
}

impl<W: Write> Sink for StdSink<W> {
    ghost written = { λ s. W.contents s.output };

    ghost faults = { λ s. s.faults };

    ghost quiet = { λ _ _. false };

    ghost most = { λ _. None };

    fn write(&mut self, piece: &[u8]) -> Result<usize, Failed> {
        match self.output.write(piece) {
            Ok(n) if n > 0 => Ok(n),
            _ => {
                self.faults = self.faults.saturating_add(1);
                Err(Failed)
            }
        }
    }
}

// Sources, sinks and gates: what they give, and what they do where a reader or a writer fails.
use kb_io::{
    Gate, HoldGate, KeepingSource, MemorySink, MemorySource, Moment, OpenGate, ReadAllFault, Sink,
    Source, StdSink, StdSource, Tally, TallyGate, WriteFault, read_all, write_all,
};
use std::alloc::Global;
use std::io::{Error, ErrorKind, Read, Write};
use std::mem::drop;
use std::process::Abort;
use std::thread::join;

// A reader that gives one byte, and then fails.
#[derive(Drop)]
struct BrokenReader {
    begun: bool,
}

impl Read for BrokenReader {
    fn read(&mut self, buf: &mut [u8]) -> std::io::Result<usize> {
        if self.begun || buf.is_empty() {
            return Err(Error::from(ErrorKind::Other));
        }
        self.begun = true;
        buf[0] = b'(';
        Ok(1)
    }
}

// A writer that takes one byte of the first piece, and then fails.
#[derive(Drop)]
struct FullWriter {
    begun: bool,
}

impl Write for FullWriter {
    fn write(&mut self, buf: &[u8]) -> std::io::Result<usize> {
        if self.begun || buf.is_empty() {
            return Err(Error::from(ErrorKind::Other));
        }
        self.begun = true;
        Ok(1)
    }

    fn flush(&mut self) -> std::io::Result<()> {
        Ok(())
    }
}

#[test]
fn a_broken_reader_is_not_the_end(rt: HostRuntime) {
    let mut source = StdSource::new(BrokenReader { begun: false });
    let bytes = read_all(rt.alloc(), &mut source, 8);
    assert!(rt; matches!(&bytes, Err(ReadAllFault::ReadFault)));
    drop(bytes);
}

#[test]
fn a_full_writer_is_told(rt: HostRuntime) {
    let mut sink = StdSink::new(FullWriter { begun: false });
    assert!(rt; matches!(sink.write(b"abc"), Ok(1)));
    assert!(rt; matches!(write_all(&mut sink, b"bc"), Err(WriteFault)));
}

// The eight bytes of a text without rules are all that is read.
fn gives_all<S: Source>(rt: &impl Abort, alloc: Global, source: &mut S) {
    let bytes = read_all(alloc, source, 8).expect(rt, "all bytes");
    assert_eq!(rt; bytes.as_slice(), b"(RULES )".as_slice());
    drop(bytes);
}

#[test]
fn a_reader_gives_all_its_bytes(rt: HostRuntime) {
    let alloc = rt.alloc();
    let mut source = StdSource::new(b"(RULES )".as_slice());
    gives_all(&rt, alloc, &mut source);
}

// The same text, three bytes at a time, with these calls that fail.
fn in_threes(rt: &impl Abort, alloc: Global, fails: Vec<u64>) -> MemorySource {
    let text = b"(RULES )".to_vec(alloc).expect(rt, "memory");
    MemorySource::new(text, fails, 3)
}

// The number of one call that fails.
fn one_fails(rt: &impl Abort, alloc: Global, number: u64) -> Vec<u64> {
    let mut fails = Vec::new(alloc);
    fails.push(number).expect(rt, "memory");
    fails
}

#[test]
fn all_bytes_are_read(rt: HostRuntime) {
    let alloc = rt.alloc();
    let mut source = in_threes(&rt, alloc, Vec::new(alloc));
    gives_all(&rt, alloc, &mut source);
    drop(source);
}

#[test]
fn one_byte_too_many_is_told(rt: HostRuntime) {
    let alloc = rt.alloc();
    let mut source = in_threes(&rt, alloc, Vec::new(alloc));
    let bytes = read_all(alloc, &mut source, 7);
    drop(source);
    assert!(rt; matches!(&bytes, Err(ReadAllFault::TooLong)));
    drop(bytes);
}

#[test]
fn a_sink_that_fails_keeps_what_it_took(rt: HostRuntime) {
    let alloc = rt.alloc();
    let fails = one_fails(&rt, alloc, 3);
    let mut sink = MemorySink::new(alloc, 100, fails, 4).expect(&rt, "memory");
    assert!(rt; matches!(write_all(&mut sink, b"abcdefghij"), Err(WriteFault)));
    assert_eq!(rt; sink.bytes(), b"abcdefgh".as_slice());
    drop(sink);
}

// A call fails before all bytes are read.
fn fails<S: Source>(rt: &impl Abort, alloc: Global, source: &mut S) {
    let bytes = read_all(alloc, source, 8);
    assert!(rt; matches!(&bytes, Err(ReadAllFault::ReadFault)));
    drop(bytes);
}

#[test]
fn a_source_that_fails_is_told(rt: HostRuntime) {
    let alloc = rt.alloc();
    let mut source = in_threes(&rt, alloc, one_fails(&rt, alloc, 1));
    fails(&rt, alloc, &mut source);
    drop(source);
}

// The moment at which the ticket with this number is taken.
fn moment_of(ticket: u64) -> Moment {
    Moment {
        ticket,
        commits: 7,
        nodes: 5,
        living: 3,
        awake: 2,
        cost: Some(11),
    }
}

#[test]
fn the_open_gate_passes(rt: HostRuntime) {
    assert!(rt; OpenGate.pass(&moment_of(1), 0));
}

#[test]
fn a_ticket_alone_meets_none(rt: HostRuntime) {
    let gate = HoldGate::new(2, 3);
    assert!(rt; gate.pass(&moment_of(1), 0));
    assert!(rt; gate.pass(&moment_of(2), 1));
    assert!(rt; !gate.met());
}

#[test]
fn two_tickets_meet_at_the_gate(rt: HostRuntime) {
    let gate = HoldGate::new(2, 3);
    let first = || gate.pass(&moment_of(2), 0);
    let second = || gate.pass(&moment_of(3), 0);
    let (one, two) = join(&rt, first, second);
    assert!(rt; one && two && gate.met());
}

#[test]
fn a_tally_is_what_was_told_last(rt: HostRuntime) {
    let gate = TallyGate::new();
    assert!(rt; gate.tally().living == 0);
    assert!(rt; gate.pass(&moment_of(1), 0));
    let want = Tally {
        commits: 7,
        nodes: 5,
        living: 3,
        awake: 2,
        cost: 11,
    };
    assert!(rt; gate.wants_cost());
    assert!(rt; gate.tally() == want);
}

#[test]
fn what_is_read_is_kept(rt: HostRuntime) {
    let alloc = rt.alloc();
    let source = in_threes(&rt, alloc, one_fails(&rt, alloc, 3));
    let mut source = KeepingSource::new(alloc, source);
    fails(&rt, alloc, &mut source);
    assert!(rt; source.kept() == Some(b"(RULES".as_slice()));
    drop(source);
}

//! Readers and writers that fail, are interrupted or give little at a time.
ghost use Rattle.std.specs.Prelude.{Some};

use fed_main::{RunFault, replay};
use std::alloc::Global;
use std::io::{self, ErrorKind, Read, Write};

// Two sites submit a job each at one counter, and exchange.
pub const EXCHANGE: &str = "\
roster argonne:8 lemont:4
argonne ann qsub
lemont bob qsub
argonne ship lemont
lemont ship argonne
lemont take 1
argonne take 2
equal argonne lemont
argonne ann qstat
";

pub const EXCHANGED: &str = "\
1.argonne
1.lemont
packet 1
packet 2
taken
taken
equal
1.argonne          STDIN            ann              Q      0        1      3600 -
1.lemont           STDIN            bob              Q      0        1      3600 -
";

// A reader that gives a byte at a time, and is interrupted before each.
#[derive(Drop)]
struct Dribble<'a> {
    rest: &'a [u8],
    is_interrupted: bool,
}

impl Read for Dribble<'_> {
    ghost remaining = { λ r. Some r.rest.now };

    fn read(&mut self, buf: &mut [u8]) -> io::Result<usize> {
        self.is_interrupted = !self.is_interrupted;
        if self.is_interrupted {
            return Err(io::Error::from(ErrorKind::Interrupted));
        }
        let len = buf.len().min(1);
        self.rest.read(&mut buf[..len])
    }
}

// A reader that is always interrupted, and counts its calls.
#[derive(Drop)]
struct Interrupted {
    calls: u64,
}

impl Read for Interrupted {
    fn read(&mut self, _buf: &mut [u8]) -> io::Result<usize> {
        self.calls = self.calls.saturating_add(1);
        Err(io::Error::from(ErrorKind::Interrupted))
    }
}

// How many bytes `Breaking` gives at a time.
const PIECE: usize = 16;

// A reader that gives some bytes at a time, of which some calls succeed.
#[derive(Drop)]
struct Breaking<'a> {
    rest: &'a [u8],
    calls: u32,
}

impl Read for Breaking<'_> {
    fn read(&mut self, buf: &mut [u8]) -> io::Result<usize> {
        let Some(calls) = self.calls.checked_sub(1) else {
            return Err(io::Error::from(ErrorKind::UnexpectedEof));
        };
        self.calls = calls;
        let len = buf.len().min(PIECE);
        self.rest.read(&mut buf[..len])
    }
}

// A writer of which some calls succeed.
#[derive(Drop)]
struct Filling {
    written: Vec<u8>,
    calls: u32,
}

impl Write for Filling {
    fn write(&mut self, buf: &[u8]) -> io::Result<usize> {
        let Some(calls) = self.calls.checked_sub(1) else {
            return Err(io::Error::from(ErrorKind::StorageFull));
        };
        self.calls = calls;
        self.written.extend_from_slice(buf)?;
        Ok(buf.len())
    }

    fn flush(&mut self) -> io::Result<()> {
        Ok(())
    }
}

// A writer that takes a byte at a time.
#[derive(Drop)]
struct Narrow {
    written: Vec<u8>,
}

impl Write for Narrow {
    fn write(&mut self, buf: &[u8]) -> io::Result<usize> {
        match buf.first() {
            Some(byte) => {
                self.written.push(*byte)?;
                Ok(1)
            }
            None => Ok(0),
        }
    }

    fn flush(&mut self) -> io::Result<()> {
        Ok(())
    }
}

// A writer that can't be flushed.
#[derive(Drop)]
struct Unflushed {
    written: Vec<u8>,
}

impl Write for Unflushed {
    fn write(&mut self, buf: &[u8]) -> io::Result<usize> {
        self.written.extend_from_slice(buf)?;
        Ok(buf.len())
    }

    fn flush(&mut self) -> io::Result<()> {
        Err(io::Error::from(ErrorKind::StorageFull))
    }
}

// What came of a run.
#[derive(Drop)]
struct Run {
    ended: Result<(), RunFault>,
    written: Vec<u8>,
    // how many calls of the reader or the writer succeeded
    calls: u32,
}

// A run whose reader fails after some calls.
fn with_reads(alloc: Global, calls: u32) -> Run {
    let mut reader = Breaking {
        rest: EXCHANGE.as_bytes(),
        calls,
    };
    let mut written = Vec::new(alloc);
    let ended = replay(alloc, &mut reader, &mut written);
    Run {
        ended,
        written,
        calls: calls.saturating_sub(reader.calls),
    }
}

// A run whose writer fails after some calls.
fn with_writes(alloc: Global, calls: u32) -> Run {
    let mut reader = EXCHANGE.as_bytes();
    let mut writer = Filling {
        written: Vec::new(alloc),
        calls,
    };
    let ended = replay(alloc, &mut reader, &mut writer);
    Run {
        ended,
        written: writer.written,
        calls: calls.saturating_sub(writer.calls),
    }
}

#[test]
fn each_read_that_fails_is_told(rt: HostRuntime) {
    let whole = with_reads(rt.alloc(), u32::MAX);
    assert!(rt; whole.ended == Ok(()));
    assert!(rt; whole.written.as_slice() == EXCHANGED.as_bytes());
    assert!(rt; whole.calls > 1, "one call");
    for calls in 0..whole.calls {
        let run = with_reads(rt.alloc(), calls);
        assert!(rt; run.ended == Err(RunFault::Read), "after {calls} calls");
        assert!(rt; run.written.is_empty(), "after {calls} calls");
    }
}

#[test]
fn each_write_that_fails_is_told(rt: HostRuntime) {
    let whole = with_writes(rt.alloc(), u32::MAX);
    assert!(rt; whole.ended == Ok(()));
    assert!(rt; whole.written.as_slice() == EXCHANGED.as_bytes());
    assert!(rt; whole.calls > 0, "no call");
    for calls in 0..whole.calls {
        let run = with_writes(rt.alloc(), calls);
        assert!(rt; run.ended == Err(RunFault::Write), "after {calls} calls");
        assert!(rt;
            EXCHANGED.as_bytes().starts_with(&run.written),
            "after {calls} calls"
        );
    }
}

#[test]
fn a_flush_that_fails_is_told(rt: HostRuntime) {
    let mut reader = EXCHANGE.as_bytes();
    let mut writer = Unflushed {
        written: Vec::new(rt.alloc()),
    };
    let ended = replay(rt.alloc(), &mut reader, &mut writer);
    assert!(rt; ended == Err(RunFault::Write));
}

#[test]
fn a_script_comes_byte_by_byte(rt: HostRuntime) {
    let mut reader = Dribble {
        rest: EXCHANGE.as_bytes(),
        is_interrupted: false,
    };
    let mut writer = Narrow {
        written: Vec::new(rt.alloc()),
    };
    let ended = replay(rt.alloc(), &mut reader, &mut writer);
    assert!(rt; ended == Ok(()));
    assert!(rt; writer.written.as_slice() == EXCHANGED.as_bytes());
}

#[test]
fn an_endless_interruption_is_told(rt: HostRuntime) {
    let mut reader = Interrupted { calls: 0 };
    let mut written = Vec::new(rt.alloc());
    let ended = replay(rt.alloc(), &mut reader, &mut written);
    assert!(rt; ended == Err(RunFault::Read));
    assert!(rt; reader.calls == 20_000_000);
    assert!(rt; written.len() == 0);
}

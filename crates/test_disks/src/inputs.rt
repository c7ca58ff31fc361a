//! Inputs that are served, on files in memory.
ghost use Rattle.std.specs.Prelude.{IfOk};
ghost use Rattle.fed_journal.specs.Device.{LeavesJust};
ghost use Rattle.fed_journal.specs.Memory.{memory_may_leave, memory_seen};
ghost use Rattle.fed_home.specs.Home.{IsOpen};

use fed_home::{Home, HomeFault};
use fed_journal::{JournalFault, Memory, Tear};
use fed_serve::{ServeFault, line_of_words, serve, take_line};
use std::alloc::Global;
use std::io::{self, ErrorKind, Read, Write};
use std::process::Abort;
use std::test::Fail;

/// What the disk has once a home is made. The digest is by sha256sum, of sixteen zeros and the text.
pub(crate) const MADE: &[u8] = b"+ f935701589470944 nettlebeam 1 argonne argonne:8 lemont:4\n-";

/// The last line lacks its line feed: it may be the front of another.
const INPUT: &[u8] =
    b"ann qsub\n\n# a comment\r\nann qstat\nequal a b\n\x07\nann qalter -p 5 9\nann qdel 1";

const OUTPUT: &[u8] =
    b"1.argonne\n\n\n\n1.argonne          STDIN            ann              Q      0        1      3600 -\n\nusage 1\n\ncannot be read\n\nrefused 1\n\ncannot be read\n\n";

/// In frames each line is answered by the status that `at` ends with, what it answers, and what it tells, of the site as the
/// line left it.
const ASKED: &[u8] =
    b"ann qsub -l nodes=6\nbob qsub -l nodes=6\nann qalter -p 5 2\nbob qdel 1 9\n# a comment\n\x07\nann qsub -N a -l\n\
    grant 1 argonne\nann qhold 1\nbegin 1 0\nbegin 1 0\ngrant 2 argonne\nbegin 2 0\nfinish 1 5 0\nfinish 1 5 0\nann qhold 9.fermi\ntake {}\n";

const TOLD: &[u8] = b"0 10 0\n1.argonne\n\
    0 10 0\n2.argonne\n\
    1 10 73\nrefused 2\nrefused 2 (NotPermitted): ann may not alter 2.argonne, whose owner is bob\
    1 20 74\nrefused 2\nrefused 1\nrefused 2 (NotPermitted): bob may not delete 1.argonne, whose owner is ann\
    0 0 0\n\
    1 15 57\ncannot be read\ncannot be read: the line has no form that this site knows\
    1 8 48\nusage 3\nusage 3 (MissingArgument): -l lacks its argument\
    0 8 0\ngranted\n\
    1 10 52\nrefused 4\nrefused 4 (Granted): 1.argonne is granted to argonne\
    0 5 0\ndone\n\
    1 11 50\nrefused 10\nrefused 10 (Begun): 1.argonne has begun at argonne\
    0 8 0\ngranted\n\
    0 5 95\ndone\n2.argonne has begun, and argonne is beyond its nodes: running jobs and reservations use 12 of 8\
    0 5 0\ndone\n\
    1 10 54\nrefused 3\nrefused 3 (Gone): 1.argonne is finished, with status 0\
    1 8 67\nusage 6\nusage 6 (UnknownSite): 9.fermi names a site that the roster has not\
    1 17 69\nunread 3 whole 0\nunread 3 whole 0: a part of the packet is missing or has a wrong form";

/// A file in memory, which does so many calls and stops at the next.
fn stopping(alloc: Global, file: &[u8], calls: usize) -> Result<Memory, HomeFault>
    ensures { IfOk result (λ device. LeavesJust (memory_seen device) (memory_may_leave device)) }
{
    match Memory::stopping(alloc, file, calls, Tear::Front(0)) {
        Ok(device) => Ok(device),
        Err(fault) => Err(HomeFault::from(JournalFault::from(fault))),
    }
}

/// A home in memory is opened and brought to rest. Its file stops after so many calls more.
pub(crate) fn opened(alloc: Global, file: &[u8], calls: usize) -> Result<Home<Memory>, HomeFault>
    ensures { IfOk result (λ home. IsOpen memory_seen memory_may_leave home) }
{
    match Home::open(alloc, stopping(alloc, file, calls)?) {
        Ok((mut home, _)) => {
            home.repair()?;
            Ok(home)
        }
        Err(unopened) => Err(unopened.fault),
    }
}

/// An input that comes in pieces of so many bytes, each behind a call that is interrupted, and may end in an error.
#[derive(Drop)]
pub(crate) struct Pieces<'a> {
    rest: &'a [u8],
    most: usize,
    is_interrupted: bool,
    end: Option<ErrorKind>,
}

impl Read for Pieces<'_> {
    fn read(&mut self, buf: &mut [u8]) -> io::Result<usize> {
        self.is_interrupted = !self.is_interrupted;
        if self.is_interrupted {
            return Err(ErrorKind::Interrupted.into());
        }
        if let Some(kind) = self.end
            && self.rest.is_empty()
        {
            return Err(kind.into());
        }
        let count = self.most.min(buf.len());
        self.rest.read(&mut buf[..count])
    }
}

pub(crate) fn in_pieces(input: &[u8], most: usize) -> Pieces<'_> {
    Pieces {
        rest: input,
        most,
        is_interrupted: false,
        end: None,
    }
}

/// An output that takes so many bytes, and then fails.
#[derive(Drop)]
struct Room {
    bytes: Vec<u8>,
    room: usize,
}

impl Write for Room {
    fn write(&mut self, buf: &[u8]) -> io::Result<usize> {
        if buf.len() > self.room.saturating_sub(self.bytes.len()) {
            return Err(ErrorKind::StorageFull.into());
        }
        self.bytes.write(buf)
    }

    fn flush(&mut self) -> io::Result<()> {
        Ok(())
    }
}

/// Serves an input to the home of a file that stops after so many calls. Gives the fault that ends it, and what the disk then
/// has.
fn serve_file<W: Write>(
    alloc: Global,
    (file, calls): (&[u8], usize),
    input: &mut Pieces<'_>,
    output: &mut W,
    frames: bool,
) -> Result<(Option<ServeFault>, Vec<u8>), HomeFault> {
    let mut home = opened(alloc, file, calls)?;
    let ended = serve(
        alloc,
        &mut home,
        &mut Vec::new(alloc),
        input,
        output,
        frames,
        usize::MAX,
    );
    Ok((ended.err(), home.into_device().into_disk()))
}

/// What is written to an input that comes in pieces, and what the disk then has.
fn served(
    alloc: Global,
    input: &[u8],
    most: usize,
    frames: bool,
) -> Result<(Vec<u8>, Vec<u8>), ServeFault> {
    let mut output = Vec::new(alloc);
    let mut input = in_pieces(input, most);
    match serve_file(alloc, (MADE, usize::MAX), &mut input, &mut output, frames)? {
        (None, disk) => Ok((output, disk)),
        (Some(fault), _) => Err(fault),
    }
}

#[test]
fn an_input_is_answered_however_it_comes(rt: HostRuntime) -> Result<(), Fail> {
    for most in [1, 2, 7, 30, usize::MAX] {
        let (output, disk) = served(rt.alloc(), INPUT, most, false)?;
        assert_eq!(rt; output.as_slice(), OUTPUT);
        // the digest is by sha256sum, of the one before it and the text
        assert_eq!(rt;
            disk.as_slice(),
            b"+ f935701589470944 nettlebeam 1 argonne argonne:8 lemont:4\n+ f21d6a690739bf6e ann qsub\n-".as_slice()
        );
    }
    Ok(())
}

/// What the disk has of a home that has answered a line of an input which then fails.
fn left_by_an_input(rt: &(impl Abort + AllocGlobal)) -> Result<Vec<u8>, HomeFault> {
    let mut output = Vec::new(rt.alloc());
    let mut input = in_pieces(b"ann qsub\nann q", 9);
    input.end = Some(ErrorKind::TimedOut);
    let (fault, disk) = serve_file(
        rt.alloc(),
        (MADE, usize::MAX),
        &mut input,
        &mut output,
        false,
    )?;
    assert!(rt; fault.map(ServeFault::number) == Some(2));
    assert!(rt; output.as_slice() == b"1.argonne\n\n".as_slice());
    Ok(disk)
}

#[test]
fn faults_are_told(rt: HostRuntime) -> Result<(), Fail> {
    let alloc = rt.alloc();
    // behind a fault the home is opened anew
    let disk = left_by_an_input(&rt)?;
    let mut room = Room {
        bytes: Vec::new(alloc),
        room: 11,
    };
    let mut input = in_pieces(b"ann qsub\nann qsub\n", 9);
    let (fault, _) = serve_file(alloc, (&disk, usize::MAX), &mut input, &mut room, false)?;
    assert_eq!(rt; fault.map(ServeFault::number), Some(3));
    assert_eq!(rt; room.bytes.as_slice(), b"2.argonne\n\n".as_slice());
    Ok(())
}

// Two groups of one line each, which take four calls of the disk each: of these the last two open the gate.
#[test]
fn lines_are_not_kept_where_the_disk_stops(rt: HostRuntime) -> Result<(), Fail> {
    let alloc = rt.alloc();
    let cases: [(&[u8], u8); 4] = [
        (b"not kept\n\n", 4),
        (b"", 1),
        (b"1.argonne\n\nnot kept\n\n", 4),
        (b"1.argonne\n\n", 1),
    ];
    for calls in 0..8usize {
        let (answered, number) = cases[calls / 2];
        let mut output = Vec::new(alloc);
        let mut input = in_pieces(b"ann qsub\nann qsub\n", 9);
        let (fault, _) = serve_file(alloc, (MADE, calls), &mut input, &mut output, false)?;
        assert_eq!(rt; output.as_slice(), answered);
        assert_eq!(rt; fault.map(ServeFault::number), Some(number));
    }
    Ok(())
}

// The disk has room again: what comes behind the lines that aren't kept is answered.
#[test]
fn an_input_goes_on_behind_lines_that_are_not_kept(rt: HostRuntime) -> Result<(), Fail> {
    let alloc = rt.alloc();
    let mut input = in_pieces(b"ann qsub\nann qsub\nann qstat\nann qsub\n", 9);
    let mut output = Vec::new(alloc);
    let (fault, disk) = serve_file(alloc, (MADE, 4), &mut input, &mut output, true)?;
    assert!(rt; matches!(fault, Some(ServeFault::NotKept(HomeFault::Failed(_)))));
    let (none, _) = serve_file(alloc, (&disk, usize::MAX), &mut input, &mut output, true)?;
    assert!(rt; none.is_none());
    assert_eq!(rt;
        output.as_slice(),
        b"0 10 0\n1.argonne\n3 9 90\nnot kept\nnot kept: the machine has stopped; neither this line is done nor another that came with it\
        0 83 0\n1.argonne          STDIN            ann              Q      0        1      3600 -\n0 10 0\n2.argonne\n"
            .as_slice()
    );
    Ok(())
}

#[test]
fn words_make_a_line(rt: HostRuntime) -> Result<(), Fail> {
    let alloc = rt.alloc();
    let cases: [(&[&str], &[u8]); 7] = [
        (&["ann", "qsub", "-l", "nodes=2"], b"ann qsub -l nodes=2"),
        (&["ann"], b"ann"),
        (&[], b""),
        (&["ann", ""], b"\0"),
        (&["ann", "qsub -h"], b"\0"),
        (&["a\tb"], b"\0"),
        (&["a\n"], b"\0"),
    ];
    for (words, line) in cases {
        assert_eq!(rt; line_of_words(alloc, words)?.as_slice(), line);
    }
    let texts: [(&[u8], &[u8]); 4] = [
        (b"{}\n", b"take {}"),
        (b"{}", b"take {}"),
        (b"{}\n\n", b"take {}\n"),
        (b"", b"take "),
    ];
    for (text, line) in texts {
        assert_eq!(rt; take_line(alloc, &["take"], text)?.as_slice(), line);
    }
    assert_eq!(rt;
        take_line(alloc, &["take", "from", "lemont"], b"{}\n")?.as_slice(),
        b"take from lemont {}".as_slice()
    );
    assert_eq!(rt;
        take_line(alloc, &["take", "from", "le mont"], b"{}")?.as_slice(),
        b"\0 {}".as_slice()
    );
    Ok(())
}

/// Whichever allocation fails, a second attempt answers all.
fn answers_all(rt: &(impl Abort + AllocGlobal), input: &[u8], frames: bool, wanted: &[u8]) {
    for _ in 0..2 {
        match served(rt.alloc(), input, 9, frames) {
            Ok((output, _)) => {
                assert_eq!(rt; output.as_slice(), wanted);
                return;
            }
            // the output is in memory too
            Err(ServeFault::Write(error)) => {
                assert!(rt; error.kind() == ErrorKind::OutOfMemory);
            }
            // so is the disk, which fails where it has no memory for what it is to have
            Err(fault) => assert!(rt;
                matches!(
                    fault,
                    ServeFault::Home(HomeFault::NoMemory | HomeFault::InDoubt(_))
                        | ServeFault::NotKept(HomeFault::NoMemory | HomeFault::Failed(_))
                )
            ),
        }
    }
    assert!(rt; false);
}

#[test]
fn failed_allocations_of_an_input(rt: HostRuntime) {
    answers_all(&rt, INPUT, false, OUTPUT);
}

#[test]
fn failed_allocations_of_frames(rt: HostRuntime) {
    answers_all(&rt, ASKED, true, TOLD);
}

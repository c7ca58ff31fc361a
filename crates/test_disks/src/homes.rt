//! Sites on a disk in memory. Where memory is refused, what was answered is there, and a second attempt answers all: the tests
//! pass whichever allocation fails, which `rt try --test --fail-alloc N` does for the Nth.
ghost use Rattle.std.specs.Prelude.{IfOk};
ghost use Rattle.fed_journal.specs.Device.{LeavesJust};
ghost use Rattle.fed_journal.specs.Memory.{memory_may_leave, memory_seen};
ghost use Rattle.fed_home.specs.Home.{IsOpen};

use fed_home::{Compaction, Home, HomeFault, Told};
use fed_journal::{Journal, JournalFault, Memory};
use std::alloc::Global;
use std::test::Fail;

const HEADER: &[u8] = b"nettlebeam 1 argonne argonne:8 lemont:4";

// By sha256sum: of sixteen zeros and the first text, and of the digits that this gives and the second.
const ONE_JOB: &[u8] =
    b"+ f935701589470944 nettlebeam 1 argonne argonne:8 lemont:4\n+ f21d6a690739bf6e ann qsub\n-";

/// What one job is listed by.
const LISTED: &[u8] =
    b"1.argonne          STDIN            ann              Q      0        1      3600 -\n";

/// A file in memory.
fn running(alloc: Global, file: &[u8]) -> Result<Memory, HomeFault>
    ensures { IfOk result (λ device. LeavesJust (memory_seen device) (memory_may_leave device)) }
{
    match Memory::new(alloc, file) {
        Ok(device) => Ok(device),
        Err(fault) => Err(HomeFault::from(JournalFault::from(fault))),
    }
}

/// A home in memory is opened and brought to rest.
fn opened(alloc: Global, file: &[u8]) -> Result<Home<Memory>, HomeFault>
    ensures { IfOk result (λ home. IsOpen memory_seen memory_may_leave home) }
{
    match Home::open(alloc, running(alloc, file)?) {
        Ok((mut home, _)) => {
            home.repair()?;
            Ok(home)
        }
        Err(unopened) => Err(unopened.fault),
    }
}

/// What the home of a file answers to lines, and what the disk then has.
fn answered(
    alloc: Global,
    file: &[u8],
    lines: &[&[u8]],
) -> Result<(Vec<Told>, Vec<u8>), HomeFault> {
    let mut home = opened(alloc, file)?;
    let answers = home.answer(lines, false)?;
    Ok((answers, home.into_device().into_disk()))
}

/// Whether these are answers to so many lines, each with this text.
fn are_all(answers: &[Told], count: usize, text: &[u8]) -> bool {
    answers.len() == count && answers.iter().all(|told| told.answer.bytes() == text)
}

/// What the disk has of a new home.
fn made(alloc: Global) -> Result<Vec<u8>, HomeFault> {
    match Home::make(alloc, running(alloc, b"")?, HEADER) {
        Ok((home, _)) => Ok(home.into_device().into_disk()),
        Err(unopened) => Err(unopened.fault),
    }
}

/// Makes a home and answers a line, and gives what the disk then has where both are done.
fn made_and_asked(alloc: Global) -> Result<Vec<u8>, HomeFault> {
    let (answers, disk) = answered(alloc, &made(alloc)?, &[b"ann qsub"])?;
    match are_all(&answers, 1, b"1.argonne\n") {
        true => Ok(disk),
        false => Err(HomeFault::Full),
    }
}

#[test]
fn failed_allocations_of_a_home(rt: HostRuntime) {
    let disk = match made_and_asked(rt.alloc()) {
        Ok(disk) => disk,
        Err(_) => made_and_asked(rt.alloc()).expect(&rt, "memory"),
    };
    assert!(rt; disk.as_slice() == ONE_JOB);
}

/// What a look at lines gives, and what the disk then has.
fn looked(
    alloc: Global,
    file: &[u8],
    lines: &[&[u8]],
) -> Result<(Option<Vec<Told>>, Vec<u8>), HomeFault> {
    match Home::open(alloc, running(alloc, file)?) {
        Err(unopened) => Err(unopened.fault),
        Ok((mut home, _)) => {
            let told = home.look(lines, false)?;
            Ok((told, home.into_device().into_disk()))
        }
    }
}

/// What a look at lines gives, unless memory is refused. The disk stays as it was.
fn looked_at(
    rt: &(impl std::process::Abort + AllocGlobal),
    file: &[u8],
    lines: &[&[u8]],
) -> Option<Vec<Told>> {
    let (told, disk) = match looked(rt.alloc(), file, lines) {
        Ok(looked) => looked,
        Err(_) => looked(rt.alloc(), file, lines).expect(rt, "memory"),
    };
    assert!(rt; disk.as_slice() == file);
    told
}

/// What a crash has left behind the gate.
const TORN: &[u8] =
    b"+ f935701589470944 nettlebeam 1 argonne argonne:8 lemont:4\n+ f21d6a690739bf6e ann qsub\n- half a gr\n+oup";

// Lines that keep nothing are answered before what stands behind the gate is cut.
#[test]
fn failed_allocations_of_a_look(rt: HostRuntime) {
    let told = looked_at(&rt, TORN, &[b"ann qstat"]);
    assert!(rt; told.is_some_and(|answers| are_all(&answers, 1, LISTED)));
    assert!(rt; looked_at(&rt, TORN, &[b"ann qstat", b"ann qsub"]).is_none());
}

/// Whether the journal of a home is compacted to so many bytes at most, and what the disk then has.
fn compacted(alloc: Global, file: &[u8], bytes: usize) -> Result<(Compaction, Vec<u8>), HomeFault> {
    let mut home = opened(alloc, file)?;
    let compaction = home.compact(bytes)?;
    Ok((compaction, home.into_device().into_disk()))
}

/// The texts of the entries of a compacted journal, of which the first is the header, and the second what is known.
fn entries_of(alloc: Global, file: &[u8]) -> Result<Vec<Vec<u8>>, HomeFault> {
    match Journal::open(alloc, running(alloc, file)?) {
        Ok((_, found)) => Ok(found.entries),
        Err(unopened) => Err(HomeFault::from(unopened.fault)),
    }
}

/// The header of a journal of format 4.
const COMPACTED: &[u8] = b"nettlebeam 4 argonne argonne:8 lemont:4";

/// The home of a file lists one job.
fn lists_one(alloc: Global, file: &[u8]) -> Result<bool, HomeFault> {
    let (answers, _) = answered(alloc, file, &[b"ann qstat"])?;
    Ok(are_all(&answers, 1, LISTED))
}

#[test]
fn a_compacted_journal_stands_for_the_same(rt: HostRuntime) -> Result<(), Fail> {
    let alloc = rt.alloc();
    let (done, disk) = compacted(alloc, ONE_JOB, usize::MAX)?;
    assert!(rt; matches!(done, Compaction::Done) && lists_one(alloc, &disk)?);
    // the header, what is known, and that nothing was heard of two sites
    let entries = entries_of(alloc, &disk)?;
    assert!(rt; entries.len() == 4 && entries.first().is_some_and(|it| it.as_slice() == COMPACTED));
    // the bytes are those of the file that would be written
    let (long, same) = compacted(alloc, ONE_JOB, disk.len().saturating_sub(1))?;
    assert!(rt; matches!(long, Compaction::Long { bytes } if bytes == disk.len()));
    assert!(rt; same.as_slice() == ONE_JOB);
    Ok(())
}

/// Whether the journal of a home is compacted, and what the disk then has, also where memory is refused meanwhile.
fn attempted(alloc: Global, file: &[u8]) -> Result<(bool, Vec<u8>), HomeFault> {
    let mut home = opened(alloc, file)?;
    let is_done = matches!(home.compact(usize::MAX), Ok(Compaction::Done));
    Ok((is_done, home.into_device().into_disk()))
}

// A compaction that is refused memory leaves the disk as it was.
#[test]
fn failed_allocations_of_a_compaction(rt: HostRuntime) {
    for _ in 0..2 {
        if let Ok((is_done, disk)) = attempted(rt.alloc(), ONE_JOB) {
            if is_done {
                assert!(rt; disk.as_slice() != ONE_JOB);
                return;
            }
            assert!(rt; disk.as_slice() == ONE_JOB);
        }
    }
    assert!(rt; false);
}

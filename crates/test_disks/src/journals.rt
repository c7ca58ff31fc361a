//! Journals in memory.
ghost use Rattle.std.specs.Prelude.{List, ℕ};
ghost use Rattle.fed_journal.specs.Journal.{IsRead};
ghost use Rattle.fed_journal.specs.Memory.{memory_may_leave, memory_seen};

use fed_journal::{Journal, JournalFault, Memory, Recovered, are_lines};
use std::alloc::Global;
use std::test::Fail;

// By sha256sum: of sixteen zeros and the first text, and of the digits that this gives and the second.
const FILE: &[u8] =
    b"+ f935701589470944 nettlebeam 1 argonne argonne:8 lemont:4\n+ f21d6a690739bf6e ann qsub\n-";

/// The entries of the file, and those of three groups.
const ENTRIES: [&[u8]; 8] = [
    b"nettlebeam 1 argonne argonne:8 lemont:4",
    b"ann qsub",
    b"bob qsub -l nodes=2",
    b"",
    b"ann qhold 1",
    b"-",
    b"+ ",
    b"take {\"version\": 1}",
];

/// How many entries there are behind the file and so many groups.
const COUNTS: [usize; 4] = [2, 3, 5, 8];

/// Whether these are the first of the entries, with so many groups.
fn are_entries(entries: &[Vec<u8>], groups: usize) -> bool {
    COUNTS.get(groups) == Some(&entries.len())
        && entries
            .iter()
            .zip(ENTRIES.iter())
            .all(|(entry, text)| entry.as_slice() == *text)
}

/// What a file has, or why it isn't opened.
fn opened(alloc: Global, file: &[u8]) -> Result<Recovered, JournalFault> {
    match Journal::open(alloc, Memory::new(alloc, file)?) {
        Ok((_, recovered)) => Ok(recovered),
        Err(unopened) => Err(unopened.fault),
    }
}

/// Opens a file, with a second trial where memory is refused.
fn opened_again(alloc: Global, file: &[u8]) -> Result<Recovered, JournalFault> {
    match opened(alloc, file) {
        Err(JournalFault::NoMemory) => opened(alloc, file),
        answer => answer,
    }
}

/// Repairs a journal and adds three groups, and tells how many were acknowledged.
fn add_groups(journal: &mut Journal<Memory>) -> usize
    requires { (tail : List ℕ) × IsRead memory_seen memory_may_leave journal.old tail }
{
    let one = &ENTRIES[2..3];
    let two = &ENTRIES[3..5];
    let three = &ENTRIES[5..8];
    if !are_lines(one) || !are_lines(two) || !are_lines(three) || journal.repair().is_err() {
        return 0;
    }
    if journal.append(one).is_err() {
        return 0;
    }
    if journal.append(two).is_err() {
        return 1;
    }
    if journal.append(three).is_err() {
        return 2;
    }
    3
}

/// How many groups are acknowledged, and what the disk then has.
fn added(alloc: Global, file: &[u8]) -> Result<(usize, Vec<u8>), JournalFault> {
    match Journal::open(alloc, Memory::new(alloc, file)?) {
        Err(unopened) => Ok((0, unopened.device.into_disk())),
        Ok((mut journal, _)) => {
            let groups = add_groups(&mut journal);
            Ok((groups, journal.into_device().into_disk()))
        }
    }
}

// Whichever allocation fails, what was acknowledged is there, and the rest can be added.
#[test]
fn failed_allocations_of_groups(rt: HostRuntime) -> Result<(), Fail> {
    let alloc = rt.alloc();
    if let Ok((groups, disk)) = added(alloc, FILE) {
        let recovered = opened_again(alloc, &disk)?;
        let is_before = are_entries(&recovered.entries, groups);
        assert!(rt; is_before || are_entries(&recovered.entries, groups.saturating_add(1)));
        if groups == 3 {
            return Ok(());
        }
    }
    let (groups, _) = added(alloc, FILE)?;
    assert_eq!(rt; groups, 3);
    Ok(())
}

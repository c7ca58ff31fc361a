//! Compacting a site's journal.
ghost use Rattle.fed_home.specs.Home.{IsOpen};

use crate::copies::Copied;
use crate::directories::open_home;
use crate::faults::{Fault, fault_of_compacting};
use crate::leftovers::check_new;
use fed_home::{Compaction, Home};
use fed_journal::Device;
use std::fs::{File, Files};
use std::time::Clock;

/// Tells what came of compacting a journal that had this many bytes, and has so many now.
fn tell_came(
    streams: &impl Print,
    came: Compaction,
    before: usize,
    now: usize,
) -> Result<u8, Fault> {
    let told = match came {
        Compaction::Done => println!(streams; "compacted: {before} bytes before, {now} now"),
        Compaction::Long { bytes } => {
            println!(streams; "not compacted: {before} bytes, {bytes} if it were")
        }
        Compaction::Refused(error) => return Err(Fault::NotCompacted(error)),
        Compaction::Unread => return Err(Fault::Uncompactable),
    };
    match told {
        Ok(()) => Ok(0),
        Err(error) => Err(Fault::Output(error)),
    }
}

/// Compacts a journal of which this is the copy, which is removed where the journal stays.
fn compact_copied<D: Device + Drop>(
    streams: &impl Print,
    rt: &impl Files,
    copied: Copied<'_>,
    home: &mut Home<D>,
) -> Result<u8, Fault>
    requires { IsOpen D.seen D.may_leave home.old }
{
    let before = home.journal_len();
    let came = home.compact(before.saturating_sub(1));
    copied.settle(rt, &came);
    match came {
        Ok(came) => tell_came(streams, came, before, home.journal_len()),
        Err(fault) => Err(fault_of_compacting(fault)),
    }
}

/// Makes the journal of a directory one that begins with what the site has, where that is shorter, and tells how long it was
/// and is. Where a name is given, the journal is copied first to a file of this name, which stays where it is compacted.
pub fn compact<R: Files<File = File> + Clock + AllocGlobal + Clone + Drop>(
    streams: &(impl Print + Eprint),
    rt: &R,
    directory: &str,
    kept: Option<&str>,
) -> Result<u8, Fault> {
    let mut home = open_home(streams, rt, directory)?;
    check_new(rt, directory, home.site())?;
    let copied = match kept {
        Some(name) => Copied::make(rt, directory, name)?,
        None => Copied::none(),
    };
    compact_copied(streams, rt, copied, &mut home)
}

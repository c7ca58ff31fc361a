//! The copy of a journal that is to be compacted.
ghost use Rattle.std.specs.Prelude.{◌≡◌, OnOk};
ghost use Rattle.fed_journal.specs.Device.{LeavesJust};
ghost use Rattle.nettlebeam.specs.Copy.{may_be_replaced as may_be_replaced_by};
ghost use Rattle.nettlebeam.specs.Fault.{of_copy};

use crate::directories::{JOURNAL, NEW_JOURNAL, parent_of};
use crate::faults::Fault;
use fed_home::{Compaction, HomeFault};
use fed_journal::{Device, DeviceFault, FileDevice, OpenFault, keep};
use std::alloc::Global;
use std::fs::{self, File, Files, OpenOptions};
use std::io::{self, ErrorKind, Read};
use std::os::unix::fs::OpenOptionsExt;
use std::path::Path;

/// Its owner alone may read and write the file of an old journal.
const OWNER_ALONE: u32 = 0o600;

/// The copy of a journal, or that none was asked for. What compacts the journal has to be given one, and to say what came of
/// it: a copy is never just let go.
pub struct Copied<'a> {
    name: Option<&'a str>,
}

/// Whether a compaction may have put another journal in the place of the one that was copied.
fn may_be_replaced(came: &Result<Compaction, HomeFault>) -> bool
    ensures { result ≡ may_be_replaced_by came.now }
{
    matches!(came, Ok(Compaction::Done) | Err(HomeFault::Failed(_)))
}

impl<'a> Copied<'a> {
    /// No copy.
    pub fn none() -> Copied<'a> {
        Copied { name: None }
    }

    /// Copies the journal of a directory to a file of this name that isn't there yet, and waits until the disk has it and its
    /// name. Where that fails no file is left.
    pub fn make<R: Files<File = File> + AllocGlobal + Clone + Drop>(
        rt: &R,
        directory: &str,
        name: &'a str,
    ) -> Result<Copied<'a>, Fault> {
        let text = journal_of(rt, directory).map_err(Fault::Kept)?;
        make_file(rt, name).map_err(Fault::Kept)?;
        match fill_file(rt, name, &text) {
            Ok(()) => Ok(Copied { name: Some(name) }),
            Err(fault) => {
                let _ = fs::remove_file(rt, name);
                Err(fault)
            }
        }
    }

    /// Removes the copy where the journal that was copied stays, since it is no older one then.
    pub fn settle(self, rt: &impl Files, came: &Result<Compaction, HomeFault>) {
        let Copied { name } = self;
        if let Some(name) = name
            && !may_be_replaced(came)
        {
            let _ = fs::remove_file(rt, name);
        }
    }
}

/// The bytes of the journal of a directory.
fn journal_of(
    rt: &(impl Files<File = File> + AllocGlobal),
    directory: &str,
) -> io::Result<Vec<u8>> {
    let path = Path::new(directory).join(rt.alloc(), JOURNAL)?;
    let mut text = Vec::new(rt.alloc());
    File::open(rt, path.as_path())?.read_to_end(&mut text)?;
    Ok(text)
}

/// Makes an empty file of a name that isn't there yet, and isn't one that a compaction writes over or removes.
fn make_file(rt: &impl Files<File = File>, name: &str) -> io::Result<()> {
    if Path::new(name).file_name() == Some(NEW_JOURNAL) {
        return Err(ErrorKind::InvalidInput.into());
    }
    OpenOptions::new()
        .write(true)
        .create_new(true)
        .mode(OWNER_ALONE)
        .open(rt, name)?;
    Ok(())
}

/// Writes a text to an empty file, and waits until the disk has it.
fn write_copy<D: Device>(alloc: Global, device: &mut D, text: &[u8]) -> Result<(), DeviceFault>
    requires { LeavesJust (D.seen device.old) (D.may_leave device.old) }
    ensures seen { OnOk result (D.seen device.new ≡ text.now) }
    ensures durable { OnOk result (LeavesJust text.now (D.may_leave device.new)) }
{
    if keep(alloc, device, text)? {
        Ok(())
    } else {
        Err(DeviceFault::Failed(ErrorKind::AlreadyExists.into()))
    }
}

/// Why a copy can't be written.
fn fault_of(fault: DeviceFault) -> Fault
    ensures { result ≡ of_copy fault }
{
    match fault {
        DeviceFault::NoMemory => Fault::from(fault),
        DeviceFault::Failed(error) => Fault::Kept(error),
    }
}

/// Writes a text to an empty file of this name, and waits until the disk has it and its name.
fn fill_file<R: Files<File = File> + AllocGlobal + Clone + Drop>(
    rt: &R,
    name: &str,
    text: &[u8],
) -> Result<(), Fault> {
    let Some(file) = Path::new(name).file_name() else {
        return Err(Fault::Kept(ErrorKind::InvalidInput.into()));
    };
    let mut device = match FileDevice::make(rt, parent_of(name).as_str(), file) {
        Ok(device) => device,
        Err(fault) => return Err(fault_of_opening(fault)),
    };
    match write_copy(rt.alloc(), &mut device, text) {
        Ok(()) => Ok(()),
        Err(fault) => Err(fault_of(fault)),
    }
}

/// Why the file of a copy can't be opened.
fn fault_of_opening(fault: OpenFault) -> Fault {
    match fault {
        OpenFault::Failed(error) => Fault::Kept(error),
        OpenFault::InUse => Fault::Kept(ErrorKind::WouldBlock.into()),
        OpenFault::NoMemory => Fault::from(fault),
    }
}

//! The directory of a site that answers an input.
ghost use Rattle.std.specs.Prelude.{IfOk};
ghost use Rattle.fed_journal.specs.Files.{file_may_leave, file_seen};
ghost use Rattle.fed_home.specs.Home.{IsOpen};
ghost use Rattle.fed_serve.specs.Openings.{IsLeft};
ghost use Rattle.nettlebeam.specs.Openings.{AreLeft};

use crate::directories::open_home_again;
use crate::faults::{Fault, FaultAt};
use crate::leftovers::check_new;
use fed_home::{Home, HomeFault};
use fed_journal::FileDevice;
use fed_serve::{NotCompacted, Place};
use fed_site::Site;
use http_server::Log;
use std::fs::{File, Files};
use std::time::Clock;

/// The directory of a site that answers an input. What is to be said beside the answers goes to standard error.
#[derive(Drop)]
pub struct Directory<'a, S, R: Files<File = File> + AllocGlobal + Clone + Drop> {
    streams: &'a S,
    rt: &'a R,
    name: &'a str,
    // the homes that were opened again, each behind a note of the one before, which clauses alone read
    openings: Log<Log<Home<FileDevice<R>>, ()>, Home<FileDevice<R>>>,
}

impl<'a, S, R: Files<File = File> + AllocGlobal + Clone + Drop> Directory<'a, S, R> {
    /// The directory of this name, in which no home was opened again yet.
    pub fn new(streams: &'a S, rt: &'a R, name: &'a str) -> Directory<'a, S, R> {
        Directory {
            streams,
            rt,
            name,
            openings: Log::new(),
        }
    }
}

impl<S: Eprint, R: Files<File = File> + Clock + AllocGlobal + Clone + Drop> Directory<'_, S, R> {
    /// Tells on standard error why something isn't done.
    fn tell(&self, fault: Fault) {
        let at = FaultAt {
            directory: self.name,
            fault,
        };
        let _ = eprintln!(self.streams; "nettlebeam: {at}");
    }
}

impl<S: Eprint, R: Files<File = File> + Clock + AllocGlobal + Clone + Drop> Place<FileDevice<R>>
    for Directory<'_, S, R> {
    type Fault = Fault;

    ghost trusted = { λ place. AreLeft file_seen file_may_leave place.openings.items };

    fn may_replace(&self, site: &Site) -> bool {
        match check_new(self.rt, self.name, site) {
            Ok(()) => true,
            Err(fault) => {
                self.tell(fault);
                false
            }
        }
    }

    fn open_again(&mut self, home: Home<FileDevice<R>>) -> Result<Home<FileDevice<R>>, Fault>
        ensures open { IfOk result (λ again. IsOpen file_seen file_may_leave again) }
        ensures found { IfOk result (λ again. AreLeft file_seen file_may_leave self.new.openings.items → IsLeft file_seen file_may_leave home again) }
        ensures before { AreLeft file_seen file_may_leave self.new.openings.items → AreLeft file_seen file_may_leave self.old.openings.items }
    {
        let gate = home.gate();
        let left = Log::new().and(&home, &());
        // the lock ends with the home that has it
        drop(home);
        match open_home_again(self.streams, self.rt, self.name, gate) {
            Ok(again) => {
                self.openings = self.openings.and(&left, &again);
                Ok(again)
            }
            Err(fault) => Err(fault),
        }
    }

    fn tell_not_kept(&self, cause: HomeFault) {
        let at = FaultAt {
            directory: self.name,
            fault: Fault::Home(cause),
        };
        let _ = eprintln!(self.streams; "nettlebeam: {at}; they are answered `not kept`");
    }

    fn tell_not_compacted(&self, cause: NotCompacted) {
        self.tell(Fault::from(cause));
    }
}

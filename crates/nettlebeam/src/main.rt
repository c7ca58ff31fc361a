//! The program `nettlebeam`: one site of a federation of batch queues, on a disk.
#![tactic(auto)]

mod compacting;
mod copies;
mod directories;
mod faults;
mod leftovers;
mod making;
mod places;
mod tasks;

use clap::error::ErrorKind;
use faults::{Fault, FaultAt};
use nettle_words::{Asked, Task, read_command_line};
use std::fs::File;
use std::process::ExitCode;
use std::rt::{Env, Files};
use std::time::Clock;
use std::{env, io};
use tasks::do_task;

/// The program's words, its name first.
fn read_words(streams: &(impl Env + AllocGlobal)) -> io::Result<Vec<String>> {
    Ok(env::args(streams)?.collect(streams.alloc())?)
}

/// Where a fault was met: at the file that is to keep the old journal, or at the directory.
fn place<'a>(asked: &Asked<'a>, fault: Fault) -> &'a str {
    match (&asked.task, fault) {
        (Task::Compact { kept: Some(name) }, Fault::Kept(_)) => name,
        _ => asked.directory,
    }
}

/// Does what the program's words ask, and gives the status.
fn run<R: Files<File = File> + Clock + AllocGlobal + Clone + Drop>(
    streams: &(impl Input + Print + Eprint + AllocGlobal),
    rt: &R,
    words: &[String],
) -> u8 {
    match read_command_line(rt.alloc(), words) {
        Ok(asked) => match do_task(streams, rt, &asked) {
            Ok(status) => status,
            Err(fault) => {
                let directory = place(&asked, fault);
                // the status tells the fault also where standard error takes nothing
                let _ = eprintln!(streams; "nettlebeam: {}", FaultAt { directory, fault });
                fault.status()
            }
        },
        Err(error) => {
            let printed = error.print(streams);
            match error.kind() {
                ErrorKind::OutOfMemory => 3,
                ErrorKind::DisplayHelp | ErrorKind::DisplayVersion if printed.is_err() => 3,
                ErrorKind::DisplayHelp | ErrorKind::DisplayVersion => 0,
                _ => 2,
            }
        }
    }
}

/// Runs the program, and gives its status. Files are of a handle of their own, so that streams can be had without them.
fn run_program<R: Files<File = File> + Clock + AllocGlobal + Clone + Drop>(
    streams: &(impl Input + Print + Eprint + Env + AllocGlobal),
    rt: &R,
) -> u8 {
    match read_words(streams) {
        Ok(words) => run(streams, rt, &words),
        Err(error) => {
            let _ = eprintln!(streams; "nettlebeam: the words can't be read: {error}");
            2
        }
    }
}

fn main(rt: HostRuntime) -> ExitCode {
    ExitCode::from(run_program(&rt, &rt))
}

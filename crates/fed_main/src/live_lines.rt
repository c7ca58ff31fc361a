//! Reading the lines of a script that runs live.
ghost use Rattle.std.specs.Prelude.{◌≡◌, IfOk, IfErr, OnErr, IsTrue, None, Some, option_map, if◌then◌else◌};
ghost use Rattle.fed_script.specs.LineView.{said_by};
ghost use Rattle.fed_main.specs.Live.{TellsUnread, is_run, sites_after, sites_told, unread};

use crate::fault::RunFault;
use fed_lattice::NoMemory;
use fed_script::{BoxedRoster, Line, read_first_line, read_later_line, split_line};
use std::alloc::Global;

/// A script that runs live, as far as it was read.
#[derive(Drop)]
pub(crate) struct LiveScript {
    /// The sites, once a line has named them.
    pub(crate) sites: Option<BoxedRoster>,
    /// The lines behind that one, in order, without those that are skipped.
    pub(crate) lines: Vec<Line>,
}

impl LiveScript {
    /// A script of which nothing was read.
    fn new(alloc: Global) -> LiveScript
        ensures { result.sites ≡ None }
    {
        let lines = Vec::new(alloc);
        LiveScript { sites: None, lines }
    }

    /// Keeps what a line says. Whether a live run can do it: it can't do `take`, `equal`, and what can't be read.
    fn keep(&mut self, line: Option<Line>) -> Result<bool, NoMemory>
        ensures kept { IfOk result (λ is_read.
            sites_told self.old.sites (option_map said_by line) ≡ (if is_read then Some self.new.sites else None)) }
        // memory is wanted for a line alone that a thread runs
        ensures err { OnErr result (IsTrue (is_run (option_map said_by line))) }
    {
        match line {
            None | Some(Line::Take { .. } | Line::Compare { .. }) => return Ok(false),
            Some(Line::Skip) => {}
            Some(Line::Begin { roster }) => self.sites = Some(roster),
            Some(line) => self.lines.push(line)?,
        }
        Ok(true)
    }

    /// Reads a line. Whether it can be read: `take` and `equal` can't.
    fn read_line(&mut self, alloc: Global, bytes: &[u8]) -> Result<bool, NoMemory>
        ensures { IfOk result (λ is_read.
            sites_after self.old.sites bytes.now ≡ (if is_read then Some self.new.sites else None)) }
    {
        let line = match &self.sites {
            Some(roster) => read_later_line(alloc, roster.get(), 0, bytes)?,
            None => read_first_line(alloc, bytes)?,
        };
        self.keep(line)
    }
}

/// The sites and the lines of a script. The errors: `Line` with the number of the first line that can't be read, and
/// `NoMemory`.
pub(crate) fn read_lines(alloc: Global, script: &[u8]) -> Result<LiveScript, RunFault>
    ensures ok { IfOk result (λ _. unread script.now ≡ None) }
    ensures err { IfErr result (TellsUnread script.now) }
{
    let mut read = LiveScript::new(alloc);
    let mut rest = script;
    let mut number = 0u64;
    while let Some((line, after)) = split_line(rest) {
        number += 1;
        if !read.read_line(alloc, line)? {
            return Err(RunFault::Line(number));
        }
        rest = after;
    }
    Ok(read)
}

//! How a run of the program ended.
ghost use Rattle.std.specs.Prelude.{◌≡◌};
ghost use Rattle.federation.specs.RunEnds.{run_end as end_of_run, status_of};

use fed_main::RunFault;

/// How a run of the program ended.
#[derive(Clone, Copy, Debug, PartialEq, Eq)]
pub enum RunEnd {
    /// The script was run to its end.
    Ran,
    /// The line with this number, from 1, can't be read. In a replay the answers of the lines before it are written.
    UnreadableLine(u64),
    /// The program's own words are refused.
    Usage,
    /// Standard input, standard output or memory failed, or sites that ran at the same time can't be settled.
    Failed,
}

impl RunEnd {
    /// The status that the program ends with: 0 for `Ran`, 1 for `UnreadableLine`, 2 for `Usage` and 3 for `Failed`.
    pub fn status(self) -> u8
        ensures { result ≡ status_of self }
    {
        match self {
            RunEnd::Ran => 0,
            RunEnd::UnreadableLine(_) => 1,
            RunEnd::Usage => 2,
            RunEnd::Failed => 3,
        }
    }
}

/// How the program ends when a replay, or a live run, has ended.
pub fn run_end(ended: Result<(), RunFault>) -> RunEnd
    ensures { result ≡ end_of_run ended }
{
    match ended {
        Ok(()) => RunEnd::Ran,
        Err(RunFault::Line(number)) => RunEnd::UnreadableLine(number),
        Err(
            RunFault::Read
            | RunFault::Write
            | RunFault::NoMemory
            | RunFault::Close(_)
            | RunFault::Behind,
        ) => RunEnd::Failed,
    }
}

//! What a site replies to a command that it does.
use fed_stamp::{JobId, Stamp};

/// What a site replies to a command that it doesn't refuse.
#[derive(Clone, Copy, PartialEq, Eq, Debug)]
pub enum Reply {
    /// The job submitted.
    Submitted(JobId),
    /// The command is done.
    Done,
    /// The job is granted to the asker, from now on.
    Granted,
    /// The job was granted to the asker before.
    Yours,
    /// The reservation made.
    Reserved(Stamp),
}

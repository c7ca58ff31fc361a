//! That jobs begin and finish.
ghost use Rattle.std.specs.Prelude.{◌≡◌, ◌+◌, ◌<◌, ◌≤◌};

use crate::limits::Limit;
use crate::moments::{MAX_END, Moment};
use crate::node_counts::Nodes;

/// When a job began, on how many nodes, and the second by which it ends.
#[derive(Clone, Copy, PartialEq, Eq, PartialOrd, Ord, Debug)]
pub struct Beginning {
    /// When the job began, in seconds.
    pub moment: Moment,
    /// The nodes that it had then.
    pub nodes: Nodes,
    /// The moment plus the time limit that it had then, in seconds. Where a site begins a job it is above the moment
    /// and at most `MAX_END`, as `new` gives it; the type itself doesn't keep this.
    pub end: u64,
}

impl Beginning {
    /// That a job with this many nodes and this time limit begins at the moment.
    pub fn new(moment: Moment, nodes: Nodes, limit: Limit) -> Beginning
        ensures value { result ≡ record { moment = moment; nodes = nodes; end = moment + limit } }
        ensures above { moment < result.end }
        ensures at_most { result.end ≤ MAX_END }
    {
        Beginning {
            moment,
            nodes,
            end: moment.get() + limit.get(),
        }
    }
}

/// The greatest status that a job gives.
pub const MAX_STATUS: u8 = 255;

/// When a job finished, and the status that it gave.
#[derive(Clone, Copy, PartialEq, Eq, PartialOrd, Ord, Debug)]
pub struct Ending {
    /// When the job finished, in seconds. It isn't compared with the Begin's.
    pub moment: Moment,
    /// The status that it gave, from 0 to `MAX_STATUS`.
    pub status: u8,
}

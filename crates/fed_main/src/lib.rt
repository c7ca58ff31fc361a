//! Running the scripts of a federation of batch queues, line by line or the sites at the same time.
#![tactic(auto)]

mod fault;
mod live_lines;
mod live_runs;
mod live_sites;
mod replays;

pub use fault::RunFault;
pub use fed_replay::laws;
pub use live_runs::{live, live_with};
pub use replays::replay;

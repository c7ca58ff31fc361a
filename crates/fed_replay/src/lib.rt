//! Replaying the scripts of a federation of batch queues: their lines run in order, and no thread is needed.
#![tactic(auto)]

mod fault;
pub mod laws;
mod run;
mod script;
mod script_worlds;
mod session;

pub use fault::ReplayFault;
pub use run::{ended, replay};
pub use script::{MAX_READS, MAX_SCRIPT_BYTES, read_script};

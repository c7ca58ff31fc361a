//! Packets of a federated batch queue as JSON text.
#![tactic(auto)]

mod bodies;
mod faults;
mod identifiers;
mod jobs;
mod laws;
mod members;
mod printing;
pub mod readings;
pub mod reservations;
mod retired;
pub mod texts;
mod writing;

pub use faults::{Part, Place, WireFault};
pub use fed_delta::Packet;
pub use laws::told_packets_are_within_limits;
pub use texts::{read, write};

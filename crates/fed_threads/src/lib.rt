//! Sites that run at the same time, each behind a lock of its own, with parcels in queues between them, and the one list
//! of events that their journals are settled to, where they are.
#![tactic(auto)]

mod calls;
mod claims;
mod closing;
mod course;
mod fault;
mod federation;
mod gate;
mod journal;
pub mod laws;
mod locked_sites;
mod parcel;
mod placing;
mod seat;
mod settling;

pub use closing::Run;
pub use fault::{CallFault, CloseFault};
pub use federation::{Dropped, Federation, Next, Sent};
pub use gate::{Gate, OpenGate};
pub use journal::{Asked, Claim, Entry};
pub use seat::Seat;
pub use settling::settle;

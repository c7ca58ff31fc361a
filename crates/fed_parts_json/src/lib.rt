//! The parts of a packet as JSON values, read and written: its jobs, and what the sites have retired.
#![tactic(auto)]

mod covers;
mod members;
mod ranges;
mod read_jobs;
pub mod retirements;
mod stages;
mod values;
mod written_jobs;
mod written_ranges;

pub use read_jobs::read_job;
pub use retirements::read_retirements;
pub use values::{write_stamp, write_version};
pub use written_jobs::write_job;
pub use written_ranges::write_retirements;

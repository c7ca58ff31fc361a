//! The JSON values of jobs, and what is read of them.
#![tactic(auto)]

pub mod fields;
mod formats;
pub mod grants;
pub mod live_pairs;
mod members;
mod parts;
pub mod progress;
mod stamps;

pub use formats::Format;
pub use members::{JobMembers, job_members};
pub use parts::ReadJob;
pub use stamps::{read_site, read_stamp, read_version};

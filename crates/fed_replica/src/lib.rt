//! What a site answers to commands, and what it ships and takes.
#![tactic(auto)]

mod answers;
mod commands;
mod counts;
mod effects;
mod grant_steps;
mod job_steps;
mod jobs;
mod permissions;
mod replicas;
mod reservation_steps;
pub mod retire_steps;
mod steps;

pub use answers::{Answered, Received};
pub use counts::counts_are_read;
pub use fed_model::Taken;
pub use replicas::Replica;

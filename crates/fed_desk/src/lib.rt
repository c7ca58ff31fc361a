//! What a job's origin decides when a site asks for the job.
#![tactic(auto)]

mod cases;
mod desks;

pub use cases::first_refusal;
pub use desks::{decide, decide_on, grant_refusal};
pub use fed_model::Decision;

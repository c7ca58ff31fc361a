//! Operations as the code holds them, and the records of jobs and of reservations that they change.
#![tactic(auto)]

mod covered_stamps;
mod facts;
mod job_parts;
mod job_readers;
pub mod laws;
mod operation_changes;
mod operations;
mod records;
mod reservations;

pub use facts::tags_are_covered;
pub use fed_model::{
    Account, Beginning, Changes, Command, Ending, Fields, GrantStage, HoldKind, HoldKinds,
    JobValues, Letter, Limit, MAX_END, MAX_LIMIT, MAX_MOMENT, MAX_PRIORITY, MAX_STATUS, MAX_TERM,
    MIN_PRIORITY, Moment, Nodes, Priority, Refusal, Reply, Role, Stages, Term, Who, Window,
};
pub use job_parts::{FieldParts, JobParts, StageParts};
pub use job_readers::Progress;
pub use operation_changes::{JobFieldChanges, JobStageChanges};
pub use operations::{JobOperation, Operation};
pub use records::JobRecord;
pub use reservations::Reservation;

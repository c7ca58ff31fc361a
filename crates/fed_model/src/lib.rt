//! What a federation does and says: the values that operations are made of, the commands and their answers, and whole
//! runs. Its definitions stand in specs/, in the order to read them; what all contracts above rest on is there. No code
//! of boards or replicas is below it.
#![tactic(auto)]

mod accounts;
mod askers;
mod beginnings;
mod capacities;
mod commands;
mod decisions;
mod events;
mod exacts;
pub mod facts;
mod fields;
mod grants;
mod holds;
mod inlines;
mod letters;
mod limits;
mod moments;
mod node_counts;
mod outcomes;
mod plans;
mod priorities;
mod refusals;
mod replies;
mod stages;
mod taken;
mod terms;
mod values;
mod windows;

pub use accounts::Account;
pub use askers::{Role, Who};
pub use beginnings::{Beginning, Ending, MAX_STATUS};
pub use capacities::{MAX_JOBS, MAX_RANGES, MAX_RESERVATIONS};
pub use commands::Command;
pub use decisions::Decision;
pub use events::Event;
pub use facts::{commands_are_ranged, limit_is_ranged};
pub use fields::Fields;
pub use grants::GrantStage;
pub use holds::{HoldKind, HoldKinds};
pub use inlines::{Inline, apply_inline, copy_inline, join_inline};
pub use letters::Letter;
pub use limits::{Limit, MAX_LIMIT};
pub use moments::{MAX_END, MAX_MOMENT, Moment};
pub use node_counts::Nodes;
pub use outcomes::Outcome;
pub use plans::Plan;
pub use priorities::{MAX_PRIORITY, MIN_PRIORITY, Priority};
pub use refusals::Refusal;
pub use replies::Reply;
pub use stages::Stages;
pub use taken::Taken;
pub use terms::{MAX_TERM, Term};
pub use values::{Changes, JobValues};
pub use windows::Window;

//! Plans of a site's machine by EASY backfill, the method of Lifka's scheduler.
#![tactic(auto)]

mod bookings;
pub mod laws;
mod machines;
mod nodes_in_use;
mod profiles;
mod queue_planning;
mod queues;
mod roster_plans;
mod site_planning;
mod sweeps;
mod use_changes;

pub use bookings::{Booking, reserved_time};
pub use fed_model::Plan;
pub use machines::{MAX_RUNNING, Machine, MachineFault, Running, machine_of, running_job};
pub use nodes_in_use::used_nodes;
pub use roster_plans::{nodes_of, plan_at, plan_at_without};
pub use site_planning::{PlanFault, plan, plan_without};

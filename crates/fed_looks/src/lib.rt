//! Looks: what an operator asks a site. Each is a text that is a function of what the board reads as, and changes nothing.
#![tactic(auto)]

mod job_lines;
mod job_values;
mod json_lines;
pub mod laws;
mod look_words;
mod looks;
mod reserved;
mod whys;

pub use job_lines::{job_objects, jobs_json};
pub use json_lines::json_line;
pub use look_words::LookWord;
pub use looks::{Look, MAX_LEFT_OUT, read_look};
pub use reserved::{reservation_lines, reservations_json};
pub use whys::why_line;

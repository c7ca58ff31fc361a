//! What a site's machine has at a moment and later, its plan too, in lines and as a picture. Each is a function of the roster, of what
//! the board reads as, of the site and of the moment.
#![tactic(auto)]

mod chart;
mod chart_bars;
mod chart_marks;
mod machines;
mod planned_texts;

pub use chart::chart_svg;
pub use chart_bars::{Bar, Kind, bars_at};
pub use machines::{Reserved, RunningJob, free_nodes, machine_lines, reserved_at, runs_at};
pub use planned_texts::{plan_line, plan_lines, plan_text_without};

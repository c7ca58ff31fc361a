//! The texts of looks.
ghost use Rattle.std.specs.Prelude.{◌≡◌, ◌<◌, IfOk, length, string_bytes};
ghost use Rattle.fed_replica.specs.State.{state_of};
ghost use Rattle.fed_site.specs.LookText.{text_of_look};
ghost use Rattle.fed_looks.specs.LookView.{asked_by};

use crate::machine_objects::machine_json;
use crate::plan_objects::plan_json;
use crate::roster_lines::roster_line;
use crate::seen::{seen_json, seen_lines};
use fed_lattice::NoMemory;
use fed_looks::{Look, jobs_json, reservation_lines, reservations_json, why_line};
use fed_machine::{chart_svg, machine_lines, plan_text_without};
use fed_replica::Replica;
use fed_stamp::Roster;
use std::alloc::Global;

/// The text of a look at a site of the roster, by its replica.
pub fn look_text(
    alloc: Global,
    roster: &Roster,
    replica: &Replica,
    look: &Look,
) -> Result<String, NoMemory>
    requires { replica.now.site < length roster.now }
    ensures { IfOk result (λ text. string_bytes text ≡ text_of_look roster.now (state_of replica.now) (asked_by look.now)) }
{
    let board = replica.board();
    let here = replica.site();
    match look {
        Look::Why { job, moment } => why_line(alloc, roster, board, here, *job, *moment),
        Look::Machine { moment } => machine_lines(alloc, roster, board, here, *moment),
        Look::MachineJson { moment } => machine_json(alloc, roster, board, here, *moment),
        Look::Reservations => reservation_lines(alloc, roster, board),
        Look::ReservationsJson => reservations_json(alloc, roster, board),
        Look::Jobs { jobs } => jobs_json(alloc, roster, board, jobs),
        Look::Seen => seen_lines(alloc, roster, replica),
        Look::SeenJson => seen_json(alloc, roster, replica),
        Look::Chart { moment } => chart_svg(alloc, roster, board, here, *moment),
        Look::Plan { moment, but } => {
            plan_text_without(alloc, roster, board, here, *moment, but)
        }
        Look::PlanJson { moment, but } => plan_json(alloc, roster, board, here, *moment, but),
        Look::Roster => roster_line(alloc, roster),
    }
}

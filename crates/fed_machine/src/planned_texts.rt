//! The texts of plans.
ghost use Rattle.std.specs.Prelude.{◌≡◌, ◌<◌, IfOk, length, option_map, string_bytes};
ghost use Rattle.std.specs.Cow.{cow_str_bytes};
ghost use Rattle.fed_board.specs.Board.{board_reads};
ghost use Rattle.fed_machine.specs.Planned.{plan_if_any, text_of_plan, text_of_plan_without};

use fed_board::Board;
use fed_easy::{plan_at, plan_at_without};
use fed_lattice::NoMemory;
use fed_qstat::{AnswerText, plan_text};
use fed_record::Moment;
use fed_stamp::{JobId, Roster, SiteId};
use std::alloc::Global;
use std::borrow::CowStr;

/// The lines of the plan of a site at a moment; `None` where it has none, as `plan_at` says. The only error is `NoMemory`.
pub fn plan_lines(
    alloc: Global,
    roster: &Roster,
    board: &Board,
    site: SiteId,
    moment: Moment,
) -> Result<Option<AnswerText>, NoMemory>
    requires { site < length roster.now }
    ensures { IfOk result (λ text. option_map cow_str_bytes text ≡ plan_if_any roster.now (board_reads board.now) site moment) }
{
    match plan_at(alloc, roster, board, site, moment)? {
        Some(plan) => Ok(Some(CowStr::Owned(plan_text(alloc, &plan, roster)?))),
        None => Ok(None),
    }
}

/// What is said of the plan of a site at a moment: its lines, or `no plan`. The only error is `NoMemory`.
pub fn plan_line(
    alloc: Global,
    roster: &Roster,
    board: &Board,
    site: SiteId,
    moment: Moment,
) -> Result<AnswerText, NoMemory>
    requires { site < length roster.now }
    ensures { IfOk result (λ text. cow_str_bytes text ≡ text_of_plan roster.now (board_reads board.now) site moment) }
{
    match plan_lines(alloc, roster, board, site, moment)? {
        Some(text) => Ok(text),
        None => Ok(CowStr::Borrowed("no plan\n")),
    }
}

/// What is said of the plan of a site at a moment where these jobs are left out of the queue: its lines, or `no plan`. The
/// only error is `NoMemory`.
pub fn plan_text_without(
    alloc: Global,
    roster: &Roster,
    board: &Board,
    site: SiteId,
    moment: Moment,
    jobs: &[JobId],
) -> Result<String, NoMemory>
    requires { site < length roster.now }
    ensures { IfOk result (λ text. string_bytes text ≡
        text_of_plan_without jobs.now roster.now (board_reads board.now) site moment) }
{
    match plan_at_without(alloc, roster, board, site, moment, jobs)? {
        Some(plan) => plan_text(alloc, &plan, roster),
        None => Ok(String::from_str(alloc, "no plan\n")?),
    }
}

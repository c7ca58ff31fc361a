//! The plan of a site of a roster.
ghost use Rattle.std.specs.Prelude.{◌≡◌, ◌≢◌, ◌<◌, IfOk, OnErr, None, length, option_map};
ghost use Rattle.fed_stamp.specs.Roster.{nodes_at};
ghost use Rattle.fed_board.specs.Board.{board_reads};
ghost use Rattle.fed_easy.specs.declared.machines.MachineFault.TheVariants.{NoMemory as OutOfMemory};
ghost use Rattle.fed_easy.specs.Plan.{plan_reads};
ghost use Rattle.fed_easy.specs.SitePlan.{plan_without as others_planned, site_plan};
ghost use Rattle.fed_easy.specs.RosterPlan.{plan_in, plan_in_without};

use crate::machines::{Machine, MachineFault, machine_of};
use crate::site_planning::{PlanFault, plan, plan_without};
use fed_board::Board;
use fed_lattice::NoMemory;
use fed_model::Plan;
use fed_record::Moment;
use fed_stamp::{JobId, Roster, SiteId};
use std::alloc::Global;

/// The nodes of a site of the roster.
pub fn nodes_of(roster: &Roster, site: SiteId) -> u64
    requires { site < length roster.now }
    ensures { result ≡ nodes_at roster.now site }
{
    roster.nodes(site).unwrap()
}

/// The plan of a site's machine.
fn machine_plan(
    alloc: Global,
    board: &Board,
    site: SiteId,
    moment: Moment,
    machine: &Machine,
) -> Result<Plan, NoMemory>
    ensures { IfOk result (λ plan. plan_reads plan ≡ site_plan (board_reads board.now) site moment machine.now) }
{
    match plan(alloc, board, site, moment.get(), machine) {
        Ok(plan) => Ok(plan),
        Err(fault) => {
            // a moment is in range, so that want of memory is all that is left
            prove!(matches!(&fault, PlanFault::NoMemory));
            Err(NoMemory)
        }
    }
}

/// The plan of a site's machine where these jobs are left out.
fn machine_plan_without(
    alloc: Global,
    board: &Board,
    site: SiteId,
    moment: Moment,
    machine: &Machine,
    jobs: &[JobId],
) -> Result<Plan, NoMemory>
    ensures { IfOk result (λ plan. plan_reads plan ≡ others_planned jobs.now (board_reads board.now) site moment machine.now) }
{
    match plan_without(alloc, board, site, moment.get(), machine, jobs) {
        Ok(plan) => Ok(plan),
        Err(fault) => {
            prove!(matches!(&fault, PlanFault::NoMemory));
            Err(NoMemory)
        }
    }
}

/// There is no plan, but where memory was refused.
fn unplanned(fault: MachineFault) -> Result<Option<Plan>, NoMemory>
    ensures none { IfOk result (λ plan. (plan ≡ None) × (fault ≢ OutOfMemory)) }
    ensures memory { OnErr result (fault ≡ OutOfMemory) }
{
    match fault {
        MachineFault::NoMemory => Err(NoMemory),
        _ => Ok(None),
    }
}

/// The plan of a site at a moment, with the roster's nodes and what the board says runs there; `None` where no machine may
/// be so, which no board of a run says. The only error is `NoMemory`.
pub fn plan_at(
    alloc: Global,
    roster: &Roster,
    board: &Board,
    site: SiteId,
    moment: Moment,
) -> Result<Option<Plan>, NoMemory>
    requires { site < length roster.now }
    ensures { IfOk result (λ plan. option_map plan_reads plan ≡ plan_in roster.now (board_reads board.now) site moment) }
{
    match machine_of(alloc, board, site, nodes_of(roster, site)) {
        Ok(machine) => Ok(Some(machine_plan(alloc, board, site, moment, &machine)?)),
        Err(fault) => unplanned(fault),
    }
}

/// The plan of a site at a moment as `plan_at` makes it, where these jobs are left out of the queue. The only error is
/// `NoMemory`.
pub fn plan_at_without(
    alloc: Global,
    roster: &Roster,
    board: &Board,
    site: SiteId,
    moment: Moment,
    jobs: &[JobId],
) -> Result<Option<Plan>, NoMemory>
    requires { site < length roster.now }
    ensures { IfOk result (λ plan. option_map plan_reads plan ≡
        plan_in_without jobs.now roster.now (board_reads board.now) site moment) }
{
    match machine_of(alloc, board, site, nodes_of(roster, site)) {
        Ok(machine) => Ok(Some(machine_plan_without(alloc, board, site, moment, &machine, jobs)?)),
        Err(fault) => unplanned(fault),
    }
}

//! The plan of a site as a JSON object.
ghost use Rattle.std.specs.Prelude.{◌≡◌, ◌<◌, IfOk, length, option_map, string_bytes};
ghost use Rattle.serde_json.specs.View.{view};
ghost use Rattle.fed_board.specs.Board.{board_reads};
ghost use Rattle.fed_easy.specs.Plan.{plan_reads};
ghost use Rattle.fed_site.specs.PlanJson.{head_data, json_of_plan, plan_data, plan_object as object_of_plan};

use fed_board::Board;
use fed_easy::{Plan, plan_at_without};
use fed_lattice::NoMemory;
use fed_looks::{job_objects, json_line};
use fed_qstat::identifier_text;
use fed_record::Moment;
use fed_stamp::{JobId, Roster, SiteId};
use serde_json::{Value, json};
use std::alloc::{AllocError, Global};

/// The head with its second, or null where there is none.
fn head_value(
    alloc: Global,
    roster: &Roster,
    head: Option<(JobId, u64)>,
) -> Result<Value, AllocError>
    ensures { IfOk result (λ v. view v ≡ head_data roster.now head) }
{
    match head {
        Some((job, second)) => {
            let id = identifier_text(alloc, roster, job)?;
            json!(in alloc; { "job": id.as_str(), "second": second })
        }
        None => Ok(Value::Null),
    }
}

fn plan_object(alloc: Global, head: Value, starts: Value) -> Result<Value, AllocError>
    ensures { IfOk result (λ v. view v ≡ object_of_plan (view head) (view starts)) }
{
    json!(in alloc; { "head": head, "starts": starts })
}

/// The object of a plan, or null where there is none.
fn plan_value(
    alloc: Global,
    roster: &Roster,
    board: &Board,
    plan: Option<Plan>,
) -> Result<Value, AllocError>
    ensures { IfOk result (λ v. view v ≡ plan_data roster.now (board_reads board.now) (option_map plan_reads plan)) }
{
    let Some(plan) = plan else {
        return Ok(Value::Null);
    };
    let head = head_value(alloc, roster, plan.head)?;
    let starts = job_objects(alloc, roster, board, &plan.starts)?;
    plan_object(alloc, head, starts)
}

/// The plan of a site at a moment, in seconds, where these jobs are left out of the queue, as one line: a JSON object of
/// `head`, which is null or has the identifier `job` and its `second`, and `starts`, the objects of the jobs that start, as
/// `jobs_json` has them. Null where there is no plan, as `plan_at` says. The only error is `NoMemory`.
pub fn plan_json(
    alloc: Global,
    roster: &Roster,
    board: &Board,
    site: SiteId,
    moment: Moment,
    jobs: &[JobId],
) -> Result<String, NoMemory>
    requires { site < length roster.now }
    ensures { IfOk result (λ text. string_bytes text ≡
        json_of_plan jobs.now roster.now (board_reads board.now) site moment) }
{
    let plan = plan_at_without(alloc, roster, board, site, moment, jobs)?;
    let value = plan_value(alloc, roster, board, plan)?;
    Ok(json_line(alloc, &value)?)
}

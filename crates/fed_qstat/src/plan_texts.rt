//! The text of a plan.
ghost use Rattle.std.specs.Prelude.{◌≡◌, IfOk, flat_map, string_bytes};
ghost use Rattle.fed_model.specs.Plan.{plan_reads};
ghost use Rattle.fed_qstat.specs.PlanText.{head_of, line_of_start, plan_lines};

use crate::identifiers::identifier_text;
use fed_lattice::NoMemory;
use fed_model::Plan;
use fed_stamp::{JobId, Roster};
use std::alloc::{AllocError, Global};

/// The line of a job that starts.
fn start_line(alloc: Global, roster: &Roster, job: JobId) -> Result<String, AllocError>
    ensures { IfOk result (λ text. string_bytes text ≡ line_of_start roster.now job) }
{
    let id = identifier_text(alloc, roster, job)?;
    format!(in alloc; "start {id}\n")
}

/// The line of the head with its second, or nothing where there is no head.
fn head_line(
    alloc: Global,
    roster: &Roster,
    head: Option<(JobId, u64)>,
) -> Result<String, AllocError>
    ensures { IfOk result (λ text. string_bytes text ≡ head_of roster.now head) }
{
    match head {
        Some((job, second)) => {
            let id = identifier_text(alloc, roster, job)?;
            format!(in alloc; "head {id} {second}\n")
        }
        None => Ok(String::new(alloc)),
    }
}

/// The lines of the jobs that start.
fn start_lines(alloc: Global, roster: &Roster, starts: &[JobId]) -> Result<String, AllocError>
    ensures { IfOk result (λ text. string_bytes text ≡ flat_map (line_of_start roster.now) starts.now) }
{
    let mut text = String::new(alloc);
    for job in starts {
        let line = start_line(alloc, roster, *job)?;
        text.push_str(line.as_str())?;
    }
    Ok(text)
}

/// The text of a plan: a line `start ID` for each job that starts, in the order of the queue, then a line
/// `head ID SECOND` where there is a head.
pub fn plan_text(alloc: Global, plan: &Plan, roster: &Roster) -> Result<String, NoMemory>
    ensures { IfOk result (λ text. string_bytes text ≡ plan_lines roster.now (plan_reads plan.now)) }
{
    let mut text = start_lines(alloc, roster, &plan.starts)?;
    let head = head_line(alloc, roster, plan.head)?;
    text.push_str(head.as_str())?;
    Ok(text)
}

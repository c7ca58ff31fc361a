//! Why a job stands where it does.
ghost use Rattle.std.specs.Prelude.{◌≡◌, ◌<◌, ◌++◌, IfOk, IsTrue, Some, codes, length, option_map, string_bytes, unwrap_or};
ghost use Rattle.std.specs.Fmt.{decimal};
ghost use Rattle.fed_record.specs.JobRecord.{job_reads};
ghost use Rattle.fed_model.specs.Letter.{holder, is_submitted};
ghost use Rattle.fed_board.specs.Board.{board_reads};
ghost use Rattle.fed_easy.specs.Plan.{plan_reads};
ghost use Rattle.fed_qstat.specs.Identifier.{text_of_site};
ghost use Rattle.fed_qstat.specs.JobText.{text_of_holder};
ghost use Rattle.fed_easy.specs.RosterPlan.{plan_in};
ghost use Rattle.fed_looks.specs.Why.{line_of_why, obstacle_of, text_of_begun, text_of_behind, text_of_deleted, text_of_job, text_of_place};

use fed_board::Board;
use fed_easy::{Plan, nodes_of, plan_at};
use fed_lattice::NoMemory;
use fed_qstat::{holder_text, holds_text, identifier_text, site_text};
use fed_record::{Beginning, JobRecord, Moment, Progress};
use fed_stamp::{JobId, Roster, SiteId, Stamp};
use std::alloc::{AllocError, Global};

/// Where a job began, when, and on how many nodes.
fn begun_text(
    alloc: Global,
    roster: &Roster,
    stamp: Stamp,
    beginning: Beginning,
) -> Result<String, AllocError>
    ensures { IfOk result (λ text. string_bytes text ≡ text_of_begun roster.now (stamp, beginning)) }
{
    let site = site_text(alloc, roster, stamp.site())?;
    let moment = beginning.moment.get();
    let nodes = beginning.nodes.get();
    let end = beginning.end;
    format!(in alloc; "begun at {site} since {moment} on {nodes} nodes until {end}")
}

/// The head itself, or a job behind it.
fn behind_text(
    alloc: Global,
    roster: &Roster,
    id: JobId,
    head: JobId,
    second: u64,
) -> Result<String, AllocError>
    ensures { IfOk result (λ text. string_bytes text ≡ text_of_behind roster.now id (head, second)) }
{
    if id == head {
        return format!(in alloc; "head, at {second}");
    }
    let head_id = identifier_text(alloc, roster, head)?;
    format!(in alloc; "waits behind {head_id}, which starts at {second}")
}

/// Where a job of the queue stands in the plan.
fn place_text(alloc: Global, roster: &Roster, id: JobId, plan: &Plan) -> Result<String, AllocError>
    ensures { IfOk result (λ text. string_bytes text ≡ text_of_place roster.now id (Some (plan_reads plan.now))) }
{
    let Some((head, second)) = plan.head else {
        return String::from_str(alloc, "starts");
    };
    if plan.starts.contains(&id) {
        return String::from_str(alloc, "starts");
    }
    behind_text(alloc, roster, id, head, second)
}

/// That a job needs more nodes than the site has.
fn needs_text(alloc: Global, nodes: u64, capacity: u64) -> Result<String, AllocError>
    ensures { IfOk result (λ text. string_bytes text ≡
        codes "needs " ++ decimal nodes ++ codes " of " ++ decimal capacity ++ codes " nodes") }
{
    format!(in alloc; "needs {nodes} of {capacity} nodes")
}

/// That a job is granted to another site.
fn granted_text(alloc: Global, roster: &Roster, job: &JobRecord) -> Result<String, AllocError>
    ensures { IfOk result (λ text. string_bytes text ≡
        codes "granted to " ++ text_of_holder roster.now (holder (job_reads job.now))) }
{
    let name = holder_text(alloc, roster, job)?;
    format!(in alloc; "granted to {name}")
}

/// That a job may not run at the site.
fn elsewhere_text(alloc: Global, roster: &Roster, here: SiteId) -> Result<String, AllocError>
    ensures { IfOk result (λ text. string_bytes text ≡ codes "not for " ++ text_of_site roster.now here) }
{
    let name = site_text(alloc, roster, here)?;
    format!(in alloc; "not for {name}")
}

/// The first thing that keeps a job that has not begun from the queue of the site, if anything does.
fn obstacle(
    alloc: Global,
    roster: &Roster,
    here: SiteId,
    job: &JobRecord,
) -> Result<Option<String>, AllocError>
    requires site { here < length roster.now }
    requires submitted { IsTrue (is_submitted (job_reads job.now)) }
    ensures { IfOk result (λ text. option_map string_bytes text ≡ obstacle_of roster.now here (job_reads job.now)) }
{
    if job.is_held() {
        let text = format!(in alloc; "held {}", holds_text(job))?;
        return Ok(Some(text));
    }
    if job.holder().is_some() && !job.is_granted_to(here) {
        let text = granted_text(alloc, roster, job)?;
        return Ok(Some(text));
    }
    if !job.has_site(here) {
        let text = elsewhere_text(alloc, roster, here)?;
        return Ok(Some(text));
    }
    let nodes = job.nodes().1.get();
    let capacity = nodes_of(roster, here);
    if nodes <= capacity {
        return Ok(None);
    }
    let text = needs_text(alloc, nodes, capacity)?;
    Ok(Some(text))
}

/// What keeps a job that has not begun from the queue of the site, or its place in the site's plan.
fn waiting_text(
    alloc: Global,
    roster: &Roster,
    board: &Board,
    here: SiteId,
    id: JobId,
    moment: Moment,
    job: &JobRecord,
) -> Result<String, NoMemory>
    requires site { here < length roster.now }
    requires submitted { IsTrue (is_submitted (job_reads job.now)) }
    ensures { IfOk result (λ text. string_bytes text ≡ unwrap_or (obstacle_of roster.now here (job_reads job.now))
        (text_of_place roster.now id (plan_in roster.now (board_reads board.now) here moment))) }
{
    if let Some(text) = obstacle(alloc, roster, here, job)? {
        return Ok(text);
    }
    match plan_at(alloc, roster, board, here, moment)? {
        Some(plan) => Ok(place_text(alloc, roster, id, &plan)?),
        None => Ok(String::from_str(alloc, "no plan")?),
    }
}

/// Of a job that was deleted: where it runs, as long as it does.
fn deleted_text(alloc: Global, roster: &Roster, progress: Progress) -> Result<String, AllocError>
    ensures { IfOk result (λ text. string_bytes text ≡ text_of_deleted roster.now progress.finished progress.begun) }
{
    match (progress.finished, progress.begun) {
        (None, Some((stamp, beginning))) => {
            let mut text = begun_text(alloc, roster, stamp, beginning)?;
            text.push_str(", deleted")?;
            Ok(text)
        }
        _ => String::from_str(alloc, "deleted"),
    }
}

/// Why a job that the board has stands where it does.
fn job_text(
    alloc: Global,
    roster: &Roster,
    board: &Board,
    here: SiteId,
    id: JobId,
    moment: Moment,
    job: &JobRecord,
) -> Result<String, NoMemory>
    requires site { here < length roster.now }
    requires submitted { IsTrue (is_submitted (job_reads job.now)) }
    ensures { IfOk result (λ text. string_bytes text ≡
        text_of_job roster.now here id (job_reads job.now) (plan_in roster.now (board_reads board.now) here moment)) }
{
    let progress = job.progress();
    if job.deleted() {
        return Ok(deleted_text(alloc, roster, progress)?);
    }
    if let Some((_, ending)) = progress.finished {
        return Ok(format!(in alloc; "finished {}", ending.status)?);
    }
    if let Some((stamp, beginning)) = progress.begun {
        return Ok(begun_text(alloc, roster, stamp, beginning)?);
    }
    waiting_text(alloc, roster, board, here, id, moment, job)
}

/// Why a job stands where it does at the site, in one line: the first that applies of `unknown`, `deleted`,
/// `finished STATUS`, `begun at SITE since MOMENT on NODES nodes until END`, `held uo`, `granted to SITE` where that is
/// another site, `not for SITE`, `needs 9 of 8 nodes`, and, by the site's plan at the moment, `starts`,
/// `head, at SECOND` and `waits behind ID, which starts at SECOND`; `no plan` where no machine may be as the board has
/// it, which no board of a run has. Of a job that was deleted and still runs it tells where it runs, then `, deleted`.
pub fn why_line(
    alloc: Global,
    roster: &Roster,
    board: &Board,
    here: SiteId,
    id: JobId,
    moment: Moment,
) -> Result<String, NoMemory>
    requires { here < length roster.now }
    ensures { IfOk result (λ text. string_bytes text ≡ line_of_why roster.now (board_reads board.now) here id moment) }
{
    let mut text = match board.job(id) {
        Some(job) => job_text(alloc, roster, board, here, id, moment, job)?,
        None => String::from_str(alloc, "unknown")?,
    };
    text.push_str("\n")?;
    Ok(text)
}

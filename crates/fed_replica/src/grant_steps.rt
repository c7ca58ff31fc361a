//! What is done where sites ask for something at a job: its grant, and what its holder does with it.
ghost use Rattle.std.specs.Prelude.{◌≡◌, ℕ};
ghost use Rattle.fed_model.specs.declared.askers.Who.{Who};
ghost use Rattle.fed_model.specs.declared.commands.Command.{Command};
ghost use Rattle.fed_board.specs.Board.{board_reads};
ghost use Rattle.fed_model.specs.Answer.{answer_to};
ghost use Rattle.fed_replica.specs.Step.{answer_by};

use crate::effects::{beginning, granted_term};
use crate::jobs::{is_held_up, last_term};
use crate::steps::{Step, next_stamp};
use fed_board::Board;
use fed_desk::{Decision, decide_on};
use fed_record::{Ending, JobOperation, Moment, Operation, Refusal, Reply, Term};
use fed_stamp::{JobId, SiteId};

/// Grants the job to the site that asks, as the desk decides, unless the last term there is was handed back.
#[tactic(auto, unfolding(fed_model::specs::Answer::answer_to))]
pub(crate) fn grant(board: &Board, here: SiteId, job: JobId, asker: SiteId) -> Result<Step, Refusal>
    ensures { (who : Who) → answer_by result ≡ answer_to (board_reads board.now) here who (Command.Grant job asker) }
{
    let Some(record) = board.job(job) else {
        return Err(Refusal::UnknownJob);
    };
    match decide_on(record, here, job, asker) {
        Decision::Refused(refusal) => return Err(refusal),
        Decision::Yours => return Ok(Step::Nothing(Reply::Yours)),
        Decision::Grant => {}
    }
    let Some(term) = Term::new(last_term(record) + 1) else {
        return Err(Refusal::ClockFull);
    };
    let at = next_stamp(board, here)?;
    Ok(Step::Adds {
        at,
        operation: Operation::OfJob(job, JobOperation::Grant { site: asker, term }),
        reply: Reply::Granted,
    })
}

/// Hands the grant back.
#[tactic(auto, unfolding(fed_model::specs::Answer::answer_to))]
pub(crate) fn hand_back(board: &Board, here: SiteId, job: JobId) -> Result<Step, Refusal>
    ensures { (who : Who) → answer_by result ≡ answer_to (board_reads board.now) here who (Command.HandBack job) }
{
    let Some(record) = board.job(job) else {
        return Err(Refusal::UnknownJob);
    };
    if record.is_gone() {
        return Err(Refusal::Gone);
    }
    if !record.is_granted_to(here) {
        return Err(Refusal::NotGranted);
    }
    if record.progress().begun.is_some() {
        return Err(Refusal::Begun);
    }
    let at = next_stamp(board, here)?;
    Ok(Step::Adds {
        at,
        operation: Operation::OfJob(
            job,
            JobOperation::HandBack {
                term: granted_term(record),
            },
        ),
        reply: Reply::Done,
    })
}

/// Hands the grant back, also of a job that was deleted before it began.
#[tactic(auto, unfolding(fed_model::specs::Answer::answer_to))]
pub(crate) fn decline(board: &Board, here: SiteId, job: JobId) -> Result<Step, Refusal>
    ensures { (who : Who) → answer_by result ≡ answer_to (board_reads board.now) here who (Command.Decline job) }
{
    let Some(record) = board.job(job) else {
        return Err(Refusal::UnknownJob);
    };
    let progress = record.progress();
    if progress.finished.is_some() {
        return Err(Refusal::Gone);
    }
    let is_granted_here = record.is_granted_to(here);
    if !is_granted_here {
        return Err(Refusal::NotGranted);
    }
    if progress.begun.is_some() {
        return Err(Refusal::Begun);
    }
    let at = next_stamp(board, here)?;
    Ok(Step::Adds {
        at,
        operation: Operation::OfJob(
            job,
            JobOperation::HandBack {
                term: granted_term(record),
            },
        ),
        reply: Reply::Done,
    })
}

/// Begins the job.
#[tactic(auto, unfolding(fed_model::specs::Answer::answer_to))]
pub(crate) fn begin(
    board: &Board,
    here: SiteId,
    job: JobId,
    moment: Moment,
) -> Result<Step, Refusal>
    ensures { (who : Who) → answer_by result ≡ answer_to (board_reads board.now) here who (Command.Begin job moment) }
{
    let Some(record) = board.job(job) else {
        return Err(Refusal::UnknownJob);
    };
    if record.is_gone() {
        return Err(Refusal::Gone);
    }
    if is_held_up(record) {
        return Err(Refusal::Held);
    }
    if !record.is_granted_to(here) {
        return Err(Refusal::NotGranted);
    }
    if record.progress().begun.is_some() {
        return Err(Refusal::Begun);
    }
    let at = next_stamp(board, here)?;
    Ok(Step::Adds {
        at,
        operation: Operation::OfJob(
            job,
            JobOperation::Begin {
                beginning: beginning(record, moment),
            },
        ),
        reply: Reply::Done,
    })
}

/// Finishes the job.
#[tactic(auto, unfolding(fed_model::specs::Answer::answer_to))]
pub(crate) fn finish(
    board: &Board,
    here: SiteId,
    job: JobId,
    moment: Moment,
    status: u8,
) -> Result<Step, Refusal>
    ensures { (who : Who) →
        answer_by result ≡ answer_to (board_reads board.now) here who (Command.Finish job moment status) }
{
    let Some(record) = board.job(job) else {
        return Err(Refusal::UnknownJob);
    };
    if record.is_gone() {
        return Err(Refusal::Gone);
    }
    if !record.is_granted_to(here) {
        return Err(Refusal::NotGranted);
    }
    if record.progress().begun.is_none() {
        return Err(Refusal::NotBegun);
    }
    let at = next_stamp(board, here)?;
    Ok(Step::Adds {
        at,
        operation: Operation::OfJob(
            job,
            JobOperation::Finish {
                ending: Ending { moment, status },
            },
        ),
        reply: Reply::Done,
    })
}

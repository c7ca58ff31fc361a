//! What is done where users ask for something at a job.
ghost use Rattle.std.specs.Prelude.{◌≡◌};
ghost use Rattle.fed_model.specs.declared.commands.Command.{Command};
ghost use Rattle.fed_board.specs.Board.{board_reads};
ghost use Rattle.fed_model.specs.Answer.{answer_to};
ghost use Rattle.fed_replica.specs.Step.{IsStep, answer_by};

use crate::counts::jobs_at;
use crate::effects::{has_hold_among, released, replaced};
use crate::permissions::{may_alter, may_hold_all};
use crate::steps::{Step, next_stamp};
use fed_board::{Board, MAX_JOBS};
use fed_record::{Changes, HoldKinds, JobOperation, JobValues, Operation, Refusal, Reply, Who};
use fed_stamp::{JobId, SiteId};
use std::alloc::Global;

/// Submits a job.
#[tactic(auto, unfolding(fed_model::specs::Answer::answer_to))]
pub(crate) fn submit(
    board: &Board,
    here: SiteId,
    who: &Who,
    values: &JobValues,
    held: bool,
) -> Result<Step, Refusal>
    ensures { answer_by result ≡ answer_to (board_reads board.now) here who.now (Command.Submit values.now held) }
{
    if jobs_at(board, here) >= MAX_JOBS {
        return Err(Refusal::SiteFull);
    }
    let at = next_stamp(board, here)?;
    Ok(Step::Adds {
        at,
        operation: Operation::Submit {
            owner: who.user,
            values: *values,
            held,
        },
        reply: Reply::Submitted(at),
    })
}

/// Sets the values named. Memory is wanted only where they name sites.
#[tactic(auto, unfolding(fed_model::specs::Answer::answer_to))]
pub(crate) fn alter(
    alloc: Global,
    board: &Board,
    here: SiteId,
    who: &Who,
    job: JobId,
    changes: &Changes,
) -> Result<Step, Refusal>
    ensures { let command = Command.Alter job changes.now in
        IsStep (answer_to (board_reads board.now) here who.now command) command result }
{
    let Some(record) = board.job(job) else {
        return Err(Refusal::UnknownJob);
    };
    if !may_alter(who, record) {
        return Err(Refusal::NotPermitted);
    }
    if record.is_gone() {
        return Err(Refusal::Gone);
    }
    if record.holder().is_some() {
        return Err(Refusal::Granted);
    }
    let at = next_stamp(board, here)?;
    let removed = replaced(alloc, record, changes.sites)?;
    Ok(Step::Adds {
        at,
        operation: Operation::OfJob(
            job,
            JobOperation::Set {
                changes: *changes,
                removed,
            },
        ),
        reply: Reply::Done,
    })
}

/// Adds holds of the kinds.
#[tactic(auto, unfolding(fed_model::specs::Answer::answer_to))]
pub(crate) fn hold(
    board: &Board,
    here: SiteId,
    who: &Who,
    job: JobId,
    kinds: HoldKinds,
) -> Result<Step, Refusal>
    ensures { answer_by result ≡ answer_to (board_reads board.now) here who.now (Command.Hold job kinds) }
{
    let Some(record) = board.job(job) else {
        return Err(Refusal::UnknownJob);
    };
    if !may_hold_all(who, record, kinds) {
        return Err(Refusal::NotPermitted);
    }
    if record.is_gone() {
        return Err(Refusal::Gone);
    }
    if record.holder().is_some() {
        return Err(Refusal::Granted);
    }
    let at = next_stamp(board, here)?;
    Ok(Step::Adds {
        at,
        operation: Operation::OfJob(job, JobOperation::Hold { kinds }),
        reply: Reply::Done,
    })
}

/// Removes the live holds of the kinds, for which memory is wanted. Where there are none it adds nothing.
#[tactic(auto, unfolding(fed_model::specs::Answer::answer_to))]
pub(crate) fn release(
    alloc: Global,
    board: &Board,
    here: SiteId,
    who: &Who,
    job: JobId,
    kinds: HoldKinds,
) -> Result<Step, Refusal>
    ensures { let command = Command.Release job kinds in
        IsStep (answer_to (board_reads board.now) here who.now command) command result }
{
    let Some(record) = board.job(job) else {
        return Err(Refusal::UnknownJob);
    };
    if !may_hold_all(who, record, kinds) {
        return Err(Refusal::NotPermitted);
    }
    if record.is_gone() {
        return Err(Refusal::Gone);
    }
    if !has_hold_among(record, kinds) {
        return Ok(Step::Nothing(Reply::Done));
    }
    let at = next_stamp(board, here)?;
    let removed = released(alloc, record, kinds)?;
    Ok(Step::Adds {
        at,
        operation: Operation::OfJob(job, JobOperation::Release { removed }),
        reply: Reply::Done,
    })
}

/// Deletes the job.
#[tactic(auto, unfolding(fed_model::specs::Answer::answer_to))]
pub(crate) fn delete(board: &Board, here: SiteId, who: &Who, job: JobId) -> Result<Step, Refusal>
    ensures { answer_by result ≡ answer_to (board_reads board.now) here who.now (Command.Delete job) }
{
    let Some(record) = board.job(job) else {
        return Err(Refusal::UnknownJob);
    };
    if !may_alter(who, record) {
        return Err(Refusal::NotPermitted);
    }
    if record.is_gone() {
        return Err(Refusal::Gone);
    }
    let at = next_stamp(board, here)?;
    Ok(Step::Adds {
        at,
        operation: Operation::OfJob(job, JobOperation::Delete),
        reply: Reply::Done,
    })
}

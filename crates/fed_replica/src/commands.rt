//! What a site does where a command comes.
ghost use Rattle.fed_board.specs.Board.{board_reads};
ghost use Rattle.fed_model.specs.Answer.{answer_to};
ghost use Rattle.fed_replica.specs.Step.{IsStep};

use crate::grant_steps::{begin, decline, finish, grant, hand_back};
use crate::job_steps::{alter, delete, hold, release, submit};
use crate::reservation_steps::{cancel, reserve};
use crate::retire_steps::retire;
use crate::steps::Step;
use fed_board::Board;
use fed_record::{Command, Refusal, Who};
use fed_stamp::SiteId;
use std::alloc::Global;

/// What the site does where the command comes, or the refusal with the least number that applies. The error is
/// `NoMemory` only where an operation would be added that has a list: by an Alter that names sites, or a Release.
pub(crate) fn next_step(
    alloc: Global,
    board: &Board,
    here: SiteId,
    who: &Who,
    command: &Command,
) -> Result<Step, Refusal>
    ensures { IsStep (answer_to (board_reads board.now) here who.now command.now) command.now result }
{
    match command {
        Command::Submit { values, held } => submit(board, here, who, values, *held),
        Command::Alter { job, changes } => alter(alloc, board, here, who, *job, changes),
        Command::Hold { job, kinds } => hold(board, here, who, *job, *kinds),
        Command::Release { job, kinds } => release(alloc, board, here, who, *job, *kinds),
        Command::Delete { job } => delete(board, here, who, *job),
        Command::Grant { job, asker } => grant(board, here, *job, *asker),
        Command::HandBack { job } => hand_back(board, here, *job),
        Command::Decline { job } => decline(board, here, *job),
        Command::Begin { job, moment } => begin(board, here, *job, *moment),
        Command::Finish {
            job,
            moment,
            status,
        } => finish(board, here, *job, *moment, *status),
        Command::Reserve { window } => reserve(board, here, who, window),
        Command::Cancel { reservation } => cancel(board, here, who, *reservation),
        Command::Retire { first, last } => retire(board, here, *first, *last),
    }
}

//! Laws of looks. Each function does nothing: its contract is the law.
ghost use Rattle.std.specs.Prelude.{◌↔◌, ℕ, IsTrue, List};
ghost use Rattle.fed_stamp.specs.Roster.{nodes_at};
ghost use Rattle.fed_stamp.specs.Stamp.{StampValue};
ghost use Rattle.fed_board.specs.Board.{board_reads};
ghost use Rattle.fed_model.specs.Letter.{is_submitted};
ghost use Rattle.fed_looks.specs.Why.{HasPlace, IsQueued};

use fed_board::Board;

/// `why` tells the place in the plan exactly of the jobs that are in the queue: nothing else keeps a job from it, and no job
/// that something keeps is in it.
pub fn jobs_with_a_place_are_queued(board: &Board)
    ensures { (roster : List (List ℕ × ℕ)) (here : ℕ) (id : StampValue) → let job = (board_reads board.now).job id in
        (IsTrue (is_submitted job) × HasPlace roster here job) ↔ IsQueued here (nodes_at roster here) (board_reads board.now) id }
{
    let _jobs = board.jobs();
}

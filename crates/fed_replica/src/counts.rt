//! That the counts which a board keeps are those that refusals look at.
ghost use Rattle.std.specs.Prelude.{◌≡◌};
ghost use Rattle.std.specs.Map.{keys_of};
ghost use Rattle.fed_board.specs.Board.{board_reads};
ghost use Rattle.fed_board.specs.Counts.{ids_of};
ghost use Rattle.fed_model.specs.Origin.{jobs_of, reservations_of};

use fed_board::{Board, board_is_covered, board_is_in_order};
use fed_stamp::SiteId;

/// What `Board::job_count` and `Board::reservation_count` answer is what a site's limits are held against.
pub fn counts_are_read(board: &Board, site: SiteId)
    ensures jobs { ids_of site (keys_of board.now.jobs) ≡ jobs_of (board_reads board.now) site }
    ensures reservations { ids_of site (keys_of board.now.reservations) ≡ reservations_of (board_reads board.now) site }
{
    board_is_covered(board);
    board_is_in_order(board);
}

/// How many jobs were submitted at the site, those that are gone among them.
pub(crate) fn jobs_at(board: &Board, site: SiteId) -> u64
    ensures { result ≡ jobs_of (board_reads board.now) site }
{
    counts_are_read(board, site);
    board.job_count(site)
}

/// How many reservations were made at the site, those that are cancelled among them.
pub(crate) fn reservations_at(board: &Board, site: SiteId) -> u64
    ensures { result ≡ reservations_of (board_reads board.now) site }
{
    counts_are_read(board, site);
    board.reservation_count(site)
}

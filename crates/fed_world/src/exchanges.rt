//! That sites which hold the same operations have equal boards, and that an exchange brings all sites there.
ghost use Rattle.std.specs.Prelude.{◌≡◌, ◌<◌, ◌≤◌, ◌++◌, ℕ, List};
ghost use Rattle.fed_stamp.specs.declared.sites.TheConstants.{SITES};
ghost use Rattle.fed_lattice.specs.Sets.{IsSameSet};
ghost use Rattle.fed_lattice.specs.VersionOf.{version_of};
ghost use Rattle.fed_board.specs.Board.{board_reads};
ghost use Rattle.fed_model.specs.View.{view};
ghost use Rattle.fed_model.specs.Packet.{Packet as RunPacket};
ghost use Rattle.fed_model.specs.declared.events.Event.{Event};
ghost use Rattle.fed_model.specs.Exchange.{IsExchange};
ghost use Rattle.fed_world.specs.Kept.{IsSentOf};
ghost use Rattle.fed_model.specs.Run.{run};

use fed_board::{Board, boards_that_read_the_same_are_equal, records_that_read_the_same_are_equal};
use fed_delta::Packet;
use fed_theory::run_laws::exchanges_converge;

/// Where two sites hold the same operations, their boards are equal, however the operations came.
pub fn same_sets_have_equal_boards(x: &Board, y: &Board)
    ensures { (n : ℕ) (events : List Event) → n ≤ SITES → (a b : ℕ) → board_reads x.now ≡ view ((run n events).site a).set →
        board_reads y.now ≡ view ((run n events).site b).set →
        IsSameSet ((run n events).site a).set ((run n events).site b).set → x.now ≡ y.now }
{
    boards_that_read_the_same_are_equal(x, y);
}

/// Where the versions of two sites are the same, the sites hold the same operations. So versions alone tell whether two
/// sites have equal boards.
pub fn versions_tell_equal_boards(x: &Board, y: &Board)
    ensures sets { (n : ℕ) (events : List Event) → n ≤ SITES → (a b : ℕ) →
        version_of ((run n events).site a).set ≡ version_of ((run n events).site b).set →
        IsSameSet ((run n events).site a).set ((run n events).site b).set }
    ensures boards { (n : ℕ) (events : List Event) → n ≤ SITES → (a b : ℕ) → board_reads x.now ≡ view ((run n events).site a).set →
        board_reads y.now ≡ view ((run n events).site b).set → x.now.version ≡ y.now.version → x.now ≡ y.now }
{
    same_sets_have_equal_boards(x, y);
}

/// Two packets that are sent of the same packet of a run are equal: there is one text of it.
pub fn one_packet_is_sent(x: &Packet, y: &Packet)
    ensures { (p : RunPacket) → IsSentOf p x.now → IsSentOf p y.now → x.now ≡ y.now }
{
    records_that_read_the_same_are_equal(x.delta().changes(), y.delta().changes());
}

/// Once no command is done any more and each site has made a packet for each other, which took it, all boards are equal,
/// whatever was lost, repeated or reordered before and meanwhile.
pub fn exchanged_boards_are_equal(x: &Board, y: &Board)
    ensures { (n : ℕ) (early late : List Event) → n ≤ SITES → IsExchange n early late → (a b : ℕ) → a < n → b < n →
        board_reads x.now ≡ view ((run n (early ++ late)).site a).set →
        board_reads y.now ≡ view ((run n (early ++ late)).site b).set → x.now ≡ y.now }
{
    same_sets_have_equal_boards(x, y);
    exchanges_converge();
}

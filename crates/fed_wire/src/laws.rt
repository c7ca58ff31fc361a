//! Which packets are within limits. The function changes nothing: its contract is the law.
ghost use Rattle.std.specs.Prelude.{◌≡◌, ℕ, List};
ghost use Rattle.fed_stamp.specs.Version.{met};
ghost use Rattle.fed_lattice.specs.History.{History};
ghost use Rattle.fed_lattice.specs.VersionOf.{version_of};
ghost use Rattle.fed_model.specs.Body.{Body};
ghost use Rattle.fed_board.specs.Board.{board_reads};
ghost use Rattle.fed_model.specs.Lawful.{IsLawful};
ghost use Rattle.fed_model.specs.View.{view};
ghost use Rattle.fed_theory.specs.Cut.{cut};
ghost use Rattle.fed_job_json.specs.declared.formats.Format.TheVariants.{Two};
ghost use Rattle.fed_model.specs.Limits.{IsWithinLimits};
ghost use Rattle.fed_wire.specs.Packet.{IsPacket};

use fed_board::{records_are_covered, records_are_in_order};
use fed_delta::{Packet, sender_is_in_range};
use fed_stamp::version_is_in_range;

/// A packet of what a board tells is within limits in the format in which it is written, where the board stands for a
/// lawful set of operations whose values are in range, and in which no site has named too many jobs or reservations or
/// has retired too many ranges. So its text is read as the packet again (`written_packets_are_read_again`).
pub fn told_packets_are_within_limits(packet: &Packet)
    ensures { (ops : History Body) (seen : List ℕ) → IsLawful ops → IsWithinLimits ops →
        packet.now.delta.need ≡ met seen (version_of ops) →
        board_reads packet.now.delta.changes ≡ cut (view ops) packet.now.delta.need → IsPacket Two packet.now }
{
    sender_is_in_range(packet);
    let delta = packet.delta();
    version_is_in_range(&delta.need());
    version_is_in_range(&delta.reached());
    let changes = delta.changes();
    records_are_covered(changes);
    records_are_in_order(changes);
}

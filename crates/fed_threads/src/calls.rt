//! What calls do to a site whose lock is held, and to the seat. Each has the whole contract of both.
ghost use Rattle.std.specs.Prelude.{◌≡◌, ◌≢◌, Ok, Err, IfOk, OnErr, IfErr, None, Some, length};
ghost use Rattle.fed_board.specs.Board.{board_reads};
ghost use Rattle.fed_model.specs.declared.refusals.Refusal.{Refusal};
ghost use Rattle.fed_threads.specs.Calls.{IsFaultOf, Steps, LooksAt};
ghost use Rattle.fed_replica.specs.State.{IsMadeFor};
ghost use Rattle.fed_model.specs.Outcome.{outcome_of};
ghost use Rattle.fed_replica.specs.Outcome.{outcome_of_received};
ghost use Rattle.fed_threads.specs.Replay.{replay};
ghost use Rattle.fed_threads.specs.Seat.{known_by};
ghost use Rattle.fed_threads.specs.declared.journal.Asked.TheVariants.{Do, Ship, Take};
ghost use Rattle.fed_model.specs.declared.outcomes.Outcome.TheVariants as Outcome;

use crate::fault::CallFault;
use crate::journal::{Asked, Claim};
use crate::locked_sites::{LockedSite, outcome_of};
use crate::parcel::Parcel;
use crate::seat::Seat;
use fed_board::Board;
use fed_record::{Command, Refusal, Reply, Who};
use fed_replica::Received;
use fed_stamp::SiteId;
use fed_world::Outcome;

/// Asks a site whose lock is held to do a command.
pub(crate) fn call_in(
    locked: &mut LockedSite,
    site: SiteId,
    who: &Who,
    command: &Command,
    seat: &mut Seat,
) -> Result<Result<Reply, Refusal>, CallFault>
    ensures ok { IfOk result (λ said. Steps locked.old locked.new (known_by seat.old) (known_by seat.new) site
        (Do site who.now command.now) None (outcome_of said)) }
    ensures told { result ≢ Ok (Err Refusal.NoMemory) }
    ensures err { OnErr result ((locked.new ≡ locked.old) × (known_by seat.new ≡ known_by seat.old)) }
    ensures behind { IfErr result (IsFaultOf locked.old (known_by seat.old) site) }
{
    let index = locked.len();
    seat.check(site, index, locked.version())?;
    seat.reserve()?;
    let said = locked.call(site, who, command)?;
    let claim = Claim {
        site,
        index,
        outcome: outcome_of(&said),
    };
    let asked = Asked::Do {
        site,
        who: *who,
        command: *command,
    };
    seat.claim(&claim, locked.len(), locked.version(), &asked);
    Ok(said)
}

/// A copy of the board of a site whose lock is held.
pub(crate) fn look_in(
    locked: &LockedSite,
    site: SiteId,
    seat: &mut Seat,
) -> Result<Board, CallFault>
    ensures ok { IfOk result (λ b. LooksAt locked.now (known_by seat.old) (known_by seat.new) site (board_reads b)) }
    ensures err { OnErr result (known_by seat.new ≡ known_by seat.old) }
    ensures behind { IfErr result (IsFaultOf locked.now (known_by seat.old) site) }
{
    let found = locked.len();
    let version = locked.version();
    seat.check(site, found, version)?;
    let board = locked.board()?;
    seat.look(site, found, version);
    Ok(board)
}

/// Makes a parcel at a site whose lock is held.
pub(crate) fn ship_in(
    locked: &mut LockedSite,
    site: SiteId,
    to: SiteId,
    seat: &mut Seat,
) -> Result<Parcel, CallFault>
    ensures ok { IfOk result (λ p. Steps locked.old locked.new (known_by seat.old) (known_by seat.new) site (Ship site to)
        None (Outcome.Packet p.place)) }
    ensures parcel { IfOk result (λ p. (p.sender ≡ site) × (p.place ≡ length locked.old.entries) ×
        IsMadeFor (replay locked.old) to p.packet) }
    ensures err { OnErr result ((locked.new ≡ locked.old) × (known_by seat.new ≡ known_by seat.old)) }
    ensures behind { IfErr result (IsFaultOf locked.old (known_by seat.old) site) }
{
    let place = locked.len();
    seat.check(site, place, locked.version())?;
    seat.reserve()?;
    let packet = locked.ship(site, to)?;
    let claim = Claim {
        site,
        index: place,
        outcome: Outcome::Packet(place),
    };
    seat.claim(
        &claim,
        locked.len(),
        locked.version(),
        &Asked::Ship { site, to },
    );
    Ok(Parcel {
        sender: site,
        place,
        packet,
    })
}

/// Takes a parcel at a site whose lock is held.
pub(crate) fn take_in(
    locked: &mut LockedSite,
    site: SiteId,
    parcel: Parcel,
    seat: &mut Seat,
) -> Result<Received, CallFault>
    ensures ok { IfOk result (λ r. Steps locked.old locked.new (known_by seat.old) (known_by seat.new) site
        (Take site parcel.sender parcel.place) (Some parcel.packet) (outcome_of_received r)) }
    ensures err { OnErr result ((locked.new ≡ locked.old) × (known_by seat.new ≡ known_by seat.old)) }
    ensures behind { IfErr result (IsFaultOf locked.old (known_by seat.old) site) }
{
    let Parcel {
        sender,
        place,
        packet,
    } = parcel;
    let index = locked.len();
    seat.check(site, index, locked.version())?;
    seat.reserve()?;
    let received = locked.take(site, sender, place, packet)?;
    let claim = Claim {
        site,
        index,
        outcome: received.outcome(),
    };
    let asked = Asked::Take {
        site,
        sender,
        place,
    };
    seat.claim(&claim, locked.len(), locked.version(), &asked);
    Ok(received)
}

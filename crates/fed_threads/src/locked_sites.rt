//! What lies under a site's lock.
ghost use Rattle.std.specs.Prelude.{◌≡◌, ◌≢◌, ◌<◌, ◌++◌, ◌∷◌, [], Ok, Err, IfOk, OnOk, OnErr, None, Some, length, vec_capacity, vec_len};
ghost use Rattle.fed_board.specs.Board.{board_reads};
ghost use Rattle.fed_model.specs.declared.refusals.Refusal.{Refusal};
ghost use Rattle.fed_stamp.specs.Version.{IsVersion};
ghost use Rattle.fed_replica.specs.State.{IsMadeFor};
ghost use Rattle.fed_model.specs.Outcome.{outcome_of};
ghost use Rattle.fed_replica.specs.Outcome.{outcome_of_received};
ghost use Rattle.fed_threads.specs.Replay.{replay, Appends};
ghost use Rattle.fed_threads.specs.Seat.{NamesSite};
ghost use Rattle.fed_threads.specs.declared.journal.Asked.TheVariants.{Do, Ship, Take};
ghost use Rattle.fed_model.specs.declared.outcomes.Outcome.TheVariants as Outcome;

use crate::journal::{Asked, Entry};
use fed_board::Board;
use fed_delta::{Packet, sender_is_in_range};
use fed_lattice::NoMemory;
use fed_record::{Command, Refusal, Reply, Who};
use fed_replica::{Received, Replica};
use fed_stamp::{SiteId, Version, site_is_in_range, version_is_in_range};
use fed_world::Outcome;
use std::alloc::Global;
use std::marker::Model;

/// What lies under a site's lock: its replica, and the journal whose replay is that replica. Contracts see whose journal
/// it is and its entries: what the replica is follows from these.
#[derive(Drop)]
pub(crate) struct LockedSite {
    replica: Replica,
    journal: Vec<Entry>,
}

impl Model for LockedSite {
    ghost use Rattle.fed_threads.specs.Replay.{Kept, IsReplayed};

    ghost Value = { Kept };

    ghost view = { λ s. record { site = s.replica.site; entries = s.journal.items } };

    ghost invariant = { λ s. IsReplayed s.replica s.journal.items };
}

/// An identifier that is replied is of one of the 16 sites, as its type keeps it.
fn replies_name_sites(said: &Result<Reply, Refusal>)
    ensures { NamesSite (outcome_of said.now) }
{
    if let Ok(Reply::Submitted(id) | Reply::Reserved(id)) = said {
        site_is_in_range(id.site());
    }
}

/// Adds the entry, for which there is room.
fn keep(journal: &mut Vec<Entry>, asked: Asked, packet: Option<Packet>, outcome: Outcome)
    requires { vec_len journal.old < vec_capacity journal.old }
    ensures { journal.new.items ≡ journal.old.items ++ record { asked = asked; packet = packet; outcome = outcome } ∷ [] }
{
    journal.push_reserved(Entry {
        asked,
        packet,
        outcome,
    });
}

/// What is said to a command, as an outcome.
pub(crate) fn outcome_of(said: &Result<Reply, Refusal>) -> Outcome
    ensures { result ≡ outcome_of said.now }
{
    match said {
        Ok(reply) => Outcome::Replied(*reply),
        Err(refusal) => Outcome::Refused(*refusal),
    }
}

impl LockedSite {
    /// A site with an empty replica and an empty journal.
    pub(crate) fn new(alloc: Global, site: SiteId) -> LockedSite
        ensures { result ≡ record { site = site; entries = [] } }
    {
        LockedSite {
            replica: Replica::new(alloc, site),
            journal: Vec::new(alloc),
        }
    }

    /// How many entries the journal has.
    pub(crate) fn len(&self) -> u64
        ensures { result ≡ length self.now.entries }
    {
        self.journal.len() as u64
    }

    /// The version of the board.
    pub(crate) fn version(&self) -> Version
        ensures value { result ≡ (replay self.now).view.version }
        ensures counters { IsVersion result }
    {
        let version = self.replica.board().version();
        version_is_in_range(&version);
        version
    }

    /// A copy of the board.
    pub(crate) fn board(&self) -> Result<Board, NoMemory>
        ensures { IfOk result (λ b. board_reads b ≡ (replay self.now).view) }
    {
        self.replica.board().copy()
    }

    /// Runs a command: what the replica says is kept in the journal, a refusal too. Where memory is refused, nothing
    /// changes.
    pub(crate) fn call(
        &mut self,
        site: SiteId,
        who: &Who,
        command: &Command,
    ) -> Result<Result<Reply, Refusal>, NoMemory>
        ensures ok { IfOk result (λ said. Appends self.old self.new (Do site who.now command.now) None (outcome_of said)) }
        ensures named { IfOk result (λ said. NamesSite (outcome_of said)) }
        ensures told { result ≢ Ok (Err Refusal.NoMemory) }
        ensures err { OnErr result (self.new ≡ self.old) }
    {
        self.journal.reserve(1)?;
        let answered = self.replica.answer(who, command)?;
        let said = answered.said;
        replies_name_sites(&said);
        let outcome = outcome_of(&said);
        let asked = Asked::Do {
            site,
            who: *who,
            command: *command,
        };
        keep(&mut self.journal, asked, None, outcome);
        Ok(said)
    }

    /// Makes a packet for another site. Its place in the journal is the length before.
    pub(crate) fn ship(&mut self, site: SiteId, to: SiteId) -> Result<Packet, NoMemory>
        ensures packet { IfOk result (λ p. IsMadeFor (replay self.old) to p) }
        ensures ok { OnOk result (Appends self.old self.new (Ship site to) None (Outcome.Packet (length self.old.entries))) }
        ensures err { OnErr result (self.new ≡ self.old) }
    {
        self.journal.reserve(1)?;
        let packet = self.replica.ship(to)?;
        let outcome = Outcome::Packet(self.journal.len() as u64);
        keep(&mut self.journal, Asked::Ship { site, to }, None, outcome);
        Ok(packet)
    }

    /// Takes a packet, which the journal keeps, also where the site lacks something that it needs. Where memory is
    /// refused, the packet is dropped and nothing changes.
    pub(crate) fn take(
        &mut self,
        site: SiteId,
        sender: SiteId,
        place: u64,
        packet: Packet,
    ) -> Result<Received, NoMemory>
        ensures ok { IfOk result (λ r. Appends self.old self.new (Take site sender place) (Some packet) (outcome_of_received r)) }
        ensures err { OnErr result (self.new ≡ self.old) }
    {
        self.journal.reserve(1)?;
        sender_is_in_range(&packet);
        let received = self.replica.receive(&packet)?;
        let asked = Asked::Take {
            site,
            sender,
            place,
        };
        keep(&mut self.journal, asked, Some(packet), received.outcome());
        Ok(received)
    }

    /// The replica and the journal, taken apart.
    pub(crate) fn into_parts(self) -> (Replica, Vec<Entry>)
        ensures { result.1.items ≡ self.entries }
    {
        let LockedSite { replica, journal } = self;
        (replica, journal)
    }
}

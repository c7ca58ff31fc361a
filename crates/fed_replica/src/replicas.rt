//! Replicas: the boards of sites, and what was heard from other sites.
ghost use Rattle.std.specs.Prelude.{◌≡◌, ◌≢◌, ◌↔◌, ◌<◌, ◌++◌, ℕ, [], true, false, not, replicate, None, Err, IfOk, IfErr, OnOk, OnErr, IsTrue};
ghost use Rattle.fed_stamp.specs.declared.sites.TheConstants.{SITES};
ghost use Rattle.fed_stamp.specs.Version.{is_below, joined, met};
ghost use Rattle.fed_lattice.specs.History.{History};
ghost use Rattle.fed_model.specs.Body.{Body};
ghost use Rattle.fed_board.specs.Board.{board_reads, empty_board};
ghost use Rattle.fed_model.specs.Lawful.{AreKin};
ghost use Rattle.fed_model.specs.View.{view};
ghost use Rattle.fed_theory.specs.ViewSteps.{join_records};
ghost use Rattle.fed_delta.specs.Absorb.{IsFaultOf};
ghost use Rattle.fed_theory.specs.Cut.{cut};
ghost use Rattle.fed_model.specs.Answer.{answer_to};
ghost use Rattle.fed_model.specs.declared.refusals.Refusal.{Refusal};
ghost use Rattle.fed_stamp.specs.Indexes.{put};
ghost use Rattle.fed_replica.specs.declared.answers.Received.{Received};
ghost use Rattle.fed_replica.specs.Outcome.{adds, outcome_of_packet_unless, outcome_of_received, said_by};
ghost use Rattle.fed_replica.specs.State.{after_answer, after_packet_unless, hearing as hearing_of, lacking, state_of};

use crate::answers::{Answered, Received, refused};
use crate::commands::next_step;
use crate::steps::Step;
use fed_board::{Board, Records, boards_that_read_the_same_are_equal};
use fed_delta::{Absorb, Delta, Packet, absorb, delta_since, sender_is_in_range};
use fed_lattice::{Causal, NoMemory, Table};
use fed_model::Taken;
use fed_record::{Command, Refusal, Reply, Who};
use fed_stamp::{SITES, SiteId, Version, site_is_in_range};
use std::alloc::Global;
use std::marker::Model;

/// What a site keeps: its board, and of each site the version that was heard from it.
#[derive(Drop)]
pub struct Replica {
    alloc: Global,
    site: SiteId,
    board: Board,
    // for each site, by its number
    heard: [Version; SITES],
}

impl Model for Replica {
    ghost use Rattle.std.specs.Prelude.{◌≡◌, length};
    ghost use Rattle.fed_stamp.specs.declared.sites.TheConstants.{SITES};
    ghost use Rattle.fed_replica.specs.Replica.{ReplicaValue};

    ghost Value = { ReplicaValue };

    ghost view = { λ r. record { site = r.site; board = r.board; heard = r.heard } };

    ghost invariant = { λ r. length r.heard ≡ SITES };
}

/// Whether the same was heard of each site.
fn is_heard_the_same(one: &[Version; SITES], other: &[Version; SITES]) -> bool
    ensures { IsTrue result ↔ (one.now ≡ other.now) }
{
    one == other
}

impl Replica {
    ghost use Rattle.fed_replica.specs.Replica.{IsDone, heard_from};

    /// The replica of a site that has no operation and has heard nothing.
    pub fn new(alloc: Global, site: SiteId) -> Replica
        ensures site { result.site ≡ site }
        ensures board { result.board ≡ empty_board }
        ensures heard { result.heard ≡ replicate SITES (replicate SITES 0) }
        ensures stands { board_reads result.board ≡ view [] }
    {
        Replica {
            alloc,
            site,
            board: Board::new(alloc),
            heard: [Version::default(); SITES],
        }
    }

    /// The replica of a site whose board has these records and no others, and that has heard nothing.
    pub fn holding(alloc: Global, site: SiteId, records: Records) -> Replica
        ensures site { result.site ≡ site }
        ensures board { result.board ≡ records }
        ensures heard { result.heard ≡ replicate SITES (replicate SITES 0) }
    {
        Replica {
            alloc,
            site,
            board: Board::from_records(alloc, records),
            heard: [Version::default(); SITES],
        }
    }

    /// An equal replica. The only error is `NoMemory`.
    pub fn copy(&self) -> Result<Replica, NoMemory>
        ensures { IfOk result (λ r. r ≡ self.now) }
    {
        Ok(Replica {
            alloc: self.alloc,
            site: self.site,
            board: self.board.copy()?,
            heard: self.heard,
        })
    }

    /// The site.
    pub fn site(&self) -> SiteId
        ensures { result ≡ self.now.site }
    {
        self.site
    }

    /// The board.
    pub fn board(&self) -> &Board
        ensures { result.now ≡ self.now.board }
    {
        &self.board
    }

    /// The version that was heard from the site: what it had when it made the packets that were taken from it.
    pub fn heard(&self, from: SiteId) -> Version
        ensures { result ≡ heard_from self.now from }
    {
        self.heard[from.get() as usize]
    }

    /// Answers the command: it is done, if no refusal applies; else the refusal with the least number is said. A refusal,
    /// and a command that adds no operation, is decided before any allocation, so that memory is wanted only where an
    /// operation would be added. Where none is added, the replica is as before.
    pub fn answer(&mut self, who: &Who, command: &Command) -> Result<Answered, NoMemory>
        ensures said { IfOk result
            (λ a. a.said ≡ said_by (answer_to (board_reads self.old.board) self.old.site who.now command.now)) }
        ensures told { IfOk result (λ a. a.said ≢ Err Refusal.NoMemory) }
        ensures added { IfOk result
            (λ a. a.added ≡ adds (answer_to (board_reads self.old.board) self.old.site who.now command.now)) }
        ensures left { OnOk result (state_of self.new ≡ after_answer (state_of self.old)
            (answer_to (board_reads self.old.board) self.old.site who.now command.now)) }
        ensures still { IfOk result (λ a. a.added ≡ false → self.new ≡ self.old) }
        ensures site { self.new.site ≡ self.old.site }
        ensures heard { self.new.heard ≡ self.old.heard }
        ensures memory { OnErr result
            (adds (answer_to (board_reads self.old.board) self.old.site who.now command.now) ≡ true) }
        ensures unchanged { OnErr result (self.new ≡ self.old) }
    {
        match next_step(self.alloc, &self.board, self.site, who, command) {
            Ok(step) => match step {
                Step::Adds {
                    at,
                    operation,
                    reply,
                } => {
                    self.board.apply(at, &operation)?;
                    Ok(Answered {
                        said: Ok(reply),
                        added: true,
                    })
                }
                Step::Nothing(reply) => Ok(Answered {
                    said: Ok(reply),
                    added: false,
                }),
            },
            Err(refusal) => refused(refusal),
        }
    }

    /// Does the command, if no refusal applies, and replies to it; else it answers the refusal with the least number. A
    /// refusal, and a command that adds no operation, is decided before any allocation, so that `NoMemory` is answered only
    /// where an operation would be added. On an error the replica is as before.
    pub fn act(&mut self, who: &Who, command: &Command) -> Result<Reply, Refusal>
        ensures done { IsDone (answer_to (board_reads self.old.board) self.old.site who.now command.now)
            (board_reads self.old.board) result (board_reads self.new.board) }
        ensures site { self.new.site ≡ self.old.site }
        ensures heard { self.new.heard ≡ self.old.heard }
        ensures unchanged { OnErr result (self.new ≡ self.old) }
    {
        let answered = self.answer(who, command)?;
        answered.said
    }

    /// Whether the other replica is identical: of the same site, with the same board, and the same was heard. All that a
    /// replica has is read of it, so that those that read the same are identical.
    pub fn is_same(&self, other: &Replica) -> bool
        ensures same { IsTrue result ↔ (self.now ≡ other.now) }
        ensures read { IsTrue result ↔ (state_of self.now ≡ state_of other.now) }
    {
        boards_that_read_the_same_are_equal(&self.board, &other.board);
        if self.site != other.site || self.board != other.board {
            return false;
        }
        is_heard_the_same(&self.heard, &other.heard)
    }

    /// The packet of all that the board tells, as for a site that has seen nothing.
    pub fn whole(&self) -> Result<Packet, NoMemory>
        ensures sender { IfOk result (λ p. p.sender ≡ self.now.site) }
        ensures need { IfOk result (λ p. p.delta.need ≡ met (replicate SITES 0) self.now.board.version) }
        ensures reached { IfOk result (λ p. p.delta.changes.version ≡ self.now.board.version) }
        ensures cut { IfOk result (λ p. board_reads p.delta.changes ≡ cut (board_reads self.now.board) p.delta.need) }
    {
        let delta = delta_since(self.alloc, &self.board, &Version::default())?;
        Ok(Packet::new(self.site, delta))
    }

    /// The packet of another site that tells nothing but that it has seen what was heard from it. Taken by a replica that
    /// has heard nothing, it restores what was heard from that site.
    pub fn hearing(&self, from: SiteId) -> Packet
        ensures { result ≡ hearing_of (state_of self.now) from }
    {
        site_is_in_range(from);
        let heard = self.heard(from);
        let delta = Delta::from_parts(
            heard,
            heard,
            Table::bottom(self.alloc),
            Table::bottom(self.alloc),
            Table::bottom(self.alloc),
        );
        Packet::new(from, delta)
    }

    /// The packet for the site: what the board tells that was not heard from there.
    pub fn ship(&self, to: SiteId) -> Result<Packet, NoMemory>
        ensures sender { IfOk result (λ p. p.sender ≡ self.now.site) }
        ensures need { IfOk result (λ p. p.delta.need ≡ met (heard_from self.now to) self.now.board.version) }
        ensures reached { IfOk result (λ p. p.delta.changes.version ≡ self.now.board.version) }
        ensures cut { IfOk result (λ p. board_reads p.delta.changes ≡ cut (board_reads self.now.board) p.delta.need) }
    {
        let delta = delta_since(self.alloc, &self.board, &self.heard(to))?;
        Ok(Packet::new(self.site, delta))
    }

    /// Takes the packet in, where the replica lacks nothing that it needs; else it says of which site something is lacked,
    /// and the replica is as before.
    pub fn receive(&mut self, packet: &Packet) -> Result<Received, NoMemory>
        ensures said { IfOk result (λ r. outcome_of_received r ≡
            outcome_of_packet_unless (lacking (state_of self.old) packet.now) (state_of self.old) packet.now) }
        ensures left { OnOk result (state_of self.new ≡
            after_packet_unless (lacking (state_of self.old) packet.now) (state_of self.old) packet.now) }
        ensures still { IfOk result (λ r. (lacks : ℕ) → r ≡ Received.Gap lacks → self.new ≡ self.old) }
        ensures stands { OnOk result ((ops others : History Body) → lacking (state_of self.old) packet.now ≡ None →
            AreKin ops others → board_reads self.old.board ≡ view ops →
            board_reads packet.now.delta.changes ≡ cut (view others) packet.now.delta.need →
            board_reads self.new.board ≡ view (ops ++ others)) }
        ensures site { self.new.site ≡ self.old.site }
        ensures memory { OnErr result (lacking (state_of self.old) packet.now ≡ None) }
        ensures unchanged { OnErr result (self.new ≡ self.old) }
    {
        sender_is_in_range(packet);
        match self.take(packet) {
            Ok(taken) => Ok(Received::Taken(taken)),
            Err(fault) => match fault {
                Absorb::Gap { missing } => {
                    site_is_in_range(missing);
                    Ok(Received::Gap(missing))
                }
                Absorb::NoMemory => Err(NoMemory),
            },
        }
    }

    /// Takes the packet in, where the board has seen all that it needs. On an error the replica is as before.
    pub fn take(&mut self, packet: &Packet) -> Result<Taken, Absorb>
        ensures joined { OnOk result
            (board_reads self.new.board ≡ join_records (board_reads self.old.board) (board_reads packet.now.delta.changes)) }
        ensures stands { OnOk result ((ops others : History Body) → AreKin ops others →
            board_reads self.old.board ≡ view ops → board_reads packet.now.delta.changes ≡ cut (view others) packet.now.delta.need →
            board_reads self.new.board ≡ view (ops ++ others)) }
        ensures heard { OnOk result ((from : ℕ) → from < SITES → heard_from self.new from ≡
            put (heard_from self.old) packet.now.sender
            (joined (heard_from self.old packet.now.sender) packet.now.delta.changes.version) from) }
        ensures site { self.new.site ≡ self.old.site }
        ensures grew { IfOk result
            (λ t. t.grew ≡ not (is_below packet.now.delta.changes.version self.old.board.version)) }
        ensures known { OnOk result (IsTrue (is_below packet.now.delta.need self.old.board.version)) }
        ensures fault { IfErr result (λ e. IsFaultOf packet.now.delta.need self.old.board.version e) }
        ensures unchanged { OnErr result (self.new ≡ self.old) }
    {
        let reached = packet.delta().reached();
        let grew = !reached.le(&self.board.version());
        absorb(&mut self.board, packet.delta())?;
        let from = packet.sender().get() as usize;
        self.heard[from] = self.heard[from].join(&reached);
        Ok(Taken { grew })
    }
}

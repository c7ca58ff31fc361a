//! Worlds: all sites of a federation and the packets between them.
ghost use Rattle.std.specs.Prelude.{◌≡◌, ◌≢◌, ◌<◌, ◌≤◌, ◌++◌, ◌∷◌, [], ℕ, length, Ok, IfOk, None, Some, OnOk, OnErr, MatchOption, option_copied, vec_capacity, vec_len};
ghost use Rattle.fed_stamp.specs.declared.sites.TheConstants.{SITES};
ghost use Rattle.fed_board.specs.Board.{board_reads};
ghost use Rattle.fed_model.specs.View.{view};
ghost use Rattle.fed_model.specs.Limits.{IsWithinLimits};
ghost use Rattle.fed_model.specs.Packet.{Packet};
ghost use Rattle.fed_model.specs.declared.refusals.Refusal.{Refusal};
ghost use Rattle.fed_model.specs.declared.outcomes.Outcome.TheVariants as Outcome;
ghost use Rattle.fed_world.specs.Kept.{AreReplicas, IsTextOf};
ghost use Rattle.fed_model.specs.Run.{outcomes as outcomes_of, packet as packet_of, run as run_of, start, step as step_of};

use crate::steps::{events_are_ranged, run_event};
use crate::texts::Text;
use fed_board::Board;
use fed_lattice::NoMemory;
use fed_model::{Event, Outcome};
use fed_replica::Replica;
use fed_stamp::{Roster, SiteId};
use std::alloc::Global;
use std::marker::Model;

/// The sites of a federation, each with its replica, and the packets that were made, in order. It is seen as the number
/// of its sites and the events that were run: what the replicas and the packets are follows from these.
#[derive(Drop)]
pub struct World {
    alloc: Global,
    // of each site of the roster, by its number
    replicas: Vec<Replica>,
    // of each packet, in the order in which they were made
    texts: Vec<Text>,
    events: Vec<Event>,
}

impl Model for World {
    ghost use Rattle.std.specs.Prelude.{length};
    ghost use Rattle.fed_world.specs.Kept.{WorldValue, IsKept};

    ghost Value = { WorldValue };

    ghost view = { λ w. record { sites = length w.replicas.items; events = w.events.items } };

    ghost invariant = { λ w. IsKept (length w.replicas.items) w.events.items w.replicas.items w.texts.items };
}

/// A replica for each site of the roster, that has no operation.
fn new_replicas(alloc: Global, roster: &Roster) -> Result<Vec<Replica>, NoMemory>
    ensures few { length roster.now ≤ SITES }
    ensures replicas { IfOk result (λ v. AreReplicas (length roster.now) start v.items) }
{
    let mut replicas = Vec::new(alloc);
    for number in 0..roster.len() as u8 {
        let site = SiteId::new(number).unwrap();
        replicas.push(Replica::new(alloc, site))?;
    }
    Ok(replicas)
}

/// Adds the event, for which there is room.
fn keep(events: &mut Vec<Event>, event: &Event)
    requires { vec_len events.old < vec_capacity events.old }
    ensures { events.new.items ≡ events.old.items ++ event.now ∷ [] }
{
    // the prover has no plan for a `push` of values whose parts lie in crates further below
    events.extend_from_slice(&[*event]).unwrap();
}

impl World {
    /// The world of the roster's sites, where nothing has happened yet.
    pub fn new(alloc: Global, roster: &Roster) -> Result<World, NoMemory>
        ensures { IfOk result (λ w. w ≡ record { sites = length roster.now; events = [] }) }
    {
        Ok(World {
            alloc,
            replicas: new_replicas(alloc, roster)?,
            texts: Vec::new(alloc),
            events: Vec::new(alloc),
        })
    }

    /// The events that were run, in order.
    pub fn events(&self) -> &[Event]
        ensures { result.now ≡ self.now.events }
    {
        &self.events
    }

    /// The board of a site, or `None` where the federation has no such site. It stands for the set of operations that the
    /// site holds once the events are run.
    pub fn board(&self, site: SiteId) -> Option<&Board>
        ensures stands { MatchOption (option_copied result) (self.now.sites ≤ site)
            (λ b. (site < self.now.sites) × (board_reads b ≡ view ((run_of self.now.sites self.now.events).site site).set)) }
    {
        let index = site.get() as usize;
        if index < self.replicas.len() {
            Some(self.replicas[index].board())
        } else {
            None
        }
    }

    /// How many packets were made.
    pub fn made(&self) -> u64
        ensures { result ≡ length (run_of self.now.sites self.now.events).packets }
    {
        self.texts.len() as u64
    }

    /// The text of the packet with the number, or `None` if none was made with it: packets are numbered from 1, in the
    /// order in which they were made. It is the text, of format 3 if something is retired in it and else of format 2, of
    /// the packet that is sent of what the run's packet gives; it is within limits, and so is read as that packet again.
    pub fn text(&self, packet: u64) -> Option<&[u8]>
        ensures { MatchOption (option_copied result) (packet_of (run_of self.now.sites self.now.events) packet ≡ None)
            (λ t. (p : Packet) × (packet_of (run_of self.now.sites self.now.events) packet ≡ Some p) × IsTextOf p t) }
    {
        if packet == 0 || packet > self.texts.len() as u64 {
            return None;
        }
        let index = (packet - 1) as usize;
        Some(self.texts[index].bytes())
    }

    /// Runs one event more. On an error, which a failed allocation alone makes, the world is as before: want of memory is no
    /// outcome.
    pub fn step(&mut self, event: &Event) -> Result<Outcome, NoMemory>
        ensures outcome { IfOk result (λ o. o ≡
            (step_of self.old.sites (run_of self.old.sites self.old.events) event.now).outcome) }
        ensures events { OnOk result (self.new ≡
            record { sites = self.old.sites; events = self.old.events ++ event.now ∷ [] }) }
        ensures told { result ≢ Ok (Outcome.Refused Refusal.NoMemory) }
        ensures unchanged { OnErr result (self.new ≡ self.old) }
    {
        self.events.reserve(1)?;
        events_are_ranged(event);
        let outcome = run_event(self.alloc, &mut self.replicas, &mut self.texts, event)?;
        keep(&mut self.events, event);
        Ok(outcome)
    }
}

/// What each site of a world holds is within limits. The function does nothing: its contract is the fact, which a caller
/// tells the prover by calling it.
pub fn site_sets_are_within_limits(world: &World, site: SiteId)
    ensures { IsWithinLimits ((run_of world.now.sites world.now.events).site site).set }
{
    let _sites = world.replicas.len();
}

/// Runs the events, one after another, in the federation of the roster's sites: the world then, and what was answered to
/// each.
pub fn run(
    alloc: Global,
    roster: &Roster,
    events: &[Event],
) -> Result<(World, Vec<Outcome>), NoMemory>
    ensures world { IfOk result (λ r. r.0 ≡ record { sites = length roster.now; events = events.now }) }
    ensures outcomes { IfOk result (λ r. r.1.items ≡ outcomes_of (length roster.now) events.now) }
{
    let mut world = World::new(alloc, roster)?;
    let mut outcomes = Vec::new(alloc);
    for event in events {
        let outcome = world.step(event)?;
        outcomes.extend_from_slice(&[outcome])?;
    }
    Ok((world, outcomes))
}

//! Runs of an order's entries.
ghost use Rattle.std.specs.Prelude.{◌≡◌, ◌<◌, ◌+◌, ◌↔◌, ℕ, IsTrue, IfOk, OnOk, OnErr, [], ◌∷◌, ◌++◌, length, replicate, slice_index, slice_index_or, slice_set, option_copied, MatchResult};
ghost use Rattle.fed_model.specs.Packet.{Packet as RunPacket};
ghost use Rattle.fed_world.specs.Kept.{IsSentOf, IsTextOf};
ghost use Rattle.fed_model.specs.Run.{run as run_of, step as step_of};
ghost use Rattle.fed_threads.specs.Course.{number_in, numbers_of, placed_in, IsIndexed};
ghost use Rattle.fed_threads.specs.Placing.{with_next};
ghost use Rattle.fed_threads.specs.Settled.{event_of, number_of, shown, ships_after, site_of, with_entry, Agrees, HoldsPacket, StaysInside};

use crate::journal::{Asked, Entry};
use fed_delta::Packet;
use fed_lattice::NoMemory;
use fed_stamp::{Roster, SiteId};
use fed_wire::read;
use fed_world::exchanges::one_packet_is_sent;
use fed_world::{Event, Outcome, World};
use std::alloc::Global;
use std::marker::Model;

/// A run of the entries of several journals, as far as it has come.
#[derive(Drop)]
pub(crate) struct Course {
    alloc: Global,
    // of each site, for each entry that was run, the number of its packet, or 0 where it is no ship
    numbers: Vec<Vec<u64>>,
    // the site and the place of each ship: the code reads only how many there are, the definitions also which they are
    ships: Vec<(usize, usize)>,
    world: World,
}

impl Model for Course {
    ghost use Rattle.fed_threads.specs.Course.{numbers_of, placed_in, AreNumbers, CourseValue};

    ghost Value = { CourseValue };

    ghost view = { λ c. record { sites = c.world.sites; point = record { placed = placed_in (numbers_of c.numbers.items); ships = c.ships.items; events = c.world.events } } };

    ghost invariant = { λ c. AreNumbers c.world.sites c.ships.items (numbers_of c.numbers.items) };
}

impl Course {
    /// No entry was run yet.
    pub(crate) fn new(alloc: Global, roster: &Roster) -> Result<Course, NoMemory>
        ensures { IfOk result (λ c. c ≡ record {
          sites = length roster.now;
          point = record { placed = replicate (length roster.now) 0; ships = []; events = [] };
        }) }
    {
        Ok(Course {
            alloc,
            numbers: no_numbers(alloc, roster.len())?,
            ships: Vec::new(alloc),
            world: World::new(alloc, roster)?,
        })
    }

    /// The world that the run leaves.
    pub(crate) fn into_world(self) -> World
        ensures { result ≡ record { sites = self.sites; events = self.point.events } }
    {
        let Course { world, .. } = self;
        world
    }

    /// The place of a site's next entry in its journal.
    pub(crate) fn next(&self, site: usize) -> usize
        requires { site < self.now.sites }
        ensures { result ≡ slice_index self.now.point.placed site }
    {
        self.numbers[site].len()
    }

    /// Runs the next entry of a site, where it agrees with the run, and answers whether it does.
    pub(crate) fn run(&mut self, site: usize, entry: &Entry) -> Result<bool, NoMemory>
        requires { site < self.old.sites }
        ensures agrees { IfOk result (λ r. IsTrue r ↔ Agrees self.old.sites self.old.point site entry.now) }
        ensures sites { IfOk result (λ r. IsTrue r → self.new.sites ≡ self.old.sites) }
        ensures point { IfOk result (λ r. IsTrue r → self.new.point ≡ with_entry self.old.point site entry.now) }
    {
        let index = self.next(site);
        let event = self.event(&entry.asked);
        if !self.may_run(site, &event, entry)? {
            return Ok(false);
        }
        let Course {
            numbers,
            ships,
            world,
            ..
        } = self;
        if !step_shows(world, &event, index, &entry.outcome)? {
            return Ok(false);
        }
        keep(numbers, ships, site, &entry.asked)?;
        Ok(true)
    }

    /// Whether the entry stands in its own site's journal, ships inside the roster, and holds the packet that its event
    /// takes.
    fn may_run(&self, site: usize, event: &Event, entry: &Entry) -> Result<bool, NoMemory>
        ensures { IfOk result (λ r. IsTrue r ↔ (site_of entry.now.asked ≡ site) × StaysInside self.now.sites entry.now.asked ×
            HoldsPacket (run_of self.now.sites self.now.point.events) event.now entry.now.packet) }
    {
        let here = entry.asked.site().get() as usize == site;
        if !here || !entry.asked.stays_inside(self.numbers.len()) {
            return Ok(false);
        }
        holds_packet(self.alloc, &self.world, event, &entry.packet)
    }

    /// An entry as an event: a take is named by the number of its ship.
    fn event(&self, asked: &Asked) -> Event
        ensures { result ≡ event_of self.now.point.ships asked.now }
    {
        match asked {
            Asked::Do { site, who, command } => Event::Do {
                site: *site,
                who: *who,
                command: *command,
            },
            Asked::Ship { site, to } => Event::Ship {
                site: *site,
                to: *to,
            },
            Asked::Take {
                site,
                sender,
                place,
            } => Event::Take {
                site: *site,
                packet: self.number(*sender, *place),
            },
        }
    }

    /// The number of the ship that stands at this place of the sender's journal, or 0 where there is none.
    fn number(&self, sender: SiteId, place: u64) -> u64
        ensures { result ≡ number_of self.now.point.ships sender place }
    {
        let sender = sender.get() as usize;
        if sender < self.numbers.len() && place < self.numbers[sender].len() as u64 {
            self.numbers[sender][place as usize]
        } else {
            0
        }
    }
}

/// No number for each of so many sites.
fn no_numbers(alloc: Global, count: usize) -> Result<Vec<Vec<u64>>, NoMemory>
    ensures { IfOk result (λ v. numbers_of v.items ≡ replicate count []) }
{
    let mut numbers = Vec::new(alloc);
    for _site in 0..count {
        numbers.push(Vec::new(alloc))?;
    }
    Ok(numbers)
}

/// Keeps the number of an entry more of the site, and of a ship its site and place.
fn keep(
    numbers: &mut [Vec<u64>],
    ships: &mut Vec<(usize, usize)>,
    site: usize,
    asked: &Asked,
) -> Result<(), NoMemory>
    requires { site < length numbers.old }
    ensures placed { OnOk result (placed_in (numbers_of numbers.new) ≡ with_next (placed_in (numbers_of numbers.old)) site) }
    ensures ships { OnOk result (ships.new.items ≡
        ships_after ships.old.items site (slice_index (placed_in (numbers_of numbers.old)) site) asked.now) }
    ensures indexed { IsIndexed ships.old.items (numbers_of numbers.old) → IsIndexed ships.new.items (numbers_of numbers.new) }
    ensures count { length (numbers_of numbers.new) ≡ length (numbers_of numbers.old) }
{
    let index = numbers[site].len();
    ships.reserve(1)?;
    if let Asked::Ship { .. } = asked {
        numbers[site].push(ships.len() as u64 + 1)?;
        ships.push_reserved((site, index));
    } else {
        numbers[site].push(0)?;
    }
    Ok(())
}

/// The outcome of an entry at this index, where the run has this outcome: a ship's is its own place.
fn shown_at(index: usize, outcome: Outcome) -> Outcome
    ensures { result ≡ shown index outcome }
{
    match outcome {
        Outcome::Packet(_) => Outcome::Packet(index as u64),
        _ => outcome,
    }
}

/// Runs the event, and answers whether an entry at this index has its outcome.
fn step_shows(
    world: &mut World,
    event: &Event,
    index: usize,
    outcome: &Outcome,
) -> Result<bool, NoMemory>
    ensures shown { IfOk result (λ r. IsTrue r ↔ (outcome.now ≡
        shown index (step_of world.old.sites (run_of world.old.sites world.old.events) event.now).outcome)) }
    ensures world { OnOk result (world.new ≡ record { sites = world.old.sites; events = world.old.events ++ event.now ∷ [] }) }
    ensures sites { world.new.sites ≡ world.old.sites }
{
    let found = world.step(event);
    shows(index, found, outcome)
}

/// Whether an entry at this index has the outcome that was found, where memory was not refused.
fn shows(
    index: usize,
    found: Result<Outcome, NoMemory>,
    outcome: &Outcome,
) -> Result<bool, NoMemory>
    ensures { IfOk result (λ r. MatchResult found (λ o. IsTrue r ↔ (outcome.now ≡ shown index o)) (λ _. ⊥)) }
{
    match found {
        Ok(found) => Ok(shown_at(index, found) == *outcome),
        Err(refused) => Err(refused),
    }
}

/// Whether an entry holds the packet that its event takes, and none where it takes none.
fn holds_packet(
    alloc: Global,
    world: &World,
    event: &Event,
    packet: &Option<Packet>,
) -> Result<bool, NoMemory>
    ensures { IfOk result (λ r. IsTrue r ↔ HoldsPacket (run_of world.now.sites world.now.events) event.now packet.now) }
{
    match event {
        Event::Do { .. } | Event::Ship { .. } => Ok(packet.is_none()),
        Event::Take { packet: number, .. } => match (world.text(*number), packet) {
            (None, None) => Ok(true),
            (Some(text), Some(held)) => is_sent(alloc, text, held),
            _ => Ok(false),
        },
    }
}

/// Whether the packet is sent of the one that the text is of.
fn is_sent(alloc: Global, text: &[u8], held: &Packet) -> Result<bool, NoMemory>
    ensures { (p : RunPacket) → IsTextOf p text.now → IfOk result (λ r. IsTrue r ↔ IsSentOf p held.now) }
{
    // The text is of a packet within limits: that it can't be read is want of memory.
    let Ok(sent) = read(alloc, text) else {
        return Err(NoMemory);
    };
    one_packet_is_sent(&sent, held);
    Ok(sent == *held)
}

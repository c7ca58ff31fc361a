//! Federations whose sites run at the same time.
ghost use Rattle.std.specs.Prelude.{◌≡◌, ◌≢◌, ◌<◌, ◌≤◌, ◌+◌, ◌^◌, ◌↔◌, ◌⊎◌, ℕ, None, Some, Ok, Err, IfOk, OnErr, IfErr, length, vec_len};
ghost use Rattle.fed_stamp.specs.declared.sites.TheConstants.{SITES};
ghost use Rattle.fed_board.specs.Board.{board_reads};
ghost use Rattle.fed_model.specs.declared.refusals.Refusal.{Refusal};
ghost use Rattle.fed_threads.specs.Calls.{AddsClaim, OnlyBehind, Looks, MeetsNext};
ghost use Rattle.fed_model.specs.Outcome.{outcome_of};
ghost use Rattle.fed_threads.specs.Seat.{known_by, starts};
ghost use Rattle.fed_threads.specs.declared.fault.CallFault.TheVariants as CallFault;
ghost use Rattle.fed_threads.specs.declared.journal.Asked.TheVariants.{Do, Ship, Take};
ghost use Rattle.fed_model.specs.declared.outcomes.Outcome.TheVariants as Outcome;

use crate::calls::{call_in, look_in, ship_in, take_in};
use crate::fault::CallFault;
use crate::gate::Gate;
use crate::locked_sites::LockedSite;
use crate::parcel::Parcel;
use crate::seat::Seat;
use crossbeam_channel::{Receiver, SendError, Sender};
use fed_board::Board;
use fed_lattice::NoMemory;
use fed_record::{Command, Refusal, Reply, Who};
use fed_replica::{Received, Taken};
use fed_stamp::{Roster, SiteId};
use std::alloc::Global;
use std::sync::{Mutex, Wait};

/// What a queue carries.
#[derive(Drop)]
enum Mail {
    Parcel(Parcel),
    End,
}

/// The queue of a site.
#[derive(Drop)]
struct Queue {
    sender: Sender<Mail>,
    receiver: Receiver<Mail>,
}

/// That a packet was made.
#[derive(Clone, Copy, PartialEq, Eq, Debug)]
pub struct Sent {
    /// Its place in the journal of the site that made it, counted from 0.
    pub place: u64,
    /// Whether the queue has it: not where the queue was refused memory.
    pub queued: bool,
}

/// What a site met next in its queue.
#[derive(Clone, Copy, PartialEq, Eq, Debug)]
pub enum Next {
    /// A parcel, which the site took.
    Taken(Taken),
    /// A parcel, which the site did not take, since it lacks something of this site.
    Gap(SiteId),
    /// An end mark.
    Ended,
}

/// What was dropped of a queue.
#[derive(Clone, Copy, PartialEq, Eq, Debug)]
pub enum Dropped {
    /// A parcel.
    Parcel,
    /// An end mark.
    Ended,
}

/// Sites behind a lock each, with a queue of parcels for each.
#[derive(Drop)]
pub struct Federation<G> {
    alloc: Global,
    roster: Roster,
    // of each site of the roster, by its number
    sites: Vec<Mutex<LockedSite>>,
    queues: Vec<Queue>,
    gate: G,
    ghost locks: { vec_len sites ≡ length roster },
    ghost matched: { vec_len queues ≡ length roster },
}

fn new_sites(alloc: Global, count: usize) -> Result<Vec<Mutex<LockedSite>>, NoMemory>
    requires { count ≤ SITES }
    ensures { IfOk result (λ v. vec_len v ≡ count) }
{
    let mut sites = Vec::new(alloc);
    for number in 0..count as u8 {
        let site = SiteId::new(number).unwrap();
        sites.push(Mutex::new(LockedSite::new(alloc, site)))?;
    }
    Ok(sites)
}

fn new_queues(alloc: Global, count: usize) -> Result<Vec<Queue>, NoMemory>
    ensures { IfOk result (λ v. vec_len v ≡ count) }
{
    let mut queues = Vec::new(alloc);
    for _number in 0..count {
        let (sender, receiver) = crossbeam_channel::unbounded(alloc)?;
        queues.push(Queue { sender, receiver })?;
    }
    Ok(queues)
}

impl<G: Gate> Federation<G> {
    /// The federation of the roster's sites, with empty journals and empty queues.
    pub fn open(alloc: Global, roster: &Roster, gate: G) -> Result<Federation<G>, NoMemory>
        ensures { IfOk result (λ f. f.roster ≡ roster.now) }
    {
        let count = roster.len();
        Ok(Federation {
            alloc,
            roster: *roster,
            sites: new_sites(alloc, count)?,
            queues: new_queues(alloc, count)?,
            gate,
        })
    }

    /// A seat that has seen nothing and claims nothing.
    pub fn seat(&self) -> Seat
        ensures { known_by result ≡ starts }
    {
        Seat::new(self.alloc)
    }

    /// The roster, and the locks, once no call is under way.
    pub(crate) fn into_parts(self) -> (Roster, Vec<Mutex<LockedSite>>)
        ensures roster { result.0 ≡ self.roster }
        ensures sites { vec_len result.1 ≡ length self.roster }
    {
        let Federation { roster, sites, .. } = self;
        (roster, sites)
    }

    /// The memory that it grows from.
    pub(crate) fn alloc(&self) -> Global {
        self.alloc
    }

    /// Asks a site to do a command. The gate is told while the site's lock is held. `NoSite` where the roster has no such
    /// site, `Behind` where the site is behind what the seat has seen, and `NoMemory` where an allocation fails, which is
    /// never the refusal of the command; on each the seat is as before.
    pub fn call<R: Wait>(
        &self,
        rt: &R,
        site: SiteId,
        who: &Who,
        command: &Command,
        seat: &mut Seat,
    ) -> Result<Result<Reply, Refusal>, CallFault>
        ensures nowhere { (result ≡ Err CallFault.NoSite) ↔ (length self.now.roster ≤ site) }
        ensures ok { IfOk result (λ said.
            AddsClaim (known_by seat.old) (known_by seat.new) site (Do site who.now command.now) (outcome_of said)) }
        ensures told { result ≢ Ok (Err Refusal.NoMemory) }
        ensures err { OnErr result (known_by seat.new ≡ known_by seat.old) }
        ensures behind { site < length self.now.roster → IfErr result (OnlyBehind (known_by seat.old) site) }
    {
        let index = site.get() as usize;
        if index >= self.sites.len() {
            return Err(CallFault::NoSite);
        }
        let mut locked = self.sites[index].lock(rt);
        self.gate.inside(site, locked.len());
        call_in(&mut locked, site, who, command, seat)
    }

    /// A copy of a site's board. The seat has then seen the site as far as the copy. The faults are those of `call`.
    pub fn look<R: Wait>(&self, rt: &R, site: SiteId, seat: &mut Seat) -> Result<Board, CallFault>
        ensures nowhere { (result ≡ Err CallFault.NoSite) ↔ (length self.now.roster ≤ site) }
        ensures ok { IfOk result (λ b. Looks (known_by seat.old) (known_by seat.new) site (board_reads b)) }
        ensures err { OnErr result (known_by seat.new ≡ known_by seat.old) }
        ensures behind { site < length self.now.roster → IfErr result (OnlyBehind (known_by seat.old) site) }
    {
        let index = site.get() as usize;
        if index >= self.sites.len() {
            return Err(CallFault::NoSite);
        }
        let locked = self.sites[index].lock(rt);
        look_in(&locked, site, seat)
    }

    /// Makes a packet at a site for a site, and sends it to that site's queue once the lock is free. The faults are those
    /// of `call`, and `NoSite` also where the roster lacks the addressee.
    pub fn ship<R: Wait>(
        &self,
        rt: &R,
        site: SiteId,
        to: SiteId,
        seat: &mut Seat,
    ) -> Result<Sent, CallFault>
        ensures nowhere { (result ≡ Err CallFault.NoSite) ↔ ((length self.now.roster ≤ site) ⊎ (length self.now.roster ≤ to)) }
        ensures ok { IfOk result (λ sent.
            AddsClaim (known_by seat.old) (known_by seat.new) site (Ship site to) (Outcome.Packet sent.place)) }
        ensures err { OnErr result (known_by seat.new ≡ known_by seat.old) }
        ensures behind { site < length self.now.roster → to < length self.now.roster →
            IfErr result (OnlyBehind (known_by seat.old) site) }
    {
        let index = site.get() as usize;
        let addressee = to.get() as usize;
        if index >= self.sites.len() || addressee >= self.sites.len() {
            return Err(CallFault::NoSite);
        }
        let mut locked = self.sites[index].lock(rt);
        let made = ship_in(&mut locked, site, to, seat);
        drop(locked);
        let parcel = made?;
        let place = parcel.place;
        let queued = self.queues[addressee]
            .sender
            .send(rt, Mail::Parcel(parcel))
            .is_ok();
        Ok(Sent { place, queued })
    }

    /// Receives the next of a site's queue: a parcel is taken by the site, and dropped where the call ends with a fault.
    /// The faults are those of `call`.
    pub fn take_next<R: Wait>(
        &self,
        rt: &R,
        site: SiteId,
        seat: &mut Seat,
    ) -> Result<Next, CallFault>
        ensures nowhere { (result ≡ Err CallFault.NoSite) ↔ (length self.now.roster ≤ site) }
        ensures ok { IfOk result (MeetsNext (known_by seat.old) (known_by seat.new) site) }
        ensures err { OnErr result (known_by seat.new ≡ known_by seat.old) }
        ensures behind { site < length self.now.roster → IfErr result (OnlyBehind (known_by seat.old) site) }
    {
        let index = site.get() as usize;
        if index >= self.sites.len() {
            return Err(CallFault::NoSite);
        }
        let Ok(Mail::Parcel(parcel)) = self.queues[index].receiver.recv(rt) else {
            return Ok(Next::Ended);
        };
        let mut locked = self.sites[index].lock(rt);
        match take_in(&mut locked, site, parcel, seat)? {
            Received::Taken(taken) => Ok(Next::Taken(taken)),
            Received::Gap(missing) => Ok(Next::Gap(missing)),
        }
    }

    /// Receives the next of a site's queue and drops it. `NoSite` where the roster has no such site.
    pub fn drop_next<R: Wait>(&self, rt: &R, site: SiteId) -> Result<Dropped, CallFault>
        ensures nowhere { (result ≡ Err CallFault.NoSite) ↔ (length self.now.roster ≤ site) }
        ensures err { IfErr result (λ e. e ≡ CallFault.NoSite) }
    {
        let index = site.get() as usize;
        if index >= self.sites.len() {
            return Err(CallFault::NoSite);
        }
        match self.queues[index].receiver.recv(rt) {
            Ok(Mail::Parcel(_)) => Ok(Dropped::Parcel),
            _ => Ok(Dropped::Ended),
        }
    }

    /// Puts an end mark into a site's queue. `NoSite` where the roster has no such site, and `NoMemory` where the queue is
    /// refused memory.
    pub fn end<R: Wait>(&self, rt: &R, to: SiteId) -> Result<(), CallFault>
        ensures nowhere { (result ≡ Err CallFault.NoSite) ↔ (length self.now.roster ≤ to) }
        ensures err { IfErr result (λ e. (e ≡ CallFault.NoSite) ⊎ (e ≡ CallFault.NoMemory)) }
    {
        let index = to.get() as usize;
        if index >= self.sites.len() {
            return Err(CallFault::NoSite);
        }
        match self.queues[index].sender.send(rt, Mail::End) {
            Err(SendError::OutOfMemory(_)) => Err(CallFault::NoMemory),
            _ => Ok(()),
        }
    }
}

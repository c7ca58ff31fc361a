//! Federations where memory may be refused. A call answers as with ample memory, or by want of memory; then it leaves the
//! seat as before, and answers as with ample memory when it is asked again. That it leaves the journals as before is seen
//! at the end: only journals whose entries are just those that the seats claim are settled. So the tests pass whichever
//! allocation fails, which `rt try --test --fail-alloc N` does for the Nth.
use crate::entries::{claim_all, ship_at, submitted, taken};
use fed_board::Board;
use fed_delta::Packet;
use fed_lattice::NoMemory;
use fed_record::{Command, Reply};
use fed_replica::{Replica, Taken};
use fed_stamp::{SiteId, Version};
use fed_threads::{
    Asked, CallFault, Claim, CloseFault, Dropped, Entry, Federation, Next, OpenGate, Seat, Sent,
    settle,
};
use std::alloc::Global;
use std::process::Abort;
use std::sync::Wait;
use test_values::{ann, site, stamp, submission, two_sites};

/// A list with room for so many items.
fn room<T>(rt: &(impl Abort + AllocGlobal), count: usize) -> Vec<T> {
    match Vec::with_capacity(rt.alloc(), count) {
        Ok(list) => list,
        Err(_) => Vec::with_capacity(rt.alloc(), count).expect(rt, "memory"),
    }
}

fn opened(rt: &(impl Abort + AllocGlobal)) -> Federation<OpenGate> {
    match Federation::open(rt.alloc(), &two_sites(), OpenGate) {
        Ok(federation) => federation,
        Err(NoMemory) => {
            let federation = Federation::open(rt.alloc(), &two_sites(), OpenGate);
            federation.expect(rt, "memory")
        }
    }
}

/// All that a seat of a federation of two sites keeps: what it was answered and what it asked, and how far it has seen
/// each site.
#[derive(Drop)]
struct Kept {
    claims: Vec<Claim>,
    asked: Vec<Asked>,
    seen: [u64; 2],
    versions: [Version; 2],
}

fn kept_by(rt: &(impl Abort + AllocGlobal), seat: &Seat) -> Kept {
    let mut claims = room(rt, seat.claims().len());
    claims.extend_from_slice(seat.claims()).expect(rt, "room");
    let mut asked = room(rt, seat.asked().len());
    asked.extend_from_slice(seat.asked()).expect(rt, "room");
    Kept {
        claims,
        asked,
        seen: [seat.seen(site(0)), seat.seen(site(1))],
        versions: [seat.version(site(0)), seat.version(site(1))],
    }
}

/// Fails where a call was not answered for anything but want of memory, or left the seat other than before.
fn see_refused(rt: &impl Abort, fault: CallFault, before: &Kept, seat: &Seat) {
    assert!(rt; fault == CallFault::NoMemory);
    assert!(rt;
        seat.claims() == before.claims.as_slice() && seat.asked() == before.asked.as_slice()
    );
    assert!(rt; [seat.seen(site(0)), seat.seen(site(1))] == before.seen);
    assert!(rt; [seat.version(site(0)), seat.version(site(1))] == before.versions);
}

fn called<R: Abort + AllocGlobal + Wait>(
    rt: &R,
    federation: &Federation<OpenGate>,
    site: SiteId,
    command: &Command,
    seat: &mut Seat,
) -> Option<Reply> {
    let who = ann();
    let before = kept_by(rt, seat);
    match federation.call(rt, site, &who, command, seat) {
        Ok(said) => said.ok(),
        Err(fault) => {
            see_refused(rt, fault, &before, seat);
            let again = federation.call(rt, site, &who, command, seat);
            again.expect(rt, "an answer").ok()
        }
    }
}

fn looked<R: Abort + AllocGlobal + Wait>(
    rt: &R,
    federation: &Federation<OpenGate>,
    site: SiteId,
    seat: &mut Seat,
) -> Board {
    let before = kept_by(rt, seat);
    match federation.look(rt, site, seat) {
        Ok(board) => board,
        Err(fault) => {
            see_refused(rt, fault, &before, seat);
            federation.look(rt, site, seat).expect(rt, "a board")
        }
    }
}

/// Ships from argonne to lemont.
fn shipped<R: Abort + AllocGlobal + Wait>(
    rt: &R,
    federation: &Federation<OpenGate>,
    seat: &mut Seat,
) -> Sent {
    let (argonne, lemont) = (site(0), site(1));
    let before = kept_by(rt, seat);
    match federation.ship(rt, argonne, lemont, seat) {
        Ok(sent) => sent,
        Err(fault) => {
            see_refused(rt, fault, &before, seat);
            federation
                .ship(rt, argonne, lemont, seat)
                .expect(rt, "a shipment")
        }
    }
}

/// What lemont takes next, and how many parcels left its queue: that of a refused take is dropped.
fn taken_next<R: Abort + AllocGlobal + Wait>(
    rt: &R,
    federation: &Federation<OpenGate>,
    seat: &mut Seat,
) -> (Next, usize) {
    let lemont = site(1);
    let before = kept_by(rt, seat);
    match federation.take_next(rt, lemont, seat) {
        Ok(next) => (next, 1),
        Err(fault) => {
            see_refused(rt, fault, &before, seat);
            let next = federation.take_next(rt, lemont, seat);
            (next.expect(rt, "a parcel"), 2)
        }
    }
}

/// Ends the queue of a site and empties it. How many parcels were in it.
fn emptied<R: Abort + Wait>(rt: &R, federation: &Federation<OpenGate>, site: SiteId) -> usize {
    if let Err(fault) = federation.end(rt, site) {
        assert!(rt; fault == CallFault::NoMemory);
        federation.end(rt, site).expect(rt, "an end mark");
    }
    for count in 0..4 {
        if federation.drop_next(rt, site) == Ok(Dropped::Ended) {
            return count;
        }
    }
    panic!(rt; "no end mark")
}

/// A job is submitted at argonne, and seen there.
fn submit<R: Abort + AllocGlobal + Wait>(
    rt: &R,
    federation: &Federation<OpenGate>,
    seat: &mut Seat,
) {
    let (argonne, job) = (site(0), stamp(1, 0));
    let said = called(rt, federation, argonne, &submission(), seat);
    assert!(rt; said == Some(Reply::Submitted(job)));
    let board = looked(rt, federation, argonne, seat);
    assert!(rt; board.job(job).is_some());
}

/// Submits a job at argonne, ships it to lemont three times, takes one parcel and drops the others; all is answered as
/// with ample memory. The journals have five entries then.
fn answered<R: Abort + AllocGlobal + Wait>(
    rt: &R,
    federation: &Federation<OpenGate>,
    seat: &mut Seat,
) {
    submit(rt, federation, seat);
    let mut queued = 0usize;
    for place in 1..4 {
        // where the queue alone is refused memory, the shipment stands and only its parcel is missing
        let sent = shipped(rt, federation, seat);
        assert!(rt; sent.place == place && seat.claims().len() as u64 == place + 1);
        queued = queued.saturating_add(usize::from(sent.queued));
    }
    let (next, gone) = taken_next(rt, federation, seat);
    assert!(rt; queued >= 2 && next == Next::Taken(Taken { grew: true }));
    assert!(rt; emptied(rt, federation, site(1)).saturating_add(gone) == queued);
    assert!(rt; emptied(rt, federation, site(0)) == 0);
}

/// The fault with which the federation is closed, or `None` where it has so many events.
fn closed(
    rt: &impl Abort,
    federation: Federation<OpenGate>,
    seats: Vec<Seat>,
    count: usize,
) -> Option<CloseFault> {
    match federation.close(seats) {
        Ok(run) => {
            assert!(rt; run.order().len() == count);
            None
        }
        Err(fault) => Some(fault),
    }
}

#[test]
fn failed_allocations_of_calls(rt: HostRuntime) {
    let federation = opened(&rt);
    let mut seat = federation.seat();
    answered(&rt, &federation, &mut seat);
    let mut seats = room(&rt, 1);
    seats.push(seat).expect(&rt, "room");
    let fault = closed(&rt, federation, seats, 5);
    assert!(rt; fault.is_none() || fault == Some(CloseFault::NoMemory));
}

#[test]
fn failed_allocations_of_a_fault(rt: HostRuntime) {
    let federation = opened(&rt);
    answered(&rt, &federation, &mut federation.seat());
    // no seat claims the entries
    let fault = closed(&rt, federation, room(&rt, 0), 5);
    let (site, index) = (site(0), 0);
    let unclaimed = CloseFault::Unclaimed { site, index };
    assert!(rt; fault == Some(unclaimed) || fault == Some(CloseFault::NoMemory));
}

/// What argonne ships to lemont once it was asked this, unless memory is refused.
fn shipped_after(alloc: Global, entry: &Entry) -> Option<Packet> {
    let mut argonne = Replica::new(alloc, site(0));
    if let Asked::Do { who, command, .. } = &entry.asked {
        argonne.act(who, command).ok()?;
    }
    argonne.ship(site(1)).ok()
}

fn packet_after(rt: &(impl Abort + AllocGlobal), entry: &Entry) -> Packet {
    match shipped_after(rt.alloc(), entry) {
        Some(packet) => packet,
        None => shipped_after(rt.alloc(), entry).expect(rt, "a packet"),
    }
}

/// Argonne's journal once a job is submitted and shipped.
fn journal_of_argonne(rt: &(impl Abort + AllocGlobal)) -> Vec<Entry> {
    let mut journal = room(rt, 2);
    journal.push(submitted(rt)).expect(rt, "room");
    journal.push(ship_at(1)).expect(rt, "room");
    journal
}

/// Lemont's journal once it has taken the job.
fn journal_of_lemont(rt: &(impl Abort + AllocGlobal)) -> Vec<Entry> {
    let packet = packet_after(rt, &submitted(rt));
    let mut journal = room(rt, 1);
    journal.push(taken(1, packet)).expect(rt, "room");
    journal
}

/// The claims of the one seat that did it all.
fn claims(rt: &(impl Abort + AllocGlobal), journals: &[Vec<Entry>]) -> Vec<Claim> {
    let mut claims = room(rt, 3);
    for (number, journal) in (0..2u8).zip(journals) {
        claim_all(rt, &mut claims, number, journal);
    }
    claims
}

#[test]
fn failed_allocations_of_settling(rt: HostRuntime) {
    let journals = [journal_of_argonne(&rt), journal_of_lemont(&rt)];
    let seats = [claims(&rt, &journals)];
    match settled(&rt, &journals, &seats) {
        Ok(count) => assert!(rt; count == 3),
        Err(fault) => {
            assert!(rt; fault == CloseFault::NoMemory);
            assert!(rt; settled(&rt, &journals, &seats) == Ok(3));
        }
    }
}

/// How many events the journals are settled to.
fn settled(
    rt: &(impl Abort + AllocGlobal),
    journals: &[Vec<Entry>],
    seats: &[Vec<Claim>],
) -> Result<usize, CloseFault> {
    let roster = two_sites();
    assert!(rt; journals.len() == roster.len());
    settle(rt.alloc(), &roster, journals, seats).map(|events| events.len())
}

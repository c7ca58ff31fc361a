//! What stands behind the locks: whose board a look shows, whose queue gets a parcel, whose entries are settled, and when a
//! gate is told of a call. Contracts know nothing of what a lock or a queue held, so that each is tried here.
use fed_record::{Command, Reply, Who};
use fed_replica::Taken;
use fed_stamp::SiteId;
use fed_threads::{CloseFault, Federation, Gate, Next, OpenGate, Seat};
use std::process::Abort;
use std::sync::Wait;
use std::sync::atomic::{AtomicBool, AtomicU64, Ordering};
use std::thread::Threads;
use std::{hint, thread};
use test_values::{ann, site, stamp, submission, two_sites};

/// A job is submitted at the site of this number, under this counter.
fn submit<G: Gate, R: Abort + Wait>(
    rt: &R,
    federation: &Federation<G>,
    number: u8,
    counter: u64,
    seat: &mut Seat,
) {
    let said = federation.call(rt, site(number), &ann(), &submission(), seat);
    assert!(rt; said == Ok(Ok(Reply::Submitted(stamp(counter, number)))));
}

/// Whether the site of this number has the first job of argonne, as a seat sees it that has seen nothing.
fn shows_the_job<R: Abort + Wait>(rt: &R, federation: &Federation<OpenGate>, number: u8) -> bool {
    let mut seat = federation.seat();
    let board = federation.look(rt, site(number), &mut seat);
    let is_shown = board.expect(rt, "a board").job(stamp(1, 0)).is_some();
    assert!(rt; is_shown == (seat.seen(site(number)) == 1));
    is_shown
}

#[test]
fn a_look_shows_the_site_itself(rt: HostRuntime) {
    let federation = Federation::open(rt.alloc(), &two_sites(), OpenGate).expect(&rt, "memory");
    let mut seat = federation.seat();
    submit(&rt, &federation, 0, 1, &mut seat);
    assert!(rt; shows_the_job(&rt, &federation, 0));
    assert!(rt; !shows_the_job(&rt, &federation, 1));
}

/// Argonne ships to lemont, and an end mark goes to each queue, so that no take waits for ever.
fn ship_and_end<R: Abort + Wait>(rt: &R, federation: &Federation<OpenGate>, seat: &mut Seat) {
    let (argonne, lemont) = (site(0), site(1));
    submit(rt, federation, 0, 1, seat);
    let sent = federation.ship(rt, argonne, lemont, seat);
    assert!(rt; sent.expect(rt, "a shipment").queued);
    federation.end(rt, argonne).expect(rt, "memory");
    federation.end(rt, lemont).expect(rt, "memory");
}

/// What is next in the queue of the site of this number.
fn see_next<R: Abort + Wait>(
    rt: &R,
    federation: &Federation<OpenGate>,
    number: u8,
    seat: &mut Seat,
    wanted: Next,
) {
    assert!(rt; federation.take_next(rt, site(number), seat) == Ok(wanted));
}

#[test]
fn a_parcel_goes_to_its_addressee(rt: HostRuntime) {
    let federation = Federation::open(rt.alloc(), &two_sites(), OpenGate).expect(&rt, "memory");
    let mut seat = federation.seat();
    ship_and_end(&rt, &federation, &mut seat);
    let taken = Next::Taken(Taken { grew: true });
    see_next(&rt, &federation, 1, &mut seat, taken);
    see_next(&rt, &federation, 1, &mut seat, Next::Ended);
    see_next(&rt, &federation, 0, &mut seat, Next::Ended);
}

#[test]
fn entries_are_settled_though_no_seat_is_there(rt: HostRuntime) {
    let alloc = rt.alloc();
    let federation = Federation::open(alloc, &two_sites(), OpenGate).expect(&rt, "memory");
    let mut seat = federation.seat();
    submit(&rt, &federation, 1, 1, &mut seat);
    let closed = federation.close(Vec::new(alloc));
    let (site, index) = (site(1), 0);
    let unclaimed = CloseFault::Unclaimed { site, index };
    assert!(rt; closed.map(|run| run.order().len()) == Err(unclaimed));
}

/// What a gate was told: of how many calls, and the site and the place of the last.
#[derive(Drop)]
struct Told {
    calls: AtomicU64,
    site: AtomicU64,
    place: AtomicU64,
}

impl Told {
    fn nothing() -> Told {
        Told {
            calls: AtomicU64::new(0),
            site: AtomicU64::new(0),
            place: AtomicU64::new(0),
        }
    }

    /// Whether it was so many calls, and this place of this site last.
    fn is(&self, calls: u64, site: u64, place: u64) -> bool {
        self.calls.load(Ordering::SeqCst) == calls
            && self.site.load(Ordering::SeqCst) == site
            && self.place.load(Ordering::SeqCst) == place
    }
}

/// Keeps what it is told.
#[derive(Drop)]
struct NotedGate<'a> {
    told: &'a Told,
}

impl Gate for NotedGate<'_> {
    fn inside(&self, site: SiteId, index: u64) {
        self.told.calls.fetch_add(1, Ordering::SeqCst);
        let number = u64::from(site.get());
        self.told.site.store(number, Ordering::SeqCst);
        self.told.place.store(index, Ordering::SeqCst);
    }
}

/// The gate is told of each command, and of no shipment.
fn see_told<G: Gate, R: Abort + Wait>(
    rt: &R,
    told: &Told,
    federation: &Federation<G>,
    seat: &mut Seat,
) {
    submit(rt, federation, 0, 1, seat);
    assert!(rt; told.is(1, 0, 0));
    submit(rt, federation, 0, 2, seat);
    assert!(rt; told.is(2, 0, 1));
    let sent = federation.ship(rt, site(0), site(1), seat);
    assert!(rt; sent.expect(rt, "a shipment").place == 2);
    submit(rt, federation, 0, 3, seat);
    assert!(rt; told.is(3, 0, 3));
    submit(rt, federation, 1, 1, seat);
    assert!(rt; told.is(4, 1, 0));
}

#[test]
fn a_gate_is_told_of_each_place(rt: HostRuntime) {
    let told = Told::nothing();
    let gate = NotedGate { told: &told };
    let federation = Federation::open(rt.alloc(), &two_sites(), gate).expect(&rt, "memory");
    see_told(&rt, &told, &federation, &mut federation.seat());
}

/// How many turns a call stays at its gate.
const TURNS: u64 = 20_000_000;

/// Keeps each call inside for so many turns, and whether two calls met.
#[derive(Drop)]
struct SlowGate<'a> {
    taken: &'a AtomicBool,
    met: &'a AtomicBool,
}

impl Gate for SlowGate<'_> {
    fn inside(&self, _site: SiteId, _index: u64) {
        if self.taken.swap(true, Ordering::SeqCst) {
            self.met.store(true, Ordering::SeqCst);
        }
        for _ in 0..TURNS {
            if self.met.load(Ordering::SeqCst) {
                break;
            }
            hint::spin_loop();
        }
        self.taken.store(false, Ordering::SeqCst);
    }
}

/// Whether a call of the seat at argonne is answered.
fn is_answered<G: Gate, R: Wait>(
    rt: &R,
    federation: &Federation<G>,
    who: &Who,
    command: &Command,
    seat: &mut Seat,
) -> bool {
    match SiteId::new(0) {
        Some(argonne) => federation.call(rt, argonne, who, command, seat).is_ok(),
        None => false,
    }
}

#[test]
fn a_gate_is_told_of_one_call_at_a_time(rt: HostRuntime) {
    let (taken, met) = (AtomicBool::new(false), AtomicBool::new(false));
    let gate = SlowGate {
        taken: &taken,
        met: &met,
    };
    let federation = Federation::open(rt.alloc(), &two_sites(), gate).expect(&rt, "memory");
    let (mut first, mut second) = (federation.seat(), federation.seat());
    let (ann, submission) = (ann(), submission());
    let (one, other) = thread::join(
        &rt,
        || is_answered(&rt, &federation, &ann, &submission, &mut first),
        || is_answered(&rt, &federation, &ann, &submission, &mut second),
    );
    assert!(rt; one && other && !met.load(Ordering::SeqCst));
}

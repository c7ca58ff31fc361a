//! Two seats, of two threads.
use fed_record::{Changes, Command, Priority, Reply, Who};
use fed_replica::Taken;
use fed_stamp::{JobId, SiteId, Stamp, Version};
use fed_threads::{CallFault, CloseFault, Federation, Gate, Next, OpenGate, Seat};
use std::process::Abort;
use std::sync::Wait;
use std::sync::atomic::{AtomicBool, Ordering};
use std::thread::Threads;
use std::{hint, thread};
use test_values::{UNCHANGED, ann, bob, site, stamp, submission, two_sites};

/// How many turns a gate waits at most.
const TURNS: u64 = 1_000_000_000;

/// Waits until the flag is set, for so many turns at most. Whether it was set.
fn is_met(flag: &AtomicBool) -> bool {
    for _ in 0..TURNS {
        if flag.load(Ordering::SeqCst) {
            return true;
        }
        hint::spin_loop();
    }
    false
}

/// Holds the first call at argonne until it is let go.
#[derive(Drop)]
struct HeldGate<'a> {
    arrived: &'a AtomicBool,
    let_go: &'a AtomicBool,
    ran_out: &'a AtomicBool,
}

impl Gate for HeldGate<'_> {
    fn inside(&self, site: SiteId, index: u64) {
        if site.get() != 0 || index != 0 {
            return;
        }
        self.arrived.store(true, Ordering::SeqCst);
        if !is_met(self.let_go) {
            self.ran_out.store(true, Ordering::SeqCst);
        }
    }
}

/// What the first seat does: its call is held. Whether it is answered as it should be.
fn at_argonne<G: Gate, R: Wait>(
    rt: &R,
    federation: &Federation<G>,
    ann: &Who,
    submission: &Command,
    seat: &mut Seat,
) -> Option<()> {
    let argonne = SiteId::new(0)?;
    let said = federation.call(rt, argonne, ann, submission, seat);
    let job = Stamp::new(1, argonne)?;
    (said == Ok(Ok(Reply::Submitted(job)))).then_some(())
}

/// What the second seat does meanwhile, at the other site. Whether it is answered as it should be.
fn at_lemont<G: Gate, R: Wait>(
    rt: &R,
    federation: &Federation<G>,
    bob: &Who,
    submission: &Command,
    seat: &mut Seat,
) -> Option<()> {
    let lemont = SiteId::new(1)?;
    let said = federation.call(rt, lemont, bob, submission, seat);
    let job = Stamp::new(1, lemont)?;
    let board = federation.look(rt, lemont, seat).ok()?;
    board.job(job)?;
    let sent = federation.ship(rt, lemont, lemont, seat).ok()?;
    let taken = federation.take_next(rt, lemont, seat);
    let is_well = said == Ok(Ok(Reply::Submitted(job)))
        && sent.queued
        && taken == Ok(Next::Taken(Taken { grew: false }));
    is_well.then_some(())
}

/// Gives a job another priority.
fn new_priority(rt: &impl Abort, job: JobId, priority: i16) -> Command {
    let changes = Changes {
        priority: Some(Priority::new(priority).expect(rt, "a priority")),
        ..UNCHANGED
    };
    Command::Alter { job, changes }
}

/// Whether the seat sees that the job has the priority.
fn sees_priority<G: Gate, R: Abort + Wait>(
    rt: &R,
    federation: &Federation<G>,
    seat: &mut Seat,
    priority: i16,
) -> bool {
    let board = federation.look(rt, site(0), seat).expect(rt, "a board");
    let job = board.job(stamp(1, 0)).expect(rt, "the job");
    job.priority().1.get() == priority
}

/// A change that both seats see.
fn see_change<G: Gate, R: Abort + Wait>(
    rt: &R,
    federation: &Federation<G>,
    first: &mut Seat,
    second: &mut Seat,
) {
    let command = new_priority(rt, stamp(1, 0), 9);
    let said = federation.call(rt, site(0), &ann(), &command, first);
    assert!(rt; said == Ok(Ok(Reply::Done)));
    assert!(rt; sees_priority(rt, federation, first, 9));
    assert!(rt; sees_priority(rt, federation, second, 9));
}

/// How many events the federation of the first seat, or of both, has, or the fault with which it is closed.
fn closed<G: Gate>(
    rt: &(impl Abort + AllocGlobal),
    federation: Federation<G>,
    first: Seat,
    second: Option<Seat>,
) -> Result<usize, CloseFault> {
    let mut seats = vec![in rt.alloc(); first].expect(rt, "memory");
    if let Some(second) = second {
        seats.push(second).expect(rt, "memory");
    }
    federation.close(seats).map(|run| run.order().len())
}

/// Both seats, of which the first is held until the second is through, which begins once the first is held; then a change
/// that both see. How many events the federation of these seats has, or the fault with which it is closed.
fn run_both<R: Abort + AllocGlobal + Threads + Wait + Sync>(
    rt: &R,
    with_second: bool,
) -> Result<usize, CloseFault> {
    let (arrived, let_go) = (AtomicBool::new(false), AtomicBool::new(false));
    let ran_out = AtomicBool::new(false);
    let gate = HeldGate {
        arrived: &arrived,
        let_go: &let_go,
        ran_out: &ran_out,
    };
    let federation = Federation::open(rt.alloc(), &two_sites(), gate).expect(rt, "memory");
    let mut first = federation.seat();
    let mut second = federation.seat();
    let (ann, bob, submission) = (ann(), bob(), submission());
    let (held, through) = thread::join(
        rt,
        || at_argonne(rt, &federation, &ann, &submission, &mut first),
        || {
            let is_held = is_met(&arrived);
            let through = at_lemont(rt, &federation, &bob, &submission, &mut second);
            let_go.store(true, Ordering::SeqCst);
            through.filter(|()| is_held)
        },
    );
    assert!(rt; held.is_some() && through.is_some() && !ran_out.load(Ordering::SeqCst));
    see_change(rt, &federation, &mut first, &mut second);
    let second = with_second.then_some(second);
    closed(rt, federation, first, second)
}

#[test]
fn sites_have_locks_of_their_own(rt: HostRuntime) {
    assert!(rt; run_both(&rt, true) == Ok(5));
}

#[test]
fn a_seat_is_left_out(rt: HostRuntime) {
    let (site, index) = (site(1), 0);
    assert!(rt; run_both(&rt, false) == Err(CloseFault::Unclaimed { site, index }));
}

/// The federation is behind a seat that has seen one entry at argonne, where it has none.
fn see_behind<R: Abort + Wait>(rt: &R, federation: &Federation<OpenGate>, seat: &mut Seat) {
    let behind = CallFault::Behind {
        seen: 1,
        found: 0,
        version: Version::default(),
    };
    let said = federation.call(rt, site(0), &ann(), &submission(), seat);
    assert!(rt; said == Err(behind));
}

/// The federation is behind the seat, and is closed by the fault that the seat's claim is strange.
fn see_strange<R: Abort + AllocGlobal + Wait>(rt: &R, other: Federation<OpenGate>, seat: Seat) {
    let mut seat = seat;
    see_behind(rt, &other, &mut seat);
    let closed = closed(rt, other, seat, None);
    assert!(rt; closed == Err(CloseFault::Strange { seat: 0, place: 0 }));
}

#[test]
fn a_seat_of_another_federation(rt: HostRuntime) {
    let alloc = rt.alloc();
    let federation = Federation::open(alloc, &two_sites(), OpenGate).expect(&rt, "memory");
    let mut seat = federation.seat();
    let done = at_argonne(&rt, &federation, &ann(), &submission(), &mut seat);
    assert!(rt; done.is_some());
    let other = Federation::open(alloc, &two_sites(), OpenGate).expect(&rt, "memory");
    see_strange(&rt, other, seat);
}

/// A job is submitted at the site of this number, as its first.
fn see_submitted<R: Abort + Wait>(
    rt: &R,
    federation: &Federation<OpenGate>,
    number: u8,
    who: &Who,
    seat: &mut Seat,
) {
    let said = federation.call(rt, site(number), who, &submission(), seat);
    assert!(rt; said == Ok(Ok(Reply::Submitted(stamp(1, number)))));
}

/// ann submits a job, bob submits one at the other site, and one at a site of the other federation.
fn submit_all<R: Abort + Wait>(
    rt: &R,
    federation: &Federation<OpenGate>,
    other: &Federation<OpenGate>,
    first: &mut Seat,
    second: &mut Seat,
) {
    see_submitted(rt, federation, 0, &ann(), first);
    see_submitted(rt, federation, 1, &bob(), second);
    see_submitted(rt, other, 0, &bob(), second);
}

/// The second claim of the second seat names an entry that has its outcome, and another event.
#[test]
fn a_claim_of_another_event(rt: HostRuntime) {
    let alloc = rt.alloc();
    let federation = Federation::open(alloc, &two_sites(), OpenGate).expect(&rt, "memory");
    let other = Federation::open(alloc, &two_sites(), OpenGate).expect(&rt, "memory");
    let (mut first, mut second) = (federation.seat(), federation.seat());
    submit_all(&rt, &federation, &other, &mut first, &mut second);
    let closed = closed(&rt, federation, first, Some(second));
    assert!(rt; closed == Err(CloseFault::Strange { seat: 1, place: 1 }));
}

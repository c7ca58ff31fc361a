//! Replicas, worlds, federations and scripts: `fed_replica`, `fed_world`, `fed_threads` and `fed_main`.
use fed_board::Board;
use fed_delta::Absorb;
use fed_main::{RunFault, live, live_with, replay};
use fed_record::{Refusal, Reply};
use fed_replica::{Replica, Taken};
use fed_stamp::SiteId;
use fed_threads::{
    Asked, CallFault, Claim, CloseFault, Dropped, Entry, Federation, Gate, Next, Run, Seat, Sent,
    settle,
};
use fed_world::{Event, Outcome, World, run};
use std::process::Abort;
use std::sync::Wait;
use std::thread::Threads;
use test_values::{ann, site, stamp, submission, two_sites};

#[test]
fn replicas(rt: HostRuntime) {
    let mut argonne = Replica::new(rt.alloc(), site(0));
    let said: Result<Reply, Refusal> = argonne.act(&ann(), &submission());
    assert!(rt; said == Ok(Reply::Submitted(stamp(1, 0))));
    let packet = argonne.ship(site(1)).expect(&rt, "memory");
    let mut lemont = Replica::new(rt.alloc(), site(1));
    let taken: Result<Taken, Absorb> = lemont.take(&packet);
    assert!(rt; taken == Ok(Taken { grew: true }));
    let board: &Board = lemont.board();
    assert!(rt; *board == *argonne.board());
}

/// ann submits a job at argonne.
fn submitted() -> Event {
    Event::Do {
        site: site(0),
        who: ann(),
        command: submission(),
    }
}

#[test]
fn worlds(rt: HostRuntime) {
    let mut world: World = World::new(rt.alloc(), &two_sites()).expect(&rt, "memory");
    let said: Outcome = world.step(&submitted()).expect(&rt, "memory");
    assert!(rt; said == Outcome::Replied(Reply::Submitted(stamp(1, 0))));
    let (site, to) = (site(0), site(1));
    let made = world.step(&Event::Ship { site, to }).expect(&rt, "memory");
    assert!(rt; made == Outcome::Packet(1) && world.events().len() == 2);
    assert!(rt; world.board(site).is_some() && world.text(1).is_some() && world.text(2).is_none());
    let (_, outcomes) = run(rt.alloc(), &two_sites(), &[submitted()]).expect(&rt, "memory");
    assert!(rt; outcomes.as_slice() == [said].as_slice());
}

/// A gate that does nothing.
#[derive(Drop)]
struct Idle;

impl Gate for Idle {
    fn inside(&self, _site: SiteId, _index: u64) {}
}

/// A job is submitted at argonne, shipped to lemont twice, and taken there once.
fn pass_on<R: Abort + Wait>(rt: &R, federation: &Federation<Idle>, seat: &mut Seat) {
    let said = federation.call(rt, site(0), &ann(), &submission(), seat);
    assert!(rt; said == Ok(Ok(Reply::Submitted(stamp(1, 0)))));
    let sent: Result<Sent, CallFault> = federation.ship(rt, site(0), site(1), seat);
    assert!(rt; sent.is_ok_and(|sent| sent.place == 1 && sent.queued));
    let lost: Result<Sent, CallFault> = federation.ship(rt, site(0), site(1), seat);
    assert!(rt; lost.is_ok_and(|sent| sent.place == 2 && sent.queued));
    assert!(rt; federation.drop_next(rt, site(1)) == Ok(Dropped::Parcel));
    let taken: Result<Next, CallFault> = federation.take_next(rt, site(1), seat);
    assert!(rt; taken == Ok(Next::Taken(Taken { grew: true })));
    let ended: Result<(), CallFault> = federation.end(rt, site(1));
    assert!(rt; ended == Ok(()) && federation.take_next(rt, site(1), seat) == Ok(Next::Ended));
    assert!(rt; CallFault::NoSite.number() == 1);
}

/// What the seat knows after that.
fn see_seat<R: Abort + Wait>(rt: &R, federation: &Federation<Idle>, seat: &mut Seat) {
    let board: Board = federation.look(rt, site(1), seat).expect(rt, "a board");
    assert!(rt; seat.seen(site(0)) == 3 && seat.version(site(1)) == board.version());
    let claims: &[Claim] = seat.claims();
    let asked: &[Asked] = seat.asked();
    assert!(rt; claims.len() == 4 && asked.len() == 4);
}

#[test]
fn federations(rt: HostRuntime) {
    let federation: Federation<Idle> = Federation::open(rt.alloc(), &two_sites(), Idle).expect(
        &rt, "memory",
    );
    let mut seat: Seat = federation.seat();
    pass_on(&rt, &federation, &mut seat);
    see_seat(&rt, &federation, &mut seat);
    let seats = vec![in rt.alloc(); seat].expect(&rt, "memory");
    let closed: Run = federation.close(seats).expect(&rt, "a run");
    assert!(rt; closed.order().len() == 4 && closed.board(site(0)) == closed.board(site(1)));
    let journal: Option<&[Entry]> = closed.journal(site(0));
    assert!(rt; journal.is_some_and(|entries| entries.len() == 3));
}

#[test]
fn settling(rt: HostRuntime) {
    let alloc = rt.alloc();
    let journals = vec![in alloc; Vec::new(alloc), Vec::new(alloc)].expect(&rt, "memory");
    let index = 0;
    let outcome = Outcome::Packet(1);
    let claim = Claim {
        site: site(0),
        index,
        outcome,
    };
    let claims = vec![in alloc; claim].expect(&rt, "memory");
    let seats = vec![in alloc; claims].expect(&rt, "memory");
    let roster = two_sites();
    assert!(rt; journals.len() == roster.len());
    let fault: CloseFault = settle(alloc, &roster, &journals, &seats).expect_err(
        &rt,
        "a strange claim",
    );
    let (seat, place) = (0, 0);
    assert!(rt; fault == CloseFault::Strange { seat, place } && fault.number() == 1);
    let settled = settle(alloc, &roster, &journals, &[]).expect(&rt, "no events");
    assert!(rt; settled.is_empty());
}

/// One job at one site.
const SCRIPT: &str = "roster argonne:8\nargonne ann qsub\n";

#[test]
fn replays(rt: HostRuntime) {
    let mut written = Vec::new(rt.alloc());
    let ran: Result<(), RunFault> = replay(rt.alloc(), &mut SCRIPT.as_bytes(), &mut written);
    assert!(rt; ran == Ok(()) && written.as_slice() == b"1.argonne\n".as_slice());
    let fault = replay(rt.alloc(), &mut "roster".as_bytes(), &mut written);
    assert!(rt; fault == Err(RunFault::Line(1)) && RunFault::Line(1).number() == 1);
}

/// What a live run of the script answers, also with a gate.
fn see_live<R: Abort + Threads + Wait + Sync + AllocGlobal>(rt: &R) {
    let mut written = Vec::new(rt.alloc());
    let ran = live(rt, rt.alloc(), &mut SCRIPT.as_bytes(), &mut written);
    assert!(rt; ran == Ok(()) && written.as_slice() == b"1.argonne\nevents 1\n".as_slice());
    let mut gated = Vec::new(rt.alloc());
    let ran = live_with(rt, rt.alloc(), &mut SCRIPT.as_bytes(), &mut gated, Idle);
    assert!(rt; ran == Ok(()) && gated.as_slice() == b"1.argonne\nevents 1\n".as_slice());
}

#[test]
fn live_runs(rt: HostRuntime) {
    see_live(&rt);
}

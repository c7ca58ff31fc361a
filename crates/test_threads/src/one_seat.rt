//! One seat at a federation of two sites.
use crate::entries::settled_journals;
use fed_record::Reply;
use fed_replica::Taken;
use fed_threads::{CallFault, Dropped, Entry, Federation, Next, OpenGate, Run, Seat};
use fed_world::Event;
use std::process::Abort;
use std::sync::Wait;
use test_values::{ann, site, stamp, submission, two_sites};

/// The roster has no third site: a call there adds no event.
fn see_no_site<R: Abort + Wait>(rt: &R, federation: &Federation<OpenGate>, seat: &mut Seat) {
    let said = federation.call(rt, site(2), &ann(), &submission(), seat);
    assert!(rt; said == Err(CallFault::NoSite));
    assert!(rt; federation.end(rt, site(2)) == Err(CallFault::NoSite));
}

/// Submits a job at argonne, ships it to lemont twice, drops one parcel and takes the other.
fn submit_and_pass<R: Abort + Wait>(rt: &R, federation: &Federation<OpenGate>, seat: &mut Seat) {
    let (argonne, lemont) = (site(0), site(1));
    let said = federation.call(rt, argonne, &ann(), &submission(), seat);
    assert!(rt; said == Ok(Ok(Reply::Submitted(stamp(1, 0)))));
    let first = federation
        .ship(rt, argonne, lemont, seat)
        .expect(rt, "a shipment");
    assert!(rt; first.place == 1 && first.queued);
    let second = federation
        .ship(rt, argonne, lemont, seat)
        .expect(rt, "a shipment");
    assert!(rt; second.place == 2 && second.queued);
    assert!(rt; federation.drop_next(rt, lemont) == Ok(Dropped::Parcel));
    let taken = federation.take_next(rt, lemont, seat);
    assert!(rt; taken == Ok(Next::Taken(Taken { grew: true })));
}

/// Both journals have the same entries.
fn see_same_entries(rt: &impl Abort, kept: &[Entry], given: &[Entry]) {
    assert!(rt; kept.len() == given.len());
    for (kept, given) in kept.iter().zip(given) {
        assert!(rt; kept.asked == given.asked && kept.outcome == given.outcome);
        assert!(rt; kept.packet.as_ref() == given.packet.as_ref());
    }
}

/// What lemont took is its board, and the scene whose journals are given to `settle` is this run.
fn see_passed_on(rt: &(impl Abort + AllocGlobal), run: &Run) {
    let (argonne, lemont) = (site(0), site(1));
    let take = Event::Take {
        site: lemont,
        packet: 2,
    };
    assert!(rt; run.order().len() == 4 && run.order().get(3) == Some(&take));
    assert!(rt; run.board(argonne).is_some() && run.board(argonne) == run.board(lemont));
    assert!(rt; run.board(site(2)).is_none() && run.journal(site(2)).is_none());
    let journals = settled_journals(rt);
    see_same_entries(
        rt,
        run.journal(argonne).expect(rt, "a journal"),
        &journals[0],
    );
    see_same_entries(
        rt,
        run.journal(lemont).expect(rt, "a journal"),
        &journals[1],
    );
}

/// Lemont's queue is ended.
fn end<R: Abort + Wait>(rt: &R, federation: &Federation<OpenGate>, seat: &mut Seat) {
    let (argonne, lemont) = (site(0), site(1));
    federation.end(rt, lemont).expect(rt, "memory");
    assert!(rt; federation.take_next(rt, lemont, seat) == Ok(Next::Ended));
    assert!(rt; seat.seen(argonne) == 3 && seat.seen(lemont) == 1);
}

#[test]
fn one_job_is_passed_on(rt: HostRuntime) {
    let federation = Federation::open(rt.alloc(), &two_sites(), OpenGate).expect(&rt, "memory");
    let mut seat = federation.seat();
    see_no_site(&rt, &federation, &mut seat);
    submit_and_pass(&rt, &federation, &mut seat);
    end(&rt, &federation, &mut seat);
    let seats = vec![in rt.alloc(); seat].expect(&rt, "memory");
    see_passed_on(&rt, &federation.close(seats).expect(&rt, "a run"));
}

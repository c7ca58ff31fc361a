//! The last counter: a site that has heard of it can do nothing more.
use fed_delta::Packet;
use fed_record::{Refusal, Reply};
use fed_replica::Replica;
use fed_stamp::{MAX_COUNTER, Stamp};
use fed_wire::read;
use std::process::Abort;
use test_values::{root, site, stamp, submission};

/// An empty packet of argonne, site 0, that reaches the last counter of lemont, site 1.
const LAST_COUNTER: &str = "{\"format\":1,\"jobs\":[],\"need\":[0,0,0,0,0,0,0,0,0,0,0,0,0,0,0,0],\
    \"reached\":[0,1000000000,0,0,0,0,0,0,0,0,0,0,0,0,0,0],\"reservations\":[],\"sender\":0}";

/// An empty packet of site 2 that reaches the last counter but one of its own.
const LAST_BUT_ONE: &str = "{\"format\":2,\"jobs\":[],\"need\":[0,0,0,0,0,0,0,0,0,0,0,0,0,0,0,0],\
    \"reached\":[0,0,999999999,0,0,0,0,0,0,0,0,0,0,0,0,0],\"reservations\":[],\"sender\":2}";

fn replica(rt: &impl AllocGlobal, number: u8) -> Replica {
    Replica::new(rt.alloc(), site(number))
}

/// Whether the replica's board grew by the packet.
fn grew(rt: &impl Abort, replica: &mut Replica, packet: &Packet) -> bool {
    replica.take(packet).expect(rt, "a packet that fits").grew
}

/// Whether the replica's board grew by the packet of the text.
fn grew_by(rt: &(impl Abort + AllocGlobal), replica: &mut Replica, text: &str) -> bool {
    let packet = read(rt.alloc(), text.as_bytes()).expect(rt, "a packet");
    grew(rt, replica, &packet)
}

#[test]
fn no_counter_is_above_the_last(rt: HostRuntime) {
    let mut argonne = replica(&rt, 0);
    assert!(rt; grew_by(&rt, &mut argonne, LAST_COUNTER));
    assert!(rt; argonne.act(&root(), &submission()) == Err(Refusal::ClockFull));
    assert!(rt; Refusal::ClockFull.number() == 15);
}

/// What a site ships that has used its last counter, by this stamp.
fn shipped_with_the_last_counter(rt: &(impl Abort + AllocGlobal), last: Stamp) -> Packet {
    let mut lemont = replica(rt, 1);
    assert!(rt; grew_by(rt, &mut lemont, LAST_BUT_ONE));
    assert!(rt; lemont.act(&root(), &submission()) == Ok(Reply::Submitted(last)));
    lemont.ship(site(0)).expect(rt, "memory")
}

#[test]
fn last_counter_is_used(rt: HostRuntime) {
    let last = stamp(MAX_COUNTER, 1);
    let packet = shipped_with_the_last_counter(&rt, last);
    let mut argonne = replica(&rt, 0);
    assert!(rt; grew(&rt, &mut argonne, &packet));
    assert!(rt; argonne.board().job(last).is_some());
    assert!(rt; argonne.act(&root(), &submission()) == Err(Refusal::ClockFull));
}

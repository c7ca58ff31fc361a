//! Replicas, and what they hold of others. Where memory may be refused, a call answers as with ample memory, or by want of memory; then it
//! leaves all as before, and answers as with ample memory when it is asked again. So the tests pass whichever allocation
//! fails, which `rt try --test --fail-alloc N` does for the Nth.
use fed_board::Board;
use fed_delta::{Absorb, Packet};
use fed_lattice::NoMemory;
use fed_record::{Changes, Command, HoldKinds, Refusal, Reply, Who, Window};
use fed_replica::Replica;
use fed_stamp::{SiteId, SiteSet};
use std::process::Abort;
use test_values::{UNCHANGED, ann, root, site, stamp, submission};

fn replica(rt: &impl AllocGlobal, number: u8) -> Replica {
    Replica::new(rt.alloc(), site(number))
}

pub(crate) fn copied(rt: &impl Abort, board: &Board) -> Board {
    match board.copy() {
        Ok(copy) => copy,
        Err(NoMemory) => board.copy().expect(rt, "memory"),
    }
}

fn twin(rt: &impl Abort, replica: &Replica) -> Replica {
    match replica.copy() {
        Ok(copy) => copy,
        Err(NoMemory) => replica.copy().expect(rt, "memory"),
    }
}

/// Reserves eight nodes of site 0.
fn reservation() -> Command {
    let window = Window {
        site: site(0),
        start: 50,
        end: 60,
        nodes: 8,
    };
    Command::Reserve { window }
}

/// Commands of which each adds an operation, and the replies to them.
fn questions() -> [(Command, Reply); 9] {
    let job = stamp(1, 0);
    let kinds = HoldKinds::USER | HoldKinds::SYSTEM;
    let changes = Changes {
        sites: SiteSet::new(&[site(1)]),
        ..UNCHANGED
    };
    let made = stamp(5, 0);
    let asker = site(1);
    [
        (submission(), Reply::Submitted(job)),
        (Command::Hold { job, kinds }, Reply::Done),
        (Command::Release { job, kinds }, Reply::Done),
        (Command::Alter { job, changes }, Reply::Done),
        (reservation(), Reply::Reserved(made)),
        (Command::Cancel { reservation: made }, Reply::Done),
        (Command::Grant { job, asker }, Reply::Granted),
        (Command::Delete { job }, Reply::Done),
        (submission(), Reply::Submitted(stamp(9, 0))),
    ]
}

/// What the replica replies to the command. A refusal is want of memory, and leaves the board.
fn replied(rt: &impl Abort, replica: &mut Replica, who: &Who, command: &Command) -> Reply {
    let before = copied(rt, replica.board());
    let refusal = match replica.act(who, command) {
        Ok(reply) => return reply,
        Err(refusal) => refusal,
    };
    assert!(rt; refusal == Refusal::NoMemory && *replica.board() == before);
    replica.act(who, command).expect(rt, "a reply")
}

fn shipped(rt: &impl Abort, replica: &Replica, to: SiteId) -> Packet {
    match replica.ship(to) {
        Ok(packet) => packet,
        Err(NoMemory) => replica.ship(to).expect(rt, "memory"),
    }
}

/// Whether the board grows by the packet. A fault is want of memory, and leaves the board and what was heard of each site.
fn grown(rt: &impl Abort, replica: &mut Replica, packet: &Packet) -> bool {
    let before = copied(rt, replica.board());
    let heard = [replica.heard(site(0)), replica.heard(site(1))];
    let fault = match replica.take(packet) {
        Ok(taken) => return taken.grew,
        Err(fault) => fault,
    };
    assert!(rt; fault == Absorb::NoMemory && *replica.board() == before);
    assert!(rt; [replica.heard(site(0)), replica.heard(site(1))] == heard);
    replica.take(packet).expect(rt, "a packet that fits").grew
}

/// Each of the commands is replied to as with ample memory.
fn see_done(rt: &impl Abort, replica: &mut Replica) {
    let who = root();
    for (command, wanted) in &questions() {
        assert!(rt; replied(rt, replica, &who, command) == *wanted);
    }
}

/// Lemont has what argonne has, and so has a copy of it.
fn see_same(rt: &impl Abort, lemont: &Replica, argonne: &Replica) {
    let version = argonne.board().version();
    assert!(rt; *lemont.board() == *argonne.board() && lemont.heard(site(0)) == version);
    let copy = twin(rt, lemont);
    assert!(rt; *copy.board() == *argonne.board() && copy.heard(site(0)) == version);
}

#[test]
fn failed_allocations_of_a_replica(rt: HostRuntime) {
    let mut argonne = replica(&rt, 0);
    see_done(&rt, &mut argonne);
    let packet = shipped(&rt, &argonne, site(1));
    let mut lemont = replica(&rt, 1);
    assert!(rt; grown(&rt, &mut lemont, &packet));
    assert!(rt; !grown(&rt, &mut lemont, &packet));
    see_same(&rt, &lemont, &argonne);
}

/// Lemont once it has taken what argonne ships, where ann has submitted a job.
fn taker(rt: &(impl Abort + AllocGlobal)) -> Replica {
    let mut argonne = replica(rt, 0);
    assert!(rt; argonne.act(&ann(), &submission()) == Ok(Reply::Submitted(stamp(1, 0))));
    let packet = argonne.ship(site(1)).expect(rt, "memory");
    let mut lemont = replica(rt, 1);
    assert!(rt; lemont.take(&packet).expect(rt, "a packet that fits").grew);
    lemont
}

/// Whether a replica that begins with all records of another, and then hears what it has heard of argonne, is the same then
/// and not before.
fn hears_again(rt: &(impl Abort + AllocGlobal), replica: &Replica) -> bool {
    let records = replica
        .whole()
        .expect(rt, "memory")
        .into_delta()
        .into_changes();
    let mut again = Replica::holding(rt.alloc(), replica.site(), records);
    let is_same_before = again.is_same(replica);
    !grown(rt, &mut again, &replica.hearing(site(0))) && again.is_same(replica) && !is_same_before
}

#[test]
fn what_was_heard_is_heard_again(rt: HostRuntime) {
    assert!(rt; hears_again(&rt, &taker(&rt)));
}

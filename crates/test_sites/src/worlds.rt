//! Worlds of two sites. Where memory may be refused, a call answers as with ample memory, or by want of memory; then it
//! leaves all as before, and answers as with ample memory when it is asked again. So the tests pass whichever allocation
//! fails, which `rt try --test --fail-alloc N` does for the Nth.
use crate::replicas::copied;
use fed_board::Board;
use fed_lattice::NoMemory;
use fed_record::Reply;
use fed_replica::Taken;
use fed_world::{Event, Outcome, World, run};
use std::alloc::{AllocError, Global};
use std::process::Abort;
use test_values::{ann, site, stamp, submission, two_sites};

/// The text, in format 2, of a packet of site 0 that tells of one job, which nobody altered since ann submitted it there.
const ONE_JOB: &str =
    "{\"format\":2,\"jobs\":[{\"account\":[\"\",[1,0]],\"deleted\":false,\"grant\":null,\"holds\":[],\"id\":[1,0],\
     \"limit\":[3600,[1,0]],\"name\":[\"STDIN\",[1,0]],\"nodes\":[1,[1,0]],\"owner\":[\"ann\",[1,0]],\
     \"priority\":[0,[1,0]],\"progress\":null,\"sites\":[[0,[1,0]],[1,[1,0]]],\
     \"touched\":[1,0,0,0,0,0,0,0,0,0,0,0,0,0,0,0]}],\"need\":[0,0,0,0,0,0,0,0,0,0,0,0,0,0,0,0],\
     \"reached\":[1,0,0,0,0,0,0,0,0,0,0,0,0,0,0,0],\"reservations\":[],\"sender\":0}";

/// ann submits a job.
fn submit(number: u8) -> Event {
    Event::Do {
        site: site(number),
        who: ann(),
        command: submission(),
    }
}

fn ship(number: u8, to: u8) -> Event {
    Event::Ship {
        site: site(number),
        to: site(to),
    }
}

fn take(number: u8, packet: u64) -> Event {
    Event::Take {
        site: site(number),
        packet,
    }
}

/// Events of which some name a packet that was not made or a site that is not there.
fn events() -> [Event; 8] {
    [
        take(0, 1),
        submit(2),
        ship(0, 5),
        take(9, 7),
        submit(0),
        ship(0, 1),
        take(1, 1),
        take(1, 1),
    ]
}

fn outcomes() -> [Outcome; 8] {
    [
        Outcome::NoPacket,
        Outcome::NoSite,
        Outcome::NoSite,
        Outcome::NoSite,
        Outcome::Replied(Reply::Submitted(stamp(1, 0))),
        Outcome::Packet(1),
        Outcome::Taken(Taken { grew: true }),
        Outcome::Taken(Taken { grew: false }),
    ]
}

/// Whether the first two sites have the same board.
fn are_equal(world: &World) -> bool {
    match (world.board(site(0)), world.board(site(1))) {
        (Some(argonne), Some(lemont)) => *argonne == *lemont,
        _ => false,
    }
}

/// The texts of all packets, one behind another.
fn texts_of(alloc: Global, world: &World) -> Result<Vec<u8>, AllocError> {
    let mut texts = Vec::new(alloc);
    for packet in 1..=world.made() {
        texts.extend_from_slice(world.text(packet).unwrap_or_default())?;
    }
    Ok(texts)
}

fn texts(rt: &(impl Abort + AllocGlobal), world: &World) -> Vec<u8> {
    match texts_of(rt.alloc(), world) {
        Ok(texts) => texts,
        Err(_) => texts_of(rt.alloc(), world).expect(rt, "memory"),
    }
}

/// The board of a site of the world.
fn board(rt: &impl Abort, world: &World, number: u8) -> Board {
    copied(rt, world.board(site(number)).expect(rt, "a board"))
}

/// All that a world of two sites keeps.
#[derive(Drop)]
struct Kept {
    events: usize,
    argonne: Board,
    lemont: Board,
    texts: Vec<u8>,
}

fn kept_by(rt: &(impl Abort + AllocGlobal), world: &World) -> Kept {
    Kept {
        events: world.events().len(),
        argonne: board(rt, world, 0),
        lemont: board(rt, world, 1),
        texts: texts(rt, world),
    }
}

/// The world is as before.
fn see_kept(rt: &(impl Abort + AllocGlobal), world: &World, before: &Kept) {
    assert!(rt; world.events().len() == before.events && texts(rt, world) == before.texts);
    assert!(rt; world.board(site(0)) == Some(&before.argonne));
    assert!(rt; world.board(site(1)) == Some(&before.lemont));
}

/// What is answered to the event. A refused step leaves the world.
fn answered(rt: &(impl Abort + AllocGlobal), world: &mut World, event: &Event) -> Outcome {
    let before = kept_by(rt, world);
    if let Ok(outcome) = world.step(event) {
        return outcome;
    }
    see_kept(rt, world, &before);
    world.step(event).expect(rt, "memory")
}

fn new_world(rt: &(impl Abort + AllocGlobal)) -> World {
    match World::new(rt.alloc(), &two_sites()) {
        Ok(world) => world,
        Err(NoMemory) => World::new(rt.alloc(), &two_sites()).expect(rt, "memory"),
    }
}

#[test]
fn failed_allocations_of_a_world(rt: HostRuntime) {
    let mut world = new_world(&rt);
    for (event, wanted) in events().iter().zip(outcomes()) {
        assert!(rt; answered(&rt, &mut world, event) == wanted);
    }
    assert!(rt; world.events() == events().as_slice() && are_equal(&world));
    assert!(rt; world.text(1) == Some(ONE_JOB.as_bytes()));
}

/// The events are answered as with ample memory where they are run at once, or memory is refused.
#[test]
fn failed_allocations_of_a_run(rt: HostRuntime) {
    match run(rt.alloc(), &two_sites(), &events()) {
        Ok((_world, answered)) => assert!(rt; answered.as_slice() == outcomes().as_slice()),
        Err(NoMemory) => {}
    }
}

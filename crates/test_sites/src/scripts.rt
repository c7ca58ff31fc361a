//! Scripts whose lines are the events of a world: what their packets need and reach, and that each packet is read and written
//! again as the same text.
use fed_record::{Command, Reply, Who};
use fed_replica::Taken;
use fed_script::{Line, read_later_line};
use fed_stamp::{JobId, Roster, SiteId, Stamp, Version};
use fed_wire::{read, write};
use fed_world::{Event, Outcome, World, run};
use std::process::Abort;
use test_values::{site, stamp, two_sites};

/// Two sites with a job each exchange what they have, both alter a job, and they exchange that.
const ALTERED: &[&str] = &[
    "argonne ann qsub",
    "lemont bob qsub",
    "argonne ship lemont",
    "lemont ship argonne",
    "lemont take 1",
    "argonne take 2",
    "argonne ann qalter -p 5 1.argonne",
    "lemont ann qalter -p 7 1.argonne",
    "argonne ship lemont",
    "lemont ship argonne",
    "lemont take 3",
    "argonne take 4",
];

/// A second hold is set while the first is released elsewhere; then it is released too.
const RELEASED: &[&str] = &[
    "argonne ann qsub -h",
    "argonne ship lemont",
    "lemont take 1",
    "argonne ann qhold 1",
    "lemont ann qrls 1.argonne",
    "argonne ship lemont",
    "lemont ship argonne",
    "lemont take 2",
    "argonne take 3",
    "argonne ann qrls 1",
    "argonne ship lemont",
    "lemont take 4",
];

/// A packet with a hold comes once the release has come.
const LATE: &[&str] = &[
    "argonne ann qsub",
    "argonne ann qhold 1",
    "argonne ship batavia",
    "argonne ship lemont",
    "lemont take 2",
    "lemont ann qrls 1.argonne",
    "lemont ship batavia",
    "batavia take 3",
    "batavia take 1",
];

/// A packet that was made for lemont comes to batavia, which lacks what lemont had told.
const MADE_FOR_ANOTHER: &[&str] = &[
    "argonne ann qsub",
    "argonne ship lemont",
    "lemont take 1",
    "lemont ship argonne",
    "argonne take 2",
    "argonne ann qsub",
    "argonne ship lemont",
    "batavia take 3",
    "argonne ship batavia",
    "batavia take 4",
    "batavia take 3",
];

/// A job is granted to another site, and runs there.
const GRANTED: &[&str] = &[
    "argonne ann qsub",
    "argonne ship lemont",
    "lemont take 1",
    "argonne grant 1 lemont",
    "argonne ship lemont",
    "lemont take 2",
    "lemont begin 1.argonne 0",
    "lemont finish 1.argonne 50 0",
    "lemont ship argonne",
    "argonne take 3",
];

/// A job is deleted elsewhere while it begins.
const DELETED: &[&str] = &[
    "argonne ann qsub",
    "argonne grant 1 argonne",
    "argonne ship lemont",
    "lemont take 1",
    "argonne begin 1 10",
    "lemont ann qdel 1.argonne",
    "argonne ship lemont",
    "lemont ship argonne",
    "lemont take 2",
    "argonne take 3",
];

/// Two sites reserve the same nodes.
const RESERVED: &[&str] = &[
    "argonne oz/operator reserve argonne 50 60 8",
    "lemont oz/operator reserve argonne 50 60 8",
    "lemont ship argonne",
    "argonne take 1",
];

fn three_sites(rt: &impl Abort) -> Roster {
    Roster::new(&[("argonne", 8), ("lemont", 4), ("batavia", 2)]).expect(rt, "a roster")
}

/// One event more.
fn happen(rt: &impl Abort, world: &mut World, event: &Event) {
    world.step(event).expect(rt, "memory");
}

/// Somebody asks a site for a command.
fn ask(rt: &impl Abort, world: &mut World, site: SiteId, who: &Who, command: &Command) {
    let event = Event::Do {
        site,
        who: *who,
        command: *command,
    };
    happen(rt, world, &event);
}

/// Somebody asks a site for these commands.
fn ask_each(rt: &impl Abort, world: &mut World, site: SiteId, who: &Who, commands: &[Command]) {
    for command in commands {
        ask(rt, world, site, who, command);
    }
}

/// The events of a line that asks for commands, ships or takes.
fn say(rt: &(impl Abort + AllocGlobal), world: &mut World, roster: &Roster, line: &str) {
    let read = read_later_line(rt.alloc(), roster, world.made(), line.as_bytes());
    match read.expect(rt, "memory").expect(rt, "a line") {
        Line::Act {
            site,
            who,
            commands,
        } => ask_each(rt, world, site, &who, &commands),
        Line::Ship { site, to } => happen(rt, world, &Event::Ship { site, to }),
        Line::Take { site, packet } => happen(rt, world, &Event::Take { site, packet }),
        _ => panic!(rt; "{line}"),
    }
}

/// The world in which the lines were said, one after another.
fn world_of(rt: &(impl Abort + AllocGlobal), roster: &Roster, lines: &[&str]) -> World {
    let mut world = World::new(rt.alloc(), roster).expect(rt, "memory");
    for line in lines {
        say(rt, &mut world, roster, line);
    }
    world
}

/// Whether the text is read as a packet of which the text is the same.
fn is_written_again(rt: &(impl Abort + AllocGlobal), text: &[u8]) -> bool {
    let packet = read(rt.alloc(), text).expect(rt, "a packet");
    let again = write(rt.alloc(), &packet).expect(rt, "memory");
    again.as_slice() == text
}

/// The lines make so many packets, each of which is written again.
fn see_written_again(
    rt: &(impl Abort + AllocGlobal),
    roster: &Roster,
    lines: &[&str],
    packets: u64,
) {
    let world = world_of(rt, roster, lines);
    assert!(rt; world.made() == packets);
    for number in 1..=packets {
        let text = world.text(number).expect(rt, "a text");
        assert!(rt; is_written_again(rt, text), "{number}");
    }
}

#[test]
fn packets_are_written_again(rt: HostRuntime) {
    let two = two_sites();
    let three = three_sites(&rt);
    see_written_again(&rt, &two, ALTERED, 4);
    see_written_again(&rt, &two, RELEASED, 4);
    see_written_again(&rt, &three, LATE, 3);
    see_written_again(&rt, &three, MADE_FOR_ANOTHER, 4);
    see_written_again(&rt, &two, GRANTED, 3);
    see_written_again(&rt, &two, DELETED, 3);
    see_written_again(&rt, &two, RESERVED, 1);
}

/// The version that has seen these stamps, and nothing else.
fn version(stamps: &[Stamp]) -> Version {
    let mut version = Version::default();
    for stamp in stamps {
        version = version.with(*stamp);
    }
    version
}

/// The packet needs what covers these stamps, reaches what covers those, and tells of this job alone.
fn see_told(
    rt: &(impl Abort + AllocGlobal),
    text: Option<&[u8]>,
    need: &[Stamp],
    reached: &[Stamp],
    job: JobId,
) {
    let packet = read(rt.alloc(), text.expect(rt, "a text")).expect(rt, "a packet");
    let delta = packet.delta();
    assert!(rt; delta.need() == version(need) && delta.reached() == version(reached));
    let mut jobs = delta.jobs();
    assert!(rt; jobs.next().map(|(id, _record)| *id) == Some(job) && jobs.next().is_none());
}

// Lemont has told that it has heard of the first job, so that the second alone is told.
#[test]
fn what_was_heard_is_not_told(rt: HostRuntime) {
    let world = world_of(&rt, &three_sites(&rt), MADE_FOR_ANOTHER);
    let (first, second) = (stamp(1, 0), stamp(2, 0));
    see_told(&rt, world.text(3), &[first], &[second], second);
}

// Nothing was added but a release, and the job is told.
#[test]
fn a_release_alone_is_told(rt: HostRuntime) {
    let world = world_of(&rt, &two_sites(), RELEASED);
    let (job, other) = (stamp(1, 0), stamp(2, 1));
    see_told(
        &rt,
        world.text(4),
        &[job, other],
        &[stamp(3, 0), other],
        job,
    );
}

/// What is answered where a packet comes that was made for another.
fn answers() -> [Outcome; 11] {
    [
        Outcome::Replied(Reply::Submitted(stamp(1, 0))),
        Outcome::Packet(1),
        Outcome::Taken(Taken { grew: true }),
        Outcome::Packet(2),
        Outcome::Taken(Taken { grew: false }),
        Outcome::Replied(Reply::Submitted(stamp(2, 0))),
        Outcome::Packet(3),
        Outcome::Gap(site(0)),
        Outcome::Packet(4),
        Outcome::Taken(Taken { grew: true }),
        Outcome::Taken(Taken { grew: false }),
    ]
}

/// Whether argonne and batavia have the same board.
fn are_equal(world: &World) -> bool {
    match (world.board(site(0)), world.board(site(2))) {
        (Some(argonne), Some(batavia)) => *argonne == *batavia,
        _ => false,
    }
}

#[test]
fn events_are_run_as_one_list(rt: HostRuntime) {
    let roster = three_sites(&rt);
    let said = world_of(&rt, &roster, MADE_FOR_ANOTHER);
    let ran = run(rt.alloc(), &roster, said.events());
    let (world, answered) = ran.expect(&rt, "memory");
    assert!(rt; answered.as_slice() == answers().as_slice() && are_equal(&world));
}

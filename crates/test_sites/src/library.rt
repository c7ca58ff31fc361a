//! The library as docs/LIBRARY.md shows it: a replica that submits, ships and takes.
use fed_record::{Account, Command, JobValues, Limit, Nodes, Priority, Reply, Role, Who};
use fed_replica::Replica;
use fed_stamp::{SiteId, SiteSet, Stamp, Word};
use fed_wire::{read, write};
use std::process::Abort;

/// ann's job: one node for an hour, at either site.
fn job(rt: &impl Abort, sites: &[SiteId]) -> Command {
    let values = JobValues {
        name: Word::new("render").expect(rt, "a name"),
        priority: Priority::new(0).unwrap(),
        nodes: Nodes::new(1).unwrap(),
        limit: Limit::new(3600).unwrap(),
        account: Account::EMPTY,
        sites: SiteSet::new(sites).expect(rt, "sites"),
    };
    let held = false;
    Command::Submit { values, held }
}

#[test]
fn a_replica_submits_ships_and_takes(rt: HostRuntime) {
    let alloc = rt.alloc();
    let argonne = SiteId::new(0).unwrap();
    let lemont = SiteId::new(1).unwrap();
    let user = Word::new("ann").expect(&rt, "a user");
    let role = Role::User;
    let ann = Who { user, role };

    // argonne is asked for a job, and tells lemont of it
    let mut here = Replica::new(alloc, argonne);
    let said = here.act(&ann, &job(&rt, &[argonne, lemont]));
    assert!(rt; said == Ok(Reply::Submitted(Stamp::new(1, argonne).unwrap())));
    let packet = here.ship(lemont).expect(&rt, "memory");
    let text = write(alloc, &packet).expect(&rt, "memory");

    // lemont reads the text, which came by whatever way, and takes it
    let mut there = Replica::new(alloc, lemont);
    let came = read(alloc, &text).expect(&rt, "a packet");
    let taken = there.take(&came).expect(&rt, "a packet that fits");
    assert!(rt; taken.grew);
    assert!(rt; *there.board() == *here.board());
}

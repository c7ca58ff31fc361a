//! Machines that are refused, and a moment that is.
use fed_board::Board;
use fed_easy::{MAX_RUNNING, Machine, MachineFault, PlanFault, Running, plan, plan_without};
use std::process::Abort;
use test_values::site;

/// The fault of a machine of so many nodes with these entries, if there is one.
fn fault(rt: &(impl Abort + AllocGlobal), nodes: u64, entries: &[Running]) -> Option<MachineFault> {
    let running = Vec::from_slice(rt.alloc(), entries).expect(rt, "memory");
    Machine::new(nodes, running).err()
}

#[test]
fn machines_of_no_nodes_are_refused(rt: HostRuntime) {
    assert!(rt; fault(&rt, 0, &[]) == Some(MachineFault::Nodes));
    assert!(rt; MachineFault::Nodes.number() == 1 && fault(&rt, 1, &[]).is_none());
}

#[test]
fn machines_of_too_many_entries_are_refused(rt: HostRuntime) {
    let entry = Running { nodes: 1, end: 10 };
    let running = vec![in rt.alloc(); entry; 1_000_001].expect(&rt, "memory");
    let result = Machine::new(1, running);
    assert!(rt; matches!(result, Err(MachineFault::TooMany)));
    assert!(rt; MachineFault::TooMany.number() == 2 && MAX_RUNNING == 1_000_000);
}

#[test]
fn entries_of_no_nodes_are_refused(rt: HostRuntime) {
    let entries = [Running { nodes: 1, end: 10 }, Running { nodes: 0, end: 10 }];
    let refused = MachineFault::Entry { index: 1 };
    assert!(rt; fault(&rt, 1, &entries) == Some(refused) && refused.number() == 3);
}

#[test]
fn late_moments_are_refused(rt: HostRuntime) {
    let alloc = rt.alloc();
    let machine = Machine::new(1, Vec::new(alloc)).expect(&rt, "a machine");
    let board = Board::new(alloc);
    let late = 1_000_000_000_001;
    let planned = plan(alloc, &board, site(0), late, &machine);
    assert!(rt; planned.err() == Some(PlanFault::Moment) && PlanFault::Moment.number() == 1);
    let planned = plan_without(alloc, &board, site(0), late, &machine, &[]);
    assert!(rt; planned.err() == Some(PlanFault::Moment));
}

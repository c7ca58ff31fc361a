//! Machines, plans and listings where memory may be refused. Each call answers as with ample memory, or by want of memory,
//! and then by that alone: the tests pass whichever allocation fails, which `rt try --test --fail-alloc N` does for the
//! Nth.
use fed_board::Board;
use fed_easy::{Machine, MachineFault, Plan, PlanFault, machine_of, plan, plan_without};
use fed_qstat::{full, list, plan_text};
use fed_record::{Beginning, JobOperation, JobValues, Limit, Moment, Nodes, Operation, Term};
use fed_stamp::{Roster, SiteSet, Word};
use std::process::Abort;
use test_values::{ann, site, stamp, values};

/// Adds an operation of site 0, whose counter is new and whose job is there; once more where memory is refused.
fn act(rt: &impl Abort, board: &mut Board, counter: u64, operation: &Operation) {
    let at = stamp(counter, 0);
    assert!(rt; !board.version().covers(at) && board.has_named(at, operation));
    if board.apply(at, operation).is_err() {
        board.apply(at, operation).expect(rt, "memory");
    }
}

/// Submits a job that may run at site 0.
fn submit(rt: &impl Abort, board: &mut Board, counter: u64, nodes: u64, limit: u64) {
    let values = JobValues {
        name: Word::new("sort").expect(rt, "a name"),
        nodes: Nodes::new(nodes).expect(rt, "a number of nodes"),
        limit: Limit::new(limit).expect(rt, "a limit"),
        ..values(SiteSet::new(&[site(0)]).unwrap())
    };
    let (owner, held) = (ann().user, false);
    let submission = Operation::Submit {
        owner,
        values,
        held,
    };
    act(rt, board, counter, &submission);
}

/// A board on which 6 nodes run until second 100, and a job of 7 nodes waits.
fn busy(rt: &(impl Abort + AllocGlobal)) -> Board {
    let mut board = Board::new(rt.alloc());
    submit(rt, &mut board, 1, 6, 100);
    let (job, site, term) = (stamp(1, 0), site(0), Term::new(1).unwrap());
    let grant = Operation::OfJob(job, JobOperation::Grant { site, term });
    act(rt, &mut board, 2, &grant);
    let beginning = Beginning::new(
        Moment::new(0).unwrap(),
        Nodes::new(6).unwrap(),
        Limit::new(100).unwrap(),
    );
    let begin = Operation::OfJob(job, JobOperation::Begin { beginning });
    act(rt, &mut board, 3, &begin);
    submit(rt, &mut board, 4, 7, 3600);
    board
}

/// Whether the plan starts these jobs and has this head.
fn shows(plan: &Plan, starts: &[u64], head: Option<(u64, u64)>) -> bool {
    plan.starts
        .iter()
        .map(|job| job.counter())
        .eq(starts.iter().copied())
        && plan.head.map(|(job, second)| (job.counter(), second)) == head
}

/// The job that waits, as both listings show it to the roster of one site.
const LINE: &str =
    "4.argonne          sort             ann              Q      0        7      3600 -\n";

const LINES: &str =
    "Job Id: 4.argonne\n    Job_Name = sort\n    Job_Owner = ann\n    Account_Name = -\n    job_state = Q\n    Priority = 0\n    Hold_Types = n\n    Resource_List.nodes = 7\n    Resource_List.walltime = 3600\n    Resource_List.sites = argonne\n    granted = -\n    begun = -\n";

#[test]
fn failed_allocations_of_a_machine(rt: HostRuntime) {
    let board = busy(&rt);
    match machine_of(rt.alloc(), &board, site(0), 8) {
        Ok(machine) => assert!(rt; machine.running().len() == 1),
        Err(fault) => assert!(rt; fault == MachineFault::NoMemory),
    }
    let fault = machine_of(rt.alloc(), &board, site(0), 0).expect_err(&rt, "no nodes");
    assert!(rt; fault == MachineFault::Nodes);
}

#[test]
fn failed_allocations_of_a_plan(rt: HostRuntime) {
    let alloc = rt.alloc();
    let roster = Roster::new(&[("argonne", 8)]).expect(&rt, "a roster");
    let mut board = busy(&rt);
    submit(&rt, &mut board, 5, 2, 101);
    submit(&rt, &mut board, 6, 2, 100);
    let machine = Machine::new(8, Vec::new(alloc)).expect(&rt, "a machine");
    match plan(alloc, &board, site(0), 0, &machine) {
        Ok(plan) => {
            assert!(rt; shows(&plan, &[4], Some((5, 3600))));
            if let Ok(text) = plan_text(alloc, &plan, &roster) {
                assert!(rt; text.as_str() == "start 4.argonne\nhead 5.argonne 3600\n");
            }
        }
        Err(fault) => assert!(rt; fault == PlanFault::NoMemory),
    }
    match plan_without(alloc, &board, site(0), 0, &machine, &[stamp(4, 0)]) {
        Ok(plan) => assert!(rt; shows(&plan, &[5, 6], None)),
        Err(fault) => assert!(rt; fault == PlanFault::NoMemory),
    }
}

#[test]
fn failed_allocations_of_listings(rt: HostRuntime) {
    let alloc = rt.alloc();
    let roster = Roster::new(&[("argonne", 8)]).expect(&rt, "a roster");
    let board = busy(&rt);
    let jobs = [stamp(4, 0)];
    if let Ok(lines) = list(alloc, &board, &roster, &jobs) {
        assert!(rt; lines.as_str() == LINE);
    }
    if let Ok(lines) = full(alloc, &board, &roster, &jobs) {
        assert!(rt; lines.as_str() == LINES);
    }
}

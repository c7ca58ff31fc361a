//! Boards, deltas, packets, grants, words, plans and listings: `fed_board`, `fed_delta`, `fed_wire`, `fed_desk`,
//! `fed_words`, `fed_easy` and `fed_qstat`.
use fed_board::Board;
use fed_delta::{Absorb, Delta, absorb, delta_since};
use fed_desk::{Decision, decide};
use fed_easy::{Machine, MachineFault, Plan, PlanFault, Running, machine_of, plan};
use fed_qstat::{full, list, plan_text};
use fed_record::{JobRecord, Operation, Refusal};
use fed_stamp::{JobId, Stamp, Version};
use fed_wire::{Packet, Part, Place, WireFault, read, write};
use fed_words::{Request, UsageFault, read_words};
use std::process::Abort;
use test_values::{ann, both_sites, site, stamp, submission, two_sites, values};

/// The job of these tests.
fn job() -> JobId {
    stamp(1, 0)
}

/// A board on which ann has submitted one job at argonne.
fn board(rt: &(impl Abort + AllocGlobal)) -> Board {
    let mut board = Board::new(rt.alloc());
    let submit = Operation::Submit {
        owner: ann().user,
        values: values(both_sites()),
        held: false,
    };
    assert!(rt; !board.version().covers(job()) && board.has_named(job(), &submit));
    board.apply(job(), &submit).expect(rt, "memory");
    board
}

#[test]
fn boards(rt: HostRuntime) {
    let board = board(&rt);
    let record: Option<&JobRecord> = board.job(job());
    assert!(rt; record.is_some() && board.jobs().count() == 1);
    assert!(rt; board.reservation(job()).is_none() && board.reservations().count() == 0);
    assert!(rt; board.version() == Version::default().with(job()));
    let mut other = board.copy().expect(&rt, "memory");
    other.merge(&board).expect(&rt, "memory");
    assert!(rt; other == board);
}

#[test]
fn packets(rt: HostRuntime) {
    let alloc = rt.alloc();
    let board = board(&rt);
    let delta: Delta = delta_since(alloc, &board, &Version::default()).expect(&rt, "memory");
    assert!(rt; delta.need() == Version::default() && delta.reached() == board.version());
    assert!(rt; delta.jobs().count() == 1 && delta.reservations().count() == 0);
    let packet = Packet::new(site(0), delta);
    let text = write(alloc, &packet).expect(&rt, "memory");
    let again: Packet = read(alloc, &text).expect(&rt, "a packet");
    assert!(rt; again == packet && again.sender() == site(0));
    let mut taker = Board::new(alloc);
    let absorbed: Result<(), Absorb> = absorb(&mut taker, again.delta());
    assert!(rt; absorbed == Ok(()) && taker == board);
}

#[test]
fn faults_of_packets(rt: HostRuntime) {
    let (part, index) = (Part::Whole, 0);
    let place = Place { part, index };
    let found: Result<Packet, WireFault> = read(rt.alloc(), b"{}");
    assert!(rt;
        found.is_err_and(|fault| fault == WireFault::Shape { place } && fault.number() == 3)
    );
    let board = board(&rt);
    let news = delta_since(rt.alloc(), &board, &board.version()).expect(&rt, "memory");
    let gap = absorb(&mut Board::new(rt.alloc()), &news).expect_err(&rt, "a gap");
    assert!(rt; gap == Absorb::Gap { missing: site(0) } && gap.number() == 1);
}

#[test]
fn grants(rt: HostRuntime) {
    let board = board(&rt);
    assert!(rt; decide(&board, site(0), job(), site(1)) == Decision::Grant);
    let refused = decide(&board, site(1), job(), site(1));
    assert!(rt;
        refused == Decision::Refused(Refusal::NotOrigin) && Refusal::NotOrigin.number() == 5
    );
}

#[test]
fn words(rt: HostRuntime) {
    let asked: Request = read_words(rt.alloc(), &["qsub"], &two_sites(), site(0)).expect(
        &rt,
        "a request",
    );
    let submits = match &asked {
        Request::Acts(commands) => commands.as_slice() == [submission()].as_slice(),
        Request::List { .. } => false,
    };
    assert!(rt; submits);
    let fault: Result<Request, UsageFault> = read_words(
        rt.alloc(),
        &["qmove", "1"],
        &two_sites(),
        site(0),
    );
    assert!(rt;
        fault.is_err_and(|fault| fault == UsageFault::UnknownUtility && fault.number() == 1)
    );
}

#[test]
fn machines(rt: HostRuntime) {
    let alloc = rt.alloc();
    let (nodes, end) = (2, 10);
    let running = vec![in alloc; Running { nodes, end }].expect(&rt, "memory");
    let machine: Machine = Machine::new(8, running).expect(&rt, "a machine");
    assert!(rt; machine.running().len() == 1);
    let fault: MachineFault = Machine::new(0, Vec::new(alloc)).expect_err(&rt, "no nodes");
    assert!(rt; fault == MachineFault::Nodes && fault.number() == 1);
    let board = board(&rt);
    let idle = machine_of(alloc, &board, site(0), 8).expect(&rt, "a machine");
    let early: PlanFault = plan(alloc, &board, site(0), 1_000_000_000_001, &idle).expect_err(
        &rt,
        "no moment",
    );
    assert!(rt; early == PlanFault::Moment && early.number() == 1);
}

#[test]
fn plans(rt: HostRuntime) {
    let alloc = rt.alloc();
    let board = board(&rt);
    let machine = machine_of(alloc, &board, site(0), 8).expect(&rt, "a machine");
    let planned: Plan = plan(alloc, &board, site(0), 0, &machine).expect(&rt, "a plan");
    let head: Option<(JobId, u64)> = planned.head;
    assert!(rt; planned.starts.as_slice() == [job()].as_slice() && head.is_none());
    let text = plan_text(alloc, &planned, &two_sites()).expect(&rt, "memory");
    assert!(rt; text.as_str() == "start 1.argonne\n");
}

/// What is listed of the job.
const LINE: &str =
    "1.argonne          STDIN            ann              Q      0        1      3600 -\n";

#[test]
fn listings(rt: HostRuntime) {
    let alloc = rt.alloc();
    let board = board(&rt);
    let asked: [Stamp; 1] = [job()];
    let lines = list(alloc, &board, &two_sites(), &asked).expect(&rt, "memory");
    assert!(rt; lines.as_str() == LINE);
    let lines = full(alloc, &board, &two_sites(), &asked).expect(&rt, "memory");
    assert!(rt;
        lines
            .as_str()
            .starts_with("Job Id: 1.argonne\n    Job_Name = STDIN\n")
    );
}

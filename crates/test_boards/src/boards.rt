//! Boards and deltas where memory may be refused. A call answers as with ample memory, or by want of memory; then it leaves
//! all as before, and answers as with ample memory when it is asked again. So the tests pass whichever allocation fails,
//! which `rt try --test --fail-alloc N` does for the Nth.
use fed_board::Board;
use fed_delta::{Absorb, Delta, absorb, delta_since};
use fed_record::{HoldKind, HoldKinds, JobOperation, Operation};
use fed_stamp::{Stamp, Version};
use std::process::Abort;
use test_values::{ann, both_sites, site, stamp, values};

/// ann's submission of a job.
fn submit() -> Operation {
    Operation::Submit {
        owner: ann().user,
        values: values(both_sites()),
        held: false,
    }
}

fn copied(rt: &impl Abort, board: &Board) -> Board {
    match board.copy() {
        Ok(copy) => copy,
        Err(_) => board.copy().expect(rt, "memory"),
    }
}

/// All that the board tells.
fn told(rt: &(impl Abort + AllocGlobal), board: &Board) -> Delta {
    let nothing = Version::default();
    match delta_since(rt.alloc(), board, &nothing) {
        Ok(delta) => delta,
        Err(_) => delta_since(rt.alloc(), board, &nothing).expect(rt, "memory"),
    }
}

/// Adds an operation whose stamp is new and whose job or reservation is there. A failed allocation leaves the board.
fn applied(rt: &impl Abort, board: &mut Board, at: Stamp, operation: &Operation) {
    let before = copied(rt, board);
    assert!(rt; !board.version().covers(at) && board.has_named(at, operation));
    if board.apply(at, operation).is_err() {
        assert!(rt; *board == before);
        assert!(rt; !board.version().covers(at) && board.has_named(at, operation));
        board.apply(at, operation).expect(rt, "memory");
    }
}

/// A board with this job of ann's alone.
fn board_of(rt: &(impl Abort + AllocGlobal), job: Stamp) -> Board {
    let mut board = Board::new(rt.alloc());
    applied(rt, &mut board, job, &submit());
    board
}

/// Whether the jobs of the board are these two, in this order.
fn has_jobs(board: &Board, ids: [Stamp; 2]) -> bool {
    let mut jobs = board.jobs();
    for id in ids {
        match jobs.next() {
            Some((job, _record)) if *job == id => {}
            _ => return false,
        }
    }
    jobs.next().is_none()
}

/// A copy of the board that has taken in all that another tells. A failed allocation leaves the board.
fn absorbed(rt: &(impl Abort + AllocGlobal), board: &Board, other: &Board) -> Board {
    let news = told(rt, other);
    let mut both = copied(rt, board);
    if let Err(fault) = absorb(&mut both, &news) {
        assert!(rt; fault == Absorb::NoMemory && both == *board);
        absorb(&mut both, &news).expect(rt, "memory");
    }
    both
}

/// The job is held at this stamp, and nothing else.
fn see_held(rt: &impl Abort, board: &Board, job: Stamp, held: Stamp) {
    let record = board.job(job).expect(rt, "the job");
    assert!(rt; record.hold_tags().eq([(HoldKind::User, held)]));
    assert!(rt; board.version() == Version::default().with(held));
}

#[test]
fn failed_allocations_of_operations(rt: HostRuntime) {
    let (job, held) = (stamp(1, 0), stamp(2, 0));
    let kinds = HoldKinds::USER;
    let mut board = Board::new(rt.alloc());
    applied(&rt, &mut board, job, &submit());
    applied(
        &rt,
        &mut board,
        held,
        &Operation::OfJob(job, JobOperation::Hold { kinds }),
    );
    see_held(&rt, &board, job, held);
}

/// What two boards merge to has these jobs. A failed allocation leaves the board.
fn see_merged(rt: &impl Abort, one: &Board, other: &Board, jobs: [Stamp; 2]) {
    let mut both = copied(rt, one);
    if both.merge(other).is_err() {
        assert!(rt; both == *one);
        both.merge(other).expect(rt, "memory");
    }
    assert!(rt; has_jobs(&both, jobs));
}

/// What a board has that takes in all that another tells.
fn see_absorbed(rt: &(impl Abort + AllocGlobal), one: &Board, other: &Board, jobs: [Stamp; 2]) {
    assert!(rt; has_jobs(&absorbed(rt, one, other), jobs));
}

/// The boards of two sites, each with a job, merge, and one takes the other in.
#[test]
fn failed_allocations_of_a_merge_and_a_delta(rt: HostRuntime) {
    let jobs = [stamp(1, 0), stamp(1, 1)];
    let one = board_of(&rt, jobs[0]);
    let other = board_of(&rt, jobs[1]);
    see_merged(&rt, &one, &other, jobs);
    see_absorbed(&rt, &one, &other, jobs);
}

/// A copy of the board, on which another site holds the job and submits another.
fn gone_on(rt: &(impl Abort + AllocGlobal), board: &Board, job: Stamp, next: Stamp) -> Board {
    let mut later = copied(rt, board);
    let kinds = HoldKinds::USER;
    applied(
        rt,
        &mut later,
        stamp(2, 1),
        &Operation::OfJob(job, JobOperation::Hold { kinds }),
    );
    applied(rt, &mut later, next, &submit());
    later
}

/// A board that takes in all that this one tells is equal to it.
fn see_equal(rt: &(impl Abort + AllocGlobal), board: &Board, later: &Board, jobs: [Stamp; 2]) {
    assert!(rt; has_jobs(later, jobs));
    assert!(rt; absorbed(rt, board, later) == *later);
}

#[test]
fn failed_allocations_of_a_delta_of_a_known_job(rt: HostRuntime) {
    let (job, next) = (stamp(1, 0), stamp(3, 1));
    let one = board_of(&rt, job);
    let later = gone_on(&rt, &one, job, next);
    see_equal(&rt, &one, &later, [job, next]);
}

/// A copy of the board, on which the site of the stamp retires its first job. A failed allocation leaves the board.
fn retired_on(rt: &(impl Abort + AllocGlobal), board: &Board, at: Stamp) -> Board {
    let mut later = copied(rt, board);
    applied(rt, &mut later, at, &Operation::Retire { first: 1, last: 1 });
    later
}

/// The board has no job, and each of both that takes in all that the other tells has none either.
fn see_retired(rt: &(impl Abort + AllocGlobal), late: &Board, board: &Board) {
    assert!(rt; board.jobs().next().is_none() && board.job_count(site(0)) == 0);
    assert!(rt; absorbed(rt, late, board) == *board);
    assert!(rt; absorbed(rt, board, late) == *board);
}

#[test]
fn failed_allocations_of_a_retire(rt: HostRuntime) {
    let late = board_of(&rt, stamp(1, 0));
    let board = retired_on(&rt, &late, stamp(2, 0));
    see_retired(&rt, &late, &board);
}

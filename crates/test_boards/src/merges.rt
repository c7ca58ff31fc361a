//! Boards of two sites that act apart, merged: what they merge to is the same from either side.
use fed_board::Board;
use fed_record::{HoldKind, HoldKinds, JobOperation, Letter, Operation, Who};
use fed_stamp::Stamp;
use std::process::Abort;
use test_values::{ann, bob, both_sites, site, stamp, values};

/// An operation, and the stamp that it gets.
type Step = (Stamp, Operation);

fn submit(owner: Who, held: bool) -> Operation {
    Operation::Submit {
        owner: owner.user,
        values: values(both_sites()),
        held,
    }
}

/// Sets a user hold.
fn hold(job: Stamp) -> Operation {
    let kinds = HoldKinds::USER;
    Operation::OfJob(job, JobOperation::Hold { kinds })
}

/// Releases the user hold that was set under this stamp.
fn release(rt: &(impl Abort + AllocGlobal), job: Stamp, at: Stamp) -> Operation {
    let removed = Vec::from_slice(rt.alloc(), &[(HoldKind::User, at)]).expect(rt, "memory");
    Operation::OfJob(job, JobOperation::Release { removed })
}

/// Adds operations whose stamps are new and whose jobs are there.
fn act(rt: &impl Abort, board: &mut Board, steps: &[Step]) {
    for (at, operation) in steps {
        assert!(rt; !board.version().covers(*at) && board.has_named(*at, operation));
        board.apply(*at, operation).expect(rt, "memory");
    }
}

/// A board to which these operations were added.
fn board_of(rt: &(impl Abort + AllocGlobal), steps: &[Step]) -> Board {
    let mut board = Board::new(rt.alloc());
    act(rt, &mut board, steps);
    board
}

/// A copy of the board, with more operations.
fn after(rt: &impl Abort, board: &Board, steps: &[Step]) -> Board {
    let mut later = board.copy().expect(rt, "memory");
    act(rt, &mut later, steps);
    later
}

/// A copy of the first board, merged with the second.
fn merged_into(rt: &impl Abort, a: &Board, b: &Board) -> Board {
    let mut board = a.copy().expect(rt, "memory");
    board.merge(b).expect(rt, "memory");
    board
}

/// What the two boards merge to, which is the same from either side.
fn merged(rt: &impl Abort, a: &Board, b: &Board) -> Board {
    let left = merged_into(rt, a, b);
    let right = merged_into(rt, b, a);
    assert!(rt; left == right);
    left
}

/// Whether the jobs of the board are these two, in this order.
fn has_jobs(board: &Board, ids: [Stamp; 2]) -> bool {
    let mut jobs = board.jobs();
    for id in ids {
        match jobs.next() {
            Some((job, _record)) if *job == id => {}
            _ => return false,
        }
    }
    jobs.next().is_none()
}

/// What the boards of two sites merge to, each with a job, is neither of them. A job counts at the site that names it.
fn see_exchanged(rt: &impl Abort, a: &Board, b: &Board, jobs: [Stamp; 2]) {
    let both = merged(rt, a, b);
    assert!(rt; both != *a && both != *b && has_jobs(&both, jobs));
    assert!(rt; both.job_count(site(0)) == 1 && both.job_count(site(1)) == 1);
}

#[test]
fn jobs_of_two_sites_merge(rt: HostRuntime) {
    let jobs = [stamp(1, 0), stamp(1, 1)];
    let a = board_of(&rt, &[(jobs[0], submit(ann(), false))]);
    let b = board_of(&rt, &[(jobs[1], submit(bob(), false))]);
    see_exchanged(&rt, &a, &b, jobs);
}

/// Of what the two boards merge to, the job is held by what was set under this stamp, and by nothing else.
fn see_held(rt: &impl Abort, a: &Board, b: &Board, job: Stamp, held: Stamp) {
    let both = merged(rt, a, b);
    let record = both.job(job).expect(rt, "the job");
    assert!(rt; record.hold_tags().eq([(HoldKind::User, held)]));
    assert!(rt; record.letter() == Some(Letter::Held));
}

/// One site sets a second hold on a job that was submitted held, while the other releases the first.
#[test]
fn a_hold_that_a_release_has_not_seen_stays(rt: HostRuntime) {
    let (job, held) = (stamp(1, 0), stamp(2, 0));
    let told = board_of(&rt, &[(job, submit(ann(), true))]);
    let here = after(&rt, &told, &[(held, hold(job))]);
    let there = after(&rt, &told, &[(stamp(2, 1), release(&rt, job, job))]);
    see_held(&rt, &here, &there, job, held);
}

//! Listings of jobs that are named more than once.
use fed_board::Board;
use fed_qstat::list;
use fed_record::{JobOperation, Operation};
use fed_stamp::{Roster, SiteSet};
use std::process::Abort;
use test_values::{ann, site, stamp, values};

/// Adds an operation of site 0, whose counter is new and whose job is there.
fn act(rt: &impl Abort, board: &mut Board, counter: u64, operation: &Operation) {
    let at = stamp(counter, 0);
    assert!(rt; !board.version().covers(at) && board.has_named(at, operation));
    board.apply(at, operation).expect(rt, "memory");
}

fn submit() -> Operation {
    Operation::Submit {
        owner: ann().user,
        values: values(SiteSet::new(&[site(0)]).unwrap()),
        held: false,
    }
}

/// The first job of site 0, which is named twice, and one that isn't there, are listed so.
fn see_listed(rt: &(impl Abort + AllocGlobal), board: &Board, wanted: &str) {
    let roster = Roster::new(&[("argonne", 8)]).expect(rt, "a roster");
    let jobs = [stamp(1, 0), stamp(1, 0), stamp(9, 0)];
    let lines = list(rt.alloc(), board, &roster, &jobs).expect(rt, "memory");
    assert!(rt; lines.as_str() == wanted);
}

#[test]
fn a_job_is_listed_once(rt: HostRuntime) {
    let line =
        "1.argonne          STDIN            ann              Q      0        1      3600 -\n";
    let mut board = Board::new(rt.alloc());
    act(&rt, &mut board, 1, &submit());
    see_listed(&rt, &board, line);
    let delete = Operation::OfJob(stamp(1, 0), JobOperation::Delete);
    act(&rt, &mut board, 2, &delete);
    see_listed(&rt, &board, "");
}

//! What has no plan, as a chart and as JSON: no packet tells of such a job, so that no site can be asked for it.
use fed_board::Board;
use fed_machine::chart_svg;
use fed_record::{Beginning, JobOperation, MAX_END, Moment, Nodes, Operation};
use fed_site::plan_json;
use std::process::Abort;
use test_values::{ann, both_sites, stamp, two_sites, values};

/// Adds an operation of site 0, whose counter is new and whose job is there.
fn act(rt: &impl Abort, board: &mut Board, counter: u64, operation: &Operation) {
    let at = stamp(counter, 0);
    assert!(rt; !board.version().covers(at) && board.has_named(at, operation));
    board.apply(at, operation).expect(rt, "memory");
}

/// A board on which a job runs beyond the last moment at which one can end, and another waits.
fn endless(rt: &(impl Abort + AllocGlobal)) -> Board {
    let (owner, values, held) = (ann().user, values(both_sites()), false);
    let submission = Operation::Submit {
        owner,
        values,
        held,
    };
    let (moment, nodes) = (Moment::new(0).unwrap(), Nodes::new(6).unwrap());
    let end = MAX_END.saturating_add(1);
    let beginning = Beginning { moment, nodes, end };
    let begin = Operation::OfJob(stamp(1, 0), JobOperation::Begin { beginning });
    let mut board = Board::new(rt.alloc());
    act(rt, &mut board, 1, &submission);
    act(rt, &mut board, 2, &begin);
    act(rt, &mut board, 3, &submission);
    board
}

#[test]
fn what_has_no_plan_is_shown(rt: HostRuntime) {
    let moment = Moment::new(0).unwrap();
    let roster = two_sites();
    let here = roster.find("argonne").expect(&rt, "a site");
    assert!(rt; (here.get() as usize) < roster.len());
    let chart = chart_svg(rt.alloc(), &roster, &endless(&rt), here, moment);
    let chart = chart.expect(&rt, "memory");
    // no machine may run a job to such an end
    for said in [
        "argonne: nodes 8, from second 0 on, no plan</text>",
        "1.argonne: running, nodes 6, from 0 to 1000010000001</title><rect x='60' y='140' width='900' height='300'/>",
    ] {
        assert!(rt; chart.as_str().contains(said));
    }
    assert!(rt; !chart.as_str().contains("3.argonne"));
}

#[test]
fn what_has_no_plan_is_null(rt: HostRuntime) {
    let moment = Moment::new(0).unwrap();
    let roster = two_sites();
    let here = roster.find("argonne").expect(&rt, "a site");
    assert!(rt; (here.get() as usize) < roster.len());
    let plan = plan_json(rt.alloc(), &roster, &endless(&rt), here, moment, &[]);
    assert!(rt; plan.is_ok_and(|plan| plan.as_str() == "null\n"));
}

//! Sets of counters that are kept as ranges, and what one site has retired.
use fed_lattice::Causal;
use fed_ranges::{Range, Ranges, Retirements};
use fed_stamp::Version;
use test_values::stamp;

/// Whether the ranges are these, in this order, of which each is told as its first and its last number.
fn are(ranges: &Ranges, wanted: &[(u64, u64)]) -> bool {
    let ranges = ranges.as_slice();
    if ranges.len() != wanted.len() {
        return false;
    }
    for i in 0..ranges.len() {
        if (ranges[i].first, ranges[i].last) != wanted[i] {
            return false;
        }
    }
    true
}

#[test]
fn ranges_that_touch_are_one(rt: HostRuntime) {
    let mut one = Ranges::new(rt.alloc());
    one.add(Range { first: 1, last: 2 }).expect(&rt, "memory");
    one.add(Range { first: 4, last: 5 }).expect(&rt, "memory");
    let before = one.copy().expect(&rt, "memory");
    one.add(Range { first: 3, last: 3 }).expect(&rt, "memory");
    assert!(rt; are(&one, &[(1, 5)]) && are(&before, &[(1, 2), (4, 5)]));
    let mut other = Ranges::new(rt.alloc());
    other.add(Range { first: 6, last: 7 }).expect(&rt, "memory");
    other.add(Range { first: 9, last: 9 }).expect(&rt, "memory");
    assert!(rt; are(&one.join(&other).expect(&rt, "memory"), &[(1, 7), (9, 9)]));
}

#[test]
fn what_two_have_heard_of_a_site_joins(rt: HostRuntime) {
    let none = Version::default();
    let mut mine = Retirements::bottom(rt.alloc());
    mine.apply(stamp(5, 2), &Range { first: 1, last: 3 })
        .expect(&rt, "memory");
    let mut theirs = mine.copy().expect(&rt, "memory");
    theirs
        .apply(stamp(12, 2), &Range { first: 4, last: 4 })
        .expect(&rt, "memory");
    let joined = mine.join(&none, &theirs, &none).expect(&rt, "memory");
    assert!(rt; joined.latest() == 12 && are(joined.ranges(), &[(1, 4)]));
    assert!(rt; mine.latest() == 5 && are(mine.ranges(), &[(1, 3)]));
}

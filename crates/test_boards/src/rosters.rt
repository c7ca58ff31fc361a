//! Rosters that are refused.
use fed_stamp::{Roster, RosterFault};

/// Each list, with the number and the value of its first fault.
#[test]
fn rosters_with_faults(rt: HostRuntime) {
    let cases: [(&[(&str, u64)], u8, RosterFault); 9] = [
        (&[], 1, RosterFault::Count),
        (&[("a", 1); 17], 1, RosterFault::Count),
        (&[("a", 1), ("9", 1)], 2, RosterFault::Name { index: 1 }),
        (&[("a_b", 1)], 2, RosterFault::Name { index: 0 }),
        (&[("a", 1), ("a", 1)], 3, RosterFault::Twice { index: 1 }),
        (&[("a", 0)], 4, RosterFault::Nodes { index: 0 }),
        (
            &[("a", 1), ("b", 1_000_001)],
            4,
            RosterFault::Nodes { index: 1 },
        ),
        (&[("a", 0), ("a", 1)], 3, RosterFault::Twice { index: 1 }),
        (
            &[("a", 0), ("a", 1), ("-", 1)],
            2,
            RosterFault::Name { index: 2 },
        ),
    ];
    for (i, (sites, number, fault)) in cases.iter().enumerate() {
        let found = Roster::new(*sites).err().expect(&rt, "a fault");
        assert_eq!(rt; found, *fault, "at {i}");
        assert_eq!(rt; found.number(), *number, "at {i}");
    }
}

//! Words that are read where memory may be refused. Each reading is answered as with ample memory, or by `NoMemory`: the
//! test passes whichever allocation fails, which `rt try --test --fail-alloc N` does for the Nth.
use fed_record::{Command, HoldKinds};
use fed_words::{Request, UsageFault, read_words};
use test_values::{site, stamp, two_sites};

/// Words for which the options, the sites, the operands and the commands each need memory, and the fault that they are
/// answered by, if they ask nothing.
const LINES: [(&[&str], Option<UsageFault>); 8] = [
    (&["qsub"], None),
    (
        &[
            "qsub",
            "-hp",
            "3",
            "-l",
            "nodes=2,sites=lemont+argonne",
            "-Achem",
        ],
        None,
    ),
    (
        &[
            "qalter", "-p", "1", "-N", "sort", "1", "2", "3", "4", "5", "1",
        ],
        None,
    ),
    (&["qhold", "-h", "u", "1", "2.lemont", "3"], None),
    (&["qrls", "1", "2", "3", "4", "5"], None),
    (&["qstat", "-f", "1", "2", "3", "4", "5"], None),
    (&["qdel", "1", "2", "x"], Some(UsageFault::BadIdentifier)),
    (
        &["qsub", "-l", "sites=argonne+fermi"],
        Some(UsageFault::UnknownSite),
    ),
];

#[test]
fn failed_allocations(rt: HostRuntime) {
    let (roster, here) = (two_sites(), site(0));
    for (words, wanted) in &LINES {
        let fault = read_words(rt.alloc(), words, &roster, here).err();
        let is_refused = fault == Some(UsageFault::NoMemory);
        assert!(rt; fault == *wanted || is_refused, "{words:?}");
    }
}

/// Whether words that are read at argonne ask for exactly these commands.
fn ask(rt: &impl AllocGlobal, words: &[&str], wanted: &[Command]) -> bool {
    match read_words(rt.alloc(), words, &two_sites(), site(0)) {
        Ok(Request::Acts(commands)) => commands.as_slice() == wanted,
        _ => false,
    }
}

#[test]
fn words_ask_for_commands(rt: HostRuntime) {
    let words = ["qhold", "-h", "uo", "2.lemont", "1"];
    let kinds = HoldKinds::USER | HoldKinds::OPERATOR;
    let (job, other) = (stamp(1, 0), stamp(2, 1));
    let wanted = [
        Command::Hold { job: other, kinds },
        Command::Hold { job, kinds },
    ];
    assert!(rt; ask(&rt, &words, &wanted));
}

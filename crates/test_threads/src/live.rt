//! Scripts whose sites run at the same time.
use fed_main::{live, live_with};
use fed_stamp::SiteId;
use fed_threads::Gate;
use std::alloc::Global;
use std::hint;
use std::sync::Wait;
use std::sync::atomic::{AtomicBool, Ordering};
use std::thread::Threads;

/// How many turns a gate waits at most.
const TURNS: u64 = 1_000_000_000;

// A site that runs alone.
pub const ALONE: &str = "\
roster argonne:8
argonne ann qsub
argonne ann qstat
";

pub const ALONE_ANSWERED: &str = "\
1.argonne
1.argonne          STDIN            ann              Q      0        1      3600 -
events 1
";

// A packet that is taken: two events at one site and one at the other.
const SHIPPED: &str = "\
roster argonne:8 lemont:4
argonne ann qsub
argonne ship lemont
";

// The answers stand in the order of the sites, whatever the order of the lines.
const MIXED: &str = "\
# two sites
roster argonne:8 lemont:4

lemont bob qsub -l nodes=3
argonne ann qsub -Z
lemont plan 7
argonne ann qdel 4.argonne
lemont bob qhold 1
lemont bob qstat 1
argonne ann qsub
";

const MIXED_ANSWERED: &str = "\
usage 2
refused 1
1.argonne
1.lemont
start 1.lemont
done
1.lemont           STDIN            bob              H      0        3      3600 -
events 4
";

// One command at each of two sites.
const BOTH: &str = "\
roster argonne:8 lemont:4
argonne ann qsub
lemont bob qsub
";

/// Whether a script runs live to its end, and is answered by this text.
fn is_answered<R: Threads + Wait + Sync>(rt: &R, alloc: Global, script: &str, text: &str) -> bool {
    let mut reader = script.as_bytes();
    let mut written = Vec::new(alloc);
    let ended = live(rt, alloc, &mut reader, &mut written);
    ended == Ok(()) && written.as_slice() == text.as_bytes()
}

/// Holds the first call at each of two sites until both are inside.
#[derive(Drop)]
struct MeetingGate<'a> {
    first: &'a AtomicBool,
    second: &'a AtomicBool,
    ran_out: &'a AtomicBool,
}

impl Gate for MeetingGate<'_> {
    fn inside(&self, site: SiteId, _index: u64) {
        let (mine, other) = match site.get() {
            0 => (self.first, self.second),
            _ => (self.second, self.first),
        };
        mine.store(true, Ordering::SeqCst);
        for _ in 0..TURNS {
            if other.load(Ordering::SeqCst) {
                return;
            }
            hint::spin_loop();
        }
        self.ran_out.store(true, Ordering::SeqCst);
    }
}

/// Whether the calls of two sites meet, and are answered by this text.
fn is_met<R: Threads + Wait + Sync>(rt: &R, alloc: Global, text: &str) -> bool {
    let (first, second) = (AtomicBool::new(false), AtomicBool::new(false));
    let ran_out = AtomicBool::new(false);
    let gate = MeetingGate {
        first: &first,
        second: &second,
        ran_out: &ran_out,
    };
    let mut reader = BOTH.as_bytes();
    let mut written = Vec::new(alloc);
    let ended = live_with(rt, alloc, &mut reader, &mut written, gate);
    let has_met = !ran_out.load(Ordering::SeqCst);
    has_met && ended == Ok(()) && written.as_slice() == text.as_bytes()
}

#[test]
fn a_packet_is_taken(rt: HostRuntime) {
    let text = "1.argonne\nshipped\nevents 3\n";
    assert!(rt; is_answered(&rt, rt.alloc(), SHIPPED, text));
}

#[test]
fn calls_of_two_sites_meet(rt: HostRuntime) {
    assert!(rt; is_met(&rt, rt.alloc(), "1.argonne\n1.lemont\nevents 2\n"));
}

#[test]
fn answers_stand_in_the_order_of_the_sites(rt: HostRuntime) {
    assert!(rt; is_answered(&rt, rt.alloc(), MIXED, MIXED_ANSWERED));
}

//! Texts and packets where memory may be refused. Each call answers as with ample memory, or by `NoMemory`, and then so by
//! its number: the tests pass whichever allocation fails, which `rt try --test --fail-alloc N` does for the Nth.
use fed_wire::{WireFault, read, write};
use std::process::Abort;

/// The text, in format 2, of a packet of site 0 that tells of one job.
const ONE_JOB: &str =
    "{\"format\":2,\"jobs\":[{\"account\":[\"\",[1,0]],\"deleted\":false,\"grant\":null,\"holds\":[],\"id\":[1,0],\
     \"limit\":[3600,[1,0]],\"name\":[\"STDIN\",[1,0]],\"nodes\":[1,[1,0]],\"owner\":[\"ann\",[1,0]],\
     \"priority\":[0,[1,0]],\"progress\":null,\"sites\":[[0,[1,0]],[1,[1,0]]],\
     \"touched\":[1,0,0,0,0,0,0,0,0,0,0,0,0,0,0,0]}],\"need\":[0,0,0,0,0,0,0,0,0,0,0,0,0,0,0,0],\
     \"reached\":[1,0,0,0,0,0,0,0,0,0,0,0,0,0,0,0],\"reservations\":[],\"sender\":0}";

/// The text of a packet of site 0 that tells what two sites have retired.
const RETIRED: &str = "{\"format\":3,\"jobs\":[],\"need\":[0,0,0,0,0,0,0,0,0,0,0,0,0,0,0,0],\
     \"reached\":[9,4,0,0,0,0,0,0,0,0,0,0,0,0,0,0],\"reservations\":[],\
     \"retired\":[[0,9,[[1,3],[5,5]]],[1,4,[[1,1]]]],\"sender\":0}";

// The text is read and written, or memory was refused.
fn see_both_ways(rt: &(impl Abort + AllocGlobal), text: &str) {
    let alloc = rt.alloc();
    let packet = match read(alloc, text.as_bytes()) {
        Ok(packet) => packet,
        Err(fault) => {
            assert!(rt; fault == WireFault::NoMemory && fault.number() == 5);
            return;
        }
    };
    if let Ok(written) = write(alloc, &packet) {
        assert!(rt; written.as_slice() == text.as_bytes());
    }
}

#[test]
fn failed_allocations(rt: HostRuntime) {
    see_both_ways(&rt, ONE_JOB);
}

#[test]
fn failed_allocations_where_something_is_retired(rt: HostRuntime) {
    see_both_ways(&rt, RETIRED);
}

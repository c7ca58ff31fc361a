//! Scripts where memory may be refused. A run answers as with ample memory, or by want of memory: of a replay
//! the answers of some first lines are then written, and of a live run nothing is. So the tests pass whichever allocation
//! fails, which `rt try --test --fail-alloc N` does for the Nth; but a live run may wait for good where an allocation
//! fails once its threads run.
use crate::live::{ALONE, ALONE_ANSWERED};
use crate::streams::{EXCHANGE, EXCHANGED};
use fed_main::{RunFault, live, live_with, replay};
use fed_threads::OpenGate;
use std::process::Abort;

/// More bytes than any of these scripts is answered by.
const ROOM: usize = 4096;

/// A writer that has room for the answers, so that it asks for no memory while a script runs.
fn writer(rt: &(impl Abort + AllocGlobal)) -> Vec<u8> {
    match Vec::with_capacity(rt.alloc(), ROOM) {
        Ok(writer) => writer,
        Err(_) => Vec::with_capacity(rt.alloc(), ROOM).expect(rt, "memory"),
    }
}

#[test]
fn failed_allocations_of_a_replay(rt: HostRuntime) {
    let mut reader = EXCHANGE.as_bytes();
    let mut written = writer(&rt);
    match replay(rt.alloc(), &mut reader, &mut written) {
        Ok(()) => assert!(rt; written.as_slice() == EXCHANGED.as_bytes()),
        Err(fault) => {
            assert!(rt; fault == RunFault::NoMemory && EXCHANGED.as_bytes().starts_with(&written));
        }
    }
}

#[test]
fn failed_allocations_of_a_live_run(rt: HostRuntime) {
    let mut reader = ALONE.as_bytes();
    let mut written = writer(&rt);
    match live(&rt, rt.alloc(), &mut reader, &mut written) {
        Ok(()) => assert!(rt; written.as_slice() == ALONE_ANSWERED.as_bytes()),
        Err(fault) => assert!(rt; fault == RunFault::NoMemory && written.is_empty()),
    }
}

#[test]
fn failed_allocations_of_a_live_run_with_a_gate(rt: HostRuntime) {
    let mut reader = ALONE.as_bytes();
    let mut written = writer(&rt);
    match live_with(&rt, rt.alloc(), &mut reader, &mut written, OpenGate) {
        Ok(()) => assert!(rt; written.as_slice() == ALONE_ANSWERED.as_bytes()),
        Err(fault) => assert!(rt; fault == RunFault::NoMemory && written.is_empty()),
    }
}

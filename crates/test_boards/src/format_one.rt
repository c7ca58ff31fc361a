//! Texts of packets in format 1: as they are, they are read, and written in format 2; cut, or changed at one byte, each is
//! read or refused.
use fed_wire::{WireFault, read, write};
use std::process::Abort;

/// The empty packet of site 0, in format 1.
const EMPTY: &str =
    "{\"format\":1,\"jobs\":[],\"need\":[0,0,0,0,0,0,0,0,0,0,0,0,0,0,0,0],\"reached\":[0,0,0,0,0,0,0,0,0,0,0,0,0,0,0,0],\"reservations\":[],\"sender\":0}";

/// A packet of site 0, in format 1, of one job that nobody altered since it was submitted.
const ONE_JOB: &str =
    "{\"format\":1,\"jobs\":[{\"deleted\":false,\"grant\":null,\"holds\":[],\"id\":[1,0],\"limit\":[3600,[1,0]],\
     \"name\":[\"STDIN\",[1,0]],\"nodes\":[1,[1,0]],\"owner\":[\"ann\",[1,0]],\"priority\":[0,[1,0]],\
     \"progress\":null,\"sites\":[[0,[1,0]],[1,[1,0]]],\"touched\":[1,0,0,0,0,0,0,0,0,0,0,0,0,0,0,0]}],\
     \"need\":[0,0,0,0,0,0,0,0,0,0,0,0,0,0,0,0],\"reached\":[1,0,0,0,0,0,0,0,0,0,0,0,0,0,0,0],\
     \"reservations\":[],\"sender\":0}";

/// The same two in format 2.
const EMPTY_IN_TWO: &str =
    "{\"format\":2,\"jobs\":[],\"need\":[0,0,0,0,0,0,0,0,0,0,0,0,0,0,0,0],\"reached\":[0,0,0,0,0,0,0,0,0,0,0,0,0,0,0,0],\"reservations\":[],\"sender\":0}";

const ONE_JOB_IN_TWO: &str =
    "{\"format\":2,\"jobs\":[{\"account\":[\"\",[1,0]],\"deleted\":false,\"grant\":null,\"holds\":[],\"id\":[1,0],\"limit\":[3600,[1,0]],\
     \"name\":[\"STDIN\",[1,0]],\"nodes\":[1,[1,0]],\"owner\":[\"ann\",[1,0]],\"priority\":[0,[1,0]],\
     \"progress\":null,\"sites\":[[0,[1,0]],[1,[1,0]]],\"touched\":[1,0,0,0,0,0,0,0,0,0,0,0,0,0,0,0]}],\
     \"need\":[0,0,0,0,0,0,0,0,0,0,0,0,0,0,0,0],\"reached\":[1,0,0,0,0,0,0,0,0,0,0,0,0,0,0,0],\
     \"reservations\":[],\"sender\":0}";

/// Whether the packet of the text is written so.
fn is_written(rt: &(impl Abort + AllocGlobal), text: &str, wanted: &str) -> bool {
    let packet = read(rt.alloc(), text.as_bytes()).expect(rt, "a packet");
    let written = write(rt.alloc(), &packet).expect(rt, "memory");
    written.as_slice() == wanted.as_bytes()
}

#[test]
fn packets_are_written_in_format_two(rt: HostRuntime) {
    assert!(rt; is_written(&rt, EMPTY, EMPTY_IN_TWO));
    let spaced = EMPTY.replace(rt.alloc(), ',', ", ").expect(&rt, "memory");
    assert!(rt; is_written(&rt, &spaced, EMPTY_IN_TWO));
    assert!(rt; is_written(&rt, ONE_JOB, ONE_JOB_IN_TWO));
}

fn fault(rt: &impl AllocGlobal, text: &[u8]) -> Option<WireFault> {
    read(rt.alloc(), text).err()
}

// No text, and a text that lacks its end.
#[test]
fn prefixes_are_no_packets(rt: HostRuntime) {
    for text in [EMPTY.as_bytes(), ONE_JOB.as_bytes()] {
        for length in 0..text.len() {
            assert!(rt;
                fault(&rt, &text[..length]) == Some(WireFault::NotJson),
                "{length}"
            );
        }
    }
    assert!(rt; WireFault::NotJson.number() == 1);
}

// Whether a packet or a fault is read of the text, with the byte put at the place.
fn is_answered(rt: &(impl Abort + AllocGlobal), text: &str, place: usize, byte: u8) -> bool {
    let mut bytes = Vec::from_slice(rt.alloc(), text.as_bytes()).expect(rt, "memory");
    if let Some(changed) = bytes.get_mut(place) {
        *changed = byte;
    }
    fault(rt, &bytes) != Some(WireFault::NoMemory)
}

// The text is answered whatever byte stands at every fourth place from `part` on. A test has a minute, and `rt try`, which
// takes a thousand times as long as the proved tests, needs that for all places.
fn see_answered(rt: &(impl Abort + AllocGlobal), part: usize) {
    for place in (0..ONE_JOB.len()).skip(part).step_by(4) {
        for byte in 0..=255 {
            assert!(rt; is_answered(rt, ONE_JOB, place, byte), "{place} {byte}");
        }
    }
}

#[test]
fn any_byte_is_answered_first(rt: HostRuntime) {
    see_answered(&rt, 0);
}

#[test]
fn any_byte_is_answered_second(rt: HostRuntime) {
    see_answered(&rt, 1);
}

#[test]
fn any_byte_is_answered_third(rt: HostRuntime) {
    see_answered(&rt, 2);
}

#[test]
fn any_byte_is_answered_fourth(rt: HostRuntime) {
    see_answered(&rt, 3);
}

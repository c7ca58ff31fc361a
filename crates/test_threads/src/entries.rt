//! Entries of journals, and their claims.
use fed_delta::Packet;
use fed_record::Reply;
use fed_replica::{Replica, Taken};
use fed_threads::{Asked, Claim, Entry};
use fed_world::Outcome;
use std::process::Abort;
use test_values::{ann, site, stamp, submission};

/// What argonne ships to lemont once it was asked this alone.
pub(crate) fn shipped_after(rt: &(impl Abort + AllocGlobal), entry: &Entry) -> Packet {
    let mut replica = Replica::new(rt.alloc(), site(0));
    if let Asked::Do { who, command, .. } = &entry.asked {
        replica.act(who, command).expect(rt, "a reply");
    }
    replica.ship(site(1)).expect(rt, "memory")
}

/// The submission of a job at argonne.
pub(crate) fn submitted(rt: &impl Abort) -> Entry {
    Entry {
        asked: Asked::Do {
            site: site(0),
            who: ann(),
            command: submission(),
        },
        packet: None,
        outcome: Outcome::Replied(Reply::Submitted(stamp(1, 0))),
    }
}

/// A shipment from argonne to lemont, at this place of argonne's journal.
pub(crate) fn ship_at(place: u64) -> Entry {
    Entry {
        asked: Asked::Ship {
            site: site(0),
            to: site(1),
        },
        packet: None,
        outcome: Outcome::Packet(place),
    }
}

/// Lemont takes the packet as the one that argonne made at this place.
pub(crate) fn taken(place: u64, packet: Packet) -> Entry {
    Entry {
        asked: Asked::Take {
            site: site(1),
            sender: site(0),
            place,
        },
        packet: Some(packet),
        outcome: Outcome::Taken(Taken { grew: true }),
    }
}

/// The claim of an entry.
pub(crate) fn claim(number: u8, index: u64, entry: &Entry) -> Claim {
    Claim {
        site: site(number),
        index,
        outcome: entry.outcome,
    }
}

/// The seat claims all entries of the journal of the site with this number.
pub(crate) fn claim_all(rt: &impl Abort, claims: &mut Vec<Claim>, number: u8, journal: &[Entry]) {
    for (index, entry) in journal.iter().enumerate() {
        let claim = claim(number, index as u64, entry);
        claims.push(claim).expect(rt, "memory");
    }
}

/// The journals once a job is submitted at argonne and shipped to lemont twice, and lemont has taken the second packet.
pub(crate) fn settled_journals(rt: &(impl Abort + AllocGlobal)) -> [Vec<Entry>; 2] {
    let alloc = rt.alloc();
    let packet = shipped_after(rt, &submitted(rt));
    let argonne = vec![in alloc; submitted(rt), ship_at(1), ship_at(2)].expect(rt, "memory");
    let lemont = vec![in alloc; taken(2, packet)].expect(rt, "memory");
    [argonne, lemont]
}

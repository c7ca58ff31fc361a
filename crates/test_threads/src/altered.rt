//! Journals and claims that are settled, and the same with one thing altered, or two, which are not.
use crate::entries::{claim, claim_all, settled_journals, ship_at, shipped_after};
use fed_record::Refusal;
use fed_stamp::SITES;
use fed_threads::{Asked, Claim, CloseFault, Entry, settle};
use fed_world::{Event, Outcome};
use std::process::Abort;
use test_values::{site, two_sites};

/// The journals of two sites, and the claims of two seats.
#[derive(Drop)]
struct Scene {
    journals: [Vec<Entry>; 2],
    seats: [Vec<Claim>; 2],
}

/// The journals of one seat, which did it all, and what it claims.
fn settled_scene(rt: &(impl Abort + AllocGlobal)) -> Scene {
    let journals = settled_journals(rt);
    let mut claims = Vec::new(rt.alloc());
    claim_all(rt, &mut claims, 0, &journals[0]);
    claim_all(rt, &mut claims, 1, &journals[1]);
    let seats = [claims, Vec::new(rt.alloc())];
    Scene { journals, seats }
}

/// What is altered of the scene.
#[derive(Clone, Copy)]
enum Alteration {
    /// The first seat claims an entry that argonne doesn't have.
    ClaimFurther,
    /// The first seat leaves out its last claim.
    LeaveClaimOut,
    /// The first two claims of the first seat are exchanged.
    ExchangeClaims,
    /// The second seat claims what the first does.
    ClaimTwice,
    /// The first entry of argonne has another outcome.
    RefuseEntry,
    /// It has another outcome, and so has its claim.
    RefuseEntryAndClaim,
    /// The last entry of argonne is a shipment to a site outside the roster.
    ShipOutside,
    /// Lemont's journal is empty.
    EmptyLemont,
    /// Lemont takes what argonne has at this place.
    TakeFrom(u64),
    /// What lemont took is the packet of a site that has nothing.
    TakeEmptyPacket,
}

/// The first two claims are exchanged.
fn exchange(rt: &impl Abort, claims: &mut Vec<Claim>) {
    assert!(rt; claims.len() >= 2);
    claims.swap(0, 1);
}

/// Alters what the first seat claims.
fn alter_claims(rt: &impl Abort, claims: &mut Vec<Claim>, alteration: Alteration) {
    match alteration {
        Alteration::ClaimFurther => {
            let further = claim(0, 3, &ship_at(3));
            claims.push(further).expect(rt, "memory");
        }
        Alteration::LeaveClaimOut => {
            claims.pop();
        }
        Alteration::ExchangeClaims => exchange(rt, claims),
        Alteration::RefuseEntryAndClaim => {
            let claim = claims.get_mut(0).expect(rt, "a claim");
            claim.outcome = Outcome::Refused(Refusal::Gone);
        }
        _ => {}
    }
}

/// Alters argonne's journal.
fn alter_argonne(rt: &impl Abort, journal: &mut Vec<Entry>, alteration: Alteration) {
    match alteration {
        Alteration::RefuseEntry | Alteration::RefuseEntryAndClaim => {
            let entry = journal.get_mut(0).expect(rt, "an entry");
            entry.outcome = Outcome::Refused(Refusal::Gone);
        }
        Alteration::ShipOutside => {
            let (site, to) = (site(0), site(2));
            journal.get_mut(2).expect(rt, "an entry").asked = Asked::Ship { site, to };
        }
        _ => {}
    }
}

/// Alters lemont's journal, of one entry.
fn alter_lemont(rt: &(impl Abort + AllocGlobal), journal: &mut Vec<Entry>, alteration: Alteration) {
    let (site, sender) = (site(1), site(0));
    let entry = journal.get_mut(0).expect(rt, "an entry");
    match alteration {
        Alteration::TakeFrom(place) => {
            entry.asked = Asked::Take {
                site,
                sender,
                place,
            };
        }
        Alteration::TakeEmptyPacket => {
            entry.packet = Some(shipped_after(rt, &ship_at(1)));
        }
        Alteration::EmptyLemont => journal.clear(),
        _ => {}
    }
}

/// Alters the scene.
fn alter(rt: &(impl Abort + AllocGlobal), scene: &mut Scene, alteration: Alteration) {
    if matches!(alteration, Alteration::ClaimTwice) {
        let claims = Vec::from_slice(rt.alloc(), &scene.seats[0]);
        scene.seats[1] = claims.expect(rt, "memory");
    }
    alter_claims(rt, &mut scene.seats[0], alteration);
    alter_argonne(rt, &mut scene.journals[0], alteration);
    alter_lemont(rt, &mut scene.journals[1], alteration);
}

/// The events that the scene is settled to, or its fault.
fn events_of(rt: &(impl Abort + AllocGlobal), scene: &Scene) -> Result<Vec<Event>, CloseFault> {
    let roster = two_sites();
    assert!(rt; scene.journals.len() == roster.len());
    settle(rt.alloc(), &roster, &scene.journals, &scene.seats)
}

/// The fault of a scene that can't be settled.
fn fault_of(rt: &(impl Abort + AllocGlobal), scene: &Scene) -> CloseFault {
    events_of(rt, scene).err().expect(rt, "a fault")
}

/// The scene has this fault once it is altered, and also where it is altered further.
fn see(rt: &(impl Abort + AllocGlobal), alterations: &[Alteration], fault: &CloseFault) {
    let mut scene = settled_scene(rt);
    for alteration in alterations {
        alter(rt, &mut scene, *alteration);
        assert!(rt; fault_of(rt, &scene) == *fault);
    }
}

/// So many entries of the two sites have an order.
fn no_order(argonne: u64, lemont: u64) -> CloseFault {
    let mut next = [0; SITES];
    next[0] = argonne;
    next[1] = lemont;
    CloseFault::NoOrder { next }
}

#[test]
fn the_scene_is_settled(rt: HostRuntime) {
    let events = events_of(&rt, &settled_scene(&rt)).expect(&rt, "events");
    let (site, to) = (site(0), site(1));
    let ship = Event::Ship { site, to };
    let take = Event::Take {
        site: to,
        packet: 2,
    };
    assert!(rt; events.len() == 4);
    assert!(rt; events.get(1) == Some(&ship) && events.get(2) == Some(&ship));
    assert!(rt; events.get(3) == Some(&take));
}

/// A claim of no entry, of an empty journal, or of another outcome than the entry's is strange, and told before an entry
/// that isn't claimed.
#[test]
fn claims_are_strange(rt: HostRuntime) {
    let seat = 0;
    let further = CloseFault::Strange { seat, place: 4 };
    see(&rt, &[Alteration::ClaimFurther], &further);
    let empty = CloseFault::Strange { seat, place: 3 };
    see(&rt, &[Alteration::EmptyLemont], &empty);
    let other = CloseFault::Strange { seat, place: 0 };
    see(
        &rt,
        &[Alteration::RefuseEntry, Alteration::LeaveClaimOut],
        &other,
    );
}

/// An entry that is claimed twice, or not at all, is told before claims of which there is no order of the entries.
#[test]
fn entries_are_claimed_once(rt: HostRuntime) {
    let index = 0;
    let (first, site) = (site(0), site(1));
    let twice = CloseFault::Twice { site: first, index };
    see(&rt, &[Alteration::ClaimTwice], &twice);
    let unclaimed = CloseFault::Unclaimed { site, index };
    see(
        &rt,
        &[Alteration::LeaveClaimOut, Alteration::ExchangeClaims],
        &unclaimed,
    );
}

/// A take of no shipment has no place. Exchanged claims have no order, which is told before an entry that differs.
#[test]
fn entries_have_no_order(rt: HostRuntime) {
    let places = [Alteration::TakeFrom(0), Alteration::TakeFrom(7)];
    see(&rt, &places, &no_order(3, 0));
    see(
        &rt,
        &[Alteration::ExchangeClaims, Alteration::TakeEmptyPacket],
        &no_order(0, 0),
    );
}

/// Another packet, another outcome and a shipment outside the roster differ from what a run of the events does.
#[test]
fn entries_differ(rt: HostRuntime) {
    see(
        &rt,
        &[Alteration::TakeEmptyPacket],
        &CloseFault::Differs { event: 3 },
    );
    see(
        &rt,
        &[Alteration::RefuseEntryAndClaim],
        &CloseFault::Differs { event: 0 },
    );
    see(
        &rt,
        &[Alteration::ShipOutside],
        &CloseFault::Differs { event: 2 },
    );
}

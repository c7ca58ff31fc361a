//! The members of a packet's JSON object.
ghost use Rattle.std.specs.Prelude.{◌≡◌, IfSome, is_some, true, false};
ghost use Rattle.serde_json.specs.View.{view};
ghost use Rattle.fed_json.specs.Objects.{has_names};
ghost use Rattle.fed_wire.specs.Members.{AreMembers};
ghost use Rattle.fed_wire.specs.Reading.{packet_names};

use fed_json::read_members;
use serde_json::Value;

// The names of the members of a packet in which nothing is retired.
const NAMES: [&str; 6] = [
    "format",
    "jobs",
    "need",
    "reached",
    "reservations",
    "sender",
];

// The names of the members of a packet that tells what is retired.
const NAMES_WITH_RETIRED: [&str; 7] = [
    "format",
    "jobs",
    "need",
    "reached",
    "reservations",
    "retired",
    "sender",
];

/// The values of a packet's members, but for its format, which is read before the others are told to be there.
#[derive(Clone, Copy)]
pub(crate) struct PacketMembers<'a> {
    /// The jobs that changed.
    pub(crate) jobs: &'a Value,
    /// The version that the packet needs.
    pub(crate) need: &'a Value,
    /// The version that it reaches.
    pub(crate) reached: &'a Value,
    /// The reservations that changed.
    pub(crate) reservations: &'a Value,
    /// What the sites have retired, where the format tells it.
    pub(crate) retired: Option<&'a Value>,
    /// The site that sent it.
    pub(crate) sender: &'a Value,
}

// The members of a packet in which nothing is retired.
fn six_members<'a>(packet: &'a Value) -> Option<PacketMembers<'a>>
    ensures named { is_some result ≡ has_names (packet_names false) (view packet.now) }
    ensures members { IfSome result (AreMembers (view packet.now)) }
    ensures retired { IfSome result (λ m. is_some m.retired ≡ false) }
{
    // Until a member is read, the object itself stands at its index.
    let mut members = [packet; NAMES.len()];
    if !read_members(packet, &NAMES, &mut members) {
        return None;
    }
    Some(PacketMembers {
        jobs: members[1],
        need: members[2],
        reached: members[3],
        reservations: members[4],
        retired: None,
        sender: members[5],
    })
}

// The members of a packet that tells what is retired.
fn seven_members<'a>(packet: &'a Value) -> Option<PacketMembers<'a>>
    ensures named { is_some result ≡ has_names (packet_names true) (view packet.now) }
    ensures members { IfSome result (AreMembers (view packet.now)) }
    ensures retired { IfSome result (λ m. is_some m.retired ≡ true) }
{
    // Until a member is read, the object itself stands at its index.
    let mut members = [packet; NAMES_WITH_RETIRED.len()];
    if !read_members(packet, &NAMES_WITH_RETIRED, &mut members) {
        return None;
    }
    Some(PacketMembers {
        jobs: members[1],
        need: members[2],
        reached: members[3],
        reservations: members[4],
        retired: Some(members[5]),
        sender: members[6],
    })
}

/// The members of the object, or none where it does not have exactly a packet's names, in their order. Among them is what
/// is retired, where the format tells it.
pub(crate) fn packet_members<'a>(packet: &'a Value, tells: bool) -> Option<PacketMembers<'a>>
    ensures named { is_some result ≡ has_names (packet_names tells) (view packet.now) }
    ensures members { IfSome result (AreMembers (view packet.now)) }
    ensures retired { IfSome result (λ m. is_some m.retired ≡ tells) }
{
    if tells {
        seven_members(packet)
    } else {
        six_members(packet)
    }
}

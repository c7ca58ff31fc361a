//! Packets read from JSON values.
ghost use Rattle.std.specs.Prelude.{◌≡◌, is_some};
ghost use Rattle.serde_json.specs.Data.{Data};
ghost use Rattle.serde_json.specs.View.{view};
ghost use Rattle.fed_wire.specs.Faults.{Gives};
ghost use Rattle.fed_wire.specs.Members.{AreMembers};
ghost use Rattle.fed_wire.specs.Reading.{least_above, body_in, format_in, packet_of};

use crate::faults::{Part, Place, WireFault};
use crate::jobs::read_jobs;
use crate::members::{PacketMembers, packet_members};
use crate::readings::{sender, version};
use crate::reservations::read_reservations;
use crate::retired::read_retired;
use fed_delta::{Delta, Packet};
use fed_job_json::Format;
use fed_stamp::{SiteId, Version};
use serde_json::Value;
use std::alloc::Global;

const WHOLE: Place = Place {
    part: Part::Whole,
    index: 0,
};

// The least site at which the need is above what is reached.
fn least_site_above(need: &Version, reached: &Version) -> Option<SiteId>
    ensures { result ≡ least_above 0 need.now reached.now }
{
    need.first_above(reached)
}

/// The packet of these members.
pub(crate) fn body(
    alloc: Global,
    members: &PacketMembers<'_>,
    format: Format,
) -> Result<Packet, WireFault>
    ensures { (d : Data) → AreMembers d members.now → Gives (body_in format (is_some members.now.retired) d) result }
{
    let sender = sender(members.sender)?;
    let need = version(members.need, Part::Need)?;
    let reached = version(members.reached, Part::Reached)?;
    if let Some(site) = least_site_above(&need, &reached) {
        return Err(WireFault::Range {
            place: Place {
                part: Part::Need,
                index: site.get() as usize,
            },
        });
    }
    let jobs = read_jobs(alloc, members.jobs, format, &reached)?;
    let reservations = read_reservations(alloc, members.reservations, &reached)?;
    let retired = read_retired(alloc, members.retired, &reached, &jobs, &reservations)?;
    let delta = Delta::from_parts(need, reached, retired, jobs, reservations);
    Ok(Packet::new(sender, delta))
}

// How the jobs of the packet are said, and whether what is retired is. The number 3 is that of a format only if it is.
fn format(packet: &Value) -> Result<(Format, bool), WireFault>
    ensures { result ≡ format_in (view packet.now) }
{
    match packet.get("format").and_then(Value::as_u64) {
        Some(1) => Ok((Format::One, false)),
        Some(2) => Ok((Format::Two, false)),
        Some(3) if packet.get("retired").is_some() => Ok((Format::Two, true)),
        Some(number) => Err(WireFault::Version(number)),
        None => Err(WireFault::Shape { place: WHOLE }),
    }
}

/// The packet of a JSON value of any format.
#[tactic(auto, unfolding(crate::specs::Reading::packet_of))]
pub(crate) fn packet(alloc: Global, value: &Value) -> Result<Packet, WireFault>
    ensures { Gives (packet_of (view value.now)) result }
{
    let (format, tells) = format(value)?;
    let Some(members) = packet_members(value, tells) else {
        return Err(WireFault::Shape { place: WHOLE });
    };
    body(alloc, &members, format)
}

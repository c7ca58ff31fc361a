//! What a site holds, as text, and a site that begins from that.
ghost use Rattle.std.specs.Prelude.{◌≡◌, ◌++◌, codes, IfOk, IfSome, option_map};
ghost use Rattle.serde_json.specs.Written.{compact_text};
ghost use Rattle.fed_job_json.specs.declared.formats.Format.TheVariants.{Two};
ghost use Rattle.fed_wire.specs.Packet.{packet_value};
ghost use Rattle.fed_replica.specs.State.{hearing, state_of};
ghost use Rattle.fed_site.specs.Known.{heard_line as line_of_heard, is_whole as tells_all, known_in, unheard};
ghost use Rattle.fed_site.specs.Packets.{IsPacketText};

use crate::packets::{is_foreign, of_text};
use fed_delta::Packet;
use fed_lattice::NoMemory;
use fed_replica::Replica;
use fed_stamp::{Roster, SiteId, Version, site_is_in_range};
use fed_wire::{read, told_packets_are_within_limits, write};
use std::alloc::Global;

/// Whether the packet is the site's own, needs nothing, and tells of no site that the roster hasn't.
fn is_whole(roster: &Roster, here: SiteId, packet: &Packet) -> bool
    ensures { result ≡ tells_all roster.now here packet.now }
{
    packet.sender() == here
        && packet.delta().need().le(&Version::default())
        && !is_foreign(roster, packet)
}

/// What a site of the roster knows by a text, if it is the text of such a packet.
pub(crate) fn known(
    alloc: Global,
    roster: &Roster,
    here: SiteId,
    text: &[u8],
) -> Result<Option<Replica>, NoMemory>
    ensures state { IfOk result (λ known. option_map state_of known ≡ known_in roster.now here text.now) }
    ensures site { IfOk result (λ known. IfSome known (λ replica. replica.site ≡ here)) }
{
    match read(alloc, text) {
        Ok(packet) => {
            if is_whole(roster, here, &packet) {
                let records = packet.into_delta().into_changes();
                Ok(Some(Replica::holding(alloc, here, records)))
            } else {
                Ok(None)
            }
        }
        Err(fault) => {
            let _told = of_text(fault)?;
            Ok(None)
        }
    }
}

/// The text of the packet of all that a site knows.
pub(crate) fn known_text(alloc: Global, replica: &Replica) -> Result<Vec<u8>, NoMemory>
    ensures { IfOk result (λ text. IsPacketText (unheard (state_of replica.now)) 0 text.items) }
{
    let packet = replica.whole()?;
    told_packets_are_within_limits(&packet);
    write(alloc, &packet)
}

/// `take` and the text of the packet that tells nothing but what was heard from a site.
fn hearing_line(alloc: Global, replica: &Replica, from: SiteId) -> Result<Vec<u8>, NoMemory>
    ensures { IfOk result (λ line. line.items ≡
        codes "take " ++ compact_text (packet_value Two (hearing (state_of replica.now) from))) }
{
    let text = write(alloc, &replica.hearing(from))?;
    let mut line = b"take ".to_vec(alloc)?;
    line.extend_from_slice(&text)?;
    Ok(line)
}

/// The line that takes a packet that tells nothing but what was heard from a site, where something was.
pub(crate) fn heard_line(
    alloc: Global,
    replica: &Replica,
    from: SiteId,
) -> Result<Option<Vec<u8>>, NoMemory>
    ensures { IfOk result (λ line. option_map (λ line. line.items) line ≡ line_of_heard (state_of replica.now) from) }
{
    site_is_in_range(from);
    if replica.heard(from).le(&Version::default()) {
        return Ok(None);
    }
    Ok(Some(hearing_line(alloc, replica, from)?))
}

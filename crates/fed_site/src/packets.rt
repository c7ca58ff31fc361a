//! What a site does to the texts of packets, and the text of its own.
ghost use Rattle.std.specs.Prelude.{◌≡◌, ◌≢◌, ◌≤◌, ◌<◌, ◌++◌, nat_lt, drop, ℕ, List, IfOk, IfSome, OnErr, codes, if◌then◌else◌, length, option_map, position};
ghost use Rattle.std.specs.Cow.{cow_str_bytes};
ghost use Rattle.std.specs.Fmt.{decimal};
ghost use Rattle.std.specs.List.{list_any};
ghost use Rattle.fed_stamp.specs.declared.sites.TheConstants.{SITES};
ghost use Rattle.fed_wire.specs.declared.faults.WireFault.{WireFault};
ghost use Rattle.fed_qstat.specs.Outcome.{answer_line};
ghost use Rattle.fed_site.specs.Acts.{DoneAs};
ghost use Rattle.fed_replica.specs.State.{state_of};
ghost use Rattle.fed_site.specs.Packets.{is_foreign as tells_of_others, is_forgotten as has_seen_more, part_text as text_of_part, place_text as text_of_place, unread_text, IsPacketText};
ghost use Rattle.fed_site.specs.Handed.{complaint_of_name, cut_behind, is_blank, named_in, packet_of, site_of, text_of_complaint};
ghost use Rattle.fed_site.specs.Says.{after_packet, after_reading, after_receipt, after_text};
ghost use Rattle.fed_wire.specs.Reading.{packet_in};

use crate::answers::{LineText, TextAnswer, undone};
use crate::complaints::Complaint;
use fed_delta::Packet;
use fed_lattice::NoMemory;
use fed_model::Outcome;
use fed_qstat::{AnswerText, outcome_line, site_text};
use fed_replica::{Received, Replica, Taken};
use fed_script::{one_word, told_words};
use fed_stamp::{Roster, SiteId, Version, site_is_in_range};
use fed_wire::{Part, Place, WireFault, read, told_packets_are_within_limits, write};
use std::alloc::{AllocError, Global};
use std::borrow::CowStr;

/// A part of a packet, in small letters.
pub(crate) fn part_text(part: Part) -> &'static str
    ensures { result.now ≡ text_of_part part }
{
    match part {
        Part::Whole => "whole",
        Part::Sender => "sender",
        Part::Need => "need",
        Part::Reached => "reached",
        Part::Jobs => "jobs",
        Part::Reservations => "reservations",
        Part::Retired => "retired",
    }
}

/// The line that tells a fault and its place.
fn place_line(alloc: Global, number: u8, place: Place) -> Result<AnswerText, AllocError>
    ensures { IfOk result (λ line. cow_str_bytes line ≡
        answer_line (codes "unread " ++ decimal number ++ codes " " ++ text_of_place place)) }
{
    let part = part_text(place.part);
    let index = place.index;
    Ok(CowStr::Owned(format!(in alloc; "unread {number} {part} {index}\n")?))
}

/// The line that tells why a text is read as no packet.
fn unread_line(alloc: Global, fault: WireFault) -> Result<AnswerText, AllocError>
    ensures { IfOk result (λ line. cow_str_bytes line ≡ answer_line (unread_text fault)) }
{
    match fault {
        WireFault::NotJson => Ok(CowStr::Borrowed("unread 1\n")),
        WireFault::Version(version) => Ok(CowStr::Owned(format!(in alloc;
            "unread 2 {version}\n"
        )?)),
        WireFault::Shape { place } => place_line(alloc, 3, place),
        WireFault::Range { place } => place_line(alloc, 4, place),
        WireFault::NoMemory => Ok(CowStr::Borrowed("unread 5\n")),
    }
}

/// Whether anything is told of the sites that these counters are of: each is the greatest that is told of its site.
fn is_anything_told(counters: &[u32]) -> bool
    ensures { result ≡ list_any (λ counter. nat_lt 0 counter) counters.now }
{
    counters.iter().any(|counter| *counter > 0)
}

/// Whether anything is told of a site behind so many.
fn tells_of_more(sites: usize, reached: &Version) -> bool
    requires { sites ≤ SITES }
    ensures { result ≡ list_any (λ counter. nat_lt 0 counter) (drop sites reached.now) }
{
    is_anything_told(&reached.counters()[sites..])
}

/// Whether the sender, or a site of which something is told, is none of the roster's.
pub(crate) fn is_foreign(roster: &Roster, packet: &Packet) -> bool
    ensures { result ≡ tells_of_others roster.now packet.now }
{
    let sites = roster.len();
    if packet.sender().get() as usize >= sites {
        return true;
    }
    tells_of_more(sites, &packet.delta().reached())
}

/// Whether the packet has seen more of the site's own operations than the site has made.
fn is_forgotten(here: SiteId, replica: &Replica, packet: &Packet) -> bool
    requires { replica.now.site ≡ here }
    ensures { result ≡ has_seen_more (state_of replica.now) packet.now }
{
    packet.delta().reached().get(here) > replica.board().version().get(here)
}

/// The line that tells that a packet was taken.
fn taken_line(taken: Taken) -> AnswerText
    ensures { cow_str_bytes result ≡ answer_line (if taken.grew then codes "taken" else codes "known") }
{
    if taken.grew {
        CowStr::Borrowed("taken\n")
    } else {
        CowStr::Borrowed("known\n")
    }
}

/// Takes a packet of this federation. Where memory is refused, nothing changes.
fn take_known(
    alloc: Global,
    roster: &Roster,
    replica: &mut Replica,
    packet: &Packet,
) -> Result<TextAnswer, NoMemory>
    ensures done { IfOk result (λ a. DoneAs replica.new a
        (after_receipt roster.now (state_of replica.old) packet.now)) }
    ensures site { replica.new.site ≡ replica.old.site }
    ensures unchanged { OnErr result (replica.new ≡ replica.old) }
{
    match replica.receive(packet)? {
        Received::Taken(taken) => Ok(TextAnswer {
            text: LineText::Other(taken_line(taken)),
            kept: true,
            complaint: None,
            begun: None,
        }),
        Received::Gap(missing) => {
            let text = outcome_line(alloc, roster, Outcome::Gap(missing))?;
            Ok(undone(text, Complaint::Gap(missing)))
        }
    }
}

/// Takes a packet. Where memory is refused, nothing changes.
fn take_packet(
    alloc: Global,
    roster: &Roster,
    here: SiteId,
    replica: &mut Replica,
    packet: &Packet,
) -> Result<TextAnswer, NoMemory>
    requires { replica.old.site ≡ here }
    ensures done { IfOk result (λ a. DoneAs replica.new a
        (after_packet roster.now (state_of replica.old) packet.now)) }
    ensures site { replica.new.site ≡ here }
    ensures unchanged { OnErr result (replica.new ≡ replica.old) }
{
    if is_foreign(roster, packet) {
        return Ok(undone(CowStr::Borrowed("foreign\n"), Complaint::Foreign));
    }
    if is_forgotten(here, replica, packet) {
        return Ok(undone(CowStr::Borrowed("forgotten\n"), Complaint::Forgotten));
    }
    take_known(alloc, roster, replica, packet)
}

/// The fault of a text, but for want of memory.
pub(crate) fn of_text(fault: WireFault) -> Result<WireFault, NoMemory>
    ensures same { IfOk result (λ told. (told ≡ fault) × (fault ≢ WireFault.NoMemory)) }
    ensures memory { OnErr result (fault ≡ WireFault.NoMemory) }
{
    match fault {
        WireFault::NoMemory => Err(NoMemory),
        _ => Ok(fault),
    }
}

/// What a text is read as, but for want of memory.
fn read_text(alloc: Global, text: &[u8]) -> Result<Result<Packet, WireFault>, NoMemory>
    ensures { IfOk result (λ reading. reading ≡ packet_in text.now) }
{
    match read(alloc, text) {
        Ok(packet) => Ok(Ok(packet)),
        Err(fault) => Ok(Err(of_text(fault)?)),
    }
}

/// Takes what a text was read as. Where memory is refused, nothing changes.
fn take_reading(
    alloc: Global,
    roster: &Roster,
    here: SiteId,
    replica: &mut Replica,
    reading: &Result<Packet, WireFault>,
) -> Result<TextAnswer, NoMemory>
    requires { replica.old.site ≡ here }
    ensures done { IfOk result (λ a. DoneAs replica.new a
        (after_reading roster.now (state_of replica.old) reading.now)) }
    ensures site { replica.new.site ≡ here }
    ensures unchanged { OnErr result (replica.new ≡ replica.old) }
{
    match reading {
        Ok(packet) => take_packet(alloc, roster, here, replica, packet),
        Err(fault) => Ok(undone(unread_line(alloc, *fault)?, Complaint::Unread(*fault))),
    }
}

/// The place of the first blank.
fn blank_in(text: &[u8]) -> Option<usize>
    ensures found { result ≡ position is_blank text.now }
    ensures within { IfSome result (λ blank. blank < length text.now) }
{
    text.iter().position(|byte| *byte == b' ')
}

/// What stands before the first blank, and what stands behind it.
fn cut_behind_name(text: &[u8]) -> (&[u8], &[u8])
    ensures { (result.0.now, result.1.now) ≡ cut_behind text.now }
{
    match blank_in(text) {
        Some(blank) => (&text[..blank], &text[blank + 1..]),
        None => (text, &[]),
    }
}

/// `from NAME TEXT`: the name, where one is told, and the packet's own text.
fn split_name(text: &[u8]) -> (Option<&[u8]>, &[u8])
    ensures name { option_map (λ name. name.now) result.0 ≡ named_in text.now }
    ensures packet { result.1.now ≡ packet_of text.now }
{
    if !text.starts_with(b"from ") {
        return (None, text);
    }
    let (name, packet) = cut_behind_name(&text[5..]);
    (Some(name), packet)
}

/// The site of this name.
fn site_named(alloc: Global, roster: &Roster, name: &[u8]) -> Result<Option<SiteId>, NoMemory>
    ensures { IfOk result (λ site. site ≡ site_of roster.now name.now) }
{
    let Some(words) = told_words(alloc, name)? else {
        return Ok(None);
    };
    match one_word(words.as_slice()) {
        Some(word) => Ok(roster.find(word)),
        None => Ok(None),
    }
}

/// Why a text is not taken that was read so and that a site of this name, where one is told, hands in.
fn complaint_of(
    alloc: Global,
    roster: &Roster,
    name: Option<&[u8]>,
    reading: &Result<Packet, WireFault>,
) -> Result<Option<Complaint>, NoMemory>
    ensures { IfOk result (λ complaint. complaint ≡ complaint_of_name roster.now (option_map (λ name. name.now) name.entry) reading.now) }
{
    let Some(name) = name else {
        return Ok(None);
    };
    let Some(site) = site_named(alloc, roster, name)? else {
        return Ok(Some(Complaint::Foreign));
    };
    match reading {
        Ok(packet) if packet.sender() != site => Ok(Some(Complaint::NotFrom(site))),
        _ => Ok(None),
    }
}

/// The line that tells why a text is not taken that a site hands in.
fn complaint_line(
    alloc: Global,
    roster: &Roster,
    complaint: Complaint,
) -> Result<AnswerText, AllocError>
    ensures { IfOk result (λ line. cow_str_bytes line ≡ answer_line (text_of_complaint roster.now complaint)) }
{
    match complaint {
        Complaint::NotFrom(site) => {
            let name = site_text(alloc, roster, site)?;
            Ok(CowStr::Owned(format!(in alloc; "not from {name}\n")?))
        }
        _ => Ok(CowStr::Borrowed("foreign\n")),
    }
}

/// Takes the packet that a text is of, which a site may be told to hand in. Where memory is refused, nothing changes.
pub(crate) fn take(
    alloc: Global,
    roster: &Roster,
    here: SiteId,
    replica: &mut Replica,
    text: &[u8],
) -> Result<TextAnswer, NoMemory>
    requires { replica.old.site ≡ here }
    ensures done { IfOk result (λ a. DoneAs replica.new a
        (after_text roster.now (state_of replica.old) text.now)) }
    ensures site { replica.new.site ≡ here }
    ensures unchanged { OnErr result (replica.new ≡ replica.old) }
{
    let (name, text) = split_name(text);
    let reading = read_text(alloc, text)?;
    if let Some(complaint) = complaint_of(alloc, roster, name, &reading)? {
        return Ok(undone(complaint_line(alloc, roster, complaint)?, complaint));
    }
    take_reading(alloc, roster, here, replica, &reading)
}

/// The text of the packet for a site, and the end of the line.
pub(crate) fn ship(alloc: Global, replica: &Replica, to: SiteId) -> Result<Vec<u8>, NoMemory>
    ensures { IfOk result (λ bytes. (text : List ℕ) × IsPacketText (state_of replica.now) to text ×
        (bytes.items ≡ answer_line text)) }
{
    site_is_in_range(to);
    let packet = replica.ship(to)?;
    told_packets_are_within_limits(&packet);
    let mut text = write(alloc, &packet)?;
    text.push(b'\n')?;
    Ok(text)
}

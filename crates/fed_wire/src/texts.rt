//! How a packet is written as text, and read of it.
ghost use Rattle.std.specs.Prelude.{◌≡◌, ◌↔◌, Some, Ok, IfOk};
ghost use Rattle.serde_json.specs.Errors.{IsMemory};
ghost use Rattle.serde_json.specs.Written.{compact_text};
ghost use Rattle.fed_job_json.specs.declared.formats.Format.TheVariants.{Two};
ghost use Rattle.fed_job_json.specs.declared.formats.Format.{Format as AFormat};
ghost use Rattle.fed_wire.specs.Faults.{Gives};
ghost use Rattle.fed_wire.specs.Packet.{IsPacket, packet_value};
ghost use Rattle.fed_delta.specs.Packet.{PacketValue};
ghost use Rattle.fed_wire.specs.Reading.{text_value, packet_in};

use crate::bodies::packet;
use crate::faults::WireFault;
use crate::printing::packet_text;
use fed_delta::Packet;
use fed_lattice::NoMemory;
use serde_json::{Error, Value};
use std::alloc::Global;

/// Why bytes are not read as a JSON value: want of memory alone is told as such.
fn unread(error: &Error) -> WireFault
    ensures memory { (result ≡ WireFault.NoMemory) ↔ IsMemory error.now }
    ensures text { ¬ IsMemory error.now → result ≡ WireFault.NotJson }
{
    if error.is_memory() {
        WireFault::NoMemory
    } else {
        WireFault::NotJson
    }
}

// The packet of the text, or its first fault.
fn packet_in_text(alloc: Global, bytes: &[u8]) -> Result<Packet, WireFault>
    ensures { Gives (packet_in bytes.now) result }
{
    match Value::from_slice(alloc, bytes) {
        Ok(value) => packet(alloc, &value),
        Err(error) => Err(unread(&error)),
    }
}

/// The packet that the text of any format is of. The bytes are accepted exactly where they are read as the JSON value
/// of a packet within limits; else the fault is the first in the order of the checks. `NoMemory` is answered only where
/// an allocation failed.
pub fn read(alloc: Global, bytes: &[u8]) -> Result<Packet, WireFault>
    ensures found { IfOk result (λ p. (format : AFormat) × IsPacket format p × (text_value bytes.now ≡ Some (packet_value format p))) }
    ensures only { (format : AFormat) (p : PacketValue) → IsPacket format p → text_value bytes.now ≡ Some (packet_value format p) → Gives (Ok p) result }
    ensures exact { Gives (packet_in bytes.now) result }
{
    packet_in_text(alloc, bytes)
}

/// The text of the packet, with no space: of format 3 where something is retired in it, and else of format 2.
pub fn write(alloc: Global, packet: &Packet) -> Result<Vec<u8>, NoMemory>
    ensures text { IfOk result (λ b. b.items ≡ compact_text (packet_value Two packet.now)) }
    ensures again { IfOk result (λ b. text_value b.items ≡ Some (packet_value Two packet.now)) }
{
    Ok(packet_text(alloc, packet)?)
}

/// A packet within limits is read of its text again, unless an allocation fails.
pub fn written_packets_are_read_again(alloc: Global, packet: &Packet) -> Result<Packet, WireFault>
    ensures { IsPacket Two packet.now → Gives (Ok packet.now) result }
{
    let text = write(alloc, packet)?;
    read(alloc, &text)
}

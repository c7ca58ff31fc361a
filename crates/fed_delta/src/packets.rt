//! A packet: what a site tells another of its board.
ghost use Rattle.std.specs.Prelude.{◌≡◌, ◌<◌, ◌↔◌, IsTrue};
ghost use Rattle.fed_stamp.specs.declared.sites.TheConstants.{SITES};

use crate::deltas::Delta;
use fed_stamp::{SiteId, site_is_in_range};
use std::marker::Model;

/// What a site tells another: a delta of its board.
#[derive(Drop)]
pub struct Packet {
    sender: SiteId,
    delta: Delta,
}

impl Model for Packet {
    ghost use Rattle.fed_delta.specs.Packet.{PacketValue};

    ghost Value = { PacketValue };

    ghost view = { λ p. record { sender = p.sender; delta = p.delta } };
}

impl Packet {
    /// The packet of the delta that the site sends.
    pub fn new(sender: SiteId, delta: Delta) -> Packet
        ensures sender { result.sender ≡ sender }
        ensures delta { result.delta ≡ delta }
    {
        Packet { sender, delta }
    }

    /// The site that sends it.
    pub fn sender(&self) -> SiteId
        ensures { result ≡ self.now.sender }
    {
        self.sender
    }

    /// What it tells.
    pub fn delta(&self) -> &Delta
        ensures { result.now ≡ self.now.delta }
    {
        &self.delta
    }

    /// What it tells, without who tells it.
    pub fn into_delta(self) -> Delta
        ensures { result ≡ self.delta }
    {
        self.delta
    }
}

/// Packets are equal exactly where they are identical: where their senders and their deltas are.
impl PartialEq for Packet {
    ghost use Rattle.fed_delta.specs.PacketLaws.{same_packet, packet_laws};

    ghost eq = { same_packet };

    ghost laws = { packet_laws };

    fn eq(&self, other: &Self) -> bool
        ensures by_parts { result ≡ same_packet self.now other.now }
        ensures same { IsTrue result ↔ (self.now ≡ other.now) }
    {
        self.sender == other.sender && self.delta == other.delta
    }
}

/// The sender of a packet is one of the 16 sites. This does nothing: its contract is the fact, which a caller tells the
/// prover by calling it.
pub fn sender_is_in_range(packet: &Packet)
    ensures { packet.now.sender < SITES }
{
    site_is_in_range(packet.sender());
}

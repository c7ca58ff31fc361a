//! What a site sends to another: a packet with its sender and its place in the sender's journal.
use fed_delta::Packet;
use fed_stamp::SiteId;

/// A packet on its way: its sender, and the place in the sender's journal where it was made, counted from 0.
#[derive(Drop)]
pub(crate) struct Parcel {
    pub(crate) sender: SiteId,
    pub(crate) place: u64,
    pub(crate) packet: Packet,
}

//! What may happen next in a federation: a command, a shipment or a delivery at one site.
use crate::askers::Who;
use crate::commands::Command;
use fed_stamp::SiteId;

/// What may happen next in a federation. A packet that is lost is one that is never taken; one that is repeated is
/// taken again.
#[derive(Clone, Copy, PartialEq, Eq, Debug)]
pub enum Event {
    /// Somebody, or the site's own scheduler, asks a site to do something.
    Do {
        site: SiteId,
        who: Who,
        command: Command,
    },
    /// A site makes a packet for a site.
    Ship {
        site: SiteId,
        to: SiteId,
    },
    /// A site takes a packet that was made before, by its number, which counts from 1.
    Take {
        site: SiteId,
        packet: u64,
    },
}

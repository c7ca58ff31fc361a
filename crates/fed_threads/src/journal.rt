//! What sites were asked, and what they answered.
ghost use Rattle.std.specs.Prelude.{◌≡◌, ◌↔◌, IsTrue};

use fed_delta::Packet;
use fed_record::{Command, Who};
use fed_stamp::SiteId;
use fed_world::Outcome;

/// What was asked of a site.
#[derive(Clone, Copy, PartialEq, Eq, Debug)]
pub enum Asked {
    /// Somebody, or the site's own scheduler, asked it to do something.
    Do {
        site: SiteId,
        who: Who,
        command: Command,
    },
    /// It was to make a packet for a site.
    Ship {
        site: SiteId,
        to: SiteId,
    },
    /// It was to take the packet that the sender made at this place of the sender's journal.
    Take {
        site: SiteId,
        sender: SiteId,
        place: u64,
    },
}

impl Asked {
    ghost use Rattle.fed_threads.specs.Settled.{site_of, StaysInside};

    /// The site that was asked.
    pub fn site(&self) -> SiteId
        ensures { result ≡ site_of self.now }
    {
        match self {
            Asked::Do { site, .. } | Asked::Ship { site, .. } | Asked::Take { site, .. } => *site,
        }
    }

    /// Whether it is no ship to a site outside a roster of so many sites.
    pub fn stays_inside(&self, sites: usize) -> bool
        ensures { IsTrue result ↔ StaysInside sites self.now }
    {
        match self {
            Asked::Ship { to, .. } => (to.get() as usize) < sites,
            Asked::Do { .. } | Asked::Take { .. } => true,
        }
    }
}

/// What a site was asked and answered, as its journal keeps it. A command that was refused is an entry too; a call that
/// ended with a fault is none.
#[derive(Drop)]
pub struct Entry {
    /// What was asked.
    pub asked: Asked,
    /// The packet of a take, also of one that was answered by a gap. Nothing else has one.
    pub packet: Option<Packet>,
    /// The outcome. That of a ship is `Packet` with the entry's own place, counted from 0.
    pub outcome: Outcome,
}

/// A call that a seat was answered: the place of its entry in the site's journal, counted from 0, and its outcome.
#[derive(Clone, Copy, PartialEq, Eq, Debug)]
pub struct Claim {
    /// The site that was asked.
    pub site: SiteId,
    /// The place of the entry in the site's journal, from 0.
    pub index: u64,
    /// What was answered.
    pub outcome: Outcome,
}

//! Sets of sites.
ghost use Rattle.std.specs.Prelude.{◌≡◌, ◌<◌, ◌==◌, ◌↔◌, ◌⊎◌, ℕ, length, IsTrue, IfSome, if◌then◌else◌};
ghost use Rattle.std.specs.List.{Contains};
ghost use Rattle.fed_stamp.specs.SiteSet.{has as is_member, set_of, with_site};

use crate::sites::{SITES, SiteId};
use std::marker::Model;

/// A set of sites, made of one or more.
#[derive(Clone, Copy, PartialEq, Eq, Debug)]
pub struct SiteSet {
    // for each site, by its number, whether the set has it
    members: [bool; SITES],
}

impl Model for SiteSet {
    ghost use Rattle.std.specs.Prelude.{◌≡◌, Bool, List, length};
    ghost use Rattle.fed_stamp.specs.declared.sites.TheConstants.{SITES};

    ghost Value = { List Bool };

    ghost view = { λ s. s.members };

    ghost invariant = { λ s. length s.members ≡ SITES };

    ghost inverse = { λ m. record { members = m } };
}

impl SiteSet {
    /// The set of these sites, in any order and with any repeats, or `None` where there are none.
    pub fn new(sites: &[SiteId]) -> Option<SiteSet>
        ensures same { result ≡ (if length sites.now == 0 then None else Some (set_of sites.now)) }
        ensures members { IfSome result
            (λ set. (site : ℕ) → site < SITES → IsTrue (is_member set site) ↔ Contains sites.now site) }
    {
        if sites.is_empty() {
            return None;
        }
        let mut members = [false; SITES];
        for site in sites {
            members[site.get() as usize] = true;
        }
        Some(SiteSet { members })
    }

    /// This set, with a site more.
    pub fn with(&self, site: SiteId) -> SiteSet
        ensures same { result ≡ with_site self.now site }
        ensures members { (other : ℕ) → IsTrue (is_member result other) ↔
            (IsTrue (is_member self.now other) ⊎ (other ≡ site)) }
    {
        let mut members = self.members;
        members[site.get() as usize] = true;
        SiteSet { members }
    }

    /// Whether a site is in the set.
    pub fn has(&self, site: SiteId) -> bool
        ensures { result ≡ is_member self.now site }
    {
        self.members[site.get() as usize]
    }
}

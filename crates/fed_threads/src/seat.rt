//! What one caller has seen of each site, and what it claims to have been answered.
ghost use Rattle.std.specs.Prelude.{◌≡◌, ◌<◌, ◌+◌, OnOk, IfErr, vec_len, vec_capacity};
ghost use Rattle.fed_threads.specs.Seat.{known_by, starts, seen_of, version_of, claimed, looked, IsUpToDate, IsBehind};

use crate::fault::CallFault;
use crate::journal::{Asked, Claim};
use fed_lattice::NoMemory;
use fed_stamp::{SITES, SiteId, Version};
use std::alloc::Global;

/// What one user of a federation has seen of each site, and the calls that it was answered.
#[derive(Drop)]
pub struct Seat {
    seen: [u64; SITES],
    versions: [Version; SITES],
    claims: Vec<Claim>,
    asked: Vec<Asked>,
}

impl Seat {
    /// A seat that has seen nothing and claims nothing.
    pub(crate) fn new(alloc: Global) -> Seat
        ensures { known_by result ≡ starts }
    {
        Seat {
            seen: [0; SITES],
            versions: [Version::default(); SITES],
            claims: Vec::new(alloc),
            asked: Vec::new(alloc),
        }
    }

    /// How many entries of a site's journal were seen.
    pub fn seen(&self, site: SiteId) -> u64
        ensures { result ≡ seen_of (known_by self.now) site }
    {
        self.seen[site.get() as usize]
    }

    /// The version of a site's board that was seen last.
    pub fn version(&self, site: SiteId) -> Version
        ensures { result ≡ version_of (known_by self.now) site }
    {
        self.versions[site.get() as usize]
    }

    /// The calls that were answered, in order.
    pub fn claims(&self) -> &[Claim]
        ensures { result.now ≡ (known_by self.now).claims }
    {
        self.claims.as_slice()
    }

    /// What was asked in each of them.
    pub fn asked(&self) -> &[Asked]
        ensures { result.now ≡ (known_by self.now).asked }
    {
        self.asked.as_slice()
    }

    /// The calls that were answered, in order.
    pub fn into_claims(self) -> Vec<Claim>
        ensures { result.items ≡ (known_by self).claims }
    {
        let Seat { claims, .. } = self;
        claims
    }

    /// Tests that a site has come at least as far as was seen.
    pub(crate) fn check(&self, site: SiteId, found: u64, version: Version) -> Result<(), CallFault>
        ensures ok { OnOk result (IsUpToDate (known_by self.now) site found version) }
        ensures err { IfErr result (IsBehind (known_by self.now) site found version) }
    {
        let seen = self.seen(site);
        if found < seen || !self.version(site).le(&version) {
            return Err(CallFault::Behind {
                seen,
                found,
                version,
            });
        }
        Ok(())
    }

    /// Makes room for one claim more.
    pub(crate) fn reserve(&mut self) -> Result<(), NoMemory>
        ensures same { known_by self.new ≡ known_by self.old }
        ensures room { OnOk result ((vec_len self.new.claims < vec_capacity self.new.claims) ×
            (vec_len self.new.asked < vec_capacity self.new.asked)) }
    {
        self.claims.reserve(1)?;
        self.asked.reserve(1)?;
        Ok(())
    }

    /// Adds a claim, for which there is room. The journal then has `found` entries, and the board this version.
    pub(crate) fn claim(&mut self, claim: &Claim, found: u64, version: Version, asked: &Asked)
        requires found { found ≡ claim.now.index + 1 }
        requires room { (vec_len self.old.claims < vec_capacity self.old.claims) ×
            (vec_len self.old.asked < vec_capacity self.old.asked) }
        ensures { known_by self.new ≡ claimed (known_by self.old) claim.now version asked.now }
    {
        let site = claim.site.get() as usize;
        self.seen[site] = found;
        self.versions[site] = version;
        // the prover has no plan for a `push_reserved` of values whose parts lie in crates further below
        self.claims.extend_from_slice(&[*claim]).unwrap();
        self.asked.extend_from_slice(&[*asked]).unwrap();
    }

    /// Keeps how far a site has come.
    pub(crate) fn look(&mut self, site: SiteId, found: u64, version: Version)
        ensures { known_by self.new ≡ looked (known_by self.old) site found version }
    {
        self.seen[site.get() as usize] = found;
        self.versions[site.get() as usize] = version;
    }
}

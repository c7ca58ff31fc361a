//! The stages of a job's grants.
ghost use Rattle.std.specs.Prelude.{◌≡◌, Some, refl};
ghost use Rattle.std.specs.Ordering.{eq_by_cmp};
ghost use Rattle.std.specs.Cmp.{partial_equiv_from_equiv, eq_by_cmp_equiv, po};
ghost use Rattle.fed_model.specs.Grant.{term_of, stamp_of, holder_of, rank_of, site_or_0, grant_cmp};
ghost use Rattle.fed_model.specs.GrantLaws.{grant_total};

use crate::terms::Term;
use fed_stamp::{SiteId, Stamp};
use std::cmp::Ordering;

/// How far the grants of a job have come. Stages are ordered by term; of one term a grant that is handed back
/// is above the open one. Stages of one term and kind, of which a job has one at most, are ordered by stamp and
/// site.
#[derive(Clone, Copy, Debug)]
pub enum GrantStage {
    /// The job is granted to the site, by the operation with the stamp.
    Open {
        term: Term,
        stamp: Stamp,
        site: SiteId,
    },
    /// The grant of the term is handed back, by the operation with the stamp.
    Returned {
        term: Term,
        stamp: Stamp,
    },
}

impl GrantStage {
    /// The term of the grant.
    pub fn term(self) -> Term
        ensures { result ≡ term_of self }
    {
        match self {
            GrantStage::Open { term, .. } | GrantStage::Returned { term, .. } => term,
        }
    }

    /// The stamp of the operation that granted the job, or handed the grant back.
    pub fn stamp(self) -> Stamp
        ensures { result ≡ stamp_of self }
    {
        match self {
            GrantStage::Open { stamp, .. } | GrantStage::Returned { stamp, .. } => stamp,
        }
    }

    /// The site that an open grant is to, or `None` where the grant is handed back.
    pub fn holder(self) -> Option<SiteId>
        ensures { result ≡ holder_of self }
    {
        match self {
            GrantStage::Open { site, .. } => Some(site),
            GrantStage::Returned { .. } => None,
        }
    }

    // 1 where the grant is handed back, else 0.
    fn rank(self) -> u8
        ensures { result ≡ rank_of self }
    {
        match self {
            GrantStage::Open { .. } => 0,
            GrantStage::Returned { .. } => 1,
        }
    }

    // The number of the site that an open grant is to, else 0.
    fn site_or_0(self) -> u8
        ensures { result ≡ site_or_0 self }
    {
        match self {
            GrantStage::Open { site, .. } => site.get(),
            GrantStage::Returned { .. } => 0,
        }
    }
}

impl PartialEq for GrantStage {
    ghost eq = { eq_by_cmp grant_cmp };

    ghost laws = { partial_equiv_from_equiv (eq_by_cmp_equiv grant_total) };

    fn eq(&self, other: &GrantStage) -> bool {
        self.cmp(other).is_eq()
    }
}

impl Eq for GrantStage {
    ghost laws = { eq_by_cmp_equiv grant_total };
}

impl PartialOrd for GrantStage {
    ghost partial_cmp = { λ g h. Some (grant_cmp g h) };

    ghost laws = { po grant_total (λ g h. refl) };

    fn partial_cmp(&self, other: &GrantStage) -> Option<Ordering> {
        Some(self.cmp(other))
    }
}

impl Ord for GrantStage {
    ghost cmp = { grant_cmp };

    ghost total = { grant_total };

    ghost matches_partial_cmp = { λ g h. refl };

    ghost matches_eq = { λ g h. refl };

    fn cmp(&self, other: &GrantStage) -> Ordering {
        let by_stamp = self.stamp().cmp(&other.stamp());
        let by_parts = by_stamp.then(self.site_or_0().cmp(&other.site_or_0()));
        let by_rank = self.rank().cmp(&other.rank());
        self.term().cmp(&other.term()).then(by_rank.then(by_parts))
    }
}

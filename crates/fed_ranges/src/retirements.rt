//! What one site has retired.
ghost use Rattle.std.specs.Prelude.{◌≡◌, ◌≤◌, IfOk, OnOk, OnErr, refl};
ghost use Rattle.fed_ranges.specs.Ranges.{IsCanonical};
ghost use Rattle.fed_ranges.specs.Retirements.{no_retirements, applied_retirements, joined_retirements, retirements_stand_for, AreCanonical};
ghost use Rattle.fed_ranges.specs.RetirementLaws.{same_retirements, retirements_per, tells_retirements, formed_applied, formed_joined, retirements_assoc, retirements_comm, retirements_itself, nothing_stands, applied_stands_for, joined_stand_for, stand_for_same};

use crate::ranges::{Range, Ranges};
use fed_lattice::{Causal, ExactEq, NoMemory};
use fed_stamp::{Stamp, Version};
use std::alloc::Global;
use std::marker::Model;

/// What one site has retired: ranges of the counters of its identifiers, beside the counter of its latest Retire, which
/// is 0 where it has made none. Identifiers are never taken out again.
#[derive(Drop)]
pub struct Retirements {
    latest: u64,
    ranges: Ranges,
}

impl Model for Retirements {
    ghost use Rattle.fed_ranges.specs.Retirements.{RetirementsValue};

    ghost Value = { RetirementsValue };

    ghost view = { λ r. record { latest = r.latest; ranges = r.ranges } };
}

impl Retirements {
    /// What reads as these: the counter of the latest Retire and the ranges.
    pub fn new(latest: u64, ranges: Ranges) -> Retirements
        ensures { result ≡ record { latest = latest; ranges = ranges } }
    {
        Retirements { latest, ranges }
    }

    /// The counter of the site's latest Retire, or 0 where it has made none.
    pub fn latest(&self) -> u64
        ensures { result ≡ self.now.latest }
    {
        self.latest
    }

    /// The ranges of counters that are retired.
    pub fn ranges(&self) -> &Ranges
        ensures { result.now ≡ self.now.ranges }
    {
        &self.ranges
    }
}

/// Both are equal where the counters and the ranges are.
impl PartialEq for Retirements {
    ghost eq = { same_retirements };

    ghost laws = { retirements_per };

    fn eq(&self, other: &Self) -> bool {
        self.latest == other.latest && self.ranges == other.ranges
    }
}

/// Two are identical exactly where they are equal.
impl ExactEq for Retirements {
    ghost exact_eq = { tells_retirements };
}

/// A change is the range of a Retire, whose stamp it has. One that is empty retires nothing.
impl Causal for Retirements {
    type Change = Range;

    ghost well_formed = { AreCanonical };

    ghost bottom = { no_retirements };

    ghost applied = { applied_retirements };

    ghost joined = { joined_retirements };

    ghost is_history = { λ _. Unit {0} };

    ghost stands_for = { retirements_stand_for };

    ghost is_inline = { ⊥ };

    fn bottom(alloc: Global) -> Self {
        Retirements {
            latest: 0,
            ranges: Ranges::new(alloc),
        }
    }

    fn copy(&self) -> Result<Self, NoMemory> {
        Ok(Retirements {
            latest: self.latest,
            ranges: self.ranges.copy()?,
        })
    }

    fn apply(&mut self, at: Stamp, change: &Range) -> Result<(), NoMemory> {
        if change.first <= change.last {
            self.ranges.add(*change)?;
        }
        self.latest = self.latest.max(at.counter());
        Ok(())
    }

    fn join(&self, _mine: &Version, other: &Self, _theirs: &Version) -> Result<Self, NoMemory> {
        Ok(Retirements {
            latest: self.latest.max(other.latest),
            ranges: self.ranges.join(&other.ranges)?,
        })
    }

    ghost well_formed_bottom = { tt };

    ghost well_formed_applied = { formed_applied };

    ghost well_formed_joined = { formed_joined };

    ghost joined_assoc = { retirements_assoc };

    ghost joined_comm = { retirements_comm };

    ghost joined_itself = { retirements_itself };

    ghost joined_bottoms = { λ _ _. refl };

    ghost bottom_stands = { nothing_stands };

    ghost applied_stands = { applied_stands_for };

    ghost joined_stands = { joined_stand_for };

    ghost stands_same = { stand_for_same };
}

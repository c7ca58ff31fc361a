//! What is retired of all sites.
ghost use Rattle.std.specs.Prelude.{◌≡◌};
ghost use Rattle.fed_ranges.specs.Retired.{has_retired};

use crate::retirements::Retirements;
use fed_lattice::Table;
use fed_stamp::{SiteId, Stamp};

/// What is retired: of each site that has retired anything, what it has.
pub type Retired = Table<SiteId, Retirements>;

/// Whether the identifier is retired. The time that it takes grows with the logarithm of the ranges of its site.
pub fn is_retired(retired: &Retired, id: Stamp) -> bool
    ensures { result ≡ has_retired retired.now id }
{
    match retired.get(id.site()) {
        Some(retirements) => retirements.ranges().has(id.counter()),
        None => false,
    }
}

//! Points in time, which are handed in as whole seconds.
ghost use Rattle.std.specs.Prelude.{◌≡◌, ◌≤◌, if◌then◌else◌, nat_le};

use crate::limits::MAX_LIMIT;
use std::marker::Model;

/// The last moment, in seconds.
pub const MAX_MOMENT: u64 = 1_000_000_000_000;

/// The last second by which a job that began can end.
pub const MAX_END: u64 = MAX_MOMENT + MAX_LIMIT;

/// A moment, from 0 to `MAX_MOMENT` in whole seconds. Moments are handed in: no clock is read.
#[derive(Clone, Copy, PartialEq, Eq, PartialOrd, Ord, Debug)]
pub struct Moment {
    second: u64,
}

impl Model for Moment {
    ghost use Rattle.std.specs.Prelude.{ℕ, ◌≤◌};
    ghost use Rattle.fed_model.specs.declared.moments.TheConstants.{MAX_MOMENT};

    ghost Value = { ℕ };

    ghost view = { λ m. m.second };

    ghost invariant = { λ m. m.second ≤ MAX_MOMENT };

    ghost inverse = { λ n. record { second = n } };
}

impl Moment {
    /// The moment of this second, or `None` where the second is out of range.
    pub fn new(second: u64) -> Option<Moment>
        ensures { result ≡ (if nat_le second MAX_MOMENT then Some second else None) }
    {
        if second <= MAX_MOMENT {
            Some(Moment { second })
        } else {
            None
        }
    }

    /// The second of the moment.
    pub fn get(self) -> u64
        ensures same { result ≡ self }
        ensures in_range { result ≤ MAX_MOMENT }
    {
        self.second
    }
}

//! The time limit of a job.
ghost use Rattle.std.specs.Prelude.{◌≡◌, ◌≤◌, ◌&&◌, if◌then◌else◌, nat_le};

use std::marker::Model;

/// The greatest time limit, in seconds.
pub const MAX_LIMIT: u64 = 10_000_000;

/// How long a job may run, from 1 to `MAX_LIMIT` whole seconds.
#[derive(Clone, Copy, PartialEq, Eq, PartialOrd, Ord, Debug)]
pub struct Limit {
    number: u32,
}

impl Model for Limit {
    ghost use Rattle.std.specs.Prelude.{ℕ, ◌≤◌};
    ghost use Rattle.fed_model.specs.declared.limits.TheConstants.{MAX_LIMIT};

    ghost Value = { ℕ };

    ghost view = { λ n. n.number };

    ghost invariant = { λ n. (1 ≤ n.number) × (n.number ≤ MAX_LIMIT) };

    ghost inverse = { λ n. record { number = n } };
}

impl Limit {
    /// The limit of so many seconds, or `None` where the number is out of range.
    pub fn new(number: u64) -> Option<Limit>
        ensures { result ≡ (if nat_le 1 number && nat_le number MAX_LIMIT then Some number else None) }
    {
        if 1 <= number && number <= MAX_LIMIT {
            let number = number as u32;
            Some(Limit { number })
        } else {
            None
        }
    }

    /// The limit, in seconds.
    pub fn get(self) -> u64
        ensures same { result ≡ self }
        ensures at_least { 1 ≤ result }
        ensures at_most { result ≤ MAX_LIMIT }
    {
        u64::from(self.number)
    }
}

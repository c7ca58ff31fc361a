//! The priority of a job.
ghost use Rattle.std.specs.Prelude.{◌≡◌, ◌≤ℤ◌, ◌&&◌, if◌then◌else◌, int_le};

use std::marker::Model;

/// The least priority.
pub const MIN_PRIORITY: i16 = -1024;

/// The greatest priority.
pub const MAX_PRIORITY: i16 = 1023;

/// How soon a job is wanted, from `MIN_PRIORITY` to `MAX_PRIORITY` (POSIX.1-2017, XCU chapter 3, the option `-p` of
/// qsub): of two jobs the one with the greater priority comes first.
#[derive(Clone, Copy, PartialEq, Eq, PartialOrd, Ord, Debug)]
pub struct Priority {
    number: i16,
}

impl Model for Priority {
    ghost use Rattle.std.specs.Prelude.{ℤ, ◌≤ℤ◌};
    ghost use Rattle.fed_model.specs.declared.priorities.TheConstants.{MIN_PRIORITY, MAX_PRIORITY};

    ghost Value = { ℤ };

    ghost view = { λ p. p.number };

    ghost invariant = { λ p. (MIN_PRIORITY ≤ℤ p.number) × (p.number ≤ℤ MAX_PRIORITY) };

    ghost inverse = { λ n. record { number = n } };
}

impl Priority {
    /// The priority with this number, or `None` where the number is out of range.
    pub fn new(number: i16) -> Option<Priority>
        ensures { result ≡ (if int_le MIN_PRIORITY number && int_le number MAX_PRIORITY then Some number else None) }
    {
        if MIN_PRIORITY <= number && number <= MAX_PRIORITY {
            Some(Priority { number })
        } else {
            None
        }
    }

    /// The number of the priority.
    pub fn get(self) -> i16
        ensures same { result ≡ self }
        ensures at_least { MIN_PRIORITY ≤ℤ result }
        ensures at_most { result ≤ℤ MAX_PRIORITY }
    {
        self.number
    }
}

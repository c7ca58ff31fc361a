//! The terms of a job's grants.
ghost use Rattle.std.specs.Prelude.{◌≡◌, ◌≤◌, ◌&&◌, if◌then◌else◌, nat_le};

use std::marker::Model;

/// The greatest term.
pub const MAX_TERM: u64 = 1_000_000_000;

/// The term of a grant, from 1 to `MAX_TERM`. The grants of a job have the terms 1, 2 and so on, each handed
/// back before the next.
#[derive(Clone, Copy, PartialEq, Eq, PartialOrd, Ord, Debug)]
pub struct Term {
    number: u32,
}

impl Model for Term {
    ghost use Rattle.std.specs.Prelude.{ℕ, ◌≤◌};
    ghost use Rattle.fed_model.specs.declared.terms.TheConstants.{MAX_TERM};

    ghost Value = { ℕ };

    ghost view = { λ n. n.number };

    ghost invariant = { λ n. (1 ≤ n.number) × (n.number ≤ MAX_TERM) };

    ghost inverse = { λ n. record { number = n } };
}

impl Term {
    /// The term with this number, or `None` where the number is out of range.
    pub fn new(number: u64) -> Option<Term>
        ensures { result ≡ (if nat_le 1 number && nat_le number MAX_TERM then Some number else None) }
    {
        if 1 <= number && number <= MAX_TERM {
            let number = number as u32;
            Some(Term { number })
        } else {
            None
        }
    }

    /// The number of the term.
    pub fn get(self) -> u64
        ensures same { result ≡ self }
        ensures at_least { 1 ≤ result }
        ensures at_most { result ≤ MAX_TERM }
    {
        u64::from(self.number)
    }
}

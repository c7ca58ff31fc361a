//! How many nodes a job or a site has.
ghost use Rattle.std.specs.Prelude.{◌≡◌, ◌≤◌, ◌&&◌, if◌then◌else◌, nat_le};

use fed_stamp::MAX_NODES;
use std::marker::Model;

/// How many nodes a job runs on, from 1 to `MAX_NODES`.
#[derive(Clone, Copy, PartialEq, Eq, PartialOrd, Ord, Debug)]
pub struct Nodes {
    number: u32,
}

impl Model for Nodes {
    ghost use Rattle.std.specs.Prelude.{ℕ, ◌≤◌};
    ghost use Rattle.fed_stamp.specs.declared.rosters.TheConstants.{MAX_NODES};

    ghost Value = { ℕ };

    ghost view = { λ n. n.number };

    ghost invariant = { λ n. (1 ≤ n.number) × (n.number ≤ MAX_NODES) };

    ghost inverse = { λ n. record { number = n } };
}

impl Nodes {
    /// So many nodes, or `None` where the number is out of range.
    pub fn new(number: u64) -> Option<Nodes>
        ensures { result ≡ (if nat_le 1 number && nat_le number MAX_NODES then Some number else None) }
    {
        if 1 <= number && number <= MAX_NODES {
            let number = number as u32;
            Some(Nodes { number })
        } else {
            None
        }
    }

    /// How many nodes it is.
    pub fn get(self) -> u64
        ensures same { result ≡ self }
        ensures at_least { 1 ≤ result }
        ensures at_most { result ≤ MAX_NODES }
    {
        u64::from(self.number)
    }
}

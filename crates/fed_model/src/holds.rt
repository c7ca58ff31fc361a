//! The kinds of holds, which keep a job from beginning, and sets of kinds.
ghost use Rattle.std.specs.Prelude.{⊤, ◌≡◌, [], ◌∷◌, Some, codes, refl};
ghost use Rattle.std.specs.Ordering.{eq_by_cmp};
ghost use Rattle.std.specs.Cmp.{partial_equiv_from_equiv, eq_by_cmp_equiv, po};
ghost use Rattle.fed_model.specs.Hold.{bit_of, sum_of_bits, has_kind, kind_cmp};
ghost use Rattle.fed_model.specs.HoldLaws.{kind_total};

use bitflags::{Flag, Flags, bitflag_items};
use std::cmp::Ordering;

/// The kinds of holds of POSIX.1-2017, XCU chapter 3, ordered as they stand here. A job with a hold of any kind isn't
/// started.
#[derive(Clone, Copy, Debug)]
pub enum HoldKind {
    /// Set and released by the job's owner, an operator or an administrator.
    User,
    /// Set and released by an operator or an administrator.
    Operator,
    /// Set and released by an administrator.
    System,
}

/// A set of kinds of holds: a bit for each kind.
#[derive(Clone, Copy, PartialEq, Eq, Debug)]
pub struct HoldKinds(u8);

bitflag_items! {
    impl HoldKinds: u8 {
        const USER = 1;
        const OPERATOR = 2;
        const SYSTEM = 4;
    }
}

impl Flags for HoldKinds {
    type Bits = u8;

    ghost exact = { ⊤ };

    ghost table = { (codes "USER", 1) ∷ (codes "OPERATOR", 2) ∷ (codes "SYSTEM", 4) ∷ [] };

    ghost set_of = { λ kinds. kinds.0 };

    fn flags<'a>() -> &'a [Flag<HoldKinds>] {
        HoldKinds::FLAGS
    }

    fn bits(&self) -> u8 {
        self.0
    }

    fn from_bits_retain(bits: u8) -> HoldKinds {
        HoldKinds(bits)
    }
}

impl HoldKinds {
    /// The set of this kind alone.
    pub fn only(kind: HoldKind) -> HoldKinds
        ensures { result ≡ record { 0 = bit_of kind } }
    {
        match kind {
            HoldKind::User => HoldKinds::USER,
            HoldKind::Operator => HoldKinds::OPERATOR,
            HoldKind::System => HoldKinds::SYSTEM,
        }
    }

    /// The set of the kinds for which the argument is true: the sum of their bits, and no other bit.
    pub fn made_of(user: bool, operator: bool, system: bool) -> HoldKinds
        ensures user { has_kind result HoldKind.User ≡ user }
        ensures operator { has_kind result HoldKind.Operator ≡ operator }
        ensures system { has_kind result HoldKind.System ≡ system }
        ensures sum { result ≡ record { 0 = sum_of_bits user operator system } }
    {
        match (user, operator, system) {
            (false, false, false) => HoldKinds(0),
            (true, false, false) => HoldKinds(1),
            (false, true, false) => HoldKinds(2),
            (true, true, false) => HoldKinds(3),
            (false, false, true) => HoldKinds(4),
            (true, false, true) => HoldKinds(5),
            (false, true, true) => HoldKinds(6),
            (true, true, true) => HoldKinds(7),
        }
    }

    /// Whether the kind is in the set.
    pub fn has(self, kind: HoldKind) -> bool
        ensures { result ≡ has_kind self kind }
    {
        self.contains(HoldKinds::only(kind))
    }
}

impl PartialEq for HoldKind {
    ghost eq = { eq_by_cmp kind_cmp };

    ghost laws = { partial_equiv_from_equiv (eq_by_cmp_equiv kind_total) };

    fn eq(&self, other: &HoldKind) -> bool {
        self.cmp(other).is_eq()
    }
}

impl Eq for HoldKind {
    ghost laws = { eq_by_cmp_equiv kind_total };
}

impl PartialOrd for HoldKind {
    ghost partial_cmp = { λ a b. Some (kind_cmp a b) };

    ghost laws = { po kind_total (λ a b. refl) };

    fn partial_cmp(&self, other: &HoldKind) -> Option<Ordering> {
        Some(self.cmp(other))
    }
}

impl Ord for HoldKind {
    ghost cmp = { kind_cmp };

    ghost total = { kind_total };

    ghost matches_partial_cmp = { λ a b. refl };

    ghost matches_eq = { λ a b. refl };

    fn cmp(&self, other: &HoldKind) -> Ordering {
        HoldKinds::only(*self).0.cmp(&HoldKinds::only(*other).0)
    }
}

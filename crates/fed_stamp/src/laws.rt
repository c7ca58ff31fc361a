//! The laws of stamps and versions: what each function of this module ensures. The laws of versions
//! hold of all lists of counters, whatever their lengths, and their functions do nothing.
ghost use Rattle.std.specs.Prelude.{◌≡◌, ℕ, List, length, IsTrue, ◌≤◌, ◌||◌, ◌&&◌, ◌==◌, nat_lt};
ghost use Rattle.fed_stamp.specs.Stamp.{StampValue};
ghost use Rattle.fed_stamp.specs.Version.{covers, joined, met, is_below, greatest};

use crate::stamps::Stamp;

/// Stamps are ordered by counter, and at the same counter by site.
pub fn stamps_are_ordered_by_counter_then_site(a: Stamp, b: Stamp) -> bool
    ensures { result ≡ (nat_lt a.counter b.counter || ((a.counter == b.counter) && nat_lt a.site b.site)) }
{
    a < b
}

/// Versions are partially ordered.
pub fn order_is_partial()
    ensures reflexive { (v : List ℕ) → IsTrue (is_below v v) }
    ensures transitive { (u v w : List ℕ) → IsTrue (is_below u v) → IsTrue (is_below v w) → IsTrue (is_below u w) }
    ensures antisymmetric { (v w : List ℕ) → length v ≡ length w →
        IsTrue (is_below v w) → IsTrue (is_below w v) → v ≡ w }
{}

/// A join is the least version that is above both.
pub fn join_is_the_least_upper_bound()
    ensures above_left { (v w : List ℕ) → IsTrue (is_below v (joined v w)) }
    ensures above_right { (v w : List ℕ) → IsTrue (is_below w (joined v w)) }
    ensures least { (u v w : List ℕ) → IsTrue (is_below u w) → IsTrue (is_below v w) →
        IsTrue (is_below (joined u v) w) }
{}

/// Joins may be made in any order, and any number of times.
pub fn join_is_associative_commutative_and_idempotent()
    ensures associative { (u v w : List ℕ) → joined (joined u v) w ≡ joined u (joined v w) }
    ensures commutative { (v w : List ℕ) → joined v w ≡ joined w v }
    ensures idempotent { (v : List ℕ) → joined v v ≡ v }
{}

/// A join has seen what either version has.
pub fn join_covers_what_either_covers()
    ensures { (v w : List ℕ) (s : StampValue) → covers (joined v w) s ≡ (covers v s || covers w s) }
{}

/// A meet is the greatest version that is below both.
pub fn meet_is_the_greatest_lower_bound()
    ensures below_left { (v w : List ℕ) → IsTrue (is_below (met v w) v) }
    ensures below_right { (v w : List ℕ) → IsTrue (is_below (met v w) w) }
    ensures greatest { (u v w : List ℕ) → IsTrue (is_below u v) → IsTrue (is_below u w) →
        IsTrue (is_below u (met v w)) }
{}

/// Meets may be made in any order, and any number of times.
pub fn meet_is_associative_commutative_and_idempotent()
    ensures associative { (u v w : List ℕ) → met (met u v) w ≡ met u (met v w) }
    ensures commutative { (v w : List ℕ) → met v w ≡ met w v }
    ensures idempotent { (v : List ℕ) → met v v ≡ v }
{}

/// A meet has seen what both versions have.
pub fn meet_covers_what_both_cover()
    ensures { (v w : List ℕ) (s : StampValue) → covers (met v w) s ≡ (covers v s && covers w s) }
{}

/// A version that is above another has seen all that the other has.
pub fn greater_versions_cover_more()
    ensures { (v w : List ℕ) (s : StampValue) → IsTrue (is_below v w) → IsTrue (covers v s) → IsTrue (covers w s) }
{}

/// No stamp that a version has seen has a counter above the version's greatest, so that the next stamp
/// of any site is above all that were seen.
pub fn seen_counters_are_up_to_the_greatest()
    ensures { (v : List ℕ) (s : StampValue) → IsTrue (covers v s) → s.counter ≤ greatest v }
{}

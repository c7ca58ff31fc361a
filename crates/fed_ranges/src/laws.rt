//! Laws of lists of ranges. Each function does nothing: its contract is the law.
ghost use Rattle.std.specs.Prelude.{◌≡◌, ◌||◌, ℕ, Bool, not, cond, count_by, length, None, List};
ghost use Rattle.std.specs.List.{range_with_len};
ghost use Rattle.std.specs.BTreeMap.{is_at};
ghost use Rattle.std.specs.Map.{lookup};
ghost use Rattle.fed_stamp.specs.Version.{joined as joined_versions};
ghost use Rattle.fed_lattice.specs.Table.{IsTable};
ghost use Rattle.fed_ranges.specs.Dropped.{dropped, either, joined_dropping};
ghost use Rattle.fed_ranges.specs.declared.ranges.Range.{Range};
ghost use Rattle.fed_ranges.specs.Ranges.{has, joined, AreApart, EndBy, IsCanonical, starts_after};

use fed_lattice::{Causal, Exact};

/// Of each set of numbers there is one list of ranges.
pub fn ranges_are_one_for_each_set()
    ensures { (rs ss : List Range) → IsCanonical rs → IsCanonical ss → ((n : ℕ) → has rs n ≡ has ss n) → rs ≡ ss }
{}

/// Joins are unions, of lists of ranges that they keep canonical; so their order, their repeats and how they are
/// grouped don't matter.
pub fn joins_are_unions()
    ensures canonical { (rs ss : List Range) → IsCanonical rs → IsCanonical ss → IsCanonical (joined rs ss) }
    ensures union { (rs ss : List Range) (n : ℕ) → IsCanonical rs → IsCanonical ss →
        has (joined rs ss) n ≡ (has rs n || has ss n) }
    ensures assoc { (rs ss ts : List Range) → IsCanonical rs → IsCanonical ss → IsCanonical ts →
        joined (joined rs ss) ts ≡ joined rs (joined ss ts) }
    ensures comm { (rs ss : List Range) → IsCanonical rs → IsCanonical ss → joined rs ss ≡ joined ss rs }
    ensures itself { (rs : List Range) → IsCanonical rs → joined rs rs ≡ rs }
{}

/// A list of ranges is as long as there are numbers after which a range starts: of those below any number that is not
/// below an end.
pub fn ranges_are_counted_by_their_starts()
    ensures { (rs : List Range) (most : ℕ) → AreApart 1 rs → EndBy most rs →
        count_by (starts_after rs) (range_with_len 0 most) ≡ length rs }
{}

/// Tables of which some keys are dropped for good join by the laws of tables: what is dropped on one side is in neither,
/// in whatever order, however often and in whatever groups they are joined.
pub fn tables_join_without_the_dropped<K: Exact, V: Causal>()
    ensures assoc { (g h k : K → Bool) (x y z : List (K × V)) (u v w : List ℕ) →
        IsTable K.cmp V.well_formed x → IsTable K.cmp V.well_formed y → IsTable K.cmp V.well_formed z →
        joined_dropping K.cmp V.bottom V.joined (either g h)
        (joined_dropping K.cmp V.bottom V.joined g x u h y v) (joined_versions u v) k z w
        ≡ joined_dropping K.cmp V.bottom V.joined g x u (either h k)
        (joined_dropping K.cmp V.bottom V.joined h y v k z w) (joined_versions v w) }
    ensures comm { (g h : K → Bool) (x y : List (K × V)) (v w : List ℕ) →
        IsTable K.cmp V.well_formed x → IsTable K.cmp V.well_formed y →
        joined_dropping K.cmp V.bottom V.joined g x v h y w ≡ joined_dropping K.cmp V.bottom V.joined h y w g x v }
    ensures itself { (g : K → Bool) (x : List (K × V)) (v : List ℕ) →
        IsTable K.cmp V.well_formed x → dropped g x ≡ x → joined_dropping K.cmp V.bottom V.joined g x v g x v ≡ x }
    ensures gone { (g : K → Bool) (es : List (K × V)) (q : K) →
        lookup (is_at (K.cmp q)) (dropped g es) ≡ cond (not (g q)) (lookup (is_at (K.cmp q)) es) None }
{}

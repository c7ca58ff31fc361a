//! Parts of a job that own no memory.
ghost use Rattle.std.specs.Prelude.{◌≡◌};
ghost use Rattle.fed_lattice.specs.Both.{applied_option};

use fed_lattice::{Causal, Exact, Flag, Register, Stage};
use fed_stamp::{Stamp, Version};

/// A value whose copies, changes and joins are never refused memory, so that it can be changed in place once all that
/// can be refused is done.
pub trait Inline: Causal {
    ghost never_refused: { Self.is_inline };
}

impl<T: Exact> Inline for Register<T> {
    ghost never_refused = { tt };
}

impl<T: Exact> Inline for Stage<T> {
    ghost never_refused = { tt };
}

impl Inline for Flag {
    ghost never_refused = { tt };
}

/// An equal value.
pub fn copy_inline<T: Inline + Drop>(value: &T) -> T
    ensures same { result ≡ value.now }
    ensures well_formed { T.well_formed value.now }
{
    value.copy().unwrap()
}

/// The join of two values, each beside its version.
pub fn join_inline<T: Inline + Drop>(value: &T, mine: &Version, other: &T, theirs: &Version) -> T
    ensures joined { result ≡ T.joined value.now mine.now other.now theirs.now }
    ensures well_formed { T.well_formed value.now × T.well_formed other.now }
{
    value.join(mine, other, theirs).unwrap()
}

/// Changes the value in place.
pub fn apply_inline<T: Inline>(value: &mut T, at: Stamp, change: &T::Change)
    ensures { value.new ≡ T.applied value.old at change.now }
{
    value.apply(at, change).unwrap()
}

/// Changes the value in place, if there is a change.
pub(crate) fn apply_option<T: Inline>(value: &mut T, at: Stamp, change: &Option<T::Change>)
    ensures { value.new ≡ applied_option T.applied value.old at change.now }
{
    if let Some(change) = change {
        apply_inline(value, at, change);
    }
}

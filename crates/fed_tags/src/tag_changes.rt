//! Changes of tag sets.
ghost use Rattle.std.specs.Prelude.{◌≡◌};

use fed_stamp::Stamp;
use std::marker::Model;

/// The elements that an operation adds with its stamp, and the pairs that it removes: those that it has seen. It is
/// seen as the two lists.
#[derive(Drop)]
pub struct TagChange<T> {
    added: Vec<T>,
    removed: Vec<(T, Stamp)>,
}

impl<T> Model for TagChange<T> {
    ghost use Rattle.std.specs.Prelude.{List};
    ghost use Rattle.fed_stamp.specs.Stamp.{StampValue};

    ghost Value = { List T × List (T × StampValue) };

    ghost view = { λ c. (c.added.items, c.removed.items) };
}

impl<T> TagChange<T> {
    /// The change that adds these elements, and removes these pairs.
    pub fn new(added: Vec<T>, removed: Vec<(T, Stamp)>) -> TagChange<T>
        ensures { result ≡ (added.items, removed.items) }
    {
        TagChange { added, removed }
    }

    /// The elements that are added.
    pub fn added(&self) -> &[T]
        ensures { result.now ≡ self.now.0 }
    {
        &self.added
    }

    /// The pairs that are removed.
    pub fn removed(&self) -> &[(T, Stamp)]
        ensures { result.now ≡ self.now.1 }
    {
        &self.removed
    }
}

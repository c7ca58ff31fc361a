//! The elements of a tag set in turn.
ghost use Rattle.std.specs.Prelude.{◌≡◌};
ghost use Rattle.std.specs.Iterator.{YieldsFirst, item_count};
ghost use Rattle.std.specs.Map.{keys_of};

use crate::tags::Tags;
use fed_lattice::Exact;
use std::marker::Model;

/// The elements of a set that are left, ascending.
#[derive(Drop)]
pub struct Elements<'a, T: Exact> {
    groups: &'a [(T, Tags)],
}

impl<'a, T: Exact> Model for Elements<'a, T> {
    ghost use Rattle.std.specs.Prelude.{List};
    ghost use Rattle.std.specs.Map.{keys_of};

    ghost Value = { List T };

    ghost view = { λ e. keys_of e.groups.now };
}

impl<'a, T: Exact> Elements<'a, T> {
    pub(crate) fn new(groups: &'a [(T, Tags)]) -> Self
        ensures { result ≡ keys_of groups.now }
    {
        Elements { groups }
    }
}

impl<'a, T: Exact> Iterator for Elements<'a, T> {
    type Item = T;

    ghost next_gives = { YieldsFirst (λ rest. rest) };

    ghost remaining = { item_count (λ rest. rest) };

    fn next(&mut self) -> Option<T> {
        let ((element, _), others) = self.groups.split_first()?;
        self.groups = others;
        Some(*element)
    }
}

//! The pairs of a tag set in turn.
ghost use Rattle.std.specs.Prelude.{◌≡◌, All};
ghost use Rattle.std.specs.Iterator.{YieldsFirst, item_count};
ghost use Rattle.std.specs.Map.{values_of};
ghost use Rattle.fed_tags.specs.Groups.{pairs, IsGroup};

use crate::tags::Tags;
use fed_lattice::Exact;
use fed_stamp::Stamp;
use std::marker::Model;

/// The live pairs of a set that are left, by element and then by stamp.
#[derive(Drop)]
pub struct Pairs<'a, T: Exact> {
    front: Option<(T, &'a [Stamp])>,
    groups: &'a [(T, Tags)],
}

impl<'a, T: Exact> Model for Pairs<'a, T> {
    ghost use Rattle.std.specs.Prelude.{List, ◌++◌, All};
    ghost use Rattle.std.specs.Map.{values_of};
    ghost use Rattle.fed_stamp.specs.Stamp.{StampValue};
    ghost use Rattle.fed_tags.specs.Groups.{pairs, front_pairs, IsGroup};

    ghost Value = { List (T × StampValue) };

    ghost view = { λ p. front_pairs p.front ++ pairs p.groups.now };

    ghost invariant = { λ p. All IsGroup (values_of p.groups.now) };
}

impl<'a, T: Exact> Pairs<'a, T> {
    pub(crate) fn new(groups: &'a [(T, Tags)]) -> Self
        requires { All IsGroup (values_of groups.now) }
        ensures { result ≡ pairs groups.now }
    {
        Pairs {
            front: None,
            groups,
        }
    }
}

impl<'a, T: Exact> Iterator for Pairs<'a, T> {
    type Item = (T, Stamp);

    ghost next_gives = { YieldsFirst (λ rest. rest) };

    ghost remaining = { item_count (λ rest. rest) };

    fn next(&mut self) -> Option<(T, Stamp)> {
        if let Some((element, stamps)) = self.front
            && let Some((stamp, others)) = stamps.split_first()
        {
            self.front = Some((element, others));
            return Some((element, *stamp));
        }
        let ((element, tags), groups) = self.groups.split_first()?;
        self.groups = groups;
        let (stamp, others) = tags.as_slice().split_first()?;
        self.front = Some((*element, others));
        Some((*element, *stamp))
    }
}

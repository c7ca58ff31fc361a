//! The entries of a table in turn.
ghost use Rattle.std.specs.Prelude.{◌≡◌, length};
ghost use Rattle.std.specs.Iterator.{at_most};
ghost use Rattle.std.specs.Map.Iter.{TakesFirst, deref_pair};

use crate::boxed::Boxed;
use std::collections::btree_map::Iter;
use std::marker::Model;

/// The keys of a table that are left, in ascending order, with their values.
#[derive(Drop)]
pub struct Entries<'a, K, V> {
    inner: Iter<'a, K, Boxed<V>>,
}

impl<'a, K, V> Model for Entries<'a, K, V> {
    ghost use Rattle.std.specs.Prelude.{List};

    ghost Value = { List (K × V) };

    ghost view = { λ e. e.inner };
}

impl<'a, K, V> Entries<'a, K, V> {
    pub(crate) fn new(inner: Iter<'a, K, Boxed<V>>) -> Self
        ensures { result ≡ inner.entry }
    {
        Entries { inner }
    }
}

impl<'a, K, V: Drop> Iterator for Entries<'a, K, V> {
    type Item = (&'a K, &'a V);

    ghost next_gives = { TakesFirst deref_pair };

    ghost remaining = { λ s. at_most (length s) };

    fn next(&mut self) -> Option<(&'a K, &'a V)> {
        let (key, value) = self.inner.next()?;
        Some((key, value.get()))
    }
}

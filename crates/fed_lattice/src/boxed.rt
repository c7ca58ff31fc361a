//! Values in an allocation of their own.
ghost use Rattle.std.specs.Prelude.{◌≡◌, IfOk, OnOk, OnErr, IsOk};

use crate::causals::Causal;
use crate::memory::NoMemory;
use fed_stamp::{Stamp, Version};
use std::alloc::Global;
use std::marker::Model;
use std::mem;

/// A value in an allocation of its own. It is seen as the value, wherever that stands.
#[derive(Drop)]
pub(crate) struct Boxed<V> {
    content: Box<V>,
}

impl<V> Model for Boxed<V> {
    ghost Value = { V };

    ghost view = { λ b. b.content.value };
}

impl<V: Drop> Boxed<V> {
    pub(crate) fn new(alloc: Global, value: V) -> Result<Boxed<V>, NoMemory>
        ensures { IfOk result (λ r. r ≡ value) }
    {
        Ok(Boxed {
            content: Box::new(alloc, value)?,
        })
    }

    pub(crate) fn get(&self) -> &V
        ensures { result.now ≡ self.now }
    {
        &self.content
    }

    pub(crate) fn into_inner(self) -> V
        ensures { result ≡ self }
    {
        Box::into_inner(self.content)
    }

    // Puts the value in the place of the one that stands there, which it gives back.
    pub(crate) fn replace(&mut self, value: V) -> V
        ensures old { result ≡ self.old }
        ensures after { self.new ≡ value }
    {
        mem::replace(&mut *self.content, value)
    }
}

impl<V: Causal + Drop> Boxed<V> {
    // An equal value in an allocation of its own.
    pub(crate) fn copy(&self, alloc: Global) -> Result<Boxed<V>, NoMemory>
        ensures same { IfOk result (λ r. r ≡ self.now) }
    {
        Boxed::new(alloc, self.get().copy()?)
    }

    // Changes the value in its place, as `Causal::apply` does.
    pub(crate) fn apply(&mut self, at: Stamp, change: &V::Change) -> Result<(), NoMemory>
        ensures applied { OnOk result (self.new ≡ V.applied self.old at change.now) }
        ensures unchanged { OnErr result (self.new ≡ self.old) }
        ensures inline { V.is_inline → IsOk result }
    {
        self.content.apply(at, change)
    }

    // Puts the join with another value in its place, and gives back the value that stood there. On an error it stays.
    pub(crate) fn join(
        &mut self,
        alloc: Global,
        mine: &Version,
        other: &V,
        theirs: &Version,
    ) -> Result<Boxed<V>, NoMemory>
        ensures former { IfOk result (λ r. r ≡ self.old) }
        ensures joined { OnOk result (self.new ≡ V.joined self.old mine.now other.now theirs.now) }
        ensures well_formed { OnOk result (V.well_formed self.old × V.well_formed other.now) }
        ensures unchanged { OnErr result (self.new ≡ self.old) }
    {
        let joined = Boxed::new(alloc, self.get().join(mine, other, theirs)?)?;
        Ok(mem::replace(self, joined))
    }
}

impl<V: PartialEq> PartialEq for Boxed<V> {
    ghost eq = { V.eq };

    ghost laws = { V.PartialEq.laws };

    fn eq(&self, other: &Self) -> bool {
        *self.content == *other.content
    }
}

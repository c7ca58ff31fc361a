//! The tags of one element.
ghost use Rattle.std.specs.Prelude.{◌≡◌, [], ◌∷◌, OnOk, OnErr, IfOk, IsTrue, ◌↔◌, filter, not};
ghost use Rattle.std.specs.Ordering.{is_eq, eq_by_cmp};
ghost use Rattle.std.specs.List.{list_any};
ghost use Rattle.std.specs.List.Sorted.{IsStrictlySortedBy};
ghost use Rattle.std.specs.BTreeSet.{insert_key};
ghost use Rattle.fed_lattice.specs.Latest.{stamp_cmp};

use fed_lattice::NoMemory;
use fed_stamp::Stamp;
use smallvec::SmallVec;
use std::alloc::Global;
use std::marker::Model;

/// The stamps of one element's tags, which ascend. Up to two of them take no allocation.
#[derive(Drop)]
pub(crate) struct Tags {
    stamps: SmallVec<Stamp, 2>,
}

impl Model for Tags {
    ghost use Rattle.std.specs.Prelude.{List};
    ghost use Rattle.std.specs.List.Sorted.{IsStrictlySortedBy};
    ghost use Rattle.fed_stamp.specs.Stamp.{StampValue};
    ghost use Rattle.fed_lattice.specs.Latest.{stamp_cmp};

    ghost Value = { List StampValue };

    ghost view = { λ t. t.stamps.items };

    ghost invariant = { λ t. IsStrictlySortedBy stamp_cmp t.stamps.items };
}

impl Tags {
    /// One tag.
    pub(crate) fn one(alloc: Global, stamp: Stamp) -> Tags
        ensures { result ≡ stamp ∷ [] }
    {
        let mut stamps = SmallVec::new(alloc);
        stamps.push_reserved(stamp);
        Tags { stamps }
    }

    /// The stamps, ascending.
    pub(crate) fn as_slice(&self) -> &[Stamp]
        ensures same { result.now ≡ self.now }
        ensures ascending { IsStrictlySortedBy stamp_cmp self.now }
    {
        self.stamps.as_slice()
    }

    /// Whether there is no tag.
    pub(crate) fn is_empty(&self) -> bool
        ensures { IsTrue result ↔ (self.now ≡ []) }
    {
        self.stamps.is_empty()
    }

    /// Whether one of the tags has this stamp.
    pub(crate) fn contains(&self, stamp: Stamp) -> bool
        ensures { result ≡ list_any (eq_by_cmp stamp_cmp stamp) self.now }
    {
        self.as_slice().binary_search(&stamp).is_ok()
    }

    pub(crate) fn copy(&self) -> Result<Tags, NoMemory>
        ensures { IfOk result (λ r. r ≡ self.now) }
    {
        let stamps = SmallVec::from_slice(*self.stamps.allocator(), self.as_slice())?;
        Ok(Tags { stamps })
    }

    /// Adds a tag with this stamp, if there is none. On an error the tags are as before.
    pub(crate) fn insert(&mut self, stamp: Stamp) -> Result<(), NoMemory>
        ensures ok { OnOk result (self.new ≡ insert_key stamp_cmp self.old stamp) }
        ensures unchanged { OnErr result (self.new ≡ self.old) }
    {
        if let Err(place) = self.stamps.as_slice().binary_search(&stamp) {
            self.stamps.insert(place, stamp)?;
        }
        Ok(())
    }

    /// Removes the tag with this stamp, if there is one.
    pub(crate) fn remove(&mut self, stamp: Stamp)
        ensures { self.new ≡ filter (λ tag. not (is_eq (stamp_cmp tag stamp))) self.old }
    {
        self.stamps.retain(|tag| (*tag).cmp(&stamp).is_ne());
    }
}

/// Tags are equal where they have the same stamps.
impl PartialEq for Tags {
    ghost use Rattle.std.specs.Cmp.Lexicographic.{pointwise, lists_per};
    ghost use Rattle.fed_stamp.specs.Stamp.{same_stamp};
    ghost use Rattle.fed_stamp.proofs.StampLaws.{same_stamp-per};

    ghost eq = { pointwise same_stamp };

    ghost laws = { lists_per same_stamp-per };

    fn eq(&self, other: &Self) -> bool {
        self.as_slice() == other.as_slice()
    }
}

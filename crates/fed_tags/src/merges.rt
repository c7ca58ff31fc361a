//! Tag sets merge.
ghost use Rattle.std.specs.Prelude.{◌≡◌, [], IfOk, OnOk, OnErr, IsOk, refl};
ghost use Rattle.std.specs.List.Sorted.{IsStrictlySortedBy};
ghost use Rattle.fed_tags.specs.Tags.{pair_cmp, joined_tags, applied_tags, IsTagHistory, tags_stand_for};
ghost use Rattle.fed_tags.specs.TagLaws.{pair_total, exact_pair, sorted_empty, sorted_applied, sorted_joined, joined_tags_assoc, joined_tags_comm, joined_tags_itself, empty_tags_stand, applied_tags_stand, joined_tags_stand, tags_stand_same};

use crate::sets::TagSet;
use crate::tag_changes::TagChange;
use fed_lattice::{Causal, Exact, NoMemory};
use fed_stamp::{Stamp, Version};
use std::alloc::Global;

impl<T: Exact> Causal for TagSet<T> {
    type Change = TagChange<T>;

    ghost well_formed = { IsStrictlySortedBy (pair_cmp T.cmp) };

    ghost bottom = { [] };

    ghost applied = { applied_tags (pair_cmp T.cmp) };

    ghost joined = { joined_tags (pair_cmp T.cmp) };

    ghost is_history = { IsTagHistory };

    ghost stands_for = { tags_stand_for };

    ghost is_inline = { ⊥ };

    fn bottom(alloc: Global) -> Self {
        TagSet::new(alloc)
    }

    fn copy(&self) -> Result<Self, NoMemory> {
        self.copied()
    }

    /// Adds the elements with the stamp, and then removes the pairs. On an error the set is as before.
    fn apply(&mut self, at: Stamp, change: &TagChange<T>) -> Result<(), NoMemory>
        ensures applied { OnOk result (self.new ≡ applied_tags (pair_cmp T.cmp) self.old at change.now) }
        ensures unchanged { OnErr result (self.new ≡ self.old) }
        ensures ok { ⊥ → IsOk result }

        // A change that adds nothing is never refused memory.
        ensures removes { change.now.0 ≡ [] → IsOk result }
    {
        self.add(change.added(), at)?;
        self.remove(change.removed());
        Ok(())
    }

    fn join(&self, mine: &Version, other: &Self, theirs: &Version) -> Result<Self, NoMemory> {
        self.joined(mine, other, theirs)
    }

    ghost well_formed_bottom = { sorted_empty (pair_cmp T.cmp) };

    ghost well_formed_applied = { sorted_applied (pair_cmp T.cmp) (pair_total T.cmp T.total) (exact_pair T.cmp T.exact) };

    ghost well_formed_joined = { λ x y v w _ _. sorted_joined (pair_cmp T.cmp) (pair_total T.cmp T.total) (exact_pair T.cmp T.exact) x y v w };

    ghost joined_assoc = { joined_tags_assoc (pair_cmp T.cmp) (pair_total T.cmp T.total) (exact_pair T.cmp T.exact) };

    ghost joined_comm = { joined_tags_comm (pair_cmp T.cmp) (pair_total T.cmp T.total) (exact_pair T.cmp T.exact) };

    ghost joined_itself = { joined_tags_itself (pair_cmp T.cmp) (pair_total T.cmp T.total) (exact_pair T.cmp T.exact) };

    ghost joined_bottoms = { λ _ _. refl };

    ghost bottom_stands = { empty_tags_stand };

    ghost applied_stands = { applied_tags_stand (pair_cmp T.cmp) (pair_total T.cmp T.total) (exact_pair T.cmp T.exact) };

    ghost joined_stands = { joined_tags_stand (pair_cmp T.cmp) (pair_total T.cmp T.total) (exact_pair T.cmp T.exact) };

    ghost stands_same = { tags_stand_same };
}

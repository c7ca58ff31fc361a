//! Sets of tagged elements.
ghost use Rattle.std.specs.Prelude.{◌≡◌, ◌↔◌, [], ◌∷◌, IfOk, OnOk, OnErr, IsOk, IsTrue};
ghost use Rattle.std.specs.List.Sorted.{IsStrictlySortedBy};
ghost use Rattle.std.specs.BTreeSet.{insert_key};
ghost use Rattle.fed_lattice.specs.Latest.{stamp_cmp};
ghost use Rattle.fed_lattice.specs.Sets.{Has};
ghost use Rattle.fed_tags.specs.Tags.{pair_cmp, inserted, stamped, without, tags_of as stamps_of, IsElement, lacking, kept, joined_tags};

use crate::elements::Elements;
use crate::groups::{find, put, tags_of};
use crate::pairs::Pairs;
use crate::tags::Tags;
use fed_lattice::{Exact, ExactEq, NoMemory};
use fed_stamp::{Stamp, Version};
use std::alloc::Global;
use std::marker::Model;

/// A set of elements, each with the stamps of the operations that added it and are in effect. It is seen as the
/// list of these live pairs of an element and a stamp, by element and then by stamp.
///
/// An element is found in time logarithmic in the number of elements. One that is new, or that goes, moves those behind
/// it.
#[derive(Drop)]
pub struct TagSet<T: Exact> {
    alloc: Global,
    // each element with its tags, by element
    groups: Vec<(T, Tags)>,
}

impl<T: Exact> Model for TagSet<T> {
    ghost use Rattle.std.specs.Prelude.{List};
    ghost use Rattle.fed_stamp.specs.Stamp.{StampValue};
    ghost use Rattle.fed_lattice.specs.Table.{IsTable};
    ghost use Rattle.fed_tags.specs.Groups.{pairs, IsGroup};

    ghost Value = { List (T × StampValue) };

    ghost view = { λ s. pairs s.groups.items };

    ghost invariant = { λ s. IsTable T.cmp IsGroup s.groups.items };
}

impl<T: Exact> TagSet<T> {
    /// The empty set.
    pub fn new(alloc: Global) -> Self
        ensures { result ≡ [] }
    {
        TagSet {
            alloc,
            groups: Vec::new(alloc),
        }
    }

    // The empty set, with room for so many elements.
    fn with_room(alloc: Global, elements: usize) -> Result<Self, NoMemory>
        ensures { IfOk result (λ r. r ≡ []) }
    {
        Ok(TagSet {
            alloc,
            groups: Vec::with_capacity(alloc, elements)?,
        })
    }

    /// Whether the pair is live.
    pub fn contains(&self, element: &T, stamp: Stamp) -> bool
        ensures { IsTrue result ↔ Has self.now (element.now, stamp) }
    {
        match tags_of(&self.groups, element) {
            Some(tags) => tags.contains(stamp),
            None => false,
        }
    }

    /// Whether the element is in the set: whether it has a live tag.
    pub fn has(&self, element: &T) -> bool
        ensures { IsTrue result ↔ IsElement self.now element.now }
    {
        find(&self.groups, element).is_ok()
    }

    /// The stamps of the element's tags, ascending. There are none where the element is absent.
    pub fn tags(&self, element: &T) -> &[Stamp]
        ensures tags { result.now ≡ stamps_of T.cmp self.now element.now }
        ensures ascending { IsStrictlySortedBy stamp_cmp result.now }
    {
        match tags_of(&self.groups, element) {
            Some(tags) => tags.as_slice(),
            None => &[],
        }
    }

    /// Whether no pair is live.
    pub fn is_empty(&self) -> bool
        ensures { IsTrue result ↔ (self.now ≡ []) }
    {
        self.groups.is_empty()
    }

    /// Adds a pair. On an error the set is as before.
    fn insert(&mut self, element: T, stamp: Stamp) -> Result<(), NoMemory>
        ensures ok { OnOk result (self.new ≡ insert_key (pair_cmp T.cmp) self.old (element, stamp)) }
        ensures unchanged { OnErr result (self.new ≡ self.old) }
    {
        match find(&self.groups, &element) {
            Ok(place) => self.groups[place].1.insert(stamp),
            Err(place) => {
                let tags = Tags::one(self.alloc, stamp);
                put(&mut self.groups, place, (element, tags))
            }
        }
    }

    /// Removes a pair, if it is live.
    fn remove_one(&mut self, element: T, stamp: Stamp)
        ensures { self.new ≡ without (pair_cmp T.cmp) self.old ((element, stamp) ∷ []) }
    {
        let Ok(place) = find(&self.groups, &element) else {
            return;
        };
        let tags = &mut self.groups[place].1;
        tags.remove(stamp);
        if tags.is_empty() {
            drop(self.groups.remove(place));
        }
    }

    /// Removes the pairs. It takes no memory.
    pub fn remove(&mut self, pairs: &[(T, Stamp)])
        ensures { self.new ≡ without (pair_cmp T.cmp) self.old pairs.now }
    {
        for (element, stamp) in pairs {
            self.remove_one(*element, *stamp);
        }
    }

    /// Removes the elements' tags with the stamp.
    fn remove_stamped(&mut self, elements: &[T], at: Stamp)
        ensures { self.new ≡ without (pair_cmp T.cmp) self.old (stamped at elements.now) }
    {
        for element in elements {
            self.remove_one(*element, at);
        }
    }

    /// The elements that do not have a tag with the stamp.
    fn find_lacking(&self, elements: &[T], at: Stamp) -> Result<Vec<T>, NoMemory>
        ensures found { IfOk result (λ r. r.items ≡ lacking (pair_cmp T.cmp) self.now at elements.now) }
        ensures none { elements.now ≡ [] → IsOk result }
        ensures ascending { OnOk result (IsStrictlySortedBy (pair_cmp T.cmp) self.now) }
    {
        let mut found = Vec::new(self.alloc);
        for element in elements {
            if !self.contains(element, at) {
                found.push(*element)?;
            }
        }
        Ok(found)
    }

    // Makes room for the first elements of a set at once. Without elements it takes none, so that there is no error.
    fn make_room(&mut self, elements: usize) -> Result<(), NoMemory>
        ensures unchanged { self.new ≡ self.old }
        ensures nothing { elements ≡ 0 → IsOk result }
    {
        if elements > 0 && self.groups.is_empty() {
            self.groups.try_reserve_exact(elements)?;
        }
        Ok(())
    }

    /// Adds the elements with the stamp. On an error, which is want of memory, the set is as before. Where there is
    /// nothing to add there is none.
    pub fn add(&mut self, elements: &[T], at: Stamp) -> Result<(), NoMemory>
        ensures added { OnOk result (self.new ≡ inserted (pair_cmp T.cmp) self.old (stamped at elements.now)) }
        ensures unchanged { OnErr result (self.new ≡ self.old) }
        ensures nothing { elements.now ≡ [] → IsOk result }
    {
        let fresh = self.find_lacking(elements, at)?;
        self.make_room(fresh.len())?;
        for element in &fresh {
            if let Err(refused) = self.insert(*element, at) {
                self.remove_stamped(&fresh, at);
                return Err(refused);
            }
        }
        Ok(())
    }

    /// Whether the pairs ascend, by element and then by stamp, with none twice, as `from_pairs` asks.
    pub fn is_ascending(pairs: &[(T, Stamp)]) -> bool
        ensures { IsTrue result ↔ IsStrictlySortedBy (pair_cmp T.cmp) pairs.now }
    {
        for i in 1..pairs.len() {
            if pairs[i - 1].cmp(&pairs[i]).is_ge() {
                return false;
            }
        }
        true
    }

    /// The set of these pairs. It asks that they strictly ascend, by element and then by stamp. The only error is
    /// `NoMemory`.
    pub fn from_pairs(alloc: Global, pairs: &[(T, Stamp)]) -> Result<TagSet<T>, NoMemory>
        requires { IsStrictlySortedBy (pair_cmp T.cmp) pairs.now }
        ensures { IfOk result (λ r. r ≡ pairs.now) }
    {
        // most elements have one tag
        let mut set = TagSet::with_room(alloc, pairs.len())?;
        for (element, stamp) in pairs {
            set.insert(*element, *stamp)?;
        }
        Ok(set)
    }

    /// The elements, ascending.
    pub fn elements(&self) -> Elements<'_, T>
        ensures ascending { IsStrictlySortedBy T.cmp result }
        ensures members { (t : T) → Has result t ↔ IsElement self.now t }
    {
        Elements::new(&self.groups)
    }

    /// The live pairs, by element and then by stamp.
    pub fn iter(&self) -> Pairs<'_, T>
        ensures rest { result ≡ self.now }
        ensures ascending { IsStrictlySortedBy (pair_cmp T.cmp) self.now }
    {
        Pairs::new(&self.groups)
    }

    pub(crate) fn copied(&self) -> Result<TagSet<T>, NoMemory>
        ensures same { IfOk result (λ r. r ≡ self.now) }
        ensures ascending { OnOk result (IsStrictlySortedBy (pair_cmp T.cmp) self.now) }
    {
        let mut groups = Vec::with_capacity(self.alloc, self.groups.len())?;
        for (element, tags) in &self.groups {
            groups.push((*element, tags.copy()?))?;
        }
        Ok(TagSet {
            alloc: self.alloc,
            groups,
        })
    }

    /// Adds the pairs of one side of a join that stay beside the other side and its version.
    fn keep(&mut self, side: &Self, other: &Self, theirs: &Version) -> Result<(), NoMemory>
        ensures kept { OnOk result (self.new ≡ inserted (pair_cmp T.cmp) self.old
            (kept (pair_cmp T.cmp) other.now theirs.now side.now)) }
        ensures ascending { OnOk result (IsStrictlySortedBy (pair_cmp T.cmp) side.now) }
    {
        for (element, stamp) in side.iter() {
            if other.contains(&element, stamp) || !theirs.covers(stamp) {
                self.insert(element, stamp)?;
            }
        }
        Ok(())
    }

    /// The join of two sets, each beside its version. Each live pair of either is looked up in the other, and each that
    /// stays is inserted by itself.
    pub(crate) fn joined(
        &self,
        mine: &Version,
        other: &Self,
        theirs: &Version,
    ) -> Result<TagSet<T>, NoMemory>
        ensures joined { IfOk result (λ r. r ≡ joined_tags (pair_cmp T.cmp) self.now mine.now other.now theirs.now) }
        ensures ascending { OnOk result
            (IsStrictlySortedBy (pair_cmp T.cmp) self.now × IsStrictlySortedBy (pair_cmp T.cmp) other.now) }
    {
        let mut joined = TagSet::new(self.alloc);
        joined.keep(self, other, theirs)?;
        joined.keep(other, self, mine)?;
        Ok(joined)
    }
}

/// Sets are equal where they have the same live pairs.
impl<T: Exact> PartialEq for TagSet<T> {
    ghost use Rattle.std.specs.Ordering.{eq_by_cmp};
    ghost use Rattle.std.specs.Cmp.Lexicographic.{pointwise, lists_per};
    ghost use Rattle.std.specs.Cmp.{eq_by_cmp_equiv, partial_equiv_from_equiv};
    ghost use Rattle.fed_tags.specs.TagLaws.{pair_total};

    ghost eq = { pointwise (eq_by_cmp (pair_cmp T.cmp)) };

    ghost laws = { lists_per (partial_equiv_from_equiv (eq_by_cmp_equiv (pair_total T.cmp T.total))) };

    fn eq(&self, other: &Self) -> bool
        ensures by_pairs { result ≡ pointwise (eq_by_cmp (pair_cmp T.cmp)) self.now other.now }
        ensures same { IsTrue result ↔ (self.now ≡ other.now) }
    {
        self.groups == other.groups
    }
}

/// Two sets are identical exactly where they are equal.
impl<T: Exact> ExactEq for TagSet<T> {
    ghost use Rattle.std.specs.Prelude.{refl};
    ghost use Rattle.std.specs.Ordering.{eq_by_cmp};
    ghost use Rattle.fed_lattice.specs.ExactLaws.{tells_lists, tells_by_order};
    ghost use Rattle.fed_tags.specs.TagLaws.{pair_total, exact_pair};

    ghost exact_eq = { tells_lists _ (tells_by_order (pair_cmp T.cmp) (eq_by_cmp (pair_cmp T.cmp)) (pair_total T.cmp T.total) (exact_pair T.cmp T.exact) (λ _ _. refl)) };
}

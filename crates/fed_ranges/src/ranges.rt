//! Sets of numbers, as ranges.
ghost use Rattle.std.specs.Prelude.{◌≡◌, ◌≤◌, ◌||◌, ◌↔◌, ◌<◌, ◌+◌, ℕ, [], ◌∷◌, ◌++◌, length, nat_lt, IfOk, OnOk, OnErr, IsTrue};
ghost use Rattle.fed_ranges.specs.Ranges.{added, both, has as has_number, is_in, is_before as comes_before, joined, AreApart, IsCanonical, MayFollow};
ghost use Rattle.fed_ranges.specs.Retirements.{AreBetween, EndBefore};

use fed_lattice::NoMemory;
use std::alloc::Global;
use std::marker::Model;

/// The numbers from `first` to `last`, both among them.
#[derive(Clone, Copy, PartialEq, Eq, Debug)]
pub struct Range {
    /// The least number.
    pub first: u64,
    /// The greatest number.
    pub last: u64,
}

/// A set of numbers: the list of its ranges, which ascend, and of which none touches the next. Each set is one list, so
/// that sets are the same exactly where their lists are.
#[derive(Drop)]
pub struct Ranges {
    alloc: Global,
    ranges: Vec<Range>,
}

impl Model for Ranges {
    ghost use Rattle.std.specs.Prelude.{List};
    ghost use Rattle.fed_ranges.specs.declared.ranges.Range.{Range};
    ghost use Rattle.fed_ranges.specs.Ranges.{IsCanonical};

    ghost Value = { List Range };

    ghost view = { λ r. r.ranges.items };

    ghost invariant = { λ r. IsCanonical r.ranges.items };
}

// Whether the one range ends before the other starts, with a number between them.
fn is_before(one: Range, other: Range) -> bool
    ensures { result ≡ comes_before one other }
{
    one.last < other.first && 1 < other.first - one.last
}

// Both ranges, which touch, as one.
fn both_of(one: Range, other: Range) -> Range
    ensures { result ≡ both one other }
{
    Range {
        first: one.first.min(other.first),
        last: one.last.max(other.last),
    }
}

// The ranges with one more.
fn with_range(alloc: Global, ranges: &[Range], range: Range) -> Result<Vec<Range>, NoMemory>
    ensures { IfOk result (λ v. v.items ≡ added range ranges.now) }
{
    let mut out = Vec::new(alloc);
    let mut pending = range;
    for next in ranges {
        if is_before(*next, pending) {
            out.push(*next)?;
        } else if is_before(pending, *next) {
            out.push(pending)?;
            pending = *next;
        } else {
            pending = both_of(pending, *next);
        }
    }
    out.push(pending)?;
    Ok(out)
}

// Whether the range may stand behind one that ends there, or as the first: it isn't empty, and doesn't touch that one.
fn may_follow(last: Option<u64>, range: Range) -> bool
    ensures { IsTrue result ↔ MayFollow last range }
{
    let is_apart = match last {
        Some(last) => last < range.first && 1 < range.first - last,
        None => true,
    };
    is_apart && range.first <= range.last
}

// Whether each of the ranges begins at 1 or later and ends before the number.
fn are_between(ranges: &[Range], end: u64) -> bool
    ensures { IsTrue result ↔ AreBetween end ranges.now }
{
    for range in ranges {
        if range.first == 0 || end <= range.last {
            return false;
        }
    }
    true
}

/// Whether the ranges ascend, none is empty, and none touches the next.
pub fn are_canonical(ranges: &[Range]) -> bool
    ensures { IsTrue result ↔ IsCanonical ranges.now }
{
    let mut last = None;
    for range in ranges {
        if !may_follow(last, *range) {
            return false;
        }
        last = Some(range.last);
    }
    true
}

impl Ranges {
    /// The empty set.
    pub fn new(alloc: Global) -> Ranges
        ensures { result ≡ [] }
    {
        Ranges {
            alloc,
            ranges: Vec::new(alloc),
        }
    }

    /// The set of these ranges. It asks that they ascend, that none is empty, and that none touches the next
    /// (`are_canonical`).
    pub fn from_vec(alloc: Global, ranges: Vec<Range>) -> Ranges
        requires { IsCanonical ranges.items }
        ensures { result ≡ ranges.items }
    {
        Ranges { alloc, ranges }
    }

    /// Whether the number is in the set. The time that it takes grows with the logarithm of the ranges.
    pub fn has(&self, number: u64) -> bool
        ensures value { result ≡ has_number self.now number }
        ensures canonical { IsCanonical self.now }
    {
        let place = self.ranges.partition_point(|range| range.last < number);
        place < self.ranges.len() && self.ranges[place].first <= number
    }

    /// How many ranges it takes.
    pub fn len(&self) -> usize
        ensures { result ≡ length self.now }
    {
        self.ranges.len()
    }

    /// How many it would take with one more, which is not empty. It takes no memory.
    pub fn len_with(&self, range: Range) -> usize
        ensures { result ≡ length (added range self.now) }
    {
        let mut pending = range;
        let mut before = 0;
        for next in &self.ranges {
            if is_before(*next, pending) {
                before += 1;
            } else if is_before(pending, *next) {
                before += 1;
                pending = *next;
            } else {
                pending = both_of(pending, *next);
            }
        }
        before + 1
    }

    /// Whether each range begins at 1 or later and ends before the number.
    pub fn is_between(&self, end: u64) -> bool
        ensures { IsTrue result ↔ (AreApart 1 self.now × EndBefore end self.now) }
    {
        are_between(&self.ranges, end)
    }

    /// The ranges in ascending order, of which none touches the next.
    pub fn as_slice(&self) -> &[Range]
        ensures ranges { result.now ≡ self.now }
        ensures canonical { IsCanonical self.now }
    {
        &self.ranges
    }

    /// Adds the numbers of a range, which is not empty. On an error the set is as before. The time that it takes grows
    /// with the ranges.
    pub fn add(&mut self, range: Range) -> Result<(), NoMemory>
        requires { range.first ≤ range.last }
        ensures added { OnOk result (self.new ≡ added range self.old) }
        ensures has { OnOk result ((n : ℕ) → has_number self.new n ≡ (is_in range n || has_number self.old n)) }
        ensures unchanged { OnErr result (self.new ≡ self.old) }
    {
        let more = with_range(self.alloc, &self.ranges, range)?;
        self.ranges = more;
        Ok(())
    }

    /// An equal set.
    pub fn copy(&self) -> Result<Ranges, NoMemory>
        ensures { IfOk result (λ r. r ≡ self.now) }
    {
        Ok(Ranges {
            alloc: self.alloc,
            ranges: self.ranges.clone()?,
        })
    }

    /// The union of two sets.
    pub fn join(&self, other: &Ranges) -> Result<Ranges, NoMemory>
        ensures canonical { OnOk result (IsCanonical self.now × IsCanonical other.now) }
        ensures value { IfOk result (λ r. r ≡ joined self.now other.now) }
        ensures has { IfOk result (λ r. (n : ℕ) → has_number r n ≡ (has_number self.now n || has_number other.now n)) }
    {
        let _ = &self.alloc;
        let mut union = self.copy()?;
        for range in &other.ranges {
            union.add(*range)?;
        }
        Ok(union)
    }
}

/// Sets are equal where their ranges are.
impl PartialEq for Ranges {
    ghost use Rattle.fed_ranges.specs.RetirementLaws.{same_ranges, ranges_per};

    ghost eq = { same_ranges };

    ghost laws = { ranges_per };

    fn eq(&self, other: &Self) -> bool {
        self.ranges == other.ranges
    }
}

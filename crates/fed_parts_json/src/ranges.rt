//! Ranges read from JSON values.
ghost use Rattle.std.specs.Prelude.{◌≡◌, ◌≤◌, IfOk, map};
ghost use Rattle.serde_json.specs.View.{view};
ghost use Rattle.fed_lattice.specs.Results.{mapped};
ghost use Rattle.fed_json.specs.Values.{all_of, array_of};
ghost use Rattle.fed_parts_json.specs.Retirements.{range_of, are_apart_before as stand_apart_before};

use fed_json::{Flaw, both, elements, natural};
use fed_lattice::NoMemory;
use fed_ranges::Range;
use fed_stamp::MAX_COUNTER;
use serde_json::Value;
use std::alloc::Global;

fn read_range(value: &Value) -> Result<Range, Flaw>
    ensures { result ≡ range_of (view value.now) }
{
    match elements(value)? {
        [first, last] => {
            let (first, last) = both(
                natural(first, 1, MAX_COUNTER),
                natural(last, 1, MAX_COUNTER),
            )?;
            Ok(Range { first, last })
        }
        _ => Err(Flaw::Shape),
    }
}

fn all_ranges(alloc: Global, values: &[Value]) -> Result<Result<Vec<Range>, Flaw>, NoMemory>
    ensures { IfOk result (λ r. mapped (λ v. v.items) r ≡ all_of range_of (map view values.now)) }
{
    let mut ranges = Vec::with_capacity(alloc, values.len())?;
    let mut in_range = true;
    for value in values {
        match read_range(value) {
            Ok(range) => ranges.push(range)?,
            Err(Flaw::Range) => in_range = false,
            Err(Flaw::Shape) => return Ok(Err(Flaw::Shape)),
        }
    }
    if in_range {
        Ok(Ok(ranges))
    } else {
        Ok(Err(Flaw::Range))
    }
}

/// The ranges of an array, each of counters.
pub(crate) fn read_ranges(
    alloc: Global,
    value: &Value,
) -> Result<Result<Vec<Range>, Flaw>, NoMemory>
    ensures { IfOk result (λ r. mapped (λ v. v.items) r ≡ array_of range_of (view value.now)) }
{
    match elements(value) {
        Ok(values) => all_ranges(alloc, values),
        Err(flaw) => Ok(Err(flaw)),
    }
}

/// Whether the ranges begin at 1 or later and ascend, none is empty, none touches the next, and each ends before the
/// counter.
pub(crate) fn are_apart_before(counter: u64, ranges: &[Range]) -> bool
    requires { counter ≤ MAX_COUNTER }
    ensures { result ≡ stand_apart_before counter 1 ranges.now }
{
    let mut least = 1;
    for range in ranges {
        if range.first < least || range.last < range.first || counter <= range.last {
            return false;
        }
        least = range.last + 2;
    }
    true
}

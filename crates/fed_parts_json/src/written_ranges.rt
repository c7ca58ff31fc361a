//! What a site has retired, written as a JSON value.
ghost use Rattle.std.specs.Prelude.{◌≡◌, IfOk, map};
ghost use Rattle.serde_json.specs.View.{view};
ghost use Rattle.fed_json.specs.Values.{list_value};
ghost use Rattle.fed_parts_json.specs.Retirements.{range_value, retirements_value};

use fed_ranges::{Range, Ranges, Retirements};
use fed_stamp::SiteId;
use serde_json::{Value, json};
use std::alloc::{AllocError, Global};

fn write_range(alloc: Global, range: Range) -> Result<Value, AllocError>
    ensures { IfOk result (λ v. view v ≡ range_value range) }
{
    json!(in alloc; [range.first, range.last])
}

fn write_ranges(alloc: Global, ranges: &Ranges) -> Result<Value, AllocError>
    ensures { IfOk result (λ v. view v ≡ list_value (map range_value ranges.now)) }
{
    let mut values = Vec::with_capacity(alloc, ranges.len())?;
    for range in ranges.as_slice() {
        values.push(write_range(alloc, *range)?)?;
    }
    Ok(Value::Array(values))
}

/// The site, the counter of its latest Retire and its ranges.
pub fn write_retirements(
    alloc: Global,
    site: SiteId,
    retirements: &Retirements,
) -> Result<Value, AllocError>
    ensures { IfOk result (λ v. view v ≡ retirements_value (site, retirements.now)) }
{
    let site = Value::from(site.get());
    let latest = Value::from(retirements.latest());
    let ranges = write_ranges(alloc, retirements.ranges())?;
    Ok(Value::Array(vec![in alloc; site, latest, ranges]?))
}

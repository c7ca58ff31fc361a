//! The live pairs of a job read from JSON values.
ghost use Rattle.std.specs.Prelude.{◌≡◌, IfOk, map};
ghost use Rattle.std.specs.Ordering.{nat_cmp};
ghost use Rattle.serde_json.specs.View.{view};
ghost use Rattle.fed_lattice.specs.Results.{mapped};
ghost use Rattle.fed_tags.specs.Tags.{pair_cmp};
ghost use Rattle.fed_model.specs.Hold.{kind_cmp};
ghost use Rattle.fed_json.specs.Values.{pair_of, all_of};
ghost use Rattle.fed_job_json.specs.Stamps.{site_of, stamp_of};
ghost use Rattle.fed_job_json.specs.Pairs.{kind_of, holds_of, sites_of, ascends};

use crate::stamps::{read_site, read_stamp};
use fed_json::{Flaw, both, elements, is_word};
use fed_lattice::NoMemory;
use fed_record::HoldKind;
use fed_stamp::{SiteId, Stamp};
use fed_tags::TagSet;
use serde_json::Value;
use std::alloc::Global;

fn kind(value: &Value) -> Result<HoldKind, Flaw>
    ensures { result ≡ kind_of (view value.now) }
{
    if is_word(value, "u") {
        Ok(HoldKind::User)
    } else if is_word(value, "o") {
        Ok(HoldKind::Operator)
    } else if is_word(value, "s") {
        Ok(HoldKind::System)
    } else {
        Err(Flaw::Shape)
    }
}

fn hold(value: &Value) -> Result<(HoldKind, Stamp), Flaw>
    ensures { result ≡ pair_of kind_of stamp_of (view value.now) }
{
    match elements(value)? {
        [word, stamp] => both(kind(word), read_stamp(stamp)),
        _ => Err(Flaw::Shape),
    }
}

fn site(value: &Value) -> Result<(SiteId, Stamp), Flaw>
    ensures { result ≡ pair_of site_of stamp_of (view value.now) }
{
    match elements(value)? {
        [number, stamp] => both(read_site(number), read_stamp(stamp)),
        _ => Err(Flaw::Shape),
    }
}

fn all_holds(
    alloc: Global,
    values: &[Value],
) -> Result<Result<Vec<(HoldKind, Stamp)>, Flaw>, NoMemory>
    ensures { IfOk result (λ r. mapped (λ v. v.items) r ≡ all_of (pair_of kind_of stamp_of) (map view values.now)) }
{
    let mut holds = Vec::with_capacity(alloc, values.len())?;
    let mut in_range = true;
    for value in values {
        match hold(value) {
            Ok(hold) => holds.push(hold)?,
            Err(Flaw::Range) => in_range = false,
            Err(Flaw::Shape) => return Ok(Err(Flaw::Shape)),
        }
    }
    if in_range {
        Ok(Ok(holds))
    } else {
        Ok(Err(Flaw::Range))
    }
}

fn all_sites(
    alloc: Global,
    values: &[Value],
) -> Result<Result<Vec<(SiteId, Stamp)>, Flaw>, NoMemory>
    ensures { IfOk result (λ r. mapped (λ v. v.items) r ≡ all_of (pair_of site_of stamp_of) (map view values.now)) }
{
    let mut sites = Vec::with_capacity(alloc, values.len())?;
    let mut in_range = true;
    for value in values {
        match site(value) {
            Ok(site) => sites.push(site)?,
            Err(Flaw::Range) => in_range = false,
            Err(Flaw::Shape) => return Ok(Err(Flaw::Shape)),
        }
    }
    if in_range {
        Ok(Ok(sites))
    } else {
        Ok(Err(Flaw::Range))
    }
}

/// The live pairs of a job's holds.
pub fn holds(alloc: Global, value: &Value) -> Result<Result<Vec<(HoldKind, Stamp)>, Flaw>, NoMemory>
    ensures { IfOk result (λ r. mapped (λ v. v.items) r ≡ holds_of (view value.now)) }
{
    let values = match elements(value) {
        Ok(values) => values,
        Err(flaw) => return Ok(Err(flaw)),
    };
    let holds = match all_holds(alloc, values)? {
        Ok(holds) => holds,
        Err(flaw) => return Ok(Err(flaw)),
    };
    if TagSet::<HoldKind>::is_ascending(&holds) {
        Ok(Ok(holds))
    } else {
        Ok(Err(Flaw::Range))
    }
}

/// The live pairs of a job's sites.
pub fn sites(alloc: Global, value: &Value) -> Result<Result<Vec<(SiteId, Stamp)>, Flaw>, NoMemory>
    ensures { IfOk result (λ r. mapped (λ v. v.items) r ≡ sites_of (view value.now)) }
{
    let values = match elements(value) {
        Ok(values) => values,
        Err(flaw) => return Ok(Err(flaw)),
    };
    let sites = match all_sites(alloc, values)? {
        Ok(sites) => sites,
        Err(flaw) => return Ok(Err(flaw)),
    };
    if TagSet::<SiteId>::is_ascending(&sites) {
        Ok(Ok(sites))
    } else {
        Ok(Err(Flaw::Range))
    }
}

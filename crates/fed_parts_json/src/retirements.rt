//! What a site has retired, read from a JSON value.
ghost use Rattle.std.specs.Prelude.{◌≡◌, ◌∷◌, [], IfOk};
ghost use Rattle.serde_json.specs.View.{view};
ghost use Rattle.fed_lattice.specs.Results.{mapped};
ghost use Rattle.fed_parts_json.specs.Retirements.{are_some as is_some_list, retirements_from, retirements_of};

use crate::ranges::{are_apart_before, read_ranges};
use fed_job_json::read_site;
use fed_json::{Flaw, both, elements, natural};
use fed_lattice::NoMemory;
use fed_model::MAX_RANGES;
use fed_ranges::{Range, Ranges, Retirements};
use fed_stamp::{MAX_COUNTER, SiteId};
use serde_json::Value;
use std::alloc::Global;

/// What a site has retired, under its number.
pub type RetiredSite = (SiteId, Retirements);

// Whether there are ranges, and not too many.
fn are_some(ranges: &[Range]) -> bool
    ensures { result ≡ is_some_list ranges.now }
{
    !ranges.is_empty() && ranges.len() as u64 <= MAX_RANGES
}

// What the three parts are read as.
fn read_parts(
    alloc: Global,
    site: &Value,
    counter: &Value,
    ranges: &Value,
) -> Result<Result<RetiredSite, Flaw>, NoMemory>
    ensures { IfOk result (λ r. r ≡ retirements_from (view site.now ∷ view counter.now ∷ view ranges.now ∷ [])) }
{
    let ranges = read_ranges(alloc, ranges)?;
    let others = both(natural(counter, 1, MAX_COUNTER), ranges);
    let (site, (latest, ranges)) = match both(read_site(site), others) {
        Ok(read) => read,
        Err(flaw) => return Ok(Err(flaw)),
    };
    if !are_some(&ranges) || !are_apart_before(latest, &ranges) {
        return Ok(Err(Flaw::Range));
    }
    let ranges = Ranges::from_vec(alloc, ranges);
    Ok(Ok((site, Retirements::new(latest, ranges))))
}

/// The site, the counter of its latest Retire and its ranges.
#[tactic(auto, unfolding(crate::specs::Retirements::retirements_of))]
pub fn read_retirements(alloc: Global, value: &Value) -> Result<Result<RetiredSite, Flaw>, NoMemory>
    ensures { IfOk result (λ r. r ≡ retirements_of (view value.now)) }
{
    match elements(value) {
        Ok([site, counter, ranges]) => read_parts(alloc, site, counter, ranges),
        _ => Ok(Err(Flaw::Shape)),
    }
}

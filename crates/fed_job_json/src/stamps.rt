//! Sites, stamps and versions read from JSON values.
ghost use Rattle.std.specs.Prelude.{◌≡◌, ◌≤◌, map, length, All, OnErr};
ghost use Rattle.std.specs.List.{AllByRecursion};
ghost use Rattle.serde_json.specs.View.{view};
ghost use Rattle.fed_lattice.specs.Results.{mapped};
ghost use Rattle.fed_json.specs.Numbers.{natural_in};
ghost use Rattle.fed_model.specs.Ranges.{IsFrom};
ghost use Rattle.fed_json.specs.Values.{all_of};
ghost use Rattle.fed_job_json.specs.Stamps.{site_of, stamp_of, version_of};

use fed_json::{Flaw, both, elements, natural};
use fed_stamp::{MAX_COUNTER, SITES, SiteId, Stamp, Version};
use serde_json::Value;

/// The site of this number.
pub fn read_site(value: &Value) -> Result<SiteId, Flaw>
    ensures { result ≡ site_of (view value.now) }
{
    let number = natural(value, 0, SITES as u64 - 1)?;
    SiteId::new(number as u8).ok_or(Flaw::Range)
}

/// The stamp of this counter and site.
pub fn read_stamp(value: &Value) -> Result<Stamp, Flaw>
    ensures { result ≡ stamp_of (view value.now) }
{
    match elements(value)? {
        [counter, site] => {
            let (counter, site) = both(natural(counter, 1, MAX_COUNTER), read_site(site))?;
            Stamp::new(counter, site).ok_or(Flaw::Range)
        }
        _ => Err(Flaw::Shape),
    }
}

// The counters, of which there are 16.
fn counters(values: &[Value]) -> Result<[u64; SITES], Flaw>
    requires { length values.now ≡ SITES }
    ensures { result ≡ all_of (natural_in 0 MAX_COUNTER) (map view values.now) }
{
    let mut counters = [0; SITES];
    let mut in_range = true;
    for (site, value) in values.iter().enumerate() {
        match natural(value, 0, MAX_COUNTER) {
            Ok(counter) => counters[site] = counter,
            Err(Flaw::Range) => in_range = false,
            Err(Flaw::Shape) => return Err(Flaw::Shape),
        }
    }
    if in_range {
        Ok(counters)
    } else {
        Err(Flaw::Range)
    }
}

/// The version of these counters, by site.
pub fn read_version(value: &Value) -> Result<Version, Flaw>
    ensures { result ≡ version_of (view value.now) }
{
    let values = elements(value)?;
    if values.len() != SITES {
        return Err(Flaw::Shape);
    }
    Version::new(counters(values)?).ok_or(Flaw::Range)
}

//! Versions and the sender of a packet read from JSON values.
ghost use Rattle.std.specs.Prelude.{◌≡◌, map};
ghost use Rattle.serde_json.specs.View.{view};
ghost use Rattle.fed_job_json.specs.Stamps.{site_of};
ghost use Rattle.fed_wire.specs.declared.faults.Part.TheVariants.{Sender as TheSender};
ghost use Rattle.fed_wire.specs.Reading.{at, place as place_of, first_bad as first_bad_from, first_bad_in, version_in};

use crate::faults::{Part, Place, WireFault};
use fed_job_json::{read_site, read_version};
use fed_json::{Flaw, elements, natural};
use fed_stamp::{MAX_COUNTER, SiteId, Version};
use serde_json::Value;

fn first_bad_of(values: &[Value]) -> usize
    ensures { result ≡ first_bad_from 0 (map view values.now) }
{
    for (site, value) in values.iter().enumerate() {
        if natural(value, 0, MAX_COUNTER).is_err() {
            return site;
        }
    }
    values.len()
}

/// The index of the first element that isn't a counter.
fn first_bad(value: &Value) -> usize
    ensures { result ≡ first_bad_in (view value.now) }
{
    match elements(value) {
        Ok(values) => first_bad_of(values),
        Err(_) => 0,
    }
}

/// The version that stands in this part.
pub fn version(value: &Value, part: Part) -> Result<Version, WireFault>
    ensures { result ≡ version_in part (view value.now) }
{
    match read_version(value) {
        Ok(version) => Ok(version),
        Err(Flaw::Shape) => Err(WireFault::Shape {
            place: Place { part, index: 0 },
        }),
        Err(Flaw::Range) => Err(WireFault::Range {
            place: Place {
                part,
                index: first_bad(value),
            },
        }),
    }
}

/// The site that sent the packet.
pub fn sender(value: &Value) -> Result<SiteId, WireFault>
    ensures { result ≡ at (place_of TheSender 0) (place_of TheSender 0) (site_of (view value.now)) }
{
    let place = Place {
        part: Part::Sender,
        index: 0,
    };
    match read_site(value) {
        Ok(site) => Ok(site),
        Err(Flaw::Shape) => Err(WireFault::Shape { place }),
        Err(Flaw::Range) => Err(WireFault::Range { place }),
    }
}

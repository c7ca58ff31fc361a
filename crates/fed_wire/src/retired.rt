//! What the sites have retired, read from a JSON value.
ghost use Rattle.std.specs.Prelude.{◌≡◌, ◌&&◌, [], map, nat_le, option_map};
ghost use Rattle.std.specs.List.{list_all};
ghost use Rattle.std.specs.Map.{keys_of};
ghost use Rattle.serde_json.specs.View.{view};
ghost use Rattle.fed_stamp.specs.Version.{counter_of};
ghost use Rattle.fed_parts_json.specs.Retirements.{retirements_of};
ghost use Rattle.fed_wire.specs.declared.faults.Part.TheVariants.{Retired as WhatIsRetired};
ghost use Rattle.fed_wire.specs.Faults.{Gives};
ghost use Rattle.fed_wire.specs.Packet.{is_above as comes_behind, keeps as site_keeps, site_stands};
ghost use Rattle.fed_wire.specs.Reading.{each_in, all_retired, retired_from};

use crate::faults::{Part, Place, WireFault};
use fed_json::{Flaw, elements};
use fed_lattice::{Causal, Table};
use fed_parts_json::read_retirements;
use fed_ranges::{Retired, Retirements};
use fed_record::{JobRecord, Reservation};
use fed_stamp::{JobId, SiteId, Stamp, Version};
use serde_json::Value;
use std::alloc::Global;

// Whether the site is above the last one before it.
fn is_above(last: Option<SiteId>, site: SiteId) -> bool
    ensures { result ≡ comes_behind last site }
{
    match last {
        Some(last) => last.get() < site.get(),
        None => true,
    }
}

// Whether the site has retired none of the table's identifiers.
fn keeps<V: Causal + Drop>(site: SiteId, retirements: &Retirements, table: &Table<Stamp, V>) -> bool
    ensures { result ≡ list_all (site_keeps (site, retirements.now)) (keys_of table.now) }
{
    let ranges = retirements.ranges();
    for (id, _value) in table.iter() {
        if id.site() == site && ranges.has(id.counter()) {
            return false;
        }
    }
    true
}

// Whether the site's latest Retire is covered, and it has retired none of the jobs and reservations.
fn is_fit(
    site: SiteId,
    retirements: &Retirements,
    reached: &Version,
    jobs: &Table<JobId, JobRecord>,
    reservations: &Table<Stamp, Reservation>,
) -> bool
    ensures { result ≡ (nat_le retirements.now.latest (counter_of reached.now site)
        && (list_all (site_keeps (site, retirements.now)) (keys_of jobs.now)
        && list_all (site_keeps (site, retirements.now)) (keys_of reservations.now))) }
{
    retirements.latest() <= reached.get(site)
        && (keeps(site, retirements, jobs) && keeps(site, retirements, reservations))
}

fn all_sites(
    alloc: Global,
    values: &[Value],
    reached: &Version,
    jobs: &Table<JobId, JobRecord>,
    reservations: &Table<Stamp, Reservation>,
) -> Result<Retired, WireFault>
    ensures { Gives (each_in WhatIsRetired retirements_of
        (site_stands reached.now (keys_of jobs.now) (keys_of reservations.now)) [] (map view values.now)) result }
{
    let mut last = None;
    let mut retired = Table::bottom(alloc);
    for (index, value) in values.iter().enumerate() {
        let place = Place {
            part: Part::Retired,
            index,
        };
        match read_retirements(alloc, value)? {
            Ok(entry) => {
                let (site, retirements) = entry;
                if !is_above(last, site)
                    || !is_fit(site, &retirements, reached, jobs, reservations)
                {
                    return Err(WireFault::Range { place });
                }
                last = Some(site);
                retired.insert(site, retirements)?;
            }
            Err(Flaw::Shape) => return Err(WireFault::Shape { place }),
            Err(Flaw::Range) => return Err(WireFault::Range { place }),
        }
    }
    Ok(retired)
}

fn some_sites(
    alloc: Global,
    value: &Value,
    reached: &Version,
    jobs: &Table<JobId, JobRecord>,
    reservations: &Table<Stamp, Reservation>,
) -> Result<Retired, WireFault>
    ensures { Gives (all_retired reached.now jobs.now reservations.now (view value.now)) result }
{
    let place = Place {
        part: Part::Retired,
        index: 0,
    };
    let values = match elements(value) {
        Ok(values) => values,
        Err(_) => return Err(WireFault::Shape { place }),
    };
    let retired = all_sites(alloc, values, reached, jobs, reservations)?;
    if retired.is_empty() {
        return Err(WireFault::Range { place });
    }
    Ok(retired)
}

/// What the sites have retired, of a packet that reaches the version and has these jobs and reservations: nothing where
/// it has no such member.
pub(crate) fn read_retired(
    alloc: Global,
    member: Option<&Value>,
    reached: &Version,
    jobs: &Table<JobId, JobRecord>,
    reservations: &Table<Stamp, Reservation>,
) -> Result<Retired, WireFault>
    ensures { Gives (retired_from (option_map (λ v. view v.now) member.entry) reached.now jobs.now reservations.now) result }
{
    match member {
        Some(value) => some_sites(alloc, value, reached, jobs, reservations),
        None => Ok(Table::bottom(alloc)),
    }
}

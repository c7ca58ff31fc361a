//! How what is retired is dropped from tables.
ghost use Rattle.std.specs.Prelude.{◌≡◌, ◌++◌, IfOk, OnOk, filter};
ghost use Rattle.std.specs.Map.{keys_of};
ghost use Rattle.fed_lattice.specs.Latest.{stamp_cmp};
ghost use Rattle.fed_lattice.specs.JoinedEntries.{without};
ghost use Rattle.fed_ranges.specs.Dropped.{dropped};
ghost use Rattle.fed_ranges.specs.Retired.{has_retired};
ghost use Rattle.fed_board.specs.Counts.{AreCounts};
ghost use Rattle.fed_board.specs.Retiring.{is_of_range};

use crate::counts::count_ids;
use fed_lattice::{Causal, NoMemory, Table, table_is_well_formed};
use fed_ranges::{Range, Retired, is_retired};
use fed_stamp::{SITES, SiteId, Stamp};
use std::alloc::Global;

/// The identifiers of the site among the table's that have a counter in the range. Only those up to its end are looked
/// at.
pub(crate) fn ids_within<V: Causal + Drop>(
    alloc: Global,
    table: &Table<Stamp, V>,
    site: SiteId,
    range: Range,
) -> Result<Vec<Stamp>, NoMemory>
    ensures { IfOk result (λ v. v.items ≡ filter (is_of_range site range) (keys_of table.now)) }
{
    table_is_well_formed(table);
    let mut ids = Vec::new(alloc);
    for (id, _value) in table.iter() {
        if range.last < id.counter() {
            return Ok(ids);
        }
        if id.site() == site && range.first <= id.counter() {
            ids.push(*id)?;
        }
    }
    Ok(ids)
}

/// Adds those of the table's identifiers that are retired.
fn add_retired<V: Causal + Drop>(
    ids: &mut Vec<Stamp>,
    table: &Table<Stamp, V>,
    retired: &Retired,
) -> Result<(), NoMemory>
    ensures { OnOk result (ids.new.items ≡ ids.old.items ++ filter (has_retired retired.now) (keys_of table.now)) }
{
    if retired.is_empty() {
        return Ok(());
    }
    for (id, _value) in table.iter() {
        if is_retired(retired, *id) {
            ids.push(*id)?;
        }
    }
    Ok(())
}

/// The identifiers of either table that the other side has retired.
pub(crate) fn gone_ids<V: Causal + Drop>(
    alloc: Global,
    mine: &Table<Stamp, V>,
    my_retired: &Retired,
    theirs: &Table<Stamp, V>,
    their_retired: &Retired,
) -> Result<Vec<Stamp>, NoMemory>
    ensures { IfOk result (λ v. v.items ≡
        filter (has_retired their_retired.now) (keys_of mine.now)
        ++ filter (has_retired my_retired.now) (keys_of theirs.now)) }
{
    let mut ids = Vec::new(alloc);
    add_retired(&mut ids, mine, their_retired)?;
    add_retired(&mut ids, theirs, my_retired)?;
    Ok(ids)
}

/// The table without what is retired.
pub(crate) fn without_retired<V: Causal + Drop>(
    alloc: Global,
    table: Table<Stamp, V>,
    retired: &Retired,
) -> Result<Table<Stamp, V>, NoMemory>
    ensures { IfOk result (λ t. t ≡ dropped (has_retired retired.now) table) }
{
    table_is_well_formed(&table);
    let mut table = table;
    let mut ids = Vec::new(alloc);
    add_retired(&mut ids, &table, retired)?;
    table.remove_keys(&ids);
    Ok(table)
}

/// Takes the identifiers out of the table, and counts anew where there are any. It takes no memory.
pub(crate) fn drop_ids<V: Causal + Drop>(
    table: &mut Table<Stamp, V>,
    counts: &mut [u64; SITES],
    ids: &[Stamp],
)
    requires { AreCounts counts.old (keys_of table.old) }
    ensures dropped { table.new ≡ without stamp_cmp table.old ids.now }
    ensures counted { AreCounts counts.new (keys_of table.new) }
{
    if ids.is_empty() {
        return;
    }
    table.remove_keys(ids);
    *counts = count_ids(table);
}

//! How many identifiers each site gave.
ghost use Rattle.std.specs.Prelude.{◌≡◌, ◌<◌, ℕ, None, slice_index, OnOk, OnErr};
ghost use Rattle.std.specs.BTreeMap.{is_at};
ghost use Rattle.std.specs.Map.{keys_of, lookup};
ghost use Rattle.fed_lattice.specs.Latest.{stamp_cmp};
ghost use Rattle.fed_lattice.specs.Table.{applied_table};
ghost use Rattle.fed_board.specs.Counts.{AreCounts, AreCounting};

use fed_lattice::{Causal, NoMemory, Table, table_is_countable};
use fed_record::Operation;
use fed_stamp::{SITES, Stamp};

/// For each site the number of the table's identifiers that it gave.
pub(crate) fn count_ids<V: Causal + Drop>(table: &Table<Stamp, V>) -> [u64; SITES]
    ensures { AreCounts result (keys_of table.now) }
{
    table_is_countable(table);
    let mut counts = [0; SITES];
    for (id, _value) in table.iter() {
        counts[id.site().get() as usize] += 1;
    }
    counts
}

/// The counts, with these identifiers counted too, which are the identifiers of the table that were not counted yet.
pub(crate) fn count_more<V: Causal + Drop>(
    counts: [u64; SITES],
    ids: &[Stamp],
    table: &Table<Stamp, V>,
) -> [u64; SITES]
    requires { AreCounting counts ids.now (keys_of table.now) }
    ensures { AreCounts result (keys_of table.now) }
{
    table_is_countable(table);
    let mut more = counts;
    for id in ids {
        more[id.site().get() as usize] += 1;
    }
    more
}

/// Changes the value at the identifier by the operation with the stamp `at`. The identifier that the operation makes is
/// new, and isn't looked for. On an error the table is as before.
fn apply_to<V: Causal<Change = Operation> + Drop>(
    table: &mut Table<Stamp, V>,
    id: Stamp,
    at: Stamp,
    operation: &Operation,
) -> Result<(), NoMemory>
    requires { id ≡ at → lookup (is_at (stamp_cmp id)) table.old ≡ None }
    ensures applied { OnOk result
        (table.new ≡ applied_table stamp_cmp V.bottom V.applied table.old at (id, operation.now)) }
    ensures unchanged { OnErr result (table.new ≡ table.old) }
{
    if id == at {
        table.apply_absent(id, at, operation)
    } else {
        table.apply_at(id, at, operation)
    }
}

/// Changes the value at the identifier by the operation with the stamp `at`, and counts the identifier where it is
/// new: the one that the operation makes is. On an error both are as before.
pub(crate) fn change_at<V: Causal<Change = Operation> + Drop>(
    table: &mut Table<Stamp, V>,
    counts: &mut [u64; SITES],
    id: Stamp,
    at: Stamp,
    operation: &Operation,
) -> Result<(), NoMemory>
    requires counts { AreCounts counts.old (keys_of table.old) }
    requires new { id ≡ at → lookup (is_at (stamp_cmp id)) table.old ≡ None }
    ensures applied { OnOk result
        (table.new ≡ applied_table stamp_cmp V.bottom V.applied table.old at (id, operation.now)) }
    ensures counted { OnOk result (AreCounts counts.new (keys_of table.new)) }
    ensures unchanged { OnErr result (table.new ≡ table.old) }
    ensures uncounted { OnErr result (counts.new ≡ counts.old) }
{
    let before = table.len();
    apply_to(table, id, at, operation)?;
    if table.len() > before {
        counts[id.site().get() as usize] += 1;
    }
    Ok(())
}

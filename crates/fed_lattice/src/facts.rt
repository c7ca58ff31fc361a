//! Facts that a type's invariant keeps. Each function does nothing: its contract is the fact, which a caller tells the
//! prover by calling it.
ghost use Rattle.std.specs.Prelude.{◌<◌, ◌^◌, length};
ghost use Rattle.fed_lattice.specs.Table.{IsTable};

use crate::causals::Causal;
use crate::exacts::Exact;
use crate::tables::Table;

/// The keys of a table strictly ascend, and each of its values is well formed.
pub fn table_is_well_formed<K: Exact, V: Causal + Drop>(table: &Table<K, V>)
    ensures { IsTable K.cmp V.well_formed table.now }
{
    let _entries = table.iter();
}

/// How many keys a table has is a number of 64 bits.
pub fn table_is_countable<K: Exact, V: Causal + Drop>(table: &Table<K, V>)
    ensures { length table.now < 2 ^ 64 }
{
    let _count = table.len();
}

//! Joins into the tables that a replica keeps, at the keys that another sends.
ghost use Rattle.std.specs.Prelude.{◌≡◌, IfOk, OnOk, OnErr};
ghost use Rattle.std.specs.Map.{keys_of};
ghost use Rattle.fed_lattice.specs.JoinedEntries.{joined_entries, missing_from};

use crate::causals::Causal;
use crate::exacts::Exact;
use crate::memory::NoMemory;
use crate::tables::Table;
use fed_stamp::Version;

/// Joins three tables, beside the version `mine`, with three others, beside `theirs`, at the keys that the others have, in
/// place; at all other keys they stay as they are. It gives the keys of the first two that are new. On an error all tables
/// are as before. The time that it takes grows with the keys of the others, and with the logarithm of those that are
/// here.
pub fn join_entries<
    K: Exact,
    V: Causal + Drop,
    L: Exact,
    W: Causal + Drop,
    M: Exact,
    X: Causal + Drop,
>(
    first: &mut Table<K, V>,
    second: &mut Table<L, W>,
    third: &mut Table<M, X>,
    mine: &Version,
    other_first: &Table<K, V>,
    other_second: &Table<L, W>,
    other_third: &Table<M, X>,
    theirs: &Version,
) -> Result<(Vec<K>, Vec<L>), NoMemory>
    ensures first { OnOk result (first.new ≡
        joined_entries K.cmp V.bottom V.joined first.old mine.now other_first.now theirs.now) }
    ensures second { OnOk result (second.new ≡
        joined_entries L.cmp W.bottom W.joined second.old mine.now other_second.now theirs.now) }
    ensures third { OnOk result (third.new ≡
        joined_entries M.cmp X.bottom X.joined third.old mine.now other_third.now theirs.now) }
    ensures new_first { IfOk result (λ new. new.0.items ≡ missing_from K.cmp first.old (keys_of other_first.now)) }
    ensures new_second { IfOk result (λ new. new.1.items ≡ missing_from L.cmp second.old (keys_of other_second.now)) }
    ensures first_unchanged { OnErr result (first.new ≡ first.old) }
    ensures second_unchanged { OnErr result (second.new ≡ second.old) }
    ensures third_unchanged { OnErr result (third.new ≡ third.old) }
{
    let replaced = first.join_values(mine, other_first, theirs)?;
    match join_pair(second, third, mine, other_second, other_third, theirs) {
        Ok(added) => Ok((replaced.added, added)),
        Err(refused) => {
            first.put_back(replaced);
            Err(refused)
        }
    }
}

// Joins two tables so. It gives the keys of the first that are new.
fn join_pair<K: Exact, V: Causal + Drop, L: Exact, W: Causal + Drop>(
    first: &mut Table<K, V>,
    second: &mut Table<L, W>,
    mine: &Version,
    other_first: &Table<K, V>,
    other_second: &Table<L, W>,
    theirs: &Version,
) -> Result<Vec<K>, NoMemory>
    ensures first { OnOk result (first.new ≡
        joined_entries K.cmp V.bottom V.joined first.old mine.now other_first.now theirs.now) }
    ensures second { OnOk result (second.new ≡
        joined_entries L.cmp W.bottom W.joined second.old mine.now other_second.now theirs.now) }
    ensures new_first { IfOk result (λ new. new.items ≡ missing_from K.cmp first.old (keys_of other_first.now)) }
    ensures first_unchanged { OnErr result (first.new ≡ first.old) }
    ensures second_unchanged { OnErr result (second.new ≡ second.old) }
{
    let former = first.join_values(mine, other_first, theirs)?;
    match second.join_values(mine, other_second, theirs) {
        Ok(_) => Ok(former.added),
        Err(refused) => {
            first.put_back(former);
            Err(refused)
        }
    }
}

//! Tables and tag sets, also where memory may be refused. A call answers as with ample memory, or by want of memory; then it
//! leaves the value as before, and answers as with ample memory when it is asked again. So the tests pass whichever allocation
//! fails, which `rt try --test --fail-alloc N` does for the Nth.
use fed_lattice::{Causal, ExactEq, NoMemory, Register, Stage, Table};
use fed_stamp::{Stamp, Version};
use fed_tags::{TagChange, TagSet};
use std::alloc::{AllocError, Global};
use std::process::Abort;
use test_values::stamp;

fn copied<V: Causal>(rt: &impl Abort, value: &V) -> V {
    match value.copy() {
        Ok(copy) => copy,
        Err(NoMemory) => value.copy().expect(rt, "memory"),
    }
}

/// Applies the change. A failed allocation leaves the value.
fn applied<V: Causal + ExactEq + Drop>(
    rt: &impl Abort,
    value: &mut V,
    at: Stamp,
    change: &V::Change,
) {
    let before = copied(rt, value);
    if value.apply(at, change).is_err() {
        assert!(rt; *value == before);
        value.apply(at, change).expect(rt, "memory");
    }
}

fn joined<V: Causal>(rt: &impl Abort, value: &V, seen: &Version, other: &V, known: &Version) -> V {
    match value.join(seen, other, known) {
        Ok(joined) => joined,
        Err(NoMemory) => value.join(seen, other, known).expect(rt, "memory"),
    }
}

#[test]
fn failed_allocations_of_a_table(rt: HostRuntime) {
    let (first, second) = (stamp(1, 0), stamp(1, 1));
    let none = Version::default();
    let mut mine: Table<u8, Register<u64>> = Table::bottom(rt.alloc());
    let mut theirs: Table<u8, Register<u64>> = Table::bottom(rt.alloc());
    applied(&rt, &mut mine, first, &(1, 5));
    applied(&rt, &mut theirs, second, &(3, 9));
    let both = joined(&rt, &mine, &none.with(first), &theirs, &none.with(second));
    assert!(rt; both.len() == 2);
    let one = both.get(1).expect(&rt, "the value at 1");
    assert!(rt; one.get() == Some((first, 5)));
    let three = both.get(3).expect(&rt, "the value at 3");
    assert!(rt; three.get() == Some((second, 9)));
}

/// The change that adds these elements, and removes these pairs.
fn change(
    alloc: Global,
    added: &[u8],
    removed: &[(u8, Stamp)],
) -> Result<TagChange<u8>, AllocError> {
    Ok(TagChange::new(
        Vec::from_slice(alloc, added)?,
        Vec::from_slice(alloc, removed)?,
    ))
}

fn change_of(
    rt: &(impl Abort + AllocGlobal),
    added: &[u8],
    removed: &[(u8, Stamp)],
) -> TagChange<u8> {
    match change(rt.alloc(), added, removed) {
        Ok(change) => change,
        Err(_) => change(rt.alloc(), added, removed).expect(rt, "memory"),
    }
}

#[test]
fn failed_allocations_of_a_tag_set(rt: HostRuntime) {
    let (first, second) = (stamp(1, 0), stamp(2, 1));
    let none = Version::default();
    let mut mine: TagSet<u8> = TagSet::bottom(rt.alloc());
    applied(&rt, &mut mine, first, &change_of(&rt, &[7, 9], &[]));
    let mut theirs = copied(&rt, &mine);
    applied(
        &rt,
        &mut theirs,
        second,
        &change_of(&rt, &[4], &[(7, first)]),
    );
    let seen = none.with(first);
    let both = joined(&rt, &mine, &seen, &theirs, &seen.with(second));
    assert!(rt; !both.has(&7));
    assert!(rt; both.tags(&4) == [second].as_slice() && both.tags(&9) == [first].as_slice());
}

#[test]
fn failed_allocations_of_pairs(rt: HostRuntime) {
    let pairs: [(u8, Stamp); 4] = [
        (2, stamp(1, 0)),
        (2, stamp(3, 0)),
        (2, stamp(4, 1)),
        (5, stamp(1, 0)),
    ];
    assert!(rt; TagSet::is_ascending(&pairs));
    let set = match TagSet::from_pairs(rt.alloc(), &pairs) {
        Ok(set) => set,
        Err(NoMemory) => TagSet::from_pairs(rt.alloc(), &pairs).expect(&rt, "memory"),
    };
    assert!(rt; set.tags(&2) == [stamp(1, 0), stamp(3, 0), stamp(4, 1)].as_slice());
    assert!(rt; set.tags(&5) == [stamp(1, 0)].as_slice());
}

#[test]
fn changes_one_key_at_a_time(rt: HostRuntime) {
    let at = stamp(1, 2);
    let mut table: Table<u64, Stage<u8>> = Table::bottom(rt.alloc());
    table.apply_absent(6, at, &5).expect(&rt, "memory");
    table.apply_at(8, at, &3).expect(&rt, "memory");
    assert!(rt;
        table
            .insert(4, Stage::new(Some(9)))
            .expect(&rt, "memory")
            .is_none()
    );
    let raised = table.remove(6).expect(&rt, "the raised value");
    assert!(rt; raised.get() == Some(5) && table.len() == 2);
    assert!(rt; table.get(8).expect(&rt, "a value").get() == Some(3));
    assert!(rt; table.get(4).expect(&rt, "a value").get() == Some(9));
}

#[test]
fn adds_to_a_set(rt: HostRuntime) {
    let (first, third) = (stamp(1, 3), stamp(2, 0));
    let mut set: TagSet<u8> = TagSet::bottom(rt.alloc());
    set.add(&[7], first).expect(&rt, "memory");
    set.add(&[8, 7, 8], third).expect(&rt, "memory");
    assert!(rt; set.iter().eq([(7, first), (7, third), (8, third)]));
}

/// A version that covers a pair which the other side doesn't have says that the other side has removed it; one that doesn't
/// cover it says nothing of it.
#[test]
fn forgets_what_the_other_side_removed(rt: HostRuntime) {
    let at = stamp(1, 3);
    let none = Version::default();
    let one = none.with(at);
    let bottom: TagSet<u8> = TagSet::bottom(rt.alloc());
    let mut set: TagSet<u8> = TagSet::bottom(rt.alloc());
    set.add(&[7], at).expect(&rt, "memory");
    assert!(rt; joined(&rt, &set, &one, &bottom, &one).tags(&7).is_empty());
    assert!(rt; joined(&rt, &bottom, &one, &set, &one).tags(&7).is_empty());
    assert!(rt; joined(&rt, &set, &one, &bottom, &none) == set);
    assert!(rt; joined(&rt, &bottom, &none, &set, &one) == set);
}

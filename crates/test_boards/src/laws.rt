//! The laws of values that merge, at work in generic code and in values that are nested four deep: what is proved of any
//! such value holds of these, with no proof of their own.
ghost use Rattle.std.specs.Prelude.{◌≡◌, ◌↔◌, IfOk, IsTrue};

use fed_lattice::{Both, Causal, ExactEq, Flag, NoMemory, Register, Stage, Table};
use fed_stamp::{Stamp, Version};
use std::process::Abort;
use test_values::stamp;

/// Three values joined in both orders.
fn join_both_ways<V: Causal + Drop>(
    a: &V,
    b: &V,
    c: &V,
    u: &Version,
    v: &Version,
    w: &Version,
) -> Result<(V, V), NoMemory>
    ensures same { IfOk result (λ p. p.0 ≡ p.1) }
{
    let left = a.join(u, b, v)?.join(&u.join(v), c, w)?;
    let right = a.join(u, &b.join(v, c, w)?, &v.join(w))?;
    Ok((left, right))
}

type Leaf = Both<Flag, Stage<u8>>;

type Deep = Table<Stamp, Both<Register<u64>, Table<u8, Leaf>>>;

fn deep_both_ways(
    a: &Deep,
    b: &Deep,
    c: &Deep,
    u: &Version,
    v: &Version,
    w: &Version,
) -> Result<(Deep, Deep), NoMemory>
    ensures same { IfOk result (λ p. p.0 ≡ p.1) }
{
    join_both_ways(a, b, c, u, v, w)
}

/// The join with itself.
fn join_itself<V: Causal>(a: &V, v: &Version) -> Result<V, NoMemory>
    ensures same { IfOk result (λ r. r ≡ a.now) }
{
    a.join(v, a, v)
}

fn deep_itself(a: &Deep, v: &Version) -> Result<Deep, NoMemory>
    ensures same { IfOk result (λ r. r ≡ a.now) }
{
    join_itself(a, v)
}

/// Two values joined from either side.
fn join_either_way<V: Causal + Drop>(
    a: &V,
    b: &V,
    u: &Version,
    v: &Version,
) -> Result<(V, V), NoMemory>
    ensures same { IfOk result (λ p. p.0 ≡ p.1) }
{
    Ok((a.join(u, b, v)?, b.join(v, a, u)?))
}

fn deep_either_way(a: &Deep, b: &Deep, u: &Version, v: &Version) -> Result<(Deep, Deep), NoMemory>
    ensures same { IfOk result (λ p. p.0 ≡ p.1) }
{
    join_either_way(a, b, u, v)
}

/// `==` at any depth.
fn is_same<V: ExactEq>(a: &V, b: &V) -> bool
    ensures { IsTrue result ↔ (a.now ≡ b.now) }
{
    a == b
}

/// The value has 40 at the key, and below it what the change set.
fn see_told(rt: &impl Abort, joined: &Deep, at: Stamp) {
    let value = joined.get(at).expect(rt, "a value");
    assert!(rt; value.first.get() == Some((at, 40)));
    let leaf = value.second.get(2).expect(rt, "a leaf");
    assert!(rt; leaf.first.get() && leaf.second.get() == Some(5));
}

#[test]
fn joins_four_deep(rt: HostRuntime) {
    let at = stamp(1, 3);
    let none = Version::default();
    let one = none.with(at);
    let mut a: Deep = Table::bottom(rt.alloc());
    a.apply(at, &(at, (Some(40), Some((2, (Some(()), Some(5)))))))
        .expect(&rt, "memory");
    let b: Deep = Table::bottom(rt.alloc());
    let (left, right) = deep_both_ways(&a, &b, &a, &one, &none, &one).expect(&rt, "memory");
    see_told(&rt, &left, at);
    see_told(&rt, &right, at);
    let again = deep_itself(&left, &one).expect(&rt, "memory");
    assert!(rt; is_same(&again, &left));
    let (first, second) = deep_either_way(&a, &b, &one, &none).expect(&rt, "memory");
    assert!(rt; is_same(&first, &second) && !is_same(&first, &b));
}

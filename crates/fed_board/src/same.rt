//! Whether values are identical. These tests stand apart for what their clauses say, from which `==` of boards is proved.
ghost use Rattle.std.specs.Prelude.{◌≡◌, ◌↔◌, ◌&&◌, IsTrue};

use fed_lattice::ExactEq;

/// Whether two values are identical.
pub(crate) fn is_same<V: ExactEq>(a: &V, b: &V) -> bool
    ensures by_parts { result ≡ V.eq a.now b.now }
    ensures same { IsTrue result ↔ (a.now ≡ b.now) }
{
    a == b
}

/// Whether two values are identical, and so are two others.
pub(crate) fn are_same<V: ExactEq, W: ExactEq>(a: &V, b: &V, c: &W, d: &W) -> bool
    ensures { result ≡ (V.eq a.now b.now && W.eq c.now d.now) }
{
    a == b && c == d
}

//! Edges that are short enough for corners that were rounded.
ghost use Rattle.std.specs.Prelude.{◌≡◌, ◌↔◌, ◌-◌, ◌*◌, ◌<◌, ◌≤◌, ◌^◌, ◌+ℤ◌, All, IfNone, IfSome, IsTrue};
ghost use Rattle.std.specs.Prelude.{length, unsigned_abs};
ghost use Rattle.s2geodesic.specs.Rounded.{IsLongEdge, IsShort};
ghost use Rattle.s2geodesic.specs.Working.Shortness.{AreShort, IsLongIn};
ghost use Rattle.s2polygon.specs.Directions.{IsDirection};
ghost use Rattle.s2polygon.specs.Moves.{StaysClear, product_of, sizes_of, sum_of};
ghost use Rattle.s2polygon.specs.Rings.{AreRings, rings_edges};

use crate::half::product;
use s2polygon::Direction;

/// How near the straight line between the ends of an edge may come to the center of the sphere, of the 2^31 - 1 that
/// its ends are away.
pub const HEIGHT: u64 = 1 << 29;

/// The sum of two coordinates.
fn sum(a: i64, b: i64) -> i64
    requires a { unsigned_abs a < 2 ^ 31 }
    requires b { unsigned_abs b < 2 ^ 31 }
    ensures { result ≡ a +ℤ b }
{
    a + b
}

/// The products of an edge's ends and their sum, of which the sizes of the coordinates are added up.
#[derive(Drop)]
struct Reach {
    /// The product of the end where it begins.
    a: i128,
    /// The product of the other end.
    b: i128,
    /// The sizes.
    sizes: u64,
}

/// How far the straight line between two directions reaches along their sum.
#[tactic(none)]
fn reach_of(p: Direction, q: Direction) -> Reach
    requires p { IsDirection p }
    requires q { IsDirection q }
    ensures a { result.a ≡ product_of (sum_of p q) p }
    ensures b { result.b ≡ product_of (sum_of p q) q }
    ensures sizes { result.sizes ≡ sizes_of (sum_of p q) }
    ensures small { result.sizes ≤ 3 * 2 ^ 32 }
{
    let x = sum(p.x(), q.x());
    let y = sum(p.y(), q.y());
    let z = sum(p.z(), q.z());
    Reach {
        a: product(x, y, z, p),
        b: product(x, y, z, q),
        sizes: x.unsigned_abs() + y.unsigned_abs() + z.unsigned_abs(),
    }
}

/// Whether the straight line between two directions stays clear of the center.
#[tactic(none)]
fn stays_clear(p: Direction, q: Direction) -> bool
    requires p { IsDirection p }
    requires q { IsDirection q }
    ensures { IsTrue result ↔ StaysClear HEIGHT (record { a = p; b = q }) }
{
    let at = reach_of(p, q);
    let least = i128::from(HEIGHT * at.sizes);
    if at.sizes == 0 || at.a < least {
        return false;
    }
    least <= at.b
}

/// Whether an edge is short.
#[tactic(none)]
fn is_short(a: Direction, b: Direction) -> bool
    ensures { IsTrue result ↔ IsShort (record { a = a; b = b }) }
{
    let Ok(p) = Direction::new(a.x(), a.y(), a.z()) else {
        return false;
    };
    let Ok(q) = Direction::new(b.x(), b.y(), b.z()) else {
        return false;
    };
    stays_clear(p, q)
}

/// The first corner from which it is too far to the next, in the ring of the corners from `from` up to `end`.
fn long_in(corners: &[Direction], from: usize, end: usize) -> Option<usize>
    requires from { from < end }
    requires end { end ≤ length corners.now }
    ensures none { IfNone result (AreShort corners.now from end (end - from)) }
    ensures some { IfSome result (IsLongIn corners.now from end) }
{
    for i in from..end {
        let next = if i + 1 == end { from } else { i + 1 };
        if !is_short(corners[i], corners[next]) {
            return Some(i);
        }
    }
    None
}

/// The first corner from which it is too far to the next of its ring.
pub(crate) fn long_edge(corners: &[Direction], ends: &[usize]) -> Option<usize>
    requires { AreRings corners.now ends.now }
    ensures none { IfNone result (All IsShort (rings_edges corners.now ends.now (length ends.now))) }
    ensures some { IfSome result (IsLongEdge corners.now ends.now) }
{
    let mut from = 0;
    for ring in 0..ends.len() {
        let end = ends[ring];
        if let Some(i) = long_in(corners, from, end) {
            return Some(i);
        }
        from = end;
    }
    None
}

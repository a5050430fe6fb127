//! A leaf that lies outside: opposite all corners.
ghost use Rattle.std.specs.Prelude.{◌≡◌, ◌↔◌, ◌<◌, ◌≤◌, ◌^◌, ◌*ℤ◌, IfNone, IfSome, IsTrue, unsigned_abs};
ghost use Rattle.s2cell.specs.Cell.{first_leaf, level_of};
ghost use Rattle.s2geodesic.specs.Halves.{AreSpread, IsBehind, LieBefore, LiesOpposite};
ghost use Rattle.s2geodesic.specs.Working.Places.{IsFarLeaf, IsFarthest, sign_at};
ghost use Rattle.s2polygon.specs.Moves.{product_of};

use s2cell::{CellId, GREATEST_LEVEL, LEAVES, SIDE};
use s2polygon::Direction;

/// How many planes are tried: those whose normals have -1, 0 or 1 as coordinates.
const TRIES: u8 = 27;

/// The product of a normal and a corner.
pub(crate) fn product(x: i64, y: i64, z: i64, corner: Direction) -> i128
    requires x { unsigned_abs x ≤ 2 ^ 62 }
    requires y { unsigned_abs y ≤ 2 ^ 62 }
    requires z { unsigned_abs z ≤ 2 ^ 62 }
    ensures { result ≡ product_of (record { x = x; y = y; z = z }) corner }
{
    times(x, corner.x()) + times(y, corner.y()) + times(z, corner.z())
}

/// The product of a coordinate of a normal and one of a corner.
fn times(a: i64, b: i64) -> i128
    ensures { result ≡ a *ℤ b }
{
    a as i128 * b as i128
}

/// Whether all corners lie before the plane with this normal.
fn lie_before(x: i64, y: i64, z: i64, corners: &[Direction]) -> bool
    requires x { unsigned_abs x ≤ 1 }
    requires y { unsigned_abs y ≤ 1 }
    requires z { unsigned_abs z ≤ 1 }
    ensures { IsTrue result ↔ LieBefore (record { x = x; y = y; z = z }) corners.now }
{
    for corner in corners {
        if product(x, y, z, *corner) <= 0 {
            return false;
        }
    }
    true
}

/// The place of a leaf along a side of a face that is farthest behind a plane, by the normal's coordinate along it.
fn farthest(n: i64) -> u32
    requires { unsigned_abs n ≤ 1 }
    ensures place { IsFarthest n result }
    ensures most { result < SIDE }
{
    if n > 0 {
        0
    } else if n == 0 {
        SIDE / 2
    } else {
        SIDE - 1
    }
}

/// The leaf of a face that is farthest behind a plane, by the normal's coordinates along rows and columns.
fn leaf_behind(face: u8, u: i64, v: i64) -> CellId
    requires face { face < 6 }
    requires u { unsigned_abs u ≤ 1 }
    requires v { unsigned_abs v ≤ 1 }
    ensures leaf { level_of result ≡ GREATEST_LEVEL }
    ensures below { first_leaf result < LEAVES }
    ensures far { IsFarLeaf face u v (first_leaf result) }
{
    CellId::from_face_ij(face, farthest(u), farthest(v))
}

/// A leaf behind the plane with this normal.
fn leaf_opposite(x: i64, y: i64, z: i64) -> CellId
    requires x { unsigned_abs x ≤ 1 }
    requires y { unsigned_abs y ≤ 1 }
    requires z { unsigned_abs z ≤ 1 }
    ensures leaf { level_of result ≡ GREATEST_LEVEL }
    ensures below { first_leaf result < LEAVES }
    ensures behind { IsBehind (record { x = x; y = y; z = z }) (2 ^ 60) (first_leaf result) }
{
    if x < 0 {
        leaf_behind(0, y, z)
    } else if y < 0 {
        leaf_behind(1, -x, z)
    } else if z < 0 {
        leaf_behind(2, -x, -y)
    } else if x > 0 {
        leaf_behind(3, -z, -y)
    } else if y > 0 {
        leaf_behind(4, -z, x)
    } else {
        leaf_behind(5, y, x)
    }
}

/// -1, 0 or 1, by number.
fn sign(t: u8) -> i64
    requires { t < 3 }
    ensures value { result ≡ sign_at t }
    ensures small { unsigned_abs result ≤ 1 }
{
    i64::from(t) - 1
}

/// A leaf opposite all corners: they lie before a plane through the center of the sphere, none on it, and the leaf lies
/// behind it, also if its square is widened by the greatest margin. No edge between such corners touches the leaf, or
/// any other behind that plane (`law_of_halves`), so it may be the leaf outside of a polygon with these corners.
///
/// None if the corners are too far apart: of the 26 planes whose normals have -1, 0 or 1 as coordinates, none has all
/// of them before it. Planes of other directions aren't tried. Corners within 62 degrees of a place are never too far
/// apart.
///
/// Each corner is looked at 27 times at most. S2: a loop has its inside on the left, and this asks for no direction.
pub fn outside_of(corners: &[Direction]) -> Option<CellId>
    ensures leaf { IfSome result (λ leaf. level_of leaf ≡ GREATEST_LEVEL) }
    ensures below { IfSome result (λ leaf. first_leaf leaf < LEAVES) }
    ensures opposite { IfSome result (λ leaf. LiesOpposite corners.now (first_leaf leaf)) }
    ensures spread { IfNone result (AreSpread corners.now) }
{
    for k in 0..TRIES {
        let x = sign(k / 9);
        let y = sign(k / 3 % 3);
        let z = sign(k % 3);
        if lie_before(x, y, z, corners) {
            return Some(leaf_opposite(x, y, z));
        }
    }
    None
}

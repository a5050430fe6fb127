//! Rectangles rounded to the grid of a level, so that their sides are sides of its cells.
ghost use Rattle.std.specs.Prelude.{◌≡◌, ◌+◌, ◌-◌, ◌*◌, ◌/◌, ◌^◌, ◌<◌, ◌≤◌, ℕ, false, IfSome};
ghost use Rattle.std.specs.Prelude.{None};
ghost use Rattle.s2cell.specs.Rectangles.{rect_set};
ghost use Rattle.s2cover.specs.Coverings.{inner_set, outer_set};
ghost use Rattle.s2cover.specs.Working.Descent.{IsAligned};

use s2cell::{FaceRect, GREATEST_LEVEL, SIDE};

/// The rectangle rounded outward: the leaves of all cells of the level that share a leaf with it.
pub(crate) fn round_outward(rect: &FaceRect, level: u8) -> FaceRect
    requires { level ≤ GREATEST_LEVEL }
    ensures leaves { (x : ℕ) → rect_set result x ≡ outer_set (rect_set rect.now) level x }
    ensures aligned { IsAligned (rect_set result) (30 - level) }
{
    let side = side_of(level);
    FaceRect {
        face: rect.face,
        i0: round_down(rect.i0, side),
        i1: round_down(rect.i1, side) + (side - 1),
        j0: round_down(rect.j0, side),
        j1: round_down(rect.j1, side) + (side - 1),
    }
}

/// The rectangle rounded inward: the leaves of all cells of the level that lie inside it. None if there is no such
/// cell.
pub(crate) fn round_inward(rect: &FaceRect, level: u8) -> Option<FaceRect>
    requires { level ≤ GREATEST_LEVEL }
    ensures leaves { IfSome result (λ r. (x : ℕ) → rect_set r x ≡ inner_set (rect_set rect.now) level x) }
    ensures aligned { IfSome result (λ r. IsAligned (rect_set r) (30 - level)) }
    ensures none { result ≡ None → (x : ℕ) → inner_set (rect_set rect.now) level x ≡ false }
{
    let side = side_of(level);
    let i0 = round_down(rect.i0 + (side - 1), side);
    let i_end = round_down(rect.i1 + 1, side);
    let j0 = round_down(rect.j0 + (side - 1), side);
    let j_end = round_down(rect.j1 + 1, side);
    if i0 < i_end && j0 < j_end {
        Some(FaceRect {
            face: rect.face,
            i0,
            i1: i_end - 1,
            j0,
            j1: j_end - 1,
        })
    } else {
        None
    }
}

/// The greatest multiple of `side` up to a coordinate.
fn round_down(coordinate: u32, side: u32) -> u32
    requires { 0 < side }
    ensures value { result ≡ coordinate / side * side }
    ensures most { result ≤ coordinate }
{
    coordinate / side * side
}

/// The length of the side of a cell of the level.
fn side_of(level: u8) -> u32
    requires { level ≤ GREATEST_LEVEL }
    ensures value { result ≡ 2 ^ (30 - level) }
    ensures some { 0 < result }
    ensures most { result ≤ SIDE }
{
    1 << (30 - level)
}

//! The few cells around a rectangle.
ghost use Rattle.std.specs.Prelude.{◌-◌, ◌^◌, ◌<◌, ◌≤◌, max};
ghost use Rattle.s2cell.specs.Rectangles.{rect_set};
ghost use Rattle.s2list.specs.Union.{IsWithin, has_leaf};
ghost use Rattle.s2cover.specs.Working.Around.{CoversSquare};

use s2cell::{CellId, FaceRect, GREATEST_LEVEL, SIDE};

/// Four cells of a level that have all leaves of a rectangle, in order: those that have its corners, at the deepest
/// level whose cells are at least as wide as it is long. Some may be the same.
pub(crate) fn cells_around(rect: &FaceRect) -> [CellId; 4]
    ensures { IsWithin (rect_set rect.now) (has_leaf result) }
{
    let level = level_around(rect);
    let mut around = [
        corner(rect.face, rect.i0, rect.j0, level),
        corner(rect.face, rect.i0, rect.j1, level),
        corner(rect.face, rect.i1, rect.j0, level),
        corner(rect.face, rect.i1, rect.j1, level),
    ];
    around.sort_unstable();
    around
}

/// The deepest level whose cells are at least as wide as the rectangle is long, so that it lies in two of them along
/// each side.
fn level_around(rect: &FaceRect) -> u8
    ensures level { result ≤ GREATEST_LEVEL }
    ensures wide { max (rect.now.i1 - rect.now.i0) (rect.now.j1 - rect.now.j0) < 2 ^ (30 - result) }
    ensures deepest { result < 30
        → 2 ^ (29 - result) ≤ max (rect.now.i1 - rect.now.i0) (rect.now.j1 - rect.now.j0) }
{
    let steps = (rect.i1 - rect.i0).max(rect.j1 - rect.j0);
    (steps.leading_zeros() - 2) as u8
}

/// The cell of a level that has the leaf at a place of a face.
fn corner(face: u8, i: u32, j: u32, level: u8) -> CellId
    requires face { face < 6 }
    requires i { i < SIDE }
    requires j { j < SIDE }
    requires level { level ≤ GREATEST_LEVEL }
    ensures { CoversSquare result face (30 - level) i j }
{
    CellId::from_face_ij(face, i, j).parent(level)
}

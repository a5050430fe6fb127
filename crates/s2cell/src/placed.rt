//! Cells with their squares, for walks down through the cells.

ghost use Rattle.std.specs.Prelude.{◌≡◌, ◌+◌, ◌<◌};
ghost use Rattle.s2cell.specs.Cell.{level_of, child_of, face_of};
ghost use Rattle.s2cell.specs.Square.{IsPlacedCell};

use crate::{CellId, GREATEST_LEVEL, SIDE, Square, tables};

/// A cell with its square, and the orientation at which the curve enters it.
///
/// A walk that needs the square of each cell on its way carries square and orientation down: a child's follow from its
/// parent's in a few steps, while `CellId::square` goes down from the face each time. `S2PaddedCell` does the same.
#[derive(Clone, Copy, PartialEq, Eq, Debug)]
pub struct PlacedCell {
    /// The cell.
    pub cell: CellId,
    /// Its square.
    pub square: Square,
    /// Its orientation, 0 to 3.
    pub orientation: u8,
}

impl PlacedCell {
    /// A face, 0 to 5, with its square.
    pub fn face(face: u8) -> PlacedCell
        requires { face < 6 }
        ensures placed { IsPlacedCell result }
        ensures level { level_of result.cell ≡ 0 }
        ensures face { face_of result.cell ≡ face }
    {
        PlacedCell {
            cell: CellId {
                id: (2 * u64::from(face) + 1) << 60,
            },
            square: Square {
                face,
                i: 0,
                j: 0,
                size: SIDE,
            },
            orientation: face % 2,
        }
    }

    /// The child with the number `p`, 0 to 3 along the curve, with its square. The cell must not be a leaf.
    pub fn child(self, p: u8) -> PlacedCell
        requires placed { IsPlacedCell self }
        requires inner { level_of self.cell < GREATEST_LEVEL }
        requires place { p < 4 }
        ensures cell { result.cell ≡ child_of self.cell p }
        ensures level { level_of result.cell ≡ level_of self.cell + 1 }
        ensures placed { IsPlacedCell result }
    {
        let step = tables::place_step(16 * u32::from(self.orientation), u32::from(p));
        let quadrant = tables::held_by(step);
        let shift = tables::next_shift(step);
        let half = self.square.size / 2;
        PlacedCell {
            cell: self.cell.child(p),
            square: Square {
                face: self.square.face,
                i: self.square.i + half * (quadrant / 2),
                j: self.square.j + half * (quadrant % 2),
                size: half,
            },
            orientation: (shift / 16) as u8,
        }
    }
}

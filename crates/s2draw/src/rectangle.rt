//! The rectangle of a cell in the picture.
ghost use Rattle.std.specs.Prelude.{◌≡◌, ◌≤◌};
ghost use Rattle.s2cell.specs.Cell.{level_of};
ghost use Rattle.s2draw.specs.Rectangles.{left_of, top_of, side_of};

use s2cell::CellId;

/// The deepest level that is drawn. The side of a cell of this level has two units, so that its middle is a whole
/// number. The side of a face has 1024, and a picture has four faces side by side.
pub(crate) const DEEPEST: u8 = 9;

/// The rectangle of a cell, in units of the picture.
#[derive(Clone, Copy)]
pub(crate) struct Shape {
    /// From the left of the picture to the left of the rectangle.
    pub left: u32,
    /// From the top of the picture to the top of the rectangle.
    pub top: u32,
    /// Its width and its height.
    pub side: u32,
}

/// The rectangle of a cell that can be seen.
pub(crate) fn rectangle_of(cell: CellId) -> Shape
    requires { level_of cell ≤ 9 }
    ensures left { result.left ≡ left_of cell }
    ensures top { result.top ≡ top_of cell }
    ensures side { result.side ≡ side_of cell }
    ensures within { (result.left ≤ 4096) × (result.top ≤ 3072) × (result.side ≤ 1024) }
{
    let _ = cell.id();
    let square = cell.square();
    let face = u32::from(square.face);
    Shape {
        left: 1024 * ((face + 1) / 2) + (square.i >> 20),
        top: 1024 * (3 - face / 2) - ((square.j + square.size) >> 20),
        side: square.size >> 20,
    }
}

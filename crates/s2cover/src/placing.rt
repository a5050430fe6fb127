//! The square and the orientation of any cell.
ghost use Rattle.std.specs.Prelude.{◌≡◌, ◌%◌, ◌<◌};
ghost use Rattle.s2cell.specs.Cell.{place_of};
ghost use Rattle.s2cell.specs.Square.{IsPlacedCell};

use s2cell::{CellId, PlacedCell};

/// A cell with its square, by a walk down from its face.
pub(crate) fn placed_cell(cell: CellId) -> PlacedCell
    ensures placed { IsPlacedCell result }
    ensures cell { result.cell ≡ cell }
{
    let _ = cell.id();
    let level = cell.level();
    if level == 0 {
        PlacedCell::face(cell.face())
    } else {
        placed_cell(cell.parent(level - 1)).child(number(cell))
    }
}

/// The number of a cell among the children of its parent.
fn number(cell: CellId) -> u8
    ensures value { result ≡ place_of cell % 4 }
    ensures most { result < 4 }
{
    let place = cell.id() >> (61 - 2 * u32::from(cell.level()));
    (place % 4) as u8
}

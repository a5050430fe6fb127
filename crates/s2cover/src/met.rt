//! The cells of a list that have a leaf in a rectangle.
ghost use Rattle.std.specs.Prelude.{◌≡◌, ◌+◌, ◌^◌, ◌<◌, ◌≤◌, ◌++◌, ◌&&◌, All, length, take, drop, OnOk};
ghost use Rattle.s2cell.specs.Cell.{IsCell};
ghost use Rattle.s2cell.specs.Rectangles.{rect_set};
ghost use Rattle.s2cover.specs.Cut.{cells_kept, reaches};
ghost use Rattle.s2cover.specs.Working.Cut.{cells_met, meets};

use crate::looks::{Looks, look};
use crate::region::Part;
use s2cell::{CellId, FaceRect};
use s2list::Cells;
use std::alloc::AllocError;

/// Adds to a list those of the `count` numbers from index `first` on that are cells down to the level with a leaf in
/// the rectangle.
pub(crate) fn add_met<C: Cells>(
    cells: &C,
    first: usize,
    count: usize,
    level: u8,
    rect: &FaceRect,
    looks: &mut Looks,
    list: &mut Vec<CellId>,
) -> Result<(), AllocError>
    requires within { first + count ≤ length (C.ids cells.now) }
    requires looks { looks.old.count + count < 2 ^ 64 }
    ensures list { All IsCell (C.ids cells.now) → OnOk result (list.new.items ≡ list.old.items
        ++ cells_met (rect_set rect.now) (cells_kept level (take count (drop first (C.ids cells.now))))) }
    ensures most { looks.new.count ≤ looks.old.count + count }
{
    let _ = cells.len();
    for k in 0..count {
        if let Some(cell) = CellId::from_id(cells.id(first + k)) {
            if is_met(cell, level, rect, looks) {
                list.push(cell)?;
            }
        }
    }
    Ok(())
}

/// Whether the cell is not deeper than the level and has a leaf in the rectangle.
fn is_met(cell: CellId, level: u8, rect: &FaceRect, looks: &mut Looks) -> bool
    requires looks { looks.old.count + 1 < 2 ^ 64 }
    ensures value { result ≡ (reaches level cell && meets (rect_set rect.now) cell) }
    ensures most { looks.new.count ≤ looks.old.count + 1 }
{
    if cell.level() > level {
        return false;
    }
    meets_rect(cell, rect, looks)
}

/// Whether a leaf of the cell is in the rectangle.
fn meets_rect(cell: CellId, rect: &FaceRect, looks: &mut Looks) -> bool
    requires looks { looks.old.count + 1 < 2 ^ 64 }
    ensures value { result ≡ meets (rect_set rect.now) cell }
    ensures count { looks.new.count ≡ looks.old.count + 1 }
{
    match look(rect, cell.square(), looks) {
        Part::Out => false,
        Part::In => true,
        Part::Cross => true,
    }
}

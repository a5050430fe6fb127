//! The cells of a union that share a leaf with a cell.
ghost use Rattle.std.specs.Prelude.{◌+◌, ◌≤◌, length};
ghost use Rattle.s2cell.specs.Cell.{first_leaf};
ghost use Rattle.s2list.specs.Union.{IsLocal};
ghost use Rattle.s2list.specs.Packed.{IsPlace};
ghost use Rattle.s2list.specs.Search.{IsRunAt};

use crate::ask::begins_at;
use crate::cells::Cells;
use crate::find::find;
use crate::looks::Uncounted;
use s2cell::CellId;

/// The cells of a union that share a leaf with the cell: the index of the first, and how many there are. They follow
/// each other in the union. If there are none, the index is the one where such a cell would stand. Of numbers that are
/// not a union these are some numbers of the list. Logarithmic.
pub fn cells_at<C: Cells>(cells: &C, cell: CellId) -> (usize, usize)
    ensures within { result.0 + result.1 ≤ length (C.ids cells.now) }
    ensures place { IsLocal (C.ids cells.now) → IsPlace (C.ids cells.now) (first_leaf cell) result.0 }
    ensures run { IsLocal (C.ids cells.now) → IsRunAt (C.ids cells.now) cell result.0 result.1 }
{
    let first = find(cells, cell.first_leaf());
    let mut end = find(cells, cell.end_leaf());
    if end < cells.len() && begins_at(cells, end, cell.end_leaf(), &mut Uncounted) {
        end += 1;
    }
    (first, end.saturating_sub(first))
}

//! Whether cells, wherever they lie in memory, have the leaves of a cell.
ghost use Rattle.std.specs.Prelude.{◌+◌, ◌-◌, ◌^◌, ◌<◌, ◌≤◌, ◌↔◌, IsTrue, All, min, length, slice_index};
ghost use Rattle.s2cell.specs.Cell.{IsCell, covers, first_leaf};
ghost use Rattle.s2list.specs.Union.{IsLocal, IsWithin, ShareSome, has_leaf};
ghost use Rattle.s2list.specs.Packed.{IsPlace};
ghost use Rattle.s2list.specs.Looks.{FewForCell};

use crate::cells::Cells;
use crate::find::{find_counted, first_of};
use crate::looks::{Count, LookedAt, Uncounted};
use crate::walk::lies_in;
use s2cell::CellId;

/// Whether a union has all leaves of the cell. Logarithmic.
pub fn contains_cell<C: Cells>(cells: &C, cell: CellId) -> bool
    ensures { IsLocal (C.ids cells.now) → (IsTrue result ↔ IsWithin (covers cell) (has_leaf (C.ids cells.now))) }
{
    contains_cell_counted(cells, cell, &mut Uncounted)
}

/// The same, counted: at most `k + 3` looks if there are at most `2^k` numbers, and at least one if there is one.
#[inline(always)]
pub fn contains_cell_counted<C: LookedAt<K>, K: Count>(
    cells: &C,
    cell: CellId,
    count: &mut K,
) -> bool
    ensures answer { IsLocal (C.ids cells.now)
        → (IsTrue result ↔ IsWithin (covers cell) (has_leaf (C.ids cells.now))) }
    ensures looks { FewForCell (length (C.ids cells.now)) (K.looks count.new - K.looks count.old) }
    ensures least { min (K.looks count.old) K.most ≤ K.looks count.new }
    ensures some { 0 < length (C.ids cells.now) → min (K.looks count.old + 1) K.most ≤ K.looks count.new }
{
    let at = find_counted(cells, cell.first_leaf(), count);
    contains_cell_at_counted(cells, at, cell, count)
}

/// Whether a union has a leaf of the cell. Logarithmic.
pub fn intersects_cell<C: Cells>(cells: &C, cell: CellId) -> bool
    ensures { IsLocal (C.ids cells.now) → (IsTrue result ↔ ShareSome (covers cell) (has_leaf (C.ids cells.now))) }
{
    intersects_cell_counted(cells, cell, &mut Uncounted)
}

/// The same, counted, with the bounds of `contains_cell_counted`.
#[inline(always)]
pub fn intersects_cell_counted<C: LookedAt<K>, K: Count>(
    cells: &C,
    cell: CellId,
    count: &mut K,
) -> bool
    ensures answer { IsLocal (C.ids cells.now)
        → (IsTrue result ↔ ShareSome (covers cell) (has_leaf (C.ids cells.now))) }
    ensures looks { FewForCell (length (C.ids cells.now)) (K.looks count.new - K.looks count.old) }
    ensures least { min (K.looks count.old) K.most ≤ K.looks count.new }
    ensures some { 0 < length (C.ids cells.now) → min (K.looks count.old + 1) K.most ≤ K.looks count.new }
{
    let at = find_counted(cells, cell.first_leaf(), count);
    intersects_cell_at_counted(cells, at, cell, count)
}

/// Whether a union has all leaves of the cell, once its index is known.
#[inline(always)]
pub fn contains_cell_at<C: Cells>(cells: &C, at: usize, cell: CellId) -> bool
    ensures { IsLocal (C.ids cells.now) → IsPlace (C.ids cells.now) (first_leaf cell) at
        → (IsTrue result ↔ IsWithin (covers cell) (has_leaf (C.ids cells.now))) }
{
    contains_cell_at_counted(cells, at, cell, &mut Uncounted)
}

/// The same, counted.
#[inline(always)]
pub fn contains_cell_at_counted<C: LookedAt<K>, K: Count>(
    cells: &C,
    at: usize,
    cell: CellId,
    count: &mut K,
) -> bool
    ensures answer { IsLocal (C.ids cells.now) → IsPlace (C.ids cells.now) (first_leaf cell) at
        → (IsTrue result ↔ IsWithin (covers cell) (has_leaf (C.ids cells.now))) }
    ensures looks { K.looks count.new ≤ K.looks count.old + 1 }
    ensures least { min (K.looks count.old) K.most ≤ K.looks count.new }
{
    if at >= cells.len() {
        return false;
    }
    lies_in(cell.id(), cells.look(at, count))
}

/// Whether a union has a leaf of the cell, once its index is known.
#[inline(always)]
pub fn intersects_cell_at<C: Cells>(cells: &C, at: usize, cell: CellId) -> bool
    ensures { IsLocal (C.ids cells.now) → IsPlace (C.ids cells.now) (first_leaf cell) at
        → (IsTrue result ↔ ShareSome (covers cell) (has_leaf (C.ids cells.now))) }
{
    intersects_cell_at_counted(cells, at, cell, &mut Uncounted)
}

/// The same, counted.
#[inline(always)]
pub fn intersects_cell_at_counted<C: LookedAt<K>, K: Count>(
    cells: &C,
    at: usize,
    cell: CellId,
    count: &mut K,
) -> bool
    ensures answer { IsLocal (C.ids cells.now) → IsPlace (C.ids cells.now) (first_leaf cell) at
        → (IsTrue result ↔ ShareSome (covers cell) (has_leaf (C.ids cells.now))) }
    ensures looks { K.looks count.new ≤ K.looks count.old + 1 }
    ensures least { min (K.looks count.old) K.most ≤ K.looks count.new }
{
    begins_at(cells, at, cell.end_leaf(), count)
}

/// Whether there is a number at index `at`, and its cell begins before the leaf `end`.
#[inline(always)]
pub fn begins_at<C: LookedAt<K>, K: Count>(cells: &C, at: usize, end: u64, count: &mut K) -> bool
    ensures answer { All IsCell (C.ids cells.now)
        → (IsTrue result ↔ (at < length (C.ids cells.now) × first_leaf (slice_index (C.ids cells.now) at) < end)) }
    ensures within { IsTrue result → at < length (C.ids cells.now) }
    ensures fits { IsTrue result → at + 1 < 2 ^ 64 }
    ensures looks { K.looks count.new ≤ K.looks count.old + 1 }
    ensures least { min (K.looks count.old) K.most ≤ K.looks count.new }
{
    if at >= cells.len() {
        return false;
    }
    first_of(cells.look(at, count)) < end
}

//! What comes next of a list on a walk along two: the leaves of its next cell, or a stretch of cells before the next
//! cell of the other list, which an operation may copy whole.
ghost use Rattle.std.specs.Prelude.{◌≡◌, ◌+◌, ◌-◌, ◌^◌, ◌<◌, ◌≤◌, ℕ, IsTrue, length, slice_index, true, false};
ghost use Rattle.s2cell.specs.Cell.{IsCell, first_leaf, size_of};
ghost use Rattle.s2list.specs.Union.{IsLocal, has_leaf};
ghost use Rattle.s2list.specs.Packed.{FirstEndBy};

use crate::cells::Cells;
use crate::find::{end_of, find_from, first_of};
use s2cell::LEAVES;

/// The end of the leaves of cells that there are not, which no cell reaches.
pub(crate) const NEVER: u64 = u64::MAX;

/// The leaves from `first` to before `end`.
#[derive(Clone, Copy)]
pub(crate) struct Piece {
    pub(crate) first: u64,
    pub(crate) end: u64,
}

/// How many cells a run has at least, before it is looked for.
pub(crate) const SHORTEST_RUN: usize = 8;

/// The index before which a run of cells ends that begins at the index `i`, after the leaf `done`: there is a leaf
/// between its last cell and the next one, and between its last cell and the leaf `mark`. Or `i`, if no such run is
/// found.
#[inline(always)]
pub(crate) fn run_to<C: Cells>(cells: &C, i: usize, done: u64, mark: u64) -> usize
    ensures within { i < result → result ≤ length (C.ids cells.now) }
    ensures apart { IsLocal (C.ids cells.now) → i < result → done < first_leaf (slice_index (C.ids cells.now) i) }
    ensures cut { IsLocal (C.ids cells.now) → i < result → result < length (C.ids cells.now)
        → first_leaf (slice_index (C.ids cells.now) (result - 1)) + size_of (slice_index (C.ids cells.now) (result - 1))
        < first_leaf (slice_index (C.ids cells.now) result) }
    ensures mark { IsLocal (C.ids cells.now) → i < result
        → first_leaf (slice_index (C.ids cells.now) (result - 1)) + size_of (slice_index (C.ids cells.now) (result - 1))
        < mark }
{
    if cells.len().saturating_sub(i) <= SHORTEST_RUN
        || mark <= first_of(cells.id(i + SHORTEST_RUN))
    {
        return i;
    }
    if first_of(cells.id(i)) <= done {
        return i;
    }
    cut_before(cells, i, mark)
}

/// As `run_to`, for more than `SHORTEST_RUN` cells.
fn cut_before<C: Cells>(cells: &C, i: usize, mark: u64) -> usize
    requires there { i + SHORTEST_RUN < length (C.ids cells.now) }
    requires fits { i + SHORTEST_RUN < 2 ^ 64 }
    ensures within { result ≤ length (C.ids cells.now) }
    ensures cut { IsLocal (C.ids cells.now) → i < result → result < length (C.ids cells.now)
        → first_leaf (slice_index (C.ids cells.now) (result - 1)) + size_of (slice_index (C.ids cells.now) (result - 1))
        < first_leaf (slice_index (C.ids cells.now) result) }
    ensures mark { IsLocal (C.ids cells.now) → i < result
        → first_leaf (slice_index (C.ids cells.now) (result - 1)) + size_of (slice_index (C.ids cells.now) (result - 1))
        < mark }
{
    if mark == NEVER {
        return cells.len();
    }
    let mut stop = find_from(cells, i + SHORTEST_RUN, mark);
    while i < stop {
        if is_cut(cells, stop, mark) {
            return stop;
        }
        stop = i + (stop - i) / 2;
    }
    i
}

/// Whether the cell before the place `stop` ends before the leaf `mark`, and before the cell at that place begins.
fn is_cut<C: Cells>(cells: &C, stop: usize, mark: u64) -> bool
    requires some { 0 < stop }
    requires within { stop ≤ length (C.ids cells.now) }
    ensures mark { IsTrue result → IsCell (slice_index (C.ids cells.now) (stop - 1))
        → first_leaf (slice_index (C.ids cells.now) (stop - 1)) + size_of (slice_index (C.ids cells.now) (stop - 1))
        < mark }
    ensures cut { IsTrue result → IsCell (slice_index (C.ids cells.now) (stop - 1))
        → stop < length (C.ids cells.now) → IsCell (slice_index (C.ids cells.now) stop)
        → first_leaf (slice_index (C.ids cells.now) (stop - 1)) + size_of (slice_index (C.ids cells.now) (stop - 1))
        < first_leaf (slice_index (C.ids cells.now) stop) }
{
    let end = end_of(cells.id(stop - 1));
    if mark <= end {
        return false;
    }
    if cells.len() <= stop {
        return true;
    }
    let next = first_of(cells.id(stop));
    end < next
}

/// The leaves from `done` on of the cell at index `i`, if there is one; else none, after all others.
#[inline(always)]
pub(crate) fn rest_of<C: Cells>(cells: &C, i: usize, done: u64) -> Piece
    ensures first { done ≤ result.first }
    ensures free { IsLocal (C.ids cells.now) → FirstEndBy (C.ids cells.now) i done
        → (x : ℕ) → done ≤ x → x < result.first → has_leaf (C.ids cells.now) x ≡ false }
    ensures taken { IsLocal (C.ids cells.now) → (x : ℕ) → result.first ≤ x → x < result.end
        → has_leaf (C.ids cells.now) x ≡ true }
    ensures ended { IsLocal (C.ids cells.now) → i < length (C.ids cells.now)
        → FirstEndBy (C.ids cells.now) i done → (lo : ℕ) → done ≤ lo → result.end ≤ lo
        → FirstEndBy (C.ids cells.now) (i + 1) lo }
    ensures within { IsLocal (C.ids cells.now) → i < length (C.ids cells.now) → result.end ≤ LEAVES }
    ensures last { length (C.ids cells.now) ≤ i → result.end ≡ NEVER }
{
    if i < cells.len() {
        let id = cells.id(i);
        return Piece {
            first: first_of(id).max(done),
            end: end_of(id),
        };
    }
    Piece {
        first: NEVER,
        end: NEVER,
    }
}

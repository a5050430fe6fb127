//! Whether a union has the leaves of a cell, by the cell's number alone: it has all of them if the number is at most
//! that of the last leaf of the last cell below it, or at least that of the first leaf of the cell from it on, and only
//! then. So the place only goes up while the numbers do.
ghost use Rattle.std.specs.Prelude.{◌≡◌, ◌+◌, ◌-◌, ◌*◌, ◌/◌, ◌^◌, ◌<◌, ◌≤◌, ◌↔◌};
ghost use Rattle.std.specs.Prelude.{ℕ, IsTrue, List, length, slice_index};
ghost use Rattle.s2cell.specs.Cell.{IsCell, covers, first_leaf, size_of};
ghost use Rattle.s2list.specs.Union.{IsLocal, IsWithin, ShareSome, has_leaf};
ghost use Rattle.s2list.specs.Packed.{FirstEndBy, IsPacked};
ghost use Rattle.s2list.specs.Search.{Brackets};
ghost use Rattle.s2list.specs.Gaps.{IsGap};

use crate::cells::Cells;
use crate::find::{end_of, find_id_among_few, find_id_from, first_of};

/// A gap between two numbers of a list in order. A number lies in it if it is above the one and at most the other.
#[derive(Clone, Copy)]
pub struct Gap {
    /// How many numbers come before the gap.
    pub at: usize,
    /// The last of these, or 0.
    pub below: u64,
    /// The number after the gap, or the greatest of 64 bits.
    pub ahead: u64,
    /// Twice the leaf by which the cell before the gap ends, or 0.
    pub held: u64,
    /// Twice the first leaf of the cell after the gap, or the greatest number of 64 bits.
    pub next: u64,
}

/// The gap after the first `at` numbers, or after all if there are fewer.
#[inline(always)]
pub fn gap_at<C: Cells>(cells: &C, at: usize) -> Gap
    ensures gap { IsGap (C.ids cells.now) result }
    ensures at { at ≤ length (C.ids cells.now) → result.at ≡ at }
{
    let at = at.min(cells.len());
    let (below, held) = before_gap(cells, at);
    let (ahead, next) = after_gap(cells, at);
    Gap {
        at,
        below,
        ahead,
        held,
        next,
    }
}

/// The number before the gap at index `at`, and twice the leaf by which its cell ends.
#[inline(always)]
fn before_gap<C: Cells>(cells: &C, at: usize) -> (u64, u64)
    requires { at ≤ length (C.ids cells.now) }
    ensures below { 0 < at → result.0 ≡ slice_index (C.ids cells.now) (at - 1) }
    ensures held { 0 < at → IsCell (slice_index (C.ids cells.now) (at - 1)) → result.1
        ≡ 2 * (first_leaf (slice_index (C.ids cells.now) (at - 1)) + size_of (slice_index (C.ids cells.now) (at - 1))) }
    ensures none { at ≡ 0 → result.1 ≡ 0 }
{
    if cells.len() == 0 {
        return (0, 0);
    }
    // Read in any case, so that there is no branch on where the gap is.
    let id = cells.id(at.saturating_sub(1));
    let held = end_of(id).saturating_mul(2);
    if at == 0 { (0, 0) } else { (id, held) }
}

/// The number after the gap at index `at`, and twice the first leaf of its cell.
#[inline(always)]
fn after_gap<C: Cells>(cells: &C, at: usize) -> (u64, u64)
    ensures ahead { at < length (C.ids cells.now) → result.0 ≡ slice_index (C.ids cells.now) at }
    ensures next { at < length (C.ids cells.now) → IsCell (slice_index (C.ids cells.now) at)
        → result.1 ≡ 2 * first_leaf (slice_index (C.ids cells.now) at) }
    ensures no_ahead { length (C.ids cells.now) ≤ at → result.0 ≡ 2 ^ 64 - 1 }
    ensures no_next { length (C.ids cells.now) ≤ at → result.1 ≡ 2 ^ 64 - 1 }
{
    let len = cells.len();
    if len == 0 {
        return (u64::MAX, u64::MAX);
    }
    let id = cells.id(at.min(len - 1));
    let next = first_of(id).saturating_mul(2);
    if at < len {
        (id, next)
    } else {
        (u64::MAX, u64::MAX)
    }
}

/// The gap in which a number lies. It is found at once if the number lies in the gap `near`, and logarithmic in how far
/// it is ahead of that, or from the first number if it lies before it.
pub fn gap_of<C: Cells>(cells: &C, near: Gap, id: u64) -> Gap
    requires { IsGap (C.ids cells.now) near }
    ensures gap { IsGap (C.ids cells.now) result }
    ensures place { IsPacked (C.ids cells.now) → Brackets (C.ids cells.now) id result.at result.at }
{
    if lies_in_gap(near, id) {
        return near;
    }
    let start = start_after(near, id);
    gap_at(cells, find_id_from(cells, start, id))
}

/// The gap in which a number lies, with no branch on what is found. Among few numbers this is quicker.
#[inline(always)]
pub fn gap_among_few<C: Cells>(cells: &C, id: u64) -> Gap
    ensures gap { IsGap (C.ids cells.now) result }
    ensures place { IsPacked (C.ids cells.now) → Brackets (C.ids cells.now) id result.at result.at }
{
    gap_at(cells, find_id_among_few(cells, id))
}

/// Whether a number lies in a gap.
#[inline(always)]
pub fn lies_in_gap(gap: Gap, id: u64) -> bool
    ensures { IsTrue result → (u : List ℕ) → IsGap u gap → IsPacked u → Brackets u id gap.at gap.at }
{
    (gap.below < id) & (id <= gap.ahead)
}

/// How many cells surely end by the leaf in the middle of a number, if it doesn't lie in the gap.
#[inline(always)]
fn start_after(gap: Gap, id: u64) -> usize
    ensures within { (u : List ℕ) → IsGap u gap → result ≤ length u }
    ensures ended { (u : List ℕ) → IsGap u gap → IsPacked u → FirstEndBy u result (id / 2) }
{
    if gap.ahead < id { gap.at } else { 0 }
}

/// Whether a union has all leaves of the cell, once the gap is known in which its number lies.
#[inline(always)]
pub fn contains_in_gap(gap: Gap, id: u64) -> bool
    ensures { (u : List ℕ) → IsGap u gap → IsLocal u → IsCell id → Brackets u id gap.at gap.at
        → (IsTrue result ↔ IsWithin (covers id) (has_leaf u)) }
{
    (id < gap.held) | (gap.next < id)
}

/// Whether a union has a leaf of the cell, once the gap is known in which its number lies.
#[inline(always)]
pub fn intersects_in_gap(gap: Gap, id: u64) -> bool
    ensures { (u : List ℕ) → IsGap u gap → IsLocal u → IsCell id → Brackets u id gap.at gap.at
        → (IsTrue result ↔ ShareSome (covers id) (has_leaf u)) }
{
    (first_of(id) < gap.held / 2) | (gap.next / 2 < end_of(id))
}

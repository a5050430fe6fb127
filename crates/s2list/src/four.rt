//! Where four leaves lie among cells in order, searched at once: while one search waits for memory, others go on.
ghost use Rattle.std.specs.Prelude.{◌+◌, ◌-◌, ◌*◌, ◌/◌, ◌^◌, ◌<◌, ◌≤◌, ℕ, min, length};
ghost use Rattle.s2cell.specs.Cell.{first_leaf};
ghost use Rattle.s2list.specs.Union.{IsLocal};
ghost use Rattle.s2list.specs.Packed.{IsPacked, IsPlace};
ghost use Rattle.s2list.specs.Search.{Brackets};

use crate::cells::Cells;
use crate::find::{narrow, quarter};
use crate::looks::{Count, LookedAt, Uncounted};
use s2cell::{CellId, LEAVES};

/// Where the parts of a list begin in which four leaves lie. Each part has `size` numbers.
#[derive(Clone, Copy)]
struct Parts {
    first: usize,
    second: usize,
    third: usize,
    fourth: usize,
    size: usize,
}

/// The indexes of four cells.
#[derive(Clone, Copy)]
pub struct Places {
    /// The index of the first.
    pub first: usize,
    /// The index of the second.
    pub second: usize,
    /// The index of the third.
    pub third: usize,
    /// The index of the fourth.
    pub fourth: usize,
}

/// The indexes in a union of four cells: for each, how many cells of the union end by its first leaf. Logarithmic. The
/// four searches take turns.
pub fn places_of_four<C: Cells>(
    cells: &C,
    first: CellId,
    second: CellId,
    third: CellId,
    fourth: CellId,
) -> Places
    ensures first { IsLocal (C.ids cells.now) → IsPlace (C.ids cells.now) (first_leaf first) result.first }
    ensures second { IsLocal (C.ids cells.now) → IsPlace (C.ids cells.now) (first_leaf second) result.second }
    ensures third { IsLocal (C.ids cells.now) → IsPlace (C.ids cells.now) (first_leaf third) result.third }
    ensures fourth { IsLocal (C.ids cells.now) → IsPlace (C.ids cells.now) (first_leaf fourth) result.fourth }
{
    places_of_four_counted(cells, first, second, third, fourth, &mut Uncounted)
}

/// The same, counted. A quarter takes three looks, and two halvings take two: it looks about one and a half times as
/// often as four searches that don't take turns.
pub fn places_of_four_counted<C: LookedAt<K>, K: Count>(
    cells: &C,
    first: CellId,
    second: CellId,
    third: CellId,
    fourth: CellId,
    count: &mut K,
) -> Places
    ensures first { IsLocal (C.ids cells.now) → IsPlace (C.ids cells.now) (first_leaf first) result.first }
    ensures second { IsLocal (C.ids cells.now) → IsPlace (C.ids cells.now) (first_leaf second) result.second }
    ensures third { IsLocal (C.ids cells.now) → IsPlace (C.ids cells.now) (first_leaf third) result.third }
    ensures fourth { IsLocal (C.ids cells.now) → IsPlace (C.ids cells.now) (first_leaf fourth) result.fourth }
    ensures looks { (k : ℕ) → length (C.ids cells.now) ≤ 2 ^ k → K.looks count.new ≤ K.looks count.old + 12 * k + 12 }
    ensures least { min (K.looks count.old) K.most ≤ K.looks count.new }
{
    let a = first.first_leaf();
    let b = second.first_leaf();
    let c = third.first_leaf();
    let d = fourth.first_leaf();
    let parts = parts_of_four(cells, 2 * a, 2 * b, 2 * c, 2 * d, count);
    Places {
        first: settle(cells, parts.first, parts.size, a, count),
        second: settle(cells, parts.second, parts.size, b, count),
        third: settle(cells, parts.third, parts.size, c, count),
        fourth: settle(cells, parts.fourth, parts.size, d, count),
    }
}

/// How many cells end by the leaf `lo`, if the first number from `2 * lo` on is at one of the `size` indexes from
/// `base` on, or at their end.
fn settle<C: LookedAt<K>, K: Count>(
    cells: &C,
    base: usize,
    size: usize,
    lo: u64,
    count: &mut K,
) -> usize
    requires fits { length (C.ids cells.now) < 2 ^ 64 }
    requires few { size ≤ 3 }
    requires within { base + size ≤ length (C.ids cells.now) }
    ensures place { IsPacked (C.ids cells.now) → Brackets (C.ids cells.now) (2 * lo) base (base + size)
        → IsPlace (C.ids cells.now) lo result }
    ensures looks { K.looks count.new ≤ K.looks count.old + 3 }
    ensures least { min (K.looks count.old) K.most ≤ K.looks count.new }
{
    // Of the cells before `base`, only the last may end after the leaf.
    narrow(cells, base.saturating_sub(1), base + size, lo, count)
}

/// The parts of a list that have the indexes of four numbers: at most three indexes, or their end.
fn parts_of_four<C: LookedAt<K>, K: Count>(
    cells: &C,
    a: u64,
    b: u64,
    c: u64,
    d: u64,
    count: &mut K,
) -> Parts
    ensures fits { length (C.ids cells.now) < 2 ^ 64 }
    ensures few { result.size ≤ 3 }
    ensures first_within { result.first + result.size ≤ length (C.ids cells.now) }
    ensures second_within { result.second + result.size ≤ length (C.ids cells.now) }
    ensures third_within { result.third + result.size ≤ length (C.ids cells.now) }
    ensures fourth_within { result.fourth + result.size ≤ length (C.ids cells.now) }
    ensures first { IsPacked (C.ids cells.now)
        → Brackets (C.ids cells.now) a result.first (result.first + result.size) }
    ensures second { IsPacked (C.ids cells.now)
        → Brackets (C.ids cells.now) b result.second (result.second + result.size) }
    ensures third { IsPacked (C.ids cells.now)
        → Brackets (C.ids cells.now) c result.third (result.third + result.size) }
    ensures fourth { IsPacked (C.ids cells.now)
        → Brackets (C.ids cells.now) d result.fourth (result.fourth + result.size) }
    ensures looks { (k : ℕ) → length (C.ids cells.now) ≤ 2 ^ k → K.looks count.new ≤ K.looks count.old + 12 * k }
    ensures least { min (K.looks count.old) K.most ≤ K.looks count.new }
{
    let mut first = 0;
    let mut second = 0;
    let mut third = 0;
    let mut fourth = 0;
    let mut size = cells.len();
    while size >= 4 {
        first = quarter(cells, first, size, a, count);
        second = quarter(cells, second, size, b, count);
        third = quarter(cells, third, size, c, count);
        fourth = quarter(cells, fourth, size, d, count);
        size -= 3 * (size / 4);
    }
    Parts {
        first,
        second,
        third,
        fourth,
        size,
    }
}

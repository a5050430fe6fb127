//! A search on a walk along a list: the first in the list goes by halves, and each later one leaps.
ghost use Rattle.std.specs.Prelude.{◌≡◌, ◌+◌, ◌-◌, ◌*◌, ◌^◌, ◌<◌, ◌≤◌, ℕ, min, length};
ghost use Rattle.s2list.specs.Packed.{EndsAfter, FirstEndBy, IsPacked};

use crate::find::{ends_by, find_from_counted, narrow};
use crate::looks::{Count, LookedAt};

/// How many cells end by the leaf `lo`, on a walk that stands at index `at`, if the first `start` cells are known to
/// end by it. At the beginning of a list nothing says how far that is. So the search from there goes by halves, unless
/// the next cell decides, or the last. A later one leaps, and is logarithmic in how far it gets.
#[inline(always)]
pub fn find_along<C: LookedAt<K>, K: Count>(
    cells: &C,
    at: usize,
    start: usize,
    lo: u64,
    count: &mut K,
) -> usize
    requires { start ≤ length (C.ids cells.now) }
    ensures from { start ≤ result }
    ensures within { result ≤ length (C.ids cells.now) }
    ensures ended { IsPacked (C.ids cells.now) → FirstEndBy (C.ids cells.now) start lo
        → FirstEndBy (C.ids cells.now) result lo }
    ensures next { IsPacked (C.ids cells.now) → FirstEndBy (C.ids cells.now) start lo
        → EndsAfter (C.ids cells.now) result lo }
    ensures looks { (k : ℕ) → result - start < 2 ^ k → (at ≡ 0 → start < result → length (C.ids cells.now) < 2 ^ k)
        → K.looks count.new ≤ K.looks count.old + 2 * k + 2 }
    ensures least { min (K.looks count.old) K.most ≤ K.looks count.new }
    ensures some { start < length (C.ids cells.now) → min (K.looks count.old + 1) K.most ≤ K.looks count.new }
{
    if at > 0 {
        return find_from_counted(cells, start, lo, count);
    }
    let len = cells.len();
    if start >= len {
        return start;
    }
    if !ends_by(cells.look(start, count), lo) {
        return start;
    }
    let next = start + 1;
    if next >= len {
        return next;
    }
    if ends_by(cells.look(len - 1, count), lo) {
        return len;
    }
    narrow(cells, next, len - 1, lo, count)
}

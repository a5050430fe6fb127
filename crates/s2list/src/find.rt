//! Where a leaf lies among cells in order.
ghost use Rattle.std.specs.Prelude.{◌≡◌, ◌+◌, ◌-◌, ◌*◌, ◌/◌, ◌^◌, ◌<◌, ◌≤◌, ◌↔◌, ◌⊎◌};
ghost use Rattle.std.specs.Prelude.{ℕ, IsTrue, All, min, length, slice_index};
ghost use Rattle.s2cell.specs.Cell.{IsCell, first_leaf, size_of};
ghost use Rattle.s2list.specs.Packed.{EndsAfter, FirstEndBy, IsPacked};
ghost use Rattle.s2list.specs.Working.Packed.{EndsAt};
ghost use Rattle.s2list.specs.Search.{Brackets};
ghost use Rattle.s2list.specs.Working.Search.{IsFrom};

use crate::cells::Cells;
use crate::looks::{Count, LookedAt, Uncounted};

/// How far apart the indexes of two cells are at most that are called near: few looks lead from one to the other.
pub const NEARBY: usize = 15;

/// A search among all cells goes on without branches once this many places are left: 256 bytes.
const LAST_PLACES: usize = 32;

/// How many cells end by the leaf `lo`; these come first. Logarithmic.
pub(crate) fn find<C: Cells>(cells: &C, lo: u64) -> usize
    ensures within { result ≤ length (C.ids cells.now) }
    ensures ended { IsPacked (C.ids cells.now) → FirstEndBy (C.ids cells.now) result lo }
    ensures next { IsPacked (C.ids cells.now) → EndsAfter (C.ids cells.now) result lo }
{
    find_counted(cells, lo, &mut Uncounted)
}

/// The same, counted. Where the leaf lies before all cells or after them, two looks decide.
pub fn find_counted<C: LookedAt<K>, K: Count>(cells: &C, lo: u64, count: &mut K) -> usize
    ensures within { result ≤ length (C.ids cells.now) }
    ensures ended { IsPacked (C.ids cells.now) → FirstEndBy (C.ids cells.now) result lo }
    ensures next { IsPacked (C.ids cells.now) → EndsAfter (C.ids cells.now) result lo }
    ensures looks { (k : ℕ) → length (C.ids cells.now) ≤ 2 ^ k → K.looks count.new ≤ K.looks count.old + k + 2 }
    ensures least { min (K.looks count.old) K.most ≤ K.looks count.new }
    ensures some { 0 < length (C.ids cells.now) → min (K.looks count.old + 1) K.most ≤ K.looks count.new }
{
    let len = cells.len();
    if len == 0 {
        return 0;
    }
    if ends_by(cells.look(len - 1, count), lo) {
        return len;
    }
    if !ends_by(cells.look(0, count), lo) {
        return 0;
    }
    narrow_until(LAST_PLACES, cells, 0, len - 1, lo, count)
}

/// How many cells end by the leaf `lo`, if the first `start` are known to. Logarithmic in how many more do.
#[inline(always)]
pub fn find_from<C: Cells>(cells: &C, start: usize, lo: u64) -> usize
    requires { start ≤ length (C.ids cells.now) }
    ensures from { start ≤ result }
    ensures within { result ≤ length (C.ids cells.now) }
    ensures ended { IsPacked (C.ids cells.now) → FirstEndBy (C.ids cells.now) start lo
        → FirstEndBy (C.ids cells.now) result lo }
    ensures next { IsPacked (C.ids cells.now) → FirstEndBy (C.ids cells.now) start lo
        → EndsAfter (C.ids cells.now) result lo }
{
    find_from_counted(cells, start, lo, &mut Uncounted)
}

/// The same, counted. Looks at the next two cells one by one, since in lists of similar length it is mostly one of
/// these.
#[inline(always)]
pub fn find_from_counted<C: LookedAt<K>, K: Count>(
    cells: &C,
    start: usize,
    lo: u64,
    count: &mut K,
) -> usize
    requires { start ≤ length (C.ids cells.now) }
    ensures from { start ≤ result }
    ensures within { result ≤ length (C.ids cells.now) }
    ensures ended { IsPacked (C.ids cells.now) → FirstEndBy (C.ids cells.now) start lo
        → FirstEndBy (C.ids cells.now) result lo }
    ensures next { IsPacked (C.ids cells.now) → FirstEndBy (C.ids cells.now) start lo
        → EndsAfter (C.ids cells.now) result lo }
    ensures looks { (k : ℕ) → result - start < 2 ^ k → K.looks count.new ≤ K.looks count.old + 2 * k + 2 }
    ensures least { min (K.looks count.old) K.most ≤ K.looks count.new }
    ensures some { start < length (C.ids cells.now) → min (K.looks count.old + 1) K.most ≤ K.looks count.new }
{
    if !ends_at(cells, start, lo, count) {
        return start;
    }
    let next = start + 1;
    if !ends_at(cells, next, lo, count) {
        return next;
    }
    leap_on(cells, start, lo, count)
}

/// How many numbers are below `mark`; these come first. So it is the index of the cell with that identifier, or the one
/// where it would stand. Logarithmic in how many there are. A cell that ends by the leaf in the middle of the mark is
/// below it, and of the others only the first may be.
#[inline(always)]
pub fn find_id<C: Cells>(cells: &C, mark: u64) -> usize
    ensures within { result ≤ length (C.ids cells.now) }
    ensures place { IsPacked (C.ids cells.now) → Brackets (C.ids cells.now) mark result result }
{
    // Where many cells are searched for, it is often the first.
    if !is_below_at(cells, 0, mark) {
        return 0;
    }
    find_id_from(cells, 0, mark)
}

/// The same, if the first `start` cells are known to end by the leaf in the middle of the mark. Logarithmic in how many
/// more numbers there are.
#[inline(always)]
pub(crate) fn find_id_from<C: Cells>(cells: &C, start: usize, mark: u64) -> usize
    requires { start ≤ length (C.ids cells.now) }
    ensures within { result ≤ length (C.ids cells.now) }
    ensures place { IsPacked (C.ids cells.now) → FirstEndBy (C.ids cells.now) start (mark / 2)
        → Brackets (C.ids cells.now) mark result result }
{
    let at = find_from(cells, start, mark / 2);
    if is_below_at(cells, at, mark) {
        return at + 1;
    }
    at
}

/// How many numbers are below `mark`, as `find_id` says, with no branch on what is found. Among few this is quicker. A
/// step adds up three comparisons: a compiler makes a branch of one that halves.
#[inline(always)]
pub(crate) fn find_id_among_few<C: Cells>(cells: &C, mark: u64) -> usize
    ensures within { result ≤ length (C.ids cells.now) }
    ensures place { IsPacked (C.ids cells.now) → Brackets (C.ids cells.now) mark result result }
{
    let mut base = 0;
    let mut size = cells.len();
    while size >= 3 {
        let quarter = (size - 3) / 4 + 1;
        let first = is_below(cells.id(base + (quarter - 1)), mark);
        let second = is_below(cells.id(base + (2 * quarter - 1)), mark);
        let third = is_below(cells.id(base + (3 * quarter - 1)), mark);
        base += quarter * (first + second + third);
        size -= 3 * quarter;
    }
    find_id_one_by_one(cells, base, size, mark)
}

/// The same, if it is known to be from `start` to `start + size`.
#[inline(always)]
fn find_id_one_by_one<C: Cells>(cells: &C, start: usize, size: usize, mark: u64) -> usize
    requires fits { length (C.ids cells.now) < 2 ^ 64 }
    requires within { start + size ≤ length (C.ids cells.now) }
    ensures within { result ≤ length (C.ids cells.now) }
    ensures place { IsPacked (C.ids cells.now) → Brackets (C.ids cells.now) mark start (start + size)
        → Brackets (C.ids cells.now) mark result result }
{
    let mut base = start;
    let mut left = size;
    while left > 0 {
        base += is_below(cells.id(base), mark);
        left -= 1;
    }
    base
}

/// Whether there is a number at index `at`, and it is below `mark`.
#[inline(always)]
fn is_below_at<C: Cells>(cells: &C, at: usize, mark: u64) -> bool
    ensures answer { IsTrue result ↔ (at < length (C.ids cells.now) × slice_index (C.ids cells.now) at < mark) }
    ensures fits { IsTrue result → at + 1 < 2 ^ 64 }
{
    if at >= cells.len() {
        return false;
    }
    cells.id(at) < mark
}

/// Whether there is a number at index `at`, and its cell ends by the leaf `lo`.
#[inline(always)]
fn ends_at<C: LookedAt<K>, K: Count>(cells: &C, at: usize, lo: u64, count: &mut K) -> bool
    ensures answer { All IsCell (C.ids cells.now) → (IsTrue result ↔ EndsAt (C.ids cells.now) at lo) }
    ensures within { IsTrue result → at < length (C.ids cells.now) }
    ensures fits { IsTrue result → at + 1 < 2 ^ 64 }
    ensures looks { K.looks count.new ≤ K.looks count.old + 1 }
    ensures least { min (K.looks count.old) K.most ≤ K.looks count.new }
    ensures some { at < length (C.ids cells.now) → min (K.looks count.old + 1) K.most ≤ K.looks count.new }
{
    if at >= cells.len() {
        return false;
    }
    ends_by(cells.look(at, count), lo)
}

/// How many cells end by the leaf `lo`, if the first `start + 2` are known to. Leaps ahead, each leap three times as
/// long as all before it, and then searches what the last leap passed over.
fn leap_on<C: LookedAt<K>, K: Count>(cells: &C, start: usize, lo: u64, count: &mut K) -> usize
    requires { start + 2 ≤ length (C.ids cells.now) }
    ensures from { start + 2 ≤ result }
    ensures within { result ≤ length (C.ids cells.now) }
    ensures ended { IsPacked (C.ids cells.now) → FirstEndBy (C.ids cells.now) (start + 2) lo
        → FirstEndBy (C.ids cells.now) result lo }
    ensures next { IsPacked (C.ids cells.now) → FirstEndBy (C.ids cells.now) (start + 2) lo
        → EndsAfter (C.ids cells.now) result lo }
    ensures looks { (k : ℕ) → result - start < 2 ^ k → K.looks count.new ≤ K.looks count.old + 2 * k }
    ensures least { min (K.looks count.old) K.most ≤ K.looks count.new }
{
    let len = cells.len();
    let mut base = start + 2;
    let mut leap = 6;
    while leap <= len - base {
        if !ends_by(cells.look(base + (leap - 1), count), lo) {
            return narrow(cells, base, base + (leap - 1), lo, count);
        }
        base += leap;
        leap = (base - start).saturating_mul(3);
    }
    narrow(cells, base, len, lo, count)
}

/// How many cells end by the leaf `lo`, if they are known to be from `start` to `end`. Each look halves what is left.
pub(crate) fn narrow<C: LookedAt<K>, K: Count>(
    cells: &C,
    start: usize,
    end: usize,
    lo: u64,
    count: &mut K,
) -> usize
    requires order { start ≤ end }
    requires within { end ≤ length (C.ids cells.now) }
    ensures from { start ≤ result }
    ensures to { result ≤ end }
    ensures ended { IsPacked (C.ids cells.now) → IsFrom (C.ids cells.now) lo start end
        → FirstEndBy (C.ids cells.now) result lo }
    ensures next { IsPacked (C.ids cells.now) → IsFrom (C.ids cells.now) lo start end
        → EndsAfter (C.ids cells.now) result lo }
    ensures looks { (k : ℕ) → end - start < 2 ^ k → K.looks count.new ≤ K.looks count.old + k }
    ensures least { min (K.looks count.old) K.most ≤ K.looks count.new }
    ensures some { start < end → min (K.looks count.old + 1) K.most ≤ K.looks count.new }
{
    narrow_until(0, cells, start, end, lo, count)
}

/// The same. While more than `few` are left, a branch tells which half goes on: it is guessed, so that the next number
/// is on its way from memory before this one is known. Few come from memory together, and a wrong guess costs more than
/// they do.
///
/// A number is first compared with twice the leaf, which is soon known: a branch on it is mispredicted half the time,
/// and one on where the cell ends hardly ever.
#[inline(always)]
fn narrow_until<C: LookedAt<K>, K: Count>(
    few: usize,
    cells: &C,
    start: usize,
    end: usize,
    lo: u64,
    count: &mut K,
) -> usize
    requires order { start ≤ end }
    requires within { end ≤ length (C.ids cells.now) }
    ensures from { start ≤ result }
    ensures to { result ≤ end }
    ensures ended { IsPacked (C.ids cells.now) → IsFrom (C.ids cells.now) lo start end
        → FirstEndBy (C.ids cells.now) result lo }
    ensures next { IsPacked (C.ids cells.now) → IsFrom (C.ids cells.now) lo start end
        → EndsAfter (C.ids cells.now) result lo }
    ensures looks { (k : ℕ) → end - start < 2 ^ k → K.looks count.new ≤ K.looks count.old + k }
    ensures least { min (K.looks count.old) K.most ≤ K.looks count.new }
    ensures some { start < end → min (K.looks count.old + 1) K.most ≤ K.looks count.new }
{
    let mark = lo.saturating_mul(2);
    let mut first = start;
    let mut last = end;
    while last - first > few {
        let middle = first + (last - first) / 2;
        let id = cells.look(middle, count);
        if id >= mark {
            last = middle;
        } else if ends_by(id, lo) {
            first = middle + 1;
        } else {
            return middle;
        }
    }
    among_few(cells, first, last, lo, count)
}

/// The same, with no branch on what is found. It keeps the last number below twice the leaf: of the cells before the
/// places that are left only that one may end after the leaf.
#[inline(always)]
fn among_few<C: LookedAt<K>, K: Count>(
    cells: &C,
    start: usize,
    end: usize,
    lo: u64,
    count: &mut K,
) -> usize
    requires order { start ≤ end }
    requires within { end ≤ length (C.ids cells.now) }
    ensures from { start ≤ result }
    ensures to { result ≤ end }
    ensures ended { IsPacked (C.ids cells.now) → IsFrom (C.ids cells.now) lo start end
        → FirstEndBy (C.ids cells.now) result lo }
    ensures next { IsPacked (C.ids cells.now) → IsFrom (C.ids cells.now) lo start end
        → EndsAfter (C.ids cells.now) result lo }
    ensures looks { (k : ℕ) → end - start < 2 ^ k → K.looks count.new ≤ K.looks count.old + k }
    ensures least { min (K.looks count.old) K.most ≤ K.looks count.new }
    ensures some { start < end → min (K.looks count.old + 1) K.most ≤ K.looks count.new }
{
    let mark = lo.saturating_mul(2);
    let mut base = start;
    let mut size = end - start;
    // The number at index `base - 1`, once one was looked at. 0 is the identifier of no cell.
    let mut below = 0;
    while size > 0 {
        let half = size - size / 2;
        let id = cells.look(base + (half - 1), count);
        let is_on = is_below(id, mark);
        base += half * is_on;
        below = chosen(is_on, id, below);
        size /= 2;
    }
    base - ends_after(below, lo)
}

/// `id` if `is_on` isn't 0, else `below`.
#[inline(always)]
fn chosen(is_on: usize, id: u64, below: u64) -> u64
    ensures on { 0 < is_on → result ≡ id }
    ensures off { is_on ≡ 0 → result ≡ below }
{
    if is_on > 0 { id } else { below }
}

/// 1 if the cell ends after the leaf `lo`, else 0. 0 if the number is 0.
#[inline(always)]
fn ends_after(id: u64, lo: u64) -> usize
    ensures after { IsCell id → ((result ≡ 1) × (lo < first_leaf id + size_of id))
        ⊎ ((result ≡ 0) × (first_leaf id + size_of id ≤ lo)) }
    ensures few { result ≤ 1 }
    ensures none { id ≡ 0 → result ≡ 0 }
{
    ((id > 0) & !ends_by(id, lo)) as usize
}

/// Where the quarter begins that has the index of `mark`, which is one of the `size` indexes from `base` on, or their
/// end. It compares three numbers at once and sums the results, since a branch on each would be mispredicted half the
/// time.
#[inline(always)]
pub(crate) fn quarter<C: LookedAt<K>, K: Count>(
    cells: &C,
    base: usize,
    size: usize,
    mark: u64,
    count: &mut K,
) -> usize
    requires fits { length (C.ids cells.now) < 2 ^ 64 }
    requires some { 4 ≤ size }
    requires within { base + size ≤ length (C.ids cells.now) }
    ensures within { result + (size - 3 * (size / 4)) ≤ length (C.ids cells.now) }
    ensures brackets { IsPacked (C.ids cells.now) → Brackets (C.ids cells.now) mark base (base + size)
        → Brackets (C.ids cells.now) mark result (result + (size - 3 * (size / 4))) }
    ensures looks { K.looks count.new ≤ K.looks count.old + 3 }
    ensures least { min (K.looks count.old + 1) K.most ≤ K.looks count.new }
{
    let quarter = size / 4;
    let first = is_below(cells.look(base + (quarter - 1), count), mark);
    let second = is_below(cells.look(base + (2 * quarter - 1), count), mark);
    let third = is_below(cells.look(base + (3 * quarter - 1), count), mark);
    base + quarter * (first + second + third)
}

/// 1 if the number is below `mark`, else 0.
#[inline(always)]
fn is_below(id: u64, mark: u64) -> usize
    ensures below { ((result ≡ 1) × (id < mark)) ⊎ ((result ≡ 0) × (mark ≤ id)) }
{
    (id < mark) as usize
}

/// The index `near` if the cells before it end by the leaf `lo`, and otherwise 0. Any `near` will do.
#[inline(always)]
pub fn first_place<C: Cells>(cells: &C, near: usize, lo: u64) -> usize
    ensures to { result ≤ near }
    ensures within { result ≤ length (C.ids cells.now) }
    ensures ended { IsPacked (C.ids cells.now) → FirstEndBy (C.ids cells.now) result lo }
{
    if near == 0 || near > cells.len() {
        return 0;
    }
    if !ends_by(cells.id(near - 1), lo) {
        return 0;
    }
    near
}

/// Whether a cell ends by the leaf `lo`.
#[inline(always)]
pub(crate) fn ends_by(id: u64, lo: u64) -> bool
    ensures { IsCell id → (IsTrue result ↔ (first_leaf id + size_of id ≤ lo)) }
{
    end_of(id) <= lo
}

/// The number after that of the last leaf of the cell with this identifier. Doesn't check that a cell has it.
#[inline(always)]
pub fn end_of(id: u64) -> u64
    ensures { IsCell id → result ≡ first_leaf id + size_of id }
{
    id.wrapping_add(id & id.wrapping_neg()) / 2
}

/// The number of the first leaf of the cell with this identifier. Doesn't check that a cell has it.
#[inline(always)]
pub fn first_of(id: u64) -> u64
    ensures { IsCell id → result ≡ first_leaf id }
{
    id.wrapping_sub(id & id.wrapping_neg()) / 2
}

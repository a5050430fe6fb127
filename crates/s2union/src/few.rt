//! Questions about a short list and a much longer one: a search in the whole longer list for each cell of the shorter
//! one, for four cells at once.
//!
//! The searches for four cells don't wait for each other, so while one waits for memory, the others go on. A walk that
//! starts each search where the one before ended makes fewer looks, but each has to wait for the one before.
ghost use Rattle.std.specs.Prelude.{◌≡◌, ◌≤◌, ◌<◌, ◌+◌, ◌-◌, ◌*◌, ◌↔◌};
ghost use Rattle.std.specs.Prelude.{ℕ, All, IsTrue, IfSome, false, MatchOption, min, length, slice_index};
ghost use Rattle.s2cell.specs.Cell.{IsCell, IsInside, first_leaf};
ghost use Rattle.s2list.specs.Union.{IsLocal, has_leaf, IsWithin, ShareSome};
ghost use Rattle.s2list.specs.Packed.{IsPacked, IsPlace, EndsBefore};
ghost use Rattle.s2list.specs.Looks.{FewForUnion};
ghost use Rattle.s2list.specs.Working.Walk.{Decides, LeavesOpen};
ghost use Rattle.s2union.specs.Working.Sets.{OpenBetween};

use crate::search::CellsLookedAt;
use s2cell::CellId;
use s2list::{
    Count, LookedAt, Question, contains_cell_at_counted, find_counted, find_from_counted,
    intersects_cell_at_counted, places_of_four_counted,
};

/// Whether `xs` has all leaves of `ys`, which is much shorter.
#[inline(never)]
pub(crate) fn holds_few<C: CellsLookedAt<K>, K: Count>(xs: &C, ys: &C, count: &mut K) -> bool
    requires x_local { IsLocal (C.ids xs.now) }
    requires y_local { IsLocal (C.ids ys.now) }
    requires few { 64 * length (C.ids ys.now) ≤ length (C.ids xs.now) }
    requires count { K.looks count.old ≡ 0 }
    ensures answer { IsTrue result ↔ IsWithin (has_leaf (C.ids ys.now)) (has_leaf (C.ids xs.now)) }
    ensures looks { FewForUnion (length (C.ids xs.now)) (length (C.ids ys.now)) (K.looks count.new) }
    ensures least { 0 < length (C.ids ys.now) → min 2 K.most ≤ K.looks count.new }
{
    !is_decided(Question::Contains, xs, ys, count)
}

/// Whether `xs` and `ys`, which is much shorter, share a leaf.
#[inline(never)]
pub(crate) fn meets_few<C: CellsLookedAt<K>, K: Count>(xs: &C, ys: &C, count: &mut K) -> bool
    requires x_local { IsLocal (C.ids xs.now) }
    requires y_local { IsLocal (C.ids ys.now) }
    requires few { 64 * length (C.ids ys.now) ≤ length (C.ids xs.now) }
    requires count { K.looks count.old ≡ 0 }
    ensures answer { IsTrue result ↔ ShareSome (has_leaf (C.ids xs.now)) (has_leaf (C.ids ys.now)) }
    ensures looks { FewForUnion (length (C.ids xs.now)) (length (C.ids ys.now)) (K.looks count.new) }
    ensures least { 0 < length (C.ids ys.now) → min 2 K.most ≤ K.looks count.new }
{
    is_decided(Question::Intersects, xs, ys, count)
}

/// Whether a cell of `ys`, which is much shorter, decides the question.
#[inline(always)]
fn is_decided<C: CellsLookedAt<K>, K: Count>(
    question: Question,
    xs: &C,
    ys: &C,
    count: &mut K,
) -> bool
    requires x_local { IsLocal (C.ids xs.now) }
    requires y_local { IsLocal (C.ids ys.now) }
    requires few { 64 * length (C.ids ys.now) ≤ length (C.ids xs.now) }
    requires count { K.looks count.old ≡ 0 }
    ensures found { IsTrue result
        → (k : ℕ) × (k < length (C.ids ys.now)) × Decides question (C.ids xs.now) (slice_index (C.ids ys.now) k) }
    ensures none { result ≡ false
        → (k : ℕ) → k < length (C.ids ys.now) → LeavesOpen question (C.ids xs.now) (slice_index (C.ids ys.now) k) }
    ensures looks { FewForUnion (length (C.ids xs.now)) (length (C.ids ys.now)) (K.looks count.new) }
    ensures least { 0 < length (C.ids ys.now) → min 2 K.most ≤ K.looks count.new }
{
    let mut j = 0;
    while j < ys.len() {
        match pass_next(question, xs, ys, j, count) {
            Some(next) => j = next,
            None => return true,
        }
    }
    false
}

/// Whether to search the next four cells together, from index `at` of `n` on. The first is searched alone, since it may
/// decide.
fn by_four(at: usize, n: usize) -> bool
    requires { at < n }
    ensures rest { IsTrue result → at + 4 ≤ n }
    ensures first { IsTrue result → 0 < at }
{
    at > 0 && n - at >= 4
}

/// How many cells of `few` are known to leave the question about a local list open, once the next are searched, from
/// index `at` on: one or four, and those after them that the same cell of the list leaves open as the last of these.
/// None if one of them decides.
#[inline(always)]
fn pass_next<C: CellsLookedAt<K>, K: Count>(
    question: Question,
    cells: &C,
    few: &C,
    at: usize,
    count: &mut K,
) -> Option<usize>
    requires local { IsLocal (C.ids cells.now) }
    requires few_packed { IsPacked (C.ids few.now) }
    requires there { at < length (C.ids few.now) }
    ensures answer { MatchOption result
        ((k : ℕ) × (k < length (C.ids few.now)) × Decides question (C.ids cells.now) (slice_index (C.ids few.now) k))
        (λ next. OpenBetween question (C.ids cells.now) (C.ids few.now) at next) }
    ensures within { IfSome result (λ next. (at < next) × (next ≤ length (C.ids few.now))) }
    ensures most { K.looks count.new ≤ K.looks count.old + 250 * (length (C.ids few.now) - at) }
    ensures looks { IfSome result (λ next. K.looks count.new ≤ K.looks count.old + 250 * (next - at)) }
    ensures least { 0 < length (C.ids cells.now) → min 2 K.most ≤ K.looks count.new }
{
    if by_four(at, few.len()) {
        return pass_four(question, cells, few, at, count);
    }
    let cell = few.look_at(at, count);
    let _ = cells.len();
    let place = find_counted(cells, cell.first_leaf(), count);
    if decides_at(question, cells, place, cell, count) {
        None
    } else {
        Some(pass_open(question, few, at + 1, cells, place, count))
    }
}

/// As `pass_next`, if four cells are left.
#[inline(always)]
fn pass_four<C: CellsLookedAt<K>, K: Count>(
    question: Question,
    cells: &C,
    few: &C,
    at: usize,
    count: &mut K,
) -> Option<usize>
    requires local { IsLocal (C.ids cells.now) }
    requires few_packed { IsPacked (C.ids few.now) }
    requires there { at + 4 ≤ length (C.ids few.now) }
    ensures answer { MatchOption result
        ((k : ℕ) × (k < length (C.ids few.now)) × Decides question (C.ids cells.now) (slice_index (C.ids few.now) k))
        (λ next. OpenBetween question (C.ids cells.now) (C.ids few.now) at next) }
    ensures within { IfSome result (λ next. (at < next) × (next ≤ length (C.ids few.now))) }
    ensures most { K.looks count.new ≤ K.looks count.old + 250 * (length (C.ids few.now) - at) }
    ensures looks { IfSome result (λ next. K.looks count.new ≤ K.looks count.old + 250 * (next - at)) }
    ensures least { 0 < length (C.ids cells.now) → min 2 K.most ≤ K.looks count.new }
{
    let _ = cells.len();
    let _ = few.len();
    let a = few.look_at(at, count);
    let b = few.look_at(at + 1, count);
    let c = few.look_at(at + 2, count);
    let d = few.look_at(at + 3, count);
    let places = places_of_four_counted(cells, a, b, c, d, count);
    let first = decides_at(question, cells, places.first, a, count);
    let second = decides_at(question, cells, places.second, b, count);
    let third = decides_at(question, cells, places.third, c, count);
    let fourth = decides_at(question, cells, places.fourth, d, count);
    if first | second | third | fourth {
        None
    } else {
        Some(pass_open(question, few, at + 4, cells, places.fourth, count))
    }
}

/// Whether a cell decides the question about a list, once its place there is known.
#[inline(always)]
fn decides_at<C: LookedAt<K>, K: Count>(
    question: Question,
    list: &C,
    at: usize,
    cell: CellId,
    count: &mut K,
) -> bool
    ensures decided { IsLocal (C.ids list.now) → IsPlace (C.ids list.now) (first_leaf cell) at → IsTrue result
        → Decides question (C.ids list.now) cell }
    ensures left_open { IsLocal (C.ids list.now) → IsPlace (C.ids list.now) (first_leaf cell) at → result ≡ false
        → LeavesOpen question (C.ids list.now) cell }
    ensures looks { K.looks count.new ≤ K.looks count.old + 1 }
    ensures least { min (K.looks count.old) K.most ≤ K.looks count.new }
{
    match question {
        Question::Contains => !contains_cell_at_counted(list, at, cell, count),
        Question::Intersects => intersects_cell_at_counted(list, at, cell, count),
    }
}

/// Passes over the cells of `few`, from index `from` on, that the cell at index `at` of the list leaves open as the one
/// before them: those in it, or those before it.
#[inline(always)]
fn pass_open<C: CellsLookedAt<K>, K: Count>(
    question: Question,
    few: &C,
    from: usize,
    cells: &C,
    at: usize,
    count: &mut K,
) -> usize
    requires local { IsLocal (C.ids cells.now) }
    requires few_packed { IsPacked (C.ids few.now) }
    requires there { from ≤ length (C.ids few.now) }
    ensures from { from ≤ result }
    ensures within { result ≤ length (C.ids few.now) }
    ensures left_open { (before : ℕ) → before + 1 ≡ from
        → IsPlace (C.ids cells.now) (first_leaf (slice_index (C.ids few.now) before)) at
        → OpenBetween question (C.ids cells.now) (C.ids few.now) from result }
    ensures looks { K.looks count.new ≤ K.looks count.old + 3 + 2 * (result - from) }
    ensures least { min (K.looks count.old) K.most ≤ K.looks count.new }
{
    match question {
        Question::Contains => pass_held(few, from, cells, at, count),
        Question::Intersects => pass_free(few, from, cells, at, count),
    }
}

/// Passes over the cells of `few`, from index `from` on, that end before the cell at index `at` of the list begins;
/// over all of them if there is no such cell. So cells of `few` in a gap of the list cost one search.
fn pass_free<C: CellsLookedAt<K>, K: Count>(
    few: &C,
    from: usize,
    cells: &C,
    at: usize,
    count: &mut K,
) -> usize
    requires few_packed { IsPacked (C.ids few.now) }
    requires cells { All IsCell (C.ids cells.now) }
    requires there { from ≤ length (C.ids few.now) }
    ensures from { from ≤ result }
    ensures within { result ≤ length (C.ids few.now) }
    ensures free { (k : ℕ) → from ≤ k → k < result → at < length (C.ids cells.now)
        → EndsBefore (slice_index (C.ids few.now) k) (slice_index (C.ids cells.now) at) }
    ensures looks { K.looks count.new ≤ K.looks count.old + 3 + 2 * (result - from) }
    ensures least { min (K.looks count.old) K.most ≤ K.looks count.new }
{
    let len = few.len();
    if from >= len {
        return from;
    }
    if at >= cells.len() {
        return len;
    }
    let begin = cells.look_at(at, count).first_leaf();
    if few.look_at(from, count).end_leaf() > begin {
        return from;
    }
    if few.look_at(len - 1, count).end_leaf() <= begin {
        return len;
    }
    find_from_counted(few, from + 1, begin, count)
}

/// Passes over the cells of `few`, from index `from` on, that lie in the cell at index `at` of the list, if the first
/// of them does. So cells of `few` in a large cell of the list cost one search.
fn pass_held<C: CellsLookedAt<K>, K: Count>(
    few: &C,
    from: usize,
    cells: &C,
    at: usize,
    count: &mut K,
) -> usize
    requires few_packed { IsPacked (C.ids few.now) }
    requires cells { All IsCell (C.ids cells.now) }
    requires there { from ≤ length (C.ids few.now) }
    ensures from { from ≤ result }
    ensures within { result ≤ length (C.ids few.now) }
    ensures held { (k : ℕ) → from ≤ k → k < result → (at < length (C.ids cells.now))
        × IsInside (slice_index (C.ids few.now) k) (slice_index (C.ids cells.now) at) }
    ensures looks { K.looks count.new ≤ K.looks count.old + 3 + 2 * (result - from) }
    ensures least { min (K.looks count.old) K.most ≤ K.looks count.new }
{
    if from >= few.len() || at >= cells.len() {
        return from;
    }
    let cell = cells.look_at(at, count);
    if !cell.contains(few.look_at(from, count)) {
        return from;
    }
    find_from_counted(few, from + 1, cell.end_leaf(), count)
}

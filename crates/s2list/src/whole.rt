//! Questions about all numbers: whether they are a union, and how many leaves they have.
ghost use Rattle.std.specs.Prelude.{◌≡◌, ◌+◌, ◌-◌, ◌<◌, ◌≤◌, ◌↔◌, ℕ, IsTrue, All, MatchOption};
ghost use Rattle.std.specs.Prelude.{length, slice_index, take};
ghost use Rattle.s2cell.specs.Cell.{IsCell, first_leaf, level_of, size_of};
ghost use Rattle.s2list.specs.Union.{IsLocal, has_leaf};
ghost use Rattle.s2list.specs.Packed.{IsFamily, IsPacked};
ghost use Rattle.s2list.specs.Count.{count_below};
ghost use Rattle.s2list.specs.Search.{IsFirstWrong};

use crate::cells::Cells;
use crate::find::{end_of, first_of};
use s2cell::{CellId, GREATEST_LEVEL, LEAVES};

/// The number after the last of face 5.
const FACES_END: u64 = 0xC000_0000_0000_0000;

/// The bits at which the lowest bit of a cell can stand.
const MARKERS: u64 = 0x1555_5555_5555_5555;

/// How many numbers are tested together.
const BLOCK: usize = 64;

/// Whether the numbers are the cells of a union: they ascend, no two share a leaf, and no four are the children of one
/// cell. Linear.
pub fn is_union<C: Cells>(cells: &C) -> bool
    ensures { IsTrue result ↔ IsLocal (C.ids cells.now) }
{
    union_at_front(cells) >= cells.len()
}

/// How many numbers from the first on are the cells of a union: all of them, if all are. Linear.
pub(crate) fn union_at_front<C: Cells>(cells: &C) -> usize
    ensures within { result ≤ length (C.ids cells.now) }
    ensures packed { IsPacked (take result (C.ids cells.now)) }
    ensures whole { IsPacked (C.ids cells.now) → result ≡ length (C.ids cells.now) }
{
    let len = cells.len();
    let mut k = 0;
    while k < len {
        let stop = k + (len - k).min(BLOCK);
        let next = continued_to(cells, k, stop);
        if next < stop {
            return next;
        }
        k = stop;
    }
    k
}

/// Whether the numbers from index `start` to before `stop` surely continue a union that the numbers before them are.
/// False is no answer. Has no branch on a number: each must be a cell that begins after the one before it ends. The
/// fourth child of a cell is the exclusive-or of the three before it, and differs from the first of them in the two
/// bits of the child; of cells that are no family hardly any do both, and many do one.
fn surely_continues<C: Cells>(cells: &C, start: usize, stop: usize) -> bool
    requires within { stop ≤ length (C.ids cells.now) }
    ensures { IsTrue result → start ≤ stop → IsPacked (take start (C.ids cells.now))
        → IsPacked (take stop (C.ids cells.now)) }
{
    if start < 3 {
        return false;
    }
    let mut all = true;
    for k in start..stop {
        let c = cells.id(k - 1);
        let d = cells.id(k);
        let is_next = end_of(c) <= first_of(d);
        all = all & is_cell(d) & is_next & is_no_family(cells.id(k - 3), cells.id(k - 2), c, d);
    }
    all
}

/// Whether the cell `d` and the three numbers before it are surely not the children of one cell.
#[inline(always)]
fn is_no_family(a: u64, b: u64, c: u64, d: u64) -> bool
    ensures { IsTrue result → IsCell d → (p : ℕ) → IsFamily a b c d p → ⊥ }
{
    let is_other = differ(a ^ b ^ c, d);
    let is_far = differ(a ^ d, leaves_of(d).wrapping_mul(6));
    is_other | is_far
}

/// Whether two numbers differ.
#[inline(always)]
fn differ(a: u64, b: u64) -> bool
    ensures { IsTrue result ↔ (a ≡ b → ⊥) }
{
    a != b
}

/// Up to which index, `stop` at most, the numbers from index `start` on continue a union that the numbers before them
/// are.
fn continued_to<C: Cells>(cells: &C, start: usize, stop: usize) -> usize
    requires order { start ≤ stop }
    requires within { stop ≤ length (C.ids cells.now) }
    ensures to { result ≤ stop }
    ensures packed { IsPacked (take start (C.ids cells.now)) → IsPacked (take result (C.ids cells.now)) }
    ensures whole { IsPacked (take start (C.ids cells.now)) → IsPacked (take stop (C.ids cells.now))
        → result ≡ stop }
{
    if surely_continues(cells, start, stop) {
        return stop;
    }
    // The last three cells, and where they end. 0 is the identifier of no cell.
    let mut a = before(cells, start, 3);
    let mut b = before(cells, start, 2);
    let mut c = before(cells, start, 1);
    let mut end = end_before(cells, start);
    for k in start..stop {
        let d = cells.id(k);
        if !continues(a, b, c, d, end) {
            return k;
        }
        a = b;
        b = c;
        c = d;
        end = end_of(d);
    }
    stop
}

/// The number `back` places before index `k`, or 0 if there is none.
#[inline(always)]
fn before<C: Cells>(cells: &C, k: usize, back: usize) -> u64
    requires within { k ≤ length (C.ids cells.now) }
    requires back { 0 < back }
    ensures there { back ≤ k → result ≡ slice_index (C.ids cells.now) (k - back) }
    ensures none { k < back → result ≡ 0 }
{
    if k < back {
        return 0;
    }
    cells.id(k - back)
}

/// The leaf by which the cell before index `k` ends, or 0 if there is none.
#[inline(always)]
fn end_before<C: Cells>(cells: &C, k: usize) -> u64
    requires { k ≤ length (C.ids cells.now) }
    ensures there { 0 < k → IsCell (slice_index (C.ids cells.now) (k - 1)) → result
        ≡ first_leaf (slice_index (C.ids cells.now) (k - 1)) + size_of (slice_index (C.ids cells.now) (k - 1)) }
    ensures none { k ≡ 0 → result ≡ 0 }
{
    if k == 0 {
        return 0;
    }
    end_of(cells.id(k - 1))
}

/// Whether the number `d` continues a union whose last three cells are `a`, `b` and `c`, and which ends by the leaf
/// `end`: it is the identifier of a cell that comes after that, and doesn't complete four children of one cell.
#[inline(always)]
fn continues(a: u64, b: u64, c: u64, d: u64, end: u64) -> bool
    ensures { IsTrue result ↔ (IsCell d × (end ≤ first_leaf d) × ((p : ℕ) → IsFamily a b c d p → ⊥)) }
{
    if !is_cell(d) {
        return false;
    }
    if first_of(d) < end {
        return false;
    }
    if ends_family(a, b, c, d) {
        return false;
    }
    true
}

/// Whether a number is the identifier of a cell. `CellId::from_id` is the same test; this one counts no bits, which
/// takes longer, and has no branch.
#[inline(always)]
fn is_cell(id: u64) -> bool
    ensures { IsTrue result ↔ IsCell id }
{
    let is_marked = id & id.wrapping_neg() & MARKERS > 0;
    (id < FACES_END) & is_marked
}

/// How many of the `6 * 4^30` leaves a union has. Linear.
pub fn leaf_count<C: Cells>(cells: &C) -> u64
    ensures value { IsLocal (C.ids cells.now) → result ≡ count_below (has_leaf (C.ids cells.now)) LEAVES }
    ensures most { IsLocal (C.ids cells.now) → result ≤ LEAVES }
{
    let mut total = 0u64;
    for k in 0..cells.len() {
        total = total.wrapping_add(leaves_of(cells.id(k)));
    }
    total
}

/// How many leaves the cell with this identifier has. Doesn't check that a cell has it.
#[inline(always)]
fn leaves_of(id: u64) -> u64
    ensures { IsCell id → result ≡ size_of id }
{
    id & id.wrapping_neg()
}

/// Whether a number is the last of four children, and the other three are those before it. Begins with the exclusive-or
/// of the three, as S2 does, since it is the fourth of few cells in a row that are no family.
#[inline(always)]
fn ends_family(a: u64, b: u64, c: u64, d: u64) -> bool
    ensures { IsTrue result ↔ ((p : ℕ) × IsFamily a b c d p) }
{
    let fourth = a ^ b ^ c;
    if fourth != d {
        return false;
    }
    are_siblings(a, b, c, d)
}

/// Whether these four are the children of one cell, in order.
#[inline(never)]
fn are_siblings(a: u64, b: u64, c: u64, d: u64) -> bool
    ensures { IsTrue result ↔ ((p : ℕ) × IsFamily a b c d p) }
{
    let Some(cell) = CellId::from_id(d) else {
        return false;
    };
    match parent_of_siblings(a, b, c, cell) {
        Some(_) => true,
        None => false,
    }
}

/// The cell whose children a cell and the three numbers before it are, in order. Begins as `ends_family`.
#[inline(always)]
pub fn parent_of_family(a: u64, b: u64, c: u64, d: CellId) -> Option<CellId>
    ensures { MatchOption result ((p : ℕ) → IsFamily a b c d p → ⊥) (λ p. IsFamily a b c d p) }
{
    let fourth = a ^ b ^ c;
    if fourth != d.id() {
        return None;
    }
    parent_of_siblings(a, b, c, d)
}

/// The same, without that beginning.
fn parent_of_siblings(a: u64, b: u64, c: u64, d: CellId) -> Option<CellId>
    ensures { MatchOption result ((p : ℕ) → IsFamily a b c d p → ⊥) (λ p. IsFamily a b c d p) }
{
    let level = d.level();
    if level == 0 {
        return None;
    }
    let parent = d.parent(level - 1);
    if are_children(parent, a, b, c, d) {
        Some(parent)
    } else {
        None
    }
}

/// Whether these four are the children of a cell, in order.
fn are_children(parent: CellId, a: u64, b: u64, c: u64, d: CellId) -> bool
    requires { level_of parent < GREATEST_LEVEL }
    ensures { IsTrue result ↔ IsFamily a b c d parent }
{
    let _ = parent.id();
    c == parent.child(2).id()
        && d == parent.child(3)
        && a == parent.child(0).id()
        && b == parent.child(1).id()
}

/// The index of the first number that is not the identifier of a cell. Linear.
pub fn first_wrong<C: Cells>(cells: &C) -> Option<usize>
    ensures { MatchOption result (All IsCell (C.ids cells.now)) (λ k. IsFirstWrong (C.ids cells.now) k) }
{
    if are_cells(cells) {
        return None;
    }
    for k in 0..cells.len() {
        if !is_cell(cells.id(k)) {
            return Some(k);
        }
    }
    None
}

/// Whether each number is the identifier of a cell. Has no branch on a number.
fn are_cells<C: Cells>(cells: &C) -> bool
    ensures { IsTrue result → All IsCell (C.ids cells.now) }
{
    let mut all = true;
    for k in 0..cells.len() {
        all = all & is_cell(cells.id(k));
    }
    all
}

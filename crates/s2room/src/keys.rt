//! The cells of a union and all their ancestors: the keys by which an index finds the unions that share a leaf.
//!
//! Identifiers in order are cells in order of their middles. So an ancestor comes before the first cell in it if that
//! cell lies in its second half; otherwise it comes after the last cell in its first half.
ghost use Rattle.std.specs.Prelude.{◌≡◌, ◌+◌, ◌-◌, ◌^◌, ◌<◌, ◌≤◌, ℕ, Contains, List, []};
ghost use Rattle.std.specs.Prelude.{◌∷◌, ◌++◌, drop, length, slice_index};
ghost use Rattle.std.specs.List.Sorted.{IsStrictlyIncreasing};
ghost use Rattle.s2cell.specs.Cell.{IsCell, IsInside, first_leaf, level_of, parent_of};
ghost use Rattle.s2list.specs.Union.{IsLocal};
ghost use Rattle.s2list.specs.Room.{IsPut, LeavesRest, PutsOne};
ghost use Rattle.s2room.specs.Ancestors.{AreHolders};
ghost use Rattle.s2room.specs.Working.Ancestors.{IsAfter, IsBefore, LeadsTo, PutsThose};

use s2cell::CellId;
use s2list::{Cells, put};

/// Puts the cells of a union and all their ancestors, ascending, each once, at the front of a room, if they fit, and
/// answers how many they are. Takes no memory. The work is in proportion to their number, at most 31 for each cell of
/// the union. Numbers that are not cells are passed over.
pub fn ancestors<C: Cells>(cells: &C, out: &mut [u64]) -> usize
    ensures len { length out.new ≡ length out.old }
    ensures put { IsLocal (C.ids cells.now) → PutsOne (AreHolders (C.ids cells.now)) out.old out.new result }
    ensures rest { drop result out.new ≡ drop result out.old }
{
    let mut n = 0;
    let mut from = 0;
    for k in 0..cells.len() {
        if let Some(cell) = CellId::from_id(cells.id(k)) {
            n = put_before(out, n, cell, from);
            n = put(out, n, cell.id());
            n = put_after(out, n, cell, id_after(cells, k));
            from = cell.end_leaf();
        }
    }
    n
}

/// The number after the one at index `k`, or the greatest number if that is the last.
fn id_after<C: Cells>(cells: &C, k: usize) -> u64
    requires within { k < length (C.ids cells.now) }
    ensures next { k + 1 < length (C.ids cells.now) → result ≡ slice_index (C.ids cells.now) (k + 1) }
    ensures last { length (C.ids cells.now) ≤ k + 1 → result ≡ 2 ^ 64 - 1 }
{
    if k < cells.len() - 1 {
        cells.id(k + 1)
    } else {
        u64::MAX
    }
}

/// Puts the ancestors of a cell that come before it and have no leaf before `from`, and answers how many numbers there
/// are then.
fn put_before(out: &mut [u64], n: usize, cell: CellId, from: u64) -> usize
    ensures len { length out.new ≡ length out.old }
    ensures put { (list : List ℕ) → LeadsTo list cell from
        → PutsThose (IsBefore cell from) list out.old out.new n result }
    ensures rest { LeavesRest out.old out.new n result }
{
    let middle = cell.id();
    let mut count = n;
    for level in outermost(cell, from)..cell.level() {
        count = put_between(out, count, cell.parent(level), 0, middle);
    }
    count
}

/// The least level at which the cell's ancestor has no leaf before `from`.
fn outermost(cell: CellId, from: u64) -> u8
    ensures within { result ≤ level_of cell }
    ensures start { from ≤ first_leaf cell → from ≤ first_leaf (parent_of cell result) }
    ensures least { (c : ℕ) → IsCell c → IsInside cell c → from ≤ first_leaf c → result ≤ level_of c }
{
    let _ = cell.id();
    let mut level = cell.level();
    while level > 0 && from <= cell.parent(level - 1).first_leaf() {
        level -= 1;
    }
    level
}

/// Puts the ancestors of a cell that come after it and before the cell `next`, from the smallest to the one that
/// contains both, and answers how many numbers there are then.
fn put_after(out: &mut [u64], n: usize, cell: CellId, next: u64) -> usize
    ensures len { length out.new ≡ length out.old }
    ensures put { (list : List ℕ) → IsStrictlyIncreasing list → ((c : ℕ) → Contains list c → c ≤ cell)
        → PutsThose (IsAfter cell next) list out.old out.new n result }
    ensures rest { LeavesRest out.old out.new n result }
{
    let middle = cell.id();
    let mut count = n;
    let mut level = cell.level();
    while level > 0 {
        level -= 1;
        let ancestor = cell.parent(level);
        count = put_between(out, count, ancestor, middle, next);
        if next <= ancestor.range_max().id() {
            return count;
        }
    }
    count
}

/// Puts a cell if its identifier lies between the two numbers, and answers how many numbers there are then.
fn put_between(out: &mut [u64], n: usize, cell: CellId, low: u64, high: u64) -> usize
    ensures len { length out.new ≡ length out.old }
    ensures added { low < cell → cell < high
        → (list room : List ℕ) → IsPut list room out.old n → IsPut (list ++ cell ∷ []) room out.new result }
    ensures same { (low < cell → cell < high → ⊥) → (out.new ≡ out.old) × (result ≡ n) }
    ensures rest { LeavesRest out.old out.new n result }
{
    if low < cell.id() && cell.id() < high {
        put(out, n, cell.id())
    } else {
        n
    }
}

//! The cells of a union cut to a level, written into a room or a list of their own: they are the coverings of the union
//! at that level. Those that are replaced by ancestors are put together row by row.
ghost use Rattle.std.specs.Prelude.{◌≡◌, ◌<◌, ◌≤◌, [], ℕ, List, IfErr, IfNone, IfOk, IfSome, length, slice_index, take};
ghost use Rattle.std.specs.Prelude.{drop};
ghost use Rattle.s2cell.specs.Cell.{IsCell, first_leaf, level_of};
ghost use Rattle.s2list.specs.Union.{IsLocal, IsNormalForm, has_leaf};
ghost use Rattle.s2list.specs.Output.{WritesUpTo};
ghost use Rattle.s2list.specs.Room.{PutsUpTo};
ghost use Rattle.s2cover.specs.Working.Cut.{cells_cut, cut_at};
ghost use Rattle.s2cover.specs.Cut.{cells_kept};
ghost use Rattle.s2cover.specs.Working.Rows.{HasRow};

use s2cell::{CellId, GREATEST_LEVEL};
use s2list::{Cells, Output, Room, cell_of, end_of, find_from, first_of, put, put_gap};
use s2union::{CellUnion, Grown};
use std::alloc::{AllocError, Global};

/// Leaves in a row, from `lo` to before `hi`, the place of the cell after those that have them, and that cell, cut to
/// the level.
#[derive(Clone, Copy)]
struct Row {
    lo: u64,
    hi: u64,
    next: usize,
    after: u64,
}

/// Puts the cells of a union, with those deeper than the level replaced by their ancestors at the level, normalized, at
/// the front of a room, and answers how many they are. If they are more than `most`, it may stop as soon as that is
/// known, and the answer is some number above `most`. Takes no memory. The cells in one cell of the level are passed by
/// a search, in steps that leap.
pub(crate) fn put_cut<C: Cells>(cells: &C, level: u8, most: usize, out: &mut [u64]) -> usize
    requires level { level ≤ GREATEST_LEVEL }
    ensures len { length out.new ≡ length out.old }
    ensures made { IsLocal (C.ids cells.now)
        → PutsUpTo most (IsNormalForm (has_leaf (cells_cut level (C.ids cells.now)))) out.old out.new result }
    ensures rest { drop result out.new ≡ drop result out.old }
{
    let mut room = Room { out };
    match write_cut(cells, level, most, &mut room) {
        Ok(n) => n,
        Err(_) => unreachable!(),
    }
}

/// The same as a union of its own, if they are at most `most`. Takes memory for as many cells as the union has, and
/// fails only if there is none.
pub(crate) fn union_cut<C: Cells>(
    alloc: Global,
    cells: &C,
    level: u8,
    most: usize,
) -> Result<Option<CellUnion>, AllocError>
    requires level { level ≤ GREATEST_LEVEL }
    requires local { IsLocal (C.ids cells.now) }
    ensures normal { IfOk result (λ union. IfSome union (λ u.
        IsNormalForm (has_leaf (cells_cut level (C.ids cells.now))) u.cells)) }
    ensures leaves { IfOk result (λ union. IfSome union (λ u. (x : ℕ) →
        has_leaf u.cells x ≡ has_leaf (cells_cut level (C.ids cells.now)) x)) }
    ensures within { IfOk result (λ union. IfSome union (λ u. length u.cells ≤ most)) }
    ensures many { IfOk result (λ union. IfNone union ((u : List ℕ) →
        IsNormalForm (has_leaf (cells_cut level (C.ids cells.now))) u → most < length u)) }
{
    let mut list = Vec::with_capacity(alloc, cells.len())?;
    let mut grown = Grown {
        list: &mut list,
        most,
    };
    if write_cut(cells, level, most, &mut grown)? > most {
        return Ok(None);
    }
    Ok(Some(CellUnion::from_normalized(list)))
}

/// Writes the cells of a union, cut to a level and normalized, as `put_cut` says.
fn write_cut<C: Cells, W: Output>(
    cells: &C,
    level: u8,
    most: usize,
    out: &mut W,
) -> Result<usize, AllocError>
    requires level { level ≤ GREATEST_LEVEL }
    requires empty { W.holds [] out.old out.old 0 }
    ensures place { W.place out.new ≡ W.place out.old }
    ensures made { IfOk result (λ n. IsLocal (C.ids cells.now) → WritesUpTo most
        (has_leaf (cells_cut level (C.ids cells.now))) (λ list. W.holds list out.old out.new n) n) }
    ensures rest { IfOk result (λ n. W.rest out.old out.old 0 → W.rest out.old out.new n) }
    ensures sure { IfErr result (λ _. W.refuses) }
{
    let mut n = 0;
    let mut i = 0;
    let mut first = first_cut(cells, level);
    while i < cells.len() && n <= most {
        let row = row_at(cells, i, first, level);
        n = put_gap(out, n, row.lo, row.hi)?;
        i = row.next;
        first = row.after;
    }
    Ok(n)
}

/// The first cell, cut to the level; 0 if there is none.
fn first_cut<C: Cells>(cells: &C, level: u8) -> u64
    requires level { level ≤ GREATEST_LEVEL }
    ensures { IsLocal (C.ids cells.now) → 0 < length (C.ids cells.now)
        → result ≡ cut_at level (slice_index (C.ids cells.now) 0) }
{
    if cells.len() == 0 {
        return 0;
    }
    cut(cells.id(0), level)
}

/// The leaves in a row that begin with the cell at index `i`, of the cells of a union cut to a level. That cell, cut,
/// is `first`. The cells in one cell of the level are passed by a search, in steps that leap.
#[inline(always)]
fn row_at<C: Cells>(cells: &C, i: usize, first: u64, level: u8) -> Row
    requires level { level ≤ GREATEST_LEVEL }
    requires there { i < length (C.ids cells.now) }
    requires first { IsLocal (C.ids cells.now) → first ≡ cut_at level (slice_index (C.ids cells.now) i) }
    ensures from { i < result.next }
    ensures within { result.next ≤ length (C.ids cells.now) }
    ensures row { IsLocal (C.ids cells.now)
        → HasRow (cells_cut level (C.ids cells.now)) i result.next result.lo result.hi }
    ensures apart { IsLocal (C.ids cells.now) → result.next < length (C.ids cells.now)
        → result.hi < first_leaf (cut_at level (slice_index (C.ids cells.now) result.next)) }
    ensures after { IsLocal (C.ids cells.now) → result.next < length (C.ids cells.now)
        → result.after ≡ cut_at level (slice_index (C.ids cells.now) result.next) }
{
    let len = cells.len();
    let lo = first_of(first);
    let mut hi = end_of(first);
    let mut next = find_from(cells, i + 1, hi);
    while next < len {
        let id = cut(cells.id(next), level);
        if hi < first_of(id) {
            return Row {
                lo,
                hi,
                next,
                after: id,
            };
        }
        let end = end_of(id);
        hi = hi.max(end);
        next = find_from(cells, next + 1, end);
    }
    Row {
        lo,
        hi,
        next,
        after: 0,
    }
}

/// Puts the cells of a union down to the level at the front of a room, and answers how many they are. If they are more
/// than `most`, it may stop as soon as that is known, and the answer is some number above `most`. Takes no memory. The
/// deeper cells in one cell of the level are passed by a search, in steps that leap.
pub(crate) fn put_kept<C: Cells>(cells: &C, level: u8, most: usize, out: &mut [u64]) -> usize
    requires level { level ≤ GREATEST_LEVEL }
    ensures len { length out.new ≡ length out.old }
    ensures made { IsLocal (C.ids cells.now)
        → PutsUpTo most (λ list. list ≡ cells_kept level (C.ids cells.now)) out.old out.new result }
    ensures rest { drop result out.new ≡ drop result out.old }
{
    let len = cells.len();
    let mut n = 0;
    let mut i = 0;
    while n <= most {
        let at = next_kept(cells, i, level);
        if at == len {
            return n;
        }
        n = put(out, n, cells.id(at));
        i = at + 1;
    }
    n
}

/// The same as a union of its own, if they are at most `most`. Takes memory for these, and fails only if there is none.
pub(crate) fn union_kept<C: Cells>(
    alloc: Global,
    cells: &C,
    level: u8,
    most: usize,
) -> Result<Option<CellUnion>, AllocError>
    requires level { level ≤ GREATEST_LEVEL }
    requires local { IsLocal (C.ids cells.now) }
    ensures kept { IfOk result (λ union. IfSome union (λ u. u.cells ≡ cells_kept level (C.ids cells.now))) }
    ensures within { IfOk result (λ union. IfSome union (λ u. length u.cells ≤ most)) }
    ensures many { IfOk result (λ union. IfNone union (most < length (cells_kept level (C.ids cells.now)))) }
{
    let mut list = Vec::new(alloc);
    let mut i = 0;
    while list.len() <= most {
        let at = next_kept(cells, i, level);
        if at == cells.len() {
            return Ok(Some(CellUnion::from_normalized(list)));
        }
        list.push(cell_of(cells.id(at)))?;
        i = at + 1;
    }
    Ok(None)
}

/// The index of the first cell of a union from index `start` on that is not deeper than the level; the number of its
/// cells if there is none. The deeper cells in one cell of the level are passed by a search, in steps that leap.
#[inline(always)]
fn next_kept<C: Cells>(cells: &C, start: usize, level: u8) -> usize
    requires level { level ≤ GREATEST_LEVEL }
    requires within { start ≤ length (C.ids cells.now) }
    ensures from { start ≤ result }
    ensures within { result ≤ length (C.ids cells.now) }
    ensures passed { IsLocal (C.ids cells.now)
        → cells_kept level (take result (C.ids cells.now)) ≡ cells_kept level (take start (C.ids cells.now)) }
    ensures kept { IsLocal (C.ids cells.now) → result < length (C.ids cells.now)
        → level_of (slice_index (C.ids cells.now) result) ≤ level }
{
    let mut i = start;
    while i < cells.len() {
        let id = cells.id(i);
        let whole = cut(id, level);
        if whole == id {
            return i;
        }
        i = find_from(cells, i + 1, end_of(whole));
    }
    i
}

/// The cell, or its ancestor at the level if it is deeper. A number that is not a cell stays as it is.
#[inline(always)]
fn cut(id: u64, level: u8) -> u64
    requires { level ≤ GREATEST_LEVEL }
    ensures { IsCell id → result ≡ cut_at level id }
{
    if let Some(cell) = CellId::from_id(id) {
        if cell.level() > level {
            return cell.parent(level).id();
        }
    }
    id
}

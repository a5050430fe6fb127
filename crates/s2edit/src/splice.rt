//! Edits by one cell. One search finds where the cell lies among those of the list, and the change follows: cells next
//! to each other go, and others take their place.
//!
//! If a cell is added, the cells in it go, and as long as its three siblings are then beside it, they go too and their
//! parent comes. If a cell is taken out, the cells in it go; or the one that holds it goes, and what is left of that
//! comes.
ghost use Rattle.std.specs.Prelude.{◌≡◌, ◌≤◌, ◌<◌, ◌-◌, ◌+◌, ◌↔◌, ◌&&◌, not, ℕ, true, [], ◌∷◌, length, take, drop};
ghost use Rattle.std.specs.Prelude.{IfOk, IfSome, IsNone, IsTrue, slice_index};
ghost use Rattle.s2cell.specs.Cell.{IsCell, level_of, child_of, first_leaf, size_of, IsInside};
ghost use Rattle.s2list.specs.Union.{has_leaf, IsLocal};
ghost use Rattle.s2list.specs.Packed.{IsPlace};
ghost use Rattle.s2list.specs.Sets.{union_of, difference_of};
ghost use Rattle.s2union.specs.Apply.{has};
ghost use Rattle.s2edit.specs.Diff.{IsDiff};
ghost use Rattle.s2edit.specs.Working.Named.{Gives};
ghost use Rattle.s2edit.specs.Working.Splice.{IsRun, IsPlaceOf, Completes, Siblings, above, child_start};

use crate::Register;
use crate::change::Change;
use s2cell::CellId;
use s2list::{CellList, Uncounted, find_counted, find_from, put_gap};
use s2union::{CellUnion, Grown};
use std::alloc::{AllocError, Global};

/// A cell that no cell of a list holds, and the cells of the list in it: those from index `from` to before `to`.
#[derive(Drop)]
pub(crate) struct Run {
    /// The cell.
    cell: CellId,
    /// How many cells of the list lie before it.
    from: usize,
    /// How many lie before it or in it.
    to: usize,
}

/// The change that adds the leaves of a cell, and the index from which on it is made.
pub(crate) fn adding_cell(
    alloc: Global,
    register: Register,
    union: &CellUnion,
    cell: CellId,
) -> Result<(Change, usize), AllocError>
    ensures gives { IfOk result (λ found.
        Gives (union_of (has_leaf union.now.cells) (has_leaf (cell ∷ []))) register union.now.cells found.0) }
    ensures place { IfOk result (λ found. IsPlaceOf found.0 union.now.cells found.1) }
{
    let list = union.cells();
    let from = place_of(list, cell);
    if holds_at(list, from, cell) {
        let none = Vec::new(alloc);
        return replacing(alloc, register, list, from, from, none);
    }
    let own = run_in(list, from, cell);
    let run = completed(list, own);
    let mut put = Vec::with_capacity(alloc, 1)?;
    put.push(run.cell)?;
    replacing(alloc, register, list, run.from, run.to, put)
}

/// The change that takes the leaves of a cell out, and the index from which on it is made.
pub(crate) fn removing_cell(
    alloc: Global,
    register: Register,
    union: &CellUnion,
    cell: CellId,
) -> Result<(Change, usize), AllocError>
    ensures gives { IfOk result (λ found.
        Gives (difference_of (has_leaf union.now.cells) (has_leaf (cell ∷ []))) register union.now.cells found.0) }
    ensures place { IfOk result (λ found. IsPlaceOf found.0 union.now.cells found.1) }
{
    let list = union.cells();
    let from = place_of(list, cell);
    if holds_at(list, from, cell) {
        let put = rest_of(alloc, list[from], cell)?;
        return replacing(alloc, register, list, from, from + 1, put);
    }
    let run = run_in(list, from, cell);
    let none = Vec::new(alloc);
    replacing(alloc, register, list, run.from, run.to, none)
}

/// The change that takes the cells of a list from one index to another out, and puts others in; and the first index.
fn replacing(
    alloc: Global,
    register: Register,
    list: &[CellId],
    from: usize,
    to: usize,
    put: Vec<CellId>,
) -> Result<(Change, usize), AllocError>
    requires order { (from ≤ to) × (to ≤ length list.now) }
    requires lists { IsDiff (take (to - from) (drop from list.now)) put.items }
    ensures change { IfOk result (λ found. found.0
        ≡ record { register = register; out = take (to - from) (drop from list.now); put = put.items }) }
    ensures from { IfOk result (λ found. found.1 ≡ from) }
{
    let out = Vec::from_slice(alloc, &list[from..to])?;
    Ok((Change { register, out, put }, from))
}

/// How many cells of a list lie before a cell.
fn place_of(list: &[CellId], cell: CellId) -> usize
    requires { IsLocal list.now }
    ensures place { IsPlace list.now (first_leaf cell) result }
    ensures cell { IsCell cell }
{
    find_counted(&CellList { cells: list }, cell.first_leaf(), &mut Uncounted)
}

/// Whether a list has a cell at an index, and it holds another one.
fn holds_at(list: &[CellId], at: usize, cell: CellId) -> bool
    ensures { IsTrue result ↔ ((at < length list.now) × IsInside cell (slice_index list.now at)) }
{
    at < list.len() && list[at].contains(cell)
}

/// Whether a list has a cell at an index.
fn is_at(list: &[CellId], at: usize, cell: CellId) -> bool
    ensures { IsTrue result ↔ ((at < length list.now) × (slice_index list.now at ≡ cell)) }
{
    at < list.len() && list[at] == cell
}

/// The run of the cells in a cell that none of the list holds.
fn run_in(list: &[CellId], from: usize, cell: CellId) -> Run
    requires local { IsLocal list.now }
    requires place { IsPlace list.now (first_leaf cell) from }
    requires unheld { (from < length list.now) × IsInside cell (slice_index list.now from) → ⊥ }
    ensures run { IsRun list.now result }
    ensures cell { result.cell ≡ cell }
{
    let to = find_from(&CellList { cells: list }, from, cell.end_leaf());
    Run { cell, from, to }
}

/// The greatest cell that the cells of a list complete with a cell; this one itself, if a cell of the list holds it.
pub(crate) fn completed_with(list: &[CellId], cell: CellId) -> CellId
    requires { IsLocal list.now }
{
    let from = place_of(list, cell);
    if holds_at(list, from, cell) {
        return cell;
    }
    let own = run_in(list, from, cell);
    completed(list, own).cell
}

/// The run in the greatest cell that the cells of a list complete with the one of a run.
fn completed(list: &[CellId], run: Run) -> Run
    requires local { IsLocal list.now }
    requires run { IsRun list.now run }
    ensures run { IsRun list.now result }
    ensures completes { Completes list.now run.cell result.cell }
    ensures greatest { Siblings list.now result.cell → ⊥ }
{
    let mut greatest = run;
    loop {
        match in_parent(list, &greatest) {
            Some(larger) => greatest = larger,
            None => return greatest,
        }
    }
}

/// The run in the parent of a run's cell, if the list has the three siblings of the cell.
fn in_parent(list: &[CellId], run: &Run) -> Option<Run>
    requires local { IsLocal list.now }
    requires run { IsRun list.now run.now }
    ensures run { IfSome result (λ r. IsRun list.now r) }
    ensures cell { IfSome result (λ r. r.cell ≡ above run.now.cell) }
    ensures higher { IfSome result (λ r. level_of r.cell < level_of run.now.cell) }
    ensures siblings { IfSome result (λ _. Siblings list.now run.now.cell) }
    ensures none { IsNone result → Siblings list.now run.now.cell → ⊥ }
{
    let level = run.cell.level();
    if level == 0 {
        return None;
    }
    let parent = run.cell.parent(level - 1);
    let place = place_among(parent, run.cell);
    let from = before_all(list, run.from, parent, place)?;
    let to = after_all(list, run.to, parent, place)?;
    Some(Run {
        cell: parent,
        from,
        to,
    })
}

/// Which child of its parent a cell is.
fn place_among(parent: CellId, cell: CellId) -> u8
    requires deep { 0 < level_of cell }
    requires parent { parent ≡ above cell }
    ensures few { result < 4 }
    ensures child { child_of parent result ≡ cell }
{
    let _ = cell.id();
    let mut place = 0;
    while place < 3 {
        if parent.child(place) == cell {
            return place;
        }
        place += 1;
    }
    place
}

/// The index of the first child of a parent, if the list has all children before number `place`. Those end before the
/// index `at`.
fn before_all(list: &[CellId], at: usize, parent: CellId, place: u8) -> Option<usize>
    requires local { IsLocal list.now }
    requires inner { level_of parent < 30 }
    requires few { place < 4 }
    requires at { IsPlace list.now (child_start parent place) at }
    ensures first { IfSome result (λ from. IsPlace list.now (first_leaf parent) from) }
    ensures held { IfSome result (λ _. (i : ℕ) → i < place → has list.now (child_of parent i) ≡ true) }
    ensures none { IsNone result → ((i : ℕ) → i < place → has list.now (child_of parent i) ≡ true) → ⊥ }
{
    let _ = parent.id();
    let mut from = at;
    let mut left = place;
    while left > 0 {
        left -= 1;
        if from == 0 {
            return None;
        }
        from -= 1;
        if !is_at(list, from, parent.child(left)) {
            return None;
        }
    }
    Some(from)
}

/// The index after the last child of a parent, if the list has all children after number `place`. Those begin at the
/// index `at`.
fn after_all(list: &[CellId], at: usize, parent: CellId, place: u8) -> Option<usize>
    requires local { IsLocal list.now }
    requires inner { level_of parent < 30 }
    requires few { place < 4 }
    requires at { IsPlace list.now (child_start parent (place + 1)) at }
    ensures last { IfSome result (λ to. IsPlace list.now (first_leaf parent + size_of parent) to) }
    ensures held { IfSome result (λ _. (i : ℕ) → place < i → i < 4 → has list.now (child_of parent i) ≡ true) }
    ensures none { IsNone result → ((i : ℕ) → place < i → i < 4 → has list.now (child_of parent i) ≡ true) → ⊥ }
{
    let _ = parent.id();
    let mut to = at;
    let mut later = place + 1;
    while later < 4 {
        if !is_at(list, to, parent.child(later)) {
            return None;
        }
        to += 1;
        later += 1;
    }
    Some(to)
}

/// The cells that are left of a holder without a cell in it: those before the cell, and those after it. They are the
/// siblings of the cell and of its parents below the holder, three for each level, and the list has just their room.
fn rest_of(alloc: Global, holder: CellId, cell: CellId) -> Result<Vec<CellId>, AllocError>
    requires { IsInside cell holder }
    ensures local { IfOk result (λ rest. IsLocal rest.items) }
    ensures leaves { IfOk result (λ rest. (x : ℕ) →
        has_leaf rest.items x ≡ (has_leaf (holder ∷ []) x && not (has_leaf (cell ∷ []) x))) }
{
    let _ = (holder.id(), cell.id());
    let levels = usize::from(cell.level() - holder.level());
    let mut rest = Vec::with_capacity(alloc, 3 * levels)?;
    let mut grown = Grown {
        list: &mut rest,
        most: usize::MAX,
    };
    let count = put_gap(&mut grown, 0, holder.first_leaf(), cell.first_leaf())?;
    put_gap(&mut grown, count, cell.end_leaf(), holder.end_leaf())?;
    Ok(rest)
}

//! The cells of a union near given ones: for an edit, near the cells that it names, and for a restore, near those that
//! its changes name.
ghost use Rattle.std.specs.Prelude.{◌≡◌, ◌≤◌, ◌<◌, ℕ, true, length, IfOk, OnOk};
ghost use Rattle.s2cell.specs.Cell.{level_of, first_leaf, IsInside};
ghost use Rattle.s2list.specs.Union.{has_leaf, IsLocal, LiesIn};
ghost use Rattle.s2list.specs.Packed.{FirstEndBy};
ghost use Rattle.s2union.specs.Apply.{has};
ghost use Rattle.s2edit.specs.Working.Part.{around, Grows, IsPartNear, IsWatched, HasChildren};

use s2cell::CellId;
use s2list::{CellList, find_from, first_place};
use s2union::{CellUnion, normalise};
use std::alloc::{AllocError, Global};

/// If the list has up to this number of cells in the parent of a cell, the parent is watched, and no sibling is looked
/// for.
const FEW_BESIDE: usize = 4;

/// The cells of a union that share a leaf with given cells, and their siblings; maybe with a few others in the parents
/// of these. A few searches for each cell, which are short if the cells are in order. Takes memory for the part.
pub(crate) fn part_near(
    alloc: Global,
    union: &CellUnion,
    cells: &[CellId],
) -> Result<CellUnion, AllocError>
    ensures { IfOk result (λ part. IsPartNear (has cells.now) union.now.cells part.cells) }
{
    let mut beside = Vec::new(alloc);
    watch(&mut beside, union.cells(), cells)?;
    let watched = normalise(beside);
    let part = union.intersection(&watched)?;
    Ok(part)
}

/// Appends cells, and the siblings of each that the list has.
fn watch(watched: &mut Vec<CellId>, list: &[CellId], cells: &[CellId]) -> Result<(), AllocError>
    requires { IsLocal list.now }
    ensures grows { OnOk result (Grows (has_leaf watched.old.items) (has_leaf watched.new.items) list.now) }
    ensures watched { OnOk result ((c : ℕ) → has cells.now c ≡ true →
        IsWatched (has_leaf watched.new.items) list.now c) }
{
    let mut at = 0;
    for cell in cells {
        at = watch_beside(watched, list, at, *cell)?;
    }
    Ok(())
}

/// Appends a cell and its siblings that a list has, or the parent if the list has few cells in it. The search begins at
/// the index `near` if the cells before it lie before the parent. Answers where it ended.
fn watch_beside(
    watched: &mut Vec<CellId>,
    list: &[CellId],
    near: usize,
    cell: CellId,
) -> Result<usize, AllocError>
    requires { IsLocal list.now }
    ensures grows { OnOk result (Grows (has_leaf watched.old.items) (has_leaf watched.new.items) list.now) }
    ensures watched { OnOk result (IsWatched (has_leaf watched.new.items) list.now cell) }
{
    let _ = cell.id();
    let parent = around(cell);
    let from = first_place(&CellList { cells: list }, near, parent.first_leaf());
    let at = watch_holder(watched, list, from, parent)?;
    if has_few(list, at, parent) {
        watched.push(parent)?;
        return Ok(at);
    }
    watched.push(cell)?;
    let end = watch_children(watched, list, at, parent)?;
    Ok(end)
}

/// Whether a list has few cells in a parent. If it has any, the first is at the index `at`.
fn has_few(list: &[CellId], at: usize, parent: CellId) -> bool {
    list.len().saturating_sub(at) <= FEW_BESIDE || !parent.contains(list[at + FEW_BESIDE])
}

/// Appends the children of a cell that a list has, or the larger cell of the list in which they lie. The search begins
/// at an index, and the answer is where it ended.
fn watch_children(
    watched: &mut Vec<CellId>,
    list: &[CellId],
    from: usize,
    parent: CellId,
) -> Result<usize, AllocError>
    requires local { IsLocal list.now }
    requires level { level_of parent < 30 }
    requires within { from ≤ length list.now }
    requires ended { FirstEndBy list.now from (first_leaf parent) }
    ensures grows { OnOk result (Grows (has_leaf watched.old.items) (has_leaf watched.new.items) list.now) }
    ensures children { OnOk result (HasChildren (has_leaf watched.new.items) list.now parent) }
{
    let _ = parent.id();
    let mut at = from;
    for k in 0..4 {
        at = watch_holder(watched, list, at, parent.child(k))?;
    }
    Ok(at)
}

/// Appends the cell of a list in which a cell lies, if there is one. The search begins at an index, and the answer is
/// where it ended.
fn watch_holder(
    watched: &mut Vec<CellId>,
    list: &[CellId],
    from: usize,
    cell: CellId,
) -> Result<usize, AllocError>
    requires local { IsLocal list.now }
    requires within { from ≤ length list.now }
    requires ended { FirstEndBy list.now from (first_leaf cell) }
    ensures within { IfOk result (λ at. at ≤ length list.now) }
    ensures ended { IfOk result (λ at. FirstEndBy list.now at (first_leaf cell)) }
    ensures grows { OnOk result (Grows (has_leaf watched.old.items) (has_leaf watched.new.items) list.now) }
    ensures holder { OnOk result ((h : ℕ) → has list.now h ≡ true → IsInside cell h →
        LiesIn (has_leaf watched.new.items) h) }
{
    let _ = cell.id();
    let at = find_from(&CellList { cells: list }, from, cell.first_leaf());
    if at >= list.len() {
        return Ok(at);
    }
    let holder = list[at];
    if holder.contains(cell) {
        watched.push(holder)?;
        return Ok(at);
    }
    Ok(at)
}

/// The parent of a cell, or the cell itself if it is a face.
fn around(cell: CellId) -> CellId
    ensures value { result ≡ around cell }
    ensures level { level_of result < 30 }
{
    cell.parent(cell.level().saturating_sub(1))
}

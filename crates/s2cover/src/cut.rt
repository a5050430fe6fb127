//! The coverings of a union, which are its own cells cut to a level.
ghost use Rattle.std.specs.Prelude.{◌≡◌, ◌<◌, ◌≤◌, drop, length, IfOk, IfErr};
ghost use Rattle.s2list.specs.Union.{has_leaf, IsLocal, IsNormalForm};
ghost use Rattle.s2list.specs.Room.{PutsUpTo};
ghost use Rattle.s2cover.specs.Coverings.{HasLeavesOf, TooManyMeans, inner_set, outer_set};

use crate::cut_to_level::{put_cut, put_kept, union_cut, union_kept};
use crate::region::CoverFault;
use s2cell::GREATEST_LEVEL;
use s2list::{CellList, Cells};
use s2union::CellUnion;
use std::alloc::Global;

/// Puts the outer covering of a union at the front of a room, and answers how many cells it has. If they are more than
/// `most`, it may stop as soon as that is known, and the answer is some number above `most`. Takes no memory, and one
/// pass over the union's cells, in which those in one cell of the level are passed by a search.
pub fn put_outer<C: Cells>(cells: &C, level: u8, most: usize, out: &mut [u64]) -> usize
    requires level { level ≤ GREATEST_LEVEL }
    ensures len { length out.new ≡ length out.old }
    ensures made { IsLocal (C.ids cells.now)
        → PutsUpTo most (IsNormalForm (outer_set (has_leaf (C.ids cells.now)) level)) out.old out.new result }
    ensures rest { drop result out.new ≡ drop result out.old }
{
    put_cut(cells, level, most, out)
}

/// Puts the inner covering of a union at the front of a room, as `put_outer` does the outer one.
pub fn put_inner<C: Cells>(cells: &C, level: u8, most: usize, out: &mut [u64]) -> usize
    requires level { level ≤ GREATEST_LEVEL }
    ensures len { length out.new ≡ length out.old }
    ensures made { IsLocal (C.ids cells.now)
        → PutsUpTo most (IsNormalForm (inner_set (has_leaf (C.ids cells.now)) level)) out.old out.new result }
    ensures rest { drop result out.new ≡ drop result out.old }
{
    put_kept(cells, level, most, out)
}

/// The outer covering of a union: the answer of `outer`, in one pass over the union's cells.
///
/// The covering is the union's cells, with those deeper than the level replaced by their ancestors at the level,
/// normalized. Takes memory for as many cells as the union has. `TooMany` is answered only if the finished covering has
/// more than `max` cells.
pub fn union_outer(
    alloc: Global,
    union: &CellUnion,
    level: u8,
    max: usize,
) -> Result<CellUnion, CoverFault>
    requires level { level ≤ GREATEST_LEVEL }
    ensures leaves { IfOk result (λ u. HasLeavesOf (outer_set (has_leaf union.now.cells) level) u.cells) }
    ensures local { IfOk result (λ u. IsLocal u.cells) }
    ensures normal { IfOk result (λ u. IsNormalForm (outer_set (has_leaf union.now.cells) level) u.cells) }
    ensures within { IfOk result (λ u. length u.cells ≤ max) }
    ensures many { IfErr result (TooManyMeans (outer_set (has_leaf union.now.cells) level) max) }
{
    let list = CellList {
        cells: union.cells(),
    };
    match union_cut(alloc, &list, level, max)? {
        Some(covering) => Ok(covering),
        None => Err(CoverFault::TooMany),
    }
}

/// The inner covering of a union: the answer of `inner`, in one pass over the union's cells.
///
/// The covering is the union's cells down to the level; deeper ones are left out. Takes memory for as many cells as the
/// covering has. `TooMany` is answered as by `union_outer`.
pub fn union_inner(
    alloc: Global,
    union: &CellUnion,
    level: u8,
    max: usize,
) -> Result<CellUnion, CoverFault>
    requires level { level ≤ GREATEST_LEVEL }
    ensures leaves { IfOk result (λ u. HasLeavesOf (inner_set (has_leaf union.now.cells) level) u.cells) }
    ensures local { IfOk result (λ u. IsLocal u.cells) }
    ensures normal { IfOk result (λ u. IsNormalForm (inner_set (has_leaf union.now.cells) level) u.cells) }
    ensures within { IfOk result (λ u. length u.cells ≤ max) }
    ensures many { IfErr result (TooManyMeans (inner_set (has_leaf union.now.cells) level) max) }
{
    let list = CellList {
        cells: union.cells(),
    };
    match union_kept(alloc, &list, level, max)? {
        Some(covering) => Ok(covering),
        None => Err(CoverFault::TooMany),
    }
}

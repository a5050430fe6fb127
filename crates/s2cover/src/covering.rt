//! The outer and the inner covering of any region.
ghost use Rattle.std.specs.Prelude.{◌-◌, ◌<◌, ◌≤◌, length, IfOk, IfErr};
ghost use Rattle.s2list.specs.Union.{IsLocal, IsNormalForm};
ghost use Rattle.s2cover.specs.Coverings.{HasLeavesOf, TooManyMeans, inner_set, outer_set};
ghost use Rattle.s2cover.specs.Working.Descent.{covering_set, is_outer, set_for};

use crate::MOST_COVERING;
use crate::descent::{Kind, visit};
use crate::quadrant::Quartered;
use crate::region::{CoverFault, Region};
use crate::within::Walked;
use s2cell::GREATEST_LEVEL;
use s2union::CellUnion;
use std::alloc::Global;

/// The outer covering of a region: the cells of the level that share a leaf with it, normalized.
///
/// `TooMany` is answered only if the finished covering has more than `max` cells, not because a list on the way is
/// longer. The list never holds more than `max` and some ninety cells. S2: `GetCovering` with one level, without its
/// bound on the number of cells.
pub fn outer<R: Region>(
    alloc: Global,
    region: &R,
    level: u8,
    max: usize,
) -> Result<CellUnion, CoverFault>
    requires level { level ≤ GREATEST_LEVEL }
    requires max { max ≤ MOST_COVERING }
    ensures leaves { IfOk result (λ u. HasLeavesOf (outer_set (R.holds region.now) level) u.cells) }
    ensures local { IfOk result (λ u. IsLocal u.cells) }
    ensures normal { IfOk result (λ u. IsNormalForm (outer_set (R.holds region.now) level) u.cells) }
    ensures within { IfOk result (λ u. length u.cells ≤ max) }
    ensures many { IfErr result (TooManyMeans (outer_set (R.holds region.now) level) max) }
{
    quartered_outer(alloc, &Walked { region }, level, max)
}

/// The inner covering of a region: the cells of the level that lie inside it, normalized.
///
/// `TooMany` is answered as by `outer`. S2: `GetInteriorCovering` with one level, without its bound on the number of
/// cells.
pub fn inner<R: Region>(
    alloc: Global,
    region: &R,
    level: u8,
    max: usize,
) -> Result<CellUnion, CoverFault>
    requires level { level ≤ GREATEST_LEVEL }
    requires max { max ≤ MOST_COVERING }
    ensures leaves { IfOk result (λ u. HasLeavesOf (inner_set (R.holds region.now) level) u.cells) }
    ensures local { IfOk result (λ u. IsLocal u.cells) }
    ensures normal { IfOk result (λ u. IsNormalForm (inner_set (R.holds region.now) level) u.cells) }
    ensures within { IfOk result (λ u. length u.cells ≤ max) }
    ensures many { IfErr result (TooManyMeans (inner_set (R.holds region.now) level) max) }
{
    quartered_inner(alloc, &Walked { region }, level, max)
}

/// The outer covering of a region that is walked down from the faces: the cells of the level that share a leaf with its
/// `outer`, normalized. Otherwise as `outer`.
pub fn quartered_outer<R: Quartered>(
    alloc: Global,
    region: &R,
    level: u8,
    max: usize,
) -> Result<CellUnion, CoverFault>
    requires level { level ≤ GREATEST_LEVEL }
    requires max { max ≤ MOST_COVERING }
    ensures leaves { IfOk result (λ u. HasLeavesOf (outer_set (R.outer region.now) level) u.cells) }
    ensures local { IfOk result (λ u. IsLocal u.cells) }
    ensures normal { IfOk result (λ u. IsNormalForm (outer_set (R.outer region.now) level) u.cells) }
    ensures within { IfOk result (λ u. length u.cells ≤ max) }
    ensures many { IfErr result (TooManyMeans (outer_set (R.outer region.now) level) max) }
{
    cover(alloc, region, Kind::Outer, level, max)
}

/// The inner covering of a region that is walked down from the faces: the cells of the level whose leaves are all in
/// its `inner`, normalized. Otherwise as `inner`.
pub fn quartered_inner<R: Quartered>(
    alloc: Global,
    region: &R,
    level: u8,
    max: usize,
) -> Result<CellUnion, CoverFault>
    requires level { level ≤ GREATEST_LEVEL }
    requires max { max ≤ MOST_COVERING }
    ensures leaves { IfOk result (λ u. HasLeavesOf (inner_set (R.inner region.now) level) u.cells) }
    ensures local { IfOk result (λ u. IsLocal u.cells) }
    ensures normal { IfOk result (λ u. IsNormalForm (inner_set (R.inner region.now) level) u.cells) }
    ensures within { IfOk result (λ u. length u.cells ≤ max) }
    ensures many { IfErr result (TooManyMeans (inner_set (R.inner region.now) level) max) }
{
    cover(alloc, region, Kind::Inner, level, max)
}

/// The covering of this kind.
fn cover<R: Quartered>(
    alloc: Global,
    region: &R,
    kind: Kind,
    level: u8,
    max: usize,
) -> Result<CellUnion, CoverFault>
    requires level { level ≤ GREATEST_LEVEL }
    requires max { max ≤ MOST_COVERING }
    ensures leaves { IfOk result (λ u. HasLeavesOf (covering_set (is_outer kind)
        (set_for (is_outer kind) (R.outer region.now) (R.inner region.now)) level) u.cells) }
    ensures local { IfOk result (λ u. IsLocal u.cells) }
    ensures normal { IfOk result (λ u. IsNormalForm (covering_set (is_outer kind)
        (set_for (is_outer kind) (R.outer region.now) (R.inner region.now)) level) u.cells) }
    ensures within { IfOk result (λ u. length u.cells ≤ max) }
    ensures many { IfErr result (TooManyMeans (covering_set (is_outer kind)
        (set_for (is_outer kind) (R.outer region.now) (R.inner region.now)) level) max) }
{
    let mut list = Vec::new(alloc);
    for face in 0..6u8 {
        let top = region.face(alloc, face)?;
        visit(alloc, &top, kind, level, 0, max, &mut list)?;
        if list.len() > max {
            return Err(CoverFault::TooMany);
        }
    }
    Ok(CellUnion::from_normalized(list))
}

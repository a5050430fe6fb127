//! Regions that know of each cell how it lies, for a walk that serves also those that don't.
ghost use Rattle.std.specs.Prelude.{◌≡◌, ◌≤◌, IfOk, false, length, max, true};
ghost use Rattle.s2list.specs.Union.{IsLocal, IsWithin, has_leaf};
ghost use Rattle.s2cover.specs.Coverings.{EachShares, HasAllOf, NoneDeeper};
ghost use Rattle.s2cover.specs.Near.{Crosses, IsNearInner, IsNearOuter};

use crate::MOST_COVERING;
use crate::quadrant::{Quadrant, Quartered};
use crate::region::Part;
use crate::rough::RoughRegion;
use crate::splitting::{rough_inner_up_to, rough_outer_up_to};
use s2cell::{CellId, GREATEST_LEVEL};
use s2union::CellUnion;
use std::alloc::{AllocError, Global};

/// A region that knows of each cell how it lies.
#[derive(Clone, Copy)]
struct Exact<'a, R> {
    region: &'a R,
}

impl<'a, R: Quartered> RoughRegion for Exact<'a, R> {
    ghost outside = { λ e x. (R.outer e.region.now x ≡ false) × (R.inner e.region.now x ≡ false) };

    ghost inside = { λ e x. (R.outer e.region.now x ≡ true) × (R.inner e.region.now x ≡ true) };

    ghost crosses = { λ e c n.
        Crosses (R.outer e.region.now) (R.inner e.region.now) c × (n ≡ R.work e.region.now c) };

    ghost extent = { λ e. R.extent e.region.now };

    type At = R::At;

    ghost id = { R.At.id };

    ghost work = { λ q. R.At.work q (R.At.id q) };

    ghost sound = { λ e q. R.At.sound q × (R.At.outer q ≡ R.outer e.region.now) × (R.At.inner q ≡ R.inner e.region.now)
        × (R.At.work q ≡ R.work e.region.now) };

    fn size(&self) -> usize {
        self.region.size()
    }

    fn face(&self, alloc: Global, face: u8) -> Result<R::At, AllocError> {
        let top = self.region.face(alloc, face)?;
        Ok(top)
    }

    fn cell_at(&self, at: &R::At) -> CellId {
        at.cell()
    }

    fn size_at(&self, at: &R::At) -> usize {
        at.size()
    }

    fn part_at(&self, at: &R::At) -> Part {
        let cell = at.cell();
        let _ = cell.id();
        at.part()
    }

    fn child_at(&self, alloc: Global, at: &R::At, digit: u8) -> Result<R::At, AllocError> {
        let child = at.child(alloc, digit)?;
        Ok(child)
    }
}

/// An outer covering of at most `most` cells, or 6 if that is more, none of them deeper than the level `deepest`, of a
/// region that is walked down from the faces: it has each leaf of `outer`, and each of its cells has one.
///
/// Goes down level by level. A cell that crosses the region is split if its children that don't lie outside fit, those
/// first that have the fewest, and of these those first that have the fewest inside; else it is kept whole. Each level
/// looks at no more than four cells for each that the covering may have. The sizes of the quadrants that are split add
/// up to 2^20 + 32 (`size` of the region + `most`) or less; the others are kept whole then, which no error tells. Fails
/// only if there is no memory. S2: `GetCovering` with `max_cells` and `max_level`.
///
/// It comes near: each cell that it is made of is of the level `deepest` or lies inside, unless there are `most - 2` of
/// them or the bound of the sizes is met. The result is normalized, so it may have fewer cells.
pub fn outer_up_to<R: Quartered>(
    alloc: Global,
    region: &R,
    deepest: u8,
    most: usize,
) -> Result<CellUnion, AllocError>
    requires level { deepest ≤ GREATEST_LEVEL }
    requires most { most ≤ MOST_COVERING }
    ensures leaves { IfOk result (λ u. HasAllOf (R.outer region.now) u.cells) }
    ensures near { IfOk result (λ u. IsNearOuter (R.outer region.now) (R.inner region.now) (R.work region.now)
        (R.extent region.now) deepest most u.cells) }
    ensures shares { IfOk result (λ u. EachShares (R.outer region.now) u.cells) }
    ensures within { IfOk result (λ u. length u.cells ≤ max most 6) }
    ensures level { IfOk result (λ u. NoneDeeper deepest u.cells) }
    ensures local { IfOk result (λ u. IsLocal u.cells) }
{
    rough_outer_up_to(alloc, &Exact { region }, deepest, most)
}

/// An inner covering of at most `most` cells, none of them deeper than the level `deepest`, of a region that is walked
/// down from the faces: its leaves are all in `inner`.
///
/// Goes down level by level, and keeps the cells inside until they are as many as it may have, the largest first. Of
/// the cells that cross the region it looks into no more than that and 32 at each level, those first with the fewest
/// children outside; into none once it has as many cells as it may have, or once their sizes would add up to more than
/// those of `outer_up_to` may. Fails only if there is no memory. S2: `GetInteriorCovering` with `max_cells` and
/// `max_level`.
///
/// It comes near: it is made of `most` cells, or has each cell of a level down to `deepest` that lies inside, if no
/// level above has more cells that cross the region than `most + 32`, and these meet the bound of the sizes.
pub fn inner_up_to<R: Quartered>(
    alloc: Global,
    region: &R,
    deepest: u8,
    most: usize,
) -> Result<CellUnion, AllocError>
    requires level { deepest ≤ GREATEST_LEVEL }
    requires most { most ≤ MOST_COVERING }
    ensures leaves { IfOk result (λ u. IsWithin (has_leaf u.cells) (R.inner region.now)) }
    ensures near { IfOk result (λ u. IsNearInner (R.outer region.now) (R.inner region.now) (R.work region.now)
        (R.extent region.now) deepest most u.cells) }
    ensures within { IfOk result (λ u. length u.cells ≤ most) }
    ensures level { IfOk result (λ u. NoneDeeper deepest u.cells) }
    ensures local { IfOk result (λ u. IsLocal u.cells) }
{
    rough_inner_up_to(alloc, &Exact { region }, deepest, most)
}

//! The coverings of a union clipped by a rectangle, if the union is numbers that lie somewhere: they are not copied but
//! for those near the rectangle, and not checked.
ghost use Rattle.std.specs.Prelude.{◌≡◌, ◌-◌, ◌<◌, ◌≤◌, ℕ, length, slice_index, false, IfOk, IfErr};
ghost use Rattle.s2list.specs.Union.{IsLocal, IsNormalForm};
ghost use Rattle.s2cover.specs.Cut.{cells_kept};
ghost use Rattle.s2cover.specs.Coverings.{TooManyMeans, inner_set, outer_set, clipped};

use crate::MOST_COVERING;
use crate::around::cells_around;
use crate::clip::{clip_inner, clip_outer};
use crate::looks::Looks;
use crate::met::add_met;
use crate::region::CoverFault;
use s2cell::{CellId, FaceRect, GREATEST_LEVEL};
use s2list::{Cells, cells_at};
use s2union::{CellUnion, normalise};
use std::alloc::{AllocError, Global};

/// The outer covering of what a rectangle shares with the union whose cells these numbers are. Of numbers that are not
/// a union it is the covering of some union.
///
/// The numbers are searched for the at most four cells around the rectangle, and only those in them are read: cells of
/// one level, at most twice as wide as the rectangle is long. Takes memory for as many cells as the union has in the
/// rectangle. `TooMany` is answered as by `outer`.
pub fn clip_outer_of<C: Cells>(
    alloc: Global,
    cells: &C,
    rect: &FaceRect,
    level: u8,
    max: usize,
) -> Result<CellUnion, CoverFault>
    requires level { level ≤ GREATEST_LEVEL }
    requires max { max ≤ MOST_COVERING }
    ensures local { IfOk result (λ u. IsLocal u.cells) }
    ensures normal { IsLocal (C.ids cells.now) → IfOk result (λ u.
        IsNormalForm (outer_set (clipped (C.ids cells.now) rect.now) level) u.cells) }
    ensures within { IfOk result (λ u. length u.cells ≤ max) }
    ensures many { IsLocal (C.ids cells.now) → IfErr result
        (TooManyMeans (outer_set (clipped (C.ids cells.now) rect.now) level) max) }
{
    let near = union_near(alloc, cells, rect, GREATEST_LEVEL)?;
    clip_outer(alloc, &near, rect, level, max, &mut Looks { count: 0 })
}

/// The inner covering of what a rectangle shares with the union whose cells these numbers are, as `clip_outer_of` gives
/// the outer one.
pub fn clip_inner_of<C: Cells>(
    alloc: Global,
    cells: &C,
    rect: &FaceRect,
    level: u8,
    max: usize,
) -> Result<CellUnion, CoverFault>
    requires level { level ≤ GREATEST_LEVEL }
    requires max { max ≤ MOST_COVERING }
    ensures local { IfOk result (λ u. IsLocal u.cells) }
    ensures normal { IsLocal (C.ids cells.now) → IfOk result (λ u.
        IsNormalForm (inner_set (clipped (C.ids cells.now) rect.now) level) u.cells) }
    ensures within { IfOk result (λ u. length u.cells ≤ max) }
    ensures many { IsLocal (C.ids cells.now) → IfErr result
        (TooManyMeans (inner_set (clipped (C.ids cells.now) rect.now) level) max) }
{
    let near = union_near(alloc, cells, rect, level)?;
    clip_inner(alloc, &near, rect, level, max, &mut Looks { count: 0 })
}

/// Those cells down to the level of the union of these numbers that have a leaf in the rectangle, as a union. They are
/// searched for in the few cells around the rectangle.
fn union_near<C: Cells>(
    alloc: Global,
    cells: &C,
    rect: &FaceRect,
    level: u8,
) -> Result<CellUnion, AllocError>
    ensures leaves { IsLocal (C.ids cells.now) → IfOk result (λ u. (x : ℕ)
        → clipped u.cells rect.now x ≡ clipped (cells_kept level (C.ids cells.now)) rect.now x) }
{
    let around = cells_around(rect);
    let mut list = Vec::new(alloc);
    for k in 0..around.len() {
        if is_new(&around, k) {
            let (first, count) = cells_at(cells, around[k]);
            let looks = &mut Looks { count: 0 };
            add_met(cells, first, count, level, rect, looks, &mut list)?;
        }
    }
    Ok(normalise(list))
}

/// Whether the cell at index `k` is not the one before it.
fn is_new(cells: &[CellId], k: usize) -> bool
    requires { k < length cells.now }
    ensures { result ≡ false → (0 < k) × (slice_index cells.now k ≡ slice_index cells.now (k - 1)) }
{
    k == 0 || cells[k] != cells[k - 1]
}

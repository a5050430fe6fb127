//! The coverings of a rectangle in time proportional to the answer.
ghost use Rattle.std.specs.Prelude.{◌≡◌, ◌+◌, ◌-◌, ◌*◌, ◌<◌, ◌≤◌, length, IfOk, IfErr, OnErr};
ghost use Rattle.s2cell.specs.Rectangles.{rect_set};
ghost use Rattle.s2list.specs.Union.{IsLocal, IsNormalForm};
ghost use Rattle.s2cover.specs.Coverings.{HasLeavesOf, TooManyMeans, inner_set, outer_set};
ghost use Rattle.s2cover.specs.Working.Descent.{IsAligned};

use crate::MOST_COVERING;
use crate::looks::{Looks, seek};
use crate::region::CoverFault;
use crate::rounding::{round_inward, round_outward};
use s2cell::{FaceRect, GREATEST_LEVEL, PlacedCell};
use s2union::CellUnion;
use std::alloc::Global;

/// The outer covering of a rectangle: the answer of `outer`, in time proportional to the number of its cells.
///
/// The rectangle is first rounded outward to the grid of the level, so every cell that lies inside it belongs to the
/// answer. `looks` says how many quadrants were looked at, also after a refusal. They are at least one for each cell of
/// the answer, and at most `1 + 4 * level * n` for an answer of n cells; after a refusal, `1 + 4 * level * (max + 1)`.
/// After `TooMany` it is at least `max + 1`, one for each cell that was found.
pub fn rect_outer(
    alloc: Global,
    rect: &FaceRect,
    level: u8,
    max: usize,
    looks: &mut Looks,
) -> Result<CellUnion, CoverFault>
    requires level { level ≤ GREATEST_LEVEL }
    requires max { max ≤ MOST_COVERING }
    ensures leaves { IfOk result (λ u. HasLeavesOf (outer_set (rect_set rect.now) level) u.cells) }
    ensures local { IfOk result (λ u. IsLocal u.cells) }
    ensures normal { IfOk result (λ u. IsNormalForm (outer_set (rect_set rect.now) level) u.cells) }
    ensures within { IfOk result (λ u. length u.cells ≤ max) }
    ensures many { IfErr result (TooManyMeans (outer_set (rect_set rect.now) level) max) }
    ensures least { IfOk result (λ u. length u.cells ≤ looks.new.count) }
    ensures most { IfOk result (λ u. looks.new.count ≤ 1 + 4 * level * length u.cells) }
    ensures stopped { OnErr result (looks.new.count ≤ 1 + 4 * level * (max + 1)) }
    ensures refused { IfErr result (λ fault. fault ≡ CoverFault.TooMany → max < looks.new.count) }
{
    looks.count = 0;
    cover_aligned(alloc, &round_outward(rect, level), level, max, looks)
}

/// The inner covering of a rectangle: the answer of `inner`, in time proportional to the number of its cells.
///
/// The rectangle is first rounded inward to the grid of the level. `looks` is bounded as for `rect_outer`: at most 1 if
/// nothing is left.
pub fn rect_inner(
    alloc: Global,
    rect: &FaceRect,
    level: u8,
    max: usize,
    looks: &mut Looks,
) -> Result<CellUnion, CoverFault>
    requires level { level ≤ GREATEST_LEVEL }
    requires max { max ≤ MOST_COVERING }
    ensures leaves { IfOk result (λ u. HasLeavesOf (inner_set (rect_set rect.now) level) u.cells) }
    ensures local { IfOk result (λ u. IsLocal u.cells) }
    ensures normal { IfOk result (λ u. IsNormalForm (inner_set (rect_set rect.now) level) u.cells) }
    ensures within { IfOk result (λ u. length u.cells ≤ max) }
    ensures many { IfErr result (TooManyMeans (inner_set (rect_set rect.now) level) max) }
    ensures least { IfOk result (λ u. length u.cells ≤ looks.new.count) }
    ensures most { IfOk result (λ u. looks.new.count ≤ 1 + 4 * level * length u.cells) }
    ensures stopped { OnErr result (looks.new.count ≤ 1 + 4 * level * (max + 1)) }
    ensures refused { IfErr result (λ fault. fault ≡ CoverFault.TooMany → max < looks.new.count) }
{
    looks.count = 0;
    match round_inward(rect, level) {
        Some(narrow) => cover_aligned(alloc, &narrow, level, max, looks),
        None => Ok(CellUnion::from_normalized(Vec::new(alloc))),
    }
}

/// The greatest cells of a rectangle on the grid of the level.
fn cover_aligned(
    alloc: Global,
    rect: &FaceRect,
    level: u8,
    max: usize,
    looks: &mut Looks,
) -> Result<CellUnion, CoverFault>
    requires level { level ≤ GREATEST_LEVEL }
    requires max { max ≤ MOST_COVERING }
    requires aligned { IsAligned (rect_set rect.now) (30 - level) }
    requires looks { looks.old.count ≡ 0 }
    ensures leaves { IfOk result (λ u. HasLeavesOf (rect_set rect.now) u.cells) }
    ensures local { IfOk result (λ u. IsLocal u.cells) }
    ensures normal { IfOk result (λ u. IsNormalForm (rect_set rect.now) u.cells) }
    ensures within { IfOk result (λ u. length u.cells ≤ max) }
    ensures many { IfErr result (TooManyMeans (rect_set rect.now) max) }
    ensures least { IfOk result (λ u. length u.cells ≤ looks.new.count) }
    ensures most { IfOk result (λ u. looks.new.count ≤ 1 + 4 * level * length u.cells) }
    ensures stopped { OnErr result (looks.new.count ≤ 1 + 4 * level * (max + 1)) }
    ensures refused { IfErr result (λ fault. fault ≡ CoverFault.TooMany → max < looks.new.count) }
{
    let mut list = Vec::new(alloc);
    seek(
        rect,
        level,
        &PlacedCell::face(rect.face),
        max,
        looks,
        &mut list,
    )?;
    Ok(CellUnion::from_normalized(list))
}

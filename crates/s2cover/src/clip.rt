//! The coverings of a union clipped by a rectangle, without a walk along the sides of the rectangle.
//!
//! First the union's cells are cut to the level, and the rectangle is rounded to the grid of the level. Then the
//! greatest cells of the rectangle are sought in each cell of the union: a cell inside the rectangle is taken at once.
ghost use Rattle.std.specs.Prelude.{◌≡◌, ◌+◌, ◌-◌, ◌*◌, ◌^◌, ◌<◌, ◌≤◌, ℕ, All};
ghost use Rattle.std.specs.Prelude.{length, IfOk, IfErr, OnErr};
ghost use Rattle.std.specs.List.{flat_map};
ghost use Rattle.s2cell.specs.Cell.{level_of};
ghost use Rattle.s2cell.specs.Rectangles.{rect_set};
ghost use Rattle.s2list.specs.Union.{has_leaf, IsLocal, IsNormalForm};
ghost use Rattle.s2cover.specs.Working.Cut.{cells_cut, cells_met};
ghost use Rattle.s2cover.specs.Cut.{cells_kept};
ghost use Rattle.s2cover.specs.Coverings.{HasLeavesOf, TooManyMeans, inner_set, outer_set, clipped};
ghost use Rattle.s2cover.specs.Working.Descent.{IsAligned, form_in};

use crate::MOST_COVERING;
use crate::cut_to_level::union_cut;
use crate::looks::{Looks, seek};
use crate::met::add_met;
use crate::placing::placed_cell;
use crate::region::CoverFault;
use crate::rounding::{round_inward, round_outward};
use s2cell::{CellId, FaceRect, GREATEST_LEVEL};
use s2list::{CellList, Listed};
use s2union::CellUnion;
use std::alloc::{AllocError, Global};

/// The outer covering of what a union and a rectangle share: the answer of `outer` for a `Clip`. The time
/// depends on the number of cells of the union and of the answer, not on the size of the rectangle.
///
/// `looks` says how many quadrants were looked at, also after a refusal. They are at least one for each cell of the
/// answer. For a union of m cells and an answer of n cells they are at most `2 * m + 4 * level * n`; after a refusal,
/// `2 * m + 4 * level * (max + 1)`. After `TooMany` it is at least `max + 1`, one for each cell that was found.
///
/// Takes memory for as many cells as the union has in the rectangle. `TooMany` is answered as by `outer`.
pub fn clip_outer(
    alloc: Global,
    union: &CellUnion,
    rect: &FaceRect,
    level: u8,
    max: usize,
    looks: &mut Looks,
) -> Result<CellUnion, CoverFault>
    requires level { level ≤ GREATEST_LEVEL }
    requires max { max ≤ MOST_COVERING }
    ensures leaves { IfOk result (λ u. HasLeavesOf (outer_set (clipped union.now.cells rect.now) level) u.cells) }
    ensures local { IfOk result (λ u. IsLocal u.cells) }
    ensures normal { IfOk result (λ u. IsNormalForm (outer_set (clipped union.now.cells rect.now) level) u.cells) }
    ensures within { IfOk result (λ u. length u.cells ≤ max) }
    ensures many { IfErr result (TooManyMeans (outer_set (clipped union.now.cells rect.now) level) max) }
    ensures least { IfOk result (λ u. length u.cells ≤ looks.new.count) }
    ensures most { IfOk result (λ u. looks.new.count ≤ 2 * length union.now.cells + 4 * level * length u.cells) }
    ensures stopped { OnErr result (looks.new.count ≤ 2 * length union.now.cells + 4 * level * (max + 1)) }
    ensures refused { IfErr result (λ fault. fault ≡ CoverFault.TooMany → max < looks.new.count) }
{
    looks.count = 0;
    let _ = union.cells();
    let whole = cut_union(alloc, union, rect, level, looks)?;
    clip_aligned(
        alloc,
        &whole,
        &round_outward(rect, level),
        level,
        max,
        looks,
    )
}

/// The inner covering of what a union and a rectangle share: the answer of `inner` for a `Clip`. The time
/// depends on the number of cells of the union and of the answer. `looks` is bounded as for `clip_outer`.
///
/// Takes memory for as many cells as the union has in the rectangle. `TooMany` is answered as by `outer`.
pub fn clip_inner(
    alloc: Global,
    union: &CellUnion,
    rect: &FaceRect,
    level: u8,
    max: usize,
    looks: &mut Looks,
) -> Result<CellUnion, CoverFault>
    requires level { level ≤ GREATEST_LEVEL }
    requires max { max ≤ MOST_COVERING }
    ensures leaves { IfOk result (λ u. HasLeavesOf (inner_set (clipped union.now.cells rect.now) level) u.cells) }
    ensures local { IfOk result (λ u. IsLocal u.cells) }
    ensures normal { IfOk result (λ u. IsNormalForm (inner_set (clipped union.now.cells rect.now) level) u.cells) }
    ensures within { IfOk result (λ u. length u.cells ≤ max) }
    ensures many { IfErr result (TooManyMeans (inner_set (clipped union.now.cells rect.now) level) max) }
    ensures least { IfOk result (λ u. length u.cells ≤ looks.new.count) }
    ensures most { IfOk result (λ u. looks.new.count ≤ 2 * length union.now.cells + 4 * level * length u.cells) }
    ensures stopped { OnErr result (looks.new.count ≤ 2 * length union.now.cells + 4 * level * (max + 1)) }
    ensures refused { IfErr result (λ fault. fault ≡ CoverFault.TooMany → max < looks.new.count) }
{
    looks.count = 0;
    match round_inward(rect, level) {
        Some(narrow) => inner_part(alloc, union, narrow, level, max, looks),
        None => Ok(CellUnion::from_normalized(Vec::new(alloc))),
    }
}

/// The inner covering of what a union and a rectangle share, for a rectangle on the grid of the level.
fn inner_part(
    alloc: Global,
    union: &CellUnion,
    rect: FaceRect,
    level: u8,
    max: usize,
    looks: &mut Looks,
) -> Result<CellUnion, CoverFault>
    requires level { level ≤ GREATEST_LEVEL }
    requires max { max ≤ MOST_COVERING }
    requires aligned { IsAligned (rect_set rect) (30 - level) }
    requires looks { looks.old.count ≡ 0 }
    ensures leaves { IfOk result (λ u. HasLeavesOf (inner_set (clipped union.now.cells rect) level) u.cells) }
    ensures local { IfOk result (λ u. IsLocal u.cells) }
    ensures normal { IfOk result (λ u. IsNormalForm (inner_set (clipped union.now.cells rect) level) u.cells) }
    ensures within { IfOk result (λ u. length u.cells ≤ max) }
    ensures many { IfErr result (TooManyMeans (inner_set (clipped union.now.cells rect) level) max) }
    ensures least { IfOk result (λ u. length u.cells ≤ looks.new.count) }
    ensures most { IfOk result (λ u. looks.new.count ≤ 2 * length union.now.cells + 4 * level * length u.cells) }
    ensures stopped { OnErr result (looks.new.count ≤ 2 * length union.now.cells + 4 * level * (max + 1)) }
    ensures refused { IfErr result (λ fault. fault ≡ CoverFault.TooMany → max < looks.new.count) }
{
    let _ = union.cells();
    let whole = met_union(alloc, union, &rect, level, looks)?;
    clip_aligned(alloc, &whole, &rect, level, max, looks)
}

/// The greatest cells of what a union and a rectangle share, if both are made of whole cells of the level.
fn clip_aligned(
    alloc: Global,
    union: &CellUnion,
    rect: &FaceRect,
    level: u8,
    max: usize,
    looks: &mut Looks,
) -> Result<CellUnion, CoverFault>
    requires level { level ≤ GREATEST_LEVEL }
    requires max { max ≤ MOST_COVERING }
    requires above { All (λ c. level_of c ≤ level) union.now.cells }
    requires aligned { IsAligned (rect_set rect.now) (30 - level) }
    requires looks { looks.old.count + length union.now.cells + 4 * level * (max + 1) < 2 ^ 64 }
    ensures leaves { IfOk result (λ u. HasLeavesOf (clipped union.now.cells rect.now) u.cells) }
    ensures local { IfOk result (λ u. IsLocal u.cells) }
    ensures normal { IfOk result (λ u. IsNormalForm (clipped union.now.cells rect.now) u.cells) }
    ensures within { IfOk result (λ u. length u.cells ≤ max) }
    ensures many { IfErr result (TooManyMeans (clipped union.now.cells rect.now) max) }
    ensures least { IfOk result (λ u. looks.old.count + length u.cells ≤ looks.new.count) }
    ensures most { IfOk result (λ u. looks.new.count ≤ looks.old.count + length union.now.cells
        + 4 * level * length u.cells) }
    ensures stopped { OnErr result (looks.new.count ≤ looks.old.count + length union.now.cells
        + 4 * level * (max + 1)) }
    ensures refused { IfErr result (λ fault. fault ≡ CoverFault.TooMany →
        looks.old.count + max < looks.new.count) }
{
    let list = cells_within(alloc, union.cells(), rect, level, max, looks)?;
    Ok(CellUnion::from_normalized(list))
}

/// The greatest cells of a rectangle on the grid of the level that lie in these cells. The search stops at cell number
/// `max + 1`.
fn cells_within(
    alloc: Global,
    cells: &[CellId],
    rect: &FaceRect,
    level: u8,
    max: usize,
    looks: &mut Looks,
) -> Result<Vec<CellId>, CoverFault>
    requires level { level ≤ GREATEST_LEVEL }
    requires max { max ≤ MOST_COVERING }
    requires above { All (λ c. level_of c ≤ level) cells.now }
    requires aligned { IsAligned (rect_set rect.now) (30 - level) }
    requires looks { looks.old.count + length cells.now + 4 * level * (max + 1) < 2 ^ 64 }
    ensures list { IfOk result (λ list. list.items ≡ flat_map (form_in (rect_set rect.now) (30 - level)) cells.now) }
    ensures within { IfOk result (λ list. length list.items ≤ max) }
    ensures many { IfErr result (λ fault. fault ≡ CoverFault.TooMany →
        max < length (flat_map (form_in (rect_set rect.now) (30 - level)) cells.now)) }
    ensures least { IfOk result (λ list. looks.old.count + length list.items ≤ looks.new.count) }
    ensures most { IfOk result (λ list. looks.new.count ≤ looks.old.count + length cells.now
        + 4 * level * length list.items) }
    ensures stopped { OnErr result (looks.new.count ≤ looks.old.count + length cells.now + 4 * level * (max + 1)) }
    ensures refused { IfErr result (λ fault. fault ≡ CoverFault.TooMany →
        looks.old.count + max < looks.new.count) }
{
    let mut list = Vec::new(alloc);
    for cell in cells {
        seek(rect, level, &placed_cell(*cell), max, looks, &mut list)?;
    }
    Ok(list)
}

/// The union's cells that meet the rectangle, cut to the level.
fn cut_union(
    alloc: Global,
    union: &CellUnion,
    rect: &FaceRect,
    level: u8,
    looks: &mut Looks,
) -> Result<CellUnion, AllocError>
    requires level { level ≤ GREATEST_LEVEL }
    requires looks { looks.old.count ≡ 0 }
    ensures leaves { IfOk result (λ v. (x : ℕ) → has_leaf v.cells x
        ≡ has_leaf (cells_cut level (cells_met (rect_set rect.now) union.now.cells)) x) }
    ensures local { IfOk result (λ v. IsLocal v.cells) }
    ensures above { IfOk result (λ v. All (λ c. level_of c ≤ level) v.cells) }
    ensures few { IfOk result (λ v. length v.cells ≤ length union.now.cells) }
    ensures most { looks.new.count ≤ length union.now.cells }
{
    let _ = union.cells();
    let met = met_union(alloc, union, rect, GREATEST_LEVEL, looks)?;
    let list = CellList { cells: met.cells() };
    let Some(cut) = union_cut(alloc, &list, level, met.len())? else {
        unreachable!();
    };
    Ok(cut)
}

/// The union's cells down to the level that meet the rectangle. A part of a union's cells is a union.
fn met_union(
    alloc: Global,
    union: &CellUnion,
    rect: &FaceRect,
    level: u8,
    looks: &mut Looks,
) -> Result<CellUnion, AllocError>
    requires looks { looks.old.count ≡ 0 }
    ensures cells { IfOk result (λ v. v.cells ≡ cells_met (rect_set rect.now) (cells_kept level union.now.cells)) }
    ensures local { IfOk result (λ v. IsLocal v.cells) }
    ensures above { IfOk result (λ v. All (λ c. level_of c ≤ level) v.cells) }
    ensures few { IfOk result (λ v. length v.cells ≤ length union.now.cells) }
    ensures most { looks.new.count ≤ length union.now.cells }
{
    let list = CellList {
        cells: union.cells(),
    };
    let mut met = Vec::new(alloc);
    add_met(&list, 0, list.len(), level, rect, looks, &mut met)?;
    Ok(CellUnion::from_normalized(met))
}

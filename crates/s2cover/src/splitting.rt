//! Coverings of few cells, for any region that is walked down from the faces: level by level, each cell
//! that crosses the region is split if its children fit, those first that have the fewest, and of these those first
//! that have the fewest inside.
ghost use Rattle.std.specs.Prelude.{◌≡◌, ◌+◌, ◌*◌, ◌<◌, ◌≤◌, ◌∷◌, ◌⊎◌, [], ℕ, Bool, List, true, false, All, IfOk};
ghost use Rattle.std.specs.Prelude.{Contains, IsTrue, drop, length, map, max, take};
ghost use Rattle.std.specs.List.{sum_by};
ghost use Rattle.s2cell.specs.Cell.{level_of};
ghost use Rattle.s2cell.specs.declared.TheConstants.{LEAVES};
ghost use Rattle.s2list.specs.Union.{IsLocal, has_leaf};
ghost use Rattle.s2cover.specs.Coverings.{NoneDeeper};
ghost use Rattle.s2cover.specs.Rough.{ComesNearInner, ComesNearOuter};
ghost use Rattle.s2cover.specs.Working.Descent.{is_outer};
ghost use Rattle.s2cover.specs.Working.Splitting.{Front, IsCellOf, IsFamily, Sizes, times, times_by};

use crate::MOST_COVERING;
use crate::budget::{budget, spend};
use crate::descent::Kind;
use crate::family::{Family, add, families_of, join, sort_in};
use crate::rough::RoughRegion;
use s2cell::{CellId, GREATEST_LEVEL};
use s2union::CellUnion;
use std::alloc::{AllocError, Global};

/// How many cells that cross the region an inner covering looks into at each level besides as many as it may have.
const LOOKED: usize = 32;

/// The last turn of a family: of four children inside.
const LAST_TURN: usize = 20;

/// An outer covering of at most `most` cells, or 6 if that is more, none of them deeper than the level `deepest`, of a
/// region that is walked down from the faces: it has each leaf but those that lie outside.
///
/// Goes down level by level. A cell that crosses the region is split if its children that don't lie outside fit, those
/// first that have the fewest, and of these those first that have the fewest inside; else it is kept whole. Each level
/// looks at no more than four cells for each that the covering may have. The sizes of the cells that are split
/// (`size_at`) add up to 2^20 + 32 (`size` of the region + `most`) or less; the others are kept whole then, which no
/// error tells. Fails only if there is no memory. S2: `GetCovering` with `max_cells` and `max_level`.
///
/// It comes near: each cell that it is made of is of the level `deepest` or lies inside, unless there are `most - 2` of
/// them or the bound of the sizes is met. Cells that cross but whose leaves lie outside count too. The result is
/// normalized, so it may have fewer cells.
pub fn rough_outer_up_to<R: RoughRegion>(
    alloc: Global,
    region: &R,
    deepest: u8,
    most: usize,
) -> Result<CellUnion, AllocError>
    requires level { deepest ≤ GREATEST_LEVEL }
    requires most { most ≤ MOST_COVERING }
    ensures leaves { IfOk result (λ u. (x : ℕ) → x < LEAVES
        → (has_leaf u.cells x ≡ true) ⊎ R.outside region.now x) }
    ensures near { IfOk result (λ u. ComesNearOuter (R.outside region.now) (R.inside region.now) (R.crosses region.now)
        (R.extent region.now) deepest most u.cells) }
    ensures within { IfOk result (λ u. length u.cells ≤ max most 6) }
    ensures level { IfOk result (λ u. NoneDeeper deepest u.cells) }
    ensures local { IfOk result (λ u. IsLocal u.cells) }
{
    cover_up_to(alloc, region, Kind::Outer, deepest, most)
}

/// An inner covering of at most `most` cells, none of them deeper than the level `deepest`, of a region that is walked
/// down from the faces: all its leaves lie inside.
///
/// Goes down level by level, and keeps the cells inside until they are as many as it may have, the largest first. Of
/// the cells that cross the region it looks into no more than that and 32 at each level, those first with the fewest
/// children outside; into none once it has as many cells as it may have, or once their sizes would add up to more than
/// those of `rough_outer_up_to` may. Fails only if there is no memory. S2: `GetInteriorCovering` with `max_cells` and
/// `max_level`.
///
/// It comes near: it is made of `most` cells, or has each leaf but those that lie outside or in a cell that crosses, of
/// a level down to `deepest`, if no level above has more cells that cross the region than `most + 32`, and these meet
/// the bound of the sizes.
pub fn rough_inner_up_to<R: RoughRegion>(
    alloc: Global,
    region: &R,
    deepest: u8,
    most: usize,
) -> Result<CellUnion, AllocError>
    requires level { deepest ≤ GREATEST_LEVEL }
    requires most { most ≤ MOST_COVERING }
    ensures leaves { IfOk result (λ u. (x : ℕ) → has_leaf u.cells x ≡ true → R.inside region.now x) }
    ensures near { IfOk result (λ u. ComesNearInner (R.outside region.now) (R.crosses region.now) (R.extent region.now)
        deepest most u.cells) }
    ensures within { IfOk result (λ u. length u.cells ≤ most) }
    ensures level { IfOk result (λ u. NoneDeeper deepest u.cells) }
    ensures local { IfOk result (λ u. IsLocal u.cells) }
{
    cover_up_to(alloc, region, Kind::Inner, deepest, most)
}

/// The covering of this kind, of at most `most` cells or 6.
fn cover_up_to<R: RoughRegion>(
    alloc: Global,
    region: &R,
    kind: Kind,
    deepest: u8,
    most: usize,
) -> Result<CellUnion, AllocError>
    requires level { deepest ≤ GREATEST_LEVEL }
    requires most { most ≤ MOST_COVERING }
    ensures all { is_outer kind ≡ true → IfOk result (λ u. (x : ℕ) → x < LEAVES
        → (has_leaf u.cells x ≡ true) ⊎ R.outside region.now x) }
    ensures only { is_outer kind ≡ false → IfOk result (λ u. (x : ℕ) → has_leaf u.cells x ≡ true
        → R.inside region.now x) }
    ensures outer { is_outer kind ≡ true → IfOk result (λ u. ComesNearOuter (R.outside region.now)
        (R.inside region.now) (R.crosses region.now) (R.extent region.now) deepest most u.cells) }
    ensures inner { is_outer kind ≡ false → IfOk result (λ u. ComesNearInner (R.outside region.now)
        (R.crosses region.now) (R.extent region.now) deepest most u.cells) }
    ensures most { is_outer kind ≡ true → IfOk result (λ u. length u.cells ≤ max most 6) }
    ensures within { is_outer kind ≡ false → IfOk result (λ u. length u.cells ≤ most) }
    ensures level { IfOk result (λ u. NoneDeeper deepest u.cells) }
    ensures local { IfOk result (λ u. IsLocal u.cells) }
{
    let mut kept = Vec::new(alloc);
    let mut ahead = Vec::new(alloc);
    enter(alloc, region, &mut kept, &mut ahead)?;
    trim(kind, most, &mut kept);
    let mut left = budget(region.size(), most);
    for level in 0..deepest {
        leave_out(region, kind, most, &mut left, &mut kept, &mut ahead)?;
        split(alloc, region, kind, most, &mut kept, &mut ahead)?;
    }
    close(region, kind, &mut ahead, &mut kept)?;
    Ok(CellUnion::from_cells(kept))
}

/// Sorts the faces: those that lie inside the region, and those that cross it.
fn enter<R: RoughRegion>(
    alloc: Global,
    region: &R,
    kept: &mut Vec<CellId>,
    ahead: &mut Vec<R::At>,
) -> Result<(), AllocError>
    requires kept { kept.old.items ≡ [] }
    requires ahead { ahead.old.items ≡ [] }
    ensures few { IfOk result (λ _. length kept.new.items + length ahead.new.items ≤ 6) }
    ensures front { IfOk result (λ _. (whole : Bool) (allowed most deepest : ℕ)
        → Front R.id (R.sound region.now) R.work (R.outside region.now) (R.inside region.now) (R.crosses region.now)
        whole allowed most deepest 0 0 [] [] kept.new.items ahead.new.items) }
{
    for face in 0..6u8 {
        let top = region.face(alloc, face)?;
        sort_in(region, top, kept, ahead)?;
    }
    Ok(())
}

/// Cuts the cells of an inner covering to as many as it may have.
fn trim(kind: Kind, most: usize, kept: &mut Vec<CellId>)
    ensures outer { is_outer kind ≡ true → kept.new.items ≡ kept.old.items }
    ensures inner { is_outer kind ≡ false → kept.new.items ≡ take most kept.old.items }
{
    match kind {
        Kind::Outer => {}
        Kind::Inner => kept.truncate(most),
    }
}

/// Takes the quadrants that are not to be split out of the list: all if an inner covering has as many cells as it may
/// have, and those for which no pairs are left. An outer covering keeps their cells.
fn leave_out<R: RoughRegion>(
    region: &R,
    kind: Kind,
    most: usize,
    left: &mut u128,
    kept: &mut Vec<CellId>,
    ahead: &mut Vec<R::At>,
) -> Result<(), AllocError>
    requires sizes { Sizes (is_outer kind) most 0 (length kept.old.items) (length ahead.old.items) }
    requires sound { All (R.sound region.now) ahead.old.items }
    ensures sizes { IfOk result (λ _.
        Sizes (is_outer kind) most 0 (length kept.new.items) (length ahead.new.items)) }
    ensures front { IfOk result (λ _. (allowed deepest k : ℕ) (spent : List R.At)
        → allowed ≤ sum_by R.work spent + left.old
        → Front R.id (R.sound region.now) R.work (R.outside region.now) (R.inside region.now) (R.crosses region.now)
        (is_outer kind) allowed most deepest k k spent [] kept.old.items ahead.old.items
        → (more : List R.At) × (allowed ≤ sum_by R.work more + left.new)
        × Front R.id (R.sound region.now) R.work (R.outside region.now) (R.inside region.now) (R.crosses region.now)
        (is_outer kind) allowed most deepest k (k + 1) more [] kept.new.items ahead.new.items) }
{
    let count = taken(region, kind, most, left, kept, ahead);
    let mut rest = ahead.split_off(count)?;
    close(region, kind, &mut rest, kept)?;
    Ok(())
}

/// How many quadrants of a list, from the first on, are to be split. Takes their pairs away from those that are left.
fn taken<R: RoughRegion>(
    region: &R,
    kind: Kind,
    most: usize,
    left: &mut u128,
    kept: &Vec<CellId>,
    ahead: &[R::At],
) -> usize
    requires { All (R.sound region.now) ahead.now }
    ensures within { result ≤ length ahead.now }
    ensures taken { ((is_outer kind ≡ false) × (most ≤ length kept.now.items) × (left.new ≡ left.old))
        ⊎ ((left.new + sum_by R.work (take result ahead.now) ≡ left.old)
        × ((q : R.At) (more : List R.At) → drop result ahead.now ≡ q ∷ more → left.new < R.work q)) }
{
    if is_full(kind, most, kept) {
        0
    } else {
        spend(region, left, ahead)
    }
}

/// Whether an inner covering has as many cells as it may have: what comes later would be cut off again.
fn is_full(kind: Kind, most: usize, kept: &Vec<CellId>) -> bool
    ensures { IsTrue result → (is_outer kind ≡ false) × (most ≤ length kept.now.items) }
{
    match kind {
        Kind::Outer => false,
        Kind::Inner => most <= kept.len(),
    }
}

/// Goes down one level: splits the quadrants that may be split, as far as their children fit.
fn split<R: RoughRegion>(
    alloc: Global,
    region: &R,
    kind: Kind,
    most: usize,
    kept: &mut Vec<CellId>,
    ahead: &mut Vec<R::At>,
) -> Result<(), AllocError>
    requires ahead { All (λ q. R.sound region.now q × (level_of (R.id q) < GREATEST_LEVEL)) ahead.old.items }
    requires most { most ≤ MOST_COVERING }
    requires sizes { Sizes (is_outer kind) most 0 (length kept.old.items) (length ahead.old.items) }
    ensures sizes { IfOk result (λ _.
        Sizes (is_outer kind) most 0 (length kept.new.items) (length ahead.new.items)) }
    ensures front { IfOk result (λ _. (allowed deepest k : ℕ) (spent : List R.At) → k + 1 ≤ deepest
        → Front R.id (R.sound region.now) R.work (R.outside region.now) (R.inside region.now) (R.crosses region.now)
        (is_outer kind) allowed most deepest k (k + 1) spent [] kept.old.items ahead.old.items
        → Front R.id (R.sound region.now) R.work (R.outside region.now) (R.inside region.now) (R.crosses region.now)
        (is_outer kind) allowed most deepest (k + 1) (k + 1) spent [] kept.new.items ahead.new.items) }
{
    let mut families = families_of(alloc, region, ahead)?;
    for limit in 1..LAST_TURN + 1 {
        families = settle_some::<R>(alloc, families, kind, limit, most, kept, ahead)?;
    }
    Ok(())
}

/// Keeps the cells of an outer covering that were not split.
fn close<R: RoughRegion>(
    region: &R,
    kind: Kind,
    ahead: &mut Vec<R::At>,
    kept: &mut Vec<CellId>,
) -> Result<(), AllocError>
    ensures times { is_outer kind ≡ true → IfOk result (λ _. (x : ℕ)
        → times kept.new.items x ≡ times kept.old.items x + times_by R.id ahead.old.items x) }
    ensures len { is_outer kind ≡ true → IfOk result (λ _.
        length kept.new.items ≡ length kept.old.items + length ahead.old.items) }
    ensures inner { is_outer kind ≡ false → kept.new.items ≡ kept.old.items }
    ensures each { is_outer kind ≡ true → IfOk result (λ _.
        All (λ c. Contains kept.old.items c ⊎ IsCellOf R.id ahead.old.items c) kept.new.items) }
{
    match kind {
        Kind::Outer => keep_whole(region, ahead, kept),
        Kind::Inner => Ok(()),
    }
}

/// Adds the cells of quadrants to those that are kept.
fn keep_whole<R: RoughRegion>(
    region: &R,
    ahead: &mut Vec<R::At>,
    kept: &mut Vec<CellId>,
) -> Result<(), AllocError>
    ensures times { IfOk result (λ _. (x : ℕ)
        → times kept.new.items x ≡ times kept.old.items x + times_by R.id ahead.old.items x) }
    ensures len { IfOk result (λ _. length kept.new.items ≡ length kept.old.items + length ahead.old.items) }
    ensures each { IfOk result (λ _.
        All (λ c. Contains kept.old.items c ⊎ IsCellOf R.id ahead.old.items c) kept.new.items) }
{
    while let Some(quadrant) = ahead.pop() {
        add(kept, region.cell_at(&quadrant))?;
    }
    Ok(())
}

/// Settles the families whose turn is at most `limit`, the last first, and answers the others in their order.
fn settle_some<R: RoughRegion>(
    alloc: Global,
    mut families: Vec<Family<R::At>>,
    kind: Kind,
    limit: usize,
    most: usize,
    kept: &mut Vec<CellId>,
    ahead: &mut Vec<R::At>,
) -> Result<Vec<Family<R::At>>, AllocError>
    requires few { All (λ f. length f.inside.items + length f.across.items ≤ 4) families.items }
    requires most { most ≤ MOST_COVERING }
    requires sizes { Sizes (is_outer kind) most (length families.items) (length kept.old.items)
        (length ahead.old.items) }
    ensures none { IfOk result (λ others. 20 ≤ limit → others.items ≡ []) }
    ensures few { IfOk result (λ others. All (λ f. length f.inside.items + length f.across.items ≤ 4) others.items) }
    ensures sizes { IfOk result (λ others.
        Sizes (is_outer kind) most (length others.items) (length kept.new.items) (length ahead.new.items)) }
    ensures families { IfOk result (λ others. (r : R) (k : ℕ)
        → All (λ f. IsFamily R.id (R.sound r) R.work (R.outside r) (R.inside r) (R.crosses r) k
        f.cell f.inside.items f.across.items) families.items
        → All (λ f. IsFamily R.id (R.sound r) R.work (R.outside r) (R.inside r) (R.crosses r) k
        f.cell f.inside.items f.across.items) others.items) }
    ensures front { IfOk result (λ others. (r : R) (allowed deepest k : ℕ) (spent : List R.At)
        → All (λ f. IsFamily R.id (R.sound r) R.work (R.outside r) (R.inside r) (R.crosses r) k
        f.cell f.inside.items f.across.items) families.items
        → Front R.id (R.sound r) R.work (R.outside r) (R.inside r) (R.crosses r) (is_outer kind) allowed
        most deepest k k spent (map (λ f. f.cell) families.items) kept.old.items ahead.old.items
        → Front R.id (R.sound r) R.work (R.outside r) (R.inside r) (R.crosses r) (is_outer kind) allowed
        most deepest k k spent (map (λ f. f.cell) others.items) kept.new.items ahead.new.items) }
{
    if limit < LAST_TURN && !is_any_due(kind, limit, &families) {
        return Ok(families);
    }
    let mut others = Vec::new(alloc);
    while let Some(family) = families.pop() {
        if turn_of(kind, &family) <= limit {
            let waiting = families.len() + others.len();
            settle::<R>(family, kind, waiting, most, kept, ahead)?;
        } else {
            add(&mut others, family)?;
        }
    }
    others.reverse();
    Ok(others)
}

/// Whether it is the turn of some family.
fn is_any_due<Q>(kind: Kind, limit: usize, families: &[Family<Q>]) -> bool
    requires { All (λ f. length f.inside.items + length f.across.items ≤ 4) families.now }
{
    for n in 0..families.len() {
        if turn_of(kind, &families[n]) <= limit {
            return true;
        }
    }
    false
}

/// The turn of a family: in an outer covering those with the fewest children come first, and of these those with the
/// fewest inside; in an inner one those with the most children.
fn turn_of<Q>(kind: Kind, family: &Family<Q>) -> usize
    requires { length family.now.inside.items + length family.now.across.items ≤ 4 }
    ensures { result ≤ 20 }
{
    let inside = family.inside.len();
    let count = inside + family.across.len();
    match kind {
        Kind::Outer => 4 * count + inside,
        Kind::Inner => 4 - count,
    }
}

/// Settles a family.
fn settle<R: RoughRegion>(
    family: Family<R::At>,
    kind: Kind,
    waiting: usize,
    most: usize,
    kept: &mut Vec<CellId>,
    ahead: &mut Vec<R::At>,
) -> Result<(), AllocError>
    requires few { length family.inside.items + length family.across.items ≤ 4 }
    requires most { most ≤ MOST_COVERING }
    requires sizes { Sizes (is_outer kind) most (waiting + 1) (length kept.old.items) (length ahead.old.items) }
    ensures sizes { IfOk result (λ _.
        Sizes (is_outer kind) most waiting (length kept.new.items) (length ahead.new.items)) }
    ensures front { IfOk result (λ _. (r : R) (allowed deepest k : ℕ) (spent : List R.At) (rest : List ℕ)
        → length rest ≡ waiting
        → IsFamily R.id (R.sound r) R.work (R.outside r) (R.inside r) (R.crosses r) k family.cell
        family.inside.items family.across.items
        → Front R.id (R.sound r) R.work (R.outside r) (R.inside r) (R.crosses r) (is_outer kind) allowed
        most deepest k k spent (family.cell ∷ rest) kept.old.items ahead.old.items
        → Front R.id (R.sound r) R.work (R.outside r) (R.inside r) (R.crosses r) (is_outer kind) allowed
        most deepest k k spent rest kept.new.items ahead.new.items) }
{
    match kind {
        Kind::Outer => settle_outer::<R>(family, waiting, most, kept, ahead),
        Kind::Inner => settle_inner::<R>(family, waiting, most, kept, ahead),
    }
}

/// Settles a family of an outer covering: its children take its place if they fit, else its cell is kept whole.
fn settle_outer<R: RoughRegion>(
    family: Family<R::At>,
    waiting: usize,
    most: usize,
    kept: &mut Vec<CellId>,
    ahead: &mut Vec<R::At>,
) -> Result<(), AllocError>
    requires few { length family.inside.items + length family.across.items ≤ 4 }
    requires most { most ≤ MOST_COVERING }
    requires sizes { Sizes true most (waiting + 1) (length kept.old.items) (length ahead.old.items) }
    ensures sizes { IfOk result (λ _. Sizes true most waiting (length kept.new.items) (length ahead.new.items)) }
    ensures front { IfOk result (λ _. (r : R) (allowed deepest k : ℕ) (spent : List R.At) (rest : List ℕ)
        → length rest ≡ waiting
        → IsFamily R.id (R.sound r) R.work (R.outside r) (R.inside r) (R.crosses r) k family.cell
        family.inside.items family.across.items
        → Front R.id (R.sound r) R.work (R.outside r) (R.inside r) (R.crosses r) true allowed
        most deepest k k spent (family.cell ∷ rest) kept.old.items ahead.old.items
        → Front R.id (R.sound r) R.work (R.outside r) (R.inside r) (R.crosses r) true allowed
        most deepest k k spent rest kept.new.items ahead.new.items) }
{
    let Family {
        cell,
        mut inside,
        mut across,
    } = family;
    let count = inside.len() + across.len();
    if fits(count, kept.len() + ahead.len() + waiting, most) {
        join(kept, &mut inside)?;
        join(ahead, &mut across)
    } else {
        add(kept, cell)
    }
}

/// Whether `count` children may take the place of one cell, if there are `others` besides.
fn fits(count: usize, others: usize, most: usize) -> bool
    requires few { count ≤ 4 }
    requires small { others ≤ 4 * MOST_COVERING }
    ensures few { IsTrue result → others + 1 ≤ max most 6 → others + count ≤ max most 6 }
    ensures full { result ≡ false → most < others + count }
{
    count <= 1 || others + count <= most
}

/// Settles a family of an inner covering: its children inside are kept while there is room, and those that cross are
/// looked into if they are few enough.
fn settle_inner<R: RoughRegion>(
    family: Family<R::At>,
    waiting: usize,
    most: usize,
    kept: &mut Vec<CellId>,
    ahead: &mut Vec<R::At>,
) -> Result<(), AllocError>
    requires few { length family.inside.items + length family.across.items ≤ 4 }
    requires most { most ≤ MOST_COVERING }
    requires sizes { Sizes false most (waiting + 1) (length kept.old.items) (length ahead.old.items) }
    ensures sizes { IfOk result (λ _. Sizes false most waiting (length kept.new.items) (length ahead.new.items)) }
    ensures front { IfOk result (λ _. (r : R) (allowed deepest k : ℕ) (spent : List R.At) (rest : List ℕ)
        → length rest ≡ waiting
        → IsFamily R.id (R.sound r) R.work (R.outside r) (R.inside r) (R.crosses r) k family.cell
        family.inside.items family.across.items
        → Front R.id (R.sound r) R.work (R.outside r) (R.inside r) (R.crosses r) false allowed
        most deepest k k spent (family.cell ∷ rest) kept.old.items ahead.old.items
        → Front R.id (R.sound r) R.work (R.outside r) (R.inside r) (R.crosses r) false allowed
        most deepest k k spent rest kept.new.items ahead.new.items) }
{
    let Family {
        cell: _,
        mut inside,
        mut across,
    } = family;
    join(kept, &mut inside)?;
    kept.truncate(most);
    if ahead.len() + across.len() <= most + LOOKED {
        join(ahead, &mut across)
    } else {
        Ok(())
    }
}

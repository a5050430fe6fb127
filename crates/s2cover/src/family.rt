//! A cell that crosses a region, and its children that don't lie outside.
ghost use Rattle.std.specs.Prelude.{◌≡◌, ◌+◌, ◌<◌, ◌≤◌, ◌++◌, ◌∷◌, ◌||◌, ◌⊎◌, [], ℕ, All, IfOk, true};
ghost use Rattle.std.specs.Prelude.{cond, length};
ghost use Rattle.s2cell.specs.Cell.{IsCell, covers, level_of};
ghost use Rattle.s2list.specs.Union.{has_leaf};
ghost use Rattle.s2cover.specs.Rough.{AreCrossing};
ghost use Rattle.s2cover.specs.Working.Splitting.{IsAcross, IsFamily, IsInside, any_covers, times, times_by};

use crate::region::Part;
use crate::rough::RoughRegion;
use s2cell::{CellId, GREATEST_LEVEL};
use std::alloc::{AllocError, Global};

/// A cell that crosses a region, and its children that don't lie outside.
#[derive(Drop)]
pub(crate) struct Family<Q> {
    /// The cell.
    pub(crate) cell: CellId,
    /// The children that lie inside.
    pub(crate) inside: Vec<CellId>,
    /// The children that cross the region.
    pub(crate) across: Vec<Q>,
}

/// The family of a quadrant.
pub(crate) fn family_of<R: RoughRegion>(
    alloc: Global,
    region: &R,
    quadrant: &R::At,
) -> Result<Family<R::At>, AllocError>
    requires sound { R.sound region.now quadrant.now }
    requires deep { level_of (R.id quadrant.now) < GREATEST_LEVEL }
    ensures cell { IfOk result (λ f. f.cell ≡ R.id quadrant.now) }
    ensures few { IfOk result (λ f. length f.inside.items + length f.across.items ≤ 4) }
    ensures family { IfOk result (λ f. (k : ℕ)
        → IsAcross R.id (R.sound region.now) R.work (R.crosses region.now) k quadrant.now
        → IsFamily R.id (R.sound region.now) R.work (R.outside region.now) (R.inside region.now) (R.crosses region.now)
        (k + 1) f.cell f.inside.items f.across.items) }
{
    let cell = region.cell_at(quadrant);
    let _ = cell.id();
    let mut inside = Vec::new(alloc);
    let mut across = Vec::new(alloc);
    for digit in 0..4u8 {
        let child = region.child_at(alloc, quadrant, digit)?;
        sort_in(region, child, &mut inside, &mut across)?;
    }
    Ok(Family {
        cell,
        inside,
        across,
    })
}

/// Adds a quadrant to those that cross the region, or its cell to those that lie inside, or neither if it lies outside.
pub(crate) fn sort_in<R: RoughRegion>(
    region: &R,
    quadrant: R::At,
    inside: &mut Vec<CellId>,
    across: &mut Vec<R::At>,
) -> Result<(), AllocError>
    requires { R.sound region.now quadrant }
    ensures cell { IsCell (R.id quadrant) }
    ensures leaves { IfOk result (λ _. (x : ℕ) → covers (R.id quadrant) x ≡ true
        → ((has_leaf inside.new.items x || any_covers R.id across.new.items x) ≡ true) ⊎ R.outside region.now x) }
    ensures others { IfOk result (λ _. (x : ℕ)
        → (has_leaf inside.old.items x || any_covers R.id across.old.items x) ≡ true
        → (has_leaf inside.new.items x || any_covers R.id across.new.items x) ≡ true) }
    ensures times { IfOk result (λ _. (x : ℕ) → times inside.new.items x + times_by R.id across.new.items x
        ≤ (times inside.old.items x + times_by R.id across.old.items x) + cond (covers (R.id quadrant) x) 1 0) }
    ensures inside { IfOk result (λ _. (k : ℕ) → level_of (R.id quadrant) ≡ k
        → AreCrossing (R.crosses region.now) (R.id quadrant)
        → All (IsInside (R.inside region.now) (R.crosses region.now) k) inside.old.items
        → All (IsInside (R.inside region.now) (R.crosses region.now) k) inside.new.items) }
    ensures across { IfOk result (λ _. (k : ℕ) → level_of (R.id quadrant) ≡ k
        → AreCrossing (R.crosses region.now) (R.id quadrant)
        → All (IsAcross R.id (R.sound region.now) R.work (R.crosses region.now) k) across.old.items
        → All (IsAcross R.id (R.sound region.now) R.work (R.crosses region.now) k) across.new.items) }
    ensures few { IfOk result (λ _. length inside.new.items + length across.new.items
        ≤ (length inside.old.items + length across.old.items) + 1) }
{
    let cell = region.cell_at(&quadrant);
    let _ = cell.id();
    match region.part_at(&quadrant) {
        Part::Out => Ok(()),
        Part::In => add(inside, cell),
        Part::Cross => add(across, quadrant),
    }
}

/// Adds an item at the end of a list.
pub(crate) fn add<T: Drop>(list: &mut Vec<T>, item: T) -> Result<(), AllocError>
    ensures { IfOk result (λ _. list.new.items ≡ list.old.items ++ item ∷ []) }
{
    list.push(item)?;
    Ok(())
}

/// Moves the items of one list to the end of another.
pub(crate) fn join<T: Drop>(list: &mut Vec<T>, more: &mut Vec<T>) -> Result<(), AllocError>
    ensures { IfOk result (λ _. list.new.items ≡ list.old.items ++ more.old.items) }
{
    list.append(more)
}

/// The families of quadrants. Empties their list.
pub(crate) fn families_of<R: RoughRegion>(
    alloc: Global,
    region: &R,
    ahead: &mut Vec<R::At>,
) -> Result<Vec<Family<R::At>>, AllocError>
    requires { All (λ q. R.sound region.now q × (level_of (R.id q) < GREATEST_LEVEL)) ahead.old.items }
    ensures empty { IfOk result (λ _. ahead.new.items ≡ []) }
    ensures len { IfOk result (λ families. length families.items ≡ length ahead.old.items) }
    ensures few { IfOk result (λ families.
        All (λ f. length f.inside.items + length f.across.items ≤ 4) families.items) }
    ensures times { IfOk result (λ families. (x : ℕ)
        → times_by (λ f. f.cell) families.items x ≡ times_by R.id ahead.old.items x) }
    ensures families { IfOk result (λ families. (k : ℕ)
        → All (IsAcross R.id (R.sound region.now) R.work (R.crosses region.now) k) ahead.old.items
        → All (λ f. IsFamily R.id (R.sound region.now) R.work (R.outside region.now) (R.inside region.now)
        (R.crosses region.now) (k + 1) f.cell f.inside.items f.across.items) families.items) }
{
    let mut families = Vec::new(alloc);
    while let Some(quadrant) = ahead.pop() {
        let family = family_of(alloc, region, &quadrant)?;
        add(&mut families, family)?;
    }
    Ok(families)
}

//! A union as a region, and a union clipped by a rectangle.
ghost use Rattle.std.specs.Prelude.{◌≡◌, ◌↔◌, ◌&&◌, ℕ, true, false, IsTrue};
ghost use Rattle.s2cell.specs.Rectangles.{rect_set};
ghost use Rattle.s2list.specs.Union.{has_leaf, LiesIn};
ghost use Rattle.s2cover.specs.Coverings.{LiesOutside, clipped};

use crate::region::{Part, Region};
use s2cell::{CellId, FaceRect, PlacedCell};
use s2union::CellUnion;

impl Region for CellUnion {
    ghost holds = { λ u. has_leaf u.cells };

    fn part(&self, cell: CellId) -> Part {
        let _ = cell.id();
        if !self.intersects_cell(cell) {
            Part::Out
        } else if self.contains_cell(cell) {
            Part::In
        } else {
            Part::Cross
        }
    }
}

/// The leaves of a union that are in a rectangle. It borrows the union and copies none of it.
///
/// `part` takes time that is logarithmic in the size of the union, and more for a cell that crosses the border of the
/// rectangle: then the union's cells in it are tried in turn until one meets the rectangle.
#[derive(Clone, Copy)]
pub struct Clip<'a> {
    /// The union.
    pub union: &'a CellUnion,
    /// The rectangle that clips it.
    pub rect: FaceRect,
}

impl<'a> Region for Clip<'a> {
    ghost holds = { λ c. clipped c.union.now.cells c.rect };

    fn part(&self, cell: CellId) -> Part {
        part_by(self.union, &self.rect, cell, self.rect.part(cell))
    }

    fn part_of_placed(&self, placed: &PlacedCell) -> Part {
        let to_rect = self.rect.part_of_placed(placed);
        part_by(self.union, &self.rect, placed.cell, to_rect)
    }
}

/// How a cell lies relative to the clipped union, given how it lies relative to the rectangle.
fn part_by(union: &CellUnion, rect: &FaceRect, cell: CellId, to_rect: Part) -> Part
    requires out { (to_rect ≡ Part.Out) ↔ LiesOutside (rect_set rect.now) cell }
    requires inside { (to_rect ≡ Part.In) ↔ LiesIn (rect_set rect.now) cell }
    ensures out { (result ≡ Part.Out) ↔ LiesOutside (clipped union.now.cells rect.now) cell }
    ensures inside { (result ≡ Part.In) ↔ LiesIn (clipped union.now.cells rect.now) cell }
{
    match to_rect {
        Part::Out => Part::Out,
        Part::In => union.part(cell),
        Part::Cross => part_across(union, rect, cell),
    }
}

/// How a cell that crosses the rectangle lies relative to the clipped union. It may cross both union and rectangle and
/// yet share no leaf with what they share, so the union's cells in it are tried one by one.
fn part_across(union: &CellUnion, rect: &FaceRect, cell: CellId) -> Part
    requires some { LiesOutside (rect_set rect.now) cell → ⊥ }
    requires rest { LiesIn (rect_set rect.now) cell → ⊥ }
    ensures out { (result ≡ Part.Out) ↔ LiesOutside (clipped union.now.cells rect.now) cell }
    ensures inside { (result ≡ Part.In) ↔ LiesIn (clipped union.now.cells rect.now) cell }
{
    let _ = cell.id();
    if !union.contains_cell(cell) && lie_outside(union.cells_at(cell), rect) {
        Part::Out
    } else {
        Part::Cross
    }
}

/// Whether all of the cells lie outside the rectangle.
fn lie_outside(cells: &[CellId], rect: &FaceRect) -> bool
    ensures { IsTrue result ↔ ((x : ℕ) → has_leaf cells.now x ≡ true → rect_set rect.now x ≡ false) }
{
    for cell in cells {
        match rect.part(*cell) {
            Part::Out => {}
            _ => return false,
        }
    }
    true
}

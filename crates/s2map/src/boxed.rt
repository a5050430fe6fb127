//! Cells with boxes of theirs, on the way down from the faces.
ghost use Rattle.std.specs.Prelude.{◌≡◌, ◌<◌, ◌⊎◌, IsTrue};
ghost use Rattle.s2cell.specs.Cell.{IsCell, child_of, face_of, level_of};
ghost use Rattle.s2map.specs.Boxes.{IsBox};
ghost use Rattle.s2map.specs.Cells.{InBoxOnTurn, IsProperPlace};
ghost use Rattle.s2map.specs.Working.Near.{HoldsBox, IsBoxedCell};
ghost use Rattle.s2map.specs.declared.place.Place.{Place};

use crate::place::MapBox;
use s2cell::{CellId, GREATEST_LEVEL, PlacedCell};

/// A cell, and a box of it.
#[derive(Drop)]
pub struct BoxedCell {
    /// The cell.
    pub cell: CellId,
    /// Each place that a leaf of the cell holds lies in it, on this turn or on the next.
    pub bounds: MapBox,
}

/// Whether the places of the second box are places of the first.
fn holds(q: MapBox, s: MapBox) -> bool
    ensures { IsTrue result → HoldsBox q s }
{
    if s.west < q.west {
        return false;
    }
    if q.east < s.east {
        return false;
    }
    if s.south < q.south {
        return false;
    }
    if q.north < s.north {
        return false;
    }
    true
}

/// The second box if the first has it, else the first.
fn within(q: MapBox, s: MapBox) -> MapBox
    requires outer { IsBox q }
    requires inner { IsBox s }
    ensures bounds { IsBox result }
    ensures held { HoldsBox q result }
    ensures which { (result ≡ q) ⊎ (result ≡ s) }
{
    if holds(q, s) { s } else { q }
}

impl BoxedCell {
    /// A face, 0 to 5, and a box of the whole map.
    pub(crate) fn face(face: u8, map: MapBox) -> BoxedCell
        requires face { face < 6 }
        requires whole { IsBox map }
        requires all { (p : Place) → IsProperPlace p → InBoxOnTurn map p }
        ensures bounds { result.bounds ≡ map }
        ensures boxed { IsBoxedCell result }
        ensures cell { IsCell result.cell }
        ensures level { level_of result.cell ≡ 0 }
        ensures face { face_of result.cell ≡ face }
    {
        BoxedCell {
            cell: PlacedCell::face(face).cell,
            bounds: map,
        }
    }

    /// The child with this number, 0 to 3 along the curve, and its box. Boxes are not exact: if a child's own lies
    /// partly outside of its parent's, the child has its parent's.
    pub(crate) fn child(&self, digit: u8) -> BoxedCell
        requires boxed { IsBoxedCell self.now }
        requires deep { level_of self.now.cell < GREATEST_LEVEL }
        requires digit { digit < 4 }
        ensures cell { result.cell ≡ child_of self.now.cell digit }
        ensures boxed { IsBoxedCell result }
        ensures held { HoldsBox self.now.bounds result.bounds }
    {
        let _ = self.cell.id();
        let cell = self.cell.child(digit);
        BoxedCell {
            cell,
            bounds: within(self.bounds, MapBox::of_cell(cell)),
        }
    }
}

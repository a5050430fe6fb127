//! Rectangles of leaves on one face as regions.
ghost use Rattle.std.specs.Prelude.{◌≡◌, ◌+◌, ◌<◌, ◌≤◌, ◌↔◌, ◌⊎◌, ℕ};
ghost use Rattle.s2cell.specs.Rectangles.{rect_set};
ghost use Rattle.s2cell.specs.Square.{IsSquareOf};
ghost use Rattle.s2list.specs.Union.{LiesIn};
ghost use Rattle.s2cover.specs.Coverings.{LiesOutside};

use crate::region::{Part, Region};
use s2cell::{CellId, FaceRect, PlacedCell, SIDE, Square};

impl Region for FaceRect {
    ghost holds = { rect_set };

    fn part(&self, cell: CellId) -> Part {
        part_of(self, cell.square())
    }

    fn part_of_placed(&self, placed: &PlacedCell) -> Part {
        part_of(self, placed.square)
    }
}

/// Whether the cell with this square lies outside the rectangle, inside it or across.
pub(crate) fn part_of(rect: &FaceRect, square: Square) -> Part
    requires size { 0 < square.size }
    requires i { square.i + square.size ≤ SIDE }
    requires j { square.j + square.size ≤ SIDE }
    ensures out { (c : ℕ) → IsSquareOf c square.face square.i square.j square.size →
        (result ≡ Part.Out) ↔ LiesOutside (rect_set rect.now) c }
    ensures inside { (c : ℕ) → IsSquareOf c square.face square.i square.j square.size →
        (result ≡ Part.In) ↔ LiesIn (rect_set rect.now) c }
{
    if square.face != rect.face {
        return Part::Out;
    }
    let first = span_part(rect.i0, rect.i1, square.i, square.size);
    let second = span_part(rect.j0, rect.j1, square.j, square.size);
    both_parts(first, second)
}

/// Whether the `size` places from `at` on lie outside those from `lo` to `hi`, inside them or across.
fn span_part(lo: u32, hi: u32, at: u32, size: u32) -> Part
    requires span { lo ≤ hi }
    requires size { 0 < size }
    requires fits { at + size ≤ SIDE }
    ensures out { (result ≡ Part.Out) ↔ ((hi < at) ⊎ (at + size ≤ lo)) }
    ensures inside { (result ≡ Part.In) ↔ ((lo ≤ at) × (at + size ≤ hi + 1)) }
{
    let last = at + (size - 1);
    if hi < at || last < lo {
        Part::Out
    } else if at < lo || hi < last {
        Part::Cross
    } else {
        Part::In
    }
}

/// How a square lies relative to a rectangle, from how its two sides do.
fn both_parts(first: Part, second: Part) -> Part
    ensures out { (result ≡ Part.Out) ↔ ((first ≡ Part.Out) ⊎ (second ≡ Part.Out)) }
    ensures inside { (result ≡ Part.In) ↔ ((first ≡ Part.In) × (second ≡ Part.In)) }
{
    match first {
        Part::Out => Part::Out,
        Part::In => second,
        Part::Cross => match second {
            Part::Out => Part::Out,
            Part::In => Part::Cross,
            Part::Cross => Part::Cross,
        },
    }
}

//! The search for the greatest cells of a rectangle on the grid of a level.
ghost use Rattle.std.specs.Prelude.{◌≡◌, ◌+◌, ◌-◌, ◌*◌, ◌^◌, ◌<◌, ◌≤◌, ◌↔◌, ◌++◌, ◌∷◌};
ghost use Rattle.std.specs.Prelude.{[], ℕ, length, vec_len, OnOk, OnErr, IfErr};
ghost use Rattle.s2cell.specs.Cell.{level_of};
ghost use Rattle.s2cell.specs.Square.{IsPlacedCell, IsSquareOf};
ghost use Rattle.s2cell.specs.Rectangles.{rect_set};
ghost use Rattle.s2list.specs.Union.{LiesIn};
ghost use Rattle.s2cover.specs.Coverings.{LiesOutside};
ghost use Rattle.s2cover.specs.Working.Descent.{IsAligned, depth_of, form_in};

use crate::MOST_COVERING;
use crate::rect::part_of;
use crate::region::{CoverFault, Part};
use s2cell::{CellId, FaceRect, GREATEST_LEVEL, PlacedCell, SIDE, Square};

/// How many quadrants a call has looked at: how often it asked whether a cell lies outside, inside or across.
#[derive(Clone, Copy, PartialEq, Eq, Debug, Default)]
pub struct Looks {
    /// The number of looks.
    pub count: u64,
}

/// The one question: whether the cell with this square lies outside the rectangle, inside it or across. It is counted.
pub(crate) fn look(rect: &FaceRect, square: Square, looks: &mut Looks) -> Part
    requires size { 0 < square.size }
    requires i { square.i + square.size ≤ SIDE }
    requires j { square.j + square.size ≤ SIDE }
    requires count { looks.old.count + 1 < 2 ^ 64 }
    ensures count { looks.new.count ≡ looks.old.count + 1 }
    ensures out { (c : ℕ) → IsSquareOf c square.face square.i square.j square.size →
        (result ≡ Part.Out) ↔ LiesOutside (rect_set rect.now) c }
    ensures inside { (c : ℕ) → IsSquareOf c square.face square.i square.j square.size →
        (result ≡ Part.In) ↔ LiesIn (rect_set rect.now) c }
{
    looks.count += 1;
    part_of(rect, square)
}

/// Adds the greatest cells of a rectangle on the grid of a level that lie in one cell. Each is taken as it is found,
/// and the search stops at cell number `max + 1`.
pub(crate) fn seek(
    rect: &FaceRect,
    level: u8,
    placed: &PlacedCell,
    max: usize,
    looks: &mut Looks,
    list: &mut Vec<CellId>,
) -> Result<(), CoverFault>
    requires placed { IsPlacedCell placed.now }
    requires above { level_of placed.now.cell ≤ level }
    requires level { level ≤ GREATEST_LEVEL }
    requires max { max ≤ MOST_COVERING }
    requires room { vec_len list.old ≤ max }
    requires aligned { IsAligned (rect_set rect.now) (30 - level) }
    requires looks { looks.old.count + 1 + 4 * (depth_of placed.now.cell - (30 - level))
        * (max - vec_len list.old + 1) < 2 ^ 64 }
    ensures list { OnOk result (list.new.items ≡ list.old.items ++ form_in (rect_set rect.now) (30 - level)
        placed.now.cell) }
    ensures room { OnOk result (vec_len list.new ≤ max) }
    ensures many { IfErr result (λ fault. fault ≡ CoverFault.TooMany →
        max < vec_len list.old + length (form_in (rect_set rect.now) (30 - level) placed.now.cell)) }
    ensures most { OnOk result (looks.new.count ≤ looks.old.count + 1 + 4
        * (depth_of placed.now.cell - (30 - level)) * length
        (form_in (rect_set rect.now) (30 - level) placed.now.cell)) }
    ensures least { OnOk result (looks.old.count + length
        (form_in (rect_set rect.now) (30 - level) placed.now.cell) ≤ looks.new.count) }
    ensures stopped { OnErr result (looks.new.count ≤ looks.old.count + 1 + 4
        * (depth_of placed.now.cell - (30 - level)) * (max - vec_len list.old + 1)) }
    ensures refused { IfErr result (λ fault. fault ≡ CoverFault.TooMany →
        looks.old.count + max < looks.new.count + vec_len list.old) }
{
    match look(rect, placed.square, looks) {
        Part::Out => Ok(()),
        Part::In => take(placed.cell, max, list),
        Part::Cross => {
            for digit in 0..4u8 {
                seek(rect, level, &placed.child(digit), max, looks, list)?;
            }
            Ok(())
        }
    }
}

/// Adds a cell to the list, if it may have one more.
fn take(cell: CellId, max: usize, list: &mut Vec<CellId>) -> Result<(), CoverFault>
    requires { vec_len list.old ≤ max }
    ensures list { OnOk result (list.new.items ≡ list.old.items ++ cell ∷ []) }
    ensures room { OnOk result (vec_len list.new ≤ max) }
    ensures many { IfErr result (λ fault. fault ≡ CoverFault.TooMany → max < vec_len list.old + 1) }
{
    if list.len() == max {
        return Err(CoverFault::TooMany);
    }
    list.push(cell)?;
    Ok(())
}

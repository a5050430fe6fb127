//! The type of a cell, and what its identifier says directly.
ghost use Rattle.std.specs.Prelude.{◌≡◌, ◌<◌, ◌≤◌, ◌*◌, ◌^◌, IsTrue, ◌↔◌, SomeIff, ℕ};
ghost use Rattle.s2cell.specs.Cell.{IsCell, IsCellAt, level_of, place_of, face_of};

use crate::GREATEST_LEVEL;
use std::marker::Model;

/// How many bits are below those of the face.
const FACE_SHIFT: u32 = 61;

/// A cell, as its identifier (`S2CellId`). Every value is one of the 6 * (4^31 - 1) / 3 cells.
///
/// Cells compare as their identifiers do: by the order of their middles along the curve.
///
/// Its methods, and the files that have them:
///
/// - made: `from_id`, here; `from_token` (token.rt), `from_debug` (debug.rt), `from_face_ij` (curve.rt), `tile`
///   (leaf_range.rt)
/// - its identifier, here: `id`, `face`, `level`, `is_leaf`, `==`, `<`, `Hash`, `Debug`
/// - cells around it: `parent`, `child`, `contains`, `intersects` (nesting.rt), `descendant` (descendant.rt), `next`,
///   `prev`, `common_ancestor` (neighbours.rt)
/// - its leaves: `range_min`, `range_max` (nesting.rt), `leaf_count`, `first_leaf`, `end_leaf` (leaf_range.rt); its
///   square on the face: `square` (curve.rt)
/// - its texts: `token`, `token_len`, `write_digits` (token.rt), `debug` (debug.rt)
#[derive(Clone, Copy, PartialEq, Eq, PartialOrd, Ord, Hash, Debug)]
pub struct CellId {
    pub(crate) id: u64,
}

impl Model for CellId {
    ghost Value = { ℕ };

    ghost view = { λ c. c.id };

    ghost inverse = { λ n. record { id = n } };

    ghost invariant = { λ c. IsCell c.id };
}

impl CellId {
    /// The cell with this identifier (`S2CellId(id)` and `is_valid`). None if no cell has it: its face is above 5, or
    /// its lowest set bit is not the marker of a level.
    pub fn from_id(id: u64) -> Option<CellId>
        ensures { SomeIff result (IsCell id) id }
    {
        // The marker of level k is the bit 2 (30 - k): an even place, at most 60.
        let zeros = id.trailing_zeros();
        if zeros <= 60 && zeros % 2 == 0 && id >> FACE_SHIFT < 6 {
            Some(CellId { id })
        } else {
            None
        }
    }

    /// The identifier.
    pub fn id(self) -> u64
        ensures value { result ≡ self }
        ensures cell { IsCellAt (level_of self) (place_of self) self }
        ensures most { result < 6 * 2 ^ 61 }
    {
        self.id
    }

    /// The face that the cell lies on, 0 to 5.
    pub fn face(self) -> u8
        ensures value { result ≡ face_of self }
        ensures most { result < 6 }
    {
        (self.id >> FACE_SHIFT) as u8
    }

    /// The level, from 0 for a face to 30 for a leaf.
    pub fn level(self) -> u8
        ensures value { result ≡ level_of self }
        ensures most { result ≤ GREATEST_LEVEL }
    {
        GREATEST_LEVEL - (self.id.trailing_zeros() / 2) as u8
    }

    /// Whether the cell is a leaf, which has no children.
    pub fn is_leaf(self) -> bool
        ensures { IsTrue result ↔ (level_of self ≡ GREATEST_LEVEL) }
    {
        self.id & 1 == 1
    }
}

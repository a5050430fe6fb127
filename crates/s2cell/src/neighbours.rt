//! The cells before and after a cell along the curve, and the common ancestor of two cells.

ghost use Rattle.std.specs.Prelude.{◌≡◌, ◌↔◌, IfSome, IsSome, MatchOption};
ghost use Rattle.s2cell.specs.Cell.{face_of};
ghost use Rattle.s2cell.specs.Neighbours.{IsNext, IsFirst, IsLast, IsCommonAncestor};

use crate::CellId;

/// Where the identifiers of the six faces end.
const END: u64 = 6 << 61;

/// The greatest bit in which two cells of one face can differ.
const TOP_BIT: u32 = 60;

impl CellId {
    /// The next cell of the same level along the curve, possibly on the next face (`next`). None exactly for the last
    /// cell of the level; S2's leaves the six faces there.
    pub fn next(self) -> Option<CellId>
        ensures { MatchOption result (IsLast self) (λ c. IsNext self c) }
    {
        let id = self.id + 2 * self.leaf_count();
        if id < END { Some(CellId { id }) } else { None }
    }

    /// The previous cell of the same level along the curve, possibly on the face before (`prev`). None exactly for the
    /// first cell of the level; S2's leaves the six faces there.
    pub fn prev(self) -> Option<CellId>
        ensures { MatchOption result (IsFirst self) (λ c. IsNext c self) }
    {
        let step = 2 * self.leaf_count();
        if step < self.id {
            Some(CellId { id: self.id - step })
        } else {
            None
        }
    }

    /// The cell of the greatest level that contains both cells (`GetCommonAncestorLevel`, and the parent at that
    /// level). None if their faces differ.
    ///
    /// The highest bit in which the identifiers differ gives the level, unless the marker of one of the cells is
    /// higher; then the marker gives it.
    pub fn common_ancestor(self, other: CellId) -> Option<CellId>
        ensures ancestor { IfSome result (λ c. IsCommonAncestor self other c) }
        ensures faces { IsSome result ↔ (face_of self ≡ face_of other) }
    {
        let differing = self.id ^ other.id;
        let covering = differing.max(self.leaf_count()).max(other.leaf_count());
        let highest = 63 - covering.leading_zeros();
        if highest > TOP_BIT {
            return None;
        }
        Some(self.parent(((TOP_BIT - highest) / 2) as u8))
    }
}

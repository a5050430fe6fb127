//! Parents and children, and which cells contain which.
ghost use Rattle.std.specs.Prelude.{◌≡◌, ◌<◌, ◌≤◌, ◌+◌, ◌-◌, ◌*◌, IsTrue, ◌↔◌, ◌⊎◌};
ghost use Rattle.s2cell.specs.Cell.{IsCell, level_of, parent_of, child_of, first_leaf, size_of, IsInside, ShareLeaf};

use crate::{CellId, GREATEST_LEVEL};

impl CellId {
    /// The cell of level `level` that contains this one. The level is at most the cell's own; at that level the answer
    /// is the cell itself.
    pub fn parent(self, level: u8) -> CellId
        requires { level ≤ level_of self }
        ensures value { result ≡ parent_of self level }
        ensures level { level_of result ≡ level }
    {
        let _ = &self.id;
        let lowest = 1u64 << (2 * (30 - level as u32));
        CellId {
            id: self.id & lowest.wrapping_neg() | lowest,
        }
    }

    /// The child with the number `p`, 0 to 3 along the curve. The cell must not be a leaf.
    pub fn child(self, p: u8) -> CellId
        requires inner { level_of self < GREATEST_LEVEL }
        requires place { p < 4 }
        ensures { result ≡ child_of self p }
    {
        let size = self.leaf_count();
        CellId {
            id: self.id - size + (2 * p as u64 + 1) * (size / 4),
        }
    }

    /// The first leaf in the cell. Its leaves are those from here to `range_max`, inclusive; the identifiers of all
    /// cells in it are in this range too.
    pub fn range_min(self) -> CellId
        ensures value { result ≡ 2 * first_leaf self + 1 }
    {
        CellId {
            id: self.id - (self.leaf_count() - 1),
        }
    }

    /// The last leaf in the cell, inclusive.
    pub fn range_max(self) -> CellId
        ensures value { result ≡ 2 * (first_leaf self + size_of self) - 1 }
    {
        CellId {
            id: self.id + (self.leaf_count() - 1),
        }
    }

    /// Whether each leaf of `other` is a leaf of this cell. A cell contains itself.
    pub fn contains(self, other: CellId) -> bool
        ensures value { IsTrue result ↔ IsInside other self }
        ensures own { IsCell self }
        ensures others { IsCell other }
    {
        let _ = &self.id;
        self.range_min().id <= other.id && other.id <= self.range_max().id
    }

    /// Whether the two cells share a leaf; they do exactly if one of them contains the other.
    pub fn intersects(self, other: CellId) -> bool
        ensures shared { IsTrue result ↔ ShareLeaf self other }
        ensures nested { IsTrue result ↔ (IsInside other self ⊎ IsInside self other) }
    {
        self.contains(other) || other.contains(self)
    }
}

//! The numbers of a cell's leaves along the curve, and the cells that tile a run of leaves.
ghost use Rattle.std.specs.Prelude.{ℕ, ◌≡◌, ◌<◌, ◌≤◌, ◌+◌, ◌*◌, ◌^◌};
ghost use Rattle.s2cell.specs.Cell.{IsCell, first_leaf, size_of};

use crate::{CellId, LEAVES};

impl CellId {
    /// The number of leaves in the cell, 1 to 4^30, which is its lowest set bit (`lsb`).
    pub fn leaf_count(self) -> u64
        ensures value { result ≡ size_of self }
        ensures middle { self ≡ 2 * first_leaf self + result }
        ensures some { 0 < result }
        ensures most { result ≤ 2 ^ 60 }
    {
        self.id & self.id.wrapping_neg()
    }

    /// The number of the first leaf in the cell, counted from 0 through all faces.
    pub fn first_leaf(self) -> u64
        ensures value { result ≡ first_leaf self }
        ensures own { IsCell self }
        ensures most { result < LEAVES }
    {
        (self.id - self.leaf_count()) / 2
    }

    /// One more than the number of the last leaf in the cell.
    pub fn end_leaf(self) -> u64
        ensures value { result ≡ first_leaf self + size_of self }
        ensures own { IsCell self }
        ensures some { first_leaf self < result }
        ensures most { result ≤ LEAVES }
    {
        (self.id + self.leaf_count()) / 2
    }

    /// The largest cell that begins at the leaf `first` and ends before the leaf `end`.
    pub fn tile(first: u64, end: u64) -> CellId
        requires some { first < end }
        requires within { end ≤ LEAVES }
        ensures first { first_leaf result ≡ first }
        ensures end { first_leaf result + size_of result ≤ end }
        ensures cell { IsCell result }
        ensures largest { (q : ℕ) → IsCell q → first_leaf q ≡ first
            → first_leaf q + size_of q ≤ end → size_of q ≤ size_of result }
    {
        let aligned = first.trailing_zeros() / 2;
        let fitting = (63 - (end - first).leading_zeros()) / 2;
        let steps = aligned.min(fitting).min(30);
        CellId {
            id: 2 * first + (1u64 << (2 * steps)),
        }
    }
}

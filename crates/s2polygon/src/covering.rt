//! The coverings of a polygon.
ghost use Rattle.std.specs.Prelude.{◌≡◌, ◌<◌, ◌≤◌, ◌⊎◌, ℕ, length, true, IfErr, IfOk, IsTrue};
ghost use Rattle.s2list.specs.Union.{IsLocal, IsNormalForm, has_leaf};
ghost use Rattle.s2cover.specs.Coverings.{HasLeavesOf, TooManyMeans, inner_set, outer_set};
ghost use Rattle.s2polygon.specs.Counts.{IsTooFine, IsWide};
ghost use Rattle.s2polygon.specs.Leaves.{inner_leaf, outer_leaf};

use crate::polygon::Polygon;
use crate::quadrant::Walked;
use s2cell::{GREATEST_LEVEL, LEAVES};
use s2cover::laws::covering_sets;
use s2cover::{CoverFault, MOST_COVERING, quartered_inner, quartered_outer};
use s2union::CellUnion;
use std::alloc::Global;

impl Polygon {
    /// The outer covering of the polygon: the cells of the level that have an outer leaf, one that an edge touches or
    /// that lies inside, normalized. No outer leaf is missing.
    ///
    /// `TooMany` is answered only if the finished covering has more than `max` cells, or if edges touch more than
    /// `MOST_TOUCHED` cells of the level and the margin is wider than the narrowest of them. With such a margin cells
    /// that are touched merge, so that a walk through very many could end in few. S2: `GetCovering` of an `S2Polygon`
    /// with one level, without its bound on the number of cells.
    pub fn outer(&self, alloc: Global, level: u8, max: usize) -> Result<CellUnion, CoverFault>
        requires level { level ≤ GREATEST_LEVEL }
        requires max { max ≤ MOST_COVERING }
        ensures leaves { IfOk result (λ u. HasLeavesOf (outer_set (outer_leaf self.now) level) u.cells) }
        ensures missed { IfOk result (λ u. (x : ℕ) → x < LEAVES → outer_leaf self.now x ≡ true
            → has_leaf u.cells x ≡ true) }
        ensures local { IfOk result (λ u. IsLocal u.cells) }
        ensures normal { IfOk result (λ u. IsNormalForm (outer_set (outer_leaf self.now) level) u.cells) }
        ensures within { IfOk result (λ u. length u.cells ≤ max) }
        ensures many { IfErr result (λ fault. TooManyMeans (outer_set (outer_leaf self.now) level) max fault
            ⊎ (IsWide self.now level × IsTooFine self.now level)) }
    {
        covering_sets();
        if self.is_wide(level) && self.is_too_fine(alloc, level, usize::MAX)? {
            return Err(CoverFault::TooMany);
        }
        quartered_outer(alloc, &Walked { polygon: self }, level, max)
    }

    /// The inner covering of the polygon: the cells of the level all of whose leaves are inner ones, which lie inside
    /// and are touched by no edge, normalized.
    ///
    /// `TooMany` is answered only if the finished covering has more than `max` cells, or if edges touch more than
    /// `MOST_TOUCHED` cells of the level, none of which is in it. S2: `GetInteriorCovering` of an `S2Polygon` with one
    /// level, without its bound on the number of cells.
    pub fn inner(&self, alloc: Global, level: u8, max: usize) -> Result<CellUnion, CoverFault>
        requires level { level ≤ GREATEST_LEVEL }
        requires max { max ≤ MOST_COVERING }
        ensures leaves { IfOk result (λ u. HasLeavesOf (inner_set (inner_leaf self.now) level) u.cells) }
        ensures proper { IfOk result (λ u. (x : ℕ) → has_leaf u.cells x ≡ true → inner_leaf self.now x ≡ true) }
        ensures local { IfOk result (λ u. IsLocal u.cells) }
        ensures normal { IfOk result (λ u. IsNormalForm (inner_set (inner_leaf self.now) level) u.cells) }
        ensures within { IfOk result (λ u. length u.cells ≤ max) }
        ensures many { IfErr result (λ fault. TooManyMeans (inner_set (inner_leaf self.now) level) max fault
            ⊎ IsTooFine self.now level) }
    {
        covering_sets();
        if self.is_too_fine(alloc, level, max)? {
            return Err(CoverFault::TooMany);
        }
        quartered_inner(alloc, &Walked { polygon: self }, level, max)
    }

    /// Whether the margin is wider than the narrowest cell of the level.
    fn is_wide(&self, level: u8) -> bool
        requires { level ≤ GREATEST_LEVEL }
        ensures { IsTrue result → IsWide self.now level }
    {
        self.margin() > 1 << (62 - level)
    }
}

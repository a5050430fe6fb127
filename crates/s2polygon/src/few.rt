//! The coverings of a polygon by few cells.
ghost use Rattle.std.specs.Prelude.{◌≤◌, length, max, IfOk};
ghost use Rattle.s2list.specs.Union.{IsLocal, IsWithin, has_leaf};
ghost use Rattle.s2cover.specs.Coverings.{EachShares, HasAllOf, NoneDeeper};
ghost use Rattle.s2cover.specs.Near.{IsNearInner, IsNearOuter};
ghost use Rattle.s2polygon.specs.Counts.{edges_met};
ghost use Rattle.s2polygon.specs.Leaves.{inner_leaf, outer_leaf};

use crate::polygon::Polygon;
use crate::quadrant::Walked;
use s2cell::GREATEST_LEVEL;
use s2cover::{MOST_COVERING, inner_up_to, outer_up_to};
use s2union::CellUnion;
use std::alloc::{AllocError, Global};

impl Polygon {
    /// An outer covering of at most `most` cells, or 6 if that is more, none of them deeper than the level `deepest`.
    /// No outer leaf is missing, and each cell has one. Fails only if there is no memory.
    ///
    /// Cells are split for at most 2^20 + 32 (edges + `most`) pairs of a cell and an edge that meets it, so that edges
    /// that run to and fro cost time and memory as others do. With more the covering is coarser, which no error tells.
    ///
    /// It comes near: each cell that it is made of is of the level `deepest` or has inner leaves alone, unless there
    /// are `most - 2` of them, or they and the cells around them have more pairs with edges than that. It is then
    /// normalized, so it may have fewer cells.
    ///
    /// S2: `GetCovering` of an `S2Polygon` with `max_cells` and `max_level`.
    pub fn outer_up_to(
        &self,
        alloc: Global,
        deepest: u8,
        most: usize,
    ) -> Result<CellUnion, AllocError>
        requires level { deepest ≤ GREATEST_LEVEL }
        requires most { most ≤ MOST_COVERING }
        ensures leaves { IfOk result (λ u. HasAllOf (outer_leaf self.now) u.cells) }
        ensures near { IfOk result (λ u. IsNearOuter (outer_leaf self.now) (inner_leaf self.now) (edges_met self.now)
            (length self.now.edges) deepest most u.cells) }
        ensures shares { IfOk result (λ u. EachShares (outer_leaf self.now) u.cells) }
        ensures within { IfOk result (λ u. length u.cells ≤ max most 6) }
        ensures level { IfOk result (λ u. NoneDeeper deepest u.cells) }
        ensures local { IfOk result (λ u. IsLocal u.cells) }
    {
        outer_up_to(alloc, &Walked { polygon: self }, deepest, most)
    }

    /// An inner covering of at most `most` cells, none of them deeper than the level `deepest`. Its leaves are inner
    /// ones. Fails only if there is no memory.
    ///
    /// Ends when it has `most` cells. Cells are split for no more pairs than by `outer_up_to`; with more it has fewer
    /// cells, which no error tells.
    ///
    /// It comes near: it is made of `most` cells, or has each cell of a level down to `deepest` that has inner leaves
    /// alone, if above that level edges touch no more cells of one level than `most + 32`, and have no more pairs with
    /// these than that. It is then normalized, so it may have fewer cells.
    ///
    /// S2: `GetInteriorCovering` of an `S2Polygon` with `max_cells` and `max_level`.
    pub fn inner_up_to(
        &self,
        alloc: Global,
        deepest: u8,
        most: usize,
    ) -> Result<CellUnion, AllocError>
        requires level { deepest ≤ GREATEST_LEVEL }
        requires most { most ≤ MOST_COVERING }
        ensures leaves { IfOk result (λ u. IsWithin (has_leaf u.cells) (inner_leaf self.now)) }
        ensures near { IfOk result (λ u. IsNearInner (outer_leaf self.now) (inner_leaf self.now) (edges_met self.now)
            (length self.now.edges) deepest most u.cells) }
        ensures within { IfOk result (λ u. length u.cells ≤ most) }
        ensures level { IfOk result (λ u. NoneDeeper deepest u.cells) }
        ensures local { IfOk result (λ u. IsLocal u.cells) }
    {
        inner_up_to(alloc, &Walked { polygon: self }, deepest, most)
    }
}

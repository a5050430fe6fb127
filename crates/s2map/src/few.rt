//! The coverings of a shape by few cells.
ghost use Rattle.std.specs.Prelude.{◌≡◌, ◌+◌, ◌-◌, ◌^◌, ◌≤◌, ℕ, IfOk, length, max, min, true};
ghost use Rattle.s2list.specs.Union.{IsLocal, has_leaf};
ghost use Rattle.s2cover.specs.Coverings.{NoneDeeper};
ghost use Rattle.s2cover.specs.Rough.{ComesNearInner, ComesNearOuter};
ghost use Rattle.s2map.specs.Cells.{HoldsPlace, IsProperPlace, LeafInside, LeafOutside};
ghost use Rattle.s2map.specs.Few.{IsMetCell, edge_count};
ghost use Rattle.s2map.specs.Map.{inside as inside_of};
ghost use Rattle.s2map.specs.Working.Near.{IsBoxedCell, IsKnown, edges_left};
ghost use Rattle.s2map.specs.declared.TheConstants.{BOX_WORK as work_of_box};
ghost use Rattle.s2map.specs.declared.place.Place.{Place};

use crate::BOX_WORK;
use crate::boxed::BoxedCell;
use crate::cells::whole_map;
use crate::covering::{known_of_child, part_by_known};
use crate::near::Known;
use crate::shape::{BoxPart, MapShape};
use s2cell::{CellId, GREATEST_LEVEL};
use s2cover::{MOST_COVERING, Part, RoughRegion, rough_inner_up_to, rough_outer_up_to};
use s2union::CellUnion;
use std::alloc::{AllocError, Global};

/// A cell, a box of it, and what is known of the box.
#[derive(Drop)]
pub struct MapCell {
    at: BoxedCell,
    known: Known,
}

/// A shape that is walked down from the faces.
#[derive(Clone, Copy)]
pub struct Walked<'a> {
    shape: &'a MapShape,
}

impl<'a> RoughRegion for Walked<'a> {
    ghost outside = { λ w. LeafOutside w.shape.now };

    ghost inside = { λ w. LeafInside w.shape.now };

    ghost crosses = { λ w. IsMetCell w.shape.now };

    ghost extent = { λ w. edge_count w.shape.now };

    type At = MapCell;

    ghost id = { λ c. c.at.cell };

    ghost work = { λ c. min (edges_left c.known + work_of_box) (2 ^ 64 - 1) };

    ghost sound = { λ w c. IsBoxedCell c.at × IsKnown w.shape.now c.at.bounds c.known };

    fn size(&self) -> usize {
        self.shape.edges()
    }

    fn face(&self, alloc: Global, face: u8) -> Result<MapCell, AllocError> {
        let map = whole_map();
        let known = self.shape.known(alloc, map)?;
        Ok(MapCell {
            at: BoxedCell::face(face, map),
            known,
        })
    }

    fn cell_at(&self, at: &MapCell) -> CellId {
        at.at.cell
    }

    fn size_at(&self, at: &MapCell) -> usize {
        at.known.size().saturating_add(BOX_WORK as usize)
    }

    fn part_at(&self, at: &MapCell) -> Part {
        match part_by_known(self.shape, &at.at, &at.known) {
            BoxPart::Out => Part::Out,
            BoxPart::In => Part::In,
            BoxPart::Met => Part::Cross,
        }
    }

    fn child_at(&self, alloc: Global, at: &MapCell, digit: u8) -> Result<MapCell, AllocError> {
        let child = at.at.child(digit);
        let known = known_of_child(alloc, self.shape, &at.at, &at.known, &child)?;
        Ok(MapCell { at: child, known })
    }
}

impl MapShape {
    /// An outer covering of at most `most` cells, or 6 if that is more, none of them deeper than the level `deepest`.
    /// No place inside is missing. Fails only if there is no memory.
    ///
    /// Goes down level by level. A cell is split if its children that don't lie outside fit, those first that have the
    /// fewest; else it is kept whole. Cells are split for work of at most 2^20 + 32 (edges + `most`), where a cell
    /// takes 1 for each edge that meets its box, and `BOX_WORK`. With more the covering is coarser, which no error
    /// tells.
    ///
    /// It comes near: each cell that it is made of is of the level `deepest` or lies inside, unless there are
    /// `most - 2` of them, or they and the cells around them take more work than that. Cells that edges may go through
    /// but that hold no place inside count too. It is then normalized, so it may have fewer cells.
    ///
    /// S2: `S2RegionCoverer::GetCovering` with `max_cells` and `max_level`, in floating point.
    pub fn outer_up_to(
        &self,
        alloc: Global,
        deepest: u8,
        most: usize,
    ) -> Result<CellUnion, AllocError>
        requires level { deepest ≤ GREATEST_LEVEL }
        requires most { most ≤ MOST_COVERING }
        ensures outer { IfOk result (λ u. (n : ℕ) (p : Place) → IsProperPlace p → HoldsPlace n p
            → inside_of self.now p ≡ true → has_leaf u.cells n ≡ true) }
        ensures near { IfOk result (λ u. ComesNearOuter (LeafOutside self.now) (LeafInside self.now)
            (IsMetCell self.now) (edge_count self.now) deepest most u.cells) }
        ensures within { IfOk result (λ u. length u.cells ≤ max most 6) }
        ensures level { IfOk result (λ u. NoneDeeper deepest u.cells) }
        ensures local { IfOk result (λ u. IsLocal u.cells) }
    {
        rough_outer_up_to(alloc, &Walked { shape: self }, deepest, most)
    }

    /// An inner covering of at most `most` cells, none of them deeper than the level `deepest`. No place outside is in
    /// it. Fails only if there is no memory.
    ///
    /// Ends when it has `most` cells. Cells are split for no more work than by `outer_up_to`; with more it has fewer
    /// cells, which no error tells.
    ///
    /// It comes near: it is made of `most` cells, or has each leaf but those that hold no place inside or lie in a cell
    /// that an edge may go through, of a level down to `deepest`, if above that level these are no more at one level
    /// than `most`, or 6, and take no more work than that. It is then normalized, so it may have fewer cells.
    ///
    /// S2: `S2RegionCoverer::GetInteriorCovering` with `max_cells` and `max_level`, in floating point.
    pub fn inner_up_to(
        &self,
        alloc: Global,
        deepest: u8,
        most: usize,
    ) -> Result<CellUnion, AllocError>
        requires level { deepest ≤ GREATEST_LEVEL }
        requires most { most ≤ MOST_COVERING }
        ensures inner { IfOk result (λ u. (n : ℕ) (p : Place) → has_leaf u.cells n ≡ true → IsProperPlace p
            → HoldsPlace n p → inside_of self.now p ≡ true) }
        ensures near { IfOk result (λ u. ComesNearInner (LeafOutside self.now) (IsMetCell self.now)
            (edge_count self.now) deepest most u.cells) }
        ensures within { IfOk result (λ u. length u.cells ≤ most) }
        ensures level { IfOk result (λ u. NoneDeeper deepest u.cells) }
        ensures local { IfOk result (λ u. IsLocal u.cells) }
    {
        rough_inner_up_to(alloc, &Walked { shape: self }, deepest, most)
    }
}

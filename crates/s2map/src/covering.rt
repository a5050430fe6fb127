//! How cells lie relative to a shape, and coverings of it.
ghost use Rattle.std.specs.Prelude.{◌≡◌, ◌+◌, ◌++◌, ◌∷◌, [], ◌<◌, ◌≤◌, ℕ, IfErr, IfOk, OnOk, false, length, true};
ghost use Rattle.s2cell.specs.Cell.{covers, level_of};
ghost use Rattle.s2cover.specs.declared.region.CoverFault.TheVariants.{TooMany};
ghost use Rattle.s2list.specs.Union.{has_leaf};
ghost use Rattle.s2map.specs.Cells.{AreMet, HasMore, HoldsPlace, IsPartOfCell, IsProperPlace, LeafInside, LeafOutside};
ghost use Rattle.s2map.specs.Boxes.{part_of};
ghost use Rattle.s2map.specs.Map.{inside};
ghost use Rattle.s2map.specs.Working.Covering.{IsFound, IsSorted, Keeps};
ghost use Rattle.s2map.specs.Working.Near.{HoldsBox, IsBoxedCell, IsKnown};
ghost use Rattle.s2map.specs.declared.place.Place.{Place};

use crate::boxed::BoxedCell;
use crate::cells::whole_map;
use crate::meeting::corner_of;
use crate::near::Known;
use crate::place::MapBox;
use crate::shape::{BoxPart, MapShape};
use s2cell::{CellId, GREATEST_LEVEL};
use s2cover::CoverFault;
use std::alloc::{AllocError, Global};

/// The cells of two coverings of a shape.
#[derive(Drop)]
pub struct MapCovering {
    /// Cells of one level that edges may go through. They belong to the outer covering alone.
    pub met: Vec<CellId>,
    /// Cells that lie inside. They belong to both coverings.
    pub within: Vec<CellId>,
}

/// Adds a cell to a list that may have `most` cells, together with others.
fn add(cell: CellId, others: usize, most: usize, list: &mut Vec<CellId>) -> Result<(), CoverFault>
    requires few { length list.old.items + others ≤ most }
    ensures added { OnOk result (list.new.items ≡ list.old.items ++ cell ∷ []) }
    ensures few { OnOk result (length list.new.items + others ≤ most) }
    ensures fault { IfErr result (λ fault. fault ≡ TooMany → most < length list.old.items + 1 + others) }
{
    if most - others <= list.len() {
        return Err(CoverFault::TooMany);
    }
    list.push(cell)?;
    Ok(())
}

/// Adds the cells of one cell to the coverings, of at most `most` cells. `known` is what is known of its box.
fn visit(
    alloc: Global,
    shape: &MapShape,
    at: &BoxedCell,
    known: &Known,
    level: u8,
    most: usize,
    met: &mut Vec<CellId>,
    within: &mut Vec<CellId>,
) -> Result<(), CoverFault>
    requires boxed { IsBoxedCell at.now }
    requires known { IsKnown shape.now at.now.bounds known.now }
    requires above { level_of at.now.cell ≤ level }
    requires level { level ≤ GREATEST_LEVEL }
    requires sorted { IsSorted shape.now level met.old.items within.old.items }
    requires few { length met.old.items + length within.old.items ≤ most }
    ensures few { OnOk result (length met.new.items + length within.new.items ≤ most) }
    ensures fault { IfErr result (λ fault. fault ≡ TooMany → HasMore shape.now level most) }
    ensures sorted { OnOk result (IsSorted shape.now level met.new.items within.new.items) }
    ensures keeps_met { OnOk result (Keeps met.old.items met.new.items) }
    ensures keeps_within { OnOk result (Keeps within.old.items within.new.items) }
    ensures found { OnOk result ((n : ℕ) → covers at.now.cell n ≡ true
        → IsFound shape.now met.new.items within.new.items n) }
{
    let _ = at.cell.id();
    match part_by_known(shape, at, known) {
        BoxPart::Out => Ok(()),
        BoxPart::In => {
            add(at.cell, met.len(), most, within)?;
            Ok(())
        }
        BoxPart::Met => {
            if at.cell.level() == level {
                add(at.cell, within.len(), most, met)?;
                return Ok(());
            }
            for digit in 0..4u8 {
                let child = at.child(digit);
                let near = known_of_child(alloc, shape, at, known, &child)?;
                visit(alloc, shape, &child, &near, level, most, met, within)?;
            }
            Ok(())
        }
    }
}

/// How a cell lies, by what is known of its box.
pub(crate) fn part_by_known(shape: &MapShape, at: &BoxedCell, known: &Known) -> BoxPart
    requires boxed { IsBoxedCell at.now }
    requires known { IsKnown shape.now at.now.bounds known.now }
    ensures exact { result ≡ part_of shape.now at.now.bounds }
    ensures inside { result ≡ BoxPart.In → (n : ℕ) → covers at.now.cell n ≡ true → LeafInside shape.now n }
    ensures outside { result ≡ BoxPart.Out → (n : ℕ) → covers at.now.cell n ≡ true → LeafOutside shape.now n }
    ensures none { result ≡ BoxPart.Met → known.now.inside ≡ false }
{
    shape.are_parts();
    known.part()
}

/// The facts on the box of a child, from those on its parent's box.
pub(crate) fn known_of_child(
    alloc: Global,
    shape: &MapShape,
    parent: &BoxedCell,
    known: &Known,
    child: &BoxedCell,
) -> Result<Known, AllocError>
    requires parent { IsBoxedCell parent.now }
    requires known { IsKnown shape.now parent.now.bounds known.now }
    requires child { IsBoxedCell child.now }
    requires held { HoldsBox parent.now.bounds child.now.bounds }
    ensures { IfOk result (λ near. IsKnown shape.now child.now.bounds near) }
{
    shape.are_parts();
    if known.inside {
        return Ok(Known::whole(alloc));
    }
    let near = known.narrowed(alloc, corner_of(parent.bounds), child.bounds)?;
    Ok(near)
}

impl MapShape {
    /// How a cell lies: `In` if all places that its leaves hold lie inside, `Out` if none does, and `Met` if an edge
    /// meets its box. Each edge is looked at twice at most.
    pub fn part_of_cell(&self, cell: CellId) -> BoxPart
        ensures exact { IsPartOfCell self.now cell result }
        ensures inside { result ≡ BoxPart.In → (n : ℕ) → covers cell n ≡ true → LeafInside self.now n }
        ensures outside { result ≡ BoxPart.Out → (n : ℕ) → covers cell n ≡ true → LeafOutside self.now n }
    {
        self.are_parts();
        match self.part(MapBox::of_cell(cell)) {
            Ok(part) => part,
            Err(_) => unreachable!(),
        }
    }

    /// The cells of two coverings down to a level, of at most 30: no place inside is missing from the cells that edges
    /// meet and those within together, and no place outside is in those within. The cells that edges meet are all of
    /// this level.
    ///
    /// Each cell is asked by the edges that meet a box of its parent. An edge is kept once for each level on the way
    /// down to a cell that it meets. Fails only if there is no memory for the cells and these. S2:
    /// `S2RegionCoverer::GetCovering` and `GetInteriorCovering` with one level, in floating point.
    pub fn covering(&self, alloc: Global, level: u8) -> Result<MapCovering, AllocError>
        requires { level ≤ GREATEST_LEVEL }
        ensures outer { IfOk result (λ c. (n : ℕ) (p : Place) → IsProperPlace p → HoldsPlace n p
            → inside self.now p ≡ true → has_leaf (c.met.items ++ c.within.items) n ≡ true) }
        ensures inner { IfOk result (λ c. (n : ℕ) (p : Place) → has_leaf c.within.items n ≡ true → IsProperPlace p
            → HoldsPlace n p → inside self.now p ≡ true) }
        ensures met { IfOk result (λ c. AreMet self.now level c.met.items) }
    {
        match self.covering_up_to(alloc, level, usize::MAX) {
            Ok(covering) => Ok(covering),
            Err(_) => Err(AllocError),
        }
    }

    /// The same coverings, if they have at most `most` cells together. Else `TooMany`, as soon as there is one more,
    /// and before memory is taken for it.
    ///
    /// Looking into a cell takes the time of the boxes of its four children, and of the edges that meet its own box, of
    /// which there are at most all on each turn. So `most` bounds the time too.
    pub fn covering_up_to(
        &self,
        alloc: Global,
        level: u8,
        most: usize,
    ) -> Result<MapCovering, CoverFault>
        requires { level ≤ GREATEST_LEVEL }
        ensures outer { IfOk result (λ c. (n : ℕ) (p : Place) → IsProperPlace p → HoldsPlace n p
            → inside self.now p ≡ true → has_leaf (c.met.items ++ c.within.items) n ≡ true) }
        ensures inner { IfOk result (λ c. (n : ℕ) (p : Place) → has_leaf c.within.items n ≡ true → IsProperPlace p
            → HoldsPlace n p → inside self.now p ≡ true) }
        ensures met { IfOk result (λ c. AreMet self.now level c.met.items) }
        ensures few { IfOk result (λ c. length c.met.items + length c.within.items ≤ most) }
        ensures fault { IfErr result (λ fault. fault ≡ TooMany → HasMore self.now level most) }
    {
        let mut met = Vec::new(alloc);
        let mut within = Vec::new(alloc);
        let map = whole_map();
        let known = self.known(alloc, map)?;
        for face in 0..6u8 {
            let top = BoxedCell::face(face, map);
            visit(
                alloc,
                self,
                &top,
                &known,
                level,
                most,
                &mut met,
                &mut within,
            )?;
        }
        Ok(MapCovering { met, within })
    }
}

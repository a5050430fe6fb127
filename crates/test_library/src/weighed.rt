//! A region that says how large its cells are, and counts how many are asked for.
ghost use Rattle.s2cell.specs.Square.{IsPlacedCell};

use s2cell::{CellId, PlacedCell};
use s2cover::{Part, Quadrant, Quartered, Region};
use std::alloc::{AllocError, Global};
use std::cell::Cell;

/// A region, with the size that each cell has, and how many children of cells were asked for.
#[derive(Drop)]
pub struct Weighed<'a, R> {
    pub region: &'a R,
    pub size: usize,
    pub asked: &'a Cell<u64>,
}

/// A cell of it.
#[derive(Drop)]
pub struct WeighedCell<'a, R> {
    region: &'a R,
    size: usize,
    asked: &'a Cell<u64>,
    placed: PlacedCell,
}

impl<'a, R: Region> Quadrant for WeighedCell<'a, R> {
    ghost id = { λ w. w.placed.cell };

    ghost sound = { λ w. IsPlacedCell w.placed };

    ghost outer = { λ w. R.holds w.region.now };

    ghost inner = { λ w. R.holds w.region.now };

    ghost work = { λ w c. w.size };

    fn cell(&self) -> CellId {
        self.placed.cell
    }

    fn size(&self) -> usize {
        self.size
    }

    fn part(&self) -> Part {
        self.region.part_of_placed(&self.placed)
    }

    fn child(&self, _alloc: Global, digit: u8) -> Result<WeighedCell<'a, R>, AllocError> {
        self.asked.set(self.asked.get().saturating_add(1));
        Ok(WeighedCell {
            region: self.region,
            size: self.size,
            asked: self.asked,
            placed: self.placed.child(digit),
        })
    }
}

impl<'a, R: Region> Quartered for Weighed<'a, R> {
    ghost outer = { λ w. R.holds w.region.now };

    ghost inner = { λ w. R.holds w.region.now };

    ghost work = { λ w c. w.size };

    ghost extent = { λ w. w.size };

    type At = WeighedCell<'a, R>;

    fn size(&self) -> usize {
        self.size
    }

    fn face(&self, _alloc: Global, face: u8) -> Result<WeighedCell<'a, R>, AllocError> {
        Ok(WeighedCell {
            region: self.region,
            size: self.size,
            asked: self.asked,
            placed: PlacedCell::face(face),
        })
    }
}

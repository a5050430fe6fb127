//! Regions that can say of any cell how it lies, walked down from the faces.
ghost use Rattle.s2cell.specs.Square.{IsPlacedCell};

use crate::quadrant::{Quadrant, Quartered};
use crate::region::{Part, Region};
use s2cell::{CellId, PlacedCell};
use std::alloc::{AllocError, Global};

/// A region, to be walked down from the faces.
#[derive(Clone, Copy)]
pub(crate) struct Walked<'a, R> {
    /// The region.
    pub(crate) region: &'a R,
}

/// A cell of the walk, with its square.
#[derive(Clone, Copy)]
pub(crate) struct Within<'a, R> {
    region: &'a R,
    placed: PlacedCell,
}

impl<'a, R: Region> Quadrant for Within<'a, R> {
    ghost id = { λ w. w.placed.cell };

    ghost sound = { λ w. IsPlacedCell w.placed };

    ghost outer = { λ w. R.holds w.region.now };

    ghost inner = { λ w. R.holds w.region.now };

    ghost work = { λ w c. 1 };

    fn cell(&self) -> CellId {
        self.placed.cell
    }

    fn size(&self) -> usize {
        1
    }

    fn part(&self) -> Part {
        self.region.part_of_placed(&self.placed)
    }

    fn child(&self, _alloc: Global, digit: u8) -> Result<Within<'a, R>, AllocError> {
        Ok(Within {
            region: self.region,
            placed: self.placed.child(digit),
        })
    }
}

impl<'a, R: Region> Quartered for Walked<'a, R> {
    ghost outer = { λ w. R.holds w.region.now };

    ghost inner = { λ w. R.holds w.region.now };

    ghost work = { λ w c. 1 };

    ghost extent = { λ w. 1 };

    type At = Within<'a, R>;

    fn size(&self) -> usize {
        1
    }

    fn face(&self, _alloc: Global, face: u8) -> Result<Within<'a, R>, AllocError> {
        Ok(Within {
            region: self.region,
            placed: PlacedCell::face(face),
        })
    }
}

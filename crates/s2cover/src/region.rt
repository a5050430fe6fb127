//! What a region is.
ghost use Rattle.std.specs.Prelude.{◌≡◌, ◌↔◌, ℕ, Bool};
ghost use Rattle.s2cell.specs.Square.{IsPlacedCell};
ghost use Rattle.s2list.specs.Union.{LiesIn};
ghost use Rattle.s2cover.specs.Coverings.{LiesOutside};
ghost use Rattle.s2cover.specs.declared.region.CoverFault.TheVariants.{Memory};

use s2cell::{CellId, PlacedCell};
use std::alloc::{AllocError, AllocFailed};
use thiserror::Error;

/// How a cell lies relative to a region.
#[derive(Clone, Copy, Debug, PartialEq, Eq)]
pub enum Part {
    /// No leaf of the cell is in the region.
    Out,
    /// All leaves of the cell are in the region.
    In,
    /// Some of its leaves are in the region, and some are not.
    Cross,
}

/// Why a covering was not made.
#[derive(Clone, Copy, Debug, PartialEq, Eq, Drop, Error)]
pub enum CoverFault {
    /// The finished covering has more cells than were allowed.
    #[error("the covering has too many cells")]
    TooMany,
    /// An allocation for the list failed.
    #[error("out of memory")]
    Memory,
}

impl From<AllocError> for CoverFault {
    ghost from_gives = { λ _ fault. fault ≡ Memory };

    fn from(_error: AllocError) -> CoverFault {
        CoverFault::Memory
    }
}

impl<T: Drop> From<AllocFailed<T>> for CoverFault {
    ghost from_gives = { λ _ fault. fault ≡ Memory };

    fn from(_error: AllocFailed<T>) -> CoverFault {
        CoverFault::Memory
    }
}

/// A set of leaves that can say how a cell lies relative to it. `holds` is the set, as a test of leaves.
pub trait Region {
    ghost holds: { Self → ℕ → Bool };

    /// How the cell lies relative to the region, exactly: `Out` if none of its leaves is in it, `In` if all are, else
    /// `Cross`.
    fn part(&self, cell: CellId) -> Part
        ensures out { (result ≡ Part.Out) ↔ LiesOutside (holds self.now) cell }
        ensures inside { (result ≡ Part.In) ↔ LiesIn (holds self.now) cell };

    /// The answer of `part` for a cell that comes with its square, as a descent carries it down. A region that needs
    /// the squares of cells implements this too, and so saves the way from the face down to each cell; other regions
    /// leave it out.
    fn part_of_placed(&self, placed: &PlacedCell) -> Part
        requires placed { IsPlacedCell placed.now }
        ensures out { (result ≡ Part.Out) ↔ LiesOutside (holds self.now) placed.now.cell }
        ensures inside { (result ≡ Part.In) ↔ LiesIn (holds self.now) placed.now.cell }
    {
        self.part(placed.cell)
    }
}

//! Why a polygon was not made.
ghost use Rattle.std.specs.Prelude.{◌≡◌};
ghost use Rattle.s2polygon.specs.declared.fault.PolygonFault.TheVariants.{Memory};

use std::alloc::{AllocError, AllocFailed};
use thiserror::Error;

/// Why a polygon was not made.
#[derive(Clone, Copy, Debug, PartialEq, Eq, Drop, Error)]
pub enum PolygonFault {
    /// There is no ring.
    #[error("a polygon has at least one ring")]
    NoRing,
    /// This ring, counted from 0, ends before it begins or beyond the corners, or it is the last and corners are left.
    #[error("a ring ends in a wrong place")]
    WrongEnd(usize),
    /// This ring has fewer than three corners.
    #[error("a ring has fewer than three corners")]
    TooFewCorners(usize),
    /// This corner and the next of its ring lie opposite each other, so that no edge is the shortest.
    #[error("two corners that follow each other lie opposite each other")]
    Antipodal(usize),
    /// The cell that is to lie outside is no leaf.
    #[error("the cell that is to lie outside is no leaf")]
    NotALeaf,
    /// The margin is above 2^60.
    #[error("the margin is above 2^60")]
    MarginTooLarge,
    /// An allocation failed.
    #[error("out of memory")]
    Memory,
}

impl From<AllocError> for PolygonFault {
    ghost from_gives = { λ _ fault. fault ≡ Memory };

    fn from(_error: AllocError) -> PolygonFault {
        PolygonFault::Memory
    }
}

impl<T: Drop> From<AllocFailed<T>> for PolygonFault {
    ghost from_gives = { λ _ fault. fault ≡ Memory };

    fn from(_error: AllocFailed<T>) -> PolygonFault {
        PolygonFault::Memory
    }
}

//! Why a part, a place or a box of the map was refused.
ghost use Rattle.std.specs.Prelude.{◌≡◌};
ghost use Rattle.s2map.specs.declared.fault.MapFault.TheVariants.{Memory};

use std::alloc::{AllocError, AllocFailed};
use thiserror::Error;

/// Why a part was not made, or a place or a box got no answer.
#[derive(Clone, Copy, Debug, PartialEq, Eq, Drop, Error)]
pub enum MapFault {
    /// There is no ring.
    #[error("a part has at least one ring")]
    NoRing,
    /// This ring, counted from 0, ends before it begins or beyond the corners, or it is the last and corners are left.
    #[error("a ring ends in a wrong place")]
    WrongEnd(usize),
    /// This ring has fewer than three corners.
    #[error("a ring has fewer than three corners")]
    TooFewCorners(usize),
    /// This corner has a longitude beyond 540 degrees or a latitude beyond 90.
    #[error("a longitude is from -540 to 540 degrees, and a latitude from -90 to 90")]
    Corner(usize),
    /// The place has a longitude beyond 540 degrees or a latitude beyond 90.
    #[error("a longitude is from -540 to 540 degrees, and a latitude from -90 to 90")]
    OutOfRange,
    /// The box has no place, or corners beyond those degrees.
    #[error("a box goes from west to east and from south to north, from -540 to 540 and from -90 to 90 degrees")]
    WrongBox,
    /// An allocation failed.
    #[error("out of memory")]
    Memory,
}

impl From<AllocError> for MapFault {
    ghost from_gives = { λ _ fault. fault ≡ Memory };

    fn from(_error: AllocError) -> MapFault {
        MapFault::Memory
    }
}

impl<T: Drop> From<AllocFailed<T>> for MapFault {
    ghost from_gives = { λ _ fault. fault ≡ Memory };

    fn from(_error: AllocFailed<T>) -> MapFault {
        MapFault::Memory
    }
}

//! Why a shape has no covering.
ghost use Rattle.std.specs.Prelude.{◌≡◌};
ghost use Rattle.s2written.specs.declared.fault.CoverError.TheVariants.{Memory};
ghost use Rattle.s2written.specs.declared.fault.GeodesicError.TheVariants.{Memory as GeodesicMemory};

use s2shape::Fault;
use std::alloc::{AllocError, AllocFailed};
use thiserror::Error;

/// Why a shape has no covering.
#[derive(Clone, Copy, Debug, PartialEq, Eq, Drop, Error)]
pub enum CoverError {
    /// An allocation failed.
    #[error("out of memory")]
    Memory,
    /// The bytes are no shape: their first fault.
    #[error("{}", .0.name)]
    Fault(Fault),
    /// This part, counted from 0, is a point or a line, which has no inside.
    #[error("a point or a line has no inside")]
    NoInside(usize),
    /// A position is no place, or a ring no ring. No shape that was read is so.
    #[error("a position is no place, or a ring no ring")]
    NoMap,
    /// The walks to the level would take more work than is allowed.
    #[error("too many cells")]
    TooManyCells,
}

/// Why a shape has no covering with geodesic edges.
#[derive(Clone, Copy, Debug, PartialEq, Eq, Drop, Error)]
pub enum GeodesicError {
    /// An allocation failed.
    #[error("out of memory")]
    Memory,
    /// The bytes are no shape: their first fault.
    #[error("{}", .0.name)]
    Fault(Fault),
    /// This part, counted from 0, is a point or a line, which has no inside.
    #[error("a point or a line has no inside")]
    NoInside(usize),
    /// A position is no place, or the rings of a part are none: two corners that follow each other lie opposite each
    /// other, say.
    #[error("a position is no place, or a ring no ring")]
    NoMap,
    /// An edge of this part, counted from 0, is 128 degrees or longer. A position between its ends is a remedy.
    #[error("an edge is 128 degrees or longer")]
    LongEdge(usize),
    /// The corners of this part, counted from 0, are too far apart: no half of the sphere that is tried has all.
    #[error("no half of the sphere has all corners of a polygon")]
    Spread(usize),
    /// The coverings of all polygons have together more cells than allowed, or the edges of one touch too many of the
    /// level.
    #[error("too many cells")]
    TooManyCells,
}

impl From<AllocError> for GeodesicError {
    ghost from_gives = { λ _ error. error ≡ GeodesicMemory };

    fn from(_error: AllocError) -> GeodesicError {
        GeodesicError::Memory
    }
}

impl<T: Drop> From<AllocFailed<T>> for GeodesicError {
    ghost from_gives = { λ _ error. error ≡ GeodesicMemory };

    fn from(_error: AllocFailed<T>) -> GeodesicError {
        GeodesicError::Memory
    }
}

impl From<AllocError> for CoverError {
    ghost from_gives = { λ _ error. error ≡ Memory };

    fn from(_error: AllocError) -> CoverError {
        CoverError::Memory
    }
}

impl<T: Drop> From<AllocFailed<T>> for CoverError {
    ghost from_gives = { λ _ error. error ≡ Memory };

    fn from(_error: AllocFailed<T>) -> CoverError {
        CoverError::Memory
    }
}

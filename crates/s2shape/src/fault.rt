//! Why bytes are no shape.
ghost use Rattle.std.specs.Prelude.{◌≡◌};
ghost use Rattle.s2shape.specs.declared.fault.ShapeError.TheVariants.{Memory};

use std::alloc::{AllocError, AllocFailed};
use thiserror::Error;

/// The names of the faults that bytes may have.
#[derive(Clone, Copy, Debug, PartialEq, Eq, Drop, Error)]
pub enum FaultName {
    /// The bytes end too early.
    #[error("bytes are missing")]
    Truncated,
    /// Bytes follow the geometry.
    #[error("bytes after the geometry")]
    Trailing,
    /// The byte that says the order of bytes is neither 0 nor 1.
    #[error("a geometry begins with the byte 0 or 1")]
    Order,
    /// There is no geometry of this type.
    #[error("no type of geometry")]
    Type,
    /// Curves, surfaces and triangles have no covering.
    #[error("a geometry that is no point, line, polygon or collection of them")]
    Uncovered,
    /// The coordinates are no degrees: the SRID is neither 0 nor 4326.
    #[error("an SRID that is not 4326")]
    Srid,
    /// A geometry in a list of points, lines or polygons is none of them.
    #[error("a geometry of another type than the list that it is in")]
    Member,
    /// Collections lie in more than `DEEPEST` collections.
    #[error("too many collections in each other")]
    Deep,
    /// A count is greater than the bytes that follow it allow.
    #[error("a count beyond the end of the bytes")]
    Count,
    /// A ring has one to three positions.
    #[error("a ring has fewer than four positions")]
    Few,
    /// The last position of a ring is not its first.
    #[error("a ring is open: its last position is not its first")]
    Open,
    /// A coordinate is infinite or not a number.
    #[error("a coordinate is infinite or not a number")]
    NotFinite,
    /// The bytes are no UTF-8.
    #[error("the text is not UTF-8")]
    Utf8,
    /// The text is no JSON.
    #[error("the text is not JSON")]
    Json,
    /// An object of the text has a name twice.
    #[error("an object has a member twice")]
    Twice,
    /// A value that has to be an object with a type is none.
    #[error("an object without a type")]
    NoType,
    /// A list of coordinates, geometries or features is missing.
    #[error("a list of coordinates, geometries or features is missing")]
    Missing,
    /// A position is not a list that begins with two numbers.
    #[error("a position is a longitude and a latitude")]
    Position,
    /// A longitude is beyond 540 degrees, or a latitude beyond 90.
    #[error("a longitude is from -540 to 540 and a latitude from -90 to 90 (the longitude first)")]
    Range,
}

/// The first fault of bytes, and its place.
#[derive(Clone, Copy, Debug, PartialEq, Eq, Drop)]
pub struct Fault {
    /// The name of the fault.
    pub name: FaultName,
    /// How many bytes come before it.
    pub byte: usize,
    /// How many points, lines and polygons have ended before it.
    pub part: usize,
    /// How many rings and lines have ended before it.
    pub ring: usize,
    /// How many positions of its ring or line come before it.
    pub position: usize,
}

/// Why no shape was read.
#[derive(Clone, Copy, Debug, PartialEq, Eq, Drop, Error)]
pub enum ShapeError {
    /// An allocation failed.
    #[error("out of memory")]
    Memory,
    /// The bytes have this first fault.
    #[error("{}", .0.name)]
    Fault(Fault),
}

impl From<AllocError> for ShapeError {
    ghost from_gives = { λ _ e. e ≡ Memory };

    fn from(_error: AllocError) -> ShapeError {
        ShapeError::Memory
    }
}

impl<T: Drop> From<AllocFailed<T>> for ShapeError {
    ghost from_gives = { λ _ e. e ≡ Memory };

    fn from(_error: AllocFailed<T>) -> ShapeError {
        ShapeError::Memory
    }
}

//! The part of a shape that has been read so far.
ghost use Rattle.std.specs.Prelude.{◌≤◌, length};

use crate::shape::{Part, Position};

/// The part of a shape that has been read so far.
#[derive(Drop)]
pub(crate) struct Reading {
    /// How many bytes there are in all.
    pub(crate) size: usize,
    /// The positions.
    pub(crate) positions: Vec<Position>,
    /// Of each ring and line, how many positions there are up to its end.
    pub(crate) rings: Vec<usize>,
    /// The points, lines and polygons.
    pub(crate) parts: Vec<Part>,
    /// How many positions the rings and lines have.
    pub(crate) begun: usize,
    ghost begun_within: { begun ≤ length positions.items },
}

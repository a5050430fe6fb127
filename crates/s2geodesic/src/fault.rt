//! Why corners make no polygon.
use s2polygon::PolygonFault;
use thiserror::Error;

/// Why corners make no polygon.
#[derive(Clone, Copy, Debug, PartialEq, Eq, Drop, Error)]
pub enum GeodesicFault {
    /// The corners make no rings, or an allocation failed.
    #[error("{}", .0)]
    Rings(PolygonFault),
    /// From this corner to the next of its ring it is too far: 128 degrees or more, counted in corners from 0.
    #[error("an edge is 128 degrees or longer")]
    LongEdge(usize),
    /// The corners are too far apart: no half of the sphere that is tried has all of them.
    #[error("no half of the sphere has all corners: say which leaf lies outside")]
    Spread,
}

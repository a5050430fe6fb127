//! The map of longitudes and latitudes, in whole numbers.
//!
//! A place of the map is a longitude and a latitude, whole numbers of femtodegrees of which a degree has 10^15. Edges
//! are straight on the map, as GeoJSON means them. A place is inside a part if the edges that pass north of it, on any
//! turn of 360 degrees, are odd in number: a sign of a difference of two products for each edge. Nothing is rounded.
#![tactic(auto)]

mod angles;
mod boxed;
mod cells;
mod covering;
mod edge;
mod fault;
mod few;
pub mod laws;
mod meeting;
mod near;
mod part;
mod place;
mod shape;

pub use covering::MapCovering;
pub use fault::MapFault;
pub use part::MapPart;
pub use place::{MapBox, MapEdge, Place};
pub use shape::{BoxPart, MapShape};

/// The work for the box of a cell: it takes about the time of this many comparisons of a cell with an edge.
pub const BOX_WORK: u64 = 100;

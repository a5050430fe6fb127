//! Regions from polygons, in whole numbers.
//!
//! A point of the sphere is a direction of whole numbers, and a polygon is closed rings of edges between directions,
//! with a leaf that is known to lie outside. Which leaves lie inside, and which are touched by an edge, is defined by
//! signs of products of whole numbers: nothing is rounded.
#![tactic(auto)]

mod boxes;
mod counting;
mod covering;
mod crossing;
mod descent;
mod directions;
mod faces;
mod fault;
mod few;
mod frames;
pub mod laws;
mod lists;
mod meeting;
mod part;
mod places;
mod polygon;
mod quadrant;
mod rings;

pub use counting::MOST_TOUCHED;
pub use directions::{Direction, DirectionFault, Edge};
pub use fault::PolygonFault;
pub use polygon::{MOST_MARGIN, Polygon};
pub use quadrant::{PolygonCell, Walked};

//! Polygons of places in degrees, on the sphere.
//!
//! Edges are the short ways between corners, and nobody has to say what lies outside: if all corners lie on one side of
//! a plane through the center of the sphere, a leaf on the other side does.
#![tactic(auto)]

mod edges;
mod fault;
mod half;
pub mod laws;
mod polygon;

pub use edges::HEIGHT;
pub use fault::GeodesicFault;
pub use half::outside_of;
pub use polygon::{MARGIN, polygon_of};

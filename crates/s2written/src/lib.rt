//! Coverings of shapes as users write them: of the bytes of WKB and of texts of GeoJSON.
//!
//! The positions of a shape are places of the map, each coordinate to the nearest femtodegree, and its edges are
//! straight in longitude and latitude. No place inside the shape, as it is written, is missing from its outer covering,
//! and no place outside is in its inner one.
//!
//! With geodesic edges, the short ways on the sphere, no leaf that a polygon touches or has inside is missing from its
//! outer covering, and each leaf of its inner one lies inside and isn't touched.
#![tactic(auto)]

mod covering;
mod fault;
mod few;
mod geodesic;
mod map;
mod read;
mod together;
mod walk;

pub use covering::{Coverings, cover, cover_up_to};
pub use fault::{CoverError, GeodesicError};
pub use few::cover_geodesic_up_to;
pub use geodesic::cover_geodesic;
pub use read::{
    cover_geodesic_geojson, cover_geodesic_geojson_up_to, cover_geodesic_wkb,
    cover_geodesic_wkb_up_to, cover_geojson, cover_geojson_up_to, cover_wkb, cover_wkb_up_to,
};

/// The work for a cell that a walk asks: its box takes about the time of this many comparisons of a cell with an edge.
pub const CELL_WORK: u64 = 200;

//! Shapes as users hand them over, read to rings of positions.
//!
//! `read_wkb` reads WKB, as the OGC and ISO have it, and EWKB, as PostGIS writes it; `read_geojson` reads GeoJSON.
//! Bytes stand for one shape, or they have one first fault, whose name and place the reader gives.
#![tactic(auto)]

mod fault;
mod geojson;
mod head;
pub mod laws;
mod reading;
mod shape;
mod steps;
mod wkb;

pub use fault::{Fault, FaultName, ShapeError};
pub use geojson::read_geojson;
pub use shape::{Kind, Part, Position, Shape};
pub use wkb::{DEEPEST, read_wkb};

//! Pictures of cells: the six faces of the sphere's cube, unfolded, with each cell as its square.
//!
//! `picture` makes an SVG image of one list of cells, colored by level; `begin_overlay`, `add_layer` and `end_overlay`
//! make one of several lists, each in a color of its own. `begin_zoom`, `add_zoomed` and `end_zoom` make one of the
//! part of the faces in which the lists lie. All numbers are whole, and each rectangle is exactly the square of its
//! cell. Cells too small to be seen are replaced by the larger cells that contain them.
#![tactic(auto)]

mod fixed;
mod image;
mod overlay;
mod rectangle;
mod zoom;

pub use image::picture;
pub use overlay::{add_layer, begin_overlay, end_overlay};
pub use zoom::{Bounds, Part, add_zoomed, begin_zoom, end_zoom, part_around};

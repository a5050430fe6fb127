//! Coverings of regions by cells.
//!
//! A region is a set of leaves that can say of each cell whether it lies outside the region, inside it, or across its
//! border. That one question is enough to cover it: a descent from the six faces drops the cells outside, takes the
//! cells inside whole, and looks into the cells across, down to the level that is asked for. The outer covering has
//! every cell of the level that shares a leaf with the region; the inner one has every cell of the level that lies
//! inside it. Both are normalized: four siblings are replaced by their parent, so a covering may have cells above its
//! level but never below it.
//!
//! A rectangle on a face needs less: once its sides are rounded to the grid of the level, each cell inside it belongs
//! to the answer, and the number of looks is bounded by the number of cells of the answer. The coverings of a union are
//! its own cells, cut to the level; those of a clipped union use both, also if the union is numbers in a slice.
#![tactic(auto)]

mod around;
mod budget;
mod clip;
mod covering;
mod cut;
mod cut_to_level;
mod descent;
mod exact;
mod family;
mod grid;
pub mod laws;
mod listed;
mod looks;
mod met;
mod placing;
mod quadrant;
mod rect;
mod region;
mod rough;
mod rounding;
mod splitting;
mod union;
mod within;

pub use clip::{clip_inner, clip_outer};
pub use covering::{inner, outer, quartered_inner, quartered_outer};
pub use cut::{put_inner, put_outer, union_inner, union_outer};
pub use exact::{inner_up_to, outer_up_to};
pub use grid::{rect_inner, rect_outer};
pub use listed::{clip_inner_of, clip_outer_of};
pub use looks::Looks;
pub use quadrant::{Quadrant, Quartered};
pub use region::{CoverFault, Part, Region};
pub use rough::RoughRegion;
pub use s2cell::FaceRect;
pub use splitting::{rough_inner_up_to, rough_outer_up_to};
pub use union::Clip;

/// The most cells that a call may allow a covering: the greatest `max`.
pub const MOST_COVERING: usize = 1_000_000;

//! Lists of cells by their indexes: searches, questions, normalizing, cutting to levels, and set operations, written
//! once for each form that a list may have.
//!
//! A cell ends by the leaf `lo` if all its leaves come before that leaf.
//!
//! Anything that gives numbers by their indexes is a list of cells (`Cells`): numbers in a slice, the cells of a union,
//! the bytes of a file at any address. No call copies anything or takes memory; what a set operation writes to
//! (`Output`) is its caller's. Only `pack` and `new_end` have a precondition on the numbers. Some calls have one on an
//! index or on levels, and a set operation begins with nothing written. Where that is met, each other call is safe and
//! returns, whatever the numbers are, and leaves what its output has after what it writes. The answer is exact if they
//! are the cells of a normalized union; for other numbers it means nothing; `is_union` and `first_wrong` are exact for
//! all numbers. A type parameter (`Count`) counts the looks of a call, so that a call that nobody counts has no code
//! for it.
#![tactic(auto)]

mod ahead;
mod along;
mod appending;
mod ask;
mod cells;
mod complement;
mod denormalising;
mod difference;
mod eight_bytes;
mod find;
mod four;
mod gap;
mod intersection;
pub mod laws;
mod looks;
mod normalising;
mod output;
mod pile;
mod room;
mod run;
mod stretch;
mod symmetric_difference;
mod union;
mod walk;
mod whole;

pub use ahead::is_short;
pub use along::find_along;
pub use appending::new_end;
pub use ask::{
    begins_at, contains_cell, contains_cell_at, contains_cell_at_counted, contains_cell_counted,
    intersects_cell, intersects_cell_at, intersects_cell_at_counted, intersects_cell_counted,
};
pub use cells::{CellList, Cells, CellsMut, IdList, Listed, cell_of};
pub use complement::write_complement;
pub use denormalising::{Descendants, denormalise};
pub use difference::write_difference;
pub use eight_bytes::{NUMBER_SIZE, number, put_number};
pub use find::{
    NEARBY, end_of, find_counted, find_from, find_from_counted, find_id, first_of, first_place,
};
pub use four::{Places, places_of_four, places_of_four_counted};
pub use gap::{
    Gap, contains_in_gap, gap_among_few, gap_at, gap_of, intersects_in_gap, lies_in_gap,
};
pub use intersection::write_intersection;
pub use looks::{Count, LookedAt, Looks, Uncounted};
pub use normalising::pack;
pub use output::{Copies, Output, put_gap};
pub use room::{Room, put};
pub use run::cells_at;
pub use symmetric_difference::write_symmetric_difference;
pub use union::write_union;
pub use walk::{Question, contains, holds_all, intersects, meets_any};
pub use whole::{first_wrong, is_union, leaf_count, parent_of_family};

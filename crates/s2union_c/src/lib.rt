//! The unions of S2 cells for C, and for anything that can call C.
//!
//! A cell is its identifier, a union is the ascending list of its cells, and a text or a file is its bytes. In C, a
//! slice is a pointer and a length. No export has a precondition: each takes any numbers, lists and bytes. Its contract
//! says what it answers, and exactly when it refuses with which status of `status`.
//!
//! `include/s2union.h` declares the exports for C, and documents them in C's terms.
#![tactic(auto)]

mod cells;
mod coverings;
mod directions;
mod files;
pub mod laws;
mod many;
mod many_cells;
mod polygons;
mod questions;
mod reading;
mod results;
mod sets;
mod shapes;
mod status;
mod texts;
mod token_lists;
mod unions;

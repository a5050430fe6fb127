//! Unions of cells as bytes.
//!
//! A union file is the byte 1, a count, and that many identifiers of cells, each number in eight bytes, the lowest
//! first. `encode` writes the cells of a union in ascending order. `decode` accepts any order, repeated cells and
//! unmerged siblings, and answers the union of their leaves; it refuses all other bytes, and says which check failed
//! first. `numbers_of` checks all but the numbers, of files with any number of them, and `FileIds` reads these in the
//! bytes, at any address.
#![tactic(auto)]

mod fault;
mod file_ids;
pub mod laws;
mod union_file;

pub use crate::fault::FileFault;
pub use crate::file_ids::{FileIds, read_numbers};
pub use crate::union_file::{
    HEAD_SIZE, MOST_FILE, MOST_SIZE, VERSION, cells_of, decode, encode, numbers_of,
};

//! Named files that may fail, and the places that hold them.
//!
//! A `Shelf` is a place for files that may fail at any call, and counts its failures. `MemoryShelf` is a shelf in
//! memory, `DirShelf` is a folder. A file is opened, read a piece at a time as an `OpenedFile`, and closed. A shelf
//! holds bytes, and knows nothing of what they mean. `GhostList` is a list that only clauses read.
#![tactic(auto)]

pub mod dir_shelf;
mod file_calls;
mod files;
pub mod ghost_list;
pub mod memory_shelf;
pub mod opened_file;
pub mod shelf;

pub use crate::dir_shelf::DirShelf;
pub use crate::ghost_list::{GhostList, Shows};
pub use crate::memory_shelf::MemoryShelf;
pub use crate::opened_file::OpenedFile;
pub use crate::shelf::{Shelf, ShelfFault};

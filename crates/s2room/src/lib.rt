//! Set operations on lists of cells that write into a room that the caller provides.
//!
//! They copy no list and take no memory, and have no precondition on a list: whatever the numbers are, the call is safe
//! and returns. The result is exact if the numbers are the cells of normalized unions; for other numbers it means
//! nothing. So it is with `ancestors`, the keys of an index. `normalise` makes a list of cells a union in place, and
//! `union_of_many` many lists one; all numbers that they are given must be cells.
#![tactic(auto)]

mod complement;
mod difference;
mod intersection;
mod keys;
pub mod laws;
mod merge;
mod normalising;
mod symmetric_difference;
mod union;

pub use complement::put_complement;
pub use difference::put_difference;
pub use intersection::put_intersection;
pub use keys::ancestors;
pub use merge::union_of_many;
pub use normalising::normalise;
pub use symmetric_difference::put_symmetric_difference;
pub use union::put_union;

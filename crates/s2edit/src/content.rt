//! The content of a session, as values.
use s2cell::CellId;
use s2union::CellUnion;

/// A change of one register as it leads from the earlier list to the later one. In a session file both
/// lists ascend by identifier, share no cell, and are not both empty.
#[derive(Drop)]
pub struct Move {
    /// The number of the register, from 0 on.
    pub register: u8,
    /// The cells that are taken out of the register's list.
    pub out: Vec<CellId>,
    /// The cells that are put in.
    pub put: Vec<CellId>,
}

/// Registers, and both sides of their history as changes.
#[derive(Drop)]
pub struct Session {
    /// The present union of each register, in the order of their letters.
    pub registers: Vec<CellUnion>,
    /// The changes that may be undone, the oldest first.
    pub past: Vec<Move>,
    /// The changes that were undone and may be redone, the nearest to now first.
    pub future: Vec<Move>,
}

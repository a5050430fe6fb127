//! An editor of registers that hold cell unions, with undo that cannot fail.
//!
//! Each register holds one normalized union. An assignment that changes a register is kept as the [`Change`] between
//! its two lists: the cells that were taken out and those that were put in. A change has an inverse, so two bounded
//! rings of changes are the whole history: undo moves the newest change of the past to the future and applies its
//! inverse; redo does the opposite. Earlier lists are not kept, and undo and redo take no memory.
#![tactic(auto)]

mod change;
mod content;
mod copying;
mod editor;
mod edits;
mod lacking;
pub mod laws;
mod named;
mod near;
mod restore;
mod session;
mod sides;
mod splice;

pub use change::Change;
pub use content::{Move, Session};
pub use editor::{EditFault, Editor};
pub use edits::{Edit, EditOutcome, EditTally, run_edits};
pub use s2script::{REGISTERS, Register};
pub use session::RestoreFault;
pub use sides::{BorrowedMove, Changes, Future, Past, Sides};

/// The most cells that a register may ever have: the greatest limit of an editor.
pub const MOST_REGISTER: usize = 1_000_000;

/// The most states that may ever be kept: the greatest depth of an editor.
pub const MOST_STATES: usize = 10_000;

/// How many registers a session file has.
pub const SESSION_REGISTERS: usize = 26;

/// The most cells that a list of a session file has.
pub const SESSION_CELLS: usize = 1_000_000;

/// The most changes that a session file has, past and future together.
pub const SESSION_CHANGES: usize = 10_000;

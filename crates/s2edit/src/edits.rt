//! Lists of edits.
ghost use Rattle.s2list.specs.Union.{has_leaf};
ghost use Rattle.s2edit.specs.History.{sets};
ghost use Rattle.s2edit.specs.Edits.{Edited, Ran};

use crate::Register;
use crate::editor::{EditFault, Editor};
use s2union::CellUnion;

/// One edit.
#[derive(Drop)]
pub enum Edit {
    /// To give a register a union, which stays with the edit: the register gets a copy.
    Assign(Register, CellUnion),
    /// To go back to the state before the present one.
    Undo,
    /// To go ahead to the state that was undone last.
    Redo,
}

/// How an edit ended.
#[derive(Clone, Copy, Debug, PartialEq, Eq)]
pub enum EditOutcome {
    /// It was done. A register that had the union already is as it was, and so is the history.
    Done,
    /// It was refused: a union above the limit, or nothing to undo or to redo. The editor is as it was.
    Refused,
    /// It ran out of memory. The editor is as it was.
    NoMemory,
}

/// How many edits ended in each way.
#[derive(Clone, Copy, Debug, PartialEq, Eq)]
pub struct EditTally {
    /// The edits that were done.
    pub done: usize,
    /// Those that were refused.
    pub refused: usize,
    /// Those that ran out of memory.
    pub memory: usize,
}

impl Edit {
    /// Carries out the edit, and answers how it ended.
    ///
    /// An assignment copies its union, unless the union is above the limit and refused.
    pub fn carry_out(&self, editor: &mut Editor) -> EditOutcome
        ensures lists { Edited (λ u. u) editor.old self.now result editor.new }
        ensures leaf_sets { Edited has_leaf (sets editor.old) self.now result (sets editor.new) }
    {
        match self {
            Edit::Assign(register, union) => {
                if union.len() > editor.limit() {
                    return EditOutcome::Refused;
                }
                let Ok(union) = union.try_clone() else {
                    return EditOutcome::NoMemory;
                };
                match editor.assign(*register, union) {
                    Ok(_) => EditOutcome::Done,
                    Err(EditFault::TooMany) => EditOutcome::Refused,
                    Err(EditFault::Memory) => EditOutcome::NoMemory,
                }
            }
            Edit::Undo => match editor.undo() {
                Some(_) => EditOutcome::Done,
                None => EditOutcome::Refused,
            },
            Edit::Redo => match editor.redo() {
                Some(_) => EditOutcome::Done,
                None => EditOutcome::Refused,
            },
        }
    }
}

/// Carries out edits in order, and counts how they ended. An edit that is refused or runs out of memory is skipped and
/// leaves the editor as it was.
pub fn run_edits(editor: &mut Editor, edits: &[Edit]) -> EditTally
    ensures { Ran editor.old edits.now result editor.new }
{
    let mut tally = EditTally {
        done: 0,
        refused: 0,
        memory: 0,
    };
    for edit in edits {
        match edit.carry_out(editor) {
            EditOutcome::Done => tally.done += 1,
            EditOutcome::Refused => tally.refused += 1,
            EditOutcome::NoMemory => tally.memory += 1,
        }
    }
    tally
}

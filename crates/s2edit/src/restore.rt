//! Whether the changes of a session can be made: what `restore` has to know before it takes one over.
//!
//! The changes of each register are followed by themselves, from its present list: each is tested, and then made, as an
//! undo makes it. Two things save work:
//!
//! - **A part.** Whether a change can be made depends on few cells of the list: those that share a leaf with a cell
//!   that it names, and the siblings of these. So changes are followed in the part of the list that has them
//!   (parts.rt, and near.rt beside this folder, by which edits find theirs too).
//! - **Batches.** Some changes at a time are followed in a part of their own. All that they do to this part is one
//!   change, which is made in the list (fitting.rt).
//!
//! How long the lists get on the way is counted, not measured (lengths.rt).
ghost use Rattle.std.specs.Prelude.{◌≡◌, length, map, MatchResult};
ghost use Rattle.std.specs.List.{AllByRecursion};
ghost use Rattle.s2edit.specs.Content.{diff_of, IsMove};
ghost use Rattle.s2edit.specs.Working.Chain.{lists_of, AllWithin, FitAlong};
ghost use Rattle.s2edit.specs.Working.Following.{FailsToFollow, MakesChanges};

mod fitting;
mod lengths;
mod parts;

use crate::content::Move;
use crate::session::RestoreFault;
use crate::{REGISTERS, SESSION_CELLS};
use fitting::follow;
use lengths::longest;
use s2union::CellUnion;
use std::alloc::Global;

/// Whether each list that the changes make, one after another from these registers, keeps to the limit. Refused as
/// `Fit` if a change can't be made, or makes a list of more than `SESSION_CELLS` cells.
///
/// Follows the changes of each register by themselves, and counts how long the lists get.
pub(crate) fn fit(
    alloc: Global,
    registers: &[CellUnion],
    moves: &[Move],
    limit: usize,
) -> Result<bool, RestoreFault>
    requires count { length registers.now ≡ REGISTERS }
    requires within { AllWithin SESSION_CELLS (lists_of registers.now) }
    requires each { AllByRecursion IsMove (map diff_of moves.now) }
    ensures { MatchResult result (λ within. MakesChanges limit (lists_of registers.now)
        (map diff_of moves.now) within) (λ fault.
        FailsToFollow fault (FitAlong SESSION_CELLS (lists_of registers.now) (map diff_of moves.now))) }
{
    for register in 0..registers.len() {
        follow(alloc, &registers[register], moves, register)?;
    }
    let most = longest(alloc, registers, moves)?;
    if most > SESSION_CELLS {
        return Err(RestoreFault::Fit);
    }
    Ok(most <= limit)
}

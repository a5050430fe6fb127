//! The part of a register's list that changes can concern.
ghost use Rattle.std.specs.Prelude.{◌≡◌, map, IfOk, OnOk};
ghost use Rattle.std.specs.List.{AllByRecursion};
ghost use Rattle.s2list.specs.Union.{IsWithin};
ghost use Rattle.s2union.specs.Apply.{has};
ghost use Rattle.s2edit.specs.Content.{diff_of};
ghost use Rattle.s2edit.specs.Working.InTurn.{of_register};
ghost use Rattle.s2edit.specs.Working.Part.{IsPartFor, HoldsNamed};

use crate::content::Move;
use crate::near::part_near;
use s2cell::CellId;
use s2union::CellUnion;
use std::alloc::{AllocError, Global};

/// The cells of a union on which it depends whether changes of the register can be made: those near the cells that the
/// changes name.
pub(crate) fn part_of(
    alloc: Global,
    union: &CellUnion,
    moves: &[Move],
    register: usize,
) -> Result<CellUnion, AllocError>
    ensures { IfOk result (λ part. IsPartFor (of_register register (map diff_of moves.now)) union.now.cells
        part.cells) }
{
    let mut named = named_cells(alloc, moves, register)?;
    named.sort_unstable();
    let part = part_near(alloc, union, &named)?;
    Ok(part)
}

/// The cells that changes of the register name.
fn named_cells(alloc: Global, moves: &[Move], register: usize) -> Result<Vec<CellId>, AllocError>
    ensures { IfOk result (λ named. AllByRecursion (HoldsNamed (has named.items))
        (of_register register (map diff_of moves.now))) }
{
    let mut named = Vec::new(alloc);
    for change in moves {
        name_cells(&mut named, change, register)?;
    }
    Ok(named)
}

/// Appends the cells that a change names, if it is one of the register.
fn name_cells(named: &mut Vec<CellId>, change: &Move, register: usize) -> Result<(), AllocError>
    ensures kept { OnOk result (IsWithin (has named.old.items) (has named.new.items)) }
    ensures each { OnOk result ((diff_of change.now).register ≡ register →
        HoldsNamed (has named.new.items) (diff_of change.now)) }
{
    if change.register as usize != register {
        return Ok(());
    }
    named.extend_from_slice(&change.out)?;
    named.extend_from_slice(&change.put)?;
    Ok(())
}

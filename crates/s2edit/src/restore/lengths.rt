//! The length of each register's list after each change.
ghost use Rattle.std.specs.Prelude.{◌≡◌, ◌<◌, length, map, slice_set, IfOk};
ghost use Rattle.std.specs.Prelude.{◌+◌, ◌-◌, ◌^◌, min, slice_index_or};
ghost use Rattle.std.specs.List.{AllByRecursion};
ghost use Rattle.s2edit.specs.Content.{diff_of, IsMove};
ghost use Rattle.s2edit.specs.Working.Chain.{lists_of};
ghost use Rattle.s2edit.specs.Working.Part.{longest};

use crate::content::Move;
use crate::{REGISTERS, Register};
use s2union::CellUnion;
use std::alloc::{AllocError, Global};

/// The greatest number of cells that a register's list has after one of the changes, if they can be made one after
/// another. 0 if there are no changes.
pub(crate) fn longest(
    alloc: Global,
    registers: &[CellUnion],
    moves: &[Move],
) -> Result<usize, AllocError>
    requires count { length registers.now ≡ REGISTERS }
    requires each { AllByRecursion IsMove (map diff_of moves.now) }
    ensures { IfOk result (λ most. most ≡ longest (map length (lists_of registers.now))
        (map diff_of moves.now)) }
{
    let mut lengths = lengths_of(alloc, registers)?;
    let mut most = 0;
    for change in moves {
        let length = resize(
            &mut lengths,
            change.register,
            change.out.len(),
            change.put.len(),
        );
        most = length.max(most);
    }
    Ok(most)
}

/// Updates the length of a register's list for a change, and answers the new length.
fn resize(lengths: &mut Vec<usize>, register: u8, out: usize, put: usize) -> usize
    requires count { length lengths.old.items ≡ REGISTERS }
    requires register { register < REGISTERS }
    ensures value { result ≡ min (slice_index_or lengths.old.items register 0 + put) (2 ^ 64 - 1) - out }
    ensures lengths { lengths.new.items ≡ slice_set lengths.old.items register result }
{
    let place = Register::at(register).index();
    let length = lengths[place].saturating_add(put).saturating_sub(out);
    lengths[place] = length;
    length
}

/// How many cells each list has.
fn lengths_of(alloc: Global, registers: &[CellUnion]) -> Result<Vec<usize>, AllocError>
    ensures { IfOk result (λ lengths. lengths.items ≡ map length (lists_of registers.now)) }
{
    let mut lengths = Vec::with_capacity(alloc, registers.len())?;
    for register in registers {
        lengths.push(register.len())?;
    }
    Ok(lengths)
}

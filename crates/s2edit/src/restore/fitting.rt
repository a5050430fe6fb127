//! The changes of a register, followed from its union.
ghost use Rattle.std.specs.Prelude.{◌≡◌, ◌≤◌, [], ◌∷◌, length, map, OnOk, MatchResult};
ghost use Rattle.std.specs.List.{AllByRecursion};
ghost use Rattle.s2union.specs.Apply.{applied, Fits};
ghost use Rattle.s2edit.specs.Content.{diff_of, IsMove};
ghost use Rattle.s2edit.specs.Working.InTurn.{of_register, list_after_all, FitInTurn};
ghost use Rattle.s2edit.specs.Working.Following.{FailsToFollow};

use crate::content::Move;
use crate::lacking::unshared_cells;
use crate::restore::parts::part_of;
use crate::session::RestoreFault;
use s2cell::CellId;
use s2union::CellUnion;
use std::alloc::{AllocError, Global};
use std::mem;

/// Changes are followed in a part of the list if they name at most an eighth of its cells.
const LIST_TO_FEW: usize = 8;

/// The changes of a batch together name at most a thirty-second of the list's cells.
const LIST_TO_BATCH: usize = 32;

/// Up to this number of cells are few, whatever the list.
const FEW_CELLS: usize = 4096;

/// How many cells of the list can be copied in the time in which one cell of a change is followed in a part.
const COPIES_A_CELL: usize = 4;

/// An eighth of a list is added to its room, so that it seldom has to be made longer.
const LIST_TO_ADDED_ROOM: usize = 8;

/// Follows the changes of one register from its union. Refused as `Fit` if one can't be made.
///
/// If they name few cells, only the part of the list that they can concern is copied.
pub(crate) fn follow(
    alloc: Global,
    union: &CellUnion,
    moves: &[Move],
    register: usize,
) -> Result<(), RestoreFault>
    requires each { AllByRecursion IsMove (map diff_of moves.now) }
    ensures { MatchResult result
        (λ _. FitInTurn union.now.cells (of_register register (map diff_of moves.now)))
        (λ fault. FailsToFollow fault
        (FitInTurn union.now.cells (of_register register (map diff_of moves.now)))) }
{
    let few = (union.len() / LIST_TO_FEW).max(FEW_CELLS);
    if count_followed(moves, register, few, usize::MAX) < moves.len() {
        return follow_batches(alloc, union.try_clone()?, moves, register);
    }
    let part = part_of(alloc, union, moves, register)?;
    follow_batches(alloc, part, moves, register)
}

/// How many of the changes, from the first on, are followed together: they name at most `few` cells of the register,
/// and their number times that of these cells is at most `work`.
fn count_followed(moves: &[Move], register: usize, few: usize, work: usize) -> usize
    ensures { result ≤ length moves.now }
{
    let mut named: usize = 0;
    let mut changes: usize = 0;
    for i in 0..moves.len() {
        let change = &moves[i];
        if change.register as usize == register {
            changes = changes.saturating_add(1);
            named = named.saturating_add(change.out.len().saturating_add(change.put.len()));
            if named > few || named.saturating_mul(changes) > work {
                return i;
            }
        }
    }
    moves.len()
}

/// Follows changes from a list, in batches.
fn follow_batches(
    alloc: Global,
    mut list: CellUnion,
    moves: &[Move],
    register: usize,
) -> Result<(), RestoreFault>
    requires each { AllByRecursion IsMove (map diff_of moves.now) }
    ensures { MatchResult result
        (λ _. FitInTurn list.cells (of_register register (map diff_of moves.now)))
        (λ fault. FailsToFollow fault (FitInTurn list.cells (of_register register (map diff_of moves.now)))) }
{
    let mut spare = CellUnion::empty(alloc);
    let mut done = 0;
    while done < moves.len() {
        let few = (list.len() / LIST_TO_BATCH).max(FEW_CELLS);
        let work = list.len().saturating_mul(COPIES_A_CELL);
        let next = done + count_followed(&moves[done..], register, few, work).max(1);
        follow_batch(alloc, &mut list, &mut spare, &moves[done..next], register)?;
        done = next;
    }
    Ok(())
}

/// Follows a batch of changes: a single one in the list, several in the part of it that they can concern.
fn follow_batch(
    alloc: Global,
    list: &mut CellUnion,
    spare: &mut CellUnion,
    moves: &[Move],
    register: usize,
) -> Result<(), RestoreFault>
    requires each { AllByRecursion IsMove (map diff_of moves.now) }
    ensures after { OnOk result
        (list.new.cells ≡ list_after_all list.old.cells (of_register register (map diff_of moves.now))) }
    ensures answer { MatchResult result
        (λ _. FitInTurn list.old.cells (of_register register (map diff_of moves.now)))
        (λ fault. FailsToFollow fault
        (FitInTurn list.old.cells (of_register register (map diff_of moves.now)))) }
{
    if moves.len() == 1 {
        return follow_each(alloc, list, spare, moves, register);
    }
    let before = part_of(alloc, list, moves, register)?;
    let mut after = before.try_clone()?;
    follow_each(
        alloc,
        &mut after,
        &mut CellUnion::empty(alloc),
        moves,
        register,
    )?;
    let put = Vec::from_slice(alloc, after.cells())?;
    let (out, put) = unshared_cells(alloc, before.cells(), after.cells(), put)?;
    make(alloc, list, spare, &out, &put)?;
    Ok(())
}

/// Follows changes in a list, one after another. Refused as `Fit` if one can't be made.
fn follow_each(
    alloc: Global,
    list: &mut CellUnion,
    spare: &mut CellUnion,
    moves: &[Move],
    register: usize,
) -> Result<(), RestoreFault>
    requires each { AllByRecursion IsMove (map diff_of moves.now) }
    ensures after { OnOk result
        (list.new.cells ≡ list_after_all list.old.cells (of_register register (map diff_of moves.now))) }
    ensures answer { MatchResult result
        (λ _. FitInTurn list.old.cells (of_register register (map diff_of moves.now)))
        (λ fault. FailsToFollow fault
        (FitInTurn list.old.cells (of_register register (map diff_of moves.now)))) }
{
    for change in moves {
        follow_one(alloc, list, spare, change, register)?;
    }
    Ok(())
}

/// Makes a change in a list, if it is one of the register. Refused as `Fit` if it can't be made.
fn follow_one(
    alloc: Global,
    list: &mut CellUnion,
    spare: &mut CellUnion,
    change: &Move,
    register: usize,
) -> Result<(), RestoreFault>
    requires { IsMove (diff_of change.now) }
    ensures after { OnOk result
        (list.new.cells ≡ list_after_all list.old.cells (of_register register (diff_of change.now ∷ []))) }
    ensures answer { MatchResult result
        (λ _. FitInTurn list.old.cells (of_register register (diff_of change.now ∷ [])))
        (λ fault. FailsToFollow fault (FitInTurn list.old.cells (of_register register (diff_of change.now ∷ [])))) }
{
    if change.register as usize != register {
        return Ok(());
    }
    if list.can_apply(&change.out, &change.put) {
        make(alloc, list, spare, &change.out, &change.put)?;
        return Ok(());
    }
    Err(RestoreFault::Fit)
}

/// Makes a change that fits a list. It is made in the spare list, which is then exchanged with the list.
fn make(
    alloc: Global,
    list: &mut CellUnion,
    spare: &mut CellUnion,
    out: &[CellId],
    put: &[CellId],
) -> Result<(), AllocError>
    requires { Fits out.now put.now list.old.cells }
    ensures { OnOk result (list.new.cells ≡ applied out.now put.now list.old.cells) }
{
    let len = list.cells().len() - out.len() + put.len();
    give_room(alloc, spare, len)?;
    list.apply_into(out, put, spare);
    mem::swap(list, spare);
    Ok(())
}

/// Gives a union room for `len` cells, if it hasn't. Its own cells may be dropped.
fn give_room(alloc: Global, union: &mut CellUnion, len: usize) -> Result<(), AllocError>
    ensures { OnOk result (len ≤ union.new.room) }
{
    if union.room() < len {
        *union = CellUnion::with_room(alloc, len.saturating_add(len / LIST_TO_ADDED_ROOM))?;
    }
    Ok(())
}

//! An editor's registers and history as a session, and back.
ghost use Rattle.std.specs.Prelude.{◌≡◌, ◌≤◌, ◌↔◌, ◌&&◌, length, map, reverse, IfOk, OnErr, IsTrue, MatchResult};
ghost use Rattle.std.specs.List.{AllByRecursion};
ghost use Rattle.std.specs.Vec.{vec_len};
ghost use Rattle.circular_buffer.specs.Buffer.{buffer};
ghost use Rattle.s2edit.specs.Content.{content_of, content_of_parts, diff_of, IsContent, IsMove};
ghost use Rattle.s2edit.specs.History.{AllLists};
ghost use Rattle.s2edit.specs.Diff.{inverse};
ghost use Rattle.s2edit.specs.Working.Chain.{lists_of};
ghost use Rattle.s2edit.specs.Session.{Records, Restored, RefusesToRestore};
ghost use Rattle.s2edit.specs.Working.Following.{HaveRoom, KeepRoom};
ghost use Rattle.s2edit.specs.declared.session.RestoreFault.TheVariants.{Memory};

use crate::change::Change;
use crate::content::{Move, Session};
use crate::editor::Editor;
use crate::restore::fit;
use crate::sides::{BorrowedMove, Changes, Future, Past, Sides};
use circular_buffer::HeapCircularBuffer;
use s2union::CellUnion;
use std::alloc::{AllocError, Global};
use std::mem;

/// Why a session was not restored. The editor is then unchanged, and the session is dropped.
#[derive(Clone, Copy, Debug, PartialEq, Eq, Drop, thiserror::Error)]
pub enum RestoreFault {
    /// A change can't be made in its register's list, or makes a list of more than 1,000,000 cells.
    #[error("a change of the session can't be made")]
    Fit,
    /// There are more changes than the editor keeps.
    #[error("the session has more changes than the editor keeps")]
    TooDeep,
    /// A list of the present state, of an earlier state or of an undone state is too long.
    #[error("a list of the session has more cells than a register may")]
    TooMany,
    /// An allocation failed.
    #[error("out of memory")]
    Memory,
}

impl From<AllocError> for RestoreFault {
    ghost from_gives = { λ _ fault. fault ≡ Memory };

    fn from(_error: AllocError) -> RestoreFault {
        RestoreFault::Memory
    }
}

impl Editor {
    /// The registers and both sides of the history, as a session file holds them.
    ///
    /// Copies each list. Takes memory only for the copies.
    pub fn session(&self) -> Result<Session, AllocError>
        ensures tells { IfOk result (λ session. Records (content_of session) self.now) }
        ensures content { IfOk result (λ session. IsContent (content_of session)) }
    {
        let registers = copies_of(self.alloc, &self.registers)?;
        let past = moves_of(self.alloc, &Past { ring: &self.past })?;
        let future = moves_of(self.alloc, &Future { ring: &self.future })?;
        Ok(Session {
            registers,
            past,
            future,
        })
    }

    /// The registers and both sides of the history, where they lie: what `session` copies. `encode_parts` of
    /// `s2session` writes a session file from there.
    pub fn sides(&self) -> Sides<'_>
        ensures { Records (content_of_parts result.registers.now (reverse result.past.ring.now.items)
            result.future.ring.now.items) self.now }
    {
        Sides {
            registers: &self.registers,
            past: Past { ring: &self.past },
            future: Future { ring: &self.future },
        }
    }

    /// Takes over a session: its registers, and its changes as past and future. Nothing that the editor held stays.
    /// `undo` and `redo` then go on from the session's present state, and take no memory.
    ///
    /// Refuses, in this order: with `Fit`, a session with a change that can't be made along its chain (the past
    /// backward from the registers, the future forward) or with a list along it of more than 1,000,000 cells; with
    /// `TooDeep`, more changes than the editor keeps; with `TooMany`, a list of more cells than a register may have,
    /// even if only an undo or a redo would bring it back. Any call may answer `Memory` instead.
    ///
    /// Beside the session this holds two more lists at most, of one register at a time, and in the time of a batch of
    /// changes some times the cells that these name. If the changes of a register name few cells (an eighth of its
    /// list, or 4,096), only the cells of the list near these are copied. Sorts the cells that the changes name, and
    /// searches a few times for each. So n changes that name one cell each take at most some n * sqrt(m) steps in a
    /// list of m cells.
    pub fn restore(&mut self, session: Session) -> Result<(), RestoreFault>
        requires { IsContent (content_of session) }
        ensures answer { MatchResult result (λ _. Restored (Records (content_of session)) self.old self.new)
            (λ fault. RefusesToRestore (Records (content_of session)) self.old fault) }
        ensures err { OnErr result (self.new ≡ self.old) }
    {
        let Session {
            mut registers,
            mut past,
            future,
        } = session;
        past.reverse();
        invert(&mut past);
        let past_within = fit(self.alloc, &registers, &past, self.limit)?;
        invert(&mut past);
        let future_within = fit(self.alloc, &registers, &future, self.limit)?;
        if past.len() + future.len() > self.depth {
            return Err(RestoreFault::TooDeep);
        }
        let changes_within = both(past_within, future_within);
        if !both(changes_within, are_within(&registers, self.limit)) {
            return Err(RestoreFault::TooMany);
        }
        take_all(self.alloc, &mut self.registers, &mut registers);
        fill(&mut self.past, past);
        fill(&mut self.future, future);
        Ok(())
    }
}

/// Whether no list has more cells than the limit.
fn are_within(unions: &[CellUnion], limit: usize) -> bool
    ensures { IsTrue result ↔ AllLists (λ u. length u ≤ limit) (lists_of unions.now) }
{
    for union in unions {
        if union.len() > limit {
            return false;
        }
    }
    true
}

/// Replaces each union by the other one at its place, for which it has room, and leaves the other one empty.
fn take_all(alloc: Global, unions: &mut Vec<CellUnion>, others: &mut Vec<CellUnion>)
    requires room { HaveRoom (lists_of others.old.items) unions.old.items }
    ensures lists { lists_of unions.new.items ≡ lists_of others.old.items }
    ensures rooms { KeepRoom unions.old.items unions.new.items }
{
    for i in 0..others.len() {
        let other = mem::replace(&mut others[i], CellUnion::empty(alloc));
        take_over(&mut unions[i], other);
    }
}

/// Replaces a union by another one, for whose list it has room. That list isn't copied if its own block of memory has
/// no more room than the union's, and can be given as much. Of the two blocks, the one that isn't kept is given back.
fn take_over(union: &mut CellUnion, other: CellUnion)
    requires { length other.cells ≤ union.old.room }
    ensures cells { union.new.cells ≡ other.cells }
    ensures room { union.old.room ≤ union.new.room }
{
    if other.room() > union.room() {
        union.copy_from(&other);
        return;
    }
    let mut cells = other.into_cells();
    let lacking = union.room() - cells.len();
    let has_room = cells.reserve_exact(lacking).is_ok();
    let taken = CellUnion::from_normalized(cells);
    if has_room {
        *union = taken;
    } else {
        union.copy_from(&taken);
    }
}

/// Makes a ring hold just these changes, the first at its front.
fn fill(ring: &mut HeapCircularBuffer<Change>, mut moves: Vec<Move>)
    requires each { AllByRecursion IsMove (map diff_of moves.items) }
    requires room { vec_len moves ≤ ring.old.capacity }
    ensures { ring.new ≡ buffer (map diff_of moves.items) ring.old.capacity }
{
    ring.clear();
    while let Some(change) = moves.pop() {
        ring.push_front(Change::of_move(change));
    }
}

/// Exchanges what each change takes out and puts in.
fn invert(moves: &mut Vec<Move>)
    ensures { map diff_of moves.new.items ≡ map inverse (map diff_of moves.old.items) }
{
    for change in moves.iter_mut() {
        mem::swap(&mut change.out, &mut change.put);
    }
}

/// Whether both hold.
fn both(first: bool, second: bool) -> bool
    ensures { result ≡ (first && second) }
{
    first && second
}

/// Copies of unions.
fn copies_of(alloc: Global, unions: &[CellUnion]) -> Result<Vec<CellUnion>, AllocError>
    ensures { IfOk result (λ copies. lists_of copies.items ≡ lists_of unions.now) }
{
    let mut copies = Vec::with_capacity(alloc, unions.len())?;
    for union in unions {
        copies.push(union.try_clone()?)?;
    }
    Ok(copies)
}

/// Changes with lists of their own.
fn moves_of<C: Changes>(alloc: Global, changes: &C) -> Result<Vec<Move>, AllocError>
    ensures { IfOk result (λ moves. map diff_of moves.items ≡ C.list changes.now) }
{
    let mut moves = Vec::with_capacity(alloc, changes.count())?;
    while let Some(change) = changes.at(moves.len()) {
        moves.push(copy_of(alloc, &change)?)?;
    }
    Ok(moves)
}

/// A copy of a change.
fn copy_of(alloc: Global, change: &BorrowedMove<'_>) -> Result<Move, AllocError>
    ensures { IfOk result (λ copy. diff_of copy ≡ change.now) }
{
    Ok(Move {
        register: change.register,
        out: Vec::from_slice(alloc, change.out)?,
        put: Vec::from_slice(alloc, change.put)?,
    })
}

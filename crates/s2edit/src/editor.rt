//! The editor: registers, and the history of their changes.
ghost use Rattle.std.specs.Prelude.{◌≡◌, ◌≢◌, ℕ, ◌+◌, ◌<◌, ◌≤◌, ◌↔◌, [], ◌∷◌, length};
ghost use Rattle.std.specs.Prelude.{replicate, IfOk, OnOk, OnErr, IsOk, IfSome, IsNone, slice_get, slice_set, Some};
ghost use Rattle.std.specs.Prelude.{vec_len, MatchBool};
ghost use Rattle.s2list.specs.Union.{Union, has_leaf, IsLocal, IsNormalForm};
ghost use Rattle.s2union.specs.Apply.{applied, Fits};
ghost use Rattle.s2edit.specs.History.{untouched, Assigned, sets, undone, redone, numbers, EachList};
ghost use Rattle.s2edit.specs.Leads.{list_at, table_at, Leads};
ghost use Rattle.s2edit.specs.Working.Chain.{lists_of, AllRoomy};
ghost use Rattle.s2edit.specs.Working.Splice.{IsPlaceOf};
ghost use Rattle.s2edit.specs.declared.editor.EditFault.TheVariants.{Memory};

use crate::change::Change;
use crate::{MOST_REGISTER, MOST_STATES, REGISTERS, Register};
use circular_buffer::HeapCircularBuffer;
use s2cell::CellId;
use s2union::CellUnion;
use std::alloc::{AllocError, Global};
use std::marker::Model;
use std::mem;

/// Why an assignment was refused. The editor is then unchanged, and the given union is dropped.
#[derive(Clone, Copy, Debug, PartialEq, Eq, Drop, thiserror::Error)]
pub enum EditFault {
    /// The union has more cells than the limit.
    #[error("the union has more cells than a register may")]
    TooMany,
    /// An allocation failed.
    #[error("out of memory")]
    Memory,
}

impl From<AllocError> for EditFault {
    ghost from_gives = { λ _ fault. fault ≡ Memory };

    fn from(_error: AllocError) -> EditFault {
        EditFault::Memory
    }
}

/// Registers that hold unions, and a bounded history of what was assigned to them.
///
/// A contract sees it as the list of its earlier tables, its present table, and those that were undone. It holds one
/// list for each register and one spare list, each with room for `limit` cells from the start, and at most `depth`
/// changes.
#[derive(Drop)]
pub struct Editor {
    pub(crate) alloc: Global,
    pub(crate) limit: usize,
    pub(crate) depth: usize,
    pub(crate) registers: Vec<CellUnion>,
    pub(crate) spare: CellUnion,
    pub(crate) past: HeapCircularBuffer<Change>,
    pub(crate) future: HeapCircularBuffer<Change>,
}

impl Model for Editor {
    ghost use Rattle.std.specs.Prelude.{List, ℕ};
    ghost use Rattle.s2edit.specs.History.{History};

    ghost Value = { History (List ℕ) };

    ghost use Rattle.s2edit.specs.Working.Editor.{history_of, IsEditor};

    ghost view = { history_of };

    ghost invariant = { IsEditor };
}

impl Editor {
    /// An editor with empty registers and no history. A register may have at most `limit` cells (1 to
    /// [`MOST_REGISTER`](crate::MOST_REGISTER)), and at most `depth` states are kept (1 to
    /// [`MOST_STATES`](crate::MOST_STATES)).
    ///
    /// Takes all memory that registers, undo and redo will need: room for `limit` cells for each register and for the
    /// spare list, 8 bytes a cell, and two rings of `depth` changes. At the greatest limit that is 216,000,000 bytes of
    /// address space; a system such as Linux provides only the part that is used.
    pub fn open(alloc: Global, limit: usize, depth: usize) -> Result<Editor, AllocError>
        requires limit { (1 ≤ limit) × (limit ≤ MOST_REGISTER) }
        requires depth { (1 ≤ depth) × (depth ≤ MOST_STATES) }
        ensures { IfOk result (λ e. e ≡ untouched limit depth (replicate REGISTERS [])) }
    {
        let past = HeapCircularBuffer::with_capacity(alloc, depth)?;
        let future = HeapCircularBuffer::with_capacity(alloc, depth)?;
        let registers = empty_registers(alloc, limit)?;
        let spare = CellUnion::with_room(alloc, limit)?;
        Ok(Editor {
            alloc,
            limit,
            depth,
            registers,
            spare,
            past,
            future,
        })
    }

    /// The union in a register, which has at most `limit` cells.
    pub fn register(&self, register: Register) -> &CellUnion
        ensures list { slice_get self.now.now register ≡ Some result.now.cells }
        ensures within { length result.now.cells ≤ self.now.limit }
    {
        &self.registers[register.index()]
    }

    /// Gives a register a union, and answers how many cells were taken out of its list and put in.
    ///
    /// If that changes the list, the present state goes to the past, which keeps the newest `depth` states, and the
    /// future is dropped. If it doesn't, the answer is `(0, 0)` and nothing changes, the future included. A few passes
    /// over the two lists; no other register is looked at.
    ///
    /// Answers `TooMany` for a union of more than `limit` cells, and `Memory` if there is no memory for a copy of the
    /// register's list and the two lists of the change. `Memory` is never the answer for an empty register or for the
    /// register's own list.
    pub fn assign(
        &mut self,
        register: Register,
        union: CellUnion,
    ) -> Result<(usize, usize), EditFault>
        ensures ok { OnOk result (Assigned self.old register union.cells self.new) }
        ensures ok_sets { OnOk result (Assigned (sets self.old) register (has_leaf union.cells) (sets self.new)) }
        ensures numbers { IfOk result (λ n. n ≡ numbers self.old.now self.new.now) }
        ensures too_many { (result ≡ Err EditFault.TooMany) ↔ (self.old.limit < length union.cells) }
        ensures err { OnErr result (self.new ≡ self.old) }

        // Assigning to an empty register, or assigning the register's own list, never runs out of memory.
        ensures into_empty { slice_get self.old.now register ≡ Some [] → length union.cells ≤ self.old.limit →
            IsOk result }
        ensures same_list { slice_get self.old.now register ≡ Some union.cells → IsOk result }
    {
        if union.len() > self.limit {
            return Err(EditFault::TooMany);
        }
        let old = &self.registers[register.index()];
        if are_same(old.cells(), union.cells()) {
            return Ok((0, 0));
        }
        let Ok(change) = Change::leading_to(self.alloc, register, old, union, &mut self.spare)
        else {
            return Err(EditFault::Memory);
        };
        exchange(&mut self.registers, &mut self.spare, register);
        let numbers = (change.out.len(), change.put.len());
        self.past.push_front(change);
        self.future.clear();
        Ok(numbers)
    }

    /// Goes back to the newest state of the past, and answers how many cells were taken out and put in.
    /// The present state goes to the future.
    ///
    /// Answers None if and only if the past is empty; then nothing changes. Two passes over the register's list; takes
    /// no memory.
    pub fn undo(&mut self) -> Option<(usize, usize)>
        ensures after { self.new ≡ undone self.old }
        ensures after_sets { sets self.new ≡ undone (sets self.old) }
        ensures none { IsNone result ↔ (self.old.past ≡ []) }
        ensures numbers { IfSome result (λ n. n ≡ numbers self.old.now self.new.now) }
    {
        let change = self.past.pop_front()?;
        change_register(
            &mut self.registers,
            &mut self.spare,
            None,
            change.register,
            &change.put,
            &change.out,
        );
        let numbers = (change.put.len(), change.out.len());
        self.future.push_front(change);
        Some(numbers)
    }

    /// Goes forward again to the state that was undone last, and answers how many cells were taken out and
    /// put in. The present state goes to the past.
    ///
    /// Answers None if and only if the future is empty; then nothing changes. Costs what `undo` costs.
    pub fn redo(&mut self) -> Option<(usize, usize)>
        ensures after { self.new ≡ redone self.old }
        ensures after_sets { sets self.new ≡ redone (sets self.old) }
        ensures none { IsNone result ↔ (self.old.future ≡ []) }
        ensures numbers { IfSome result (λ n. n ≡ numbers self.old.now self.new.now) }
    {
        let change = self.future.pop_front()?;
        change_register(
            &mut self.registers,
            &mut self.spare,
            None,
            change.register,
            &change.out,
            &change.put,
        );
        let numbers = (change.out.len(), change.put.len());
        self.past.push_front(change);
        Some(numbers)
    }

    /// The kept change that undo number `n` from now would reverse, counted from 0. It leads from the earlier state to
    /// the later one. None if and only if at most `n` states can be undone.
    pub fn change_back(&self, n: usize) -> Option<&Change>
        ensures none { IsNone result ↔ (length self.now.past ≤ n) }
        ensures leads { IfSome result
            (λ c. Leads c.now (table_at (self.now.now ∷ self.now.past) (n + 1))
            (table_at (self.now.now ∷ self.now.past) n)) }
    {
        self.past.get(n)
    }

    /// The kept change that redo number `n` from now would make again, counted from 0. It leads from the earlier state
    /// to the later one. None if and only if at most `n` states can be redone.
    pub fn change_ahead(&self, n: usize) -> Option<&Change>
        ensures none { IsNone result ↔ (length self.now.future ≤ n) }
        ensures leads { IfSome result
            (λ c. Leads c.now (table_at (self.now.now ∷ self.now.future) n)
            (table_at (self.now.now ∷ self.now.future) (n + 1))) }
    {
        self.future.get(n)
    }

    /// The most cells that a register may have. No list of the present state, an earlier one or one that was undone has
    /// more, and each list is normalized.
    pub fn limit(&self) -> usize
        ensures value { result ≡ self.now.limit }
        ensures most { result ≤ MOST_REGISTER }
        ensures few { EachList (λ u. length u ≤ self.now.limit) self.now }
        ensures local { EachList IsLocal self.now }
        ensures normal { EachList (λ u. IsNormalForm (has_leaf u) u) self.now }
    {
        self.limit
    }

    /// How many states can be undone. Together with those that can be redone they are at most `depth`.
    pub fn undoable(&self) -> usize
        ensures count { result ≡ length self.now.past }
        ensures within { result + length self.now.future ≤ self.now.depth }
    {
        self.past.len()
    }

    /// How many states can be redone. Together with those that can be undone they are at most `depth`.
    pub fn redoable(&self) -> usize
        ensures count { result ≡ length self.now.future }
        ensures within { length self.now.past + result ≤ self.now.depth }
    {
        self.future.len()
    }
}

/// Empty registers, each with room for `limit` cells.
fn empty_registers(alloc: Global, limit: usize) -> Result<Vec<CellUnion>, AllocError>
    ensures empty { IfOk result (λ v. lists_of v.items ≡ replicate REGISTERS []) }
    ensures roomy { IfOk result (λ v. AllRoomy limit v.items) }
{
    let mut registers = Vec::new(alloc);
    for _i in 0..REGISTERS {
        registers.push(CellUnion::with_room(alloc, limit)?)?;
    }
    Ok(registers)
}

/// Whether the two lists are the same.
pub(crate) fn are_same(cells: &[CellId], others: &[CellId]) -> bool
    ensures { MatchBool result (cells.now ≡ others.now) (cells.now ≢ others.now) }
{
    cells == others
}

/// Takes cells out of a register's list and puts others in. If those that go are next to each other, the index of the
/// first may be given; then no cell is searched for, and the cells after them are moved. Else the part that changes is
/// written anew, or if that is most of the list, the list is written in the spare one, which then takes its place.
pub(crate) fn change_register(
    registers: &mut Vec<CellUnion>,
    spare: &mut CellUnion,
    place: Option<usize>,
    register: Register,
    out: &[CellId],
    put: &[CellId],
)
    requires in_range { register < vec_len registers.old }
    requires fits { Fits out.now put.now (list_at (lists_of registers.old.items) register) }
    requires place { IfSome place (IsPlaceOf (record { register = register; out = out.now; put = put.now })
        (list_at (lists_of registers.old.items) register)) }
    requires room { length (applied out.now put.now (list_at (lists_of registers.old.items) register))
        ≤ spare.old.room }
    requires own_room { (u : Union) → slice_get registers.old.items register ≡ Some u →
        length (applied out.now put.now (list_at (lists_of registers.old.items) register)) ≤ u.room }
    ensures table { lists_of registers.new.items ≡ slice_set (lists_of registers.old.items) register
        (applied out.now put.now (list_at (lists_of registers.old.items) register)) }
    ensures roomy { (n : ℕ) → AllRoomy n registers.old.items → n ≤ spare.old.room →
        AllRoomy n registers.new.items × (n ≤ spare.new.room) }
{
    let at = register.index();
    if let Some(from) = place {
        let _ = registers[at].len();
        registers[at].splice(from, from + out.len(), put);
        return;
    }
    if is_spread(registers[at].cells(), out, put) {
        registers[at].apply_into(out, put, spare);
        exchange(registers, spare, register);
        return;
    }
    registers[at].apply(out, put, spare);
}

/// Whether the middle half of a list lies between the first and the last cell of a change.
fn is_spread(cells: &[CellId], out: &[CellId], put: &[CellId]) -> bool {
    let quarter = cells.len() / 4;
    let Some(low) = cells.get(quarter) else {
        return false;
    };
    let Some(high) = cells.get(cells.len() - 1 - quarter) else {
        return false;
    };
    (begins_below(out, *low) || begins_below(put, *low))
        && (ends_above(out, *high) || ends_above(put, *high))
}

/// Whether the first of these cells comes before a cell.
fn begins_below(cells: &[CellId], low: CellId) -> bool {
    match cells.first() {
        Some(first) => *first < low,
        None => false,
    }
}

/// Whether the last of these cells comes after a cell.
fn ends_above(cells: &[CellId], high: CellId) -> bool {
    match cells.last() {
        Some(last) => high < *last,
        None => false,
    }
}

/// Exchanges a register's list with the spare list.
pub(crate) fn exchange(registers: &mut Vec<CellUnion>, spare: &mut CellUnion, register: Register)
    requires in_range { register < vec_len registers.old }
    ensures registers { registers.new.items ≡ slice_set registers.old.items register spare.old }
    ensures spare { slice_get registers.old.items register ≡ Some spare.new }
{
    mem::swap(&mut registers[register.index()], spare);
}

//! Edits by a few named cells: how the change that they make is found near them. splice.rt has that of one cell.
//!
//! An edit by several cells concerns only a part of the register's list: the cells near them (near.rt), or near those
//! that become one cell with them. So the part alone is joined with the named cells, or cut by them. The change of the
//! part is then the change of the whole list, if it can be made there. This is tested; so a part that was chosen too
//! small is found out, and the whole list is taken.
ghost use Rattle.std.specs.Prelude.{◌≡◌, ℕ, Bool, true, ◌<◌, ◌≤◌, ◌||◌, ◌&&◌, not, List, [], ◌∷◌, length};
ghost use Rattle.std.specs.Prelude.{Err, IfOk, IfSome, OnOk, OnErr};
ghost use Rattle.s2list.specs.Union.{has_leaf, IsLocal, IsNormalForm};
ghost use Rattle.s2list.specs.Sets.{union_of, difference_of};
ghost use Rattle.s2union.specs.Apply.{has};
ghost use Rattle.s2edit.specs.History.{numbers, Assigned};
ghost use Rattle.s2edit.specs.Diff.{FitsList};
ghost use Rattle.s2edit.specs.Leads.{list_at};
ghost use Rattle.s2edit.specs.Named.{Becomes};
ghost use Rattle.s2edit.specs.Working.Chain.{list_after};
ghost use Rattle.s2edit.specs.Working.Named.{Gives};
ghost use Rattle.s2edit.specs.Working.Splice.{IsPlaceOf};

use crate::change::Change;
use crate::editor::{EditFault, Editor, change_register};
use crate::near::part_near;
use crate::splice::{adding_cell, completed_with, removing_cell};
use crate::{REGISTERS, Register};
use s2cell::CellId;
use s2union::{CellUnion, UnionFault};
use std::alloc::{AllocError, Global};

/// The part is looked for if the register has at least this number of cells for each named one.
const REGISTER_TO_NAMED: usize = 200;

impl Editor {
    /// Adds the leaves of a union to a register, as `assign` of the union of both does, and answers how many cells were
    /// taken out of its list and put in.
    ///
    /// If few cells are named beside the register's, this takes a few searches for each of them, and moves the cells
    /// after them. Takes memory for the part of the list that is near the named cells.
    pub fn add(
        &mut self,
        register: Register,
        named: &CellUnion,
    ) -> Result<(usize, usize), EditFault>
        ensures ok { OnOk result (Becomes (union_of (has_leaf (list_at self.old.now register))
            (has_leaf named.now.cells)) register self.old self.new) }
        ensures numbers { IfOk result (λ n. n ≡ numbers self.old.now self.new.now) }
        ensures too_many { result ≡ Err EditFault.TooMany → (u : List ℕ) →
            IsNormalForm (union_of (has_leaf (list_at self.old.now register)) (has_leaf named.now.cells)) u →
            self.old.limit < length u }
        ensures err { OnErr result (self.new ≡ self.old) }
    {
        if named.len() == 1 {
            return self.add_cell(register, named.cells()[0]);
        }
        let alloc = self.alloc;
        let union = self.register(register);
        let _ = union.cells();
        if let Some(change) = adding(alloc, register, union, named)? {
            return self.make(change, None);
        }
        let sum = union.union(named)?;
        self.assign(register, sum)
    }

    /// Takes the leaves of a union out of a register, as `assign` of the difference does, and answers how many cells
    /// were taken out of its list and put in. Costs as much as `add`.
    pub fn remove(
        &mut self,
        register: Register,
        named: &CellUnion,
    ) -> Result<(usize, usize), EditFault>
        ensures ok { OnOk result (Becomes
            (difference_of (has_leaf (list_at self.old.now register)) (has_leaf named.now.cells)) register
            self.old self.new) }
        ensures numbers { IfOk result (λ n. n ≡ numbers self.old.now self.new.now) }
        ensures too_many { result ≡ Err EditFault.TooMany → (u : List ℕ) →
            IsNormalForm (difference_of (has_leaf (list_at self.old.now register)) (has_leaf named.now.cells)) u →
            self.old.limit < length u }
        ensures err { OnErr result (self.new ≡ self.old) }
    {
        if named.len() == 1 {
            return self.remove_cell(register, named.cells()[0]);
        }
        let alloc = self.alloc;
        let limit = self.limit;
        let union = self.register(register);
        let _ = union.cells();
        if let Some(change) = removing(alloc, register, union, named)? {
            return self.make(change, None);
        }
        match union.difference_up_to(named, limit) {
            Ok(rest) => self.assign(register, rest),
            Err(UnionFault::TooMany) => Err(EditFault::TooMany),
            Err(UnionFault::Memory) => Err(EditFault::Memory),
        }
    }

    /// `add` of one cell.
    fn add_cell(&mut self, register: Register, cell: CellId) -> Result<(usize, usize), EditFault>
        ensures ok { OnOk result (Becomes (union_of (has_leaf (list_at self.old.now register)) (has_leaf (cell ∷ [])))
            register self.old self.new) }
        ensures numbers { IfOk result (λ n. n ≡ numbers self.old.now self.new.now) }
        ensures too_many { result ≡ Err EditFault.TooMany → (u : List ℕ) →
            IsNormalForm (union_of (has_leaf (list_at self.old.now register)) (has_leaf (cell ∷ []))) u →
            self.old.limit < length u }
        ensures err { OnErr result (self.new ≡ self.old) }
    {
        let union = self.register(register);
        let _ = union.cells();
        let (change, at) = adding_cell(self.alloc, register, union, cell)?;
        self.make(change, Some(at))
    }

    /// `remove` of one cell.
    fn remove_cell(&mut self, register: Register, cell: CellId) -> Result<(usize, usize), EditFault>
        ensures ok { OnOk result (Becomes
            (difference_of (has_leaf (list_at self.old.now register)) (has_leaf (cell ∷ []))) register
            self.old self.new) }
        ensures numbers { IfOk result (λ n. n ≡ numbers self.old.now self.new.now) }
        ensures too_many { result ≡ Err EditFault.TooMany → (u : List ℕ) →
            IsNormalForm (difference_of (has_leaf (list_at self.old.now register)) (has_leaf (cell ∷ []))) u →
            self.old.limit < length u }
        ensures err { OnErr result (self.new ≡ self.old) }
    {
        let union = self.register(register);
        let _ = union.cells();
        let (change, at) = removing_cell(self.alloc, register, union, cell)?;
        self.make(change, Some(at))
    }

    /// Makes a change in its register's list, in which it can be made: does what `assign` of the changed list does.
    /// If what it takes out is next to each other, the index of the first cell may be given. Answers `TooMany` if the
    /// changed list has more than `limit` cells. Takes no memory.
    fn make(&mut self, change: Change, place: Option<usize>) -> Result<(usize, usize), EditFault>
        requires in_range { change.register < REGISTERS }
        requires fits { FitsList change (list_at self.old.now change.register) }
        requires place { IfSome place (IsPlaceOf change (list_at self.old.now change.register)) }
        ensures ok { OnOk result (Assigned self.old change.register (list_after self.old.now change) self.new) }
        ensures numbers { IfOk result (λ n. n ≡ numbers self.old.now self.new.now) }
        ensures within { OnOk result (length (list_after self.old.now change) ≤ self.old.limit) }
        ensures too_many { OnErr result (self.old.limit < length (list_after self.old.now change)) }
        ensures err { OnErr result (self.new ≡ self.old) }
    {
        let old = &self.registers[change.register.index()];
        let (out, put) = (change.out.len(), change.put.len());
        if out == 0 && put == 0 {
            return Ok((0, 0));
        }
        if old.len() - out + put > self.limit {
            return Err(EditFault::TooMany);
        }
        change_register(
            &mut self.registers,
            &mut self.spare,
            place,
            change.register,
            &change.out,
            &change.put,
        );
        self.past.push_front(change);
        self.future.clear();
        Ok((out, put))
    }
}

/// The change that adds the leaves of the named cells, if it is found near them.
fn adding(
    alloc: Global,
    register: Register,
    union: &CellUnion,
    named: &CellUnion,
) -> Result<Option<Change>, AllocError>
    ensures { IfOk result (λ found. IfSome found
        (Gives (union_of (has_leaf union.now.cells) (has_leaf named.now.cells)) register union.now.cells)) }
{
    if union.len() / REGISTER_TO_NAMED < named.len() {
        return Ok(None);
    }
    let nothing = CellUnion::empty(alloc);
    if let Some(change) = change_of_part(alloc, register, union, &nothing, named)? {
        return Ok(Some(change));
    }
    if union.contains(named) {
        return change_of_part(alloc, register, union, &nothing, &nothing);
    }
    if let Some(change) = adding_near(alloc, register, union, named, named)? {
        return Ok(Some(change));
    }
    let part = part_near(alloc, union, named.cells())?;
    let united = part.union(named)?;
    adding_near(alloc, register, union, named, &united)
}

/// The change that adds the leaves of the named cells, if it is found near the cells that others complete.
fn adding_near(
    alloc: Global,
    register: Register,
    union: &CellUnion,
    named: &CellUnion,
    others: &CellUnion,
) -> Result<Option<Change>, AllocError>
    ensures { IfOk result (λ found. IfSome found
        (Gives (union_of (has_leaf union.now.cells) (has_leaf named.now.cells)) register union.now.cells)) }
{
    let complete = completed_cells(alloc, union.cells(), others.cells())?;
    let part = part_near(alloc, union, &complete)?;
    let united = part.union(named)?;
    change_of_part(alloc, register, union, &part, &united)
}

/// The change that takes the leaves of the named cells out, if it is found near them.
fn removing(
    alloc: Global,
    register: Register,
    union: &CellUnion,
    named: &CellUnion,
) -> Result<Option<Change>, AllocError>
    ensures { IfOk result (λ found. IfSome found
        (Gives (difference_of (has_leaf union.now.cells) (has_leaf named.now.cells)) register union.now.cells)) }
{
    if union.len() / REGISTER_TO_NAMED < named.len() {
        return Ok(None);
    }
    let nothing = CellUnion::empty(alloc);
    if let Some(change) = change_of_part(alloc, register, union, named, &nothing)? {
        return Ok(Some(change));
    }
    let part = part_near(alloc, union, named.cells())?;
    let rest = part.difference(named)?;
    change_of_part(alloc, register, union, &part, &rest)
}

/// The cells that take the place of given ones if these are added to a list: as long as the list has the three siblings
/// of one, its parent.
fn completed_cells(
    alloc: Global,
    list: &[CellId],
    cells: &[CellId],
) -> Result<Vec<CellId>, AllocError>
    requires { IsLocal list.now }
{
    let mut complete = Vec::new(alloc);
    for cell in cells {
        complete.push(completed_with(list, *cell))?;
    }
    Ok(complete)
}

/// The change that puts new cells in the place of a part of the union's list, if it can be made. `S` is the set of
/// leaves that the list then has. The cells of the part that go are looked for in the list; those that stay must be in
/// it.
fn change_of_part(
    alloc: Global,
    register: Register,
    union: &CellUnion,
    part: &CellUnion,
    new: &CellUnion,
) -> Result<Option<Change>, AllocError>
    requires { (c : ℕ) → has part.now.cells c ≡ true → has new.now.cells c ≡ true
        → has union.now.cells c ≡ true }
    ensures { (S : ℕ → Bool) → ((x : ℕ) → (has_leaf new.now.cells x
        || (has_leaf union.now.cells x && not (has_leaf part.now.cells x))) ≡ S x) →
        IfOk result (λ found. IfSome found (Gives S register union.now.cells)) }
{
    let _ = union.cells();
    let change = Change::between(alloc, register, part, new)?;
    if change.fits(union) {
        Ok(Some(change))
    } else {
        Ok(None)
    }
}

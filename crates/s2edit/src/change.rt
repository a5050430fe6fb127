//! Changes of a register.
ghost use Rattle.std.specs.Prelude.{◌≡◌, ◌≤◌, [], length, IfOk, IsOk, ◌↔◌, IsTrue};
ghost use Rattle.s2edit.specs.Content.{diff_of, IsMove};
ghost use Rattle.s2edit.specs.Diff.{IsDiff, FitsList};

use crate::Register;
use crate::content::Move;
use crate::lacking::unshared_cells;
use s2cell::CellId;
use s2union::CellUnion;
use std::alloc::{AllocError, Global};
use std::marker::Model;

/// The cells that are taken out of a register's list and those that are put in: two lists, each
/// ascending by identifier, that share no cell. Either may be empty.
#[derive(Drop)]
pub struct Change {
    /// The register that changes.
    pub register: Register,
    /// The cells that are taken out of its list.
    pub out: Vec<CellId>,
    /// The cells that are put in.
    pub put: Vec<CellId>,
}

impl Model for Change {
    ghost use Rattle.s2edit.specs.Diff.{Diff};

    ghost Value = { Diff };

    ghost use Rattle.s2edit.specs.Working.Change.{diff_inside, IsChange};

    ghost view = { diff_inside };

    ghost invariant = { IsChange };
}

impl Change {
    ghost use Rattle.s2edit.specs.Diff.{change_between, inverse};

    /// The change of a register from one union to another: `out` has the cells of `old` that `new` lacks, and `put`
    /// those of `new` that `old` lacks.
    ///
    /// A few passes over both lists. Takes exactly the memory of the two lists of the change, and for the time of the
    /// call as much as a copy of both lists.
    pub fn between(
        alloc: Global,
        register: Register,
        old: &CellUnion,
        new: &CellUnion,
    ) -> Result<Change, AllocError>
        ensures { IfOk result (λ c. c ≡ change_between register old.now.cells new.now.cells) }
    {
        Change::written_over(alloc, register, old, new, Vec::new(alloc))
    }

    /// The same, where `put` may be written over a list, if that is long enough.
    fn written_over(
        alloc: Global,
        register: Register,
        old: &CellUnion,
        new: &CellUnion,
        put: Vec<CellId>,
    ) -> Result<Change, AllocError>
        ensures { IfOk result (λ c. c ≡ change_between register old.now.cells new.now.cells) }
    {
        let (out, put) = unshared_cells(alloc, old.cells(), new.cells(), put)?;
        Ok(Change { register, out, put })
    }

    /// The same for a union that is given away and has to be in the spare list too, to which it is copied. If `old` is
    /// empty, `put` is the union's own list, and no memory is taken; else `put` is written over it.
    pub(crate) fn leading_to(
        alloc: Global,
        register: Register,
        old: &CellUnion,
        new: CellUnion,
        spare: &mut CellUnion,
    ) -> Result<Change, AllocError>
        requires room { length new.cells ≤ spare.old.room }
        ensures change { IfOk result (λ c. c ≡ change_between register old.now.cells new.cells) }
        ensures copied { IfOk result (λ _. spare.new.cells ≡ new.cells) }
        ensures room { spare.old.room ≤ spare.new.room }
        ensures from_empty { old.now.cells ≡ [] → IsOk result }
    {
        spare.copy_from(&new);
        if old.is_empty() {
            return Ok(Change {
                register,
                out: Vec::new(alloc),
                put: new.into_cells(),
            });
        }
        Change::written_over(alloc, register, old, spare, new.into_cells())
    }

    /// The change that a session tells, with its lists.
    pub(crate) fn of_move(change: Move) -> Change
        requires { IsMove (diff_of change) }
        ensures { result ≡ diff_of change }
    {
        let Move { register, out, put } = change;
        Change {
            register: Register::at(register),
            out,
            put,
        }
    }

    /// The change that reverses this one: the two lists, exchanged. Takes no memory.
    pub fn inverse(self) -> Change
        ensures { result ≡ inverse self }
    {
        let Change { register, out, put } = self;
        Change {
            register,
            out: put,
            put: out,
        }
    }

    /// Whether the change can be made in the union's list: every cell of `out` is in it, no cell of `put`
    /// is, and the list without `out` and with `put` is normalized. The lists of any change ascend and share no cell.
    ///
    /// Takes as many steps as `can_apply` of the union, and no memory.
    pub fn fits(&self, union: &CellUnion) -> bool
        ensures answer { IsTrue result ↔ FitsList self.now union.now.cells }
        ensures lists { IsDiff self.now.out self.now.put }
    {
        union.can_apply(&self.out, &self.put)
    }
}

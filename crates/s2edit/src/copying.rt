//! How a register gets the list of another.
ghost use Rattle.std.specs.Prelude.{◌≡◌, IsOk, IfOk, OnOk, OnErr};
ghost use Rattle.s2list.specs.Union.{has_leaf};
ghost use Rattle.s2edit.specs.History.{Assigned, numbers, sets};
ghost use Rattle.s2edit.specs.Leads.{list_at};

use crate::Register;
use crate::change::Change;
use crate::editor::{Editor, are_same, exchange};
use std::alloc::AllocError;

impl Editor {
    /// Gives a register a copy of another's list, as `assign` does, and answers how many cells were taken out of its
    /// list and put in. A few passes over the two lists, which are copied only as far as they differ.
    ///
    /// Answers an error, and leaves the editor as it was, if there is no memory for copies of the parts of both lists
    /// that differ, or for the two lists of the change. A register that has the same list already needs none.
    pub fn copy(
        &mut self,
        register: Register,
        other: Register,
    ) -> Result<(usize, usize), AllocError>
        ensures ok { OnOk result (Assigned self.old register (list_at self.old.now other) self.new) }
        ensures ok_sets { OnOk result (Assigned (sets self.old) register (has_leaf (list_at self.old.now other))
            (sets self.new)) }
        ensures numbers { IfOk result (λ n. n ≡ numbers self.old.now self.new.now) }
        ensures err { OnErr result (self.new ≡ self.old) }
        ensures same_list { list_at self.old.now register ≡ list_at self.old.now other → IsOk result }
    {
        let old = &self.registers[register.index()];
        let new = &self.registers[other.index()];
        if are_same(old.cells(), new.cells()) {
            return Ok((0, 0));
        }
        let change = Change::between(self.alloc, register, old, new)?;
        self.spare.copy_from(new);
        exchange(&mut self.registers, &mut self.spare, register);
        let numbers = (change.out.len(), change.put.len());
        self.past.push_front(change);
        self.future.clear();
        Ok(numbers)
    }
}

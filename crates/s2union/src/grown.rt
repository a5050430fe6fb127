//! A list that grows, to which a set operation writes.
ghost use Rattle.std.specs.Prelude.{◌≡◌, ◌-◌, ◌≤◌, ◌++◌, ◌∷◌, [], ⊤, ℕ, IfErr, IfOk, List, length, take, drop};
ghost use Rattle.s2union.specs.Grown.{IsGrown};
ghost use Rattle.s2union.specs.declared.grown.Grown.{Grown};

use crate::sets::extend;
use s2cell::CellId;
use s2list::{CellList, Copies, Output};
use std::alloc::AllocError;

/// A list that grows as a set operation writes to it, up to `most` cells and those of the gap with which it gets
/// longer. A run that is too long for it is counted, and not copied.
#[derive(Drop)]
pub struct Grown<'a> {
    /// The list.
    pub list: &'a mut Vec<CellId>,
    /// How many cells it has at most.
    pub most: usize,
}

impl<'a> Output for Grown<'a> {
    ghost holds = { λ list old now n. IsGrown list old.most now.most now.list.now.items n };

    ghost rest = { λ old now n. ⊤ };

    ghost place = { λ g. g.list.ghost_name };

    ghost refuses = { ⊤ };

    #[inline(always)]
    fn put_cell(&mut self, n: usize, cell: CellId) -> Result<usize, AllocError>
        ensures place { self.new.list.ghost_name ≡ self.old.list.ghost_name }
        ensures put { IfOk result (λ m. (list : List ℕ) (old : Grown)
            → IsGrown list old.most self.old.most self.old.list.now.items n
            → IsGrown (list ++ cell ∷ []) old.most self.new.most self.new.list.now.items m) }
        ensures rest { IfOk result (λ m. (old : Grown) → ⊤ → ⊤) }
        ensures sure { IfErr result (λ _. ⊤) }
    {
        self.list.push(cell)?;
        Ok(n.saturating_add(1))
    }

    ghost counts = { λ list old now n grown few. grown.len_is few };
}

impl<'a, 'b> Copies<CellList<'b>> for Grown<'a> {
    #[inline(always)]
    fn put_run(
        &mut self,
        n: usize,
        cells: &CellList<'b>,
        from: usize,
        to: usize,
    ) -> Result<usize, AllocError>
        requires order { from ≤ to }
        requires within { to ≤ length cells.now.cells.now }
        ensures place { self.new.list.ghost_name ≡ self.old.list.ghost_name }
        ensures put { IfOk result (λ m. (list : List ℕ) (old : Grown)
            → IsGrown list old.most self.old.most self.old.list.now.items n
            → IsGrown (list ++ take (to - from) (drop from cells.now.cells.now)) old.most self.new.most
            self.new.list.now.items m) }
        ensures rest { IfOk result (λ m. (old : Grown) → ⊤ → ⊤) }
        ensures sure { IfErr result (λ _. ⊤) }
    {
        let count = to - from;
        if n <= self.most && count <= self.most - n {
            extend(self.list, &cells.cells[from..to])?;
        }
        Ok(n.saturating_add(count))
    }
}

//! The room of a caller: a list of identifiers that grows at its front, and the numbers in it. Numbers that don't fit
//! are counted, and not written.
ghost use Rattle.std.specs.Prelude.{◌≡◌, ◌+◌, ◌-◌, ◌<◌, ◌≤◌, ◌++◌, ◌∷◌, [], ℕ, All, List, length, take, drop};
ghost use Rattle.s2cell.specs.Cell.{IsCell};
ghost use Rattle.s2list.specs.Room.{IsPut, LeavesRest};

use crate::cells::{Cells, CellsMut, Listed, cell_of};
use crate::output::{Copies, Output};
use s2cell::CellId;
use std::alloc::AllocError;

/// A caller's room, into which a set operation writes.
#[derive(Drop)]
pub struct Room<'a> {
    /// The room.
    pub out: &'a mut [u64],
}

impl<'a> Listed for Room<'a> {
    ghost ids = { λ r. r.out.now };

    fn len(&self) -> usize {
        self.out.len()
    }
}

impl<'a> Cells for Room<'a> {
    fn id(&self, k: usize) -> u64 {
        self.out[k]
    }
}

impl<'a> CellsMut for Room<'a> {
    ghost readable = { λ r. All IsCell r.out.now };

    ghost place = { λ r. r.out.ghost_name };

    fn cell(&self, k: usize) -> CellId {
        cell_of(self.out[k])
    }

    fn set(&mut self, k: usize, cell: CellId) {
        self.out[k] = cell.id();
    }
}

impl<'a> Output for Room<'a> {
    ghost holds = { λ list old now n. IsPut list old.out.now now.out.now n };

    ghost rest = { λ old now n. drop n now.out.now ≡ drop n old.out.now };

    ghost place = { λ r. r.out.ghost_name };

    ghost refuses = { ⊥ };

    #[inline(always)]
    fn put_cell(&mut self, n: usize, cell: CellId) -> Result<usize, AllocError> {
        Ok(put(self.out, n, cell.id()))
    }

    ghost counts = { λ list old now n put few. put.len_is few };
}

impl<'a, C: Cells> Copies<C> for Room<'a> {
    fn put_run(
        &mut self,
        n: usize,
        cells: &C,
        from: usize,
        to: usize,
    ) -> Result<usize, AllocError> {
        Ok(put_run(self.out, n, cells, from, to))
    }
}

/// Puts an identifier after the first `n`, if there is room, and answers how many they are then.
#[inline(always)]
pub fn put(out: &mut [u64], n: usize, id: u64) -> usize
    ensures len { length out.new ≡ length out.old }
    ensures put { (list room : List ℕ) → IsPut list room out.old n → IsPut (list ++ id ∷ []) room out.new result }
    ensures rest { LeavesRest out.old out.new n result }
{
    if n < out.len() {
        out[n] = id;
        return n + 1;
    }
    n.saturating_add(1)
}

/// Puts the numbers at the places from `from` to before `to` after the first `n`, if there is room for all of them, and
/// answers how many they are then.
#[inline(always)]
pub(crate) fn put_run<C: Cells>(
    out: &mut [u64],
    n: usize,
    cells: &C,
    from: usize,
    to: usize,
) -> usize
    requires order { from ≤ to }
    requires within { to ≤ length (C.ids cells.now) }
    ensures len { length out.new ≡ length out.old }
    ensures put { (list room : List ℕ) → IsPut list room out.old n
        → IsPut (list ++ take (to - from) (drop from (C.ids cells.now))) room out.new result }
    ensures rest { LeavesRest out.old out.new n result }
{
    let count = to - from;
    if n <= out.len() && count <= out.len() - n {
        for k in 0..count {
            out[n + k] = cells.id(from + k);
        }
        return n + count;
    }
    n.saturating_add(count)
}

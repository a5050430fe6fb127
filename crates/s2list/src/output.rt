//! Outputs, to which set operations write their cells: a list that grows, or a room of a caller.
ghost use Rattle.std.specs.Prelude.{◌≡◌, ◌-◌, ◌^◌, ◌<◌, ◌≤◌, ◌++◌, ◌∷◌, [], ℕ, List, IfErr, IfOk, length, take};
ghost use Rattle.std.specs.Prelude.{drop};
ghost use Rattle.s2list.specs.Output.{Fills};

use crate::cells::Listed;
use s2cell::{CellId, LEAVES};
use std::alloc::AllocError;

/// Takes the cells that a set operation writes: one at a time, and runs of the lists that it is made for (`Copies`).
///
/// A call is given how many cells were written before, and answers how many they are then, whether there is room for
/// them or not. `holds` says which list was written since a moment before, `rest` that what comes after the cells that
/// were written is as it was then, whatever they are, `place` names the reference that an output holds, which stays,
/// and `refuses` is false if it takes no memory.
pub trait Output {
    ghost holds: { List ℕ → Self → Self → ℕ → Type 0 };

    ghost rest: { Self → Self → ℕ → Type 0 };

    ghost place: { Self → ℕ };

    ghost refuses: { Type 0 };

    /// Writes a cell after the first `n`.
    fn put_cell(&mut self, n: usize, cell: CellId) -> Result<usize, AllocError>
        ensures place { place self.new ≡ place self.old }
        ensures put { IfOk result (λ m. (list : List ℕ) (old : Self) → holds list old self.old n
            → holds (list ++ cell ∷ []) old self.new m) }
        ensures rest { IfOk result (λ m. (old : Self) → rest old self.old n → rest old self.new m) }
        ensures sure { IfErr result (λ _. refuses) };

    ghost counts: { (list : List ℕ) (old new : Self) (n : ℕ) → holds list old new n → length list < 2 ^ 64
        → n ≡ length list };
}

/// An output that takes runs of a list.
pub trait Copies<C: Listed>: Output {
    /// Writes the numbers of the list at the indexes from `from` to before `to` after the first `n`.
    fn put_run(&mut self, n: usize, cells: &C, from: usize, to: usize) -> Result<usize, AllocError>
        requires order { from ≤ to }
        requires within { to ≤ length (C.ids cells.now) }
        ensures place { Self.place self.new ≡ Self.place self.old }
        ensures put { IfOk result (λ m. (list : List ℕ) (old : Self) → Self.holds list old self.old n
            → Self.holds (list ++ take (to - from) (drop from (C.ids cells.now))) old self.new m) }
        ensures rest { IfOk result (λ m. (old : Self) → Self.rest old self.old n → Self.rest old self.new m) }
        ensures sure { IfErr result (λ _. Self.refuses) };
}

/// Writes the normal form of the leaves from `lo` to before `hi` after the first `n` cells, and answers how many they
/// are then: the largest cell that begins at `lo` and fits, then the largest that begins after it, and so on. A few
/// steps for each cell.
pub fn put_gap<W: Output>(out: &mut W, n: usize, lo: u64, hi: u64) -> Result<usize, AllocError>
    ensures place { W.place out.new ≡ W.place out.old }
    ensures put { IfOk result (λ m. (lo < hi → hi ≤ LEAVES) → (list : List ℕ) (old : W)
        → W.holds list old out.old n → Fills (λ l. W.holds l old out.new m) list lo hi) }
    ensures rest { IfOk result (λ m. (old : W) → W.rest old out.old n → W.rest old out.new m) }
    ensures sure { IfErr result (λ _. W.refuses) }
{
    let end = hi.min(LEAVES);
    let mut count = n;
    let mut first = lo;
    while first < end {
        let cell = CellId::tile(first, end);
        count = out.put_cell(count, cell)?;
        first = cell.end_leaf();
    }
    Ok(count)
}

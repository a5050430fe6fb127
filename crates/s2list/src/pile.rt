//! A set of leaves that is put together from its intervals, from the first leaf to the last.
ghost use Rattle.std.specs.Prelude.{◌≡◌, ◌+◌, ◌-◌, ◌<◌, ◌≤◌, ℕ, Bool, List, IfErr, IfOk, length, slice_index};
ghost use Rattle.s2cell.specs.Cell.{first_leaf, size_of};
ghost use Rattle.s2list.specs.Union.{IsLocal};
ghost use Rattle.s2list.specs.Output.{Fills};
ghost use Rattle.s2list.specs.Working.Piles.{Brings, IsRun, PileIn};

use crate::cells::Cells;
use crate::find::end_of;
use crate::output::{Copies, Output, put_gap};
use s2cell::LEAVES;
use std::alloc::AllocError;

/// How many cells were written, and the leaves after them that no cell was written for yet.
#[derive(Clone, Copy)]
pub(crate) struct Pile {
    pub(crate) n: usize,
    pub(crate) lo: u64,
    pub(crate) hi: u64,
}

/// Adds the leaves from `from` to before `to` to a pile, if there are any. If they begin after its end, its leaves are
/// written first.
#[inline(always)]
pub(crate) fn add<W: Output>(
    out: &mut W,
    pile: Pile,
    from: u64,
    to: u64,
) -> Result<Pile, AllocError>
    ensures place { W.place out.new ≡ W.place out.old }
    ensures end { IfOk result (λ p. from < to → p.hi ≡ to) }
    ensures same { IfOk result (λ p. to ≤ from → p.hi ≡ pile.hi) }
    ensures added { IfOk result (λ p. (S : ℕ → Bool) (old : W) (done next : ℕ) → Brings S done from to next
        → PileIn S (λ n list. W.holds list old out.old n) pile done
        → PileIn S (λ n list. W.holds list old out.new n) p next) }
    ensures rest { IfOk result (λ p. (old : W) → W.rest old out.old pile.n → W.rest old out.new p.n) }
    ensures sure { IfErr result (λ _. W.refuses) }
{
    if to <= from {
        return Ok(pile);
    }
    if from <= pile.hi {
        return Ok(Pile {
            n: pile.n,
            lo: pile.lo,
            hi: to,
        });
    }
    let n = finish(out, pile)?;
    Ok(Pile {
        n,
        lo: from,
        hi: to,
    })
}

/// Writes the leaves of a pile, and answers how many cells are written then.
#[inline(always)]
pub(crate) fn finish<W: Output>(out: &mut W, pile: Pile) -> Result<usize, AllocError>
    ensures place { W.place out.new ≡ W.place out.old }
    ensures put { IfOk result (λ m. (pile.lo < pile.hi → pile.hi ≤ LEAVES) → (list : List ℕ) (old : W)
        → W.holds list old out.old pile.n → Fills (λ l. W.holds l old out.new m) list pile.lo pile.hi) }
    ensures rest { IfOk result (λ m. (old : W) → W.rest old out.old pile.n → W.rest old out.new m) }
    ensures sure { IfErr result (λ _. W.refuses) }
{
    let n = put_gap(out, pile.n, pile.lo, pile.hi)?;
    Ok(n)
}

/// Writes the cells of a list from index `i` to before `stop` after the leaves of a pile, and answers a pile of nothing
/// that begins one leaf after the last of these cells.
pub(crate) fn lay<C: Cells, W: Copies<C>>(
    out: &mut W,
    pile: Pile,
    cells: &C,
    i: usize,
    stop: usize,
) -> Result<Pile, AllocError>
    requires order { i < stop }
    requires within { stop ≤ length (C.ids cells.now) }
    ensures place { W.place out.new ≡ W.place out.old }
    ensures end { IfOk result (λ p. IsLocal (C.ids cells.now) → p.hi ≡ first_leaf (slice_index (C.ids cells.now)
        (stop - 1)) + size_of (slice_index (C.ids cells.now) (stop - 1)) + 1) }
    ensures laid { IfOk result (λ p. IsLocal (C.ids cells.now) → (S : ℕ → Bool) (old : W) (done : ℕ)
        → IsRun S (C.ids cells.now) done i stop → PileIn S (λ n list. W.holds list old out.old n) pile done
        → PileIn S (λ n list. W.holds list old out.new n) p p.hi) }
    ensures rest { IfOk result (λ p. (old : W) → W.rest old out.old pile.n → W.rest old out.new p.n) }
    ensures sure { IfErr result (λ _. W.refuses) }
{
    let front = finish(out, pile)?;
    let n = out.put_run(front, cells, i, stop)?;
    let after = end_of(cells.id(stop - 1)).saturating_add(1);
    Ok(Pile {
        n,
        lo: after,
        hi: after,
    })
}

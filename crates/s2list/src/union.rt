//! The leaves of two lists of cells, written to a list that grows or to a room. The set is put together from its
//! intervals, each filled with the largest cells that fit; many cells of one list before the next of the other are
//! copied as one run.
ghost use Rattle.std.specs.Prelude.{◌≡◌, ◌+◌, ◌^◌, ◌<◌, ◌≤◌, [], ℕ, Bool, IfErr, IfOk, length, slice_index};
ghost use Rattle.s2cell.specs.Cell.{first_leaf};
ghost use Rattle.s2list.specs.Union.{IsLocal, has_leaf};
ghost use Rattle.s2list.specs.Sets.{union_of};
ghost use Rattle.s2list.specs.Output.{Writes};
ghost use Rattle.s2list.specs.Working.Piles.{Along};

use crate::cells::Cells;
use crate::find::{end_of, first_of};
use crate::output::{Copies, Output};
use crate::pile::{Pile, add, finish, lay};
use crate::stretch::{SHORTEST_RUN, rest_of, run_to};
use std::alloc::AllocError;

/// A pile to which more cells were added, and the index of the next.
#[derive(Clone, Copy)]
struct Step {
    pile: Pile,
    next: usize,
}

/// Writes the leaves of either union, and answers how many cells they are. One pass over both lists. Many cells of one
/// before the next of the other are passed by a search, in steps that leap, and written as one run.
pub fn write_union<X: Cells, Y: Cells, W: Copies<X> + Copies<Y>>(
    xs: &X,
    ys: &Y,
    out: &mut W,
) -> Result<usize, AllocError>
    requires empty { W.holds [] out.old out.old 0 }
    ensures place { W.place out.new ≡ W.place out.old }
    ensures made { IfOk result (λ n. IsLocal (X.ids xs.now) → IsLocal (Y.ids ys.now)
        → Writes (union_of (has_leaf (X.ids xs.now)) (has_leaf (Y.ids ys.now)))
        (λ list. W.holds list out.old out.new n) n) }
    ensures rest { IfOk result (λ n. W.rest out.old out.old 0 → W.rest out.old out.new n) }
    ensures sure { IfErr result (λ _. W.refuses) }
{
    let x_len = xs.len();
    let y_len = ys.len();
    let mut pile = Pile { n: 0, lo: 0, hi: 0 };
    let mut i = 0;
    let mut j = 0;
    while i < x_len && j < y_len {
        if first_of(xs.id(i)) <= first_of(ys.id(j)) {
            let by_x = add_next(xs, i, ys, j, out, pile)?;
            pile = by_x.pile;
            i = by_x.next;
        } else {
            let by_y = add_next(ys, j, xs, i, out, pile)?;
            pile = by_y.pile;
            j = by_y.next;
        }
    }
    while i < x_len {
        let rest_x = add_next(xs, i, ys, j, out, pile)?;
        pile = rest_x.pile;
        i = rest_x.next;
    }
    while j < y_len {
        let rest_y = add_next(ys, j, xs, i, out, pile)?;
        pile = rest_y.pile;
        j = rest_y.next;
    }
    let n = finish(out, pile)?;
    Ok(n)
}

/// Adds the cell of `xs` at index `i` to a pile, or a run of cells from that index on.
#[inline(always)]
fn add_next<X: Cells, Y: Cells, W: Copies<X>>(
    xs: &X,
    i: usize,
    ys: &Y,
    j: usize,
    out: &mut W,
    pile: Pile,
) -> Result<Step, AllocError>
    requires there { i < length (X.ids xs.now) }
    requires fits { i + 1 < 2 ^ 64 }
    ensures from { IfOk result (λ s. i < s.next) }
    ensures within { IfOk result (λ s. s.next ≤ length (X.ids xs.now)) }
    ensures place { W.place out.new ≡ W.place out.old }
    ensures added { IfOk result (λ s. IsLocal (X.ids xs.now) → IsLocal (Y.ids ys.now)
        → (j < length (Y.ids ys.now) → first_leaf (slice_index (X.ids xs.now) i)
        ≤ first_leaf (slice_index (Y.ids ys.now) j))
        → (S : ℕ → Bool) → ((x : ℕ) → S x ≡ union_of (has_leaf (X.ids xs.now)) (has_leaf (Y.ids ys.now)) x) → (old : W)
        → Along S (λ n list. W.holds list old out.old n) (X.ids xs.now) (Y.ids ys.now) i j pile pile.hi
        → Along S (λ n list. W.holds list old out.new n) (X.ids xs.now) (Y.ids ys.now) s.next j s.pile s.pile.hi) }
    ensures rest { IfOk result (λ s. (old : W) → W.rest old out.old pile.n → W.rest old out.new s.pile.n) }
    ensures sure { IfErr result (λ _. W.refuses) }
{
    let x = xs.id(i);
    let first = first_of(x);
    let end = end_of(x);
    if first <= pile.hi {
        return Ok(Step {
            pile: Pile {
                n: pile.n,
                lo: pile.lo,
                hi: pile.hi.max(end),
            },
            next: i + 1,
        });
    }
    // Not asked of short lists: the next number of the other one would be read for it.
    if xs.len().saturating_sub(i) > SHORTEST_RUN {
        let stop = run_to(xs, i, pile.hi, rest_of(ys, j, pile.hi).first);
        if i < stop {
            let laid = lay(out, pile, xs, i, stop)?;
            return Ok(Step {
                pile: laid,
                next: stop,
            });
        }
    }
    let more = add(out, pile, first, end)?;
    Ok(Step {
        pile: more,
        next: i + 1,
    })
}

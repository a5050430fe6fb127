//! The leaves that exactly one of two lists of cells has, written to a list that grows or to a room.
ghost use Rattle.std.specs.Prelude.{◌≡◌, [], IfErr, IfOk};
ghost use Rattle.s2list.specs.Union.{IsLocal, has_leaf};
ghost use Rattle.s2list.specs.Sets.{symmetric_difference_of};
ghost use Rattle.s2list.specs.Output.{Writes};
ghost use Rattle.s2list.specs.Working.Piles.{IsPast};

use crate::cells::Cells;
use crate::output::Copies;
use crate::pile::{Pile, add, finish, lay};
use crate::stretch::{rest_of, run_to};
use std::alloc::AllocError;

/// Writes the leaves that exactly one of two unions has, and answers how many cells they are. One pass over both lists:
/// each turn passes the cell that ends first, or both if they end together. The leaves that only one of them has
/// come before the other begins, and are added as one interval.
pub fn write_symmetric_difference<X: Cells, Y: Cells, W: Copies<X> + Copies<Y>>(
    xs: &X,
    ys: &Y,
    out: &mut W,
) -> Result<usize, AllocError>
    requires empty { W.holds [] out.old out.old 0 }
    ensures place { W.place out.new ≡ W.place out.old }
    ensures made { IfOk result (λ n. IsLocal (X.ids xs.now) → IsLocal (Y.ids ys.now)
        → Writes (symmetric_difference_of (has_leaf (X.ids xs.now)) (has_leaf (Y.ids ys.now)))
        (λ list. W.holds list out.old out.new n) n) }
    ensures rest { IfOk result (λ n. W.rest out.old out.old 0 → W.rest out.old out.new n) }
    ensures sure { IfErr result (λ _. W.refuses) }
{
    let x_len = xs.len();
    let y_len = ys.len();
    let mut pile = Pile { n: 0, lo: 0, hi: 0 };
    let mut done = 0;
    let mut i = 0;
    let mut j = 0;
    while i < x_len || j < y_len {
        let x = rest_of(xs, i, done);
        let y = rest_of(ys, j, done);
        let x_stop = run_to(xs, i, done, y.first);
        let y_stop = run_to(ys, j, done, x.first);
        if i < x_stop {
            pile = lay(out, pile, xs, i, x_stop)?;
            done = pile.hi;
            i = x_stop;
        } else if j < y_stop {
            pile = lay(out, pile, ys, j, y_stop)?;
            done = pile.hi;
            j = y_stop;
        } else {
            let end = x.end.min(y.end);
            let from = x.first.min(y.first);
            let to = x.first.max(y.first).min(end);
            pile = add(out, pile, from, to)?;
            done = done.max(end);
            i = past(i, x_len, x.end, done);
            j = past(j, y_len, y.end, done);
        }
    }
    let n = finish(out, pile)?;
    Ok(n)
}

/// The index after `i`, if there is a cell at `i` and it ends by the leaf `done`; else `i`.
#[inline(always)]
fn past(i: usize, len: usize, end: u64, done: u64) -> usize
    ensures { IsPast i len end done result }
{
    if i < len && end <= done {
        return i + 1;
    }
    i
}

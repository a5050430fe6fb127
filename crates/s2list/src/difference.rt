//! The leaves of one list of cells that another doesn't have, written to a list that grows or to a room.
ghost use Rattle.std.specs.Prelude.{◌≡◌, ◌+◌, ◌<◌, ◌≤◌, [], IfErr, IfOk, length, slice_index};
ghost use Rattle.s2cell.specs.Cell.{IsCell, first_leaf, size_of};
ghost use Rattle.s2list.specs.Union.{IsLocal, has_leaf};
ghost use Rattle.s2list.specs.Packed.{FirstEndBy};
ghost use Rattle.s2list.specs.Sets.{difference_of};
ghost use Rattle.s2list.specs.Output.{WritesUpTo};

use crate::ahead::{Fours, Leaps, Seek, is_short};
use crate::ask::begins_at;
use crate::cells::Cells;
use crate::find::{end_of, find_from, first_of};
use crate::looks::Uncounted;
use crate::output::{Copies, put_gap};
use std::alloc::AllocError;

/// Writes the leaves of the first union that the second doesn't have, and answers how many cells they are. Stops once
/// they are more than `most`, and answers some number above it. Searches, in steps that leap, for the next cell of `ys`
/// that ends after the leaves done, and for the next of `xs` that goes beyond it. The cells of `xs` before the next of
/// `ys` are written as one run. If `xs` is much shorter, the whole of `ys` is searched, for four of its cells at once.
pub fn write_difference<X: Cells, Y: Cells, W: Copies<X> + Copies<Y>>(
    xs: &X,
    ys: &Y,
    most: usize,
    out: &mut W,
) -> Result<usize, AllocError>
    requires empty { W.holds [] out.old out.old 0 }
    ensures place { W.place out.new ≡ W.place out.old }
    ensures made { IfOk result (λ n. IsLocal (X.ids xs.now) → IsLocal (Y.ids ys.now)
        → WritesUpTo most (difference_of (has_leaf (X.ids xs.now)) (has_leaf (Y.ids ys.now)))
        (λ list. W.holds list out.old out.new n) n) }
    ensures rest { IfOk result (λ n. W.rest out.old out.old 0 → W.rest out.old out.new n) }
    ensures sure { IfErr result (λ _. W.refuses) }
{
    if is_short(xs.len(), ys.len()) {
        return write_difference_by(xs, ys, most, out, &mut Fours::new());
    }
    write_difference_by(xs, ys, most, out, &mut Leaps)
}

/// As `write_difference`, by these searches in `ys`.
fn write_difference_by<X: Cells, Y: Cells, W: Copies<X> + Copies<Y>, S: Seek<X, Y>>(
    xs: &X,
    ys: &Y,
    most: usize,
    out: &mut W,
    in_ys: &mut S,
) -> Result<usize, AllocError>
    requires empty { W.holds [] out.old out.old 0 }
    ensures place { W.place out.new ≡ W.place out.old }
    ensures made { IfOk result (λ n. IsLocal (X.ids xs.now) → IsLocal (Y.ids ys.now)
        → WritesUpTo most (difference_of (has_leaf (X.ids xs.now)) (has_leaf (Y.ids ys.now)))
        (λ list. W.holds list out.old out.new n) n) }
    ensures rest { IfOk result (λ n. W.rest out.old out.old 0 → W.rest out.old out.new n) }
    ensures sure { IfErr result (λ _. W.refuses) }
{
    let mut n = 0;
    let mut lo = 0;
    let mut i = 0;
    let mut j = 0;
    while i < xs.len() && n <= most {
        let x = xs.id(i);
        let first = first_of(x);
        let end = end_of(x);
        let start = first.max(lo);
        j = in_ys.seek(xs, i, ys, j, j, start);
        if begins_at(ys, j, end, &mut Uncounted) {
            let y = ys.id(j);
            n = put_gap(out, n, start, first_of(y))?;
            lo = end_of(y).max(start);
            j += 1;
            i = leap_if(end <= lo, xs, i, lo);
        } else if start == first {
            let next = free_until(xs, i, ys, j);
            n = out.put_run(n, xs, i, next)?;
            lo = end_of(xs.id(next - 1));
            i = next;
        } else {
            n = put_gap(out, n, start, end)?;
            lo = end.max(start);
            i += 1;
        }
    }
    Ok(n)
}

/// How many cells end by the leaf `lo`, if the first `start` are known to and this is asked; else `start`.
#[inline(always)]
fn leap_if<C: Cells>(asked: bool, cells: &C, start: usize, lo: u64) -> usize
    requires { start ≤ length (C.ids cells.now) }
    ensures from { start ≤ result }
    ensures within { result ≤ length (C.ids cells.now) }
    ensures ended { IsLocal (C.ids cells.now) → FirstEndBy (C.ids cells.now) start lo
        → FirstEndBy (C.ids cells.now) result lo }
{
    if asked {
        return find_from(cells, start, lo);
    }
    start
}

/// How many cells of `xs` end before the next cell of `ys`, if the one at index `i` does. More than `i`.
fn free_until<X: Cells, Y: Cells>(xs: &X, i: usize, ys: &Y, j: usize) -> usize
    requires { i < length (X.ids xs.now) }
    ensures more { i < result }
    ensures within { result ≤ length (X.ids xs.now) }
    ensures free { IsLocal (X.ids xs.now) → j < length (Y.ids ys.now) → IsCell (slice_index (Y.ids ys.now) j)
        → first_leaf (slice_index (X.ids xs.now) i) + size_of (slice_index (X.ids xs.now) i)
        ≤ first_leaf (slice_index (Y.ids ys.now) j)
        → FirstEndBy (X.ids xs.now) result (first_leaf (slice_index (Y.ids ys.now) j)) }
{
    let len = xs.len();
    if j < ys.len() {
        return find_from(xs, i + 1, first_of(ys.id(j)));
    }
    len
}

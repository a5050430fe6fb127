//! The leaves that two lists of cells share, written to a list that grows or to a room.
ghost use Rattle.std.specs.Prelude.{◌≡◌, ◌≤◌, ◌↔◌, [], IfErr, IfOk, IsTrue};
ghost use Rattle.s2list.specs.Union.{IsLocal, has_leaf};
ghost use Rattle.s2list.specs.Sets.{intersection_of};
ghost use Rattle.s2list.specs.Output.{Writes};

use crate::ahead::{Fours, Leaps, Seek, is_short};
use crate::cells::Cells;
use crate::find::{end_of, find_from, first_of};
use crate::output::Copies;
use std::alloc::AllocError;

/// Writes the leaves that two unions share, and answers how many cells they are. Whichever list is behind is searched
/// for the cell of the other, in leaps, and the cells of one that lie in a cell of the other are written as one run. If
/// one is much shorter, the whole of the other is searched, for four of its cells at once.
pub fn write_intersection<X: Cells, Y: Cells, W: Copies<X> + Copies<Y>>(
    xs: &X,
    ys: &Y,
    out: &mut W,
) -> Result<usize, AllocError>
    requires { W.holds [] out.old out.old 0 }
    ensures place { W.place out.new ≡ W.place out.old }
    ensures made { IfOk result (λ n. IsLocal (X.ids xs.now) → IsLocal (Y.ids ys.now)
        → Writes (intersection_of (has_leaf (X.ids xs.now)) (has_leaf (Y.ids ys.now)))
        (λ list. W.holds list out.old out.new n) n) }
    ensures rest { IfOk result (λ n. W.rest out.old out.old 0 → W.rest out.old out.new n) }
    ensures sure { IfErr result (λ _. W.refuses) }
{
    if is_short(xs.len(), ys.len()) {
        return write_intersection_by(xs, ys, out, &mut Fours::new(), &mut Leaps);
    }
    if is_short(ys.len(), xs.len()) {
        return write_intersection_by(xs, ys, out, &mut Leaps, &mut Fours::new());
    }
    write_intersection_by(xs, ys, out, &mut Leaps, &mut Leaps)
}

/// As `write_intersection`, by these searches in `ys` and in `xs`.
fn write_intersection_by<
    X: Cells,
    Y: Cells,
    W: Copies<X> + Copies<Y>,
    S: Seek<X, Y>,
    T: Seek<Y, X>,
>(xs: &X, ys: &Y, out: &mut W, in_ys: &mut S, in_xs: &mut T) -> Result<usize, AllocError>
    requires { W.holds [] out.old out.old 0 }
    ensures place { W.place out.new ≡ W.place out.old }
    ensures made { IfOk result (λ n. IsLocal (X.ids xs.now) → IsLocal (Y.ids ys.now)
        → Writes (intersection_of (has_leaf (X.ids xs.now)) (has_leaf (Y.ids ys.now)))
        (λ list. W.holds list out.old out.new n) n) }
    ensures rest { IfOk result (λ n. W.rest out.old out.old 0 → W.rest out.old out.new n) }
    ensures sure { IfErr result (λ _. W.refuses) }
{
    let x_len = xs.len();
    let y_len = ys.len();
    let mut n = 0;
    let mut i = 0;
    let mut j = 0;
    while i < x_len && j < y_len {
        let x = xs.id(i);
        let y = ys.id(j);
        let x_first = first_of(x);
        let y_first = first_of(y);
        let x_end = end_of(x);
        let y_end = end_of(y);
        if x_end <= y_first {
            i = in_xs.seek(ys, j, xs, i, i + 1, y_first);
        } else if y_end <= x_first {
            j = in_ys.seek(xs, i, ys, j, j + 1, x_first);
        } else if is_within(x_first, x_end, y_first, y_end) {
            let next = find_from(xs, i + 1, y_end);
            n = out.put_run(n, xs, i, next)?;
            i = next;
            j += 1;
        } else {
            let next = find_from(ys, j + 1, x_end);
            n = out.put_run(n, ys, j, next)?;
            j = next;
            i += 1;
        }
    }
    Ok(n)
}

/// Whether the leaves from `first` to before `end` are among those from `lo` to before `hi`.
#[inline(always)]
fn is_within(first: u64, end: u64, lo: u64, hi: u64) -> bool
    ensures { IsTrue result ↔ ((lo ≤ first) × (end ≤ hi)) }
{
    lo <= first && end <= hi
}

//! Whether a union has the leaves of another: by a walk along both, in which whichever is behind leaps to where the
//! other one stands.
ghost use Rattle.std.specs.Prelude.{◌≡◌, ◌+◌, ◌-◌, ◌*◌, ◌^◌, ◌<◌, ◌≤◌, ◌↔◌};
ghost use Rattle.std.specs.Prelude.{ℕ, IsTrue, false, min, length, slice_index};
ghost use Rattle.s2cell.specs.Cell.{IsCell, first_leaf, size_of};
ghost use Rattle.s2list.specs.Union.{IsLocal, IsWithin, ShareSome, has_leaf};
ghost use Rattle.s2list.specs.Looks.{Alternates, FewForTurns, FewForUnion, KnownToHold, KnownToMeet};
ghost use Rattle.s2list.specs.declared.walk.Question.TheVariants.{Contains};
ghost use Rattle.s2list.specs.Working.Walk.{Decides, LeavesOpen, Lacks, Settles, OpenTo, After, FewLooks};

use crate::along::find_along;
use crate::cells::Cells;
use crate::find::{end_of, first_of};
use crate::looks::{Count, LookedAt, Uncounted};

/// Whether a union has all leaves of another. Its work follows how the two interleave, as `holds_all` says.
pub fn contains<X: Cells, Y: Cells>(whole: &X, part: &Y) -> bool
    ensures { IsLocal (X.ids whole.now) → IsLocal (Y.ids part.now)
        → (IsTrue result ↔ IsWithin (has_leaf (Y.ids part.now)) (has_leaf (X.ids whole.now))) }
{
    holds_all(whole, part, &mut Uncounted)
}

/// Whether two unions share a leaf. Its work follows how the two interleave, as `meets_any` says.
pub fn intersects<X: Cells, Y: Cells>(xs: &X, ys: &Y) -> bool
    ensures { IsLocal (X.ids xs.now) → IsLocal (Y.ids ys.now)
        → (IsTrue result ↔ ShareSome (has_leaf (X.ids xs.now)) (has_leaf (Y.ids ys.now))) }
{
    meets_any(xs, ys, &mut Uncounted)
}

/// A question about a union `xs` and a cell, or the cells of a union `ys`, of which one may decide it.
#[derive(Clone, Copy, PartialEq, Eq)]
pub enum Question {
    /// Whether `xs` has all leaves of them. A cell that it lacks decides.
    Contains,
    /// Whether they share a leaf. A cell that meets `xs` decides.
    Intersects,
}

/// Whether `xs` has all leaves of `ys`, counted: the counter counts on from where it is. Let unions have `m` and `n`
/// cells, which in the order of their first leaves are in turns `d` runs of each, up to where the answer is known. Then
/// it looks at most `8 (d + 1) (1 + log2((m + n) / (d + 1)))` times at a number of either list, the logarithm rounded
/// up: neither list is gone through. By the sizes alone it is at most `42 m (1 + k) + 42` times if the shorter list has
/// `m` cells and the longer one at most `(m + 1) 2^k`, and at most `8 (m + n) + 8` times. The ends of both are compared
/// first, and then their beginnings: they decide most questions about regions that lie apart.
pub fn holds_all<X: LookedAt<K>, Y: LookedAt<K>, K: Count>(xs: &X, ys: &Y, count: &mut K) -> bool
    ensures answer { IsLocal (X.ids xs.now) → IsLocal (Y.ids ys.now)
        → (IsTrue result ↔ IsWithin (has_leaf (Y.ids ys.now)) (has_leaf (X.ids xs.now))) }
    ensures looks { IsLocal (X.ids xs.now) → IsLocal (Y.ids ys.now) → (d i j : ℕ)
        → Alternates (X.ids xs.now) (Y.ids ys.now) d i j → KnownToHold (X.ids xs.now) (Y.ids ys.now) i j
        → FewForTurns (length (X.ids xs.now) + length (Y.ids ys.now)) d (K.looks count.new - K.looks count.old) }
    ensures sizes { IsLocal (X.ids xs.now) → IsLocal (Y.ids ys.now)
        → FewForUnion (length (X.ids xs.now)) (length (Y.ids ys.now)) (K.looks count.new - K.looks count.old) }
    ensures least { min (K.looks count.old) K.most ≤ K.looks count.new }
    ensures some { 0 < length (X.ids xs.now) → 0 < length (Y.ids ys.now)
        → min (K.looks count.old + 2) K.most ≤ K.looks count.new }
{
    if ends_later(ys, xs, count) {
        return false;
    }
    if begins_earlier(ys, xs, count) {
        return false;
    }
    !lacks_one(xs, ys, count)
}

/// Whether `xs` and `ys` share a leaf, counted, with the bounds of `holds_all`.
pub fn meets_any<X: LookedAt<K>, Y: LookedAt<K>, K: Count>(xs: &X, ys: &Y, count: &mut K) -> bool
    ensures answer { IsLocal (X.ids xs.now) → IsLocal (Y.ids ys.now)
        → (IsTrue result ↔ ShareSome (has_leaf (X.ids xs.now)) (has_leaf (Y.ids ys.now))) }
    ensures looks { IsLocal (X.ids xs.now) → IsLocal (Y.ids ys.now) → (d i j : ℕ)
        → Alternates (X.ids xs.now) (Y.ids ys.now) d i j → KnownToMeet (X.ids xs.now) (Y.ids ys.now) i j
        → FewForTurns (length (X.ids xs.now) + length (Y.ids ys.now)) d (K.looks count.new - K.looks count.old) }
    ensures sizes { IsLocal (X.ids xs.now) → IsLocal (Y.ids ys.now)
        → FewForUnion (length (X.ids xs.now)) (length (Y.ids ys.now)) (K.looks count.new - K.looks count.old) }
    ensures least { min (K.looks count.old) K.most ≤ K.looks count.new }
    ensures some { 0 < length (X.ids xs.now) → 0 < length (Y.ids ys.now)
        → min (K.looks count.old + 2) K.most ≤ K.looks count.new }
{
    is_decided(Question::Intersects, xs, ys, count)
}

/// Whether both have cells, and the last of `ys` ends after the last of `xs`.
#[inline(always)]
fn ends_later<X: LookedAt<K>, Y: LookedAt<K>, K: Count>(ys: &Y, xs: &X, count: &mut K) -> bool
    ensures answer { IsLocal (X.ids xs.now) → IsLocal (Y.ids ys.now) → IsTrue result
        → IsWithin (has_leaf (Y.ids ys.now)) (has_leaf (X.ids xs.now)) → ⊥ }
    ensures looks { K.looks count.new ≤ K.looks count.old + 2 }
    ensures none { length (X.ids xs.now) ≡ 0 → K.looks count.new ≡ K.looks count.old }
    ensures least { min (K.looks count.old) K.most ≤ K.looks count.new }
    ensures some { 0 < length (X.ids xs.now) → 0 < length (Y.ids ys.now)
        → min (K.looks count.old + 2) K.most ≤ K.looks count.new }
{
    let m = xs.len();
    let n = ys.len();
    if m == 0 || n == 0 {
        return false;
    }
    end_of(xs.look(m - 1, count)) < end_of(ys.look(n - 1, count))
}

/// Whether both have cells, and the first of `ys` begins before the first of `xs`.
#[inline(always)]
fn begins_earlier<X: LookedAt<K>, Y: LookedAt<K>, K: Count>(ys: &Y, xs: &X, count: &mut K) -> bool
    ensures answer { IsLocal (X.ids xs.now) → IsLocal (Y.ids ys.now) → IsTrue result
        → IsWithin (has_leaf (Y.ids ys.now)) (has_leaf (X.ids xs.now)) → ⊥ }
    ensures looks { K.looks count.new ≤ K.looks count.old + 2 }
    ensures none { length (X.ids xs.now) ≡ 0 → K.looks count.new ≡ K.looks count.old }
    ensures least { min (K.looks count.old) K.most ≤ K.looks count.new }
{
    if xs.len() == 0 || ys.len() == 0 {
        return false;
    }
    first_of(ys.look(0, count)) < first_of(xs.look(0, count))
}

/// Whether `xs` lacks a leaf of a cell of `ys`, by a walk. Its code is not where the ends are compared, since it saves
/// registers.
#[inline(never)]
fn lacks_one<X: LookedAt<K>, Y: LookedAt<K>, K: Count>(xs: &X, ys: &Y, count: &mut K) -> bool
    ensures found { IsLocal (X.ids xs.now) → IsLocal (Y.ids ys.now) → IsTrue result
        → (k : ℕ) × (k < length (Y.ids ys.now)) × Decides Contains (X.ids xs.now) (slice_index (Y.ids ys.now) k) }
    ensures none { IsLocal (X.ids xs.now) → IsLocal (Y.ids ys.now) → result ≡ false
        → (k : ℕ) → k < length (Y.ids ys.now) → LeavesOpen Contains (X.ids xs.now) (slice_index (Y.ids ys.now) k) }
    ensures looks { IsLocal (X.ids xs.now) → IsLocal (Y.ids ys.now) → (more : ℕ) → more ≤ 4
        → more ≤ 4 * length (X.ids xs.now)
        → FewLooks (λ k. Decides Contains (X.ids xs.now) (slice_index (Y.ids ys.now) k)) (X.ids xs.now) (Y.ids ys.now)
        (K.looks count.new - K.looks count.old + more) }
    ensures least { min (K.looks count.old) K.most ≤ K.looks count.new }
{
    is_decided(Question::Contains, xs, ys, count)
}

/// Whether a cell of `ys` decides the question. Each turn passes the cells of `xs` before the next of `ys`, and then
/// the cells of `ys` that the next of `xs` leaves open: those in it, or those before it.
#[inline(always)]
fn is_decided<X: LookedAt<K>, Y: LookedAt<K>, K: Count>(
    question: Question,
    xs: &X,
    ys: &Y,
    count: &mut K,
) -> bool
    ensures found { IsLocal (X.ids xs.now) → IsLocal (Y.ids ys.now) → IsTrue result
        → (k : ℕ) × (k < length (Y.ids ys.now)) × Decides question (X.ids xs.now) (slice_index (Y.ids ys.now) k) }
    ensures none { IsLocal (X.ids xs.now) → IsLocal (Y.ids ys.now) → result ≡ false
        → (k : ℕ) → k < length (Y.ids ys.now) → LeavesOpen question (X.ids xs.now) (slice_index (Y.ids ys.now) k) }
    ensures looks { IsLocal (X.ids xs.now) → IsLocal (Y.ids ys.now) → (more : ℕ) → more ≤ 4
        → more ≤ 4 * length (X.ids xs.now)
        → FewLooks (λ k. Decides question (X.ids xs.now) (slice_index (Y.ids ys.now) k)) (X.ids xs.now) (Y.ids ys.now)
        (K.looks count.new - K.looks count.old + more) }
    ensures least { min (K.looks count.old) K.most ≤ K.looks count.new }
    ensures some { 0 < length (X.ids xs.now) → 0 < length (Y.ids ys.now)
        → min (K.looks count.old + 2) K.most ≤ K.looks count.new }
{
    let m = xs.len();
    let n = ys.len();
    let mut i = 0;
    let mut j = 0;
    while j < n {
        let y = ys.look(j, count);
        i = find_along(xs, i, i, first_of(y), count);
        if i >= m {
            return lacks(question);
        }
        let x = xs.look(i, count);
        if settles(question, x, y) {
            return true;
        }
        j = find_along(ys, j, j + 1, open_to(question, x), count);
        i = after(question, i);
    }
    false
}

/// Whether a cell that has no leaf in `xs` decides.
#[inline(always)]
fn lacks(question: Question) -> bool
    ensures { result ≡ Lacks question }
{
    match question {
        Question::Contains => true,
        Question::Intersects => false,
    }
}

/// Whether the cell `y` decides, if `x` is the first cell of `xs` that ends after it begins.
#[inline(always)]
fn settles(question: Question, x: u64, y: u64) -> bool
    ensures { IsCell x → IsCell y → (IsTrue result ↔ Settles question x y) }
{
    match question {
        Question::Contains => !lies_in(y, x),
        Question::Intersects => first_of(x) < end_of(y),
    }
}

/// The leaf up to which the cell `x` of `xs` leaves cells of `ys` open.
#[inline(always)]
fn open_to(question: Question, x: u64) -> u64
    ensures { IsCell x → result ≡ OpenTo question x }
{
    match question {
        Question::Contains => end_of(x),
        Question::Intersects => first_of(x),
    }
}

/// The index of the first cell of `xs` that may meet a cell of `ys` after those that the one at index `i` leaves open.
#[inline(always)]
fn after(question: Question, i: usize) -> usize
    requires { i + 1 < 2 ^ 64 }
    ensures { result ≡ After question i }
{
    match question {
        Question::Contains => i + 1,
        Question::Intersects => i,
    }
}

/// Whether the cell with the identifier `y` lies in the one with the identifier `x`. Doesn't check that they are cells.
#[inline(always)]
pub(crate) fn lies_in(y: u64, x: u64) -> bool
    ensures { IsCell x → IsCell y → (IsTrue result ↔ ((first_leaf x ≤ first_leaf y)
        × (first_leaf y + size_of y ≤ first_leaf x + size_of x))) }
{
    first_of(x) <= first_of(y) && end_of(y) <= end_of(x)
}

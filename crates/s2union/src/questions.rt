//! Whether a union has the leaves of a cell or of another union, and which of its cells share a leaf with a cell.
ghost use Rattle.std.specs.Prelude.{◌≡◌, ◌≤◌, ◌<◌, ◌↔◌, ℕ, IsTrue, min, length, take, drop, All, true};
ghost use Rattle.s2cell.specs.Cell.{IsCell, covers};
ghost use Rattle.s2list.specs.Union.{IsLocal, has_leaf, IsWithin, ShareSome};
ghost use Rattle.s2list.specs.Looks.{FewForUnion};
ghost use Rattle.s2list.specs.Search.{IsRunAt};

use crate::few::{holds_few, meets_few};
use crate::search::CellsLookedAt;
use crate::union::CellUnion;
use s2cell::CellId;
use s2list::{Count, Uncounted, is_short};

impl CellUnion {
    /// Whether it has all leaves of the cell. Logarithmic in the number of its cells. S2 calls it `Contains`.
    pub fn contains_cell(&self, cell: CellId) -> bool
        ensures { IsTrue result ↔ IsWithin (covers cell) (has_leaf self.now.cells) }
    {
        s2list::contains_cell(&self.list(), cell)
    }

    /// Whether it has a leaf of the cell. Logarithmic in the number of its cells. S2 calls it `Intersects`.
    pub fn intersects_cell(&self, cell: CellId) -> bool
        ensures { IsTrue result ↔ ShareSome (covers cell) (has_leaf self.now.cells) }
    {
        s2list::intersects_cell(&self.list(), cell)
    }

    /// Whether it has all leaves of the other union; stops by the third cell after the first that it lacks. At most
    /// `m (1 + log (n / m))` steps in proportion, if the shorter list has `m` cells and the longer one `n`. S2 calls it
    /// `Contains`.
    pub fn contains(&self, other: &CellUnion) -> bool
        ensures { IsTrue result ↔ IsWithin (has_leaf other.now.cells) (has_leaf self.now.cells) }
    {
        holds_all(&self.list(), &other.list(), &mut Uncounted)
    }

    /// Whether the two share a leaf; stops by the third cell after the first with a shared leaf. As many steps as
    /// `contains`. S2 calls it `Intersects`.
    pub fn intersects(&self, other: &CellUnion) -> bool
        ensures { IsTrue result ↔ ShareSome (has_leaf self.now.cells) (has_leaf other.now.cells) }
    {
        meets_any(&self.list(), &other.list(), &mut Uncounted)
    }

    /// The cells of the union that share a leaf with the cell. They are one run of its list. Logarithmic in the size of
    /// the union.
    pub fn cells_at(&self, cell: CellId) -> &[CellId]
        ensures run { (first : ℕ) × IsRunAt self.now.cells cell first (length result.now)
            × (result.now ≡ take (length result.now) (drop first self.now.cells)) }
        ensures leaves { (x : ℕ) → covers cell x ≡ true → has_leaf result.now x ≡ has_leaf self.now.cells x }
        ensures sharing { All (λ c. ShareSome (covers c) (covers cell)) result.now }
        ensures cells { All IsCell result.now }
    {
        let (start, count) = s2list::cells_at(&self.list(), cell);
        &self.cells()[start..start + count]
    }
}

/// Whether `xs` has all leaves of `ys`.
fn holds_all<C: CellsLookedAt<K>, K: Count>(xs: &C, ys: &C, count: &mut K) -> bool
    requires x_local { IsLocal (C.ids xs.now) }
    requires y_local { IsLocal (C.ids ys.now) }
    requires count { K.looks count.old ≡ 0 }
    ensures answer { IsTrue result ↔ IsWithin (has_leaf (C.ids ys.now)) (has_leaf (C.ids xs.now)) }
    ensures looks { FewForUnion (length (C.ids xs.now)) (length (C.ids ys.now)) (K.looks count.new) }
    ensures least { 0 < length (C.ids xs.now) → 0 < length (C.ids ys.now) → min 2 K.most ≤ K.looks count.new }
{
    if is_short(ys.len(), xs.len()) {
        return holds_few(xs, ys, count);
    }
    s2list::holds_all(xs, ys, count)
}

/// Whether `xs` and `ys` share a leaf.
fn meets_any<C: CellsLookedAt<K>, K: Count>(xs: &C, ys: &C, count: &mut K) -> bool
    requires x_local { IsLocal (C.ids xs.now) }
    requires y_local { IsLocal (C.ids ys.now) }
    requires count { K.looks count.old ≡ 0 }
    ensures answer { IsTrue result ↔ ShareSome (has_leaf (C.ids xs.now)) (has_leaf (C.ids ys.now)) }
    ensures looks { FewForUnion (length (C.ids xs.now)) (length (C.ids ys.now)) (K.looks count.new) }
    ensures least { 0 < length (C.ids xs.now) → 0 < length (C.ids ys.now) → min 2 K.most ≤ K.looks count.new }
{
    if is_short(ys.len(), xs.len()) {
        return meets_few(xs, ys, count);
    }
    if is_short(xs.len(), ys.len()) {
        return meets_few(ys, xs, count);
    }
    s2list::meets_any(xs, ys, count)
}

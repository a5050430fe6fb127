//! The set operations, by the walks of `s2list`; the union of lists of similar length has one of its own. How a
//! difference is made is in difference.rt.
ghost use Rattle.std.specs.Prelude.{◌≡◌, ◌≤◌, ◌<◌, ◌+◌, ◌||◌, ◌&&◌, ◌*◌, ◌++◌};
ghost use Rattle.std.specs.Prelude.{◌↔◌, All, slice_index, ℕ, length, []};
ghost use Rattle.std.specs.Prelude.{IfErr, IfOk, List, OnOk, not, IsTrue};
ghost use Rattle.std.specs.Vec.{vec_len, vec_capacity};
ghost use Rattle.s2cell.specs.Cell.{first_leaf};
ghost use Rattle.s2list.specs.Union.{IsLocal, IsNormalForm, has_leaf};
ghost use Rattle.s2list.specs.Sets.{union_of, symmetric_difference_of, intersection_of, difference_of};
ghost use Rattle.s2list.specs.Packed.{IsPacked};
ghost use Rattle.s2union.specs.Working.Tail.{Continues};

use crate::difference::put_difference;
use crate::fault::UnionFault;
use crate::grown::Grown;
use crate::normalising::add_reserved;
use crate::union::CellUnion;
use s2cell::CellId;
use s2list::{CellList, is_short, write_intersection, write_symmetric_difference, write_union};
use std::alloc::AllocError;

impl CellUnion {
    /// The leaves of either. One pass over both lists; if one is much shorter, leaps from one of its cells to the next,
    /// and whole copies of what lies between them. Takes room for the cells of both at the start. Refuses only if it is
    /// out of memory. S2 calls it `Union`.
    pub fn union(&self, other: &CellUnion) -> Result<CellUnion, AllocError>
        ensures local { IfOk result (λ u. IsLocal u.cells) }
        ensures leaves { IfOk result (λ u. (x : ℕ) →
            has_leaf u.cells x ≡ (has_leaf self.now.cells x || has_leaf other.now.cells x)) }
        ensures normal { IfOk result (λ u. IsNormalForm
            (union_of (has_leaf self.now.cells) (has_leaf other.now.cells)) u.cells) }
    {
        let room = self.cells.len() + other.cells.len();
        let mut cells = Vec::with_capacity(*self.cells.allocator(), room)?;
        put_union(&mut cells, self.cells(), other.cells())?;
        Ok(CellUnion { cells })
    }

    /// The leaves that both have. One walk along both lists, which leaps over what the other lacks; if one is much
    /// shorter, a search for each of its cells. Whole copies of what is shared. Takes memory for the cells of the
    /// result. Refuses only if it is out of memory. S2 calls it `Intersection`.
    pub fn intersection(&self, other: &CellUnion) -> Result<CellUnion, AllocError>
        ensures local { IfOk result (λ u. IsLocal u.cells) }
        ensures leaves { IfOk result (λ u. (x : ℕ) →
            has_leaf u.cells x ≡ (has_leaf self.now.cells x && has_leaf other.now.cells x)) }
        ensures normal { IfOk result (λ u. IsNormalForm
            (intersection_of (has_leaf self.now.cells) (has_leaf other.now.cells)) u.cells) }
    {
        let mut cells = Vec::new(*self.cells.allocator());
        put_intersection(&mut cells, self.cells(), other.cells())?;
        Ok(CellUnion { cells })
    }

    /// The leaves of this union that the other doesn't have. One walk along both lists, which leaps over what stays and
    /// over what goes; if this one is much shorter, a search for each of its cells. Whole copies of what lies between,
    /// and the cells of the gaps. Takes memory for the cells of the result. Refuses only if it is out of memory. S2
    /// calls it `Difference`.
    pub fn difference(&self, other: &CellUnion) -> Result<CellUnion, AllocError>
        ensures local { IfOk result (λ u. IsLocal u.cells) }
        ensures leaves { IfOk result (λ u. (x : ℕ) →
            has_leaf u.cells x ≡ (has_leaf self.now.cells x && not (has_leaf other.now.cells x))) }
        ensures normal { IfOk result (λ u. IsNormalForm
            (difference_of (has_leaf self.now.cells) (has_leaf other.now.cells)) u.cells) }
    {
        // Only memory can run out: no list has more cells than this limit.
        match self.difference_up_to(other, usize::MAX) {
            Ok(union) => Ok(union),
            Err(_) => Err(AllocError),
        }
    }

    /// The leaves that only one of the two has. One walk along both lists. Takes memory for the cells of the result.
    /// Refuses only if it is out of memory. S2 calls it `SymmetricDifference` for polygons, and has no such call for
    /// unions of cells.
    pub fn symmetric_difference(&self, other: &CellUnion) -> Result<CellUnion, AllocError>
        ensures local { IfOk result (λ u. IsLocal u.cells) }
        ensures leaves { IfOk result (λ u. (x : ℕ) →
            has_leaf u.cells x ≡ symmetric_difference_of (has_leaf self.now.cells) (has_leaf other.now.cells) x) }
        ensures normal { IfOk result (λ u. IsNormalForm
            (symmetric_difference_of (has_leaf self.now.cells) (has_leaf other.now.cells)) u.cells) }
    {
        let mut cells = Vec::new(*self.cells.allocator());
        put_symmetric_difference(&mut cells, self.cells(), other.cells())?;
        Ok(CellUnion { cells })
    }

    /// The difference, if it has at most `limit` cells. Stops as soon as it has made more, so it takes memory for
    /// `limit` cells and those that fill one gap (fewer than 200), however long the whole difference would be.
    ///
    /// Answers `TooMany` only if the whole difference has more than `limit` cells. S2 has no such call.
    pub fn difference_up_to(&self, other: &CellUnion, limit: usize) -> Result<CellUnion, UnionFault>
        ensures local { IfOk result (λ u. IsLocal u.cells) }
        ensures leaves { IfOk result (λ u. (x : ℕ) →
            has_leaf u.cells x ≡ (has_leaf self.now.cells x && not (has_leaf other.now.cells x))) }
        ensures normal { IfOk result (λ u. IsNormalForm
            (difference_of (has_leaf self.now.cells) (has_leaf other.now.cells)) u.cells) }
        ensures within { IfOk result (λ u. length u.cells ≤ limit) }
        ensures many { IfErr result (λ fault. fault ≡ UnionFault.TooMany → (u : List ℕ) →
            IsNormalForm (difference_of (has_leaf self.now.cells) (has_leaf other.now.cells)) u → limit < length u) }
    {
        let mut cells = Vec::new(*self.cells.allocator());
        put_difference(&mut cells, self.cells(), other.cells(), limit)?;
        Ok(CellUnion { cells })
    }
}

/// Puts the leaves that only one of `xs` and `ys` has into an empty list.
fn put_symmetric_difference(
    list: &mut Vec<CellId>,
    xs: &[CellId],
    ys: &[CellId],
) -> Result<(), AllocError>
    requires empty { list.old.items ≡ [] }
    requires x_local { IsLocal xs.now }
    requires y_local { IsLocal ys.now }
    ensures local { OnOk result (IsLocal list.new.items) }
    ensures leaves { OnOk result ((x : ℕ) → has_leaf list.new.items x
        ≡ symmetric_difference_of (has_leaf xs.now) (has_leaf ys.now) x) }
{
    let xs = CellList { cells: xs };
    let ys = CellList { cells: ys };
    let mut grown = Grown {
        list,
        most: usize::MAX,
    };
    write_symmetric_difference(&xs, &ys, &mut grown)?;
    Ok(())
}

/// Puts the leaves that `xs` and `ys` share into an empty list.
fn put_intersection(list: &mut Vec<CellId>, xs: &[CellId], ys: &[CellId]) -> Result<(), AllocError>
    requires empty { list.old.items ≡ [] }
    requires x_local { IsLocal xs.now }
    requires y_local { IsLocal ys.now }
    ensures local { OnOk result (IsLocal list.new.items) }
    ensures leaves { OnOk result ((x : ℕ) → has_leaf list.new.items x ≡ (has_leaf xs.now x && has_leaf ys.now x)) }
{
    let xs = CellList { cells: xs };
    let ys = CellList { cells: ys };
    let mut grown = Grown {
        list,
        most: usize::MAX,
    };
    write_intersection(&xs, &ys, &mut grown)?;
    Ok(())
}

/// Puts the leaves of `xs` and of `ys` into an empty list that has room for the cells of both.
fn put_union(list: &mut Vec<CellId>, xs: &[CellId], ys: &[CellId]) -> Result<(), AllocError>
    requires empty { list.old.items ≡ [] }
    requires room { length xs.now + length ys.now ≤ vec_capacity list.old }
    requires x_local { IsLocal xs.now }
    requires y_local { IsLocal ys.now }
    ensures local { OnOk result (IsLocal list.new.items) }
    ensures leaves { OnOk result ((x : ℕ) → has_leaf list.new.items x ≡ (has_leaf xs.now x || has_leaf ys.now x)) }
{
    if is_short(xs.len(), ys.len()) || is_short(ys.len(), xs.len()) {
        return put_union_by_leaps(list, xs, ys);
    }
    put_union_by_steps(list, xs, ys);
    Ok(())
}

/// As `put_union`, by leaps from one interval of leaves to the next.
fn put_union_by_leaps(
    list: &mut Vec<CellId>,
    xs: &[CellId],
    ys: &[CellId],
) -> Result<(), AllocError>
    requires empty { list.old.items ≡ [] }
    requires x_local { IsLocal xs.now }
    requires y_local { IsLocal ys.now }
    ensures local { OnOk result (IsLocal list.new.items) }
    ensures leaves { OnOk result ((x : ℕ) → has_leaf list.new.items x ≡ (has_leaf xs.now x || has_leaf ys.now x)) }
{
    let xs = CellList { cells: xs };
    let ys = CellList { cells: ys };
    let mut grown = Grown {
        list,
        most: usize::MAX,
    };
    write_union(&xs, &ys, &mut grown)?;
    Ok(())
}

/// Puts the leaves of `xs` and of `ys` into an empty list, cell by cell of both.
fn put_union_by_steps(list: &mut Vec<CellId>, xs: &[CellId], ys: &[CellId])
    requires empty { list.old.items ≡ [] }
    requires room { length xs.now + length ys.now ≤ vec_capacity list.old }
    requires x_local { IsLocal xs.now }
    requires y_local { IsLocal ys.now }
    ensures local { IsLocal list.new.items }
    ensures leaves { (x : ℕ) → has_leaf list.new.items x ≡ (has_leaf xs.now x || has_leaf ys.now x) }
{
    let mut i = 0;
    let mut j = 0;
    while i < xs.len() && j < ys.len() {
        // A choice and two sums in place of branches, which the processor would guess wrong half of the time.
        let x = xs[i];
        let y = ys[j];
        let is_x = x < y;
        add_reserved(list, if is_x { x } else { y });
        i += is_x as usize;
        j += !is_x as usize;
    }
    if i < xs.len() {
        add_run(list, &xs[i..]);
    } else {
        add_run(list, &ys[j..]);
    }
}

/// Adds the leaves of packed cells to a list of packed cells that begin before them. The list has room for all.
///
/// Once the last three cells of the list are the last three taken from `cells`, the rest is copied whole: a family that
/// the copy completed would be a family in `cells` too.
fn add_run(list: &mut Vec<CellId>, cells: &[CellId])
    requires packed { IsPacked list.old.items }
    requires run { IsPacked cells.now }
    requires starts { 0 < length cells.now → All (λ c. 2 * first_leaf c < slice_index cells.now 0) list.old.items }
    requires room { vec_len list.old + length cells.now ≤ vec_capacity list.old }
    ensures packed { IsPacked list.new.items }
    ensures leaves { (x : ℕ) → has_leaf list.new.items x ≡ (has_leaf list.old.items x || has_leaf cells.now x) }
    ensures starts { (n : ℕ) → All (λ c. 2 * first_leaf c < n) list.old.items → All (λ c. c < n) cells.now →
        All (λ c. 2 * first_leaf c < n) list.new.items }
    ensures few { vec_len list.new ≤ vec_len list.old + length cells.now }
    ensures room { vec_capacity list.old ≤ vec_capacity list.new }
{
    let mut i = 0;
    while i < cells.len() && !continues(list.as_slice(), cells, i) {
        add_reserved(list, cells[i]);
        i += 1;
    }
    extend_reserved(list, &cells[i..]);
}

/// Whether the last three cells of the list, or all if it has fewer, are the cells of `cells` just before index `i`.
fn continues(list: &[CellId], cells: &[CellId], i: usize) -> bool
    requires { i ≤ length cells.now }
    ensures { IsTrue result ↔ Continues list.now cells.now i }
{
    let n = list.len().min(3);
    n <= i && list[list.len() - n..] == cells[i - n..i]
}

/// Appends cells to a list that has room for them.
pub(crate) fn extend_reserved(list: &mut Vec<CellId>, cells: &[CellId])
    requires { vec_len list.old + length cells.now ≤ vec_capacity list.old }
    ensures items { list.new.items ≡ list.old.items ++ cells.now }
    ensures room { vec_capacity list.old ≤ vec_capacity list.new }
{
    if list.extend_from_slice(cells).is_err() {
        unreachable!();
    }
}

/// Appends cells to a list, which takes memory if it needs to. Pushes a single cell, which is faster than a copy.
#[inline(always)]
pub(crate) fn extend(list: &mut Vec<CellId>, cells: &[CellId]) -> Result<(), AllocError>
    ensures { OnOk result (list.new.items ≡ list.old.items ++ cells.now) }
{
    if cells.len() == 1 {
        list.push(cells[0])?;
        Ok(())
    } else {
        list.extend_from_slice(cells)
    }
}

//! The type of a normalized union: how one is made, its list of cells, and the traits that Rust's own collections have.
ghost use Rattle.std.specs.Prelude.{◌≡◌, ◌≤◌, ◌↔◌, ◌<◌, ◌^◌, ◌+◌, IsTrue, length, []};
ghost use Rattle.std.specs.Prelude.{IfOk, ℕ, nat_eq, vec_capacity};
ghost use Rattle.std.specs.Cmp.{on_equiv, on_per, partial_equiv_from_equiv};
ghost use Rattle.std.specs.Cmp.Lexicographic.{nat_list_eq_equiv, pointwise};
ghost use Rattle.std.specs.Global.{Global};
ghost use Rattle.std.specs.Hash as fed;
ghost use Rattle.std.specs.Iterator.Runs.{EveryRun, ItemsAre, ItemsMapTo};
ghost use Rattle.std.specs.Slice.Iter.{iter_rest, iter_steps};
ghost use Rattle.std.specs.Vec.Iter.{into_iter_items, into_iter_len, into_iter_steps};
ghost use Rattle.std.specs.Cmp.Rules.{hashing};
ghost use Rattle.std.proofs.Common.{rules};
ghost use Rattle.s2cell.specs.Cell.{first_leaf, size_of};
ghost use Rattle.s2list.specs.Union.{IsLocal, IsNormalForm, IsShortest, has_leaf, between};
ghost use Rattle.s2list.specs.Count.{count_below};

use crate::grown::Grown;
use crate::normalising::normalise;
use s2cell::{CellId, LEAVES};
use s2list::{CellList, put_gap};
use std::alloc::{AllocError, Global};
use std::hash::{Hash, Hasher};
use std::marker::Model;
use std::{fmt, slice, vec};

/// A set of leaves, as the one normalized list of cells that covers it.
///
/// The cells ascend by identifier and share no leaf, and no four of them are the children of one parent. Cells of level
/// 0, the faces, have no parent and are never merged. Unions of the same leaves have the same cells, whatever they were
/// made from. S2 calls it `S2CellUnion`.
///
/// There is no `Default` and no `FromIterator` without an allocator: [`empty`](CellUnion::empty) and
/// [`from_cells`](CellUnion::from_cells) take their place.
///
/// Its methods, and the files that have them:
///
/// - made, here: `empty`, `from_normalized`, `from_cells` (which is `normalise` of normalising.rt), `from_range`,
///   `try_clone`; elsewhere: `with_room` (apply.rt)
/// - its list, here: `cells`, `iter`, `len`, `room`, `is_empty`, `leaf_count`, `into_cells`, `==`, `Hash`, `Debug`,
///   `for cell in`
/// - questions: `contains_cell`, `intersects_cell`, `contains`, `intersects`, `cells_at` (questions.rt), `cursor`
///   (cursor.rt)
/// - set operations: `union`, `intersection`, `difference`, `difference_up_to`, `symmetric_difference` (sets.rt)
/// - changes: `can_apply`, `apply_into`, `apply`, `splice` and `copy_from` (apply.rt)
/// - cut to levels: `denormalized`, `denormalized_len` (denorm.rt)
#[derive(Drop)]
pub struct CellUnion {
    pub(crate) cells: Vec<CellId>,
}

impl Model for CellUnion {
    ghost use Rattle.std.specs.Vec.{vec_capacity};
    ghost use Rattle.s2list.specs.Union.{Union, IsLocal};

    ghost Value = { Union };

    ghost view = { λ u. record { cells = u.cells.items; room = vec_capacity u.cells } };

    ghost invariant = { λ u. IsLocal u.cells.items };
}

impl CellUnion {
    /// The union without leaves. Takes no memory.
    pub fn empty(alloc: Global) -> CellUnion
        ensures cells { result.cells ≡ [] }
        ensures room { result.room ≡ 0 }
    {
        CellUnion {
            cells: Vec::new(alloc),
        }
    }

    /// The union whose list is this one, which must be normalized already. Looks at no cell and takes no memory. S2:
    /// `FromNormalized`.
    pub fn from_normalized(cells: Vec<CellId>) -> CellUnion
        requires { IsLocal cells.items }
        ensures value { result.cells ≡ cells.items }
        ensures room { result.room ≡ vec_capacity cells }
    {
        CellUnion { cells }
    }

    /// The union of the cells of a list, in any order. Cells may overlap, and a cell may come more than once.
    ///
    /// The list is used for the result, and no memory is taken. Is [`normalise`](crate::normalise) by S2's name,
    /// `S2CellUnion(cell_ids)`.
    pub fn from_cells(cells: Vec<CellId>) -> CellUnion
        ensures leaves { (x : ℕ) → has_leaf result.cells x ≡ has_leaf cells.items x }
        ensures local { IsLocal result.cells }
        ensures normal { IsNormalForm (has_leaf cells.items) result.cells }
        ensures shortest { IsShortest (has_leaf cells.items) result.cells }
        ensures room { result.room ≡ vec_capacity cells }
    {
        normalise(cells)
    }

    /// All leaves from the first of `x` to the last of `y`, across faces too. Takes a few steps for each cell of the
    /// result. Refuses only if it is out of memory. S2 has `InitFromMinMax` for leaves.
    pub fn from_range(alloc: Global, x: CellId, y: CellId) -> Result<CellUnion, AllocError>
        requires { first_leaf x < first_leaf y + size_of y }
        ensures local { IfOk result (λ u. IsLocal u.cells) }
        ensures leaves { IfOk result (λ u. (n : ℕ) →
            has_leaf u.cells n ≡ between (first_leaf x) (first_leaf y + size_of y) n) }
        ensures normal { IfOk result (λ u. IsNormalForm (between (first_leaf x) (first_leaf y + size_of y)) u.cells) }
    {
        let mut cells = Vec::new(alloc);
        let mut grown = Grown {
            list: &mut cells,
            most: usize::MAX,
        };
        put_gap(&mut grown, 0, x.first_leaf(), y.end_leaf())?;
        Ok(CellUnion { cells })
    }

    /// A second union with the same cells. Fails only if there is no memory.
    pub fn try_clone(&self) -> Result<CellUnion, AllocError>
        ensures { IfOk result (λ u. u.cells ≡ self.now.cells) }
    {
        let cells = Vec::from_slice(*self.cells.allocator(), self.cells())?;
        Ok(CellUnion { cells })
    }

    /// The cells, ascending: the normal form of the leaves.
    pub fn cells(&self) -> &[CellId]
        ensures value { result.now ≡ self.now.cells }
        ensures local { IsLocal self.now.cells }
        ensures normal { IsNormalForm (has_leaf self.now.cells) self.now.cells }
    {
        self.cells.as_slice()
    }

    /// The cells by their indexes.
    pub(crate) fn list(&self) -> CellList<'_>
        ensures value { result.cells.now ≡ self.now.cells }
        ensures local { IsLocal self.now.cells }
    {
        CellList {
            cells: self.cells(),
        }
    }

    /// The cells, ascending. S2: `begin` and `end`.
    pub fn iter(&self) -> slice::Iter<'_, CellId>
        ensures cells { iter_rest result ≡ self.now.cells }
        ensures few { length (iter_rest result) < 2 ^ 64 }
        ensures items { EveryRun (iter_steps {A = ℕ}) (λ p. ItemsMapTo p (λ x. x.now) (iter_rest p.from)) }
    {
        self.cells().iter()
    }

    /// How many cells it has.
    pub fn len(&self) -> usize
        ensures { result ≡ length self.now.cells }
    {
        self.cells.len()
    }

    /// How many cells its list has room for.
    pub fn room(&self) -> usize
        ensures { result ≡ self.now.room }
    {
        self.cells.capacity()
    }

    /// Whether it has no cells, and so no leaves.
    pub fn is_empty(&self) -> bool
        ensures { IsTrue result ↔ (self.now.cells ≡ []) }
    {
        self.cells.is_empty()
    }

    /// How many leaves it has, out of `6 * 4^30`. Linear in its cells.
    pub fn leaf_count(&self) -> u64
        ensures value { result ≡ count_below (has_leaf self.now.cells) LEAVES }
        ensures most { result ≤ LEAVES }
    {
        s2list::leaf_count(&self.list())
    }

    /// The list itself, with its room.
    pub fn into_cells(self) -> Vec<CellId>
        ensures value { result.items ≡ self.cells }
        ensures room { vec_capacity result ≡ self.room }
        ensures local { IsLocal self.cells }
    {
        let CellUnion { cells } = self;
        cells
    }
}

impl<'a> IntoIterator for &'a CellUnion {
    type Item = &'a CellId;

    type IntoIter = slice::Iter<'a, CellId>;

    ghost into_iter_gives = { λ u it. (iter_rest it ≡ u.now.cells) × (length (iter_rest it) < 2 ^ 64)
        × EveryRun (iter_steps {A = ℕ}) (λ p. ItemsMapTo p (λ x. x.now) (iter_rest p.from)) };

    fn into_iter(self) -> slice::Iter<'a, CellId> {
        self.iter()
    }
}

impl IntoIterator for CellUnion {
    type Item = CellId;

    type IntoIter = vec::IntoIter<CellId>;

    ghost into_iter_gives = { λ u it. (into_iter_items it ≡ u.cells) × (into_iter_len it < 2 ^ 64)
        × EveryRun (into_iter_steps {X = ℕ} {Z = Global}) (λ p. ItemsAre p (into_iter_items p.from)) };

    fn into_iter(self) -> vec::IntoIter<CellId> {
        self.into_cells().into_iter()
    }
}

/// Unions are equal if their lists are, which is so exactly if they have the same leaves: each set of leaves has one
/// list. S2: `==`.
impl PartialEq for CellUnion {
    ghost eq = { λ u v. pointwise nat_eq u.cells v.cells };

    ghost laws = { on_per (λ u. u.cells) (partial_equiv_from_equiv nat_list_eq_equiv) };

    fn eq(&self, other: &CellUnion) -> bool {
        self.cells() == other.cells()
    }
}

impl Eq for CellUnion {
    ghost laws = { on_equiv (λ u. u.cells) nat_list_eq_equiv };
}

impl Hash for CellUnion {
    ghost hash_input = { λ u. fed.slice fed.u64 u.cells };

    ghost respects_eq = { Prim.search (hashing, rules) };

    fn hash<H: Hasher>(&self, state: &mut H) {
        self.cells().hash(state);
    }
}

impl fmt::Debug for CellUnion {
    fn fmt<W: fmt::Write>(&self, f: &mut fmt::Formatter<W>) -> fmt::Result {
        f.debug_list().entries(self.cells()).finish()
    }
}

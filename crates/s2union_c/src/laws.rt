//! Laws about the definitions, and what the calls for C have in common with those of `CellUnion`.
ghost use Rattle.std.specs.Prelude.{◌≡◌, ◌<◌, ◌≤◌, ℕ, ℤ, Bool, IfOk, List, drop, length, take};
ghost use Rattle.s2list.specs.Union.{IsLocal, IsNormalForm, has_leaf};
ghost use Rattle.s2list.specs.Room.{PutsOne};
ghost use Rattle.s2file.specs.File.{file_ids};
ghost use Rattle.s2room.specs.Normalising.{IsNormalisedIn};
ghost use Rattle.s2cover.specs.Coverings.{inner_set, outer_set};
ghost use Rattle.s2cover.specs.Cut.{cells_kept};
ghost use Rattle.s2union_c.specs.Laws.{AreCutTo, HasItsNumbers};
ghost use Rattle.s2union_c.specs.Results.{KeepsRest, MadeInPlace};
ghost use Rattle.s2union_c.specs.Status.{made, no_room};

use crate::sets::{s2u_difference, s2u_intersection, s2u_symmetric_difference, s2u_union};
use s2cell::GREATEST_LEVEL;
use s2union::CellUnion;
use std::alloc::AllocError;

/// The file that `s2u_encode` writes of a list has the list's numbers. Questions about a file are about its numbers.
pub fn file_of_list()
    ensures { (ids : List ℕ) → HasItsNumbers ids }
{}

/// The normal form that s2room puts into a room is what a call for C makes there, and the other way round; the call
/// answers by its status whether the list fits.
pub fn one_room()
    ensures made { (S : ℕ → Bool) (status : ℤ) (old new : List ℕ) (len : ℕ) → PutsOne (IsNormalForm S) old new len
        → (len ≤ length old → status ≡ made) → (length old < len → status ≡ no_room)
        → MadeInPlace status (IsNormalForm S) old new len }
    ensures put { (S : ℕ → Bool) (status : ℤ) (old new : List ℕ) (len : ℕ)
        → MadeInPlace status (IsNormalForm S) old new len → PutsOne (IsNormalForm S) old new len }
{}

/// Room for the bound of a call is enough, whatever its lists are, and what lies behind the bound stays as it was. Room
/// for the length that a call tells is enough for a second one that makes the same set.
pub fn enough_room()
    ensures bound { (most : ℕ) (status : ℤ) (old new : List ℕ) (len : ℕ) → KeepsRest status old new len → len ≤ most
        → (drop most new ≡ drop most old) × (most ≤ length old → status ≡ made) }
    ensures again { (S : ℕ → Bool) (status next : ℤ) (old new room after : List ℕ) (len again : ℕ)
        → MadeInPlace status (IsNormalForm S) old new len → MadeInPlace next (IsNormalForm S) room after again
        → len ≤ length room → (next ≡ made) × (again ≡ len) }
{}

/// `s2u_normalise` gives what `s2u_decode`, `s2u_outer_of` and `s2u_inner_of` give: of the numbers of a file, which are
/// the union as they are if `s2u_file_check` answers 1; of a union's cells, with those of `s2u_parents` in place of the
/// deeper ones; and of the cells that are not deeper.
pub fn by_normalising()
    ensures decoded { (bytes xs : List ℕ) → IsNormalForm (has_leaf (file_ids bytes)) xs
        → (IsLocal (file_ids bytes) → file_ids bytes ≡ xs)
        × ((new : List ℕ) (len : ℕ) → IsNormalisedIn (file_ids bytes) new len → take len new ≡ xs) }
    ensures outer { (level : ℕ) (ids xs cut new : List ℕ) (len : ℕ) → level ≤ GREATEST_LEVEL → IsLocal ids
        → IsNormalForm (outer_set (has_leaf ids) level) xs → AreCutTo level ids cut → IsNormalisedIn cut new len
        → take len new ≡ xs }
    ensures inner { (level : ℕ) (ids xs new : List ℕ) (len : ℕ) → level ≤ GREATEST_LEVEL → IsLocal ids
        → IsNormalForm (inner_set (has_leaf ids) level) xs → IsNormalisedIn (cells_kept level ids) new len
        → take len new ≡ xs }
{}

/// `s2u_union` gives the cells of `CellUnion::union`.
pub fn same_union(
    x: &CellUnion,
    y: &CellUnion,
    xs: &[u64],
    ys: &[u64],
    out: &mut [u64],
    len: &mut usize,
) -> Result<(CellUnion, i32), AllocError>
    requires xs { xs.now ≡ x.now.cells }
    requires ys { ys.now ≡ y.now.cells }
    ensures { IfOk result (λ r. MadeInPlace r.1 (λ list. list ≡ r.0.cells) out.old out.new len.new) }
{
    let _ = x.cells();
    let _ = y.cells();
    let union = x.union(y)?;
    Ok((union, s2u_union(xs, ys, out, len)))
}

/// `s2u_intersection` gives the cells of `CellUnion::intersection`.
pub fn same_intersection(
    x: &CellUnion,
    y: &CellUnion,
    xs: &[u64],
    ys: &[u64],
    out: &mut [u64],
    len: &mut usize,
) -> Result<(CellUnion, i32), AllocError>
    requires xs { xs.now ≡ x.now.cells }
    requires ys { ys.now ≡ y.now.cells }
    ensures { IfOk result (λ r. MadeInPlace r.1 (λ list. list ≡ r.0.cells) out.old out.new len.new) }
{
    let _ = x.cells();
    let _ = y.cells();
    let union = x.intersection(y)?;
    Ok((union, s2u_intersection(xs, ys, out, len)))
}

/// `s2u_difference` gives the cells of `CellUnion::difference`.
pub fn same_difference(
    x: &CellUnion,
    y: &CellUnion,
    xs: &[u64],
    ys: &[u64],
    out: &mut [u64],
    len: &mut usize,
) -> Result<(CellUnion, i32), AllocError>
    requires xs { xs.now ≡ x.now.cells }
    requires ys { ys.now ≡ y.now.cells }
    ensures { IfOk result (λ r. MadeInPlace r.1 (λ list. list ≡ r.0.cells) out.old out.new len.new) }
{
    let _ = x.cells();
    let _ = y.cells();
    let union = x.difference(y)?;
    Ok((union, s2u_difference(xs, ys, out, len)))
}

/// `s2u_symmetric_difference` gives the cells of `CellUnion::symmetric_difference`.
pub fn same_symmetric_difference(
    x: &CellUnion,
    y: &CellUnion,
    xs: &[u64],
    ys: &[u64],
    out: &mut [u64],
    len: &mut usize,
) -> Result<(CellUnion, i32), AllocError>
    requires xs { xs.now ≡ x.now.cells }
    requires ys { ys.now ≡ y.now.cells }
    ensures { IfOk result (λ r. MadeInPlace r.1 (λ list. list ≡ r.0.cells) out.old out.new len.new) }
{
    let _ = x.cells();
    let _ = y.cells();
    let union = x.symmetric_difference(y)?;
    Ok((union, s2u_symmetric_difference(xs, ys, out, len)))
}

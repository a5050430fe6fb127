//! Normalizing a list, and testing whether it is normalized. How cells that are in order are packed is in `s2list`.
ghost use Rattle.std.specs.Prelude.{◌≡◌, ◌≤◌, ◌<◌, ◌+◌, ◌↔◌, ◌||◌, ◌*◌};
ghost use Rattle.std.specs.Prelude.{ℕ, IsTrue, All};
ghost use Rattle.std.specs.Vec.{vec_len, vec_capacity};
ghost use Rattle.s2cell.specs.Cell.{covers, first_leaf};
ghost use Rattle.s2list.specs.Union.{IsLocal, IsNormalForm, IsShortest, has_leaf};
ghost use Rattle.s2list.specs.Packed.{IsPacked};

use crate::union::CellUnion;
use s2cell::CellId;
use s2list::{CellList, is_union, new_end, pack};

/// The union of the leaves of these cells, which may be in any order and contain one another. Works in the list's own
/// place and keeps its room, takes no memory and can't fail. A sort and one pass: `n log n` steps, and little more than
/// `n` if the list is in order. S2 calls it `Normalize`.
pub fn normalise(mut cells: Vec<CellId>) -> CellUnion
    ensures leaves { (x : ℕ) → has_leaf result.cells x ≡ has_leaf cells.items x }
    ensures local { IsLocal result.cells }
    ensures normal { IsNormalForm (has_leaf cells.items) result.cells }
    ensures shortest { IsShortest (has_leaf cells.items) result.cells }
    ensures room { result.room ≡ vec_capacity cells }
{
    cells.sort_unstable();
    let n = pack(&mut cells);
    cells.truncate(n);
    CellUnion { cells }
}

/// Whether a list of cells is normalized: it ascends, no two cells share a leaf, and no four are the children of one
/// cell. This is so exactly if it is the normal form of its leaves. Linear. S2 calls it `IsNormalized`.
pub fn is_normalized(cells: &[CellId]) -> bool
    ensures local { IsTrue result ↔ IsLocal cells.now }
    ensures normal { IsTrue result ↔ IsNormalForm (has_leaf cells.now) cells.now }
{
    is_union(&CellList { cells })
}

/// Adds the leaves of a cell to packed cells that have room for one more.
pub(crate) fn add_reserved(list: &mut Vec<CellId>, cell: CellId)
    requires packed { IsPacked list.old.items }
    requires starts { All (λ c. 2 * first_leaf c < cell) list.old.items }
    requires room { vec_len list.old < vec_capacity list.old }
    ensures packed { IsPacked list.new.items }
    ensures starts { All (λ c. 2 * first_leaf c < cell) list.new.items }
    ensures leaves { (x : ℕ) → has_leaf list.new.items x ≡ (has_leaf list.old.items x || covers cell x) }
    ensures few { vec_len list.new ≤ vec_len list.old + 1 }
    ensures room { vec_capacity list.new ≡ vec_capacity list.old }
{
    if let Some((kept, last)) = new_end(list, list.len(), cell) {
        list.truncate(kept);
        list.push_reserved(last);
    }
}

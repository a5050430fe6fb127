//! One more cell after packed cells: the step of normalizing.
//!
//! Packed cells are in order and share no leaf, and no four in a row are a family, the children of one cell. A cell
//! that comes after them in order of identifiers lies in the last of them, or contains some at the end, or lies after
//! all of them. If it completes a family, the parent replaces the family, and may complete a family in turn. So the end
//! of the list is a stack, and each cell is pushed once and popped at most once.
ghost use Rattle.std.specs.Prelude.{◌≡◌, ◌-◌, ◌*◌, ◌<◌, ◌≤◌, ◌||◌, ◌++◌, ◌∷◌, [], ℕ, All, IfSome, MatchOption};
ghost use Rattle.std.specs.Prelude.{length, take, slice_index};
ghost use Rattle.s2cell.specs.Cell.{IsCell, IsInside, covers, first_leaf};
ghost use Rattle.s2list.specs.Union.{has_leaf};
ghost use Rattle.s2list.specs.Packed.{EndsBefore, IsPacked, Merges};

use crate::cells::Cells;
use crate::walk::lies_in;
use crate::whole::parent_of_family;
use s2cell::CellId;

/// What the first `n` cells of a list, which are packed, become if a cell is added that comes after them in order of
/// identifiers: how many of them stay, and the cell that follows these. None if the last of them contains the cell.
pub fn new_end<C: Cells>(list: &C, n: usize, cell: CellId) -> Option<(usize, CellId)>
    requires within { n ≤ length (C.ids list.now) }
    requires packed { IsPacked (take n (C.ids list.now)) }
    requires starts { All (λ c. 2 * first_leaf c < cell) (take n (C.ids list.now)) }
    ensures cases { MatchOption result
        ((x : ℕ) → has_leaf (take n (C.ids list.now)) x ≡ (has_leaf (take n (C.ids list.now)) x || covers cell x))
        (λ r. Merges (take n (C.ids list.now)) cell r.0 r.1) }
    ensures starts { IfSome result
        (λ r. All (λ c. 2 * first_leaf c < cell) (take r.0 (take n (C.ids list.now)) ++ r.1 ∷ [])) }
{
    let id = cell.id();
    if n > 0 && lies_in(id, list.id(n - 1)) {
        return None;
    }
    let kept = outside(list, n, cell);
    let (kept, last) = merge_families(list, kept, cell);
    Some((kept, last))
}

/// How many of the first `n` cells, which are packed, lie outside the cell; these come first.
fn outside<C: Cells>(list: &C, n: usize, cell: CellId) -> usize
    requires within { n ≤ length (C.ids list.now) }
    requires packed { IsPacked (take n (C.ids list.now)) }
    requires starts { All (λ c. 2 * first_leaf c < cell) (take n (C.ids list.now)) }
    requires is_cell { IsCell cell }
    requires not_held { 0 < n → IsInside cell (slice_index (C.ids list.now) (n - 1)) → ⊥ }
    ensures within { result ≤ n }
    ensures after { All (λ c. EndsBefore c cell) (take result (C.ids list.now)) }
    ensures leaves { (x : ℕ) → (has_leaf (take result (C.ids list.now)) x || covers cell x)
        ≡ (has_leaf (take n (C.ids list.now)) x || covers cell x) }
{
    let id = cell.id();
    let mut kept = n;
    while kept > 0 && lies_in(list.id(kept - 1), id) {
        kept -= 1;
    }
    kept
}

/// What the first `from` cells, which are packed, become if a cell after all of these is added: only families are
/// merged.
fn merge_families<C: Cells>(list: &C, from: usize, cell: CellId) -> (usize, CellId)
    requires within { from ≤ length (C.ids list.now) }
    requires packed { IsPacked (take from (C.ids list.now)) }
    requires after { All (λ c. EndsBefore c cell) (take from (C.ids list.now)) }
    requires is_cell { IsCell cell }
    ensures { Merges (take from (C.ids list.now)) cell result.0 result.1 }
{
    let mut kept = from;
    let mut last = cell;
    while kept >= 3 {
        match parent_of_family(
            list.id(kept - 3),
            list.id(kept - 2),
            list.id(kept - 1),
            last,
        ) {
            Some(parent) => {
                last = parent;
                kept -= 3;
            }
            None => break,
        }
    }
    (kept, last)
}

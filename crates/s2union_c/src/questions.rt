//! Questions about a union where it lies: without a copy, and without taking memory. They don't check that the list is
//! a union, which would cost more than the question. If it isn't one, the answer means nothing.
ghost use Rattle.std.specs.Prelude.{◌≡◌, ◌+◌, ◌≤◌, length};
ghost use Rattle.s2cell.specs.Cell.{IsCell, covers, first_leaf};
ghost use Rattle.s2list.specs.Union.{IsLocal, IsWithin, ShareSome, has_leaf};
ghost use Rattle.s2list.specs.Count.{count_below};
ghost use Rattle.s2list.specs.Packed.{IsPlace};
ghost use Rattle.s2list.specs.Search.{IsRunAt};
ghost use Rattle.s2union_c.specs.Status.{IsAnswerTo, IsAnswer, made, no_cell};
ghost use Rattle.s2union_c.specs.Order.{order};

use crate::status::{MADE, NO_CELL, answer};
use s2cell::{CellId, LEAVES};
use s2list::IdList;

/// Whether a list is a union: cells, ascending, no two that share a leaf, no four that are the children of one cell.
/// Linear.
#[unsafe(no_mangle)]
pub extern "C" fn s2u_is_union(ids: &[u64]) -> i32
    ensures { IsAnswerTo result (IsLocal ids.now) }
{
    answer(s2list::is_union(&IdList { ids }))
}

/// How many of the `6 * 4^30` leaves a union has. Linear.
#[unsafe(no_mangle)]
pub extern "C" fn s2u_leaf_count(ids: &[u64]) -> u64
    ensures { IsLocal ids.now → result ≡ count_below (has_leaf ids.now) LEAVES }
{
    s2list::leaf_count(&IdList { ids })
}

/// Whether a union has all leaves of a cell. Logarithmic.
#[unsafe(no_mangle)]
pub extern "C" fn s2u_contains_cell(ids: &[u64], cell: u64) -> i32
    ensures exact { IsLocal ids.now → IsCell cell → IsAnswerTo result (IsWithin (covers cell) (has_leaf ids.now)) }
    ensures answer { IsCell cell → IsAnswer result }
    ensures no_cell { (IsCell cell → ⊥) → result ≡ no_cell }
{
    match CellId::from_id(cell) {
        Some(part) => answer(s2list::contains_cell(&IdList { ids }, part)),
        None => NO_CELL,
    }
}

/// Whether a union has a leaf of a cell. Logarithmic.
#[unsafe(no_mangle)]
pub extern "C" fn s2u_intersects_cell(ids: &[u64], cell: u64) -> i32
    ensures exact { IsLocal ids.now → IsCell cell → IsAnswerTo result (ShareSome (covers cell) (has_leaf ids.now)) }
    ensures answer { IsCell cell → IsAnswer result }
    ensures no_cell { (IsCell cell → ⊥) → result ≡ no_cell }
{
    match CellId::from_id(cell) {
        Some(part) => answer(s2list::intersects_cell(&IdList { ids }, part)),
        None => NO_CELL,
    }
}

/// The cells of a union that share a leaf with a cell: the index of the first, or the one where it would stand if there
/// are none, and how many there are. Logarithmic.
#[unsafe(no_mangle)]
pub extern "C" fn s2u_cells_at(ids: &[u64], cell: u64, first: &mut usize, count: &mut usize) -> i32
    ensures made { IsCell cell → result ≡ made }
    ensures within { first.new + count.new ≤ length ids.now }
    ensures place { IsLocal ids.now → IsCell cell → IsPlace ids.now (first_leaf cell) first.new }
    ensures run { IsLocal ids.now → IsCell cell → IsRunAt ids.now cell first.new count.new }
    ensures no_cell { (IsCell cell → ⊥) → (result ≡ no_cell) × (first.new ≡ 0) × (count.new ≡ 0) }
{
    match CellId::from_id(cell) {
        Some(place) => {
            let (start, len) = s2list::cells_at(&IdList { ids }, place);
            *first = start;
            *count = len;
            MADE
        }
        None => {
            *first = 0;
            *count = 0;
            NO_CELL
        }
    }
}

/// Whether one union has all leaves of another.
#[unsafe(no_mangle)]
pub extern "C" fn s2u_contains(xs: &[u64], ys: &[u64]) -> i32
    ensures exact { IsLocal xs.now → IsLocal ys.now → IsAnswerTo result (IsWithin (has_leaf ys.now) (has_leaf xs.now)) }
    ensures answer { IsAnswer result }
{
    answer(s2list::contains(&IdList { ids: xs }, &IdList { ids: ys }))
}

/// Whether two unions share a leaf.
#[unsafe(no_mangle)]
pub extern "C" fn s2u_intersects(xs: &[u64], ys: &[u64]) -> i32
    ensures exact { IsLocal xs.now → IsLocal ys.now → IsAnswerTo result
        (ShareSome (has_leaf xs.now) (has_leaf ys.now)) }
    ensures answer { IsAnswer result }
{
    answer(s2list::intersects(&IdList { ids: xs }, &IdList { ids: ys }))
}

/// The order of two lists, element by element and then by length: -1, 0 or 1.
#[unsafe(no_mangle)]
pub extern "C" fn s2u_compare(xs: &[u64], ys: &[u64]) -> i32
    ensures { result ≡ order xs.now ys.now }
{
    let both = xs.len().min(ys.len());
    for k in 0..both {
        if xs[k] < ys[k] {
            return -1;
        }
        if ys[k] < xs[k] {
            return 1;
        }
    }
    if both < ys.len() {
        -1
    } else if both < xs.len() {
        1
    } else {
        0
    }
}

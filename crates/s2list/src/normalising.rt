//! Normalizing in place: cells that are in order are packed into the front of their list.
ghost use Rattle.std.specs.Prelude.{◌≡◌, ◌+◌, ◌*◌, ◌^◌, ◌<◌, ◌≤◌, ◌||◌, ℕ, All, length, take, slice_index_or};
ghost use Rattle.std.specs.List.Sorted.{IsNonDecreasing};
ghost use Rattle.s2cell.specs.Cell.{covers, first_leaf};
ghost use Rattle.s2list.specs.Union.{has_leaf};
ghost use Rattle.s2list.specs.Packed.{IsPacked};

use crate::appending::new_end;
use crate::cells::CellsMut;
use crate::whole::union_at_front;
use s2cell::CellId;

/// Packs cells that are in order into the front of their list, and answers how many they are then. One pass: cells at
/// the front that are a union are only tested, and stay.
pub fn pack<C: CellsMut>(list: &mut C) -> usize
    requires readable { C.readable list.old }
    requires order { IsNonDecreasing (C.ids list.old) }
    ensures within { result ≤ length (C.ids list.old) }
    ensures packed { IsPacked (take result (C.ids list.new)) }
    ensures leaves { (x : ℕ) → has_leaf (take result (C.ids list.new)) x ≡ has_leaf (C.ids list.old) x }
    ensures len { length (C.ids list.new) ≡ length (C.ids list.old) }
    ensures place { C.place list.new ≡ C.place list.old }
{
    let front = union_at_front(list);
    let mut n = front;
    for i in front..list.len() {
        let cell = list.cell(i);
        n = place_after(list, n, cell);
    }
    n
}

/// Puts a cell after the first `n`, which are packed, and answers how many packed cells there are then.
fn place_after<C: CellsMut>(list: &mut C, n: usize, cell: CellId) -> usize
    requires room { n < length (C.ids list.old) }
    requires fits { n + 1 < 2 ^ 64 }
    requires packed { IsPacked (take n (C.ids list.old)) }
    requires starts { All (λ c. 2 * first_leaf c < cell) (take n (C.ids list.old)) }
    ensures within { result ≤ n + 1 }
    ensures packed { IsPacked (take result (C.ids list.new)) }
    ensures starts { All (λ c. 2 * first_leaf c < cell) (take result (C.ids list.new)) }
    ensures leaves { (x : ℕ) → has_leaf (take result (C.ids list.new)) x
        ≡ (has_leaf (take n (C.ids list.old)) x || covers cell x) }
    ensures rest { (k d : ℕ) → n < k → slice_index_or (C.ids list.new) k d ≡ slice_index_or (C.ids list.old) k d }
    ensures len { length (C.ids list.new) ≡ length (C.ids list.old) }
    ensures readable { C.readable list.old → C.readable list.new }
    ensures place { C.place list.new ≡ C.place list.old }
{
    match new_end(list, n, cell) {
        Some((kept, last)) => {
            list.set(kept, last);
            kept + 1
        }
        None => n,
    }
}

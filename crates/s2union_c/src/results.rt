//! Writing results into the lists that a caller provides.
ghost use Rattle.std.specs.Prelude.{◌≡◌, ◌+◌, ◌*◌, ◌^◌, ◌<◌, ◌≤◌, ℕ};
ghost use Rattle.s2union_c.specs.Results.{Made};
ghost use Rattle.s2union_c.specs.Status.{made, no_room};

use crate::status::{MADE, NO_ROOM};
use s2cell::CellId;

/// Writes bytes or numbers to the front of the room, if they fit, and tells how many there are.
pub(crate) fn put<T: Copy>(items: &[T], out: &mut [T], len: &mut usize) -> i32
    ensures { Made result items.now out.old out.new len.new }
{
    *len = items.len();
    if items.len() > out.len() {
        return NO_ROOM;
    }
    out[..items.len()].copy_from_slice(items);
    MADE
}

/// Writes the identifiers of cells to the front of the room, if they fit, and tells how many there are.
pub(crate) fn put_cells(cells: &[CellId], out: &mut [u64], len: &mut usize) -> i32
    ensures { Made result cells.now out.old out.new len.new }
{
    *len = cells.len();
    if cells.len() > out.len() {
        return NO_ROOM;
    }
    for k in 0..cells.len() {
        out[k] = cells[k].id();
    }
    MADE
}

/// `first + times * many`, or the greatest number if that is more.
pub(crate) fn bound(first: usize, times: usize, many: usize) -> usize
    ensures most { result ≤ first + times * many }
    ensures enough { (n : ℕ) → n < 2 ^ 64 → n ≤ first + times * many → n ≤ result }
{
    first.saturating_add(many.saturating_mul(times))
}

/// Whether a result of this length fits the room.
pub(crate) fn room_status(len: usize, room: usize) -> i32
    ensures fits { len ≤ room → result ≡ made }
    ensures short { room < len → result ≡ no_room }
{
    if len <= room { MADE } else { NO_ROOM }
}

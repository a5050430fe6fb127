//! The leaves of two lists of cells, written into a room.
ghost use Rattle.std.specs.Prelude.{◌≡◌, drop, length};
ghost use Rattle.s2list.specs.Union.{IsLocal, IsNormalForm, has_leaf};
ghost use Rattle.s2list.specs.Sets.{union_of};
ghost use Rattle.s2list.specs.Room.{PutsOne};

use s2list::{Cells, Room, write_union};

/// Puts the leaves of either union into the room, if there is enough of it, and answers how many cells they are. One
/// pass over both lists. Many cells of one before the next of the other are passed by a search, in steps that leap,
/// and copied.
pub fn put_union<X: Cells, Y: Cells>(xs: &X, ys: &Y, out: &mut [u64]) -> usize
    ensures len { length out.new ≡ length out.old }
    ensures made { IsLocal (X.ids xs.now) → IsLocal (Y.ids ys.now)
        → PutsOne (IsNormalForm (union_of (has_leaf (X.ids xs.now)) (has_leaf (Y.ids ys.now)))) out.old out.new result }
    ensures rest { drop result out.new ≡ drop result out.old }
{
    let mut room = Room { out };
    match write_union(xs, ys, &mut room) {
        Ok(n) => n,
        Err(_) => unreachable!(),
    }
}

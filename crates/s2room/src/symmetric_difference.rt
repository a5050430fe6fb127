//! The leaves that exactly one of two lists of cells has, written into a room.
ghost use Rattle.std.specs.Prelude.{◌≡◌, drop, length};
ghost use Rattle.s2list.specs.Union.{IsLocal, IsNormalForm, has_leaf};
ghost use Rattle.s2list.specs.Sets.{symmetric_difference_of};
ghost use Rattle.s2list.specs.Room.{PutsOne};

use s2list::{Cells, Room, write_symmetric_difference};

/// Puts the leaves that exactly one of two unions has into the room, if there is enough of it, and answers how many
/// cells they are. One pass over both lists: each turn passes the cell that ends first, or both if they end together.
/// The leaves that only one of them has come before the other begins, and are added as one interval.
pub fn put_symmetric_difference<X: Cells, Y: Cells>(xs: &X, ys: &Y, out: &mut [u64]) -> usize
    ensures len { length out.new ≡ length out.old }
    ensures made { IsLocal (X.ids xs.now) → IsLocal (Y.ids ys.now)
        → PutsOne (IsNormalForm (symmetric_difference_of (has_leaf (X.ids xs.now)) (has_leaf (Y.ids ys.now)))) out.old
        out.new result }
    ensures rest { drop result out.new ≡ drop result out.old }
{
    let mut room = Room { out };
    match write_symmetric_difference(xs, ys, &mut room) {
        Ok(n) => n,
        Err(_) => unreachable!(),
    }
}

//! The leaves that two lists of cells share, written into a room.
ghost use Rattle.std.specs.Prelude.{◌≡◌, drop, length};
ghost use Rattle.s2list.specs.Union.{IsLocal, IsNormalForm, has_leaf};
ghost use Rattle.s2list.specs.Sets.{intersection_of};
ghost use Rattle.s2list.specs.Room.{PutsOne};

use s2list::{Cells, Room, write_intersection};

/// Puts the leaves that two unions share into the room, if there is enough of it, and answers how many cells they are.
/// Whichever list is behind is searched for the cell of the other, in leaps, and the cells of one that lie in a cell of
/// the other are copied as one run. Its work follows how the two interleave.
pub fn put_intersection<X: Cells, Y: Cells>(xs: &X, ys: &Y, out: &mut [u64]) -> usize
    ensures len { length out.new ≡ length out.old }
    ensures made { IsLocal (X.ids xs.now) → IsLocal (Y.ids ys.now)
        → PutsOne (IsNormalForm (intersection_of (has_leaf (X.ids xs.now)) (has_leaf (Y.ids ys.now)))) out.old out.new
        result }
    ensures rest { drop result out.new ≡ drop result out.old }
{
    let mut room = Room { out };
    match write_intersection(xs, ys, &mut room) {
        Ok(n) => n,
        Err(_) => unreachable!(),
    }
}

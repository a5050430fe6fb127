//! The leaves of one list of cells that another doesn't have, written into a room.
ghost use Rattle.std.specs.Prelude.{◌≡◌, drop, length};
ghost use Rattle.s2list.specs.Union.{IsLocal, IsNormalForm, has_leaf};
ghost use Rattle.s2list.specs.Sets.{difference_of};
ghost use Rattle.s2list.specs.Room.{PutsOne};

use s2list::{Cells, Room, write_difference};

/// Puts the leaves of the first union that the second doesn't have into the room, if there is enough of it, and answers
/// how many cells they are. Searches, in steps that leap, for the next cell of `ys` that ends after the leaves done,
/// and for the next of `xs` that goes beyond it. The cells of `xs` before the next of `ys` are copied as one run.
pub fn put_difference<X: Cells, Y: Cells>(xs: &X, ys: &Y, out: &mut [u64]) -> usize
    ensures len { length out.new ≡ length out.old }
    ensures made { IsLocal (X.ids xs.now) → IsLocal (Y.ids ys.now)
        → PutsOne (IsNormalForm (difference_of (has_leaf (X.ids xs.now)) (has_leaf (Y.ids ys.now)))) out.old out.new
        result }
    ensures rest { drop result out.new ≡ drop result out.old }
{
    let mut room = Room { out };
    match write_difference(xs, ys, usize::MAX, &mut room) {
        Ok(n) => n,
        Err(_) => unreachable!(),
    }
}

//! The leaves that a list of cells lacks, written into a room.
ghost use Rattle.std.specs.Prelude.{◌≡◌, drop, length};
ghost use Rattle.s2list.specs.Union.{IsLocal, IsNormalForm, has_leaf};
ghost use Rattle.s2list.specs.Sets.{complement_of};
ghost use Rattle.s2list.specs.Room.{PutsOne};

use s2list::{Cells, Room, write_complement};

/// Puts the leaves of the six faces that a union lacks into the room, if there is enough of it, and answers how many
/// cells they are. One pass, which fills the gaps between the cells.
pub fn put_complement<C: Cells>(cells: &C, out: &mut [u64]) -> usize
    ensures len { length out.new ≡ length out.old }
    ensures made { IsLocal (C.ids cells.now)
        → PutsOne (IsNormalForm (complement_of (has_leaf (C.ids cells.now)))) out.old out.new result }
    ensures rest { drop result out.new ≡ drop result out.old }
{
    let mut room = Room { out };
    match write_complement(cells, &mut room) {
        Ok(n) => n,
        Err(_) => unreachable!(),
    }
}

//! Normalizing identifiers in place. How cells that are in order are packed is in `s2list`.
ghost use Rattle.std.specs.Prelude.{All};
ghost use Rattle.s2cell.specs.Cell.{IsCell};
ghost use Rattle.s2room.specs.Normalising.{IsNormalisedIn};

use s2list::{Room, pack};

/// Makes the front of a list of cells the union that has their leaves, and answers how many cells that union has. The
/// cells may be in any order, and one may lie in another. Takes no memory and can't fail. A sort and one pass. The
/// numbers after the union have no meaning.
pub fn normalise(ids: &mut [u64]) -> usize
    requires { All IsCell ids.old }
    ensures { IsNormalisedIn ids.old ids.new result }
{
    ids.sort_unstable();
    pack(&mut Room { out: ids })
}

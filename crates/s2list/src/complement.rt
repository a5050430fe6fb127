//! The leaves that a list of cells lacks, written to a list that grows or to a room.
ghost use Rattle.std.specs.Prelude.{◌≡◌, [], IfErr, IfOk};
ghost use Rattle.s2list.specs.Union.{IsLocal, has_leaf};
ghost use Rattle.s2list.specs.Sets.{complement_of};
ghost use Rattle.s2list.specs.Output.{Writes};

use crate::cells::Cells;
use crate::find::{end_of, first_of};
use crate::output::Output;
use crate::pile::{Pile, add, finish};
use s2cell::LEAVES;
use std::alloc::AllocError;

/// Writes the leaves of the six faces that a union lacks, and answers how many cells they are. One pass, which fills
/// the gaps between the cells.
pub fn write_complement<X: Cells, W: Output>(xs: &X, out: &mut W) -> Result<usize, AllocError>
    requires empty { W.holds [] out.old out.old 0 }
    ensures place { W.place out.new ≡ W.place out.old }
    ensures made { IfOk result (λ n. IsLocal (X.ids xs.now)
        → Writes (complement_of (has_leaf (X.ids xs.now))) (λ list. W.holds list out.old out.new n) n) }
    ensures rest { IfOk result (λ n. W.rest out.old out.old 0 → W.rest out.old out.new n) }
    ensures sure { IfErr result (λ _. W.refuses) }
{
    let mut pile = Pile { n: 0, lo: 0, hi: 0 };
    let mut done = 0;
    for i in 0..xs.len() {
        let id = xs.id(i);
        pile = add(out, pile, done, first_of(id))?;
        done = end_of(id);
    }
    let last = add(out, pile, done, LEAVES)?;
    let n = finish(out, last)?;
    Ok(n)
}

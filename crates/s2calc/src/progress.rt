//! How far a run has come.
ghost use Rattle.std.specs.Prelude.{◌≡◌, []};
ghost use Rattle.s2calc.specs.Replies.{tally_of};

use crate::engine::Tally;
use crate::kept::Kept;

/// What a run keeps from one line to the next.
#[derive(Drop)]
pub(crate) struct Progress {
    /// The line that is being read.
    pub(crate) kept: Kept,
    /// The lines that were answered and refused.
    pub(crate) tally: Tally,
    /// How many lines were carried out. It stops at its greatest value.
    pub(crate) lines: u64,
}

impl Progress {
    /// The progress of a run that has read nothing.
    pub(crate) fn new() -> Progress
        ensures kept { result.kept ≡ [] }
        ensures tally { result.tally ≡ tally_of [] }
        ensures lines { result.lines ≡ 0 }
    {
        Progress {
            kept: Kept::new(),
            tally: Tally {
                commands: 0,
                refused: 0,
            },
            lines: 0,
        }
    }
}

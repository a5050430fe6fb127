//! The limits of a run, each in one place, from which contracts and `specs/` cite them. Those of lines and words are in
//! `s2script`; the number of registers, the greatest limit and the greatest depth are in `s2edit`.
use s2script::LONGEST_LINE;

/// The most cells that are listed when a register is cut to levels.
pub(crate) const MOST_LISTED: u64 = 1_000_000;

/// How many bytes of a line are kept: one more than the longest line has, to recognize a longer one.
pub(crate) const KEPT: usize = LONGEST_LINE + 1;

/// How many bytes a read asks for.
pub(crate) const READ_SIZE: usize = 65_536;

/// The most bytes of answers that wait in an `AnswerBuffer`, and are lost if it can't hand them over.
pub const MOST_WAITING: usize = 65_536;

/// Room for a note on a refused line: the longest line with each of its bytes escaped, and what comes before and after.
pub(crate) const NOTE_ROOM: usize = 4 * LONGEST_LINE + 512;

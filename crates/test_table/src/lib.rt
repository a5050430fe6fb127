//! Tables of worked rows, as text that programs read and answer.
//!
//! A table is a list of rows, below a line `$ rows N` that says how many there are. A row begins with its title,
//! `## TITLE`. The lines after it are, by their beginnings:
//!
//! | Line | What it is |
//! |---|---|
//! | `> TEXT` | a line of the row's script |
//! | `< TEXT` | the script's last line, which has no newline |
//! | `* N TEXT ; TEXT` | these lines of the script, one or more, N times |
//! | `^ FIRST COUNT LAST` | a line of the script: FIRST, COUNT times `x`, and LAST. `-` stands for nothing |
//! | `$ NAME N` | an option, such as a limit |
//! | `@ NAME HEX` | a file that is there before, by its bytes: `01 00*8` is a byte 1 and eight bytes 0 |
//! | `? CALL` | a call, made after the script |
//! | `= N TEXT ; TEXT` | an answer that is these lines N times |
//! | `# TEXT` | a comment; so is a blank line |
//! | any other | an answer |
//!
//! At the end of a line of a script, `\r` stands for a carriage return. `lines` says what the lines of a row say, and
//! `answering` has a `Table` answer each row, and shows the rows with other answers than those that stand in them.
#![tactic(auto)]

pub mod answering;
pub mod lines;

pub use crate::answering::{Table, answer_rows};
pub use crate::lines::{add_line, bytes_of, number, option, script_of, wanted_of};

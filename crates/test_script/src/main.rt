//! Worked rows on `run` and on the other calls of `s2calc`. Standard input is a table (`test_table`), whose rows have a
//! script, calls, and the answers that both must have. Each script is run over a reader that gives pieces of one size,
//! a writer in memory and a shelf in memory. Prints the title of each row with other answers, and how many have theirs.
//!
//! Rows here may have these options and calls:
//!
//! | Line | What it is |
//! |---|---|
//! | `$ limit N`, `$ depth N` | those of the editor; else 10,000 and 100 |
//! | `$ pieces N` | a read gives N bytes; else the script is run four times, in pieces of 1, 2, 7 and 5,000 bytes |
//! | `$ reader 1` | the read after the script's last byte fails |
//! | `$ shelf N` | the N-th call of the shelf fails |
//! | `$ last N` | of the answers to the script only their number and the last N stand in the row |
//! | `$ shown 1` | the answers to the script go to standard output, each when it is made |
//! | `? status`, `? ended` | the exit status; how the run ended, with the numbers of lines answered and refused |
//! | `? file NAME HEX` | `same` if the file has these bytes, or the bytes that it has |
//! | `? cell WORD`, `? check NAME` | the program's other answers, and what the call returned |
//! | `? job WORDS` | what words of the command line ask for, or why they ask for nothing, with the exit status |
//! | `? program WORDS` | what the program does with these words: output, `!` and each line of standard error, status |
//! | `? failing STREAM N WORDS` | the same if the N-th call of `input`, `output`, `errors` or `files` fails |
//! | `? without CELL CELL` | how many cells the first cell has without the leaves of the second |
//! | `? log`, `? log promptly` | what a run writes, `|` for each flush, and how it calls a shelf without files |
//! | `? seen SIZE` | what an observer sees of a run over reads of SIZE bytes: each read, and each line begin and end |
//! | `? reads SIZE` | each read of SIZE bytes fails in turn |
//! | `? writes SIZE`, `? takes SIZE` | each write of SIZE bytes and the flush fail in turn, or take nothing |
//! | `? shelf` | each call of the shelf fails in turn |
//!
//! The last three answer how many runs failed, or `wrong` if one of them did not leave what it must. After the size may
//! stand `promptly`, for a run over an `AnswerBuffer` whose writer below fails; or, for writes, `cell WORD` or
//! `check NAME`.
//!
//! Modules: `row` has a row answered, `calls` its calls. `failing_runs` and `failing_answers` make each call of a
//! stream or the shelf fail in turn, over `pieces` (a reader) and `narrow` (a writer), and compare what is `left`.
//! `process` has `program` of `s2process` do a row, over the same reader and writer and the row's files.
//! `logged` makes a log of a run, over the writer and the shelf of `log`, and says what an `observer` sees.
//! These readers, writers and observers list their calls by `known`, so that contracts see them. `example` is the
//! example of docs/ARCHITECTURE.md.
#![tactic(auto)]

mod calls;
mod example;
mod failing_answers;
mod failing_runs;
mod known;
mod left;
mod log;
mod logged;
mod narrow;
mod observer;
mod pieces;
mod process;
mod row;

use row::Rows;
use std::io;
use test_table::answer_rows;

fn main(rt: HostRuntime) -> io::Result<()> {
    answer_rows(&rt, &mut Rows { rt: &rt })
}

//! Worked rows on the calls of the libraries. Standard input is a table (`test_table`), whose rows have calls and what
//! they must answer. Prints the title of each row with other answers, and how many have theirs.
//!
//! Modules, by what is called: `cells` (of `s2cell`), `unions` (`s2union`), `counted` (`s2union` and `s2list`),
//! `coverings` (`s2cover`), `polygons` (`s2polygon`), `directions` (`s2degrees`), `maps` (`s2map`), `shapes`
//! (`s2shape`), `written` (`s2written`), `files` (`s2file`), `shelves` (`s2shelf`), `edits`, `changes` and `sessions`
//! (`s2edit` and `s2session`). `even` and `weighed` are regions of its own. `curve`, `rectangles` and `differing`
//! compare calls with other calls, or with plain readings that stand here as test code. `table` has a row answered, and
//! `texts` reads and writes the words of calls.
#![tactic(auto)]

mod cells;
mod changes;
mod counted;
mod coverings;
mod curve;
mod differing;
mod directions;
mod edits;
mod even;
mod files;
mod maps;
mod polygons;
mod rectangles;
mod sessions;
mod shapes;
mod shelves;
mod table;
mod texts;
mod unions;
mod weighed;
mod written;

use s2shelf::DirShelf;
use std::{fs, io};
use table::Libraries;
use test_table::answer_rows;

fn main(rt: HostRuntime) -> io::Result<()> {
    let folder = DirShelf::at(&rt, ".")?;
    answer_rows(&rt, &mut Libraries { folder })?;
    // Rows that put files into the folder give them this name. It isn't there if there are none.
    let _ = fs::remove_file(&rt, "rows.tmp");
    Ok(())
}

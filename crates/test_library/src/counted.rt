//! Questions of `s2union` about two unions; the same of their lists by `s2list`, and how many numbers they look at.
ghost use Rattle.std.specs.Prelude.{◌<◌};

use crate::texts::{add_number, cut, numbers_of, union_of, yes_or_no};
use s2cell::CellId;
use s2list::{
    CellList, Looks, contains_cell_counted, holds_all, intersects_cell_counted, meets_any,
};
use s2union::{CellUnion, normalise};
use std::alloc::{AllocError, Global};
use test_table::add_line;

/// Makes a call, and adds its answer. False for the name of another call.
pub fn answer(
    alloc: Global,
    name: &str,
    words: &str,
    found: &mut Vec<u8>,
) -> Result<bool, AllocError> {
    let added = match name {
        "spaced" => add_spaced(alloc, words, found),
        "spaced_cell" => add_spaced_cell(alloc, words, found),
        _ => return answer_of_two(alloc, name, words, found),
    };
    added?;
    Ok(true)
}

/// The same for a call on two unions, `CELLS / CELLS`.
fn answer_of_two(
    alloc: Global,
    name: &str,
    words: &str,
    found: &mut Vec<u8>,
) -> Result<bool, AllocError> {
    let (one, other) = cut(words);
    let one = union_of(alloc, one)?;
    let other = union_of(alloc, other)?;
    let added = match name {
        "contains" => add_line(found, yes_or_no(one.contains(&other))),
        "intersects" => add_line(found, yes_or_no(one.intersects(&other))),
        _ => return answer_counted(alloc, name, &one, &other, found),
    };
    added?;
    Ok(true)
}

/// Makes a counted call on the lists of two unions, and adds its answer. False for the name of another call.
fn answer_counted(
    alloc: Global,
    name: &str,
    one: &CellUnion,
    other: &CellUnion,
    found: &mut Vec<u8>,
) -> Result<bool, AllocError> {
    let xs = CellList { cells: one.cells() };
    let ys = CellList {
        cells: other.cells(),
    };
    if name == "contains_counted" {
        let mut count = Looks { looks: 0 };
        let answer = holds_all(&xs, &ys, &mut count);
        add_counted(alloc, found, answer, count)?;
    } else if name == "intersects_counted" {
        let mut count = Looks { looks: 0 };
        let answer = meets_any(&xs, &ys, &mut count);
        add_counted(alloc, found, answer, count)?;
    } else if name == "contains_cell_counted" {
        for cell in other {
            add_contains_cell(alloc, found, &xs, *cell)?;
        }
    } else if name == "intersects_cell_counted" {
        for cell in other {
            add_intersects_cell(alloc, found, &xs, *cell)?;
        }
    } else {
        return Ok(false);
    }
    Ok(true)
}

/// Adds whether a list has all leaves of a cell, and how many of its cells are looked at.
fn add_contains_cell(
    alloc: Global,
    found: &mut Vec<u8>,
    list: &CellList,
    cell: CellId,
) -> Result<(), AllocError> {
    let mut count = Looks { looks: 0 };
    let answer = contains_cell_counted(list, cell, &mut count);
    add_counted(alloc, found, answer, count)
}

/// Adds whether a list has a leaf of a cell, and how many of its cells are looked at.
fn add_intersects_cell(
    alloc: Global,
    found: &mut Vec<u8>,
    list: &CellList,
    cell: CellId,
) -> Result<(), AllocError> {
    let mut count = Looks { looks: 0 };
    let answer = intersects_cell_counted(list, cell, &mut count);
    add_counted(alloc, found, answer, count)
}

/// How many leaves each of the spaced cells has.
const SIZE: u64 = 1 << 40;

/// 10,000 cells, every fourth of their level.
fn spaced_cells(alloc: Global) -> Result<CellUnion, AllocError> {
    let mut cells = Vec::new(alloc);
    for k in 0..10000 {
        cells.push(CellId::tile(4 * k * SIZE, (4 * k + 1) * SIZE))?;
    }
    Ok(normalise(cells))
}

/// The first hundred leaves in even places of the n-th cell of that size.
fn leaves_of(alloc: Global, n: u64) -> Result<CellUnion, AllocError>
    requires { n < 65536 }
{
    let first = n * SIZE;
    let mut leaves = Vec::new(alloc);
    for k in 0..100 {
        leaves.push(CellId::tile(first + 2 * k, first + 2 * k + 1))?;
    }
    Ok(normalise(leaves))
}

/// Adds what the spaced cells answer of a hundred leaves of the n-th cell, which lie in one gap or in one cell: whether
/// they contain them and intersect them, the same with whether each took fewer than a hundred looks, and how many cells
/// both share.
fn add_spaced(alloc: Global, words: &str, found: &mut Vec<u8>) -> Result<(), AllocError> {
    let [n, ..] = numbers_of(words);
    if n >= 65536 {
        return add_line(found, "out of range");
    }
    let spaced = spaced_cells(alloc)?;
    let leaves = leaves_of(alloc, n)?;
    add_line(found, yes_or_no(spaced.contains(&leaves)))?;
    add_line(found, yes_or_no(spaced.intersects(&leaves)))?;
    add_few(alloc, found, &spaced, &leaves)?;
    let shared = spaced.intersection(&leaves)?.len();
    add_number(alloc, found, shared as u64)
}

/// Adds whether the list of one union has all leaves of the other's, and whether they share one, each with whether
/// fewer than a hundred cells were looked at.
fn add_few(
    alloc: Global,
    found: &mut Vec<u8>,
    one: &CellUnion,
    other: &CellUnion,
) -> Result<(), AllocError> {
    let xs = CellList { cells: one.cells() };
    let ys = CellList {
        cells: other.cells(),
    };
    let mut count = Looks { looks: 0 };
    let holds = holds_all(&xs, &ys, &mut count);
    add_whether_few(alloc, found, holds, count)?;
    let mut count = Looks { looks: 0 };
    let meets = meets_any(&xs, &ys, &mut count);
    add_whether_few(alloc, found, meets, count)
}

/// Adds whether the spaced cells contain the n-th cell, and intersect it, and how many of them are looked at.
fn add_spaced_cell(alloc: Global, words: &str, found: &mut Vec<u8>) -> Result<(), AllocError> {
    let [n, ..] = numbers_of(words);
    if n >= 65536 {
        return add_line(found, "out of range");
    }
    let spaced = spaced_cells(alloc)?;
    let cell = CellId::tile(n * SIZE, (n + 1) * SIZE);
    let list = CellList {
        cells: spaced.cells(),
    };
    add_contains_cell(alloc, found, &list, cell)?;
    add_intersects_cell(alloc, found, &list, cell)
}

/// Adds an answer, and whether fewer than a hundred cells were looked at, or how many.
fn add_whether_few(
    alloc: Global,
    found: &mut Vec<u8>,
    answer: bool,
    count: Looks,
) -> Result<(), AllocError> {
    if count.looks >= 100 {
        return add_counted(alloc, found, answer, count);
    }
    if answer {
        add_line(found, "yes few looks")
    } else {
        add_line(found, "no few looks")
    }
}

/// Adds an answer, and how many cells were looked at.
fn add_counted(
    alloc: Global,
    found: &mut Vec<u8>,
    answer: bool,
    count: Looks,
) -> Result<(), AllocError> {
    let (answer, looks) = (yes_or_no(answer), count.looks);
    add_line(found, &format!(in alloc; "{answer} looks {looks}")?)
}

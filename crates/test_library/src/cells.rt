//! Calls of `s2cell`.
use crate::texts;
use crate::texts::{add_token, cells_of, numbers_of};
use s2cell::{CellId, FACE_LEAVES, SIDE};
use std::alloc::{AllocError, Global};
use test_table::add_line;

/// Makes a call on texts or places, and adds its answer. False for the name of another call.
pub fn answer(
    alloc: Global,
    name: &str,
    words: &str,
    found: &mut Vec<u8>,
) -> Result<bool, AllocError> {
    let added = match name {
        "token" => add_described(alloc, found, CellId::from_token(words.as_bytes())),
        "debug" => add_described(alloc, found, CellId::from_debug(words.as_bytes())),
        "at" => add_token(found, cell_at(words)),
        "number" => add_number(alloc, found, cell_at(words)),
        "place" => add_square(alloc, found, leaf_of(words)),
        _ => return answer_of_cells(alloc, name, words, found),
    };
    added?;
    Ok(true)
}

/// The same for calls on one cell or two.
fn answer_of_cells(
    alloc: Global,
    name: &str,
    words: &str,
    found: &mut Vec<u8>,
) -> Result<bool, AllocError> {
    let cells = cells_of(alloc, words)?;
    let added = match name {
        "next" => add_token(found, next_of(&cells)),
        "prev" => add_token(found, previous_of(&cells)),
        "ancestor" => add_token(found, ancestor_of(&cells)),
        "square" => add_square(alloc, found, cells.first().copied()),
        _ => return Ok(false),
    };
    added?;
    Ok(true)
}

fn next_of(cells: &[CellId]) -> Option<CellId> {
    match cells {
        [cell] => cell.next(),
        _ => None,
    }
}

fn previous_of(cells: &[CellId]) -> Option<CellId> {
    match cells {
        [cell] => cell.prev(),
        _ => None,
    }
}

fn ancestor_of(cells: &[CellId]) -> Option<CellId> {
    match cells {
        [one, other] => one.common_ancestor(*other),
        _ => None,
    }
}

/// The cell at a place, `LEVEL FACE I J`.
fn cell_at(words: &str) -> Option<CellId> {
    let [level, face, i, j, _] = numbers_of(words);
    if level > 30 || face > 5 || i >= u64::from(SIDE) || j >= u64::from(SIDE) {
        return None;
    }
    let leaf = CellId::from_face_ij(face as u8, i as u32, j as u32);
    Some(leaf.parent(level as u8))
}

/// The leaf with a number on its face, `FACE NUMBER`.
fn leaf_of(words: &str) -> Option<CellId> {
    let [face, number, ..] = numbers_of(words);
    if face > 5 || number >= FACE_LEAVES {
        return None;
    }
    CellId::from_id(face << 61 | number << 1 | 1)
}

/// Adds a cell's texts, its level, its face, and its first and last leaf.
fn add_described(
    alloc: Global,
    found: &mut Vec<u8>,
    cell: Option<CellId>,
) -> Result<(), AllocError> {
    let Some(cell) = cell else {
        return add_line(found, "refused");
    };
    found.extend_from_slice(cell.token().as_slice())?;
    found.push(b' ')?;
    found.extend_from_slice(cell.debug().as_slice())?;
    let (level, face) = (cell.level(), cell.face());
    let (first, last) = (cell.range_min().first_leaf(), cell.range_max().first_leaf());
    let rest = format!(in alloc; " level {level} face {face} leaves {first} {last}")?;
    add_line(found, &rest)
}

/// Adds the number of a cell's first leaf on its face.
fn add_number(alloc: Global, found: &mut Vec<u8>, cell: Option<CellId>) -> Result<(), AllocError> {
    match cell {
        Some(cell) => texts::add_number(alloc, found, cell.first_leaf() % FACE_LEAVES),
        None => add_line(found, "none"),
    }
}

/// Adds the square of a cell.
fn add_square(alloc: Global, found: &mut Vec<u8>, cell: Option<CellId>) -> Result<(), AllocError> {
    let Some(cell) = cell else {
        return add_line(found, "none");
    };
    let square = cell.square();
    let (face, i, j, size) = (square.face, square.i, square.j, square.size);
    let line = format!(in alloc; "face {face} i {i} j {j} size {size}")?;
    add_line(found, &line)
}

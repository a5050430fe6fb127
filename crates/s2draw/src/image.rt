//! The picture of a list of cells.
ghost use Rattle.std.specs.Prelude.{◌≡◌, ◌≤◌, ◌++◌, ℕ, All, IfOk, [], cond, decimal, not};
ghost use Rattle.std.specs.List.{count_by};
ghost use Rattle.s2cell.specs.Cell.{IsCell, level_of};
ghost use Rattle.s2draw.specs.Rectangles.{can_be_seen, seen, IsDrawnExactly};
ghost use Rattle.s2draw.specs.Picture.{rectangle, middle, small_line, note, line, rectangles, head, picture};
ghost use Rattle.s2draw.specs.Zoom.{seen_at, shown};

use crate::fixed::{FACES, FOOT, HEAD, LEVELS, STYLE};
use crate::rectangle::{DEEPEST, rectangle_of};
use itoa::Buffer;
use s2cell::CellId;
use std::alloc::{AllocError, Global};

/// The picture of the cells, as the bytes of an SVG image. If `curve`, it has a line that joins the middles of the
/// cells in their order; this is the curve itself if each cell follows the one before.
///
/// Each cell is drawn over those before it. A cell deeper than level 9 is drawn as its ancestor of level 9, and the
/// picture says how many such cells there are; if several cells in a row become the same one, it is drawn once. Linear;
/// takes some 60 bytes of memory for each cell that is drawn, or answers `AllocError`.
pub fn picture(alloc: Global, cells: &[CellId], curve: bool) -> Result<Vec<u8>, AllocError>
    ensures bytes { IfOk result (λ p. p.items ≡ picture curve cells.now) }
    // Each rectangle is the square of its cell.
    ensures squares { IfOk result (λ p. (c : ℕ) → IsCell c → IsDrawnExactly (seen c)) }
{
    let list = cells_to_draw(alloc, DEEPEST, cells)?;
    let mut text = begin(alloc)?;
    put_note(&mut text, cells)?;
    put_rectangles(&mut text, list.as_slice())?;
    put_curve(&mut text, list.as_slice(), curve)?;
    put(&mut text, FOOT.as_bytes())?;
    Ok(text)
}

/// What comes before the notes.
fn begin(alloc: Global) -> Result<Vec<u8>, AllocError>
    ensures { IfOk result (λ text. text.items ≡ head) }
{
    let mut text = Vec::from_slice(alloc, HEAD.as_bytes())?;
    put(&mut text, STYLE.as_bytes())?;
    put(&mut text, LEVELS.as_bytes())?;
    put(&mut text, FACES.as_bytes())?;
    Ok(text)
}

/// The cells that are drawn, if none may be deeper than this level.
pub(crate) fn cells_to_draw(
    alloc: Global,
    deepest: u8,
    cells: &[CellId],
) -> Result<Vec<CellId>, AllocError>
    ensures cells { IfOk result (λ list. list.items ≡ shown deepest cells.now) }
    ensures levels { IfOk result (λ list. All (λ c. level_of c ≤ deepest) list.items) }
{
    let mut list = Vec::with_capacity(alloc, cells.len())?;
    for cell in cells {
        list.push(cell_to_draw(deepest, *cell))?;
    }
    list.dedup();
    Ok(list)
}

/// The cell, or its ancestor of this level if it is deeper.
fn cell_to_draw(deepest: u8, cell: CellId) -> CellId
    ensures value { result ≡ seen_at deepest cell }
    ensures level { level_of result ≤ deepest }
{
    if cell.level() <= deepest {
        cell
    } else {
        cell.parent(deepest)
    }
}

/// Adds how many cells there are, and how many of them are too small to be seen.
fn put_note(text: &mut Vec<u8>, cells: &[CellId]) -> Result<(), AllocError>
    ensures { IfOk result (λ _. text.new.items ≡ text.old.items ++ note cells.now) }
{
    put_field(text, b"<text x='0' y='176'>cells: ", cells.len() as u64)?;
    put(text, b"</text>\n")?;
    match small(cells) as u64 {
        0 => Ok(()),
        count => put_small(text, count),
    }
}

/// Adds how many cells are too small to be seen.
#[tactic(auto, unfolding(crate::specs::Picture::small_line))]
fn put_small(text: &mut Vec<u8>, count: u64) -> Result<(), AllocError>
    ensures { IfOk result (λ _. text.new.items ≡ text.old.items ++ small_line count) }
{
    put_field(text, b"<text x='0' y='272'>", count)?;
    put(
        text,
        b" deeper than level 9, drawn as cells of level 9</text>\n",
    )
}

/// How many cells are too small to be seen.
fn small(cells: &[CellId]) -> usize
    ensures { result ≡ count_by (λ c. not (can_be_seen c)) cells.now }
{
    let mut count = 0;
    for cell in cells {
        if cell.level() > DEEPEST {
            count += 1;
        }
    }
    count
}

/// Adds the rectangles of the cells.
fn put_rectangles(text: &mut Vec<u8>, cells: &[CellId]) -> Result<(), AllocError>
    requires { All (λ c. level_of c ≤ 9) cells.now }
    ensures { IfOk result (λ _. text.new.items ≡ text.old.items ++ rectangles cells.now) }
{
    put(text, b"<g id='cells'>\n")?;
    for cell in cells {
        put_rectangle(text, *cell)?;
    }
    put(text, b"</g>\n")
}

/// Adds the rectangle of a cell.
fn put_rectangle(text: &mut Vec<u8>, cell: CellId) -> Result<(), AllocError>
    requires { level_of cell ≤ 9 }
    ensures { IfOk result (λ _. text.new.items ≡ text.old.items ++ rectangle cell) }
{
    let shape = rectangle_of(cell);
    put_field(text, b"<rect class='l", u64::from(cell.level()))?;
    put_field(text, b"' x='", u64::from(shape.left))?;
    put_field(text, b"' y='", u64::from(shape.top))?;
    put_field(text, b"' width='", u64::from(shape.side))?;
    put_field(text, b"' height='", u64::from(shape.side))?;
    put(text, b"'/>\n")
}

/// Adds the line that joins the middles of the cells, if it is asked for.
pub(crate) fn put_curve(text: &mut Vec<u8>, cells: &[CellId], curve: bool) -> Result<(), AllocError>
    requires { All (λ c. level_of c ≤ 9) cells.now }
    ensures { IfOk result (λ _. text.new.items ≡ text.old.items ++ cond curve (line cells.now) []) }
{
    if curve { put_line(text, cells) } else { Ok(()) }
}

/// Adds the line that joins the middles of the cells.
fn put_line(text: &mut Vec<u8>, cells: &[CellId]) -> Result<(), AllocError>
    requires { All (λ c. level_of c ≤ 9) cells.now }
    ensures { IfOk result (λ _. text.new.items ≡ text.old.items ++ line cells.now) }
{
    put(text, b"<polyline class='curve' points='")?;
    for cell in cells {
        put_middle(text, *cell)?;
    }
    put(text, b"'/>\n")
}

/// Adds the middle of a cell's rectangle.
#[tactic(auto, unfolding(crate::specs::Picture::middle))]
fn put_middle(text: &mut Vec<u8>, cell: CellId) -> Result<(), AllocError>
    requires { level_of cell ≤ 9 }
    ensures { IfOk result (λ _. text.new.items ≡ text.old.items ++ middle cell) }
{
    let shape = rectangle_of(cell);
    put_field(text, b"", u64::from(shape.left + shape.side / 2))?;
    put_field(text, b",", u64::from(shape.top + shape.side / 2))?;
    put(text, b" ")
}

/// Adds a number in decimal digits, after a few bytes.
pub(crate) fn put_field(text: &mut Vec<u8>, before: &[u8], number: u64) -> Result<(), AllocError>
    ensures { IfOk result (λ _. text.new.items ≡ text.old.items ++ before.now ++ decimal number) }
{
    let mut buffer = Buffer::new();
    put(text, before)?;
    put(text, buffer.format(number).as_bytes())
}

/// Adds bytes.
pub(crate) fn put(text: &mut Vec<u8>, bytes: &[u8]) -> Result<(), AllocError>
    ensures { IfOk result (λ _. text.new.items ≡ text.old.items ++ bytes.now) }
{
    text.extend_from_slice(bytes)
}

//! The picture of several lists of cells.
ghost use Rattle.std.specs.Prelude.{◌≡◌, ◌≤◌, ◌++◌, ◌^◌, ℕ, All, IfOk, flat_map};
ghost use Rattle.s2cell.specs.Cell.{level_of, IsCell};
ghost use Rattle.s2draw.specs.Rectangles.{seen, IsDrawnExactly};
ghost use Rattle.s2draw.specs.Overlay.{escaped_byte, outline, outlines, legend, layer, overlay_head, overlay_foot};

use crate::fixed::{COLORS, DEEPER, FACES, FOOT, STYLE};
use crate::image::{cells_to_draw, put, put_curve, put_field};
use crate::rectangle::{DEEPEST, rectangle_of};
use s2cell::CellId;
use std::alloc::{AllocError, Global};

/// How many colors there are. After the last one comes the first again.
pub(crate) const COLOR_COUNT: u16 = 8;

/// How many lines the legend has room for without making the image longer.
const LEGEND_ROOM: u16 = 9;

/// The beginning of a picture of this many lists of cells, each in a color of its own. Then `add_layer` adds each list,
/// and `end_overlay` ends the picture, so that the lists need not be in memory at the same time.
pub fn begin_overlay(alloc: Global, lists: u16) -> Result<Vec<u8>, AllocError>
    ensures { IfOk result (λ text. text.items ≡ overlay_head lists) }
{
    let more = u64::from(lists.saturating_sub(LEGEND_ROOM));
    let mut text = Vec::new(alloc);
    put_field(
        &mut text,
        b"<svg xmlns='http://www.w3.org/2000/svg' width='1072' height='",
        824 + 24 * more,
    )?;
    put_field(&mut text, b"' viewBox='-96 -112 4288 ", 3296 + 96 * more)?;
    put(&mut text, b"'>\n")?;
    put(&mut text, STYLE.as_bytes())?;
    put(&mut text, COLORS.as_bytes())?;
    put(&mut text, DEEPER.as_bytes())?;
    put(&mut text, FACES.as_bytes())?;
    Ok(text)
}

/// Adds a list of cells to a picture, over those that are there, and its line of the legend: the name, with what XML
/// reserves escaped and each byte that is not printable ASCII as `?`, and the number of cells. `index` counts the
/// lists from 0. Its color is the index modulo 8, and is partly transparent. If `curve`, a line joins the middles of
/// the cells, as in `picture`.
///
/// A cell deeper than level 9 is drawn as its ancestor of level 9. Linear; takes some 25 bytes of memory for each cell
/// that is drawn, and 8 while it works, or answers `AllocError`. Then the text has a part of it.
pub fn add_layer(
    alloc: Global,
    text: &mut Vec<u8>,
    index: u16,
    name: &[u8],
    cells: &[CellId],
    curve: bool,
) -> Result<(), AllocError>
    ensures bytes { IfOk result (λ _. text.new.items
        ≡ text.old.items ++ layer curve index (record { name = name.now; cells = cells.now })) }
    // Each rectangle is the square of its cell.
    ensures squares { IfOk result (λ _. (c : ℕ) → IsCell c → IsDrawnExactly (seen c)) }
{
    let list = cells_to_draw(alloc, DEEPEST, cells)?;
    put_field(text, b"<g class='c", u64::from(index % COLOR_COUNT))?;
    put(text, b"'>\n")?;
    put_outlines(text, list.as_slice())?;
    put_curve(text, list.as_slice(), curve)?;
    put_legend(text, 2144, 2240 + 96 * u64::from(index), name, cells)?;
    put(text, b"</g>\n")
}

/// Adds the end of a picture that was begun by `begin_overlay`, or answers `AllocError`. Then the text has a part of
/// it.
#[tactic(auto, unfolding(crate::specs::Overlay::overlay_foot))]
pub fn end_overlay(text: &mut Vec<u8>) -> Result<(), AllocError>
    ensures { IfOk result (λ _. text.new.items ≡ text.old.items ++ overlay_foot) }
{
    put(text, FOOT.as_bytes())
}

/// Adds the rectangles of the cells as one path, which a viewer reads and draws faster than as many rectangles.
fn put_outlines(text: &mut Vec<u8>, cells: &[CellId]) -> Result<(), AllocError>
    requires { All (λ c. level_of c ≤ 9) cells.now }
    ensures { IfOk result (λ _. text.new.items ≡ text.old.items ++ outlines cells.now) }
{
    put(text, b"<path d='")?;
    for cell in cells {
        put_outline(text, *cell)?;
    }
    put(text, b"'/>\n")
}

/// Adds the rectangle of a cell.
fn put_outline(text: &mut Vec<u8>, cell: CellId) -> Result<(), AllocError>
    requires { level_of cell ≤ 9 }
    ensures { IfOk result (λ _. text.new.items ≡ text.old.items ++ outline cell) }
{
    let shape = rectangle_of(cell);
    put_field(text, b"M", u64::from(shape.left))?;
    put_field(text, b",", u64::from(shape.top))?;
    put_field(text, b"h", u64::from(shape.side))?;
    put_field(text, b"v", u64::from(shape.side))?;
    put_field(text, b"h-", u64::from(shape.side))?;
    put(text, b"z")
}

/// Adds a line of the legend at a place.
pub(crate) fn put_legend(
    text: &mut Vec<u8>,
    left: u64,
    top: u64,
    name: &[u8],
    cells: &[CellId],
) -> Result<(), AllocError>
    requires { (left ≤ 2 ^ 32) × (top ≤ 2 ^ 32) }
    ensures { IfOk result (λ _. text.new.items
        ≡ text.old.items ++ legend left top (record { name = name.now; cells = cells.now })) }
{
    put_field(text, b"<rect x='", left)?;
    put_field(text, b"' y='", top)?;
    put_field(text, b"' width='64' height='64'/><text x='", left + 96)?;
    put_field(text, b"' y='", top + 56)?;
    put(text, b"'>")?;
    put_name(text, name)?;
    put_field(text, b": ", cells.len() as u64)?;
    put(text, b" cells</text>\n")
}

/// Adds a name.
fn put_name(text: &mut Vec<u8>, name: &[u8]) -> Result<(), AllocError>
    ensures { IfOk result (λ _. text.new.items ≡ text.old.items ++ flat_map escaped_byte name.now) }
{
    for byte in name {
        put_escaped(text, *byte)?;
    }
    Ok(())
}

/// Adds a byte of a name, as it is shown.
fn put_escaped(text: &mut Vec<u8>, byte: u8) -> Result<(), AllocError>
    ensures { IfOk result (λ _. text.new.items ≡ text.old.items ++ escaped_byte byte) }
{
    match byte {
        b'&' => put(text, b"&amp;"),
        b'<' => put(text, b"&lt;"),
        b'>' => put(text, b"&gt;"),
        b' '..=b'~' => put(text, &[byte]),
        _ => put(text, b"?"),
    }
}

//! The picture of the part of the unfolded faces in which lists of cells lie.
ghost use Rattle.std.specs.Prelude.{◌≡◌, ◌≤◌, ◌++◌, ◌-◌, ◌*◌, ◌^◌, ℕ, IfOk};
ghost use Rattle.s2cell.specs.Cell.{IsCell};
ghost use Rattle.s2draw.specs.Zoom.{IsOnFaces, IsPart, nowhere, grown, all_grown, or_all_faces, with_margin, part_of};
ghost use Rattle.s2draw.specs.Zoom.{part_around, seen_at, IsShownExactly, box_of, face_box, clipped, window};
ghost use Rattle.s2draw.specs.Zoom.{sides, outline_of, piece, pieces, face_piece, face_pieces, zoom_layer, zoom_head};
ghost use Rattle.s2draw.specs.Zoom.{zoom_foot, depth_from, longer_side, zoom_size, depth_line};

use crate::fixed::{COLORS, STYLE};
use crate::image::{cells_to_draw, put, put_field};
use crate::overlay::{COLOR_COUNT, put_legend};
use s2cell::CellId;
use std::alloc::{AllocError, Global};

/// The side of a face, in leaves.
const SIDE: u64 = 1_073_741_824;

/// A rectangle of the unfolded faces, from their left and their top. It has nothing if an edge is not before the other.
#[derive(Clone, Copy)]
pub struct Bounds {
    /// Its left edge.
    pub left: u64,
    /// Its top edge.
    pub top: u64,
    /// Its right edge.
    pub right: u64,
    /// Its bottom edge.
    pub bottom: u64,
}

/// The part of the unfolded faces that a picture shows.
#[derive(Clone, Copy)]
pub struct Part {
    /// The deepest level of the cells that are drawn.
    pub deepest: u8,
    /// The side of a cell of this level, in leaves: the unit of the picture.
    pub unit: u64,
    /// The part, in units.
    pub bounds: Bounds,
}

impl Bounds {
    /// The bounds of no cell, in leaves.
    pub fn nowhere() -> Bounds
        ensures bounds { result ≡ nowhere }
        ensures within { IsOnFaces result }
    {
        Bounds {
            left: 4 * SIDE,
            top: 4 * SIDE,
            right: 0,
            bottom: 0,
        }
    }

    /// The least bounds that have these and the squares of the cells.
    pub fn and(self, cells: &[CellId]) -> Bounds
        requires { IsOnFaces self }
        ensures bounds { result ≡ all_grown self cells.now }
        ensures within { IsOnFaces result }
    {
        let mut bounds = self;
        for cell in cells {
            bounds = bounds.grown(box_of(*cell));
        }
        bounds
    }

    /// The least bounds that have both.
    fn grown(self, other: Bounds) -> Bounds
        requires this { IsOnFaces self }
        requires other { IsOnFaces other }
        ensures bounds { result ≡ grown self other }
        ensures within { IsOnFaces result }
    {
        Bounds {
            left: self.left.min(other.left),
            top: self.top.min(other.top),
            right: self.right.max(other.right),
            bottom: self.bottom.max(other.bottom),
        }
    }

    /// The bounds; all faces if they have nothing.
    fn or_all_faces(self) -> Bounds
        requires { IsOnFaces self }
        ensures bounds { result ≡ or_all_faces self }
        ensures within { IsOnFaces result }
    {
        if self.left < self.right && self.top < self.bottom {
            return self;
        }
        Bounds {
            left: 0,
            top: 0,
            right: 4 * SIDE,
            bottom: 3 * SIDE,
        }
    }

    /// The bounds with a sixteenth of their longer side around them, but nothing left of the faces or above them.
    fn with_margin(self) -> Bounds
        requires { IsOnFaces self }
        ensures bounds { result ≡ with_margin self }
        ensures within { (result.right ≤ 8 * SIDE) × (result.bottom ≤ 8 * SIDE) }
    {
        let margin = self.longer_side() / 16;
        Bounds {
            left: self.left.saturating_sub(margin),
            top: self.top.saturating_sub(margin),
            right: self.right + margin,
            bottom: self.bottom + margin,
        }
    }

    /// The longer of the two sides.
    fn longer_side(self) -> u64
        ensures { result ≡ longer_side self }
    {
        let width = self.right.saturating_sub(self.left);
        width.max(self.bottom.saturating_sub(self.top))
    }
}

/// The part of the unfolded faces in which cells with these bounds lie, with a margin of a sixteenth; all of them if
/// there is no cell. Its longer side has some 1024 to 2048 units, unless it has fewer leaves.
pub fn part_around(bounds: Bounds) -> Part
    requires { IsOnFaces bounds }
    ensures part { result ≡ part_around bounds }
    ensures units { IsPart result }
{
    part_of(bounds.or_all_faces().with_margin())
}

/// The part with these bounds, in leaves.
fn part_of(bounds: Bounds) -> Part
    requires { (bounds.right ≤ 8 * SIDE) × (bounds.bottom ≤ 8 * SIDE) }
    ensures part { result ≡ part_of bounds }
    ensures units { IsPart result }
{
    let (deepest, unit) = depth_of(bounds.longer_side());
    Part {
        deepest,
        unit,
        bounds: Bounds {
            left: bounds.left / unit,
            top: bounds.top / unit,
            right: bounds.right / unit + 1,
            bottom: bounds.bottom / unit + 1,
        },
    }
}

/// The deepest level of cells of which fewer than 2048 lie along a side of this many leaves, and their own side.
#[tactic(auto, using(crate::proofs::Depths::deeper, crate::proofs::Depths::enough, crate::proofs::Depths::doubled))]
fn depth_of(leaves: u64) -> (u8, u64)
    ensures depth { result.0 ≡ depth_from 30 leaves }
    ensures unit { (result.1 ≡ 2 ^ (30 - result.0)) × (result.0 ≤ 30) }
{
    let mut deepest = 30;
    let mut unit = 1;
    let mut side = leaves;
    while deepest > 0 && side >= 2048 {
        deepest -= 1;
        unit *= 2;
        side /= 2;
    }
    (deepest, unit)
}

/// The square of a cell on the unfolded faces, in leaves.
fn box_of(cell: CellId) -> Bounds
    ensures bounds { result ≡ box_of cell }
    ensures within { IsOnFaces result }
{
    let _ = cell.id();
    let square = cell.square();
    let face = u64::from(square.face);
    let i = u64::from(square.i);
    let j = u64::from(square.j);
    let size = u64::from(square.size);
    let left = SIDE * ((face + 1) / 2) + i;
    let bottom = SIDE * (3 - face / 2) - j;
    Bounds {
        left,
        top: bottom - size,
        right: left + size,
        bottom,
    }
}

/// The square of a face among the unfolded faces, in leaves.
fn face_box(face: u64) -> Bounds
    requires { face ≤ 5 }
    ensures { result ≡ face_box face }
{
    let left = SIDE * ((face + 1) / 2);
    let bottom = SIDE * (3 - face / 2);
    Bounds {
        left,
        top: bottom - SIDE,
        right: left + SIDE,
        bottom,
    }
}

impl Part {
    /// What the part has of a rectangle that is given in leaves: in units, from the part's own left and top.
    fn clipped(self, bounds: Bounds) -> Bounds
        requires { IsPart self }
        ensures { result ≡ clipped self bounds }
    {
        let all = self.bounds;
        Bounds {
            left: (bounds.left / self.unit).saturating_sub(all.left),
            top: (bounds.top / self.unit).saturating_sub(all.top),
            right: (bounds.right / self.unit)
                .min(all.right)
                .saturating_sub(all.left),
            bottom: (bounds.bottom / self.unit)
                .min(all.bottom)
                .saturating_sub(all.top),
        }
    }
}

/// Adds the outline of a rectangle, if it has something.
#[tactic(auto, unfolding(crate::specs::Zoom::outline_of))]
fn put_outline_of(text: &mut Vec<u8>, bounds: Bounds) -> Result<(), AllocError>
    ensures { IfOk result (λ _. text.new.items ≡ text.old.items ++ outline_of bounds) }
{
    if bounds.left < bounds.right && bounds.top < bounds.bottom {
        put_sides(text, bounds)
    } else {
        Ok(())
    }
}

/// Adds the outline of a rectangle.
fn put_sides(text: &mut Vec<u8>, bounds: Bounds) -> Result<(), AllocError>
    requires { (bounds.left ≤ bounds.right) × (bounds.top ≤ bounds.bottom) }
    ensures { IfOk result (λ _. text.new.items ≡ text.old.items ++ sides bounds) }
{
    let width = bounds.right - bounds.left;
    put_field(text, b"M", bounds.left)?;
    put_field(text, b",", bounds.top)?;
    put_field(text, b"h", width)?;
    put_field(text, b"v", bounds.bottom - bounds.top)?;
    put_field(text, b"h-", width)?;
    put(text, b"z")
}

/// Adds what the part has of a cell.
fn put_piece(text: &mut Vec<u8>, part: Part, cell: CellId) -> Result<(), AllocError>
    requires { IsPart part }
    ensures { IfOk result (λ _. text.new.items ≡ text.old.items ++ piece part cell) }
{
    put_outline_of(text, part.clipped(box_of(cell)))
}

/// Adds what the part has of the cells, as one path.
fn put_pieces(text: &mut Vec<u8>, part: Part, cells: &[CellId]) -> Result<(), AllocError>
    requires { IsPart part }
    ensures { IfOk result (λ _. text.new.items ≡ text.old.items ++ pieces part cells.now) }
{
    put(text, b"<path d='")?;
    for cell in cells {
        put_piece(text, part, *cell)?;
    }
    put(text, b"'/>\n")
}

/// Adds what the part has of a face.
fn put_face(text: &mut Vec<u8>, part: Part, face: u64) -> Result<(), AllocError>
    requires part { IsPart part }
    requires face { face ≤ 5 }
    ensures { IfOk result (λ _. text.new.items ≡ text.old.items ++ face_piece part face) }
{
    put_outline_of(text, part.clipped(face_box(face)))
}

/// Adds what the part has of the faces, as one path.
fn put_faces(text: &mut Vec<u8>, part: Part) -> Result<(), AllocError>
    requires { IsPart part }
    ensures { IfOk result (λ _. text.new.items ≡ text.old.items ++ face_pieces part) }
{
    put(
        text,
        b"<path style='fill-opacity:1;stroke:#4b5563' vector-effect='non-scaling-stroke' d='",
    )?;
    put_face(text, part, 0)?;
    put_face(text, part, 1)?;
    put_face(text, part, 2)?;
    put_face(text, part, 3)?;
    put_face(text, part, 4)?;
    put_face(text, part, 5)?;
    put(text, b"'/>\n")
}

/// Adds the beginning of the window in which the part is seen.
fn put_window(text: &mut Vec<u8>, part: Part) -> Result<(), AllocError>
    ensures { IfOk result (λ _. text.new.items ≡ text.old.items ++ window part) }
{
    let all = part.bounds;
    put_field(
        text,
        b"<svg x='0' y='320' width='4096' height='2720' viewBox='0 0 ",
        all.right.saturating_sub(all.left),
    )?;
    put_field(text, b" ", all.bottom.saturating_sub(all.top))?;
    put(text, b"'>\n")
}

/// The beginning of a picture of a part, for this many lists of cells, each in a color of its own. Then `add_zoomed`
/// adds each list, and `end_zoom` ends the picture.
pub fn begin_zoom(alloc: Global, part: Part, lists: u16) -> Result<Vec<u8>, AllocError>
    requires { IsPart part }
    ensures { IfOk result (λ text. text.items ≡ zoom_head part lists) }
{
    let mut text = Vec::new(alloc);
    put_size(&mut text, lists)?;
    put(&mut text, STYLE.as_bytes())?;
    put(&mut text, COLORS.as_bytes())?;
    put_depth(&mut text, part.deepest)?;
    put(&mut text, b"<g class='face'>\n")?;
    put_window(&mut text, part)?;
    put_faces(&mut text, part)?;
    put(&mut text, b"</svg>\n</g>\n")?;
    Ok(text)
}

/// Adds the size of a picture of this many lists.
fn put_size(text: &mut Vec<u8>, lists: u16) -> Result<(), AllocError>
    ensures { IfOk result (λ _. text.new.items ≡ text.old.items ++ zoom_size lists) }
{
    put_field(
        text,
        b"<svg xmlns='http://www.w3.org/2000/svg' width='1072' height='",
        824 + 24 * u64::from(lists),
    )?;
    put_field(
        text,
        b"' viewBox='-96 -112 4288 ",
        3296 + 96 * u64::from(lists),
    )?;
    put(text, b"'>\n")
}

/// Adds what becomes of deeper cells.
fn put_depth(text: &mut Vec<u8>, deepest: u8) -> Result<(), AllocError>
    ensures { IfOk result (λ _. text.new.items ≡ text.old.items ++ depth_line deepest) }
{
    put_field(
        text,
        b"<text x='0' y='272'>Cells deeper than level ",
        u64::from(deepest),
    )?;
    put_field(text, b" are drawn as cells of level ", u64::from(deepest))?;
    put(text, b".</text>\n")
}

/// Adds a list of cells to a picture of a part, over those that are there, and its line of the legend, as `add_layer`
/// does. Leaves outside of the part are left out. Linear; takes some 35 bytes of memory for each cell that is drawn,
/// and 8 for each cell while it works, or answers `AllocError`. Then the text has a part of it.
pub fn add_zoomed(
    alloc: Global,
    text: &mut Vec<u8>,
    part: Part,
    index: u16,
    name: &[u8],
    cells: &[CellId],
) -> Result<(), AllocError>
    requires { IsPart part }
    ensures bytes { IfOk result (λ _. text.new.items
        ≡ text.old.items ++ zoom_layer part index (record { name = name.now; cells = cells.now })) }
    // Each cell that is drawn has whole units on all sides.
    ensures squares { IfOk result (λ _. (c : ℕ) → IsCell c → IsShownExactly part (seen_at part.deepest c)) }
{
    let list = cells_to_draw(alloc, part.deepest, cells)?;
    put_field(text, b"<g class='c", u64::from(index % COLOR_COUNT))?;
    put(text, b"'>\n")?;
    put_window(text, part)?;
    put_pieces(text, part, list.as_slice())?;
    put(text, b"</svg>\n")?;
    put_legend(text, 0, 3104 + 96 * u64::from(index), name, cells)?;
    put(text, b"</g>\n")
}

/// Adds the end of a picture of a part, or answers `AllocError`. Then the text has a part of it.
#[tactic(auto, unfolding(crate::specs::Zoom::zoom_foot))]
pub fn end_zoom(text: &mut Vec<u8>) -> Result<(), AllocError>
    ensures { IfOk result (λ _. text.new.items ≡ text.old.items ++ zoom_foot) }
{
    put(text, b"</svg>\n")
}

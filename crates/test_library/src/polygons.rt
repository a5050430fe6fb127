//! Calls of `s2polygon`: polygons of rings of corners, the leaves inside them, and their coverings.

use crate::texts::{add_cells, cut, numbers_of, small, yes_or_no};
use s2cell::{CellId, GREATEST_LEVEL};
use s2cover::{CoverFault, MOST_COVERING, Part};
use s2geodesic::{GeodesicFault, polygon_of};
use s2polygon::{Direction, Polygon, PolygonFault};
use s2union::CellUnion;
use std::alloc::{AllocError, Global};
use test_table::{add_line, number};

/// Corners, and where their rings end.
#[derive(Drop)]
struct Rings {
    corners: Vec<Direction>,
    ends: Vec<usize>,
}

/// Makes a call `polygon`, `outer LEVEL MOST`, `inner LEVEL MOST`, `outer_up_to LEVEL MOST`, `inner_up_to LEVEL MOST`,
/// `part CELL` or `holds LEAF`, each followed by `/ MARGIN OUTSIDE / X Y Z X Y Z .. / X Y Z ..`, and adds its answer.
/// With `rounded` for margin and leaf the polygon is that of rounded corners, of `s2geodesic`. False for the name of
/// another call.
pub fn answer(
    alloc: Global,
    name: &str,
    words: &str,
    found: &mut Vec<u8>,
) -> Result<bool, AllocError> {
    if name != "polygon" {
        return Ok(false);
    }
    let (question, rest) = cut(words);
    let (place, rings) = cut(rest);
    let Some(rings) = rings_of(alloc, rings)? else {
        add_line(found, "no direction")?;
        return Ok(true);
    };
    if place == "rounded" {
        match polygon_of(alloc, &rings.corners, &rings.ends) {
            Ok(polygon) => add_answer(alloc, &polygon, question, found)?,
            Err(fault) => add_line(found, name_of_geodesic(fault))?,
        }
        return Ok(true);
    }
    let (margin, outside) = place.split_once(" ").unwrap_or((place, ""));
    let Some(outside) = CellId::from_token(outside.as_bytes()) else {
        add_line(found, "no cell")?;
        return Ok(true);
    };
    match Polygon::new(alloc, &rings.corners, &rings.ends, outside, number(margin)) {
        Ok(polygon) => add_answer(alloc, &polygon, question, found)?,
        Err(fault) => add_line(found, name_of(fault))?,
    }
    Ok(true)
}

/// The corners of rings, which slashes part. None if three numbers are no direction.
fn rings_of(alloc: Global, text: &str) -> Result<Option<Rings>, AllocError> {
    let mut corners = Vec::new(alloc);
    let mut ends = Vec::new(alloc);
    for ring in text.split("/") {
        // The coordinates of the corner that is being read.
        let mut x = None;
        let mut y = None;
        for word in ring.split_whitespace() {
            let number = coordinate_of(word);
            match (x, y) {
                (None, _) => x = Some(number),
                (_, None) => y = Some(number),
                (Some(a), Some(b)) => {
                    match Direction::new(a, b, number) {
                        Ok(corner) => corners.push(corner)?,
                        Err(_) => return Ok(None),
                    }
                    x = None;
                    y = None;
                }
            }
        }
        ends.push(corners.len())?;
    }
    Ok(Some(Rings { corners, ends }))
}

/// A number, which may be below 0.
pub(crate) fn coordinate_of(word: &str) -> i64 {
    match word.strip_prefix("-") {
        Some(size) => -i64::try_from(number(size)).unwrap_or(i64::MAX),
        None => i64::try_from(number(word)).unwrap_or(i64::MAX),
    }
}

fn name_of(fault: PolygonFault) -> &'static str {
    match fault {
        PolygonFault::NoRing => "no ring",
        PolygonFault::WrongEnd(_) => "wrong end",
        PolygonFault::TooFewCorners(_) => "too few corners",
        PolygonFault::Antipodal(_) => "antipodal",
        PolygonFault::NotALeaf => "not a leaf",
        PolygonFault::MarginTooLarge => "margin too large",
        PolygonFault::Memory => "memory",
    }
}

fn name_of_geodesic(fault: GeodesicFault) -> &'static str {
    match fault {
        GeodesicFault::Rings(fault) => name_of(fault),
        GeodesicFault::LongEdge(_) => "long edge",
        GeodesicFault::Spread => "spread",
    }
}

/// Adds the answer to a question about a polygon.
fn add_answer(
    alloc: Global,
    polygon: &Polygon,
    question: &str,
    found: &mut Vec<u8>,
) -> Result<(), AllocError> {
    let (what, words) = question.split_once(" ").unwrap_or((question, ""));
    if what == "holds" || what == "part" {
        let Some(cell) = CellId::from_token(words.as_bytes()) else {
            return add_line(found, "no cell");
        };
        return add_place(alloc, polygon, what, cell, found);
    }
    let [level, most, ..] = numbers_of(words);
    let level = small(level);
    if level > GREATEST_LEVEL || most > MOST_COVERING as u64 {
        return add_line(found, "out of range");
    }
    let most = most as usize;
    match what {
        "outer" => add_covering(found, polygon.outer(alloc, level, most)),
        "inner" => add_covering(found, polygon.inner(alloc, level, most)),
        "outer_up_to" => add_cells(found, polygon.outer_up_to(alloc, level, most)?.cells()),
        _ => add_cells(found, polygon.inner_up_to(alloc, level, most)?.cells()),
    }
}

/// Adds whether a leaf lies inside a polygon, or how a cell lies relative to it.
fn add_place(
    alloc: Global,
    polygon: &Polygon,
    what: &str,
    cell: CellId,
    found: &mut Vec<u8>,
) -> Result<(), AllocError> {
    if what == "part" {
        return add_line(found, word_of(polygon.part(alloc, cell)?));
    }
    if !cell.is_leaf() {
        return add_line(found, "no leaf");
    }
    add_line(found, yes_or_no(polygon.holds(alloc, cell)?))
}

fn word_of(part: Part) -> &'static str {
    match part {
        Part::In => "in",
        Part::Out => "out",
        Part::Cross => "cross",
    }
}

/// Adds the cells of a covering, or why there is none.
fn add_covering(
    found: &mut Vec<u8>,
    made: Result<CellUnion, CoverFault>,
) -> Result<(), AllocError> {
    match made {
        Ok(union) => add_cells(found, union.cells()),
        Err(CoverFault::TooMany) => add_line(found, "too many"),
        Err(CoverFault::Memory) => add_line(found, "memory"),
    }
}

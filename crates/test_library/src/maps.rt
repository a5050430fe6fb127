//! Calls of `s2map`: the boxes of cells, and coverings of shapes of the map.

use crate::polygons::coordinate_of;
use crate::texts::{cut, numbers_of, small};
use s2cell::{CellId, GREATEST_LEVEL};
use s2map::{MapBox, MapCovering, MapFault, MapPart, MapShape, Place};
use std::alloc::{AllocError, Global};
use test_table::add_line;

/// How much wider than a cell its box may be on each side, in femtodegrees.
const NEAR: i64 = 4000;

/// Makes a call and adds its answer: `map_box CELL WEST EAST SOUTH NORTH`, of which the numbers were found otherwise,
/// `map_covering LEVEL / X Y X Y .. / X Y ..`, or `map_leaf LEVEL LEAF / X Y X Y ..`; all degrees are femtodegrees.
/// False for the name of another call.
pub fn answer(
    alloc: Global,
    name: &str,
    words: &str,
    found: &mut Vec<u8>,
) -> Result<bool, AllocError> {
    match name {
        "map_box" => add_box(alloc, words, found)?,
        "map_covering" | "map_leaf" => add_covering(alloc, name, words, found)?,
        _ => return Ok(false),
    }
    Ok(true)
}

/// Adds whether the box of a cell is near to these bounds, and holds them; or else the box.
fn add_box(alloc: Global, words: &str, found: &mut Vec<u8>) -> Result<(), AllocError> {
    let (token, bounds) = words.split_once(" ").unwrap_or((words, ""));
    let Some(cell) = CellId::from_token(token.as_bytes()) else {
        return add_line(found, "no cell");
    };
    let made = MapBox::of_cell(cell);
    let (west, rest) = bounds.split_once(" ").unwrap_or((bounds, ""));
    let (east, rest) = rest.split_once(" ").unwrap_or((rest, ""));
    let (south, north) = rest.split_once(" ").unwrap_or((rest, ""));
    if is_near(made.west, coordinate_of(west))
        && is_near(coordinate_of(east), made.east)
        && is_near(made.south, coordinate_of(south))
        && is_near(coordinate_of(north), made.north)
    {
        return add_line(found, "near");
    }
    let (w, e, s, n) = (made.west, made.east, made.south, made.north);
    add_line(found, &format!(in alloc; "{w} {e} {s} {n}")?)
}

/// Whether the second number is greater by no more than is allowed. It may be less by one, by which numbers are rounded
/// and boxes end below the poles.
fn is_near(low: i64, high: i64) -> bool {
    let more = high.saturating_sub(low);
    -1 <= more && more <= NEAR
}

/// Adds how many cells of a covering are met, and how many leaves those within have; or where a leaf lies.
fn add_covering(
    alloc: Global,
    name: &str,
    words: &str,
    found: &mut Vec<u8>,
) -> Result<(), AllocError> {
    let (question, rings) = cut(words);
    let (level, token) = question.split_once(" ").unwrap_or((question, ""));
    let [level, ..] = numbers_of(level);
    let level = small(level);
    if level > GREATEST_LEVEL {
        return add_line(found, "out of range");
    }
    let part = match part_of(alloc, rings) {
        Ok(part) => part,
        Err(_) => return add_line(found, "no part"),
    };
    let mut shape = MapShape::new(alloc);
    shape.add(part)?;
    let covering = shape.covering(alloc, level)?;
    if name == "map_leaf" {
        return add_line(
            found,
            place_in(&covering, CellId::from_token(token.as_bytes())),
        );
    }
    let mut leaves = 0u64;
    for cell in &covering.within {
        leaves = leaves.saturating_add(cell.leaf_count());
    }
    let met = covering.met.len();
    add_line(found, &format!(in alloc; "{met} {leaves}")?)
}

/// Which cells of a covering have a leaf.
fn place_in(covering: &MapCovering, leaf: Option<CellId>) -> &'static str {
    let Some(leaf) = leaf else {
        return "no cell";
    };
    for cell in &covering.met {
        if cell.contains(leaf) {
            return "met";
        }
    }
    for cell in &covering.within {
        if cell.contains(leaf) {
            return "within";
        }
    }
    "outside"
}

/// The part of rings, which slashes part.
fn part_of(alloc: Global, text: &str) -> Result<MapPart, MapFault> {
    let mut corners = Vec::new(alloc);
    let mut ends = Vec::new(alloc);
    for ring in text.split("/") {
        let mut longitude = None;
        for word in ring.split_whitespace() {
            let number = coordinate_of(word);
            match longitude {
                None => longitude = Some(number),
                Some(longitude_before) => {
                    corners.push(Place {
                        longitude: longitude_before,
                        latitude: number,
                    })?;
                    longitude = None;
                }
            }
        }
        ends.push(corners.len())?;
    }
    MapPart::new(alloc, &corners, &ends)
}

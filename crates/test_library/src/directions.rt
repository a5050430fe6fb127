//! Calls of `s2degrees`: the directions of places, and degrees as whole femtodegrees.

use crate::polygons::coordinate_of;
use s2degrees::{
    DegreesFault, NumberFault, TextFault, direction_at, direction_of, femtodegrees_of,
    femtodegrees_of_text,
};
use s2polygon::Direction;
use std::alloc::{AllocError, Global};
use test_table::add_line;

/// Makes a call and adds its answer: `direction LONGITUDE LATITUDE`, both in whole femtodegrees, `degrees
/// LONGITUDE LATITUDE`, both doubles, `double NUMBER`, or `decimal NUMBER`. False for the name of another call.
pub fn answer(
    alloc: Global,
    name: &str,
    words: &str,
    found: &mut Vec<u8>,
) -> Result<bool, AllocError> {
    let (first, second) = words.split_once(" ").unwrap_or((words, ""));
    match name {
        "direction" => add_direction(
            alloc,
            direction_of(coordinate_of(first), coordinate_of(second)),
            found,
        )?,
        "degrees" => add_direction(
            alloc,
            direction_at(double_of(first), double_of(second)),
            found,
        )?,
        "double" => match femtodegrees_of(double_of(words)) {
            Ok(number) => add_line(found, &format!(in alloc; "{number}")?)?,
            Err(NumberFault::NotFinite) => add_line(found, "not finite")?,
            Err(NumberFault::TooFar) => add_line(found, "too far")?,
        },
        "decimal" => match femtodegrees_of_text(words.as_bytes()) {
            Ok(number) => add_line(found, &format!(in alloc; "{number}")?)?,
            Err(TextFault::NotDecimal) => add_line(found, "no decimal")?,
            Err(TextFault::TooFar) => add_line(found, "too far")?,
        },
        _ => return Ok(false),
    }
    Ok(true)
}

/// Adds a direction, or why there is none.
fn add_direction(
    alloc: Global,
    made: Result<Direction, DegreesFault>,
    found: &mut Vec<u8>,
) -> Result<(), AllocError> {
    match made {
        Ok(direction) => {
            let (x, y, z) = (direction.x(), direction.y(), direction.z());
            add_line(found, &format!(in alloc; "{x} {y} {z}")?)
        }
        Err(DegreesFault::Longitude) => add_line(found, "longitude"),
        Err(DegreesFault::Latitude) => add_line(found, "latitude"),
    }
}

/// The double that a text writes, or one that is no number.
fn double_of(word: &str) -> f64 {
    word.parse::<f64>().unwrap_or(f64::NAN)
}

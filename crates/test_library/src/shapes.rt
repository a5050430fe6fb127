//! Calls of `s2shape`: the shapes of WKB and of texts of GeoJSON.
use s2shape::{Fault, Kind, Part, Shape, ShapeError, read_geojson, read_wkb};
use std::alloc::{AllocError, Global};
use test_table::{add_line, bytes_of};

/// Makes a call `wkb BYTES`, `geojson TEXT`, or `geojson-bytes BYTES`, and adds its answer. False for the name of
/// another call.
pub fn answer(
    alloc: Global,
    name: &str,
    words: &str,
    found: &mut Vec<u8>,
) -> Result<bool, AllocError> {
    if name == "wkb" {
        add_read(alloc, found, read_wkb(alloc, &bytes_of(alloc, words)?))?;
    } else if name == "geojson" {
        add_read(alloc, found, read_geojson(alloc, words.as_bytes()))?;
    } else if name == "geojson-bytes" {
        add_read(alloc, found, read_geojson(alloc, &bytes_of(alloc, words)?))?;
    } else {
        return Ok(false);
    }
    Ok(true)
}

/// Adds a line for each part of a shape, or what is wrong with its bytes.
fn add_read(
    alloc: Global,
    found: &mut Vec<u8>,
    read: Result<Shape, ShapeError>,
) -> Result<(), AllocError> {
    match read {
        Ok(shape) => add_shape(alloc, found, &shape),
        Err(ShapeError::Memory) => add_line(found, "memory"),
        Err(ShapeError::Fault(fault)) => add_fault(alloc, found, fault),
    }
}

/// Adds the name of a fault and its place.
pub fn add_fault(alloc: Global, found: &mut Vec<u8>, fault: Fault) -> Result<(), AllocError> {
    let (name, byte, part) = (fault.name, fault.byte, fault.part);
    let (ring, position) = (fault.ring, fault.position);
    let text = format!(in alloc;
        "{name:?} byte {byte} part {part} ring {ring} position {position}"
    )?;
    add_line(found, &text)
}

/// Adds a line for each part.
fn add_shape(alloc: Global, found: &mut Vec<u8>, shape: &Shape) -> Result<(), AllocError> {
    let parts = shape.parts.len();
    add_line(found, &format!(in alloc; "parts {parts}")?)?;
    let mut first = 0;
    for part in &shape.parts {
        add_part(alloc, found, shape, first, *part)?;
        first = part.end;
    }
    Ok(())
}

/// Adds a line of a part: what it is, and the bits of the positions of each ring, from the first of its rings on.
fn add_part(
    alloc: Global,
    found: &mut Vec<u8>,
    shape: &Shape,
    first: usize,
    part: Part,
) -> Result<(), AllocError> {
    found.extend_from_slice(match part.kind {
        Kind::Point => b"point",
        Kind::Line => b"line",
        Kind::Polygon => b"polygon",
    })?;
    for k in first..part.end {
        add_ring(alloc, found, shape, k)?;
    }
    found.push(b'\n')?;
    Ok(())
}

/// Adds the bits of the positions of a ring, in hexadecimal, after a colon.
fn add_ring(alloc: Global, found: &mut Vec<u8>, shape: &Shape, k: usize) -> Result<(), AllocError> {
    let begin = match k.checked_sub(1) {
        Some(before) => end_of(shape, before),
        None => 0,
    };
    found.push(b':')?;
    for i in begin..end_of(shape, k) {
        if let Some(position) = shape.positions.get(i) {
            let (x, y) = (position.longitude, position.latitude);
            let text = format!(in alloc; " {x:x} {y:x}")?;
            found.extend_from_slice(text.as_bytes())?;
        }
    }
    Ok(())
}

/// How many positions there are up to the end of a ring; 0 if there is no such ring.
fn end_of(shape: &Shape, k: usize) -> usize {
    shape.rings.get(k).copied().unwrap_or(0)
}

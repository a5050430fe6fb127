//! Calls of `s2written`: coverings of shapes as they are written.
use crate::shapes::add_fault;
use crate::texts::{cut, numbers_of, small};
use s2cell::{CellId, GREATEST_LEVEL};
use s2cover::MOST_COVERING;
use s2written::{
    CoverError, Coverings, GeodesicError, cover_geodesic_geojson, cover_geodesic_geojson_up_to,
    cover_geodesic_wkb, cover_geodesic_wkb_up_to, cover_geojson, cover_geojson_up_to, cover_wkb,
    cover_wkb_up_to,
};
use std::alloc::{AllocError, Global};
use test_table::{add_line, bytes_of};

/// Makes a call `cover_wkb LEVEL WORK LEAF / BYTES` or `cover_geojson LEVEL WORK LEAF / TEXT`, and adds which of the
/// coverings have the leaf, or why there is none. False for the name of another call.
pub fn answer(
    alloc: Global,
    name: &str,
    words: &str,
    found: &mut Vec<u8>,
) -> Result<bool, AllocError> {
    let (question, bytes) = cut(words);
    let [level, work, ..] = numbers_of(question);
    let level = small(level);
    if name != "cover_wkb" && name != "cover_geojson" {
        return Ok(false);
    }
    if level > GREATEST_LEVEL {
        add_line(found, "out of range")?;
        return Ok(true);
    }
    let leaf = question.split_whitespace().last().unwrap_or("");
    let covered = if name == "cover_wkb" {
        cover_wkb(alloc, &bytes_of(alloc, bytes)?, level, work)
    } else {
        cover_geojson(alloc, bytes.as_bytes(), level, work)
    };
    add_covered(alloc, found, covered, CellId::from_token(leaf.as_bytes()))?;
    Ok(true)
}

/// Makes a call `cover_wkb_up_to DEEPEST MOST LEAF / BYTES` or `cover_geojson_up_to DEEPEST MOST LEAF / TEXT`, and adds
/// the same. False for the name of another call.
pub fn answer_up_to(
    alloc: Global,
    name: &str,
    words: &str,
    found: &mut Vec<u8>,
) -> Result<bool, AllocError> {
    let (question, bytes) = cut(words);
    let [deepest, most, ..] = numbers_of(question);
    let deepest = small(deepest);
    if name != "cover_wkb_up_to" && name != "cover_geojson_up_to" {
        return Ok(false);
    }
    if deepest > GREATEST_LEVEL || most > MOST_COVERING as u64 {
        add_line(found, "out of range")?;
        return Ok(true);
    }
    let leaf = question.split_whitespace().last().unwrap_or("");
    let covered = if name == "cover_wkb_up_to" {
        cover_wkb_up_to(alloc, &bytes_of(alloc, bytes)?, deepest, most as usize)
    } else {
        cover_geojson_up_to(alloc, bytes.as_bytes(), deepest, most as usize)
    };
    add_covered(alloc, found, covered, CellId::from_token(leaf.as_bytes()))?;
    Ok(true)
}

/// Adds which coverings have a leaf, or why there are none.
fn add_covered(
    alloc: Global,
    found: &mut Vec<u8>,
    covered: Result<Coverings, CoverError>,
    leaf: Option<CellId>,
) -> Result<(), AllocError> {
    match covered {
        Ok(coverings) => add_line(found, place_in(&coverings, leaf)),
        Err(CoverError::Fault(fault)) => add_fault(alloc, found, fault),
        Err(CoverError::NoInside(part)) => {
            add_line(found, &format!(in alloc; "NoInside part {part}")?)
        }
        Err(CoverError::Memory) => add_line(found, "memory"),
        Err(CoverError::NoMap) => add_line(found, "NoMap"),
        Err(CoverError::TooManyCells) => add_line(found, "TooManyCells"),
    }
}

/// Makes a call `cover_geodesic_wkb LEVEL MAX LEAF / BYTES` or `cover_geodesic_geojson LEVEL MAX LEAF / TEXT`, or the
/// same with `_up_to` after the name, and adds the same. False for the name of another call.
pub fn answer_geodesic(
    alloc: Global,
    name: &str,
    words: &str,
    found: &mut Vec<u8>,
) -> Result<bool, AllocError> {
    let (question, bytes) = cut(words);
    let [level, max, ..] = numbers_of(question);
    let level = small(level);
    let (form, is_few) = match name.strip_suffix("_up_to") {
        Some(form) => (form, true),
        None => (name, false),
    };
    if form != "cover_geodesic_wkb" && form != "cover_geodesic_geojson" {
        return Ok(false);
    }
    if level > GREATEST_LEVEL || max > MOST_COVERING as u64 {
        add_line(found, "out of range")?;
        return Ok(true);
    }
    let leaf = question.split_whitespace().last().unwrap_or("");
    let max = max as usize;
    let covered = match (form == "cover_geodesic_wkb", is_few) {
        (true, false) => cover_geodesic_wkb(alloc, &bytes_of(alloc, bytes)?, level, max),
        (true, true) => cover_geodesic_wkb_up_to(alloc, &bytes_of(alloc, bytes)?, level, max),
        (false, false) => cover_geodesic_geojson(alloc, bytes.as_bytes(), level, max),
        (false, true) => cover_geodesic_geojson_up_to(alloc, bytes.as_bytes(), level, max),
    };
    add_geodesic(alloc, found, covered, CellId::from_token(leaf.as_bytes()))?;
    Ok(true)
}

/// Adds which coverings with geodesic edges have a leaf, or why there are none.
fn add_geodesic(
    alloc: Global,
    found: &mut Vec<u8>,
    covered: Result<Coverings, GeodesicError>,
    leaf: Option<CellId>,
) -> Result<(), AllocError> {
    match covered {
        Ok(coverings) => add_line(found, place_in(&coverings, leaf)),
        Err(error) => add_geodesic_error(alloc, found, error),
    }
}

/// Adds the error of such coverings.
fn add_geodesic_error(
    alloc: Global,
    found: &mut Vec<u8>,
    error: GeodesicError,
) -> Result<(), AllocError> {
    match error {
        GeodesicError::Fault(fault) => add_fault(alloc, found, fault),
        GeodesicError::NoInside(part) => {
            add_line(found, &format!(in alloc; "NoInside part {part}")?)
        }
        GeodesicError::LongEdge(part) => {
            add_line(found, &format!(in alloc; "LongEdge part {part}")?)
        }
        GeodesicError::Spread(part) => add_line(found, &format!(in alloc; "Spread part {part}")?),
        GeodesicError::Memory => add_line(found, "memory"),
        GeodesicError::NoMap => add_line(found, "NoMap"),
        GeodesicError::TooManyCells => add_line(found, "TooManyCells"),
    }
}

/// Which coverings have a leaf.
fn place_in(coverings: &Coverings, leaf: Option<CellId>) -> &'static str {
    let Some(leaf) = leaf else {
        return "no cell";
    };
    match (
        coverings.outer.contains_cell(leaf),
        coverings.inner.contains_cell(leaf),
    ) {
        (true, true) => "both",
        (true, false) => "outer",
        (false, true) => "inner",
        (false, false) => "neither",
    }
}

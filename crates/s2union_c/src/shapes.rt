//! The coverings of shapes as users write them, of bytes of WKB and of texts of GeoJSON.
ghost use Rattle.std.specs.Prelude.{◌≡◌, ◌≤◌, ◌++◌, ◌⊎◌, length, min};
ghost use Rattle.s2union_c.specs.Results.{Made, Refused};
ghost use Rattle.s2union_c.specs.Shapes.{MadeBoth, Tells, TellsGeodesic, TellsWhy, TellsWhyGeodesic, number_of_name};
ghost use Rattle.s2union_c.specs.Status.{bad_argument};
ghost use Rattle.s2written.specs.Faults.{CoversGeoJson, CoversGeoJsonUpTo, CoversWkb, CoversWkbUpTo};
ghost use Rattle.s2written.specs.Faults.{GeoJsonErrorIs, GeoJsonUpToErrorIs, WkbErrorIs, WkbUpToErrorIs};
ghost use Rattle.s2written.specs.Geodesics.{CoversGeodesicGeoJson, CoversGeodesicWkb, GeodesicGeoJsonErrorIs};
ghost use Rattle.s2written.specs.Geodesics.{GeodesicWkbErrorIs};

use crate::results::put_cells;
use crate::status::{BAD_ARGUMENT, BAD_SHAPE, MADE, NO_MEMORY, NO_ROOM, TOO_MANY};
use s2cover::MOST_COVERING;
use s2shape::FaultName;
use s2written::{
    CoverError, Coverings, GeodesicError, cover_geodesic_geojson, cover_geodesic_wkb,
    cover_geojson, cover_geojson_up_to, cover_wkb, cover_wkb_up_to,
};
use std::alloc::Global;

/// Why a shape has no coverings, and where its fault is.
#[repr(C)]
#[derive(Clone, Copy)]
pub struct ShapeFault {
    /// Which fault: 1 to 19 are the names of `s2shape::FaultName` in their order, 20 is a part with no inside, 21 a
    /// position or a ring that is none on the map, 22 a geodesic edge that is too long, and 23 a polygon whose corners
    /// are too far apart for geodesic edges.
    pub name: usize,
    /// How many bytes of WKB come before the fault; 0 of a text, and of the faults from 20 on.
    pub byte: usize,
    /// How many points, lines and polygons have ended before it; of the faults from 20 on the number of the part, from
    /// 0 on.
    pub part: usize,
    /// How many rings and lines have ended before it.
    pub ring: usize,
    /// How many positions of its ring or line come before it.
    pub position: usize,
}

/// The outer and the inner covering of the shape in bytes of WKB or EWKB, down to a level. The outer one comes first,
/// with `outer` of the `len` cells, and each is normalized. No place inside the shape, as it is written, is missing
/// from the outer one, and no place outside is in the inner one. Edges are straight in longitude and latitude.
///
/// The errors, in the order of the checks: `BAD_ARGUMENT` of a level above 30. `BAD_SHAPE` of the first fault of the
/// bytes, and then of a part that is a point or a line, whose place `fault` tells. `TOO_MANY` of a walk over cells that
/// takes more than `work`: a cell that is asked takes 200, and 1 for each position. `NO_ROOM` comes last. `NO_MEMORY`
/// may come at any time after the first. No other error than `BAD_SHAPE` writes `fault`.
#[unsafe(no_mangle)]
pub extern "C" fn s2u_map_wkb(
    alloc: Global,
    wkb: &[u8],
    level: u32,
    work: u64,
    out: &mut [u64],
    len: &mut usize,
    outer: &mut usize,
    fault: &mut ShapeFault,
) -> i32
    ensures made { level ≤ 30
        → (MadeBoth result (CoversWkb wkb.now level) out.old out.new len.new outer.new × (fault.new ≡ fault.old))
        ⊎ TellsWhy result (WkbErrorIs wkb.now level work) out.old out.new len.new outer.new fault.old fault.new }
    ensures argument { (level ≤ 30 → ⊥) → Refused result bad_argument out.old out.new len.new × (outer.new ≡ 0)
        × (fault.new ≡ fault.old) }
{
    *len = 0;
    *outer = 0;
    if level > 30 {
        return BAD_ARGUMENT;
    }
    match cover_wkb(alloc, wkb, level as u8, work) {
        Ok(coverings) => put_both(&coverings, out, len, outer),
        Err(error) => tell(error, fault),
    }
}

/// The same of the shape in a text of GeoJSON: a geometry, a feature, or a collection of either.
#[unsafe(no_mangle)]
pub extern "C" fn s2u_map_geojson(
    alloc: Global,
    text: &[u8],
    level: u32,
    work: u64,
    out: &mut [u64],
    len: &mut usize,
    outer: &mut usize,
    fault: &mut ShapeFault,
) -> i32
    ensures made { level ≤ 30
        → (MadeBoth result (CoversGeoJson text.now level) out.old out.new len.new outer.new × (fault.new ≡ fault.old))
        ⊎ TellsWhy result (GeoJsonErrorIs text.now level work) out.old out.new len.new outer.new fault.old fault.new }
    ensures argument { (level ≤ 30 → ⊥) → Refused result bad_argument out.old out.new len.new × (outer.new ≡ 0)
        × (fault.new ≡ fault.old) }
{
    *len = 0;
    *outer = 0;
    if level > 30 {
        return BAD_ARGUMENT;
    }
    match cover_geojson(alloc, text, level as u8, work) {
        Ok(coverings) => put_both(&coverings, out, len, outer),
        Err(error) => tell(error, fault),
    }
}

/// The most cells of a covering by few cells that count, so that no text takes much time and memory.
pub const MOST_FEW: usize = 10_000;

/// The outer and the inner covering of the shape in bytes of WKB or EWKB by few cells: at most `most` each, or 6 in the
/// outer one if that is more, none of them deeper than the level `deepest`. More than `MOST_FEW` cells count as that
/// many. The coverings are written as by `s2u_map_wkb`, and what is so of the places of those is so of these.
///
/// The errors are those of `s2u_map_wkb` but `TOO_MANY`: with too many edges for that number of cells the coverings are
/// coarser, which no error tells.
#[unsafe(no_mangle)]
pub extern "C" fn s2u_map_wkb_up_to(
    alloc: Global,
    wkb: &[u8],
    deepest: u32,
    most: usize,
    out: &mut [u64],
    len: &mut usize,
    outer: &mut usize,
    fault: &mut ShapeFault,
) -> i32
    ensures made { deepest ≤ 30
        → (MadeBoth result (CoversWkbUpTo wkb.now deepest (min most MOST_FEW)) out.old out.new len.new outer.new
        × (fault.new ≡ fault.old))
        ⊎ TellsWhy result (WkbUpToErrorIs wkb.now) out.old out.new len.new outer.new fault.old fault.new }
    ensures argument { (deepest ≤ 30 → ⊥) → Refused result bad_argument out.old out.new len.new × (outer.new ≡ 0)
        × (fault.new ≡ fault.old) }
{
    *len = 0;
    *outer = 0;
    if deepest > 30 {
        return BAD_ARGUMENT;
    }
    match cover_wkb_up_to(alloc, wkb, deepest as u8, most.min(MOST_FEW)) {
        Ok(coverings) => put_both(&coverings, out, len, outer),
        Err(error) => tell(error, fault),
    }
}

/// The same of the shape in a text of GeoJSON: a geometry, a feature, or a collection of either.
#[unsafe(no_mangle)]
pub extern "C" fn s2u_map_geojson_up_to(
    alloc: Global,
    text: &[u8],
    deepest: u32,
    most: usize,
    out: &mut [u64],
    len: &mut usize,
    outer: &mut usize,
    fault: &mut ShapeFault,
) -> i32
    ensures made { deepest ≤ 30
        → (MadeBoth result (CoversGeoJsonUpTo text.now deepest (min most MOST_FEW)) out.old out.new len.new outer.new
        × (fault.new ≡ fault.old))
        ⊎ TellsWhy result (GeoJsonUpToErrorIs text.now) out.old out.new len.new outer.new fault.old fault.new }
    ensures argument { (deepest ≤ 30 → ⊥) → Refused result bad_argument out.old out.new len.new × (outer.new ≡ 0)
        × (fault.new ≡ fault.old) }
{
    *len = 0;
    *outer = 0;
    if deepest > 30 {
        return BAD_ARGUMENT;
    }
    match cover_geojson_up_to(alloc, text, deepest as u8, most.min(MOST_FEW)) {
        Ok(coverings) => put_both(&coverings, out, len, outer),
        Err(error) => tell(error, fault),
    }
}

/// The outer and the inner covering of the shape in bytes of WKB or EWKB, with edges that are geodesics, the short ways
/// on the sphere: the cells of a level. They are written as by `s2u_map_wkb`. No leaf that a polygon touches or has
/// inside is missing from the outer one, and each leaf of the inner one lies inside a polygon and isn't touched by it.
///
/// The errors, in the order of the checks: `BAD_ARGUMENT` of a level above 30. `BAD_SHAPE` of the first fault of the
/// bytes, then of a part that is a point or a line, and then of one whose corners are too far apart, or with an edge of
/// 128 degrees or more. `TOO_MANY` of polygons whose outer coverings have together more than `most` cells or than
/// `MOST_COVERING`, or whose inner ones have, and of one whose edges touch too many of the level. `NO_ROOM` comes last.
/// `NO_MEMORY` may come at any time after the first. No other error than `BAD_SHAPE` writes `fault`.
#[unsafe(no_mangle)]
pub extern "C" fn s2u_geodesic_wkb(
    alloc: Global,
    wkb: &[u8],
    level: u32,
    most: usize,
    out: &mut [u64],
    len: &mut usize,
    outer: &mut usize,
    fault: &mut ShapeFault,
) -> i32
    ensures made { level ≤ 30 → (MadeBoth result (CoversGeodesicWkb wkb.now level (min most MOST_COVERING))
        out.old out.new len.new outer.new × (fault.new ≡ fault.old))
        ⊎ TellsWhyGeodesic result (GeodesicWkbErrorIs wkb.now level (min most MOST_COVERING))
        out.old out.new len.new outer.new fault.old fault.new }
    ensures argument { (level ≤ 30 → ⊥) → Refused result bad_argument out.old out.new len.new × (outer.new ≡ 0)
        × (fault.new ≡ fault.old) }
{
    *len = 0;
    *outer = 0;
    if level > 30 {
        return BAD_ARGUMENT;
    }
    match cover_geodesic_wkb(alloc, wkb, level as u8, most.min(MOST_COVERING)) {
        Ok(coverings) => put_both(&coverings, out, len, outer),
        Err(error) => tell_geodesic(error, fault),
    }
}

/// The same of the shape in a text of GeoJSON: a geometry, a feature, or a collection of either.
#[unsafe(no_mangle)]
pub extern "C" fn s2u_geodesic_geojson(
    alloc: Global,
    text: &[u8],
    level: u32,
    most: usize,
    out: &mut [u64],
    len: &mut usize,
    outer: &mut usize,
    fault: &mut ShapeFault,
) -> i32
    ensures made { level ≤ 30 → (MadeBoth result (CoversGeodesicGeoJson text.now level (min most MOST_COVERING))
        out.old out.new len.new outer.new × (fault.new ≡ fault.old))
        ⊎ TellsWhyGeodesic result (GeodesicGeoJsonErrorIs text.now level (min most MOST_COVERING))
        out.old out.new len.new outer.new fault.old fault.new }
    ensures argument { (level ≤ 30 → ⊥) → Refused result bad_argument out.old out.new len.new × (outer.new ≡ 0)
        × (fault.new ≡ fault.old) }
{
    *len = 0;
    *outer = 0;
    if level > 30 {
        return BAD_ARGUMENT;
    }
    match cover_geodesic_geojson(alloc, text, level as u8, most.min(MOST_COVERING)) {
        Ok(coverings) => put_both(&coverings, out, len, outer),
        Err(error) => tell_geodesic(error, fault),
    }
}

/// Writes the outer cells to the front of the buffer and the inner ones after them, if both fit, and tells how many
/// there are.
fn put_both(coverings: &Coverings, out: &mut [u64], len: &mut usize, outer: &mut usize) -> i32
    ensures made { Made result (coverings.now.outer.cells ++ coverings.now.inner.cells) out.old out.new len.new }
    ensures outer { outer.new ≡ length coverings.now.outer.cells }
{
    let (first, second) = (coverings.outer.cells(), coverings.inner.cells());
    *outer = first.len();
    *len = first.len() + second.len();
    if *len > out.len() {
        return NO_ROOM;
    }
    let (front, back) = out.split_at_mut(first.len());
    let (mut front_len, mut back_len) = (0, 0);
    put_cells(first, front, &mut front_len);
    put_cells(second, back, &mut back_len);
    MADE
}

/// The number of a name of a fault.
pub(crate) fn number(name: FaultName) -> usize
    ensures { result ≡ number_of_name name }
{
    name as usize + 1
}

/// The status of an error, whose fault is told if the shape has one.
fn tell(error: CoverError, fault: &mut ShapeFault) -> i32
    ensures { Tells error result fault.old fault.new }
{
    let (name, byte, part, ring, position) = match error {
        CoverError::Memory => return NO_MEMORY,
        CoverError::TooManyCells => return TOO_MANY,
        CoverError::Fault(it) => (number(it.name), it.byte, it.part, it.ring, it.position),
        CoverError::NoInside(part) => (20, 0, part, 0, 0),
        CoverError::NoMap => (21, 0, 0, 0, 0),
    };
    *fault = ShapeFault {
        name,
        byte,
        part,
        ring,
        position,
    };
    BAD_SHAPE
}

/// The same of an error of geodesic edges.
fn tell_geodesic(error: GeodesicError, fault: &mut ShapeFault) -> i32
    ensures { TellsGeodesic error result fault.old fault.new }
{
    let (name, part) = match error {
        GeodesicError::Memory => return tell(CoverError::Memory, fault),
        GeodesicError::TooManyCells => return tell(CoverError::TooManyCells, fault),
        GeodesicError::Fault(it) => return tell(CoverError::Fault(it), fault),
        GeodesicError::NoInside(part) => return tell(CoverError::NoInside(part), fault),
        GeodesicError::NoMap => return tell(CoverError::NoMap, fault),
        GeodesicError::LongEdge(part) => (22, part),
        GeodesicError::Spread(part) => (23, part),
    };
    *fault = ShapeFault {
        name,
        byte: 0,
        part,
        ring: 0,
        position: 0,
    };
    BAD_SHAPE
}

//! Shapes in bytes of WKB and in texts of GeoJSON, as lists of positions and of rings.
ghost use Rattle.std.specs.Prelude.{◌≡◌, ◌<◌, ◌≤◌, ◌++◌, ◌∷◌, ℕ, List, drop, from_bits, length, map};
ghost use Rattle.std.specs.Float.{binary64};
ghost use Rattle.s2shape.specs.Reading.{shape_seen};
ghost use Rattle.s2union_c.specs.Reading.{MadeShape, ReadsGeoJson, ReadsWkb, TellsError};
ghost use Rattle.s2union_c.specs.Reading.{place_of, polygon_number, polygon_of_ring, rings_from};

use crate::shapes::{ShapeFault, number};
use crate::status::{BAD_SHAPE, MADE, NO_MEMORY, NO_ROOM};
use s2shape::{Kind, Part, Position, Shape, ShapeError, read_geojson, read_wkb};
use std::alloc::Global;

/// A position in degrees.
#[repr(C)]
#[derive(Clone, Copy)]
pub struct Place {
    /// The longitude, from -540 to 540.
    pub longitude: f64,
    /// The latitude, from -90 to 90.
    pub latitude: f64,
}

/// A ring of a polygon, a line, or a point.
#[repr(C)]
#[derive(Clone, Copy)]
pub struct Ring {
    /// How many positions there are up to its end.
    pub end: u64,
    /// How many points, lines and polygons come before the polygon that has it; of a line or a point 2^64 - 1.
    pub polygon: u64,
}

/// The shape in bytes of WKB or EWKB: its positions, and where each ring of a polygon, each line and each point ends. A
/// point or a line without positions, and a polygon without rings, have none.
///
/// `BAD_SHAPE` of the first fault of the bytes, whose place `fault` tells. `NO_ROOM` if one of the buffers is too
/// short: both lengths are told then, and nothing is written. `NO_MEMORY` may come at any time. No other error than
/// `BAD_SHAPE` writes `fault`.
#[unsafe(no_mangle)]
pub extern "C" fn s2u_shape_wkb(
    alloc: Global,
    wkb: &[u8],
    places: &mut [Place],
    len: &mut usize,
    rings: &mut [Ring],
    rings_len: &mut usize,
    fault: &mut ShapeFault,
) -> i32
    ensures { ReadsWkb wkb.now result record {
      places_old = places.old;
      places_new = places.new;
      places_len = len.new;
      rings_old = rings.old;
      rings_new = rings.new;
      rings_len = rings_len.new;
    } fault.old fault.new }
{
    match read_wkb(alloc, wkb) {
        Ok(shape) => put_shape(&shape, places, len, rings, rings_len),
        Err(error) => refuse(error, len, rings_len, fault),
    }
}

/// The same of the shape in a text of GeoJSON: a geometry, a feature, or a collection of either.
#[unsafe(no_mangle)]
pub extern "C" fn s2u_shape_geojson(
    alloc: Global,
    text: &[u8],
    places: &mut [Place],
    len: &mut usize,
    rings: &mut [Ring],
    rings_len: &mut usize,
    fault: &mut ShapeFault,
) -> i32
    ensures { ReadsGeoJson text.now result record {
      places_old = places.old;
      places_new = places.new;
      places_len = len.new;
      rings_old = rings.old;
      rings_new = rings.new;
      rings_len = rings_len.new;
    } fault.old fault.new }
{
    match read_geojson(alloc, text) {
        Ok(shape) => put_shape(&shape, places, len, rings, rings_len),
        Err(error) => refuse(error, len, rings_len, fault),
    }
}

/// Writes the positions and the rings of a shape to the front of the buffers, if they fit, and tells how many there
/// are.
fn put_shape(
    shape: &Shape,
    places: &mut [Place],
    len: &mut usize,
    rings: &mut [Ring],
    rings_len: &mut usize,
) -> i32
    ensures { MadeShape (shape_seen shape.now) result record {
      places_old = places.old;
      places_new = places.new;
      places_len = len.new;
      rings_old = rings.old;
      rings_new = rings.new;
      rings_len = rings_len.new;
    } }
{
    let (positions, ends) = (shape.positions.as_slice(), shape.rings.as_slice());
    *len = positions.len();
    *rings_len = ends.len();
    if *len > places.len() || *rings_len > rings.len() {
        return NO_ROOM;
    }
    put_places(positions, places);
    put_rings(ends, &shape.parts, rings);
    MADE
}

/// Tells that there is no shape, and why.
fn refuse(error: ShapeError, len: &mut usize, rings_len: &mut usize, fault: &mut ShapeFault) -> i32
    ensures len { (len.new ≡ 0) × (rings_len.new ≡ 0) }
    ensures tells { TellsError error result fault.old fault.new }
{
    *len = 0;
    *rings_len = 0;
    match error {
        ShapeError::Memory => NO_MEMORY,
        ShapeError::Fault(it) => {
            *fault = ShapeFault {
                name: number(it.name),
                byte: it.byte,
                part: it.part,
                ring: it.ring,
                position: it.position,
            };
            BAD_SHAPE
        }
    }
}

/// In the place of a polygon's number: a line or a point.
const NO_POLYGON: u64 = u64::MAX;

/// The bit of a double that is its sign.
const SIGN: u64 = 1 << 63;

/// The bits of an infinite double.
const INFINITE: u64 = 0x7ff0_0000_0000_0000;

/// The double with these bits.
fn double_of(bits: u64) -> f64
    ensures { result ≡ from_bits binary64 bits }
{
    if bits % SIGN > INFINITE {
        return f64::NAN;
    }
    f64::from_bits(bits)
}

/// The doubles of a position.
fn to_place(position: Position) -> Place
    ensures { result ≡ place_of position }
{
    Place {
        longitude: double_of(position.longitude),
        latitude: double_of(position.latitude),
    }
}

/// Writes the doubles of positions to the front of a buffer that is long enough.
fn put_places(positions: &[Position], out: &mut [Place])
    requires { length positions.now ≤ length out.old }
    ensures { out.new ≡ map place_of positions.now ++ drop (length positions.now) out.old }
{
    for k in 0..positions.len() {
        out[k] = to_place(positions[k]);
    }
}

/// Writes where rings and lines end, and their polygons, to the front of a buffer that is long enough.
fn put_rings(ends: &[usize], parts: &[Part], out: &mut [Ring])
    requires { length ends.now ≤ length out.old }
    ensures { out.new ≡ rings_from 0 ends.now parts.now ++ drop (length ends.now) out.old }
{
    let mut part = 0;
    for k in 0..ends.len() {
        part = part_of(parts, part, k);
        out[k] = Ring {
            end: ends[k] as u64,
            polygon: polygon_in(parts, part),
        };
    }
}

/// The first part from this one on that ends beyond a ring; how many parts there are if none does.
fn part_of(parts: &[Part], first: usize, ring: usize) -> usize
    requires { first ≤ length parts.now }
    ensures within { result ≤ length parts.now }
    ensures same { (later : ℕ) → ring ≤ later → polygon_of_ring later first (drop first parts.now)
        ≡ polygon_of_ring later result (drop result parts.now) }
    ensures ends { (part : Part) (rest : List Part) → drop result parts.now ≡ part ∷ rest → ring < part.end }
{
    for part in first..parts.len() {
        if parts[part].end > ring {
            return part;
        }
    }
    parts.len()
}

/// The polygon of a ring in a part: the number of the part, if it is a polygon; else the greatest number.
fn polygon_in(parts: &[Part], part: usize) -> u64
    ensures { (ring : ℕ)
        → ((it : Part) (rest : List Part) → drop part parts.now ≡ it ∷ rest → ring < it.end)
        → result ≡ polygon_of_ring ring part (drop part parts.now) }
{
    if part < parts.len() {
        number_of(parts[part].kind, part)
    } else {
        NO_POLYGON
    }
}

/// The number of a polygon; of a line and a point the greatest number.
fn number_of(kind: Kind, part: usize) -> u64
    ensures { result ≡ polygon_number kind part }
{
    match kind {
        Kind::Polygon => part as u64,
        Kind::Line | Kind::Point => NO_POLYGON,
    }
}

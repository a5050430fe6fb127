//! The map of a shape: its positions are places, and the rings of its polygons are edges between them.
ghost use Rattle.std.specs.Prelude.{◌≡◌, ◌≤◌, ◌<◌, ◌^◌, ◌⊎◌, ◌↔◌, ℕ, ℤ, All, IfErr, IfNone, IfOk};
ghost use Rattle.std.specs.Prelude.{IfSome, IsTrue, List, from_bits, unsigned_abs};
ghost use Rattle.std.specs.Float.{binary64};
ghost use Rattle.s2degrees.specs.Femtodegrees.{IsFemtodegreesOf};
ghost use Rattle.s2map.specs.Map.{IsMapPlace};
ghost use Rattle.s2map.specs.Rings.{AreRings, FaultMeans};
ghost use Rattle.s2map.specs.declared.place.Place.{Place};
ghost use Rattle.s2polygon.specs.Rings.{start_of};
ghost use Rattle.s2shape.specs.Reading.{shape_seen};
ghost use Rattle.s2written.specs.Faults.{ErrorIs, IsFirstOther, Never};
ghost use Rattle.s2written.specs.Maps.{ArePlacesOf, IsMapOf, IsPlaceOf, IsPolygon, corners_of, edges_of, ends_of};
ghost use Rattle.s2written.specs.Maps.{between as items_between};
ghost use Rattle.s2written.specs.declared.fault.CoverError.TheVariants.{Memory, NoMap};

use crate::fault::CoverError;
use s2degrees::femtodegrees_of;
use s2map::{MapFault, MapPart, MapShape, Place};
use s2shape::{Kind, Part, Position, Shape};
use std::alloc::{AllocError, Global};

/// 90 degrees.
const QUARTER: u64 = 90_000_000_000_000_000;

/// The bit of the sign of a double.
const SIGN: u64 = 1 << 63;

/// The bits of an infinite double without its sign. Those of NaN are more.
const INFINITE: u64 = 0x7ff0_0000_0000_0000;

/// Whether a part is a polygon.
fn is_polygon(part: Part) -> bool
    ensures { IsTrue result ↔ IsPolygon part }
{
    match part.kind {
        Kind::Polygon => true,
        Kind::Point | Kind::Line => false,
    }
}

/// Which part is the first that is a point or a line.
pub(crate) fn first_other(parts: &[Part]) -> Option<usize>
    ensures some { IfSome result (IsFirstOther parts.now) }
    ensures none { IfNone result (All IsPolygon parts.now) }
{
    for k in 0..parts.len() {
        if !is_polygon(parts[k]) {
            return Some(k);
        }
    }
    None
}

/// The femtodegrees of a double of degrees, by its bits, if they are not more than a bound.
fn femtodegrees_in(bits: u64, most: u64) -> Option<i64>
    requires { most < 2 ^ 63 }
    ensures some { IfSome result (λ z. IsFemtodegreesOf (from_bits binary64 bits) z × (unsigned_abs z ≤ most)) }
    ensures none { IfNone result ((z : ℤ) → IsFemtodegreesOf (from_bits binary64 bits) z → unsigned_abs z ≤ most
        → ⊥) }
{
    if bits % SIGN > INFINITE {
        return None;
    }
    let Ok(femtodegrees) = femtodegrees_of(f64::from_bits(bits)) else {
        return None;
    };
    if femtodegrees.unsigned_abs() > most {
        return None;
    }
    Some(femtodegrees)
}

/// The place of a position, if it is one of the map.
pub(crate) fn place_of(position: Position) -> Option<Place>
    ensures some { IfSome result (λ p. IsPlaceOf position p) }
    ensures none { IfNone result ((p : Place) → IsPlaceOf position p → ⊥) }
{
    let longitude = femtodegrees_in(position.longitude, 6 * QUARTER)?;
    let latitude = femtodegrees_in(position.latitude, QUARTER)?;
    Some(Place {
        longitude,
        latitude,
    })
}

/// The places of all positions.
fn places_of(alloc: Global, shape: &Shape) -> Result<Vec<Place>, CoverError>
    ensures places { IfOk result (λ corners. ArePlacesOf (shape_seen shape.now).positions corners.items) }
    ensures fault { IfErr result (ErrorIs Never (shape_seen shape.now)) }
{
    let mut corners = Vec::with_capacity(alloc, shape.positions.len())?;
    for i in 0..shape.positions.len() {
        let Some(place) = place_of(shape.positions[i]) else {
            return Err(CoverError::NoMap);
        };
        corners.push(place)?;
    }
    Ok(corners)
}

/// How many positions there are before a ring.
pub(crate) fn start(rings: &[usize], ring: usize) -> usize
    ensures { result ≡ start_of rings.now ring }
{
    if ring == 0 || ring > rings.len() {
        return 0;
    }
    rings[ring - 1]
}

/// The items from one number up to another, if they are there.
pub(crate) fn between<T>(items: &[T], first: usize, end: usize) -> &[T]
    ensures { result.now ≡ items_between first end items.now }
{
    let end = end.min(items.len());
    let first = first.min(end);
    &items[first..end]
}

/// Where rings end, counted from the first of their corners.
pub(crate) fn ends_between(
    alloc: Global,
    rings: &[usize],
    first: usize,
    end: usize,
) -> Result<Vec<usize>, AllocError>
    ensures { IfOk result (λ ends. ends.items ≡ ends_of rings.now first end) }
{
    let begin = start(rings, first);
    let own = between(rings, first, end);
    let mut ends = Vec::new(alloc);
    for i in 0..own.len() {
        ends.push(own[i].saturating_sub(begin))?;
    }
    Ok(ends)
}

/// The error of a fault of corners and ends.
fn error_of(fault: MapFault) -> CoverError
    ensures { (corners : List Place) (ends : List ℕ) → All IsMapPlace corners → FaultMeans corners ends fault
        → (result ≡ Memory) ⊎ ((result ≡ NoMap) × (AreRings corners ends → ⊥)) }
{
    match fault {
        MapFault::Memory => CoverError::Memory,
        _ => CoverError::NoMap,
    }
}

/// The part of these rings.
fn part_of(
    alloc: Global,
    corners: &[Place],
    rings: &[usize],
    first: usize,
    end: usize,
) -> Result<MapPart, CoverError>
    requires { All IsMapPlace corners.now }
    ensures edges { IfOk result (λ p. p ≡ edges_of corners.now rings.now first end) }
    ensures fault { IfErr result (λ e. (e ≡ Memory) ⊎ ((e ≡ NoMap)
        × (AreRings (corners_of corners.now rings.now first end) (ends_of rings.now first end) → ⊥))) }
{
    let ends = ends_between(alloc, rings, first, end)?;
    let own = between(corners, start(rings, first), start(rings, end));
    match MapPart::new(alloc, own, &ends) {
        Ok(part) => Ok(part),
        Err(fault) => Err(error_of(fault)),
    }
}

/// The map of a shape of polygons.
pub(crate) fn map_of(alloc: Global, shape: &Shape) -> Result<MapShape, CoverError>
    requires { All IsPolygon (shape_seen shape.now).parts }
    ensures map { IfOk result (IsMapOf (shape_seen shape.now)) }
    ensures fault { IfErr result (ErrorIs Never (shape_seen shape.now)) }
{
    let corners = places_of(alloc, shape)?;
    let mut map = MapShape::new(alloc);
    let mut first = 0;
    for k in 0..shape.parts.len() {
        let end = shape.parts[k].end;
        if end != first {
            map.add(part_of(alloc, &corners, &shape.rings, first, end)?)?;
        }
        first = end;
    }
    Ok(map)
}

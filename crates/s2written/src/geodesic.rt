//! Coverings of shapes whose edges are geodesics.
ghost use Rattle.std.specs.Prelude.{◌≡◌, ◌⊎◌, ◌≤◌, ◌<◌, ℕ, IfErr, IfOk, List, length, true};
ghost use Rattle.s2cell.specs.declared.TheConstants.{LEAVES};
ghost use Rattle.s2cover.specs.Coverings.{inner_set, outer_set};
ghost use Rattle.s2degrees.specs.Directions.{IsDirectionOf};
ghost use Rattle.s2geodesic.specs.Rounded.{FaultMeans, IsPolygonOf};
ghost use Rattle.s2list.specs.Union.{has_leaf};
ghost use Rattle.s2map.specs.Map.{IsMapPlace};
ghost use Rattle.s2polygon.specs.Directions.{Point};
ghost use Rattle.s2polygon.specs.Leaves.{inner_leaf, outer_leaf};
ghost use Rattle.s2shape.specs.Reading.{shape_seen};
ghost use Rattle.s2written.specs.Faults.{Never};
ghost use Rattle.s2written.specs.Geodesics.{AreGeodesicCoverings, ArePolygonsOf, GeodesicErrorIs, HasTooMany};
ghost use Rattle.s2written.specs.Geodesics.{HaveAtMost, HaveTooMany};
ghost use Rattle.s2written.specs.Geodesics.{any_inner, any_inner_set, any_outer, any_outer_set};
ghost use Rattle.s2written.specs.Maps.{corners_of, ends_of};
ghost use Rattle.s2written.specs.Working.Corners.{HasCorners, PartErrorIs};
ghost use Rattle.s2written.specs.declared.fault.GeodesicError.TheVariants.{Memory, TooManyCells};

use crate::covering::Coverings;
use crate::fault::GeodesicError;
use crate::map::{between, ends_between, first_other, place_of, start};
use s2cell::{CellId, GREATEST_LEVEL};
use s2cover::{CoverFault, MOST_COVERING};
use s2degrees::direction_of;
use s2geodesic::laws::law_of_true_corners;
use s2geodesic::{GeodesicFault, polygon_of};
use s2map::Place;
use s2polygon::{Direction, Polygon, PolygonFault};
use s2shape::Shape;
use s2union::normalise;
use std::alloc::Global;

/// The direction of a place.
fn direction(place: Place) -> Direction
    requires { IsMapPlace place }
    ensures { IsDirectionOf place.longitude place.latitude result }
{
    match direction_of(place.longitude, place.latitude) {
        Ok(direction) => direction,
        Err(_) => unreachable!(),
    }
}

/// The directions of all positions.
pub(crate) fn directions_of(alloc: Global, shape: &Shape) -> Result<Vec<Direction>, GeodesicError>
    ensures corners { IfOk result (λ corners. HasCorners (shape_seen shape.now).positions corners.items) }
    ensures fault { IfErr result (GeodesicErrorIs Never (shape_seen shape.now)) }
{
    let mut corners = Vec::with_capacity(alloc, shape.positions.len())?;
    for i in 0..shape.positions.len() {
        let Some(place) = place_of(shape.positions[i]) else {
            return Err(GeodesicError::NoMap);
        };
        corners.push(direction(place))?;
    }
    Ok(corners)
}

/// The error of a part whose corners make no polygon.
fn error_of(fault: GeodesicFault, part: usize) -> GeodesicError
    ensures { (corners : List Point) (ends : List ℕ) → FaultMeans corners ends fault
        → PartErrorIs corners ends part result }
{
    match fault {
        GeodesicFault::Rings(PolygonFault::Memory) => GeodesicError::Memory,
        GeodesicFault::Rings(_) => GeodesicError::NoMap,
        GeodesicFault::LongEdge(_) => GeodesicError::LongEdge(part),
        GeodesicFault::Spread => GeodesicError::Spread(part),
    }
}

/// The polygon of a part, by its rings.
fn polygon_at(
    alloc: Global,
    corners: &[Direction],
    rings: &[usize],
    first: usize,
    end: usize,
    part: usize,
) -> Result<Polygon, GeodesicError>
    ensures polygon { IfOk result (IsPolygonOf (corners_of corners.now rings.now first end)
        (ends_of rings.now first end)) }
    ensures fault { IfErr result (PartErrorIs (corners_of corners.now rings.now first end)
        (ends_of rings.now first end) part) }
{
    let ends = ends_between(alloc, rings, first, end)?;
    let own = between(corners, start(rings, first), start(rings, end));
    match polygon_of(alloc, own, &ends) {
        Ok(polygon) => Ok(polygon),
        Err(fault) => Err(error_of(fault, part)),
    }
}

/// The polygons of a shape, part by part.
pub(crate) fn polygons_of(
    alloc: Global,
    shape: &Shape,
    corners: &[Direction],
) -> Result<Vec<Polygon>, GeodesicError>
    requires { HasCorners (shape_seen shape.now).positions corners.now }
    ensures polygons { IfOk result (λ polygons. ArePolygonsOf corners.now (shape_seen shape.now)
        (length shape.now.parts.items) polygons.items) }
    ensures fault { IfErr result (GeodesicErrorIs Never (shape_seen shape.now)) }
{
    let mut polygons = Vec::new(alloc);
    let mut first = 0;
    for k in 0..shape.parts.len() {
        let end = shape.parts[k].end;
        if end != first {
            polygons.push(polygon_at(alloc, corners, &shape.rings, first, end, k)?)?;
        }
        first = end;
    }
    Ok(polygons)
}

/// The cells of the outer coverings of all polygons, at most `max` together.
fn outer_of(
    alloc: Global,
    polygons: &[Polygon],
    level: u8,
    max: usize,
) -> Result<Vec<CellId>, GeodesicError>
    requires level { level ≤ GREATEST_LEVEL }
    requires max { max ≤ MOST_COVERING }
    ensures leaves { IfOk result (λ u. (x : ℕ) → has_leaf u.items x ≡ any_outer_set polygons.now level x) }
    ensures missed { IfOk result (λ u. (x : ℕ) → x < LEAVES → any_outer polygons.now x ≡ true
        → has_leaf u.items x ≡ true) }
    ensures few { IfOk result (λ _. HaveAtMost (λ r. outer_set (outer_leaf r) level) max polygons.now) }
    ensures fault { IfErr result (λ e. (e ≡ Memory) ⊎ ((e ≡ TooManyCells) × HaveTooMany level max polygons.now)) }
{
    let mut cells = Vec::new(alloc);
    for i in 0..polygons.len() {
        let polygon = &polygons[i];
        match polygon.outer(alloc, level, max - cells.len()) {
            Ok(covering) => cells.extend_from_slice(covering.cells())?,
            Err(CoverFault::TooMany) => return Err(GeodesicError::TooManyCells),
            Err(CoverFault::Memory) => return Err(GeodesicError::Memory),
        }
    }
    Ok(cells)
}

/// The cells of the inner coverings of all polygons, at most `max` together.
fn inner_of(
    alloc: Global,
    polygons: &[Polygon],
    level: u8,
    max: usize,
) -> Result<Vec<CellId>, GeodesicError>
    requires level { level ≤ GREATEST_LEVEL }
    requires max { max ≤ MOST_COVERING }
    ensures leaves { IfOk result (λ u. (x : ℕ) → has_leaf u.items x ≡ any_inner_set polygons.now level x) }
    ensures proper { IfOk result (λ u. (x : ℕ) → has_leaf u.items x ≡ true → any_inner polygons.now x ≡ true) }
    ensures few { IfOk result (λ _. HaveAtMost (λ r. inner_set (inner_leaf r) level) max polygons.now) }
    ensures fault { IfErr result (λ e. (e ≡ Memory) ⊎ ((e ≡ TooManyCells) × HaveTooMany level max polygons.now)) }
{
    let mut cells = Vec::new(alloc);
    for i in 0..polygons.len() {
        let polygon = &polygons[i];
        match polygon.inner(alloc, level, max - cells.len()) {
            Ok(covering) => cells.extend_from_slice(covering.cells())?,
            Err(CoverFault::TooMany) => return Err(GeodesicError::TooManyCells),
            Err(CoverFault::Memory) => return Err(GeodesicError::Memory),
        }
    }
    Ok(cells)
}

/// The coverings of a shape of polygons whose edges are geodesics, the short ways on the sphere: the cells of a level.
/// No leaf that a polygon touches or has inside is missing from the outer one, and each leaf of the inner one lies
/// inside a polygon and isn't touched by it. That is so of all polygons whose corners are the positions as they are
/// written, or at most 3 micrometers off, as long as no corner lies on a line through the middles of leaves. Cells
/// within 2.34 leaves of an edge count as touched, since corners are rounded.
///
/// Rings may run in either direction: a leaf opposite all corners of a polygon lies outside of it
/// (`s2geodesic::outside_of`). Each polygon is covered by itself, and the coverings are united.
///
/// The errors, in the order of the checks: `NoInside` with the first part that is a point or a line, `NoMap`,
/// `LongEdge` and `Spread` with the first part that has them, and `TooManyCells` if the outer coverings of all polygons
/// have together more than `max` cells, or the inner ones, or if the edges of one touch too many of the level. `Memory`
/// may come whenever memory is taken. It takes the time of the coverings of each polygon. S2: `S2RegionCoverer` of an
/// `S2Polygon` with one level, in floating point.
pub fn cover_geodesic(
    alloc: Global,
    shape: &Shape,
    level: u8,
    max: usize,
) -> Result<Coverings, GeodesicError>
    requires level { level ≤ GREATEST_LEVEL }
    requires max { max ≤ MOST_COVERING }
    ensures covers { IfOk result (λ c. AreGeodesicCoverings (shape_seen shape.now) level max c.outer.cells
        c.inner.cells) }
    ensures fault { IfErr result (GeodesicErrorIs (HasTooMany level max) (shape_seen shape.now)) }
{
    law_of_true_corners();
    if let Some(k) = first_other(&shape.parts) {
        return Err(GeodesicError::NoInside(k));
    }
    let corners = directions_of(alloc, shape)?;
    let polygons = polygons_of(alloc, shape, &corners)?;
    let outer = outer_of(alloc, &polygons, level, max)?;
    let inner = inner_of(alloc, &polygons, level, max)?;
    Ok(Coverings {
        outer: normalise(outer),
        inner: normalise(inner),
    })
}

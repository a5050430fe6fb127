//! Coverings of bytes of WKB and of texts of GeoJSON.
ghost use Rattle.std.specs.Prelude.{◌≤◌, IfErr, IfOk};
ghost use Rattle.s2written.specs.Few.{CoversGeodesicGeoJsonUpTo, CoversGeodesicWkbUpTo};
ghost use Rattle.s2written.specs.Few.{GeodesicGeoJsonUpToErrorIs, GeodesicWkbUpToErrorIs};
ghost use Rattle.s2written.specs.Geodesics.{CoversGeodesicGeoJson, CoversGeodesicWkb, GeodesicGeoJsonErrorIs};
ghost use Rattle.s2written.specs.Geodesics.{GeodesicWkbErrorIs};
ghost use Rattle.s2written.specs.Faults.{CoversGeoJson, CoversGeoJsonUpTo, CoversWkb, CoversWkbUpTo};
ghost use Rattle.s2written.specs.Faults.{GeoJsonErrorIs, GeoJsonUpToErrorIs, WkbErrorIs, WkbUpToErrorIs};

use crate::covering::{Coverings, cover, cover_up_to};
use crate::fault::{CoverError, GeodesicError};
use crate::few::cover_geodesic_up_to;
use crate::geodesic::cover_geodesic;
use s2cell::GREATEST_LEVEL;
use s2cover::MOST_COVERING;
use s2shape::{ShapeError, read_geojson, read_wkb};
use std::alloc::Global;

/// The coverings of the shape that bytes of WKB or EWKB stand for, as those of `cover`, whose errors it has. Before
/// these comes `Fault` with the first fault of the bytes, as `s2shape::read_wkb` finds it.
pub fn cover_wkb(alloc: Global, bytes: &[u8], level: u8, work: u64) -> Result<Coverings, CoverError>
    requires { level ≤ GREATEST_LEVEL }
    ensures covers { IfOk result (λ c. CoversWkb bytes.now level c.outer.cells c.inner.cells) }
    ensures fault { IfErr result (WkbErrorIs bytes.now level work) }
{
    match read_wkb(alloc, bytes) {
        Ok(shape) => cover(alloc, &shape, level, work),
        Err(ShapeError::Memory) => Err(CoverError::Memory),
        Err(ShapeError::Fault(fault)) => Err(CoverError::Fault(fault)),
    }
}

/// The same of a text of GeoJSON, as `s2shape::read_geojson` reads it.
pub fn cover_geojson(
    alloc: Global,
    text: &[u8],
    level: u8,
    work: u64,
) -> Result<Coverings, CoverError>
    requires { level ≤ GREATEST_LEVEL }
    ensures covers { IfOk result (λ c. CoversGeoJson text.now level c.outer.cells c.inner.cells) }
    ensures fault { IfErr result (GeoJsonErrorIs text.now level work) }
{
    match read_geojson(alloc, text) {
        Ok(shape) => cover(alloc, &shape, level, work),
        Err(ShapeError::Memory) => Err(CoverError::Memory),
        Err(ShapeError::Fault(fault)) => Err(CoverError::Fault(fault)),
    }
}

/// The coverings by few cells of the shape that bytes of WKB or EWKB stand for, as those of `cover_up_to`, whose errors
/// it has. Before these comes `Fault` with the first fault of the bytes, as `s2shape::read_wkb` finds it.
pub fn cover_wkb_up_to(
    alloc: Global,
    bytes: &[u8],
    deepest: u8,
    most: usize,
) -> Result<Coverings, CoverError>
    requires level { deepest ≤ GREATEST_LEVEL }
    requires most { most ≤ MOST_COVERING }
    ensures covers { IfOk result (λ c. CoversWkbUpTo bytes.now deepest most c.outer.cells c.inner.cells) }
    ensures fault { IfErr result (WkbUpToErrorIs bytes.now) }
{
    match read_wkb(alloc, bytes) {
        Ok(shape) => cover_up_to(alloc, &shape, deepest, most),
        Err(ShapeError::Memory) => Err(CoverError::Memory),
        Err(ShapeError::Fault(fault)) => Err(CoverError::Fault(fault)),
    }
}

/// The same of a text of GeoJSON, as `s2shape::read_geojson` reads it.
pub fn cover_geojson_up_to(
    alloc: Global,
    text: &[u8],
    deepest: u8,
    most: usize,
) -> Result<Coverings, CoverError>
    requires level { deepest ≤ GREATEST_LEVEL }
    requires most { most ≤ MOST_COVERING }
    ensures covers { IfOk result (λ c. CoversGeoJsonUpTo text.now deepest most c.outer.cells c.inner.cells) }
    ensures fault { IfErr result (GeoJsonUpToErrorIs text.now) }
{
    match read_geojson(alloc, text) {
        Ok(shape) => cover_up_to(alloc, &shape, deepest, most),
        Err(ShapeError::Memory) => Err(CoverError::Memory),
        Err(ShapeError::Fault(fault)) => Err(CoverError::Fault(fault)),
    }
}

/// The coverings with geodesic edges of the shape that bytes of WKB or EWKB stand for, as those of `cover_geodesic`,
/// whose errors it has. Before these comes `Fault` with the first fault of the bytes, as `s2shape::read_wkb` finds it.
pub fn cover_geodesic_wkb(
    alloc: Global,
    bytes: &[u8],
    level: u8,
    max: usize,
) -> Result<Coverings, GeodesicError>
    requires level { level ≤ GREATEST_LEVEL }
    requires max { max ≤ MOST_COVERING }
    ensures covers { IfOk result (λ c. CoversGeodesicWkb bytes.now level max c.outer.cells c.inner.cells) }
    ensures fault { IfErr result (GeodesicWkbErrorIs bytes.now level max) }
{
    match read_wkb(alloc, bytes) {
        Ok(shape) => cover_geodesic(alloc, &shape, level, max),
        Err(ShapeError::Memory) => Err(GeodesicError::Memory),
        Err(ShapeError::Fault(fault)) => Err(GeodesicError::Fault(fault)),
    }
}

/// The same of a text of GeoJSON, as `s2shape::read_geojson` reads it.
pub fn cover_geodesic_geojson(
    alloc: Global,
    text: &[u8],
    level: u8,
    max: usize,
) -> Result<Coverings, GeodesicError>
    requires level { level ≤ GREATEST_LEVEL }
    requires max { max ≤ MOST_COVERING }
    ensures covers { IfOk result (λ c. CoversGeodesicGeoJson text.now level max c.outer.cells c.inner.cells) }
    ensures fault { IfErr result (GeodesicGeoJsonErrorIs text.now level max) }
{
    match read_geojson(alloc, text) {
        Ok(shape) => cover_geodesic(alloc, &shape, level, max),
        Err(ShapeError::Memory) => Err(GeodesicError::Memory),
        Err(ShapeError::Fault(fault)) => Err(GeodesicError::Fault(fault)),
    }
}

/// The coverings by few cells with geodesic edges of the shape that bytes of WKB or EWKB stand for, as those of
/// `cover_geodesic_up_to`, whose errors it has. Before these comes `Fault` with the first fault of the bytes, as
/// `s2shape::read_wkb` finds it.
pub fn cover_geodesic_wkb_up_to(
    alloc: Global,
    bytes: &[u8],
    deepest: u8,
    most: usize,
) -> Result<Coverings, GeodesicError>
    requires level { deepest ≤ GREATEST_LEVEL }
    requires most { most ≤ MOST_COVERING }
    ensures covers { IfOk result (λ c. CoversGeodesicWkbUpTo bytes.now deepest most c.outer.cells c.inner.cells) }
    ensures fault { IfErr result (GeodesicWkbUpToErrorIs bytes.now) }
{
    match read_wkb(alloc, bytes) {
        Ok(shape) => cover_geodesic_up_to(alloc, &shape, deepest, most),
        Err(ShapeError::Memory) => Err(GeodesicError::Memory),
        Err(ShapeError::Fault(fault)) => Err(GeodesicError::Fault(fault)),
    }
}

/// The same of a text of GeoJSON, as `s2shape::read_geojson` reads it.
pub fn cover_geodesic_geojson_up_to(
    alloc: Global,
    text: &[u8],
    deepest: u8,
    most: usize,
) -> Result<Coverings, GeodesicError>
    requires level { deepest ≤ GREATEST_LEVEL }
    requires most { most ≤ MOST_COVERING }
    ensures covers { IfOk result (λ c. CoversGeodesicGeoJsonUpTo text.now deepest most c.outer.cells c.inner.cells) }
    ensures fault { IfErr result (GeodesicGeoJsonUpToErrorIs text.now) }
{
    match read_geojson(alloc, text) {
        Ok(shape) => cover_geodesic_up_to(alloc, &shape, deepest, most),
        Err(ShapeError::Memory) => Err(GeodesicError::Memory),
        Err(ShapeError::Fault(fault)) => Err(GeodesicError::Fault(fault)),
    }
}

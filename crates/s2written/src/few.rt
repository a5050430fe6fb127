//! Coverings by few cells of shapes whose edges are geodesics.
ghost use Rattle.std.specs.Prelude.{◌≡◌, ◌≤◌, IfErr, IfOk};
ghost use Rattle.s2shape.specs.Reading.{shape_seen};
ghost use Rattle.s2written.specs.Faults.{Never};
ghost use Rattle.s2written.specs.Few.{AreFewGeodesicCoverings};
ghost use Rattle.s2written.specs.Geodesics.{GeodesicErrorIs};

use crate::covering::Coverings;
use crate::fault::GeodesicError;
use crate::geodesic::{directions_of, polygons_of};
use crate::map::first_other;
use crate::together::Together;
use s2cell::GREATEST_LEVEL;
use s2cover::{MOST_COVERING, rough_inner_up_to, rough_outer_up_to};
use s2geodesic::laws::law_of_true_corners;
use s2polygon::{Polygon, Walked};
use s2shape::Shape;
use std::alloc::{AllocError, Global};

/// The polygons, as they are walked.
fn walked<'a>(alloc: Global, polygons: &'a [Polygon]) -> Result<Vec<Walked<'a>>, AllocError>
    ensures { IfOk result (λ walks. walks.items ≡ polygons.now) }
{
    let mut walks = Vec::with_capacity(alloc, polygons.len())?;
    for k in 0..polygons.len() {
        walks.push(polygons[k].walked())?;
    }
    Ok(walks)
}

/// The coverings by few cells of a shape of polygons whose edges are geodesics: an outer one of at most `most` cells,
/// or 6 if that is more, and an inner one of at most `most`, none of them deeper than the level `deepest`. No leaf is
/// missing from the outer one, and none outside is in the inner one, as of `cover_geodesic`; but the cells are those of
/// one search in all polygons together.
///
/// Cells are split, level by level, for at most 2^20 + 32 (edges + `most`) pairs of a cell and an edge that meets it,
/// in each. With more the outer covering is coarser, and the inner one has fewer cells, which no error tells
/// (`AreFewGeodesicCoverings` says how near they come).
///
/// The errors are those of `cover_geodesic` without `TooManyCells`. S2: `S2RegionCoverer` of an `S2Polygon` with
/// `max_cells` and `max_level`, in floating point.
pub fn cover_geodesic_up_to(
    alloc: Global,
    shape: &Shape,
    deepest: u8,
    most: usize,
) -> Result<Coverings, GeodesicError>
    requires level { deepest ≤ GREATEST_LEVEL }
    requires most { most ≤ MOST_COVERING }
    ensures covers { IfOk result (λ c.
        AreFewGeodesicCoverings (shape_seen shape.now) deepest most c.outer.cells c.inner.cells) }
    ensures fault { IfErr result (GeodesicErrorIs Never (shape_seen shape.now)) }
{
    law_of_true_corners();
    if let Some(k) = first_other(&shape.parts) {
        return Err(GeodesicError::NoInside(k));
    }
    let corners = directions_of(alloc, shape)?;
    let polygons = polygons_of(alloc, shape, &corners)?;
    let walks = walked(alloc, &polygons)?;
    let together = Together { parts: &walks };
    let outer = rough_outer_up_to(alloc, &together, deepest, most)?;
    let inner = rough_inner_up_to(alloc, &together, deepest, most)?;
    Ok(Coverings { outer, inner })
}

//! Polygons of corners that were rounded.
ghost use Rattle.std.specs.Prelude.{◌≡◌, ℕ, IfErr, IfOk, List, false, true};
ghost use Rattle.s2geodesic.specs.Rounded.{FaultMeans, IsPolygonOf, touch};
ghost use Rattle.s2polygon.specs.Directions.{Point};
ghost use Rattle.s2polygon.specs.Leaves.{is_touched};
ghost use Rattle.s2polygon.specs.Moves.{AreMoved};

use crate::edges::long_edge;
use crate::fault::GeodesicFault;
use crate::half::outside_of;
use crate::laws::law_of_halves;
use s2polygon::laws::law_of_moved_corners;
use s2polygon::{Direction, Polygon};
use std::alloc::Global;

/// The margin of a polygon whose corners are at most 0.502 away from the true ones: 2.34 leaves of a face's middle.
pub const MARGIN: u64 = 10_061_676_729;

/// The polygon of rings of corners that are at most 0.502 away from the true ones. Those of `s2degrees` are at most
/// 0.501 away from what sines and cosines say. Rings are as for `Polygon::new`. Nobody says what lies outside: a leaf
/// opposite all corners does (`outside_of`), which no edge touches. The margin is such that each leaf that the edges
/// between the true corners touch is touched, and what lies inside follows (`law_of_true_corners`).
///
/// `Spread` if no half of the sphere that is tried has all corners: give `Polygon::new` a leaf that lies outside.
/// `LongEdge` if it is too far from a corner to the next; a corner between them is a remedy. An edge shorter than 128
/// degrees never is too long. `Rings` is as for `Polygon::new`. S2: `S2Polygon`, whose loops have their inside on the
/// left.
#[tactic(none)]
pub fn polygon_of(
    alloc: Global,
    corners: &[Direction],
    ends: &[usize],
) -> Result<Polygon, GeodesicFault>
    ensures made { IfOk result (IsPolygonOf corners.now ends.now) }
    ensures outside { IfOk result (λ r. is_touched r r.outside ≡ false) }
    ensures touched { IfOk result (λ r. (moved : List Point) (x : ℕ) → AreMoved 502 1000 corners.now moved
        → touch moved ends.now x ≡ true → is_touched r x ≡ true) }
    ensures fault { IfErr result (FaultMeans corners.now ends.now) }
{
    law_of_halves();
    law_of_moved_corners();
    let Some(outside) = outside_of(corners) else {
        return Err(GeodesicFault::Spread);
    };
    match Polygon::new(alloc, corners, ends, outside, MARGIN) {
        Ok(polygon) => match long_edge(corners, ends) {
            None => Ok(polygon),
            Some(i) => Err(GeodesicFault::LongEdge(i)),
        },
        Err(fault) => Err(GeodesicFault::Rings(fault)),
    }
}

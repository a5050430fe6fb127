//! Coverings of shapes.
ghost use Rattle.std.specs.Prelude.{◌≡◌, ◌≤◌, ◌++◌, ℕ, IfErr, IfOk};
ghost use Rattle.s2list.specs.Union.{IsLocal, has_leaf};
ghost use Rattle.s2shape.specs.Reading.{shape_seen};
ghost use Rattle.s2written.specs.Coverings.{AreCoverings, AreFewCoverings};
ghost use Rattle.s2written.specs.Faults.{ErrorIs, Never};
ghost use Rattle.s2written.specs.Maps.{IsMapOf};
ghost use Rattle.s2written.specs.Walks.{IsTooMuch};

use crate::fault::CoverError;
use crate::map::{first_other, map_of};
use crate::walk::walk;
use s2cell::GREATEST_LEVEL;
use s2cover::MOST_COVERING;
use s2map::{MapCovering, MapShape};
use s2shape::Shape;
use s2union::{CellUnion, normalise};
use std::alloc::{AllocError, Global};

/// An outer and an inner covering.
#[derive(Drop)]
pub struct Coverings {
    /// No place inside is missing from its cells.
    pub outer: CellUnion,
    /// No place outside is in its cells.
    pub inner: CellUnion,
}

/// The cells of a walk as two unions.
fn normalised(found: MapCovering) -> Result<Coverings, AllocError>
    ensures outer_leaves { IfOk result (λ c. (n : ℕ)
        → has_leaf c.outer.cells n ≡ has_leaf (found.met.items ++ found.within.items) n) }
    ensures inner_leaves { IfOk result (λ c. (n : ℕ) → has_leaf c.inner.cells n ≡ has_leaf found.within.items n) }
    ensures outer_local { IfOk result (λ c. IsLocal c.outer.cells) }
    ensures inner_local { IfOk result (λ c. IsLocal c.inner.cells) }
{
    let MapCovering { mut met, within } = found;
    met.extend_from_slice(&within)?;
    Ok(Coverings {
        outer: normalise(met),
        inner: normalise(within),
    })
}

/// The map of a shape, if all its parts are polygons.
fn map_inside(alloc: Global, shape: &Shape) -> Result<MapShape, CoverError>
    ensures map { IfOk result (IsMapOf (shape_seen shape.now)) }
    ensures fault { IfErr result (ErrorIs Never (shape_seen shape.now)) }
{
    if let Some(k) = first_other(&shape.parts) {
        return Err(CoverError::NoInside(k));
    }
    map_of(alloc, shape)
}

/// The coverings of a shape of polygons down to a level, of at most 30. No place inside is missing from the outer one,
/// and no place outside is in the inner one. Leaves that only the outer one has lie in cells of the level whose boxes
/// an edge meets. The poles are no places here.
///
/// Edges are straight in longitude and latitude, and corners are the positions as they are written, each coordinate to
/// the nearest femtodegree. A place is inside if the edges of some polygon that pass north of it are odd in number, so
/// rings may run in either direction, and polygons may overlap.
///
/// The errors, in the order of the checks: `NoInside` with the first part that is a point or a line, `NoMap`, and
/// `TooManyCells`: a cell that is asked takes the work of one comparison for each position, and `CELL_WORK`. It comes
/// before memory is taken for the cells of a level. S2: `S2RegionCoverer::GetCovering` and `GetInteriorCovering` with
/// one level, in floating point, of edges that are geodesics.
pub fn cover(alloc: Global, shape: &Shape, level: u8, work: u64) -> Result<Coverings, CoverError>
    requires { level ≤ GREATEST_LEVEL }
    ensures covers { IfOk result (λ c. AreCoverings (shape_seen shape.now) level c.outer.cells c.inner.cells) }
    ensures fault { IfErr result (ErrorIs (IsTooMuch level work) (shape_seen shape.now)) }
{
    let map = map_inside(alloc, shape)?;
    let found = walk(alloc, &map, shape.positions.len(), level, work)?;
    Ok(normalised(found)?)
}

/// The coverings of a shape of polygons by at most `most` cells each, or 6 in the outer one, none of them deeper than
/// the level `deepest`. No place inside is missing from the outer one, and no place outside is in the inner one, as of
/// `cover`; but cells that edges may go through are of any level.
///
/// Cells are split, level by level, for work of at most 2^20 + 32 (edges + `most`) in each: a cell takes 1 for each
/// edge that meets its box, and `s2map::BOX_WORK`. With more the outer covering is coarser, and the inner one has fewer
/// cells, which no error tells (`AreFewCoverings` says how near they come).
///
/// The errors, in the order of the checks: `NoInside` with the first part that is a point or a line, and `NoMap`. S2:
/// `S2RegionCoverer::GetCovering` and `GetInteriorCovering` with `max_cells` and `max_level`, in floating point, of
/// edges that are geodesics.
pub fn cover_up_to(
    alloc: Global,
    shape: &Shape,
    deepest: u8,
    most: usize,
) -> Result<Coverings, CoverError>
    requires level { deepest ≤ GREATEST_LEVEL }
    requires most { most ≤ MOST_COVERING }
    ensures covers { IfOk result (λ c. AreFewCoverings (shape_seen shape.now) deepest most c.outer.cells
        c.inner.cells) }
    ensures fault { IfErr result (ErrorIs Never (shape_seen shape.now)) }
{
    let map = map_inside(alloc, shape)?;
    let outer = map.outer_up_to(alloc, deepest, most)?;
    let inner = map.inner_up_to(alloc, deepest, most)?;
    Ok(Coverings { outer, inner })
}

//! How many cells of a level the edges of a polygon touch.
ghost use Rattle.std.specs.Prelude.{◌≡◌, ◌+◌, ◌<◌, ◌≤◌, IfOk, true};
ghost use Rattle.s2cell.specs.Cell.{level_of};
ghost use Rattle.s2polygon.specs.Counts.{IsTooFine, cells_touched, crossing_below};
ghost use Rattle.s2polygon.specs.Working.Counting.{after_within, first_within};

use crate::polygon::Polygon;
use crate::quadrant::Walked;
use s2cell::GREATEST_LEVEL;
use s2cover::{Part, Quadrant, Quartered};
use std::alloc::{AllocError, Global};

/// The most cells of a level that edges may touch where a covering looks into all of them, however few cells it has:
/// an inner one, and an outer one whose margin is wider than a cell.
pub const MOST_TOUCHED: usize = 4_000_000;

/// The deepest level that has fewer cells than `MOST_TOUCHED`.
const ALWAYS_FEW: u8 = 9;

impl Polygon {
    /// Whether edges touch too many cells of the level. May answer no as soon as more than `most` cells lie inside.
    ///
    /// A cell has 256 cells four levels below it. So most polygons are known to touch few cells when those four levels
    /// above are counted, which takes a small part of the time of a covering.
    pub(crate) fn is_too_fine(
        &self,
        alloc: Global,
        level: u8,
        most: usize,
    ) -> Result<bool, AllocError>
        requires level { level ≤ GREATEST_LEVEL }
        ensures { IfOk result (λ fine. fine ≡ true → IsTooFine self.now level) }
    {
        if level <= ALWAYS_FEW {
            return Ok(false);
        }
        if !self.touches_more(alloc, level - 4, MOST_TOUCHED / 256, most)? {
            return Ok(false);
        }
        self.touches_more(alloc, level, MOST_TOUCHED, most)
    }

    /// Whether edges touch more than `limit` cells of the level. May answer no as soon as more than `most` cells lie
    /// inside.
    fn touches_more(
        &self,
        alloc: Global,
        level: u8,
        limit: usize,
        most: usize,
    ) -> Result<bool, AllocError>
        requires level { level ≤ GREATEST_LEVEL }
        requires limit { limit ≤ MOST_TOUCHED }
        ensures { IfOk result (λ more. more ≡ true → limit < cells_touched self.now level) }
    {
        let walked = Walked { polygon: self };
        let mut inside = 0;
        let mut n = 0;
        for face in 0..6u8 {
            let top = walked.face(alloc, face)?;
            n = count_crossing(alloc, &top, level, limit, most, n, &mut inside)?;
            if n > limit || inside > most {
                return Ok(n > limit);
            }
        }
        Ok(false)
    }
}

/// Adds to `before` the cells of the level in one cell that cross the region, and to `inside` the largest cells that
/// lie inside. Stops when the former are more than `limit`, or the latter more than `most`.
fn count_crossing<Q: Quadrant>(
    alloc: Global,
    quadrant: &Q,
    level: u8,
    limit: usize,
    most: usize,
    before: usize,
    inside: &mut usize,
) -> Result<usize, AllocError>
    requires sound { Q.sound quadrant.now }
    requires above { level_of (Q.id quadrant.now) ≤ level }
    requires level { level ≤ GREATEST_LEVEL }
    requires limit { limit ≤ MOST_TOUCHED }
    requires few { before ≤ limit }
    requires counted { before ≤ crossing_below (Q.outer quadrant.now) (Q.inner quadrant.now) level
        (first_within level (Q.id quadrant.now)) }
    ensures few { IfOk result (λ n. n ≤ limit + 1) }
    ensures counted { IfOk result (λ n. n ≤ crossing_below (Q.outer quadrant.now) (Q.inner quadrant.now) level
        (after_within level (Q.id quadrant.now))) }
{
    let cell = quadrant.cell();
    let _ = cell.id();
    match quadrant.part() {
        Part::Out => Ok(before),
        Part::In => {
            *inside = inside.saturating_add(1);
            Ok(before)
        }
        Part::Cross if cell.level() == level => Ok(before + 1),
        Part::Cross => {
            let mut n = before;
            for digit in 0..4u8 {
                let child = quadrant.child(alloc, digit)?;
                n = count_crossing(alloc, &child, level, limit, most, n, inside)?;
                if n > limit || *inside > most {
                    return Ok(n);
                }
            }
            Ok(n)
        }
    }
}

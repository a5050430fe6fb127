//! The coverings of polygons: at one level, and by few cells.
ghost use Rattle.std.specs.Prelude.{◌≡◌, ◌<◌, ◌≤◌, ◌⊎◌, ℕ, All, IfErr, IfOk, List, SomeIff, length, min};
ghost use Rattle.s2cell.specs.Cell.{level_of};
ghost use Rattle.s2list.specs.Denorm.{denormalised};
ghost use Rattle.s2list.specs.Union.{IsLocal, IsNormalForm};
ghost use Rattle.s2cover.specs.Coverings.{TooManyMeans, inner_set, outer_set};
ghost use Rattle.s2polygon.specs.Counts.{IsTooFine};
ghost use Rattle.s2polygon.specs.Directions.{IsDirection};
ghost use Rattle.s2polygon.specs.Leaves.{inner_leaf, outer_leaf};
ghost use Rattle.s2polygon.specs.Rings.{FaultMeans};
ghost use Rattle.s2union_c.specs.Polygons.{AnswersBoth, AnswersCut, AreGiven, CoversUnless, CutsOne, IsAsked};
ghost use Rattle.s2union_c.specs.Polygons.{IsInnerUpTo, IsOuterUpTo, IsTooFineOuter, RefusesRings};
ghost use Rattle.s2union_c.specs.Polygons.{point_of, points_of, region_of};
ghost use Rattle.s2union_c.specs.Results.{Made, Refused};
ghost use Rattle.s2union_c.specs.Status.{bad_argument, no_memory, too_many};
ghost use Rattle.s2union_c.specs.Working.Polygons.{FaultIs, IsTooFineFor, IsUpTo, polygon_covering_of};

use crate::coverings::Side;
use crate::results::put_cells;
use crate::status::{BAD_ARGUMENT, BAD_CORNER, BAD_RING, MADE, NO_MEMORY, NO_ROOM, TOO_MANY};
use s2cell::CellId;
use s2cover::{CoverFault, MOST_COVERING};
use s2list::{CellList, denormalise};
use s2polygon::{MOST_MARGIN, Polygon, PolygonFault};
use s2union::CellUnion;
use std::alloc::{AllocError, Global};

/// A direction from the center of the sphere, if each number is less than 2^31 in size and not all are 0.
#[repr(C)]
#[derive(Clone, Copy)]
pub struct Direction {
    /// The coordinate along the axis through latitude 0 and longitude 0.
    pub x: i64,
    /// The coordinate along the axis through latitude 0 and longitude 90.
    pub y: i64,
    /// The coordinate along the axis through latitude 90.
    pub z: i64,
}

/// The cells of a level that have an outer leaf of a polygon, normalized: at most `most` of them, and at most
/// `MOST_COVERING`. If the margin is wider than a cell, edges may touch at most `MOST_TOUCHED` cells of the level.
/// `ends` has the number of corners up to the end of each ring, and `outside` is a leaf that lies outside. If a corner
/// or a ring is wrong, `len` is its place.
#[unsafe(no_mangle)]
pub extern "C" fn s2u_polygon_outer(
    alloc: Global,
    corners: &[Direction],
    ends: &[usize],
    outside: u64,
    margin: u64,
    level: u32,
    most: usize,
    out: &mut [u64],
    len: &mut usize,
) -> i32
    ensures made { IsAsked outside margin 0 level → AreGiven corners.now ends.now → CoversUnless
        (IsTooFineOuter (region_of corners.now ends.now outside margin) level) (min most MOST_COVERING)
        (outer_set (outer_leaf (region_of corners.now ends.now outside margin)) level) result out.old out.new len.new }
    ensures most { AreGiven corners.now ends.now → len.new ≤ min most MOST_COVERING }
    ensures argument { (IsAsked outside margin 0 level → ⊥) → Refused result bad_argument out.old out.new len.new }
    ensures rings { IsAsked outside margin 0 level → (AreGiven corners.now ends.now → ⊥)
        → RefusesRings corners.now ends.now result out.old out.new len.new }
{
    cover_polygon(
        alloc,
        Side::Outer,
        corners,
        ends,
        outside,
        margin,
        level,
        most,
        out,
        len,
    )
}

/// The cells of a level that have inner leaves of a polygon alone, normalized: at most `most` of them, and at most
/// `MOST_COVERING`. Edges may touch at most `MOST_TOUCHED` cells of the level. The rest is as for `s2u_polygon_outer`.
#[unsafe(no_mangle)]
pub extern "C" fn s2u_polygon_inner(
    alloc: Global,
    corners: &[Direction],
    ends: &[usize],
    outside: u64,
    margin: u64,
    level: u32,
    most: usize,
    out: &mut [u64],
    len: &mut usize,
) -> i32
    ensures made { IsAsked outside margin 0 level → AreGiven corners.now ends.now → CoversUnless
        (IsTooFine (region_of corners.now ends.now outside margin) level) (min most MOST_COVERING)
        (inner_set (inner_leaf (region_of corners.now ends.now outside margin)) level) result out.old out.new len.new }
    ensures most { AreGiven corners.now ends.now → len.new ≤ min most MOST_COVERING }
    ensures argument { (IsAsked outside margin 0 level → ⊥) → Refused result bad_argument out.old out.new len.new }
    ensures rings { IsAsked outside margin 0 level → (AreGiven corners.now ends.now → ⊥)
        → RefusesRings corners.now ends.now result out.old out.new len.new }
{
    cover_polygon(
        alloc,
        Side::Inner,
        corners,
        ends,
        outside,
        margin,
        level,
        most,
        out,
        len,
    )
}

/// An outer covering of a polygon by at most `cells` cells, or 6 if that is more, none deeper than the level `deepest`;
/// those larger than a cell of the level `least` are then cut to that level. Cells are split for at most 2^20 + 32
/// (corners + `cells`) pairs of a cell and an edge that meets it. Up to there it comes near, as `IsNearOuter` says. The
/// rest is as for `s2u_polygon_outer`.
#[unsafe(no_mangle)]
pub extern "C" fn s2u_polygon_outer_up_to(
    alloc: Global,
    corners: &[Direction],
    ends: &[usize],
    outside: u64,
    margin: u64,
    least: u32,
    deepest: u32,
    cells: usize,
    out: &mut [u64],
    len: &mut usize,
) -> i32
    ensures made { IsAsked outside margin least deepest → AreGiven corners.now ends.now → AnswersCut least
        (IsOuterUpTo (region_of corners.now ends.now outside margin) deepest (min cells MOST_COVERING))
        result out.old out.new len.new }
    ensures most { AreGiven corners.now ends.now → len.new ≤ MOST_COVERING }
    ensures argument { (IsAsked outside margin least deepest → ⊥)
        → Refused result bad_argument out.old out.new len.new }
    ensures rings { IsAsked outside margin least deepest → (AreGiven corners.now ends.now → ⊥)
        → RefusesRings corners.now ends.now result out.old out.new len.new }
{
    cover_up_to(
        alloc,
        Side::Outer,
        corners,
        ends,
        outside,
        margin,
        least,
        deepest,
        cells,
        out,
        len,
    )
}

/// An inner covering of a polygon by at most `cells` cells, none deeper than the level `deepest`; those larger than a
/// cell of the level `least` are then cut to that level. Cells are split for no more pairs than by
/// `s2u_polygon_outer_up_to`; up to there it comes near, as `IsNearInner` says. The rest is as for `s2u_polygon_outer`.
#[unsafe(no_mangle)]
pub extern "C" fn s2u_polygon_inner_up_to(
    alloc: Global,
    corners: &[Direction],
    ends: &[usize],
    outside: u64,
    margin: u64,
    least: u32,
    deepest: u32,
    cells: usize,
    out: &mut [u64],
    len: &mut usize,
) -> i32
    ensures made { IsAsked outside margin least deepest → AreGiven corners.now ends.now → AnswersCut least
        (IsInnerUpTo (region_of corners.now ends.now outside margin) deepest (min cells MOST_COVERING))
        result out.old out.new len.new }
    ensures most { AreGiven corners.now ends.now → len.new ≤ MOST_COVERING }
    ensures argument { (IsAsked outside margin least deepest → ⊥)
        → Refused result bad_argument out.old out.new len.new }
    ensures rings { IsAsked outside margin least deepest → (AreGiven corners.now ends.now → ⊥)
        → RefusesRings corners.now ends.now result out.old out.new len.new }
{
    cover_up_to(
        alloc,
        Side::Inner,
        corners,
        ends,
        outside,
        margin,
        least,
        deepest,
        cells,
        out,
        len,
    )
}

/// Both coverings of a polygon by few cells, whose edges are prepared once: what `s2u_polygon_outer_up_to` and
/// `s2u_polygon_inner_up_to` answer, each in its list. The status is that of the first, or if that made its list, of
/// the second. Without memory nothing is written.
#[unsafe(no_mangle)]
pub extern "C" fn s2u_polygon_coverings_up_to(
    alloc: Global,
    corners: &[Direction],
    ends: &[usize],
    outside: u64,
    margin: u64,
    least: u32,
    deepest: u32,
    cells: usize,
    outer: &mut [u64],
    outer_len: &mut usize,
    inner: &mut [u64],
    inner_len: &mut usize,
) -> i32
    ensures made { IsAsked outside margin least deepest → AreGiven corners.now ends.now → AnswersBoth
        (λ status. CutsOne least
        (IsOuterUpTo (region_of corners.now ends.now outside margin) deepest (min cells MOST_COVERING))
        status outer.old outer.new outer_len.new)
        (λ status. CutsOne least
        (IsInnerUpTo (region_of corners.now ends.now outside margin) deepest (min cells MOST_COVERING))
        status inner.old inner.new inner_len.new) result
        ⊎ (Refused result no_memory outer.old outer.new outer_len.new
        × Refused result no_memory inner.old inner.new inner_len.new) }
    ensures most { AreGiven corners.now ends.now
        → (outer_len.new ≤ MOST_COVERING) × (inner_len.new ≤ MOST_COVERING) }
    ensures argument { (IsAsked outside margin least deepest → ⊥)
        → Refused result bad_argument outer.old outer.new outer_len.new
        × Refused result bad_argument inner.old inner.new inner_len.new }
    ensures rings { IsAsked outside margin least deepest → (AreGiven corners.now ends.now → ⊥)
        → RefusesRings corners.now ends.now result outer.old outer.new outer_len.new
        × RefusesRings corners.now ends.now result inner.old inner.new inner_len.new }
{
    *outer_len = 0;
    *inner_len = 0;
    let Some(leaf) = leaf_asked(outside, margin, least, deepest) else {
        return BAD_ARGUMENT;
    };
    match polygon_of(alloc, corners, ends, leaf, margin) {
        Ok(polygon) => put_both(
            alloc,
            &polygon,
            least as u8,
            deepest as u8,
            cells.min(MOST_COVERING),
            outer,
            outer_len,
            inner,
            inner_len,
        ),
        Err(fault) => {
            let status = refuse(fault, outer_len);
            *inner_len = *outer_len;
            status
        }
    }
}

/// Why corners and ends are no polygon.
enum Fault {
    /// This corner is no direction, or lies opposite the next of its ring.
    Corner(usize),
    /// This ring ends in a wrong place or has fewer than three corners; 0 if there is no ring.
    Ring(usize),
    /// An allocation failed.
    Memory,
}

/// The covering of a polygon at one level.
fn cover_polygon(
    alloc: Global,
    side: Side,
    corners: &[Direction],
    ends: &[usize],
    outside: u64,
    margin: u64,
    level: u32,
    most: usize,
    out: &mut [u64],
    len: &mut usize,
) -> i32
    ensures made { IsAsked outside margin 0 level → AreGiven corners.now ends.now → CoversUnless
        (IsTooFineFor side (region_of corners.now ends.now outside margin) level) (min most MOST_COVERING)
        (polygon_covering_of side level (region_of corners.now ends.now outside margin))
        result out.old out.new len.new }
    ensures most { AreGiven corners.now ends.now → len.new ≤ min most MOST_COVERING }
    ensures argument { (IsAsked outside margin 0 level → ⊥) → Refused result bad_argument out.old out.new len.new }
    ensures rings { IsAsked outside margin 0 level → (AreGiven corners.now ends.now → ⊥)
        → RefusesRings corners.now ends.now result out.old out.new len.new }
{
    *len = 0;
    let Some(leaf) = leaf_asked(outside, margin, 0, level) else {
        return BAD_ARGUMENT;
    };
    match polygon_of(alloc, corners, ends, leaf, margin) {
        Ok(polygon) => put_covering(
            alloc,
            side,
            &polygon,
            level as u8,
            most.min(MOST_COVERING),
            out,
            len,
        ),
        Err(fault) => refuse(fault, len),
    }
}

/// The covering of a polygon by few cells, cut to a level.
fn cover_up_to(
    alloc: Global,
    side: Side,
    corners: &[Direction],
    ends: &[usize],
    outside: u64,
    margin: u64,
    least: u32,
    deepest: u32,
    cells: usize,
    out: &mut [u64],
    len: &mut usize,
) -> i32
    ensures made { IsAsked outside margin least deepest → AreGiven corners.now ends.now → AnswersCut least
        (IsUpTo side (region_of corners.now ends.now outside margin) deepest (min cells MOST_COVERING))
        result out.old out.new len.new }
    ensures most { AreGiven corners.now ends.now → len.new ≤ MOST_COVERING }
    ensures argument { (IsAsked outside margin least deepest → ⊥)
        → Refused result bad_argument out.old out.new len.new }
    ensures rings { IsAsked outside margin least deepest → (AreGiven corners.now ends.now → ⊥)
        → RefusesRings corners.now ends.now result out.old out.new len.new }
{
    *len = 0;
    let Some(leaf) = leaf_asked(outside, margin, least, deepest) else {
        return BAD_ARGUMENT;
    };
    match polygon_of(alloc, corners, ends, leaf, margin) {
        Ok(polygon) => put_up_to(
            alloc,
            side,
            &polygon,
            least as u8,
            deepest as u8,
            cells.min(MOST_COVERING),
            out,
            len,
        ),
        Err(fault) => refuse(fault, len),
    }
}

/// The leaf outside, if all that is asked for besides corners and rings is in range.
fn leaf_asked(outside: u64, margin: u64, least: u32, deepest: u32) -> Option<CellId>
    ensures { SomeIff result (IsAsked outside margin least deepest) outside }
{
    if margin > MOST_MARGIN || least > deepest || deepest > 30 {
        return None;
    }
    match CellId::from_id(outside) {
        Some(leaf) if leaf.is_leaf() => Some(leaf),
        _ => None,
    }
}

/// The direction of a corner, if it is one.
fn direction_of(corner: &Direction) -> Option<s2polygon::Direction>
    ensures { SomeIff result (IsDirection (point_of corner.now)) (point_of corner.now) }
{
    match s2polygon::Direction::new(corner.x, corner.y, corner.z) {
        Ok(direction) => Some(direction),
        Err(_) => None,
    }
}

/// The directions of corners.
fn directions_of(alloc: Global, corners: &[Direction]) -> Result<Vec<s2polygon::Direction>, Fault>
    ensures made { IfOk result (λ made. made.items ≡ points_of corners.now) }
    ensures directions { IfOk result (λ made. All IsDirection (points_of corners.now)) }
    ensures fault { (ends : List ℕ) → IfErr result (FaultIs corners.now ends) }
{
    let Ok(mut directions) = Vec::with_capacity(alloc, corners.len()) else {
        return Err(Fault::Memory);
    };
    for k in 0..corners.len() {
        let Some(direction) = direction_of(&corners[k]) else {
            return Err(Fault::Corner(k));
        };
        let Ok(_) = directions.push(direction) else {
            return Err(Fault::Memory);
        };
    }
    Ok(directions)
}

/// The polygon of these corners.
fn polygon_of(
    alloc: Global,
    corners: &[Direction],
    ends: &[usize],
    outside: CellId,
    margin: u64,
) -> Result<Polygon, Fault>
    requires leaf { level_of outside ≡ 30 }
    requires margin { margin ≤ MOST_MARGIN }
    ensures made { IfOk result (λ p. p ≡ region_of corners.now ends.now outside margin) }
    ensures given { IfOk result (λ p. AreGiven corners.now ends.now) }
    ensures fault { IfErr result (FaultIs corners.now ends.now) }
{
    let directions = match directions_of(alloc, corners) {
        Ok(directions) => directions,
        Err(fault) => return Err(fault),
    };
    match Polygon::new(alloc, &directions, ends, outside, margin) {
        Ok(polygon) => Ok(polygon),
        Err(fault) => Err(fault_of(fault)),
    }
}

/// The fault of corners or rings.
fn fault_of(fault: PolygonFault) -> Fault
    ensures { (corners : List Direction) (ends : List ℕ) (outside margin : ℕ) → level_of outside ≡ 30
        → margin ≤ MOST_MARGIN → FaultMeans (points_of corners) ends outside margin fault
        → FaultIs corners ends result }
{
    match fault {
        PolygonFault::Antipodal(k) => Fault::Corner(k),
        PolygonFault::WrongEnd(r) => Fault::Ring(r),
        PolygonFault::TooFewCorners(r) => Fault::Ring(r),
        PolygonFault::NoRing => Fault::Ring(0),
        _ => Fault::Memory,
    }
}

/// Tells the fault of corners and rings, and where it is.
fn refuse(fault: Fault, len: &mut usize) -> i32
    requires { len.old ≡ 0 }
    ensures { (corners : List Direction) (ends out : List ℕ) → FaultIs corners ends fault
        → RefusesRings corners ends result out out len.new }
{
    match fault {
        Fault::Corner(k) => {
            *len = k;
            BAD_CORNER
        }
        Fault::Ring(r) => {
            *len = r;
            BAD_RING
        }
        Fault::Memory => NO_MEMORY,
    }
}

/// The covering of a polygon at one level, in a list of its own.
fn polygon_covering(
    alloc: Global,
    side: Side,
    polygon: &Polygon,
    level: u8,
    bound: usize,
) -> Result<CellUnion, CoverFault>
    requires level { level ≤ 30 }
    requires bound { bound ≤ MOST_COVERING }
    ensures normal { IfOk result (λ u. IsNormalForm (polygon_covering_of side level polygon.now) u.cells) }
    ensures within { IfOk result (λ u. length u.cells ≤ bound) }
    ensures many { IfErr result (λ fault. TooManyMeans (polygon_covering_of side level polygon.now) bound fault
        ⊎ IsTooFineFor side polygon.now level) }
{
    match side {
        Side::Outer => polygon.outer(alloc, level, bound),
        Side::Inner => polygon.inner(alloc, level, bound),
    }
}

/// Writes the covering of a polygon at one level, if it has at most `bound` cells.
fn put_covering(
    alloc: Global,
    side: Side,
    polygon: &Polygon,
    level: u8,
    bound: usize,
    out: &mut [u64],
    len: &mut usize,
) -> i32
    requires level { level ≤ 30 }
    requires bound { bound ≤ MOST_COVERING }
    requires len { len.old ≡ 0 }
    ensures made { CoversUnless (IsTooFineFor side polygon.now level) bound
        (polygon_covering_of side level polygon.now) result out.old out.new len.new }
    ensures most { len.new ≤ bound }
{
    match polygon_covering(alloc, side, polygon, level, bound) {
        Ok(union) => put_cells(union.cells(), out, len),
        Err(CoverFault::TooMany) => TOO_MANY,
        Err(CoverFault::Memory) => NO_MEMORY,
    }
}

/// The covering of a polygon by few cells, in a list of its own.
fn covering_up_to(
    alloc: Global,
    side: Side,
    polygon: &Polygon,
    deepest: u8,
    most: usize,
) -> Result<CellUnion, AllocError>
    requires level { deepest ≤ 30 }
    requires most { most ≤ MOST_COVERING }
    ensures made { IfOk result (λ u. IsUpTo side polygon.now deepest most u.cells) }
    ensures local { IfOk result (λ u. IsLocal u.cells) }
{
    match side {
        Side::Outer => polygon.outer_up_to(alloc, deepest, most),
        Side::Inner => polygon.inner_up_to(alloc, deepest, most),
    }
}

/// Writes the covering of a polygon by few cells, cut to a level.
fn put_up_to(
    alloc: Global,
    side: Side,
    polygon: &Polygon,
    least: u8,
    deepest: u8,
    most: usize,
    out: &mut [u64],
    len: &mut usize,
) -> i32
    requires least { least ≤ 30 }
    requires deepest { deepest ≤ 30 }
    requires most { most ≤ MOST_COVERING }
    requires len { len.old ≡ 0 }
    ensures made { AnswersCut least (IsUpTo side polygon.now deepest most) result out.old out.new len.new }
    ensures most { len.new ≤ MOST_COVERING }
{
    match covering_up_to(alloc, side, polygon, deepest, most) {
        Ok(union) => put_cut(&union, least, out, len),
        Err(_) => NO_MEMORY,
    }
}

/// Writes both coverings of a polygon by few cells, cut to a level; nothing if there is no memory for both.
fn put_both(
    alloc: Global,
    polygon: &Polygon,
    least: u8,
    deepest: u8,
    most: usize,
    outer: &mut [u64],
    outer_len: &mut usize,
    inner: &mut [u64],
    inner_len: &mut usize,
) -> i32
    requires least { least ≤ 30 }
    requires deepest { deepest ≤ 30 }
    requires most { most ≤ MOST_COVERING }
    requires outer_len { outer_len.old ≡ 0 }
    requires inner_len { inner_len.old ≡ 0 }
    ensures made { AnswersBoth
        (λ status. CutsOne least (IsOuterUpTo polygon.now deepest most) status outer.old outer.new outer_len.new)
        (λ status. CutsOne least (IsInnerUpTo polygon.now deepest most) status inner.old inner.new inner_len.new)
        result
        ⊎ (Refused result no_memory outer.old outer.new outer_len.new
        × Refused result no_memory inner.old inner.new inner_len.new) }
    ensures most { (outer_len.new ≤ MOST_COVERING) × (inner_len.new ≤ MOST_COVERING) }
{
    let Ok(outside) = covering_up_to(alloc, Side::Outer, polygon, deepest, most) else {
        return NO_MEMORY;
    };
    let Ok(inside) = covering_up_to(alloc, Side::Inner, polygon, deepest, most) else {
        return NO_MEMORY;
    };
    let first = put_cut(&outside, least, outer, outer_len);
    let second = put_cut(&inside, least, inner, inner_len);
    if first == MADE { second } else { first }
}

/// Writes the cells of a union, with those of the level `least` in place of larger ones, unless they are too many.
fn put_cut(union: &CellUnion, least: u8, out: &mut [u64], len: &mut usize) -> i32
    requires least { least ≤ 30 }
    requires len { len.old ≡ 0 }
    ensures made { length (denormalised least 1 union.now.cells) ≤ MOST_COVERING
        → Made result (denormalised least 1 union.now.cells) out.old out.new len.new }
    ensures many { MOST_COVERING < length (denormalised least 1 union.now.cells)
        → Refused result too_many out.old out.new len.new }
    ensures most { len.new ≤ MOST_COVERING }
{
    let list = CellList {
        cells: union.cells(),
    };
    let n = denormalise(&list, least, 1, &mut []);
    if n > MOST_COVERING {
        return TOO_MANY;
    }
    *len = n;
    if n > out.len() {
        return NO_ROOM;
    }
    denormalise(&list, least, 1, out);
    MADE
}

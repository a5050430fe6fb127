//! The coverings of rectangles, of unions, and of what a union and a rectangle share, at one level.
ghost use Rattle.std.specs.Prelude.{◌≡◌, ◌<◌, ◌≤◌, ◌⊎◌, ℕ, IfErr, IfOk, IsTrue, List, SomeIff};
ghost use Rattle.std.specs.Prelude.{drop, length, min};
ghost use Rattle.s2cell.specs.Rectangles.{IsRect, rect_set};
ghost use Rattle.s2list.specs.Union.{IsLocal, IsNormalForm, has_leaf};
ghost use Rattle.s2list.specs.Room.{PutsUpTo};
ghost use Rattle.s2cover.specs.Coverings.{TooManyMeans, inner_set, outer_set, clipped};
ghost use Rattle.s2union_c.specs.Coverings.{Covers, CoversInPlace, HasMoreCells};
ghost use Rattle.s2union_c.specs.Rectangles.{rect_with};
ghost use Rattle.s2union_c.specs.Results.{FindsMany, KeepsRest, MadeOne, Refused};
ghost use Rattle.s2union_c.specs.Status.{bad_argument, too_many};
ghost use Rattle.s2union_c.specs.Working.Coverings.{covering_of};

use crate::results::{put_cells, room_status};
use crate::status::{BAD_ARGUMENT, NO_MEMORY, TOO_MANY};
use s2cover::{
    CoverFault, FaceRect, Looks, MOST_COVERING, clip_inner_of, clip_outer_of, put_inner, put_outer,
    rect_inner, rect_outer,
};
use s2list::IdList;
use s2union::CellUnion;
use std::alloc::Global;

/// The leaves of a face, 0 to 5, with coordinates from `i0` to `i1` and from `j0` to `j1`, bounds included.
#[repr(C)]
#[derive(Clone, Copy)]
pub struct Rect {
    /// The face.
    pub face: u32,
    /// The least coordinate i.
    pub i0: u32,
    /// The greatest coordinate i.
    pub i1: u32,
    /// The least coordinate j.
    pub j0: u32,
    /// The greatest coordinate j.
    pub j1: u32,
}

/// The cells of a level that share a leaf with a rectangle, normalized: at most `most` of them, and at most
/// `MOST_COVERING`.
#[unsafe(no_mangle)]
pub extern "C" fn s2u_outer(
    alloc: Global,
    bounds: &Rect,
    level: u32,
    most: usize,
    out: &mut [u64],
    len: &mut usize,
) -> i32
    ensures made { IsRect (rect_with bounds.now) → level ≤ 30 → Covers (min most MOST_COVERING)
        (outer_set (rect_set (rect_with bounds.now)) level) result out.old out.new len.new }
    ensures most { len.new ≤ min most MOST_COVERING }
    ensures argument { (IsRect (rect_with bounds.now) → 30 < level)
        → Refused result bad_argument out.old out.new len.new }
{
    cover_rect(alloc, Side::Outer, bounds, level, most, out, len)
}

/// The cells of a level that lie inside a rectangle, normalized: at most `most` of them, and at most `MOST_COVERING`.
#[unsafe(no_mangle)]
pub extern "C" fn s2u_inner(
    alloc: Global,
    bounds: &Rect,
    level: u32,
    most: usize,
    out: &mut [u64],
    len: &mut usize,
) -> i32
    ensures made { IsRect (rect_with bounds.now) → level ≤ 30 → Covers (min most MOST_COVERING)
        (inner_set (rect_set (rect_with bounds.now)) level) result out.old out.new len.new }
    ensures most { len.new ≤ min most MOST_COVERING }
    ensures argument { (IsRect (rect_with bounds.now) → 30 < level)
        → Refused result bad_argument out.old out.new len.new }
{
    cover_rect(alloc, Side::Inner, bounds, level, most, out, len)
}

/// The cells of a level that share a leaf with a union, normalized: at most `most` of them, and at most
/// `MOST_COVERING`. Of a list that is not a union the result means nothing.
#[unsafe(no_mangle)]
pub extern "C" fn s2u_outer_of(
    ids: &[u64],
    level: u32,
    most: usize,
    out: &mut [u64],
    len: &mut usize,
) -> i32
    ensures made { IsLocal ids.now → level ≤ 30 → CoversInPlace (min most MOST_COVERING)
        (outer_set (has_leaf ids.now) level) result out.old out.new len.new }
    ensures few { IsLocal ids.now → len.new ≤ length ids.now }
    ensures most { len.new ≤ min most MOST_COVERING }
    ensures any { level ≤ 30 → KeepsRest result out.old out.new len.new
        ⊎ FindsMany (min most MOST_COVERING) result out.old out.new len.new }
    ensures argument { 30 < level → Refused result bad_argument out.old out.new len.new }
{
    *len = 0;
    if level > 30 {
        return BAD_ARGUMENT;
    }
    cover(
        Side::Outer,
        ids,
        level as u8,
        most.min(MOST_COVERING),
        out,
        len,
    )
}

/// The cells of a level that lie inside a union, normalized: at most `most` of them, and at most `MOST_COVERING`. Of a
/// list that is not a union the result means nothing.
#[unsafe(no_mangle)]
pub extern "C" fn s2u_inner_of(
    ids: &[u64],
    level: u32,
    most: usize,
    out: &mut [u64],
    len: &mut usize,
) -> i32
    ensures made { IsLocal ids.now → level ≤ 30 → CoversInPlace (min most MOST_COVERING)
        (inner_set (has_leaf ids.now) level) result out.old out.new len.new }
    ensures few { IsLocal ids.now → len.new ≤ length ids.now }
    ensures most { len.new ≤ min most MOST_COVERING }
    ensures any { level ≤ 30 → KeepsRest result out.old out.new len.new
        ⊎ FindsMany (min most MOST_COVERING) result out.old out.new len.new }
    ensures argument { 30 < level → Refused result bad_argument out.old out.new len.new }
{
    *len = 0;
    if level > 30 {
        return BAD_ARGUMENT;
    }
    cover(
        Side::Inner,
        ids,
        level as u8,
        most.min(MOST_COVERING),
        out,
        len,
    )
}

/// The cells of a level that share a leaf with what a union and a rectangle share, normalized: at most `most` of them,
/// and at most `MOST_COVERING`. Of a list that is not a union the result is some union, which means nothing.
#[unsafe(no_mangle)]
pub extern "C" fn s2u_outer_in(
    alloc: Global,
    ids: &[u64],
    bounds: &Rect,
    level: u32,
    most: usize,
    out: &mut [u64],
    len: &mut usize,
) -> i32
    ensures made { IsLocal ids.now → IsRect (rect_with bounds.now) → level ≤ 30 → Covers (min most MOST_COVERING)
        (outer_set (clipped ids.now (rect_with bounds.now)) level) result out.old out.new len.new }
    ensures any { IsRect (rect_with bounds.now) → level ≤ 30 → MadeOne result IsLocal out.old out.new len.new
        ⊎ Refused result too_many out.old out.new len.new }
    ensures most { len.new ≤ min most MOST_COVERING }
    ensures argument { (IsRect (rect_with bounds.now) → 30 < level)
        → Refused result bad_argument out.old out.new len.new }
{
    cover_in(alloc, Side::Outer, ids, bounds, level, most, out, len)
}

/// The cells of a level that lie inside what a union and a rectangle share, normalized: at most `most` of them, and at
/// most `MOST_COVERING`. Of a list that is not a union the result is some union, which means nothing.
#[unsafe(no_mangle)]
pub extern "C" fn s2u_inner_in(
    alloc: Global,
    ids: &[u64],
    bounds: &Rect,
    level: u32,
    most: usize,
    out: &mut [u64],
    len: &mut usize,
) -> i32
    ensures made { IsLocal ids.now → IsRect (rect_with bounds.now) → level ≤ 30 → Covers (min most MOST_COVERING)
        (inner_set (clipped ids.now (rect_with bounds.now)) level) result out.old out.new len.new }
    ensures any { IsRect (rect_with bounds.now) → level ≤ 30 → MadeOne result IsLocal out.old out.new len.new
        ⊎ Refused result too_many out.old out.new len.new }
    ensures most { len.new ≤ min most MOST_COVERING }
    ensures argument { (IsRect (rect_with bounds.now) → 30 < level)
        → Refused result bad_argument out.old out.new len.new }
{
    cover_in(alloc, Side::Inner, ids, bounds, level, most, out, len)
}

/// Which covering is made.
#[derive(Clone, Copy)]
pub(crate) enum Side {
    Outer,
    Inner,
}

/// The covering, if it has at most `bound` cells. It is counted before anything is written, unless the union has no
/// more cells than that: then no covering has.
fn cover(side: Side, ids: &[u64], level: u8, bound: usize, out: &mut [u64], len: &mut usize) -> i32
    requires level { level ≤ 30 }
    requires len { len.old ≡ 0 }
    ensures made { IsLocal ids.now →
        CoversInPlace bound (covering_of side level (has_leaf ids.now)) result out.old out.new len.new }
    ensures few { IsLocal ids.now → len.new ≤ length ids.now }
    ensures most { len.new ≤ bound }
    ensures any { KeepsRest result out.old out.new len.new ⊎ FindsMany bound result out.old out.new len.new }
{
    if is_longer(side, ids, level, bound) {
        return TOO_MANY;
    }
    let room = bound.min(out.len());
    let n = put_covering(side, ids, level, bound, &mut out[..room]);
    if n > bound {
        return TOO_MANY;
    }
    *len = n;
    room_status(n, out.len())
}

/// Whether the covering has more than `bound` cells.
fn is_longer(side: Side, ids: &[u64], level: u8, bound: usize) -> bool
    requires { level ≤ 30 }
    ensures longer { IsLocal ids.now → IsTrue result → HasMoreCells bound (covering_of side level (has_leaf ids.now)) }
    ensures rest { IsLocal ids.now → (IsTrue result → ⊥)
        → (u : List ℕ) × IsNormalForm (covering_of side level (has_leaf ids.now)) u × (length u ≤ bound) }
{
    ids.len() > bound && put_covering(side, ids, level, bound, &mut []) > bound
}

/// Puts the covering into the room, as `put_outer` and `put_inner` do.
fn put_covering(side: Side, ids: &[u64], level: u8, most: usize, out: &mut [u64]) -> usize
    requires { level ≤ 30 }
    ensures len { length out.new ≡ length out.old }
    ensures made { IsLocal ids.now
        → PutsUpTo most (IsNormalForm (covering_of side level (has_leaf ids.now))) out.old out.new result }
    ensures rest { drop result out.new ≡ drop result out.old }
{
    match side {
        Side::Outer => put_outer(&IdList { ids }, level, most, out),
        Side::Inner => put_inner(&IdList { ids }, level, most, out),
    }
}

/// The covering of a rectangle.
fn cover_rect(
    alloc: Global,
    side: Side,
    bounds: &Rect,
    level: u32,
    most: usize,
    out: &mut [u64],
    len: &mut usize,
) -> i32
    ensures made { IsRect (rect_with bounds.now) → level ≤ 30 → Covers (min most MOST_COVERING)
        (covering_of side level (rect_set (rect_with bounds.now))) result out.old out.new len.new }
    ensures most { len.new ≤ min most MOST_COVERING }
    ensures argument { (IsRect (rect_with bounds.now) → 30 < level)
        → Refused result bad_argument out.old out.new len.new }
{
    *len = 0;
    let Some(rect) = rect_of(bounds) else {
        return BAD_ARGUMENT;
    };
    if level > 30 {
        return BAD_ARGUMENT;
    }
    match rect_covering(alloc, side, &rect, level as u8, most.min(MOST_COVERING)) {
        Ok(union) => put_cells(union.cells(), out, len),
        Err(CoverFault::TooMany) => TOO_MANY,
        Err(CoverFault::Memory) => NO_MEMORY,
    }
}

/// The covering of a rectangle, in a list of its own.
fn rect_covering(
    alloc: Global,
    side: Side,
    rect: &FaceRect,
    level: u8,
    bound: usize,
) -> Result<CellUnion, CoverFault>
    requires level { level ≤ 30 }
    requires bound { bound ≤ MOST_COVERING }
    ensures normal { IfOk result (λ u. IsNormalForm (covering_of side level (rect_set rect.now)) u.cells) }
    ensures within { IfOk result (λ u. length u.cells ≤ bound) }
    ensures many { IfErr result (TooManyMeans (covering_of side level (rect_set rect.now)) bound) }
{
    let mut looks = Looks::default();
    match side {
        Side::Outer => rect_outer(alloc, rect, level, bound, &mut looks),
        Side::Inner => rect_inner(alloc, rect, level, bound, &mut looks),
    }
}

/// The covering of what a union and a rectangle share.
fn cover_in(
    alloc: Global,
    side: Side,
    ids: &[u64],
    bounds: &Rect,
    level: u32,
    most: usize,
    out: &mut [u64],
    len: &mut usize,
) -> i32
    ensures made { IsLocal ids.now → IsRect (rect_with bounds.now) → level ≤ 30 → Covers (min most MOST_COVERING)
        (covering_of side level (clipped ids.now (rect_with bounds.now))) result out.old out.new len.new }
    ensures any { IsRect (rect_with bounds.now) → level ≤ 30 → MadeOne result IsLocal out.old out.new len.new
        ⊎ Refused result too_many out.old out.new len.new }
    ensures most { len.new ≤ min most MOST_COVERING }
    ensures argument { (IsRect (rect_with bounds.now) → 30 < level)
        → Refused result bad_argument out.old out.new len.new }
{
    *len = 0;
    let Some(rect) = rect_of(bounds) else {
        return BAD_ARGUMENT;
    };
    if level > 30 {
        return BAD_ARGUMENT;
    }
    match clipped_covering(
        alloc,
        side,
        ids,
        &rect,
        level as u8,
        most.min(MOST_COVERING),
    ) {
        Ok(union) => put_cells(union.cells(), out, len),
        Err(CoverFault::TooMany) => TOO_MANY,
        Err(CoverFault::Memory) => NO_MEMORY,
    }
}

/// The covering of what a union and a rectangle share, in a list of its own.
fn clipped_covering(
    alloc: Global,
    side: Side,
    ids: &[u64],
    rect: &FaceRect,
    level: u8,
    bound: usize,
) -> Result<CellUnion, CoverFault>
    requires level { level ≤ 30 }
    requires bound { bound ≤ MOST_COVERING }
    ensures local { IfOk result (λ u. IsLocal u.cells) }
    ensures normal { IsLocal ids.now → IfOk result (λ u.
        IsNormalForm (covering_of side level (clipped ids.now rect.now)) u.cells) }
    ensures within { IfOk result (λ u. length u.cells ≤ bound) }
    ensures many { IsLocal ids.now → IfErr result
        (TooManyMeans (covering_of side level (clipped ids.now rect.now)) bound) }
{
    match side {
        Side::Outer => clip_outer_of(alloc, &IdList { ids }, rect, level, bound),
        Side::Inner => clip_inner_of(alloc, &IdList { ids }, rect, level, bound),
    }
}

/// The rectangle with these bounds, if there is one.
fn rect_of(bounds: &Rect) -> Option<FaceRect>
    ensures { SomeIff result (IsRect (rect_with bounds.now)) (rect_with bounds.now) }
{
    if bounds.face > 5 {
        return None;
    }
    FaceRect::new(
        bounds.face as u8,
        bounds.i0,
        bounds.i1,
        bounds.j0,
        bounds.j1,
    )
}

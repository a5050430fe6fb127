//! Calls of `s2cover`: coverings of regions, and how many quadrants the search for a covering looks at.
ghost use Rattle.std.specs.Prelude.{◌≤◌};
ghost use Rattle.s2cell.specs.declared.TheConstants.{GREATEST_LEVEL};
ghost use Rattle.s2cover.specs.declared.TheConstants.{MOST_COVERING};

use crate::even::Even;
use crate::texts::{add_cells, coordinate, cut, numbers_of, small, union_of};
use crate::weighed::Weighed;
use s2cell::GREATEST_LEVEL;
use s2cover::{
    Clip, CoverFault, FaceRect, Looks, MOST_COVERING, Region, clip_inner, clip_outer, inner,
    inner_up_to, outer, outer_up_to, rect_inner, rect_outer,
};
use s2union::CellUnion;
use std::alloc::{AllocError, Global};
use std::cell::Cell;
use test_table::add_line;

/// Which covering.
#[derive(Clone, Copy, PartialEq, Eq)]
enum Kind {
    Outer,
    Inner,
}

/// The covering that a call asks for.
#[derive(Drop)]
struct Wanted {
    kind: Kind,
    level: u8,
    most: usize,
    ghost level_is_one: { level ≤ GREATEST_LEVEL },
    ghost most_is_allowed: { most ≤ MOST_COVERING },
}

/// Makes a call `outer` or `inner`, `REGION LEVEL MOST / ..`, and adds its answer. False for the name of another call.
pub fn answer(
    alloc: Global,
    name: &str,
    words: &str,
    found: &mut Vec<u8>,
) -> Result<bool, AllocError> {
    let Some(kind) = kind_of(name) else {
        return Ok(false);
    };
    let (head, rest) = cut(words);
    let (region, sizes) = head.split_once(" ").unwrap_or((head, ""));
    let Some(wanted) = wanted_of(kind, sizes) else {
        add_line(found, "out of range")?;
        return Ok(true);
    };
    if region == "even" {
        add_covering(found, cover(alloc, &Even, &wanted))?;
    } else if region == "union" {
        let union = union_of(alloc, rest)?;
        add_covering(found, cover(alloc, &union, &wanted))?;
    } else {
        add_of_rect(alloc, region, rest, &wanted, found)?;
    }
    Ok(true)
}

fn kind_of(name: &str) -> Option<Kind> {
    match name {
        "outer" => Some(Kind::Outer),
        "inner" => Some(Kind::Inner),
        _ => None,
    }
}

/// What `LEVEL MOST` ask for.
fn wanted_of(kind: Kind, sizes: &str) -> Option<Wanted> {
    let [level, most, ..] = numbers_of(sizes);
    if level > u64::from(GREATEST_LEVEL) || most > MOST_COVERING as u64 {
        return None;
    }
    Some(Wanted {
        kind,
        level: level as u8,
        most: most as usize,
    })
}

/// The covering of a region.
fn cover<R: Region>(alloc: Global, region: &R, wanted: &Wanted) -> Result<CellUnion, CoverFault> {
    match wanted.kind {
        Kind::Outer => outer(alloc, region, wanted.level, wanted.most),
        Kind::Inner => inner(alloc, region, wanted.level, wanted.most),
    }
}

/// Adds the covering of a rectangle, `FACE I0 I1 J0 J1 / ..`: as a region (`rectangle`), or as a region that clips a
/// union (`clip`, followed by `CELLS`), or by few cells, with how many children of cells are asked for (`few`, followed
/// by the size that each cell says), or by the calls that count their looks (`grid`, and `clipped` for a union, both
/// followed by `LEAST MOST`).
fn add_of_rect(
    alloc: Global,
    region: &str,
    words: &str,
    wanted: &Wanted,
    found: &mut Vec<u8>,
) -> Result<(), AllocError> {
    let (rect, rest) = cut(words);
    let Some(rect) = rect_of(rect) else {
        return add_line(found, "no rectangle");
    };
    if region == "rectangle" {
        return add_covering(found, cover(alloc, &rect, wanted));
    }
    if region == "clip" {
        let union = union_of(alloc, rest)?;
        let clip = Clip {
            union: &union,
            rect,
        };
        return add_covering(found, cover(alloc, &clip, wanted));
    }
    if region == "few" {
        let [size, ..] = numbers_of(rest);
        return add_few(alloc, &rect, size as usize, wanted, found);
    }
    let (bounds, cells) = cut(rest);
    let mut looks = Looks::default();
    let made = if region == "grid" {
        cover_grid(alloc, &rect, wanted, &mut looks)
    } else {
        cover_clipped(alloc, &union_of(alloc, cells)?, &rect, wanted, &mut looks)
    };
    add_covering(found, made)?;
    add_looks(alloc, bounds, looks.count, found)
}

/// Adds the covering of a rectangle by few cells, and how many children of cells are asked for, if each cell has this
/// size.
fn add_few(
    alloc: Global,
    rect: &FaceRect,
    size: usize,
    wanted: &Wanted,
    found: &mut Vec<u8>,
) -> Result<(), AllocError> {
    let asked = Cell::new(0u64);
    let weighed = Weighed {
        region: rect,
        size,
        asked: &asked,
    };
    let cells = match wanted.kind {
        Kind::Outer => outer_up_to(alloc, &weighed, wanted.level, wanted.most)?,
        Kind::Inner => inner_up_to(alloc, &weighed, wanted.level, wanted.most)?,
    };
    add_cells(found, cells.cells())?;
    let count = asked.get();
    add_line(found, &format!(in alloc; "children {count}")?)
}

/// The rectangle `FACE I0 I1 J0 J1`.
fn rect_of(words: &str) -> Option<FaceRect> {
    let [face, i0, i1, j0, j1] = numbers_of(words);
    let (i0, i1) = (coordinate(i0), coordinate(i1));
    FaceRect::new(small(face), i0, i1, coordinate(j0), coordinate(j1))
}

fn cover_grid(
    alloc: Global,
    rect: &FaceRect,
    wanted: &Wanted,
    looks: &mut Looks,
) -> Result<CellUnion, CoverFault> {
    match wanted.kind {
        Kind::Outer => rect_outer(alloc, rect, wanted.level, wanted.most, looks),
        Kind::Inner => rect_inner(alloc, rect, wanted.level, wanted.most, looks),
    }
}

fn cover_clipped(
    alloc: Global,
    union: &CellUnion,
    rect: &FaceRect,
    wanted: &Wanted,
    looks: &mut Looks,
) -> Result<CellUnion, CoverFault> {
    match wanted.kind {
        Kind::Outer => clip_outer(alloc, union, rect, wanted.level, wanted.most, looks),
        Kind::Inner => clip_inner(alloc, union, rect, wanted.level, wanted.most, looks),
    }
}

/// Adds the cells of a covering, or why there is none.
fn add_covering(
    found: &mut Vec<u8>,
    made: Result<CellUnion, CoverFault>,
) -> Result<(), AllocError> {
    match made {
        Ok(union) => add_cells(found, union.cells()),
        Err(CoverFault::TooMany) => add_line(found, "too many"),
        Err(CoverFault::Memory) => add_line(found, "memory"),
    }
}

/// Adds that a number of looks lies within the bounds, `LEAST MOST`, or the number.
fn add_looks(
    alloc: Global,
    bounds: &str,
    count: u64,
    found: &mut Vec<u8>,
) -> Result<(), AllocError> {
    let [least, most, ..] = numbers_of(bounds);
    if least <= count && count <= most {
        return add_line(found, "looks within");
    }
    add_line(found, &format!(in alloc; "looks {count}")?)
}

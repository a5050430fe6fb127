//! Boxes of cells.
ghost use Rattle.std.specs.Prelude.{◌≡◌, ◌+◌, ◌-◌, ◌*◌, ◌^◌, ◌≤◌, ◌<◌, IfSome};
ghost use Rattle.s2polygon.specs.Directions.{Point};
ghost use Rattle.s2map.specs.Boxes.{IsBox};
ghost use Rattle.s2map.specs.Cells.{HasDirection, InBoxOnTurn, IsBoxOf, IsProperPlace};
ghost use Rattle.s2map.specs.Working.Octants.{AreAngles, IsAngleSpan, IsInOctant, IsRangeOf, IsSeen, IsSideOf, IsSpan};
ghost use Rattle.s2map.specs.Working.Octants.{whole};
ghost use Rattle.s2map.specs.declared.place.Place.{Place};

use crate::angles::{Angles, Span, angles_by_x, angles_by_y, angles_by_z};
use crate::place::MapBox;
use s2cell::CellId;

/// 180 degrees.
const HALF: i64 = 180_000_000_000_000_000;

/// The greatest latitude below a pole.
const BELOW_POLE: i64 = 89_999_999_999_999_999;

/// From one angle to another.
#[derive(Clone, Copy)]
pub struct Range {
    /// The least.
    pub low: i64,
    /// The greatest.
    pub high: i64,
}

/// Columns or rows of a cell that lie on one side of the middle of its face.
#[derive(Clone, Copy)]
pub struct Side {
    /// Whether they lie before the middle.
    pub negative: bool,
    /// Their places, counted from the middle.
    pub span: Span,
}

/// Where the places of a cell lie that has no place on both sides of an axis.
#[derive(Clone, Copy)]
pub struct Octant {
    /// Whether cosines of longitudes are at most 0.
    pub behind: bool,
    /// Whether sines of longitudes are at most 0.
    pub west: bool,
    /// Whether sines of latitudes are at most 0.
    pub south: bool,
    /// Longitudes and latitudes without these signs.
    pub angles: Angles,
}

/// How far a border of leaves is from the middle of its face, where it lies behind the middle.
fn far(t: u64) -> u64
    requires least { 2 ^ 30 ≤ t }
    requires most { t ≤ 2 ^ 31 }
    ensures value { result ≡ t * t - 2 ^ 60 }
    ensures small { result ≤ whole }
{
    t * t - (1 << 60)
}

/// On which side of the middle of the face these columns or rows lie, and how far; nothing if they lie on both.
fn side_of(i: u32, size: u32) -> Option<Side>
    requires { i + size ≤ 2 ^ 30 }
    ensures { IfSome result (λ side. IsSideOf side i size) }
{
    let first = i as u64;
    let last = first + size as u64;
    if first >= 1 << 29 {
        return Some(Side {
            negative: false,
            span: Span {
                low: far(2 * first),
                high: far(2 * last),
            },
        });
    }
    if last <= 1 << 29 {
        return Some(Side {
            negative: true,
            span: Span {
                low: far((1 << 31) - 2 * last),
                high: far((1 << 31) - 2 * first),
            },
        });
    }
    None
}

/// Where the places of a cell lie, by its columns and rows, each on one side of the middle of the face.
fn octant_of(face: u8, u: Side, v: Side) -> Octant
    requires face { face < 6 }
    requires u { IsSpan u.span }
    requires v { IsSpan v.span }
    ensures angles { AreAngles result.angles }
    ensures all { (p : Place) (d : Point) → IsProperPlace p → HasDirection p d → IsSeen face d u v
        → IsInOctant result p }
{
    match face {
        0 => Octant {
            behind: false,
            west: u.negative,
            south: v.negative,
            angles: angles_by_x(u.span, v.span),
        },
        1 => Octant {
            behind: !u.negative,
            west: false,
            south: v.negative,
            angles: angles_by_y(u.span, v.span),
        },
        2 => Octant {
            behind: !u.negative,
            west: !v.negative,
            south: false,
            angles: angles_by_z(u.span, v.span),
        },
        3 => Octant {
            behind: true,
            west: !v.negative,
            south: !u.negative,
            angles: angles_by_x(v.span, u.span),
        },
        4 => Octant {
            behind: v.negative,
            west: true,
            south: !u.negative,
            angles: angles_by_y(v.span, u.span),
        },
        _ => Octant {
            behind: v.negative,
            west: u.negative,
            south: true,
            angles: angles_by_z(v.span, u.span),
        },
    }
}

/// The angles that are folded into a span.
fn range_of(behind: bool, west: bool, s: Span) -> Range
    requires { IsAngleSpan s }
    ensures { IsRangeOf result behind west s }
{
    let low = s.low as i64;
    let high = s.high as i64;
    if behind {
        if west {
            Range {
                low: low - HALF,
                high: high - HALF,
            }
        } else {
            Range {
                low: HALF - high,
                high: HALF - low,
            }
        }
    } else if west {
        Range {
            low: -high,
            high: -low,
        }
    } else {
        Range { low, high }
    }
}

/// The box of the places of an octant.
fn box_in(o: Octant) -> MapBox
    requires { AreAngles o.angles }
    ensures bounds { IsBox result }
    ensures all { (p : Place) → IsProperPlace p → IsInOctant o p → InBoxOnTurn result p }
{
    let longitudes = range_of(o.behind, o.west, o.angles.east);
    let latitudes = range_of(false, o.south, o.angles.north);
    MapBox {
        west: longitudes.low,
        east: longitudes.high,
        south: latitudes.low,
        north: latitudes.high,
    }
}

/// The whole map but the poles.
pub(crate) fn whole_map() -> MapBox
    ensures bounds { IsBox result }
    ensures all { (p : Place) → IsProperPlace p → InBoxOnTurn result p }
{
    MapBox {
        west: -HALF,
        east: HALF,
        south: -BELOW_POLE,
        north: BELOW_POLE,
    }
}

impl MapBox {
    /// The box of a cell: each place of the map that a leaf of the cell holds lies in it, on this turn or on the next.
    ///
    /// Of a face it is the whole map. Of a smaller cell it is at most some 4,000 femtodegrees, half a micrometer, wider
    /// on each side than the cell's own longitudes and latitudes. It takes the time of some 26 sines, around a pole of
    /// up to 52. S2: `S2Cell::GetRectBound`, in floating point.
    pub fn of_cell(cell: CellId) -> MapBox
        ensures bounds { IsBox result }
        ensures all { IsBoxOf cell result }
    {
        let square = cell.square();
        let Some(u) = side_of(square.i, square.size) else {
            return whole_map();
        };
        let Some(v) = side_of(square.j, square.size) else {
            return whole_map();
        };
        box_in(octant_of(cell.face(), u, v))
    }
}

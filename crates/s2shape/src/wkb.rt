//! WKB and EWKB to shapes.
ghost use Rattle.std.specs.Prelude.{◌≡◌, ◌≤◌, ◌*◌, IfOk, None, length};
ghost use Rattle.s2shape.specs.Reading.{Gives, shape_seen, times};
ghost use Rattle.s2shape.specs.Working.Seen.{seen};
ghost use Rattle.s2shape.specs.Wkb.{after_type, count_at, geometry_at, head_at, inside_at, is_member, line_at, one_at};
ghost use Rattle.s2shape.specs.Wkb.{point_at, polygon_at, position_at, position_in, ring_at, wkb};

use crate::fault::{FaultName, ShapeError};
use crate::head::{Endian, Form, Head, Layout, layout_of_type, number_of_4, number_of_8};
use crate::reading::Reading;
use crate::shape::{Kind, Position, Shape};
use crate::steps::{end_closed_ring, end_part, end_ring, fault, is_none, put_position};
use std::alloc::Global;

/// In how many collections or lists a geometry may lie.
pub const DEEPEST: u32 = 32;

/// The head of a geometry, whose SRID is passed over if it says degrees, after the type.
#[tactic(auto, unfolding(crate::specs::Wkb::after_type))]
fn head_after_type<'a>(
    reading: &Reading,
    endian: Endian,
    layout: Layout,
    bytes: &'a [u8],
) -> Result<(Head, &'a [u8]), ShapeError>
    requires whole { 5 ≤ length bytes.now }
    requires low { 16 ≤ layout.stride }
    requires high { layout.stride ≤ 32 }
    ensures head { Gives (λ x. (x.0, x.1.now)) result (after_type endian (seen reading.now, bytes.now) layout) }
    ensures low { IfOk result (λ x. 16 ≤ x.0.stride) }
    ensures high { IfOk result (λ x. x.0.stride ≤ 32) }
{
    let head = Head {
        endian,
        form: layout.form,
        stride: layout.stride,
    };
    if !layout.has_srid {
        return Ok((head, &bytes[5..]));
    }
    if bytes.len() < 9 {
        return Err(fault(reading, FaultName::Truncated, bytes));
    }
    let srid = number_of_4(endian, &bytes[5..]);
    if srid != 0 && srid != 4326 {
        return Err(fault(reading, FaultName::Srid, bytes));
    }
    Ok((head, &bytes[9..]))
}

/// The head of a geometry.
#[tactic(auto, unfolding(crate::specs::Wkb::head_at))]
fn head_of<'a>(reading: &Reading, bytes: &'a [u8]) -> Result<(Head, &'a [u8]), ShapeError>
    ensures head { Gives (λ x. (x.0, x.1.now)) result (head_at (seen reading.now, bytes.now)) }
    ensures low { IfOk result (λ x. 16 ≤ x.0.stride) }
    ensures high { IfOk result (λ x. x.0.stride ≤ 32) }
{
    if bytes.is_empty() {
        return Err(fault(reading, FaultName::Truncated, bytes));
    }
    let endian = match bytes[0] {
        0 => Endian::Big,
        1 => Endian::Little,
        _ => return Err(fault(reading, FaultName::Order, bytes)),
    };
    if bytes.len() < 5 {
        return Err(fault(reading, FaultName::Truncated, bytes));
    }
    match layout_of_type(number_of_4(endian, &bytes[1..])) {
        Ok(layout) => head_after_type(reading, endian, layout, bytes),
        Err(name) => Err(fault(reading, name, bytes)),
    }
}

/// A count of elements, which have at least this many bytes each.
#[tactic(auto, unfolding(crate::specs::Wkb::count_at))]
fn count_of<'a>(
    reading: &Reading,
    endian: Endian,
    least: usize,
    bytes: &'a [u8],
) -> Result<(u32, &'a [u8]), ShapeError>
    requires { least ≤ 32 }
    ensures { Gives (λ x. (x.0, x.1.now)) result (count_at endian least (seen reading.now, bytes.now)) }
{
    if bytes.len() < 4 {
        return Err(fault(reading, FaultName::Truncated, bytes));
    }
    let count = number_of_4(endian, bytes);
    let rest = &bytes[4..];
    if rest.len() < count as usize * least {
        return Err(fault(reading, FaultName::Count, bytes));
    }
    Ok((count, rest))
}

/// The position in the first bytes.
fn position_of(endian: Endian, bytes: &[u8]) -> Position
    requires { 16 ≤ length bytes.now }
    ensures { result ≡ position_in endian bytes.now }
{
    Position {
        longitude: number_of_8(endian, bytes),
        latitude: number_of_8(endian, &bytes[8..]),
    }
}

/// Reads a position.
#[tactic(auto, unfolding(crate::specs::Wkb::position_at))]
fn read_position<'a>(
    reading: &mut Reading,
    endian: Endian,
    stride: usize,
    bytes: &'a [u8],
) -> Result<&'a [u8], ShapeError>
    requires { 16 ≤ stride }
    ensures { Gives (λ rest. (seen reading.new, rest.now)) result
        (position_at endian stride (seen reading.old, bytes.now)) }
{
    if bytes.len() < stride {
        return Err(fault(reading, FaultName::Truncated, bytes));
    }
    put_position(reading, position_of(endian, bytes), bytes)?;
    Ok(&bytes[stride..])
}

/// Reads a point.
#[tactic(auto, unfolding(crate::specs::Wkb::point_at))]
fn read_point<'a>(
    reading: &mut Reading,
    endian: Endian,
    stride: usize,
    bytes: &'a [u8],
) -> Result<&'a [u8], ShapeError>
    requires { 16 ≤ stride }
    ensures { Gives (λ rest. (seen reading.new, rest.now)) result
        (point_at endian stride (seen reading.old, bytes.now)) }
{
    if bytes.len() < stride {
        return Err(fault(reading, FaultName::Truncated, bytes));
    }
    let position = position_of(endian, bytes);
    if is_none(position) {
        return Ok(&bytes[stride..]);
    }
    put_position(reading, position, bytes)?;
    end_ring(reading)?;
    Ok(&bytes[stride..])
}

/// Reads this many positions.
fn read_positions<'a>(
    reading: &mut Reading,
    endian: Endian,
    stride: usize,
    count: u32,
    bytes: &'a [u8],
) -> Result<&'a [u8], ShapeError>
    requires { 16 ≤ stride }
    ensures { Gives (λ rest. (seen reading.new, rest.now)) result
        (times count (position_at endian stride) (seen reading.old, bytes.now)) }
{
    let mut rest = bytes;
    for _ in 0..count {
        rest = read_position(reading, endian, stride, rest)?;
    }
    Ok(rest)
}

/// Reads a line.
#[tactic(auto, unfolding(crate::specs::Wkb::line_at))]
fn read_line<'a>(
    reading: &mut Reading,
    endian: Endian,
    stride: usize,
    bytes: &'a [u8],
) -> Result<&'a [u8], ShapeError>
    requires low { 16 ≤ stride }
    requires high { stride ≤ 32 }
    ensures { Gives (λ rest. (seen reading.new, rest.now)) result
        (line_at endian stride (seen reading.old, bytes.now)) }
{
    let (count, rest) = count_of(reading, endian, stride, bytes)?;
    let rest = read_positions(reading, endian, stride, count, rest)?;
    end_ring(reading)?;
    Ok(rest)
}

/// Reads a ring of a polygon.
#[tactic(auto, unfolding(crate::specs::Wkb::ring_at))]
fn read_ring<'a>(
    reading: &mut Reading,
    endian: Endian,
    stride: usize,
    bytes: &'a [u8],
) -> Result<&'a [u8], ShapeError>
    requires low { 16 ≤ stride }
    requires high { stride ≤ 32 }
    ensures { Gives (λ rest. (seen reading.new, rest.now)) result
        (ring_at endian stride (seen reading.old, bytes.now)) }
{
    let (count, rest) = count_of(reading, endian, stride, bytes)?;
    let rest = read_positions(reading, endian, stride, count, rest)?;
    end_closed_ring(reading, rest)?;
    Ok(rest)
}

/// Reads a polygon.
#[tactic(auto, unfolding(crate::specs::Wkb::polygon_at))]
fn read_polygon<'a>(
    reading: &mut Reading,
    endian: Endian,
    stride: usize,
    bytes: &'a [u8],
) -> Result<&'a [u8], ShapeError>
    requires low { 16 ≤ stride }
    requires high { stride ≤ 32 }
    ensures { Gives (λ rest. (seen reading.new, rest.now)) result
        (polygon_at endian stride (seen reading.old, bytes.now)) }
{
    let (count, rest) = count_of(reading, endian, 4, bytes)?;
    read_rings(reading, endian, stride, count, rest)
}

/// Reads this many rings.
fn read_rings<'a>(
    reading: &mut Reading,
    endian: Endian,
    stride: usize,
    count: u32,
    bytes: &'a [u8],
) -> Result<&'a [u8], ShapeError>
    requires low { 16 ≤ stride }
    requires high { stride ≤ 32 }
    ensures { Gives (λ rest. (seen reading.new, rest.now)) result
        (times count (ring_at endian stride) (seen reading.old, bytes.now)) }
{
    let mut rest = bytes;
    for _ in 0..count {
        rest = read_ring(reading, endian, stride, rest)?;
    }
    Ok(rest)
}

/// Reads a point, a line or a polygon after its head, and ends it.
#[tactic(auto, unfolding(crate::specs::Wkb::one_at))]
fn read_one<'a>(
    reading: &mut Reading,
    kind: Kind,
    endian: Endian,
    stride: usize,
    bytes: &'a [u8],
) -> Result<&'a [u8], ShapeError>
    requires low { 16 ≤ stride }
    requires high { stride ≤ 32 }
    ensures { Gives (λ rest. (seen reading.new, rest.now)) result
        (one_at kind endian stride (seen reading.old, bytes.now)) }
{
    let rest = read_inside(reading, kind, endian, stride, bytes)?;
    end_part(reading, kind)?;
    Ok(rest)
}

/// Reads a point, a line or a polygon after its head.
fn read_inside<'a>(
    reading: &mut Reading,
    kind: Kind,
    endian: Endian,
    stride: usize,
    bytes: &'a [u8],
) -> Result<&'a [u8], ShapeError>
    requires low { 16 ≤ stride }
    requires high { stride ≤ 32 }
    ensures { Gives (λ rest. (seen reading.new, rest.now)) result
        (inside_at kind endian stride (seen reading.old, bytes.now)) }
{
    match kind {
        Kind::Point => read_point(reading, endian, stride, bytes),
        Kind::Line => read_line(reading, endian, stride, bytes),
        Kind::Polygon => read_polygon(reading, endian, stride, bytes),
    }
}

/// Whether a geometry may be in a list.
fn may_be_in(list: Option<Kind>, form: Form) -> bool
    ensures { result ≡ is_member list form }
{
    match (list, form) {
        (None, _) => true,
        (Some(Kind::Point), Form::One(Kind::Point)) => true,
        (Some(Kind::Line), Form::One(Kind::Line)) => true,
        (Some(Kind::Polygon), Form::One(Kind::Polygon)) => true,
        _ => false,
    }
}

/// Reads a geometry in a list, which may have `lists` less one lists in each other.
#[cycle(geometry)]
#[tactic(auto, unfolding(crate::specs::Wkb::geometry_at))]
fn read_geometry<'a>(
    reading: &mut Reading,
    lists: u32,
    list: Option<Kind>,
    bytes: &'a [u8],
) -> Result<&'a [u8], ShapeError>
    ensures { Gives (λ rest. (seen reading.new, rest.now)) result
        (geometry_at lists list (seen reading.old, bytes.now)) }
{
    let (head, rest) = head_of(reading, bytes)?;
    if !may_be_in(list, head.form) {
        return Err(fault(reading, FaultName::Member, bytes));
    }
    if lists == 0 {
        return Err(fault(reading, FaultName::Deep, bytes));
    }
    match head.form {
        Form::One(kind) => read_one(reading, kind, head.endian, head.stride, rest),
        Form::Many(members) => {
            let (count, rest) = count_of(reading, head.endian, 9, rest)?;
            read_members(reading, lists - 1, members, count, rest)
        }
    }
}

/// Reads this many geometries in a list.
#[cycle(geometry)]
fn read_members<'a>(
    reading: &mut Reading,
    lists: u32,
    list: Option<Kind>,
    count: u32,
    bytes: &'a [u8],
) -> Result<&'a [u8], ShapeError>
    ensures { Gives (λ rest. (seen reading.new, rest.now)) result
        (times count (geometry_at lists list) (seen reading.old, bytes.now)) }
{
    let mut rest = bytes;
    for _ in 0..count {
        rest = read_geometry(reading, lists, list, rest)?;
    }
    Ok(rest)
}

/// The shape that WKB or EWKB stands for, of points, lines, polygons, lists and collections, each in either order of
/// bytes. Longitudes come first; Z and M are passed over, as is an SRID that says degrees, 0 or 4326.
///
/// The first fault is the answer if there is one, from the first byte on, with how many bytes come before it:
/// `Truncated` and `Member` at the geometry, the count or the position that is cut off or in the wrong list, `Few` and
/// `Open` after the ring. A geometry may lie in `DEEPEST` others. A count is compared with the bytes that follow before
/// anything is taken for it. One pass over the bytes, and memory for the positions, rings and parts that are there.
#[tactic(auto, unfolding(crate::specs::Wkb::wkb))]
pub fn read_wkb(alloc: Global, bytes: &[u8]) -> Result<Shape, ShapeError>
    ensures { Gives shape_seen result (wkb bytes.now) }
{
    let mut reading = Reading {
        size: bytes.len(),
        positions: Vec::new(alloc),
        rings: Vec::new(alloc),
        parts: Vec::new(alloc),
        begun: 0,
    };
    let rest = read_geometry(&mut reading, DEEPEST + 1, None, bytes)?;
    if !rest.is_empty() {
        return Err(fault(&reading, FaultName::Trailing, rest));
    }
    Ok(Shape {
        positions: reading.positions,
        rings: reading.rings,
        parts: reading.parts,
    })
}

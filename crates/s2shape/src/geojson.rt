//! GeoJSON to shapes.
ghost use Rattle.std.specs.Prelude.{◌≡◌, MatchResult, Ok, codes, option_and_then, option_map};
ghost use Rattle.json.specs.Find.{as_array, as_number, as_str, at, get};
ghost use Rattle.json.specs.Value.{items_view, value_view};
ghost use Rattle.s2shape.specs.GeoJson.{both, degrees, each, each_in, fault_after, given, inside, items_in, line};
ghost use Rattle.s2shape.specs.GeoJson.{listed};
ghost use Rattle.s2shape.specs.GeoJson.{named, number_at, object, one, point, polygon, position, ring, shape_in};
ghost use Rattle.s2shape.specs.GeoJson.{single};
ghost use Rattle.s2shape.specs.GeoJson.{FailsAsGeoJson, IsGeoJson, whole_fault};
ghost use Rattle.s2shape.specs.Reading.{Gives, shape_seen};
ghost use Rattle.s2shape.specs.Working.Seen.{seen};

use crate::fault::{Fault, FaultName, ShapeError};
use crate::reading::Reading;
use crate::shape::{Kind, Position, Shape};
use crate::steps::{end_closed_ring, end_part, end_ring, fault, put_ranged};
use crate::wkb::DEEPEST;
use json::{Scratch, Value};
use std::alloc::Global;

/// The types of GeoJSON that have a covering.
#[derive(Clone, Copy, Drop)]
pub enum Named {
    /// A point, a line or a polygon.
    One(Kind),
    /// A list of such.
    Many(Kind),
    /// A collection of geometries.
    Geometries,
    /// A collection of features.
    Features,
    /// A feature.
    Feature,
}

/// The bits of the double that is nearest to a text.
fn degrees_of(text: &str) -> Option<u64>
    ensures { result ≡ degrees text.now }
{
    let x: f64 = fast_float::parse(text).ok()?;
    if x.is_nan() { None } else { Some(x.to_bits()) }
}

/// The number with this index in a list.
fn number_in(value: &Value<'_>, k: usize) -> Option<u64>
    ensures { result ≡ number_at k (value_view value.now) }
{
    degrees_of(value.at(k)?.as_number()?)
}

/// The position that a list begins with.
fn position_in(value: &Value<'_>) -> Option<Position>
    ensures { result ≡ both (number_at 0 (value_view value.now)) (number_at 1 (value_view value.now)) }
{
    let longitude = number_in(value, 0)?;
    let latitude = number_in(value, 1)?;
    Some(Position {
        longitude,
        latitude,
    })
}

/// The items of a list.
fn items_of<'v, 'a>(value: &'v Value<'a>) -> Option<&'v [Value<'a>]>
    ensures { option_map (λ items. items_view items.now) result ≡ as_array (value_view value.now) }
{
    match value {
        Value::Array(items) => Some(items.as_slice()),
        _ => None,
    }
}

/// A fault after what was read.
fn fault_here(reading: &Reading, name: FaultName) -> ShapeError
    ensures { result ≡ ShapeError.Fault (fault_after name (seen reading.now)) }
{
    fault(reading, name, &[])
}

/// Reads a position.
#[tactic(auto, unfolding(crate::specs::GeoJson::position))]
fn read_position(reading: &mut Reading, value: &Value<'_>) -> Result<(), ShapeError>
    ensures { Gives (λ _. seen reading.new) result (position (value_view value.now) (seen reading.old)) }
{
    match position_in(value) {
        Some(position) => put_ranged(reading, position, &[]),
        None => Err(fault_here(reading, FaultName::Position)),
    }
}

/// Reads positions.
fn read_positions(reading: &mut Reading, items: &[Value<'_>]) -> Result<(), ShapeError>
    ensures { Gives (λ _. seen reading.new) result (each position (items_view items.now) (seen reading.old)) }
{
    for item in items {
        read_position(reading, item)?;
    }
    Ok(())
}

/// Reads a list of positions.
fn read_positions_in(reading: &mut Reading, value: &Value<'_>) -> Result<(), ShapeError>
    ensures { Gives (λ _. seen reading.new) result (each_in position (value_view value.now) (seen reading.old)) }
{
    match items_of(value) {
        Some(items) => read_positions(reading, items),
        None => Err(fault_here(reading, FaultName::Missing)),
    }
}

/// Reads a position as a line of its own.
#[tactic(auto, unfolding(crate::specs::GeoJson::single))]
fn read_single(reading: &mut Reading, value: &Value<'_>) -> Result<(), ShapeError>
    ensures { Gives (λ _. seen reading.new) result (single (value_view value.now) (seen reading.old)) }
{
    read_position(reading, value)?;
    end_ring(reading)?;
    Ok(())
}

/// Reads the coordinates of a point.
#[tactic(auto, unfolding(crate::specs::GeoJson::point))]
fn read_point(reading: &mut Reading, value: &Value<'_>) -> Result<(), ShapeError>
    ensures { Gives (λ _. seen reading.new) result (point (value_view value.now) (seen reading.old)) }
{
    match items_of(value) {
        None => Err(fault_here(reading, FaultName::Missing)),
        Some([]) => Ok(()),
        Some(_) => read_single(reading, value),
    }
}

/// Reads the coordinates of a line.
#[tactic(auto, unfolding(crate::specs::GeoJson::line))]
fn read_line(reading: &mut Reading, value: &Value<'_>) -> Result<(), ShapeError>
    ensures { Gives (λ _. seen reading.new) result (line (value_view value.now) (seen reading.old)) }
{
    read_positions_in(reading, value)?;
    end_ring(reading)?;
    Ok(())
}

/// Reads a ring of a polygon.
#[tactic(auto, unfolding(crate::specs::GeoJson::ring))]
fn read_ring(reading: &mut Reading, value: &Value<'_>) -> Result<(), ShapeError>
    ensures { Gives (λ _. seen reading.new) result (ring (value_view value.now) (seen reading.old)) }
{
    read_positions_in(reading, value)?;
    end_closed_ring(reading, &[])
}

/// Reads rings of a polygon.
fn read_rings(reading: &mut Reading, items: &[Value<'_>]) -> Result<(), ShapeError>
    ensures { Gives (λ _. seen reading.new) result (each ring (items_view items.now) (seen reading.old)) }
{
    for item in items {
        read_ring(reading, item)?;
    }
    Ok(())
}

/// Reads the coordinates of a polygon.
#[tactic(auto, unfolding(crate::specs::GeoJson::polygon))]
fn read_polygon(reading: &mut Reading, value: &Value<'_>) -> Result<(), ShapeError>
    ensures { Gives (λ _. seen reading.new) result (polygon (value_view value.now) (seen reading.old)) }
{
    match items_of(value) {
        Some(items) => read_rings(reading, items),
        None => Err(fault_here(reading, FaultName::Missing)),
    }
}

/// Reads the coordinates of a point, a line or a polygon.
fn read_inside(reading: &mut Reading, kind: Kind, value: &Value<'_>) -> Result<(), ShapeError>
    ensures { Gives (λ _. seen reading.new) result (inside kind (value_view value.now) (seen reading.old)) }
{
    match kind {
        Kind::Point => read_point(reading, value),
        Kind::Line => read_line(reading, value),
        Kind::Polygon => read_polygon(reading, value),
    }
}

/// Reads the coordinates of a point, a line or a polygon, and ends it.
#[tactic(auto, unfolding(crate::specs::GeoJson::one))]
fn read_one(reading: &mut Reading, kind: Kind, value: &Value<'_>) -> Result<(), ShapeError>
    ensures { Gives (λ _. seen reading.new) result (one kind (value_view value.now) (seen reading.old)) }
{
    read_inside(reading, kind, value)?;
    end_part(reading, kind)?;
    Ok(())
}

/// Reads the coordinates of points, lines or polygons.
fn read_many(reading: &mut Reading, kind: Kind, items: &[Value<'_>]) -> Result<(), ShapeError>
    ensures { Gives (λ _. seen reading.new) result (each (one kind) (items_view items.now) (seen reading.old)) }
{
    for item in items {
        read_one(reading, kind, item)?;
    }
    Ok(())
}

/// The type that a text names.
#[tactic(auto, unfolding(crate::specs::GeoJson::named))]
fn named_type(name: &str) -> Option<Named>
    ensures { result ≡ named name.now }
{
    if name == "Point" {
        Some(Named::One(Kind::Point))
    } else if name == "LineString" {
        Some(Named::One(Kind::Line))
    } else if name == "Polygon" {
        Some(Named::One(Kind::Polygon))
    } else if name == "MultiPoint" {
        Some(Named::Many(Kind::Point))
    } else if name == "MultiLineString" {
        Some(Named::Many(Kind::Line))
    } else if name == "MultiPolygon" {
        Some(Named::Many(Kind::Polygon))
    } else if name == "GeometryCollection" {
        Some(Named::Geometries)
    } else if name == "FeatureCollection" {
        Some(Named::Features)
    } else if name == "Feature" {
        Some(Named::Feature)
    } else {
        None
    }
}

/// The type of an object, a text.
fn type_of<'a>(value: &Value<'a>) -> Option<&'a str>
    ensures { option_map (λ s. s.now) result ≡ option_and_then as_str (get (codes "type") (value_view value.now)) }
{
    value.get("type")?.as_str()
}

/// Reads the coordinates of an object, those of a point, a line or a polygon.
fn read_coordinates(reading: &mut Reading, kind: Kind, value: &Value<'_>) -> Result<(), ShapeError>
    ensures { Gives (λ _. seen reading.new) result
        (given (one kind) (get (codes "coordinates") (value_view value.now)) (seen reading.old)) }
{
    match value.get("coordinates") {
        Some(coordinates) => read_one(reading, kind, coordinates),
        None => Err(fault_here(reading, FaultName::Missing)),
    }
}

/// Reads the coordinates of an object, those of points, lines or polygons.
fn read_all_coordinates(
    reading: &mut Reading,
    kind: Kind,
    value: &Value<'_>,
) -> Result<(), ShapeError>
    ensures { Gives (λ _. seen reading.new) result
        (listed (each (one kind)) (items_in (codes "coordinates") (value_view value.now)) (seen reading.old)) }
{
    match list_in(value, "coordinates") {
        Some(items) => read_many(reading, kind, items),
        None => Err(fault_here(reading, FaultName::Missing)),
    }
}

/// The items of a member that is a list.
fn list_in<'v, 'a>(value: &'v Value<'a>, name: &str) -> Option<&'v [Value<'a>]>
    ensures { option_map (λ items. items_view items.now) result ≡ items_in name.now (value_view value.now) }
{
    items_of(value.get(name)?)
}

/// Reads an object, which may have this many less one objects in each other.
#[cycle(object)]
#[tactic(auto, unfolding(crate::specs::GeoJson::object))]
fn read_object(reading: &mut Reading, depth: u32, value: &Value<'_>) -> Result<(), ShapeError>
    ensures { Gives (λ _. seen reading.new) result (object depth (value_view value.now) (seen reading.old)) }
{
    let Some(name) = type_of(value) else {
        return Err(fault_here(reading, FaultName::NoType));
    };
    let Some(named) = named_type(name) else {
        return Err(fault_here(reading, FaultName::Uncovered));
    };
    if depth == 0 {
        return Err(fault_here(reading, FaultName::Deep));
    }
    match named {
        Named::One(kind) => read_coordinates(reading, kind, value),
        Named::Many(kind) => read_all_coordinates(reading, kind, value),
        Named::Geometries => read_list(reading, depth - 1, "geometries", value),
        Named::Features => read_list(reading, depth - 1, "features", value),
        Named::Feature => match value.get("geometry") {
            Some(geometry) if !geometry.is_null() => read_object(reading, depth - 1, geometry),
            _ => Ok(()),
        },
    }
}

/// Reads the objects of a member that is a list.
#[cycle(object)]
fn read_list(
    reading: &mut Reading,
    depth: u32,
    name: &str,
    value: &Value<'_>,
) -> Result<(), ShapeError>
    ensures { Gives (λ _. seen reading.new) result
        (listed (each (object depth)) (items_in name.now (value_view value.now)) (seen reading.old)) }
{
    match list_in(value, name) {
        Some(items) => read_objects(reading, depth, items),
        None => Err(fault_here(reading, FaultName::Missing)),
    }
}

/// Reads objects.
#[cycle(object)]
fn read_objects(reading: &mut Reading, depth: u32, items: &[Value<'_>]) -> Result<(), ShapeError>
    ensures { Gives (λ _. seen reading.new) result
        (each (object depth) (items_view items.now) (seen reading.old)) }
{
    for item in items {
        read_object(reading, depth, item)?;
    }
    Ok(())
}

/// The shape that a value stands for.
#[tactic(auto, unfolding(crate::specs::GeoJson::shape_in))]
fn read_value(alloc: Global, value: &Value<'_>) -> Result<Shape, ShapeError>
    ensures { Gives shape_seen result (shape_in (value_view value.now)) }
{
    let mut reading = Reading {
        size: 0,
        positions: Vec::new(alloc),
        rings: Vec::new(alloc),
        parts: Vec::new(alloc),
        begun: 0,
    };
    read_object(&mut reading, DEEPEST + 1, value)?;
    Ok(Shape {
        positions: reading.positions,
        rings: reading.rings,
        parts: reading.parts,
    })
}

/// A fault of a text as a whole.
fn whole(name: FaultName) -> ShapeError
    ensures { result ≡ ShapeError.Fault (whole_fault name) }
{
    ShapeError::Fault(Fault {
        name,
        byte: 0,
        part: 0,
        ring: 0,
        position: 0,
    })
}

/// The shape that GeoJSON stands for: a geometry, a feature, or a collection of them. Longitudes come first. Each
/// coordinate is the double that is nearest to what is written, and what follows the first two numbers of a position is
/// passed over, as are members with other names, `bbox` among them.
///
/// The first fault is the answer if there is one. A fault of GeoJSON has a part, a ring and a position, and its byte is
/// 0. In the order of the checks: `Utf8`, `Json` and `Twice` are of the whole text, which has lists and objects in at
/// most 128 others; then, from the first value on, `NoType`, `Uncovered`, `Deep` for an object in more than `DEEPEST`
/// others, `Missing`, `Position`, `Range`, `Few` and `Open`. Takes memory for the values of the text. One pass over
/// them, and a sort of the names of each object.
pub fn read_geojson(alloc: Global, bytes: &[u8]) -> Result<Shape, ShapeError>
    ensures { MatchResult result (λ shape. IsGeoJson bytes.now (Ok (shape_seen shape)))
        (λ error. FailsAsGeoJson bytes.now error) }
{
    let Ok(text) = simdutf8::compat::from_utf8(bytes) else {
        return Err(whole(FaultName::Utf8));
    };
    let mut scratch = Scratch::new(alloc);
    match Value::parse_strict(alloc, text, &mut scratch) {
        Ok(value) => read_value(alloc, &value),
        Err(json::Error::Invalid) => Err(whole(FaultName::Json)),
        Err(json::Error::DuplicateKey) => Err(whole(FaultName::Twice)),
        Err(json::Error::OutOfMemory | json::Error::TooLong) => Err(ShapeError::Memory),
    }
}

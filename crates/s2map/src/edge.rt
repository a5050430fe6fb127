//! Which edges pass north of a place.
ghost use Rattle.std.specs.Prelude.{◌≡◌, ◌≤◌, ◌*◌, ◌+ℤ◌, ◌*ℤ◌, ◌-ℤ◌, ◌^◌, ◌↔◌, IsTrue, pos, unsigned_abs};
ghost use Rattle.s2degrees.specs.Degrees.{quarter, turn};
ghost use Rattle.s2map.specs.Map.{IsMapEdge, IsMapPlace, passes_north as passes_north_of};
ghost use Rattle.s2map.specs.Map.{passes_on_turns as passes_on_turns_of};
ghost use Rattle.s2map.specs.Map.{place_turned as place_turned_of, side, turned as turned_of};
ghost use Rattle.s2map.specs.Working.Sizes.{IsNear, IsNearEdge};

use crate::place::{MapEdge, Place};

/// 90 degrees.
const QUARTER: i64 = 90_000_000_000_000_000;

/// 360 degrees.
const TURN: i64 = 4 * QUARTER;

/// Whether a place has a longitude and a latitude of the map.
pub(crate) fn is_place(p: Place) -> bool
    ensures { IsTrue result ↔ IsMapPlace p }
{
    -6 * QUARTER <= p.longitude
        && p.longitude <= 6 * QUARTER
        && -QUARTER <= p.latitude
        && p.latitude <= QUARTER
}

/// A difference of longitudes or of latitudes.
fn minus(a: i64, b: i64) -> i64
    requires a { unsigned_abs a ≤ 2 ^ 61 }
    requires b { unsigned_abs b ≤ 2 ^ 61 }
    ensures { result ≡ a -ℤ b }
{
    a - b
}

/// A product, which always fits.
fn times(a: i64, b: i64) -> i128
    ensures { result ≡ a *ℤ b }
{
    a as i128 * b as i128
}

/// On which side of an edge a place lies: above 0 on the left.
pub(crate) fn side_of(e: MapEdge, p: Place) -> i128
    requires edge { IsNearEdge e }
    requires place { IsNear p }
    ensures { result ≡ side e p }
{
    let wide = minus(e.b.longitude, e.a.longitude);
    let north = minus(p.latitude, e.a.latitude);
    let east = minus(p.longitude, e.a.longitude);
    let high = minus(e.b.latitude, e.a.latitude);
    times(wide, north) - times(east, high)
}

/// Whether an edge passes north of a place.
pub(crate) fn passes_north(e: MapEdge, p: Place) -> bool
    requires edge { IsNearEdge e }
    requires place { IsNear p }
    ensures { result ≡ passes_north_of p e }
{
    if e.a.longitude <= p.longitude {
        if e.b.longitude <= p.longitude {
            false
        } else {
            side_of(e, p) < 0
        }
    } else if e.b.longitude <= p.longitude {
        side_of(e, p) > 0
    } else {
        false
    }
}

/// A longitude a number of turns farther east.
fn longitude_turned(k: i64, longitude: i64) -> i64
    requires k { unsigned_abs k ≤ 3 }
    requires longitude { unsigned_abs longitude ≤ 6 * quarter }
    ensures { result ≡ longitude +ℤ k *ℤ pos turn }
{
    longitude + k * TURN
}

/// A place a number of turns farther east.
fn place_turned(k: i64, p: Place) -> Place
    requires k { unsigned_abs k ≤ 3 }
    requires place { IsMapPlace p }
    ensures value { result ≡ place_turned_of k p }
    ensures near { IsNear result }
{
    Place {
        longitude: longitude_turned(k, p.longitude),
        latitude: p.latitude,
    }
}

/// An edge a number of turns farther east.
pub(crate) fn turned(k: i64, e: MapEdge) -> MapEdge
    requires k { unsigned_abs k ≤ 3 }
    requires edge { IsMapEdge e }
    ensures value { result ≡ turned_of k e }
    ensures near { IsNearEdge result }
{
    MapEdge {
        a: place_turned(k, e.a),
        b: place_turned(k, e.b),
    }
}

/// Whether an edge, a number of turns farther east, passes north of a place.
fn passes_on_turn(k: i64, e: MapEdge, p: Place) -> bool
    requires k { unsigned_abs k ≤ 3 }
    requires edge { IsMapEdge e }
    requires place { IsMapPlace p }
    ensures { result ≡ passes_north_of p (turned_of k e) }
{
    passes_north(turned(k, e), p)
}

/// Whether an edge passes north of a place on an odd number of turns.
pub(crate) fn passes_on_turns(e: MapEdge, p: Place) -> bool
    requires edge { IsMapEdge e }
    requires place { IsMapPlace p }
    ensures { result ≡ passes_on_turns_of p e }
{
    let west = passes_on_turn(-3, e, p) ^ passes_on_turn(-2, e, p) ^ passes_on_turn(-1, e, p);
    let east = passes_on_turn(1, e, p) ^ passes_on_turn(2, e, p) ^ passes_on_turn(3, e, p);
    west ^ passes_on_turn(0, e, p) ^ east
}

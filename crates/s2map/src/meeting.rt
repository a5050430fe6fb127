//! Whether an edge meets a box.
ghost use Rattle.std.specs.Prelude.{◌≡◌, ◌↔◌, IsTrue};
ghost use Rattle.s2map.specs.Boxes.{IsBox, are_beside as are_beside_of, east_corner as east_corner_of};
ghost use Rattle.s2map.specs.Boxes.{lies_aside as lies_aside_of, lies_east as lies_east_of};
ghost use Rattle.s2map.specs.Boxes.{lies_north as lies_north_of, lies_south as lies_south_of};
ghost use Rattle.s2map.specs.Boxes.{lies_west as lies_west_of, meets as meets_of};
ghost use Rattle.s2map.specs.Boxes.{meets_on_turns as meets_on_turns_of, rises as rises_of};
ghost use Rattle.s2map.specs.Boxes.{south_west, west_corner as west_corner_of};
ghost use Rattle.s2map.specs.Map.{IsMapEdge};
ghost use Rattle.s2map.specs.Working.Sizes.{IsNear, IsNearEdge};

use crate::edge::{is_place, side_of, turned};
use crate::place::{MapBox, MapEdge, Place};

/// The corner of a box at its west and south.
pub(crate) fn corner_of(q: MapBox) -> Place
    ensures value { result ≡ south_west q }
    ensures near { IsBox q → IsNear result }
{
    Place {
        longitude: q.west,
        latitude: q.south,
    }
}

/// Whether a box has a place, and its corners are places of the map.
pub(crate) fn is_box(q: MapBox) -> bool
    ensures { IsTrue result ↔ IsBox q }
{
    let first = corner_of(q);
    let last = Place {
        longitude: q.east,
        latitude: q.north,
    };
    if !is_place(first) {
        return false;
    }
    if !is_place(last) {
        return false;
    }
    if q.east < q.west {
        return false;
    }
    if q.north < q.south {
        return false;
    }
    true
}

/// Whether who goes along the edge goes north and east, or south and west.
fn rises(e: MapEdge) -> bool
    ensures { result ≡ rises_of e }
{
    (e.b.longitude < e.a.longitude) == (e.b.latitude < e.a.latitude)
}

/// Whether two numbers are both above 0, or both below it.
fn are_beside(x: i128, y: i128) -> bool
    ensures { result ≡ are_beside_of x y }
{
    (0 < x && 0 < y) || (x < 0 && y < 0)
}

/// The western corner of a box that lies farthest to one side of an edge.
fn west_corner(q: MapBox, e: MapEdge) -> Place
    requires { IsBox q }
    ensures value { result ≡ west_corner_of q e }
    ensures near { IsNear result }
{
    Place {
        longitude: q.west,
        latitude: if rises(e) { q.north } else { q.south },
    }
}

/// The eastern corner of a box that lies farthest to the other side.
fn east_corner(q: MapBox, e: MapEdge) -> Place
    requires { IsBox q }
    ensures value { result ≡ east_corner_of q e }
    ensures near { IsNear result }
{
    Place {
        longitude: q.east,
        latitude: if rises(e) { q.south } else { q.north },
    }
}

/// Whether an edge lies west of a box, or along its western side.
fn lies_west(q: MapBox, e: MapEdge) -> bool
    ensures { result ≡ lies_west_of q e }
{
    e.a.longitude <= q.west && e.b.longitude <= q.west
}

/// Whether an edge lies east of a box.
fn lies_east(q: MapBox, e: MapEdge) -> bool
    ensures { result ≡ lies_east_of q e }
{
    q.east < e.a.longitude && q.east < e.b.longitude
}

/// Whether an edge lies south of a box.
fn lies_south(q: MapBox, e: MapEdge) -> bool
    ensures { result ≡ lies_south_of q e }
{
    e.a.latitude < q.south && e.b.latitude < q.south
}

/// Whether an edge lies north of a box.
fn lies_north(q: MapBox, e: MapEdge) -> bool
    ensures { result ≡ lies_north_of q e }
{
    q.north < e.a.latitude && q.north < e.b.latitude
}

/// Whether a box lies on one side of an edge: by its two corners that lie farthest to the sides.
fn lies_aside(q: MapBox, e: MapEdge) -> bool
    requires bounds { IsBox q }
    requires edge { IsNearEdge e }
    ensures { result ≡ lies_aside_of q e }
{
    are_beside(side_of(e, west_corner(q, e)), side_of(e, east_corner(q, e)))
}

/// Whether an edge meets a box. Most edges don't, by comparisons alone.
pub(crate) fn meets(q: MapBox, e: MapEdge) -> bool
    requires bounds { IsBox q }
    requires edge { IsNearEdge e }
    ensures { result ≡ meets_of q e }
{
    !lies_west(q, e)
        && !lies_east(q, e)
        && !lies_south(q, e)
        && !lies_north(q, e)
        && !lies_aside(q, e)
}

/// Whether an edge meets a box on a turn.
pub(crate) fn meets_on_turns(q: MapBox, e: MapEdge) -> bool
    requires bounds { IsBox q }
    requires edge { IsMapEdge e }
    ensures { result ≡ meets_on_turns_of q e }
{
    meets(q, turned(-3, e))
        || meets(q, turned(-2, e))
        || meets(q, turned(-1, e))
        || meets(q, turned(0, e))
        || meets(q, turned(1, e))
        || meets(q, turned(2, e))
        || meets(q, turned(3, e))
}

//! The rings of a polygon, as edges.
ghost use Rattle.std.specs.Prelude.{◌≡◌, ◌↔◌, ◌-◌, ◌<◌, ◌≤◌, ◌++◌, ◌≤ℤ◌, pos, length, IfErr, IfOk, IsTrue, OnOk};
ghost use Rattle.s2polygon.specs.Rings.{AreOpposite, AreRings, HasNoOpposite, edges_from, rings_edges};
ghost use Rattle.s2polygon.specs.Working.Rings.{IsNone, RingFaultMeans, RingsFaultMeans, dot_of};
ghost use Rattle.s2polygon.specs.Working.Sizes.{IsShort};

use crate::directions::{Direction, Edge};
use crate::fault::PolygonFault;
use crate::frames::{Framed, edge_on};
use crate::meeting::times;
use std::alloc::Global;

/// The product of two directions: above 0 if they are less than a quarter of a turn apart.
#[tactic(none)]
fn dot(a: Framed, b: Framed) -> i128
    requires a { IsShort a }
    requires b { IsShort b }
    ensures { result ≡ dot_of a b }
{
    times(a.w, b.w) + times(a.u, b.u) + times(a.v, b.v)
}

/// Whether a direction is none: all its coordinates are 0.
fn is_none(n: Framed) -> bool
    ensures { IsTrue result ↔ IsNone n }
{
    n.w == 0 && n.u == 0 && n.v == 0
}

/// Whether two directions are a quarter of a turn apart, or more.
fn are_away(a: Framed, b: Framed) -> bool
    requires a { IsShort a }
    requires b { IsShort b }
    ensures { IsTrue result ↔ (dot_of a b ≤ℤ pos 0) }
{
    dot(a, b) <= 0
}

/// Whether the two ends of an edge lie opposite each other.
fn are_opposite(e: &Edge) -> bool
    ensures { IsTrue result ↔ AreOpposite e.now }
{
    let edge = edge_on(0, *e);
    if !is_none(edge.n) {
        return false;
    }
    are_away(edge.a, edge.b)
}

/// Adds the edges of the ring of the corners from `from` up to `end`.
fn add_ring(
    corners: &[Direction],
    from: usize,
    end: usize,
    edges: &mut Vec<Edge>,
) -> Result<(), PolygonFault>
    requires from { from < end }
    requires end { end ≤ length corners.now }
    ensures edges { OnOk result (edges.new.items ≡ edges.old.items ++ edges_from corners.now from end (end - from)) }
    ensures proper { OnOk result (HasNoOpposite corners.now from end) }
    ensures fault { IfErr result (RingFaultMeans corners.now from end) }
{
    for i in from..end {
        let next = if i + 1 == end { from } else { i + 1 };
        let e = Edge {
            a: corners[i],
            b: corners[next],
        };
        if are_opposite(&e) {
            return Err(PolygonFault::Antipodal(i));
        }
        edges.push(e)?;
    }
    Ok(())
}

/// The edges of all rings.
pub(crate) fn edges_of(
    alloc: Global,
    corners: &[Direction],
    ends: &[usize],
) -> Result<Vec<Edge>, PolygonFault>
    ensures edges { IfOk result (λ edges. edges.items ≡ rings_edges corners.now ends.now (length ends.now)) }
    ensures proper { IfOk result (λ edges. AreRings corners.now ends.now) }
    ensures fault { IfErr result (RingsFaultMeans corners.now ends.now) }
{
    if ends.is_empty() {
        return Err(PolygonFault::NoRing);
    }
    let mut edges = Vec::new(alloc);
    let mut from = 0;
    for ring in 0..ends.len() {
        let end = ends[ring];
        if end < from || corners.len() < end {
            return Err(PolygonFault::WrongEnd(ring));
        }
        if end - from < 3 {
            return Err(PolygonFault::TooFewCorners(ring));
        }
        add_ring(corners, from, end, &mut edges)?;
        from = end;
    }
    if from < corners.len() {
        return Err(PolygonFault::WrongEnd(ends.len() - 1));
    }
    Ok(edges)
}

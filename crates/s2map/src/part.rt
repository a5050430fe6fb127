//! Parts: closed rings of edges.
ghost use Rattle.std.specs.Prelude.{◌≡◌, ◌-◌, ◌<◌, ◌≤◌, ◌++◌, All, IfErr, IfOk, List, OnOk, length, ℕ};
ghost use Rattle.s2map.specs.Boxes.{IsBox, met_by};
ghost use Rattle.s2map.specs.Map.{IsMapEdge, IsMapPlace, inside_part};
ghost use Rattle.s2map.specs.Rings.{AreRings, FaultMeans, edges_from, rings_edges};
ghost use Rattle.s2map.specs.Working.Even.{IsPart};
ghost use Rattle.s2map.specs.Working.Near.{HasNearEdges, near_box, seen};
ghost use Rattle.s2map.specs.declared.fault.MapFault.TheVariants.{Memory};

use crate::edge::{is_place, passes_on_turns};
use crate::fault::MapFault;
use crate::meeting::{corner_of, meets_on_turns};
use crate::near::{Near, edges_near};
use crate::place::{MapBox, MapEdge, Place};
use std::alloc::{AllocError, Global};
use std::marker::Model;

/// A part of a shape: closed rings of edges, straight on the map.
#[derive(Drop)]
pub struct MapPart {
    edges: Vec<MapEdge>,
}

impl Model for MapPart {
    ghost use Rattle.std.specs.Prelude.{List};
    ghost use Rattle.s2map.specs.Working.Even.{IsPart};
    ghost use Rattle.s2map.specs.declared.place.MapEdge.{MapEdge};

    ghost Value = { List MapEdge };

    ghost view = { λ p. p.edges.items };

    ghost invariant = { λ p. IsPart p.edges.items };
}

/// Adds the edges of the ring of the corners from `from` up to `end`.
fn add_ring(
    corners: &[Place],
    from: usize,
    end: usize,
    edges: &mut Vec<MapEdge>,
) -> Result<(), MapFault>
    requires from { from < end }
    requires end { end ≤ length corners.now }
    ensures edges { OnOk result (edges.new.items ≡ edges.old.items ++ edges_from corners.now from end (end - from)) }
    ensures fault { IfErr result (λ fault. fault ≡ Memory) }
{
    for i in from..end {
        let next = if i + 1 == end { from } else { i + 1 };
        let e = MapEdge {
            a: corners[i],
            b: corners[next],
        };
        edges.push(e)?;
    }
    Ok(())
}

/// The edges of all rings.
fn edges_of(alloc: Global, corners: &[Place], ends: &[usize]) -> Result<Vec<MapEdge>, MapFault>
    ensures edges { IfOk result (λ edges. edges.items ≡ rings_edges corners.now ends.now (length ends.now)) }
    ensures proper { IfOk result (λ edges. AreRings corners.now ends.now) }
    ensures fault { IfErr result (FaultMeans corners.now ends.now) }
{
    if ends.is_empty() {
        return Err(MapFault::NoRing);
    }
    let mut edges = Vec::new(alloc);
    let mut from = 0;
    for ring in 0..ends.len() {
        let end = ends[ring];
        if end < from || corners.len() < end {
            return Err(MapFault::WrongEnd(ring));
        }
        if end - from < 3 {
            return Err(MapFault::TooFewCorners(ring));
        }
        add_ring(corners, from, end, &mut edges)?;
        from = end;
    }
    if from < corners.len() {
        return Err(MapFault::WrongEnd(ends.len() - 1));
    }
    Ok(edges)
}

/// Finds a corner that is no place of the map.
fn check_places(corners: &[Place]) -> Result<(), MapFault>
    ensures places { OnOk result (All IsMapPlace corners.now) }
    ensures fault { (ends : List ℕ) → IfErr result (FaultMeans corners.now ends) }
{
    for i in 0..corners.len() {
        if !is_place(corners[i]) {
            return Err(MapFault::Corner(i));
        }
    }
    Ok(())
}

/// Whether edges pass north of a place an odd number of times.
fn are_odd(edges: &[MapEdge], p: Place) -> bool
    requires edges { All IsMapEdge edges.now }
    requires place { IsMapPlace p }
    ensures { result ≡ inside_part p edges.now }
{
    let mut odd = false;
    for e in edges {
        let edge = *e;
        odd = odd ^ passes_on_turns(edge, p);
    }
    odd
}

/// Whether one of the edges meets a box.
fn meet(edges: &[MapEdge], q: MapBox) -> bool
    requires edges { All IsMapEdge edges.now }
    requires bounds { IsBox q }
    ensures { result ≡ met_by q edges.now }
{
    for e in edges {
        let edge = *e;
        if meets_on_turns(q, edge) {
            return true;
        }
    }
    false
}

impl MapPart {
    /// The part of rings of corners. Ring after ring, the corners of each follow one another, and the first follows the
    /// last; `ends` has the number of corners up to the end of each ring.
    ///
    /// Rings may cross, touch and repeat each other. In which direction a ring runs changes nothing, nor does a corner
    /// that is repeated, as the last position of a ring of GeoJSON repeats its first. A ring goes over the date line by
    /// longitudes beyond 180 degrees, up to 540. Each fault says what is so of the corners and the ends.
    pub fn new(alloc: Global, corners: &[Place], ends: &[usize]) -> Result<MapPart, MapFault>
        ensures made { IfOk result (λ p. p ≡ rings_edges corners.now ends.now (length ends.now)) }
        ensures rings { IfOk result (λ p. AreRings corners.now ends.now) }
        ensures places { IfOk result (λ p. All IsMapPlace corners.now) }
        ensures fault { IfErr result (FaultMeans corners.now ends.now) }
    {
        check_places(corners)?;
        let edges = edges_of(alloc, corners, ends)?;
        Ok(MapPart { edges })
    }

    /// Does nothing: what is so of the edges of each part is so of these.
    pub(crate) fn is_part(&self)
        ensures { IsPart self.now }
    {
        let _ = &self.edges;
    }

    /// How many edges there are.
    pub(crate) fn size(&self) -> usize
        ensures { result ≡ length self.now }
    {
        self.edges.len()
    }

    /// Whether a place lies inside.
    pub(crate) fn has(&self, p: Place) -> bool
        requires { IsMapPlace p }
        ensures { result ≡ inside_part p self.now }
    {
        are_odd(&self.edges, p)
    }

    /// The facts on the part and a box.
    pub(crate) fn near(&self, alloc: Global, q: MapBox) -> Result<Near, AllocError>
        requires { IsBox q }
        ensures value { IfOk result (λ part. seen part ≡ near_box q self.now) }
        ensures near { IfOk result (λ part. HasNearEdges part) }
    {
        let odd = are_odd(&self.edges, corner_of(q));
        let edges = edges_near(alloc, &self.edges, q)?;
        Ok(Near { odd, edges })
    }

    /// Whether an edge meets a box.
    pub(crate) fn meets(&self, q: MapBox) -> bool
        requires { IsBox q }
        ensures { result ≡ met_by q self.now }
    {
        meet(&self.edges, q)
    }
}

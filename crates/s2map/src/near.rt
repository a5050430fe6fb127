//! The edges that are left for a box on the way down from the whole map.
ghost use Rattle.std.specs.Prelude.{◌≡◌, ◌-◌, ◌^◌, ◌++◌, ◌∷◌, [], All, IfOk, cond, filter, flat_map, int_lt, map};
ghost use Rattle.std.specs.Prelude.{min, true};
ghost use Rattle.s2map.specs.Boxes.{IsBox, meets as meets_of};
ghost use Rattle.s2map.specs.Map.{IsMapEdge, is_west as is_west_of, on_turns};
ghost use Rattle.s2map.specs.Working.Even.{passes_over as passes_over_of};
ghost use Rattle.s2map.specs.Working.Near.{HasNearEdges, IsSummary, changes as changes_of, edges_left, has_edges};
ghost use Rattle.s2map.specs.Working.Near.{is_whole};
ghost use Rattle.s2map.specs.Working.Near.{narrowed as narrowed_of, near_box, part_by, seen};
ghost use Rattle.s2map.specs.Working.Sizes.{IsNear, IsNearEdge};

use crate::edge::{passes_north, turned};
use crate::meeting::{corner_of, meets};
use crate::part::MapPart;
use crate::place::{MapBox, MapEdge, Place};
use crate::shape::BoxPart;
use std::alloc::{AllocError, Global};

/// The facts on a part and a box that the walk hands down.
#[derive(Drop)]
pub struct Near {
    /// Whether the box's corner at its west and south lies inside the part.
    pub odd: bool,
    /// The edges of the part that meet the box, each on the turn on which it does.
    pub edges: Vec<MapEdge>,
}

/// The facts on a box that the walk hands down.
#[derive(Drop)]
pub struct Known {
    /// Whether a part has the whole box inside.
    pub inside: bool,
    /// If none has, what is known of each part of which an edge meets the box.
    pub parts: Vec<Near>,
}

/// Whether a corner is no farther east than a place.
fn is_west(p: Place, c: Place) -> bool
    ensures { result ≡ is_west_of p c }
{
    c.longitude <= p.longitude
}

/// Whether a place lies south of a corner.
fn is_south(p: Place, c: Place) -> bool
    ensures { result ≡ int_lt p.latitude c.latitude }
{
    p.latitude < c.latitude
}

/// Whether the step from one place to another, east or west and then north or south, passes south of a corner.
fn passes_over(p: Place, q: Place, c: Place) -> bool
    ensures { result ≡ passes_over_of p q c }
{
    is_west(p, c) ^ is_west(q, c) && is_south(p, c)
}

/// Whether an edge that may meet a box changes the answer between two of its places.
fn changes(p: Place, q: Place, e: MapEdge) -> bool
    requires edge { IsNearEdge e }
    requires from { IsNear p }
    requires to { IsNear q }
    ensures { result ≡ changes_of p q e }
{
    let passes = passes_north(e, p) ^ passes_north(e, q);
    let ends = passes_over(p, q, e.a) ^ passes_over(p, q, e.b);
    passes ^ ends
}

/// Adds an edge to a list if it is to be kept.
fn keep_if(kept: bool, e: MapEdge, list: &mut Vec<MapEdge>) -> Result<(), AllocError>
    ensures { IfOk result (λ _. list.new.items ≡ cond kept (list.old.items ++ e ∷ []) list.old.items) }
{
    if kept {
        list.push(e)?;
    }
    Ok(())
}

/// Adds an edge if it meets a box.
fn keep_met(e: MapEdge, q: MapBox, list: &mut Vec<MapEdge>) -> Result<(), AllocError>
    requires edge { IsNearEdge e }
    requires bounds { IsBox q }
    requires near { All IsNearEdge list.old.items }
    ensures kept { IfOk result (λ _. list.new.items ≡ list.old.items ++ filter (meets_of q) (e ∷ [])) }
    ensures near { IfOk result (λ _. All IsNearEdge list.new.items) }
{
    keep_if(meets(q, e), e, list)?;
    Ok(())
}

/// Adds an edge on each turn on which it meets a box.
fn keep_on_turns(e: MapEdge, q: MapBox, list: &mut Vec<MapEdge>) -> Result<(), AllocError>
    requires edge { IsMapEdge e }
    requires bounds { IsBox q }
    requires near { All IsNearEdge list.old.items }
    ensures kept { IfOk result (λ _. list.new.items ≡ list.old.items ++ filter (meets_of q) (on_turns e)) }
    ensures near { IfOk result (λ _. All IsNearEdge list.new.items) }
{
    keep_met(turned(-3, e), q, list)?;
    keep_met(turned(-2, e), q, list)?;
    keep_met(turned(-1, e), q, list)?;
    keep_met(turned(0, e), q, list)?;
    keep_met(turned(1, e), q, list)?;
    keep_met(turned(2, e), q, list)?;
    keep_met(turned(3, e), q, list)?;
    Ok(())
}

/// Of edges, those that meet a box, each on the turn on which it does.
pub(crate) fn edges_near(
    alloc: Global,
    edges: &[MapEdge],
    q: MapBox,
) -> Result<Vec<MapEdge>, AllocError>
    requires edges { All IsMapEdge edges.now }
    requires bounds { IsBox q }
    ensures kept { IfOk result (λ list. list.items ≡ filter (meets_of q) (flat_map on_turns edges.now)) }
    ensures near { IfOk result (λ list. All IsNearEdge list.items) }
{
    let mut list = Vec::new(alloc);
    for e in edges {
        keep_on_turns(*e, q, &mut list)?;
    }
    Ok(list)
}

/// The facts on a part and a box, from those on the part and a box that has this one: which answers its edges change
/// between the two corners, and which of them meet the smaller box. `from` is the corner of the larger box.
fn narrowed(alloc: Global, near: &Near, from: Place, q: MapBox) -> Result<Near, AllocError>
    requires from { IsNear from }
    requires bounds { IsBox q }
    requires near { HasNearEdges near.now }
    ensures value { IfOk result (λ part. seen part ≡ narrowed_of from q (seen near.now)) }
    ensures near { IfOk result (λ part. HasNearEdges part) }
{
    let to = corner_of(q);
    let mut odd = near.odd;
    let mut edges = Vec::new(alloc);
    for e in &near.edges {
        let edge = *e;
        odd = odd ^ changes(from, to, edge);
        keep_if(meets(q, edge), edge, &mut edges)?;
    }
    Ok(Near { odd, edges })
}

/// Adds what is known of a part, if an edge of it meets the box. Else answers whether the part has the whole box
/// inside.
fn add_near(near: Near, parts: &mut Vec<Near>) -> Result<bool, AllocError>
    requires near { HasNearEdges near }
    requires parts { All HasNearEdges parts.old.items }
    ensures whole { IfOk result (λ whole. whole ≡ is_whole (seen near)) }
    ensures parts { IfOk result (λ _.
        map seen parts.new.items ≡ map seen parts.old.items ++ filter has_edges (seen near ∷ [])) }
    ensures near { IfOk result (λ _. All HasNearEdges parts.new.items) }
{
    if near.edges.is_empty() {
        return Ok(near.odd);
    }
    parts.push(near)?;
    Ok(false)
}

impl Known {
    /// The facts on a box, from all edges of all parts.
    pub(crate) fn new(alloc: Global, parts: &[MapPart], q: MapBox) -> Result<Known, AllocError>
        requires { IsBox q }
        ensures { IfOk result (λ known. IsSummary (map (near_box q) parts.now) known) }
    {
        let mut near = Vec::new(alloc);
        for part in parts {
            if add_near(part.near(alloc, q)?, &mut near)? {
                return Ok(Known {
                    inside: true,
                    parts: near,
                });
            }
        }
        Ok(Known {
            inside: false,
            parts: near,
        })
    }

    /// The facts on a box, from those on a box that has this one, and that no part has whole inside.
    pub(crate) fn narrowed(
        &self,
        alloc: Global,
        from: Place,
        q: MapBox,
    ) -> Result<Known, AllocError>
        requires from { IsNear from }
        requires bounds { IsBox q }
        requires near { All HasNearEdges self.now.parts.items }
        ensures { IfOk result (λ known.
            IsSummary (map (λ n. narrowed_of from q (seen n)) self.now.parts.items) known) }
    {
        let mut near = Vec::new(alloc);
        for part in &self.parts {
            if add_near(narrowed(alloc, part, from, q)?, &mut near)? {
                return Ok(Known {
                    inside: true,
                    parts: near,
                });
            }
        }
        Ok(Known {
            inside: false,
            parts: near,
        })
    }

    /// The facts on a box that a part has whole inside.
    pub(crate) fn whole(alloc: Global) -> Known
        ensures inside { result.inside ≡ true }
        ensures none { result.parts.items ≡ [] }
    {
        Known {
            inside: true,
            parts: Vec::new(alloc),
        }
    }

    /// How many edges are left, as far as they are counted.
    pub(crate) fn size(&self) -> usize
        ensures { result ≡ min (edges_left self.now) (2 ^ 64 - 1) }
    {
        let mut size = 0usize;
        for part in &self.parts {
            size = size.saturating_add(part.edges.len());
        }
        size
    }

    /// How the box lies.
    pub(crate) fn part(&self) -> BoxPart
        ensures { result ≡ part_by self.now }
    {
        if self.inside {
            BoxPart::In
        } else if self.parts.is_empty() {
            BoxPart::Out
        } else {
            BoxPart::Met
        }
    }
}

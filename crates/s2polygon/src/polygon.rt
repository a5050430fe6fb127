//! Polygons, and which leaves lie inside them.
ghost use Rattle.std.specs.Prelude.{◌≡◌, ◌<◌, ◌≤◌, ◌^◌, All, IfErr, IfOk, List, length};
ghost use Rattle.s2cell.specs.Cell.{level_of, first_leaf};
ghost use Rattle.s2polygon.specs.Cells.{odd_of};
ghost use Rattle.s2polygon.specs.Faces.{edges_on};
ghost use Rattle.s2polygon.specs.Leaves.{inside};
ghost use Rattle.s2polygon.specs.Rings.{AreRings, FaultMeans, rings_edges};
ghost use Rattle.s2polygon.specs.Descents.{IsRight, face_list, near_face, near_of, top_in};
ghost use Rattle.s2polygon.specs.Working.Sizes.{IsFramed};
ghost use Rattle.s2polygon.specs.declared.frames.FramedEdge.{FramedEdge};

use crate::boxes::BoxedEdge;
use crate::descent::{Known, descend_to_leaf, known_of_face};
use crate::directions::{Direction, Edge};
use crate::faces::{Tops, exchanged, top_at, tops_of};
use crate::fault::PolygonFault;
use crate::lists::{Lists, list_at, lists_of};
use crate::rings::edges_of;
use s2cell::{CellId, GREATEST_LEVEL};
use std::alloc::{AllocError, Global};
use std::marker::Model;

/// The greatest margin.
pub const MOST_MARGIN: u64 = 1 << 60;

/// A region between closed rings of edges, with a leaf that is known to lie outside.
#[derive(Drop)]
pub struct Polygon {
    edges: Vec<Edge>,
    outside: CellId,
    margin: u64,
    tops: Tops,
    lists: Lists,
}

impl Model for Polygon {
    ghost use Rattle.s2cell.specs.Cell.{first_leaf};
    ghost use Rattle.s2polygon.specs.Leaves.{Region};

    ghost Value = { Region };

    ghost use Rattle.s2polygon.specs.Working.Known.{IsPolygon};

    ghost view = { λ p. record { edges = p.edges.items; outside = first_leaf p.outside; margin = p.margin } };

    ghost invariant = { λ p. IsPolygon
        (record { edges = p.edges.items; outside = first_leaf p.outside; margin = p.margin }) p.tops p.lists };
}

/// The parity of the leaf at a place of a face, by way of all cells that have it. `all` is the list of the face, and
/// `top` the parity of its middle.
fn parity_of_leaf(
    alloc: Global,
    all: &[BoxedEdge],
    margin: u64,
    top: bool,
    i: u32,
    j: u32,
) -> Result<bool, AllocError>
    requires margin { margin ≤ 2 ^ 60 }
    requires framed { All IsFramed all.now }
    requires i { i < 2 ^ 30 }
    requires j { j < 2 ^ 30 }
    ensures { (edges : List FramedEdge) → all.now ≡ near_face margin edges
        → IfOk result (λ odd. odd ≡ odd_of top edges 30 0 i j) }
{
    let whole = known_of_face(alloc, all, top)?;
    let leaf = descend_to_leaf(alloc, all, whole, u64::from(i), u64::from(j), margin)?;
    Ok(leaf.odd)
}

/// The polygon of these edges, with the parities of the faces' middles and the lists of the faces.
pub(crate) fn placed(
    alloc: Global,
    edges: Vec<Edge>,
    outside: CellId,
    margin: u64,
) -> Result<Polygon, AllocError>
    requires leaf { level_of outside ≡ GREATEST_LEVEL }
    requires margin { margin ≤ 2 ^ 60 }
    ensures { IfOk result (λ p. p ≡ record { edges = edges.items; outside = first_leaf outside; margin = margin }) }
{
    let face = outside.face();
    let at = outside.square();
    let lists = lists_of(alloc, &edges, margin)?;
    let tops = tops_of(&lists);
    let all = list_at(&lists, face);
    let odd = parity_of_leaf(alloc, all, margin, top_at(tops, face), at.i, at.j)?;
    Ok(Polygon {
        edges,
        outside,
        margin,
        tops: exchanged(tops, odd),
        lists,
    })
}

impl Polygon {
    /// The polygon of rings of corners. Ring after ring, the corners of each follow one another, and the first follows
    /// the last; `ends` has the number of corners up to the end of each ring. `outside` is a leaf that lies outside.
    /// The margin, in units of which a face has 6 * 2^60 a side, is how near an edge has to come to touch a leaf.
    ///
    /// Rings may cross, touch and repeat each other: what is crossed an odd number of times on the way from the leaf
    /// outside is inside. In which direction a ring runs changes no covering, if no edge touches the leaf outside
    /// (`law_of_directions`). Corners may repeat each other too. Each fault says what is so of the corners, of the leaf
    /// or of the margin. S2: `S2Polygon`, whose rings may not cross.
    ///
    /// A line is a ring that runs out and back, listed twice, and a point is a ring of one corner, three times. They
    /// have no inside (`law_of_lines`): their outer leaves are those that they touch.
    pub fn new(
        alloc: Global,
        corners: &[Direction],
        ends: &[usize],
        outside: CellId,
        margin: u64,
    ) -> Result<Polygon, PolygonFault>
        ensures made { IfOk result (λ p. p ≡ record {
          edges = rings_edges corners.now ends.now (length ends.now);
          outside = first_leaf outside;
          margin = margin;
        }) }
        ensures rings { IfOk result (λ p. AreRings corners.now ends.now) }
        ensures leaf { IfOk result (λ p. level_of outside ≡ GREATEST_LEVEL) }
        ensures margin { IfOk result (λ p. margin ≤ MOST_MARGIN) }
        ensures fault { IfErr result (FaultMeans corners.now ends.now outside margin) }
    {
        if margin > MOST_MARGIN {
            return Err(PolygonFault::MarginTooLarge);
        }
        if !outside.is_leaf() {
            return Err(PolygonFault::NotALeaf);
        }
        let edges = edges_of(alloc, corners, ends)?;
        Ok(placed(alloc, edges, outside, margin)?)
    }

    /// Whether a leaf lies inside: whether its parity is not that of the leaf outside. The cell must be a leaf.
    ///
    /// The direction of a ring changes this of no leaf that no edge touches (`law_of_directions`). Of a leaf that is
    /// touched it may change it, where an edge passes through the leaf's middle.
    ///
    /// The edges of the leaf's face are looked at once, those near the leaf up to thirty times. S2:
    /// `S2Polygon::Contains`.
    pub fn holds(&self, alloc: Global, leaf: CellId) -> Result<bool, AllocError>
        requires { level_of leaf ≡ GREATEST_LEVEL }
        ensures { IfOk result (λ held. held ≡ inside self.now (first_leaf leaf)) }
    {
        let face = leaf.face();
        let at = leaf.square();
        parity_of_leaf(
            alloc,
            self.list(face),
            self.margin(),
            self.top(face),
            at.i,
            at.j,
        )
    }

    /// How many edges there are.
    pub(crate) fn size(&self) -> usize
        ensures { result ≡ length self.now.edges }
    {
        self.edges.len()
    }

    /// What is known of a face.
    pub(crate) fn known_face(&self, alloc: Global, face: u8) -> Result<Known, AllocError>
        requires { face < 6 }
        ensures right { IfOk result (λ known. IsRight self.now.margin (top_in self.now face)
            (edges_on face self.now.edges) 0 30 0 0 (near_of (face_list self.now face) known)) }
        ensures within { IfOk result (λ known. All (λ n. n < length (face_list self.now face)) known.edges.items) }
    {
        known_of_face(alloc, self.list(face), self.top(face))
    }

    /// Whether the middle of a face lies inside.
    fn top(&self, face: u8) -> bool
        requires { face < 6 }
        ensures { result ≡ top_in self.now face }
    {
        top_at(self.tops, face)
    }

    /// The list of a face: the edges that meet it.
    pub(crate) fn list(&self, face: u8) -> &[BoxedEdge]
        requires { face < 6 }
        ensures value { result.now ≡ face_list self.now face }
        ensures framed { All IsFramed result.now }
    {
        list_at(&self.lists, face)
    }

    /// The margin.
    pub fn margin(&self) -> u64
        ensures value { result ≡ self.now.margin }
        ensures most { result ≤ 2 ^ 60 }
    {
        self.margin
    }
}

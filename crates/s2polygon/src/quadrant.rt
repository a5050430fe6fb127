//! Cells of a polygon, with what is known of them.
ghost use Rattle.std.specs.Prelude.{◌≡◌, ◌↔◌, ◌-◌, ◌/◌, ◌<◌, ◌≤◌, ◌^◌, [], ℕ, suc, All, Bool, IfOk, IsTrue, List};
ghost use Rattle.std.specs.Prelude.{length};
ghost use Rattle.s2cell.specs.Cell.{level_of};
ghost use Rattle.s2cell.specs.Square.{IsPlacedCell};
ghost use Rattle.s2polygon.specs.Counts.{edges_met};
ghost use Rattle.s2polygon.specs.Leaves.{Region, inner_leaf, outer_leaf};
ghost use Rattle.s2polygon.specs.Descents.{IsKnown, IsRight, near_of};
ghost use Rattle.s2polygon.specs.Working.Known.{part_by};
ghost use Rattle.s2polygon.specs.Working.Sizes.{IsFramed};
ghost use Rattle.s2polygon.specs.declared.frames.FramedEdge.{FramedEdge};

use crate::boxes::BoxedEdge;
use crate::descent::{Known, descend};
use crate::polygon::Polygon;
use s2cell::{CellId, GREATEST_LEVEL, PlacedCell};
use s2cover::{Part, Quadrant, Quartered};
use std::alloc::{AllocError, Global};
use std::marker::Model;

/// A cell of a polygon.
#[derive(Drop)]
pub struct PolygonCell<'a> {
    polygon: &'a Polygon,
    placed: PlacedCell,
    known: Known,
}

/// A polygon that is walked down from the faces: `Polygon::walked`.
#[derive(Drop)]
pub struct Walked<'a> {
    pub(crate) polygon: &'a Polygon,
}

impl<'a> Model for Walked<'a> {
    ghost Value = { Region };

    ghost view = { λ w. w.polygon.now };
}

impl Polygon {
    /// The polygon, to be walked down from the faces, as a `s2cover::Quartered`.
    pub fn walked(&self) -> Walked<'_>
        ensures { result ≡ self.now }
    {
        Walked { polygon: self }
    }
}

/// What is known of a child with this square.
#[tactic(none)]
fn known_of_child(
    alloc: Global,
    all: &[BoxedEdge],
    parent: &Known,
    child: &PlacedCell,
    margin: u64,
) -> Result<Known, AllocError>
    requires placed { IsPlacedCell child.now }
    requires inner { 0 < level_of child.now.cell }
    requires margin { margin ≤ 2 ^ 60 }
    requires framed { All IsFramed all.now }
    requires within { All (λ n. n < length all.now) parent.now.edges.items }
    ensures right { (top : Bool) (edges : List FramedEdge) (n : ℕ)
        → IsRight margin top edges n (suc (30 - level_of child.now.cell))
        (child.now.square.i / child.now.square.size / 2) (child.now.square.j / child.now.square.size / 2)
        (near_of all.now parent.now)
        → IfOk result (λ known. IsRight margin top edges (suc n) (30 - level_of child.now.cell)
        (child.now.square.i / child.now.square.size) (child.now.square.j / child.now.square.size)
        (near_of all.now known)) }
    ensures within { IfOk result (λ known. All (λ n. n < length all.now) known.edges.items) }
{
    let k = u32::from(GREATEST_LEVEL - child.cell.level());
    let i = u64::from(child.square.i / child.square.size);
    let j = u64::from(child.square.j / child.square.size);
    descend(alloc, all, parent, k, i, j, margin)
}

/// Whether no edge is left.
pub(crate) fn is_bare(known: &Known) -> bool
    ensures { IsTrue result ↔ (known.now.edges.items ≡ []) }
{
    known.edges.is_empty()
}

/// How a cell lies, by whether no edge is left for it, and whether its middle lies inside.
pub(crate) fn part_of(bare: bool, odd: bool) -> Part
    ensures { result ≡ part_by bare odd }
{
    if !bare {
        Part::Cross
    } else if odd {
        Part::In
    } else {
        Part::Out
    }
}

impl<'a> Quadrant for PolygonCell<'a> {
    ghost id = { λ q. q.placed.cell };

    ghost sound = { λ q. IsPlacedCell q.placed × IsKnown q.polygon.now q.placed.cell q.placed.square.face
        q.placed.square.i q.placed.square.j q.placed.square.size q.known };

    ghost outer = { λ q. outer_leaf q.polygon.now };

    ghost inner = { λ q. inner_leaf q.polygon.now };

    ghost work = { λ q. edges_met q.polygon.now };

    fn cell(&self) -> CellId {
        self.placed.cell
    }

    fn size(&self) -> usize {
        self.known.edges.len()
    }

    fn part(&self) -> Part {
        part_of(is_bare(&self.known), self.known.odd)
    }

    fn child(&self, alloc: Global, digit: u8) -> Result<PolygonCell<'a>, AllocError> {
        let placed = self.placed.child(digit);
        let all = self.polygon.list(self.placed.square.face);
        let known = known_of_child(alloc, all, &self.known, &placed, self.polygon.margin())?;
        Ok(PolygonCell {
            polygon: self.polygon,
            placed,
            known,
        })
    }
}

impl<'a> Quartered for Walked<'a> {
    ghost outer = { outer_leaf };

    ghost inner = { inner_leaf };

    ghost work = { edges_met };

    ghost extent = { λ r. length r.edges };

    type At = PolygonCell<'a>;

    fn size(&self) -> usize {
        self.polygon.size()
    }

    fn face(&self, alloc: Global, face: u8) -> Result<PolygonCell<'a>, AllocError> {
        let known = self.polygon.known_face(alloc, face)?;
        Ok(PolygonCell {
            polygon: self.polygon,
            placed: PlacedCell::face(face),
            known,
        })
    }
}

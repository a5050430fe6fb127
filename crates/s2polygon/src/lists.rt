//! The edges of a polygon, face by face.
ghost use Rattle.std.specs.Prelude.{◌≡◌, ◌<◌, ◌≤◌, ◌^◌, IfOk, false, filter};
ghost use Rattle.s2polygon.specs.Faces.{edges_on};
ghost use Rattle.s2polygon.specs.Frames.{framed};
ghost use Rattle.s2polygon.specs.Tests.{meets_square};
ghost use Rattle.s2polygon.specs.Descents.{near_face};
ghost use Rattle.s2polygon.specs.Working.Known.{AreLists, list_of};
ghost use Rattle.s2polygon.specs.Working.Sizes.{IsOfPlaces};

use crate::boxes::BoxedEdge;
use crate::directions::Edge;
use crate::frames::{edge_on, in_frame};
use crate::meeting::{is_beyond, is_met};
use crate::places::{Square, square_at};
use std::alloc::{AllocError, Global};

/// For each of the six faces, the edges that meet its square, widened by the margin, in the frame of the face.
#[derive(Drop)]
pub struct Lists {
    /// Those of face 0.
    pub zero: Vec<BoxedEdge>,
    /// Those of face 1.
    pub one: Vec<BoxedEdge>,
    /// Those of face 2.
    pub two: Vec<BoxedEdge>,
    /// Those of face 3.
    pub three: Vec<BoxedEdge>,
    /// Those of face 4.
    pub four: Vec<BoxedEdge>,
    /// Those of face 5.
    pub five: Vec<BoxedEdge>,
}

/// Whether an edge may meet a square of a face, by its ends alone. Most edges have no need of a normal in the frames of
/// five faces.
fn may_meet(face: u8, e: Edge, q: Square) -> bool
    requires face { face < 6 }
    requires square { IsOfPlaces q }
    ensures { result ≡ false → meets_square q (framed face e) ≡ false }
{
    !is_beyond(q, in_frame(face, e.a), in_frame(face, e.b))
}

/// Those of the edges that meet a square of a face, in the frame of the face.
fn edges_met_on(
    alloc: Global,
    face: u8,
    edges: &[Edge],
    q: Square,
) -> Result<Vec<BoxedEdge>, AllocError>
    requires face { face < 6 }
    requires square { IsOfPlaces q }
    ensures { IfOk result (λ met. met.items ≡ filter (meets_square q) (edges_on face edges.now)) }
{
    let mut met = Vec::new(alloc);
    for e in edges {
        if may_meet(face, *e, q) {
            let edge = edge_on(face, *e);
            if is_met(q, edge) {
                met.push(BoxedEdge::new(edge))?;
            }
        }
    }
    Ok(met)
}

/// The list of a face.
#[tactic(none)]
fn list_on(
    alloc: Global,
    face: u8,
    edges: &[Edge],
    margin: u64,
) -> Result<Vec<BoxedEdge>, AllocError>
    requires face { face < 6 }
    requires margin { margin ≤ 2 ^ 60 }
    ensures { IfOk result (λ list. list.items ≡ near_face margin (edges_on face edges.now)) }
{
    edges_met_on(alloc, face, edges, square_at(30, 0, 0, margin))
}

/// The lists of the six faces.
pub(crate) fn lists_of(alloc: Global, edges: &[Edge], margin: u64) -> Result<Lists, AllocError>
    requires { margin ≤ 2 ^ 60 }
    ensures { IfOk result (λ lists. AreLists edges.now margin lists) }
{
    let zero = list_on(alloc, 0, edges, margin)?;
    let one = list_on(alloc, 1, edges, margin)?;
    let two = list_on(alloc, 2, edges, margin)?;
    let three = list_on(alloc, 3, edges, margin)?;
    let four = list_on(alloc, 4, edges, margin)?;
    let five = list_on(alloc, 5, edges, margin)?;
    Ok(Lists {
        zero,
        one,
        two,
        three,
        four,
        five,
    })
}

/// The list of a face.
pub(crate) fn list_at(lists: &Lists, face: u8) -> &[BoxedEdge]
    requires { face < 6 }
    ensures { result.now ≡ list_of lists.now face }
{
    match face {
        0 => &lists.zero,
        1 => &lists.one,
        2 => &lists.two,
        3 => &lists.three,
        4 => &lists.four,
        _ => &lists.five,
    }
}

//! What is known of a cell on the way down: its parity, and the edges that meet it.
ghost use Rattle.std.specs.Prelude.{◌≡◌, ℕ, suc, ◌-◌, ◌/◌, ◌<◌, ◌≤◌, ◌^◌, ◌++◌, ◌∷◌, [], All, Bool, IfOk, List};
ghost use Rattle.std.specs.Prelude.{cond, filter, get_or, length};
ghost use Rattle.s2polygon.specs.Parity.{is_odd_by};
ghost use Rattle.s2polygon.specs.Tests.{meets_square};
ghost use Rattle.s2polygon.specs.Descents.{IsRight, near_face, near_of, no_edge, picked};
ghost use Rattle.s2polygon.specs.Working.Descent.{crosses_step_at};
ghost use Rattle.s2polygon.specs.Working.Sizes.{HasPlaces, IsFramed, IsOfPlaces};
ghost use Rattle.s2polygon.specs.declared.frames.FramedEdge.{FramedEdge};

use crate::boxes::BoxedEdge;
use crate::places::{Square, Step, square_at, step_at};
use std::alloc::{AllocError, Global};

/// What is known of a cell: its parity, and the edges that meet it.
#[derive(Drop)]
pub struct Known {
    /// Whether the way to its middle is crossed an odd number of times.
    pub odd: bool,
    /// The edges that meet its square, widened by the margin: their numbers in the list of its face.
    pub edges: Vec<usize>,
}

/// The edge with this number in a list.
fn edge_at(all: &[BoxedEdge], n: usize) -> &BoxedEdge
    requires framed { All IsFramed all.now }
    requires within { n < length all.now }
    ensures value { result.now ≡ get_or all.now n no_edge }
    ensures framed { IsFramed result.now }
{
    &all[n]
}

/// Adds a number to a list if it is to be kept.
fn keep_if(kept: bool, n: usize, list: &mut Vec<usize>) -> Result<(), AllocError>
    ensures { IfOk result (λ _. list.new.items ≡ cond kept (list.old.items ++ n ∷ []) list.old.items) }
{
    if kept {
        list.push(n)?;
    }
    Ok(())
}

/// Of the edges with these numbers in a list, whether they cross a step an odd number of times, and which of them meet
/// a square.
fn sifted(
    alloc: Global,
    all: &[BoxedEdge],
    numbers: &[usize],
    s: Step,
    q: Square,
) -> Result<Known, AllocError>
    requires framed { All IsFramed all.now }
    requires within { All (λ n. n < length all.now) numbers.now }
    requires step { HasPlaces s }
    requires square { IsOfPlaces q }
    ensures odd { IfOk result (λ found.
        found.odd ≡ is_odd_by (crosses_step_at s) (picked all.now numbers.now)) }
    ensures met { IfOk result (λ found.
        picked all.now found.edges.items ≡ filter (meets_square q) (picked all.now numbers.now)) }
    ensures within { IfOk result (λ found. All (λ n. n < length all.now) found.edges.items) }
{
    let mut odd = false;
    let mut met = Vec::new(alloc);
    for n in numbers {
        let e = edge_at(all, *n);
        odd = odd ^ e.crosses_step(s);
        keep_if(e.is_met(q), *n, &mut met)?;
    }
    Ok(Known { odd, edges: met })
}

/// What is known of a cell, from what is known of its parent: the cell's parity is its parent's and that of the step to
/// it, whose crossings are among the parent's edges, and the edges that meet it are among them. `all` is the list of
/// the face.
#[tactic(none)]
pub(crate) fn descend(
    alloc: Global,
    all: &[BoxedEdge],
    parent: &Known,
    k: u32,
    i: u64,
    j: u64,
    margin: u64,
) -> Result<Known, AllocError>
    requires k { k < 30 }
    requires i { i < 2 ^ (30 - k) }
    requires j { j < 2 ^ (30 - k) }
    requires margin { margin ≤ 2 ^ 60 }
    requires framed { All IsFramed all.now }
    requires within { All (λ n. n < length all.now) parent.now.edges.items }
    ensures right { (top : Bool) (edges : List FramedEdge) (n : ℕ)
        → IsRight margin top edges n (suc k) (i / 2) (j / 2) (near_of all.now parent.now)
        → IfOk result (λ child. IsRight margin top edges (suc n) k i j (near_of all.now child)) }
    ensures within { IfOk result (λ child. All (λ n. n < length all.now) child.edges.items) }
{
    let found = sifted(
        alloc,
        all,
        &parent.edges,
        step_at(k, i, j),
        square_at(k, i, j, margin),
    )?;
    Ok(Known {
        odd: parent.odd ^ found.odd,
        edges: found.edges,
    })
}

/// The parity and the edges of a face with this list, whose middle has this parity.
pub(crate) fn known_of_face(
    alloc: Global,
    all: &[BoxedEdge],
    odd: bool,
) -> Result<Known, AllocError>
    ensures right { (margin : ℕ) (edges : List FramedEdge) → all.now ≡ near_face margin edges
        → IfOk result (λ known. IsRight margin odd edges 0 30 0 0 (near_of all.now known)) }
    ensures within { IfOk result (λ known. All (λ n. n < length all.now) known.edges.items) }
{
    let mut edges = Vec::new(alloc);
    for n in 0..all.len() {
        edges.push(n)?;
    }
    Ok(Known { odd, edges })
}

/// The parity and the edges of the cell of 2^`bottom` leaves a side that has the leaf at a place, from those of its
/// face, by way of all cells that have it.
#[tactic(none)]
pub(crate) fn descend_to(
    alloc: Global,
    all: &[BoxedEdge],
    face: Known,
    bottom: u32,
    x: u64,
    y: u64,
    margin: u64,
) -> Result<Known, AllocError>
    requires bottom { bottom ≤ 30 }
    requires x { x < 2 ^ 30 }
    requires y { y < 2 ^ 30 }
    requires margin { margin ≤ 2 ^ 60 }
    requires framed { All IsFramed all.now }
    requires within { All (λ n. n < length all.now) face.edges.items }
    ensures right { (top : Bool) (edges : List FramedEdge) → IsRight margin top edges 0 30 0 0 (near_of all.now face)
        → IfOk result (λ cell. IsRight margin top edges (30 - bottom) bottom (x / 2 ^ bottom) (y / 2 ^ bottom)
        (near_of all.now cell)) }
    ensures within { IfOk result (λ cell. All (λ n. n < length all.now) cell.edges.items) }
{
    let mut known = face;
    let mut k = 30u32;
    while k > bottom {
        k -= 1;
        known = descend(alloc, all, &known, k, x >> k, y >> k, margin)?;
    }
    Ok(known)
}

/// The parity and the edges of a leaf, from those of its face.
#[tactic(none)]
pub(crate) fn descend_to_leaf(
    alloc: Global,
    all: &[BoxedEdge],
    face: Known,
    x: u64,
    y: u64,
    margin: u64,
) -> Result<Known, AllocError>
    requires x { x < 2 ^ 30 }
    requires y { y < 2 ^ 30 }
    requires margin { margin ≤ 2 ^ 60 }
    requires framed { All IsFramed all.now }
    requires within { All (λ n. n < length all.now) face.edges.items }
    ensures { (top : Bool) (edges : List FramedEdge) → IsRight margin top edges 0 30 0 0 (near_of all.now face)
        → IfOk result (λ leaf. IsRight margin top edges 30 0 x y (near_of all.now leaf)) }
{
    descend_to(alloc, all, face, 0, x, y, margin)
}

//! Whether an edge meets a square: by the signs of its ends at the square's lines, and of its normal at the corners.
ghost use Rattle.std.specs.Prelude.{◌≡◌, ◌*ℤ◌, ◌↔◌, IsTrue};
ghost use Rattle.s2polygon.specs.Crosses.{side_by};
ghost use Rattle.s2polygon.specs.Meets.{MeetsSquare, above, below, left_of, right_of};
ghost use Rattle.s2polygon.specs.Tests.{aboves, belows, lefts, meets_square, rights};
ghost use Rattle.s2polygon.specs.Working.Apart.{AreApart, AreBehind, AreFacing};
ghost use Rattle.s2polygon.specs.Working.Sizes.{IsFramed, IsOfPlaces, IsPlace};

use crate::frames::{Framed, FramedEdge};
use crate::places::{Square, WHOLE};

/// Two distances: of an edge's two ends from one line.
#[derive(Clone, Copy)]
pub struct Pair {
    /// That of the end where it begins.
    pub at_a: i128,
    /// That of the other.
    pub at_b: i128,
}

/// A product, which always fits.
pub(crate) fn times(a: i64, b: i64) -> i128
    ensures { result ≡ a *ℤ b }
{
    a as i128 * b as i128
}

/// A coordinate of a normal, as a turn.
fn turn_of(c: i64) -> i128
    ensures { result ≡ c }
{
    c as i128
}

/// How far a direction is on the right of a column.
#[tactic(none)]
fn right_by(u: i64, c: Framed) -> i128
    ensures { result ≡ right_of u c }
{
    times(WHOLE, c.u) - times(u, c.w)
}

/// How far a direction is on the left of a column.
#[tactic(none)]
pub(crate) fn left_by(u: i64, c: Framed) -> i128
    ensures { result ≡ left_of u c }
{
    times(u, c.w) - times(WHOLE, c.u)
}

/// How far a direction is above a row.
#[tactic(none)]
pub(crate) fn above_by(v: i64, c: Framed) -> i128
    ensures { result ≡ above v c }
{
    times(WHOLE, c.v) - times(v, c.w)
}

/// How far a direction is below a row.
#[tactic(none)]
fn below_by(v: i64, c: Framed) -> i128
    ensures { result ≡ below v c }
{
    times(v, c.w) - times(WHOLE, c.v)
}

/// On which side of the edge with this normal a place lies.
#[tactic(none)]
pub(crate) fn side_of(u: i64, v: i64, n: Framed) -> i128
    requires u { IsPlace u }
    requires v { IsPlace v }
    ensures { result ≡ side_by u v n }
{
    times(WHOLE, n.w) + times(u, n.u) + times(v, n.v)
}

/// Whether both distances are on the wrong side.
fn are_behind(p: Pair) -> bool
    ensures { IsTrue result ↔ AreBehind p }
{
    p.at_a < 0 && p.at_b < 0
}

/// Whether one end is on the wrong side of each of two lines.
fn are_facing(p: Pair, q: Pair) -> bool
    ensures { IsTrue result ↔ AreFacing p q }
{
    if p.at_a < 0 && q.at_b < 0 {
        return true;
    }
    q.at_a < 0 && p.at_b < 0
}

/// Whether two lines and the turn at their corner keep the edge out.
fn are_apart(p: Pair, q: Pair, turn: i128) -> bool
    ensures { IsTrue result ↔ AreApart p q turn }
{
    if p.at_a < 0 && q.at_b < 0 && turn > 0 {
        return true;
    }
    q.at_a < 0 && p.at_b < 0 && turn < 0
}

/// Whether two lines and the turn at the corner at this place keep the edge with this normal out. The turn, three
/// products, is looked at only where it matters.
#[tactic(none)]
fn is_past(p: Pair, q: Pair, u: i64, v: i64, n: Framed) -> bool
    requires u { IsPlace u }
    requires v { IsPlace v }
    ensures { IsTrue result ↔ AreApart p q (side_by u v n) }
{
    if !are_facing(p, q) {
        return false;
    }
    are_apart(p, q, side_of(u, v, n))
}

/// The distances of both ends from one line.
#[tactic(none)]
fn rights_of(q: Square, a: Framed, b: Framed) -> Pair
    ensures { result ≡ rights q a b }
{
    Pair {
        at_a: right_by(q.u0, a),
        at_b: right_by(q.u0, b),
    }
}

/// The distances of both ends from one line.
#[tactic(none)]
fn lefts_of(q: Square, a: Framed, b: Framed) -> Pair
    ensures { result ≡ lefts q a b }
{
    Pair {
        at_a: left_by(q.u1, a),
        at_b: left_by(q.u1, b),
    }
}

/// The distances of both ends from one line.
#[tactic(none)]
fn aboves_of(q: Square, a: Framed, b: Framed) -> Pair
    ensures { result ≡ aboves q a b }
{
    Pair {
        at_a: above_by(q.v0, a),
        at_b: above_by(q.v0, b),
    }
}

/// The distances of both ends from one line.
#[tactic(none)]
fn belows_of(q: Square, a: Framed, b: Framed) -> Pair
    ensures { result ≡ belows q a b }
{
    Pair {
        at_a: below_by(q.v1, a),
        at_b: below_by(q.v1, b),
    }
}

/// Whether an edge meets a square. Most edges that don't are rejected by the first line, after four products.
#[tactic(none)]
fn meets(e: FramedEdge, q: Square) -> bool
    requires edge { IsFramed e }
    requires square { IsOfPlaces q }
    ensures { IsTrue result ↔ MeetsSquare e.a e.b q }
{
    let right = rights_of(q, e.a, e.b);
    if are_behind(right) {
        return false;
    }
    let left = lefts_of(q, e.a, e.b);
    if are_behind(left) {
        return false;
    }
    let over = aboves_of(q, e.a, e.b);
    if are_behind(over) {
        return false;
    }
    let under = belows_of(q, e.a, e.b);
    if are_behind(under) {
        return false;
    }
    if is_past(right, over, q.u0, q.v0, e.n) {
        return false;
    }
    if is_past(under, right, q.u0, q.v1, e.n) {
        return false;
    }
    if is_past(over, left, q.u1, q.v0, e.n) {
        return false;
    }
    if is_past(left, under, q.u1, q.v1, e.n) {
        return false;
    }
    if are_apart(left, right, turn_of(e.n.v)) {
        return false;
    }
    if are_apart(over, under, turn_of(e.n.u)) {
        return false;
    }
    true
}

/// Whether both ends of an edge lie beyond one side of a square, so that it misses the square.
#[tactic(none)]
pub(crate) fn is_beyond(q: Square, a: Framed, b: Framed) -> bool
    ensures { IsTrue result → MeetsSquare a b q → ⊥ }
{
    if are_behind(rights_of(q, a, b)) {
        return true;
    }
    if are_behind(lefts_of(q, a, b)) {
        return true;
    }
    if are_behind(aboves_of(q, a, b)) {
        return true;
    }
    are_behind(belows_of(q, a, b))
}

/// The answer of `meets` for an edge.
#[tactic(none)]
pub(crate) fn is_met(q: Square, e: FramedEdge) -> bool
    requires edge { IsFramed e }
    requires square { IsOfPlaces q }
    ensures { result ≡ meets_square q e }
{
    meets(e, q)
}

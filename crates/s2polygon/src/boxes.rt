//! Edges with columns and rows that their ends lie between, by which most show how they lie without a product.
ghost use Rattle.std.specs.Prelude.{◌≡◌, ◌*◌, ◌/◌, ◌<◌, ◌≤◌, ◌^◌, IsFalse, IsTrue, unsigned_abs};
ghost use Rattle.s2polygon.specs.Crosses.{crosses_column_at, crosses_row_at};
ghost use Rattle.s2polygon.specs.Tests.{meets_square};
ghost use Rattle.s2polygon.specs.Working.Boxes.{HasBoth, IsAround, IsBetween, IsNear, IsOff, IsOffPiece};
ghost use Rattle.s2polygon.specs.Working.Boxes.{place_of_quotient};
ghost use Rattle.s2polygon.specs.Working.Descent.{crosses_step_at};
ghost use Rattle.s2polygon.specs.Working.Sizes.{HasPlaces, HasPlacesOfLine, IsFramed, IsOfPlaces, IsShort};

use crate::crossing::{crosses_column, crosses_row};
use crate::frames::FramedEdge;
use crate::meeting::is_met;
use crate::places::{Line, Square, Step};
use std::marker::Model;

/// An edge with columns and rows that both its ends lie between.
#[derive(Drop)]
pub struct BoxedEdge {
    edge: FramedEdge,
    columns: Span,
    rows: Span,
}

impl Model for BoxedEdge {
    ghost use Rattle.s2polygon.specs.declared.frames.FramedEdge.{FramedEdge};

    ghost Value = { FramedEdge };

    ghost use Rattle.s2polygon.specs.Working.Boxes.{IsBoxed};

    ghost view = { λ b. b.edge };

    ghost invariant = { λ b. IsBoxed b.edge b.columns b.rows };
}

/// Two places along a side of a face.
#[derive(Clone, Copy)]
pub struct Span {
    /// The lower one.
    pub low: i64,
    /// The higher one.
    pub high: i64,
}

/// The greatest place.
const FARTHEST: i64 = 1 << 62;

/// How much two places of a span differ: the width of a leaf.
const UNIT: i64 = 1 << 31;

/// The scale of the coordinate along a face's axis, in these units.
const UNITS: u64 = 3 * (1 << 29);

/// Twice that.
const TWICE: i64 = 3 * (1 << 30);

/// Whether a direction lies behind a face, or far beside it: `w` is its coordinate along the axis of the face, and `x`
/// that along its rows or its columns.
fn is_far(x: i64, w: i64) -> bool
    requires x { unsigned_abs x < 2 ^ 31 }
    requires w { unsigned_abs w < 2 ^ 31 }
    ensures { IsFalse result → IsNear w x }
{
    if w <= 0 {
        return true;
    }
    if x <= -2 * w {
        return true;
    }
    2 * w <= x
}

/// The place of the last line that a direction isn't before, of those whose places are whole in units. `d` is its
/// coordinate along the axis of the face, and `s` twice that and the one along the rows or the columns.
#[tactic(none)]
fn place_below(s: u64, d: u64) -> i64
    requires some { 0 < d }
    requires small { d < 2 ^ 31 }
    requires near { s ≤ 4 * d }
    ensures value { result ≡ place_of_quotient (s * UNITS / d) }
    ensures most { unsigned_abs result ≤ 3 * 2 ^ 61 }
{
    let n = s * UNITS / d;
    (n as i64 - TWICE) * UNIT
}

/// Two places between which a direction lies; the farthest ones if it is far beside the face, or behind it.
#[tactic(none)]
fn span_of(x: i64, w: i64) -> Span
    requires x { unsigned_abs x < 2 ^ 31 }
    requires w { unsigned_abs w < 2 ^ 31 }
    ensures { IsBetween result w x }
{
    if is_far(x, w) {
        return Span {
            low: -FARTHEST,
            high: FARTHEST,
        };
    }
    let low = place_below((x + 2 * w) as u64, w as u64);
    Span {
        low,
        high: low + UNIT,
    }
}

/// The span from the lowest place of two to the highest.
fn around(a: Span, b: Span) -> Span
    ensures { HasBoth result a b }
{
    Span {
        low: a.low.min(b.low),
        high: a.high.max(b.high),
    }
}

/// Whether a square lies beside these columns, or beside these rows.
fn is_off(q: Square, columns: Span, rows: Span) -> bool
    ensures { IsTrue result → IsOff q columns rows }
{
    columns.high < q.u0 || q.u1 < columns.low || rows.high < q.v0 || q.v1 < rows.low
}

/// Whether a square has all of these columns and rows, and more on each side.
fn is_around(q: Square, columns: Span, rows: Span) -> bool
    ensures { IsTrue result → IsAround q columns rows }
{
    if columns.low <= q.u0 {
        return false;
    }
    if q.u1 <= columns.high {
        return false;
    }
    if rows.low <= q.v0 {
        return false;
    }
    rows.high < q.v1
}

/// Whether a piece of a way lies beside a span of the lines like its own, or beside one of those that it crosses.
fn is_off_piece(line: Line, like: Span, across: Span) -> bool
    ensures { IsTrue result → IsOffPiece line like across }
{
    like.high < line.at || line.at < like.low || across.high < line.low || line.high < across.low
}

impl BoxedEdge {
    /// The edge with its columns and rows.
    #[tactic(none)]
    pub(crate) fn new(e: FramedEdge) -> BoxedEdge
        requires begin { IsShort e.a }
        requires end { IsShort e.b }
        ensures { result ≡ e }
    {
        let columns = around(span_of(e.a.u, e.a.w), span_of(e.b.u, e.b.w));
        let rows = around(span_of(e.a.v, e.a.w), span_of(e.b.v, e.b.w));
        BoxedEdge {
            edge: e,
            columns,
            rows,
        }
    }

    /// The edge itself.
    pub(crate) fn framed(&self) -> FramedEdge
        ensures { result ≡ self.now }
    {
        self.edge
    }

    /// Whether it meets a square. Most edges show it without a product.
    #[tactic(none)]
    pub(crate) fn is_met(&self, q: Square) -> bool
        requires edge { IsFramed self.now }
        requires square { IsOfPlaces q }
        ensures { result ≡ meets_square q self.now }
    {
        if is_off(q, self.columns, self.rows) {
            return false;
        }
        if is_around(q, self.columns, self.rows) {
            return true;
        }
        is_met(q, self.edge)
    }

    /// Whether it crosses a piece of a row.
    #[tactic(none)]
    fn crosses_row(&self, line: Line) -> bool
        requires edge { IsFramed self.now }
        requires line { HasPlacesOfLine line }
        ensures { result ≡ crosses_row_at line.at line.low line.high self.now }
    {
        if is_off_piece(line, self.rows, self.columns) {
            return false;
        }
        crosses_row(self.edge, line)
    }

    /// Whether it crosses a piece of a column.
    #[tactic(none)]
    fn crosses_column(&self, line: Line) -> bool
        requires edge { IsFramed self.now }
        requires line { HasPlacesOfLine line }
        ensures { result ≡ crosses_column_at line.at line.low line.high self.now }
    {
        if is_off_piece(line, self.columns, self.rows) {
            return false;
        }
        crosses_column(self.edge, line)
    }

    /// Whether it crosses just one of the two pieces of a step.
    #[tactic(none)]
    pub(crate) fn crosses_step(&self, s: Step) -> bool
        requires edge { IsFramed self.now }
        requires step { HasPlaces s }
        ensures { result ≡ crosses_step_at s self.now }
    {
        self.crosses_row(s.row) ^ self.crosses_column(s.column)
    }
}

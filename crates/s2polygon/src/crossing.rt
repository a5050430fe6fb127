//! Whether an edge crosses a piece of a way.
ghost use Rattle.std.specs.Prelude.{◌≡◌, ◌↔◌, IsTrue};
ghost use Rattle.s2polygon.specs.Crosses.{crosses_column_at, crosses_row_at};
ghost use Rattle.s2polygon.specs.Working.Crossed.{AreBeside, AreCrossed};
ghost use Rattle.s2polygon.specs.Working.Sizes.{HasPlacesOfLine, IsFramed};

use crate::frames::FramedEdge;
use crate::meeting::{above_by, left_by, side_of};
use crate::places::Line;

/// Whether the signs are those of a crossing.
fn are_crossed(a: i128, b: i128, p: i128, q: i128) -> bool
    ensures { IsTrue result ↔ AreCrossed a b p q }
{
    if a < 0 {
        b >= 0 && p >= 0 && q < 0
    } else {
        b < 0 && p < 0 && q >= 0
    }
}

/// Whether two distances are on one side.
fn are_beside(a: i128, b: i128) -> bool
    ensures { IsTrue result → AreBeside a b }
{
    (a < 0) == (b < 0)
}

/// Whether an edge crosses a piece of a row. Most edges don't, since both ends are on one side of the row.
#[tactic(none)]
pub(crate) fn crosses_row(e: FramedEdge, line: Line) -> bool
    requires edge { IsFramed e }
    requires line { HasPlacesOfLine line }
    ensures { result ≡ crosses_row_at line.at line.low line.high e }
{
    let from = above_by(line.at, e.a);
    let to = above_by(line.at, e.b);
    if are_beside(from, to) {
        return false;
    }
    let low = side_of(line.low, line.at, e.n);
    let high = side_of(line.high, line.at, e.n);
    are_crossed(from, to, low, high)
}

/// Whether an edge crosses a piece of a column.
#[tactic(none)]
pub(crate) fn crosses_column(e: FramedEdge, line: Line) -> bool
    requires edge { IsFramed e }
    requires line { HasPlacesOfLine line }
    ensures { result ≡ crosses_column_at line.at line.low line.high e }
{
    let from = left_by(line.at, e.a);
    let to = left_by(line.at, e.b);
    if are_beside(from, to) {
        return false;
    }
    let low = side_of(line.at, line.low, e.n);
    let high = side_of(line.at, line.high, e.n);
    are_crossed(from, to, low, high)
}

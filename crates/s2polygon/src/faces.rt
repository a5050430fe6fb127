//! The parities of the middles of the faces.
ghost use Rattle.std.specs.Prelude.{◌≡◌, ◌<◌, ℕ, All, List};
ghost use Rattle.s2polygon.specs.Crosses.{crosses_column_at, crosses_row_at};
ghost use Rattle.s2polygon.specs.Faces.{crosses_border};
ghost use Rattle.s2polygon.specs.Parity.{is_odd_by};
ghost use Rattle.s2polygon.specs.Working.Known.{AreFramed, AreLists, answer_at, exchanged_by, parities_of};
ghost use Rattle.s2polygon.specs.Working.Sizes.{HasPlacesOfLine, IsFramed};
ghost use Rattle.s2polygon.specs.declared.directions.Edge.{Edge};

use crate::boxes::BoxedEdge;
use crate::crossing::{crosses_column, crosses_row};
use crate::lists::{Lists, list_at};
use crate::places::{Line, line_at};

/// The middle of a face along a side, in the numbers of borders and middles.
const MIDDLE: u64 = (1 << 30) + 1;

/// The last border of a face.
const LAST: u64 = 1 << 31;

/// Whether edges cross a piece of a row an odd number of times.
fn is_odd_row(edges: &[BoxedEdge], line: Line) -> bool
    requires framed { All IsFramed edges.now }
    requires line { HasPlacesOfLine line }
    ensures { result ≡ is_odd_by (crosses_row_at line.at line.low line.high) edges.now }
{
    let mut odd = false;
    for e in edges {
        odd = odd ^ crosses_row(e.framed(), line);
    }
    odd
}

/// Whether edges cross a piece of a column an odd number of times.
fn is_odd_column(edges: &[BoxedEdge], line: Line) -> bool
    requires framed { All IsFramed edges.now }
    requires line { HasPlacesOfLine line }
    ensures { result ≡ is_odd_by (crosses_column_at line.at line.low line.high) edges.now }
{
    let mut odd = false;
    for e in edges {
        odd = odd ^ crosses_column(e.framed(), line);
    }
    odd
}

/// Whether edges cross the way from the middle of a face to that of the next an odd number of times. Each piece of it
/// lies on one of the two faces, so that the edges in the list of this face are enough.
#[tactic(none)]
fn is_odd_border(lists: &Lists, face: u8) -> bool
    requires face { face < 5 }
    requires framed { AreFramed lists.now }
    ensures { (edges : List Edge) (margin : ℕ) → AreLists edges margin lists.now
        → result ≡ is_odd_by (crosses_border face) edges }
{
    let here = list_at(lists, face);
    let there = list_at(lists, face + 1);
    let out = line_at(MIDDLE, MIDDLE, LAST);
    let back = line_at(MIDDLE, 0, MIDDLE);
    if face % 2 == 0 {
        is_odd_row(here, out) ^ is_odd_row(there, back)
    } else {
        is_odd_column(here, out) ^ is_odd_column(there, back)
    }
}

/// An answer for each of the six faces.
#[derive(Clone, Copy)]
pub struct Tops {
    /// That of face 0.
    pub zero: bool,
    /// That of face 1.
    pub one: bool,
    /// That of face 2.
    pub two: bool,
    /// That of face 3.
    pub three: bool,
    /// That of face 4.
    pub four: bool,
    /// That of face 5.
    pub five: bool,
}

/// The answer for a face.
pub(crate) fn top_at(tops: Tops, face: u8) -> bool
    requires { face < 6 }
    ensures { result ≡ answer_at tops face }
{
    match face {
        0 => tops.zero,
        1 => tops.one,
        2 => tops.two,
        3 => tops.three,
        4 => tops.four,
        _ => tops.five,
    }
}

/// The answers, each of which is exchanged for the other if `odd` says so.
pub(crate) fn exchanged(tops: Tops, odd: bool) -> Tops
    ensures { result ≡ exchanged_by odd tops }
{
    Tops {
        zero: tops.zero ^ odd,
        one: tops.one ^ odd,
        two: tops.two ^ odd,
        three: tops.three ^ odd,
        four: tops.four ^ odd,
        five: tops.five ^ odd,
    }
}

/// The parities of the middles of the six faces, by the lists of the faces.
pub(crate) fn tops_of(lists: &Lists) -> Tops
    requires { AreFramed lists.now }
    ensures { (edges : List Edge) (margin : ℕ) → AreLists edges margin lists.now → result ≡ parities_of edges }
{
    let one = is_odd_border(lists, 0);
    let two = one ^ is_odd_border(lists, 1);
    let three = two ^ is_odd_border(lists, 2);
    let four = three ^ is_odd_border(lists, 3);
    let five = four ^ is_odd_border(lists, 4);
    Tops {
        zero: false,
        one,
        two,
        three,
        four,
        five,
    }
}

//! Where leaves and cells lie along the sides of a face.
ghost use Rattle.std.specs.Prelude.{◌≡◌, ◌-◌, ◌<◌, ◌≤◌, ◌^◌};
ghost use Rattle.s2polygon.specs.Cells.{square_of, widened};
ghost use Rattle.s2polygon.specs.Places.{along};
ghost use Rattle.s2polygon.specs.Ways.{middle_of};
ghost use Rattle.s2polygon.specs.Working.Descent.{line_of, places_of};
ghost use Rattle.s2polygon.specs.Working.Sizes.{HasPlaces, HasPlacesOfLine, IsOfFace, IsOfPlaces};

/// A square on a face, between two columns and two rows, by their places.
#[derive(Clone, Copy)]
pub struct Square {
    /// The first column.
    pub u0: i64,
    /// The last column.
    pub u1: i64,
    /// The first row.
    pub v0: i64,
    /// The last row.
    pub v1: i64,
}

/// A straight piece of a way, along a row or a column at a place, from a lower place to a higher one.
#[derive(Clone, Copy)]
pub struct Line {
    /// The place of the row or the column.
    pub at: i64,
    /// Where the piece begins.
    pub low: i64,
    /// Where it ends.
    pub high: i64,
}

/// A step of a way: along a row, and then along a column.
#[derive(Clone, Copy)]
pub struct Step {
    /// The piece along the row.
    pub row: Line,
    /// The piece along the column.
    pub column: Line,
}

/// The scale of the coordinate along a face's axis.
pub(crate) const WHOLE: i64 = 3 * (1 << 60);

/// The place of a border or a middle of leaves.
#[tactic(none)]
pub(crate) fn place_at(t: u64) -> i64
    requires { t ≤ 2 ^ 31 }
    ensures { result ≡ along t }
{
    if t < 1 << 30 {
        let rest = (1 << 31) - t;
        (1 << 60) - (rest * rest) as i64
    } else {
        (t * t) as i64 - (1 << 60)
    }
}

/// How many leaves a side a cell has.
fn size_of(k: u32) -> u64
    requires k { k ≤ 30 }
    ensures value { result ≡ 2 ^ k }
    ensures most { result ≤ 2 ^ 30 }
{
    1 << k
}

/// The middle of a cell along one side.
#[tactic(none)]
fn middle_at(k: u32, i: u64) -> u64
    requires k { k ≤ 30 }
    requires i { i < 2 ^ (30 - k) }
    ensures value { result ≡ middle_of k i }
    ensures most { result ≤ 2 ^ 31 }
{
    let size = size_of(k);
    2 * (i * size + size / 2) + 1
}

/// The places of a piece.
#[tactic(none)]
pub(crate) fn line_at(at: u64, from: u64, to: u64) -> Line
    requires at { at ≤ 2 ^ 31 }
    requires from { from ≤ 2 ^ 31 }
    requires to { to ≤ 2 ^ 31 }
    ensures value { result ≡ line_of at from to }
    ensures places { HasPlacesOfLine result }
{
    Line {
        at: place_at(at),
        low: place_at(from.min(to)),
        high: place_at(from.max(to)),
    }
}

/// The places of the step to a cell from its parent.
#[tactic(none)]
pub(crate) fn step_at(k: u32, i: u64, j: u64) -> Step
    requires k { k < 30 }
    requires i { i < 2 ^ (30 - k) }
    requires j { j < 2 ^ (30 - k) }
    ensures value { result ≡ places_of k i j }
    ensures places { HasPlaces result }
{
    let from_u = middle_at(k + 1, i / 2);
    let from_v = middle_at(k + 1, j / 2);
    let to_u = middle_at(k, i);
    let to_v = middle_at(k, j);
    Step {
        row: line_at(from_v, from_u, to_u),
        column: line_at(to_u, from_v, to_v),
    }
}

/// The square of a cell.
#[tactic(none)]
fn cell_square(k: u32, i: u64, j: u64) -> Square
    requires k { k ≤ 30 }
    requires i { i < 2 ^ (30 - k) }
    requires j { j < 2 ^ (30 - k) }
    ensures value { result ≡ square_of k i j }
    ensures face { IsOfFace result }
{
    let size = size_of(k);
    Square {
        u0: place_at(2 * (i * size)),
        u1: place_at(2 * (i * size + size)),
        v0: place_at(2 * (j * size)),
        v1: place_at(2 * (j * size + size)),
    }
}

/// A square widened by a margin on each side.
#[tactic(none)]
fn widen(q: Square, margin: u64) -> Square
    requires face { IsOfFace q }
    requires margin { margin ≤ 2 ^ 60 }
    ensures value { result ≡ widened margin q }
    ensures places { IsOfPlaces result }
{
    let by = margin as i64;
    Square {
        u0: q.u0 - by,
        u1: q.u1 + by,
        v0: q.v0 - by,
        v1: q.v1 + by,
    }
}

/// The square of a cell, widened by a margin on each side.
#[tactic(none)]
pub(crate) fn square_at(k: u32, i: u64, j: u64, margin: u64) -> Square
    requires k { k ≤ 30 }
    requires i { i < 2 ^ (30 - k) }
    requires j { j < 2 ^ (30 - k) }
    requires margin { margin ≤ 2 ^ 60 }
    ensures value { result ≡ widened margin (square_of k i j) }
    ensures places { IsOfPlaces result }
{
    widen(cell_square(k, i, j), margin)
}

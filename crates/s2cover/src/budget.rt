//! How much work a covering of few cells may take.
ghost use Rattle.std.specs.Prelude.{◌≡◌, ◌+◌, ◌<◌, ◌≤◌, ◌∷◌, All, List, drop, length, take};
ghost use Rattle.std.specs.List.{sum_by};
ghost use Rattle.s2cover.specs.Near.{work_allowed};

use crate::rough::RoughRegion;

/// How many pairs of a cell that is split and an edge a covering of few cells may have, whatever it covers.
const PAIRS: u128 = 1 << 20;

/// How many more it may have for each edge, and for each cell that it may have.
const PAIRS_EACH: u128 = 32;

/// How many pairs of a cell that is split and an edge that meets it a covering of at most `most` cells may have.
///
/// Each such edge is tried on the four children, so time and memory follow this number. Edges that run to and fro meet
/// every cell along them, so that without a bound it would be the product of edges, cells and levels. Countries,
/// provinces and coasts take at most 0.27 of it, and a ring of a million edges 0.36.
pub(crate) fn budget(edges: usize, most: usize) -> u128
    ensures { result ≡ work_allowed edges most }
{
    PAIRS + PAIRS_EACH * (edges as u128 + most as u128)
}

/// How many quadrants of a list, from the first on, can be split for the pairs that are left. Takes theirs away.
pub(crate) fn spend<R: RoughRegion>(region: &R, left: &mut u128, ahead: &[R::At]) -> usize
    requires { All (R.sound region.now) ahead.now }
    ensures within { result ≤ length ahead.now }
    ensures spent { left.new + sum_by R.work (take result ahead.now) ≡ left.old }
    ensures stop { (q : R.At) (more : List R.At) → drop result ahead.now ≡ q ∷ more → left.new < R.work q }
{
    for n in 0..ahead.len() {
        let size = region.size_at(&ahead[n]) as u128;
        if *left < size {
            return n;
        }
        *left -= size;
    }
    ahead.len()
}

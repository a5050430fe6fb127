//! Laws about the definitions themselves: functions that do nothing, whose clauses are proved.
ghost use Rattle.std.specs.Prelude.{◌≡◌, ◌<◌, ◌≤◌, ◌^◌, ℕ, List, false, length, true};
ghost use Rattle.s2cell.specs.declared.TheConstants.{LEAVES};
ghost use Rattle.s2geodesic.specs.Halves.{IsBehind, LieBefore, LiesOpposite};
ghost use Rattle.s2geodesic.specs.Rounded.{AreTrue, IsPolygonOf, true_polygon};
ghost use Rattle.s2polygon.specs.Directions.{Point};
ghost use Rattle.s2polygon.specs.Leaves.{Region, inner_leaf, is_touched, outer_leaf};
ghost use Rattle.s2polygon.specs.Rings.{AreRings, rings_edges};

use s2polygon::laws::{law_of_moved_corners, law_of_tests};

/// Edges between corners before a plane touch no leaf behind it, so that they can't go round one: all leaves there lie
/// on one side of the polygon. A leaf opposite the corners is not touched, whatever the margin.
pub fn law_of_halves()
    ensures behind { (n : Point) (r : Region) (corners : List Point) (ends : List ℕ) (x : ℕ)
        → r.edges ≡ rings_edges corners ends (length ends) → AreRings corners ends → LieBefore n corners
        → IsBehind n r.margin x → is_touched r x ≡ false }
    ensures opposite { (r : Region) (corners : List Point) (ends : List ℕ)
        → r.edges ≡ rings_edges corners ends (length ends) → AreRings corners ends
        → LiesOpposite corners r.outside → r.margin ≤ 2 ^ 60 → is_touched r r.outside ≡ false }
{
    law_of_tests();
}

/// What lies inside a polygon of rounded corners, next to that of the true ones: each outer leaf of the true polygon is
/// an outer leaf, so that no outer covering lacks it, and each inner leaf is one of the true polygon, so that an inner
/// covering has no other.
pub fn law_of_true_corners()
    ensures outer { (corners moved : List Point) (ends : List ℕ) (r : Region) (x : ℕ) → IsPolygonOf corners ends r
        → AreTrue corners moved → x < LEAVES → outer_leaf (true_polygon r moved ends) x ≡ true
        → outer_leaf r x ≡ true }
    ensures inner { (corners moved : List Point) (ends : List ℕ) (r : Region) (x : ℕ) → IsPolygonOf corners ends r
        → AreTrue corners moved → x < LEAVES → inner_leaf r x ≡ true
        → inner_leaf (true_polygon r moved ends) x ≡ true }
{
    law_of_halves();
    law_of_moved_corners();
}

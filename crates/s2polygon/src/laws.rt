//! Laws about the definitions themselves: functions that do nothing, whose clauses are proved.
ghost use Rattle.std.specs.Prelude.{◌≡◌, ◌↔◌, ◌<◌, ◌≤◌, ◌<ℤ◌, ◌/◌, ◌^◌, ◌++◌, ℕ, All, IsTrue, List, false, length, not};
ghost use Rattle.std.specs.Prelude.{pos, true, ◌≢◌};
ghost use Rattle.std.specs.List.Sorted.{IsPermutation};
ghost use Rattle.s2cell.specs.Curve.{AreNeighbours, i_of, j_of};
ghost use Rattle.s2cell.specs.declared.TheConstants.{LEAVES};
ghost use Rattle.s2polygon.specs.Directions.{IsDirection, Point};
ghost use Rattle.s2polygon.specs.Leaves.{Region, inner_leaf, inside, is_touched, outer_leaf};
ghost use Rattle.s2polygon.specs.Meets.{MeetsSquare};
ghost use Rattle.s2polygon.specs.Moves.{AreNearRings, AreOffMiddles, IsOdd, IsOffMiddles, StaysClear};
ghost use Rattle.s2polygon.specs.Moves.{margin_of_moved, of_rings, paid_for};
ghost use Rattle.s2polygon.specs.Neighbors.{IsMiddleOfSide, ShareASide};
ghost use Rattle.s2polygon.specs.Rings.{AreRings, HasDirections, rings_edges, turned_round};
ghost use Rattle.s2polygon.specs.Tests.{meets_square};
ghost use Rattle.s2polygon.specs.declared.directions.Edge.{Edge};
ghost use Rattle.s2polygon.specs.declared.frames.FramedEdge.{FramedEdge};
ghost use Rattle.s2polygon.specs.declared.places.Square.{Square};

/// The ten tests of signs say whether a direction of an edge lies in a square.
pub fn law_of_tests()
    ensures { (q : Square) (e : FramedEdge) → q.u0 <ℤ q.u1 → q.v0 <ℤ q.v1
        → IsTrue (meets_square q e) ↔ MeetsSquare e.a e.b q }
{}

/// A greater margin takes no leaf from the outer ones, and gives none to the inner ones.
pub fn law_of_margins()
    ensures outer { (r : Region) (margin x : ℕ) → r.margin ≤ margin → outer_leaf r x ≡ true
        → outer_leaf (record r { margin = margin }) x ≡ true }
    ensures inner { (r : Region) (margin x : ℕ) → r.margin ≤ margin → inner_leaf (record r { margin = margin }) x ≡ true
        → inner_leaf r x ≡ true }
{}

/// With a leaf inside for the leaf outside, inside and outside are exchanged.
pub fn law_of_complements()
    ensures { (r : Region) (y x : ℕ) → inside r y ≡ true → inside (record r { outside = y }) x ≡ not (inside r x) }
{}

/// The order of the edges changes nothing.
pub fn law_of_orders()
    ensures inside { (r : Region) (edges : List Edge) (x : ℕ) → IsPermutation r.edges edges
        → inside (record r { edges = edges }) x ≡ inside r x }
    ensures touched { (r : Region) (edges : List Edge) (x : ℕ) → IsPermutation r.edges edges
        → is_touched (record r { edges = edges }) x ≡ is_touched r x }
{}

/// The direction in which a ring runs changes no leaf that no edge touches, and so no covering: where some of the edges
/// are turned round, the same leaves are touched, the same are outer ones, and the same are inner ones. The leaf
/// outside has to be one that no edge touches.
///
/// Of a leaf that an edge touches, the direction may change whether it lies inside: an edge through the leaf's middle
/// is crossed by the way to it in one of its directions alone. Where that leaf is the one outside, this concerns all
/// leaves.
pub fn law_of_directions()
    ensures touched { (r : Region) (ring : List Edge) (x : ℕ)
        → is_touched (record r { edges = r.edges ++ turned_round ring }) x
        ≡ is_touched (record r { edges = r.edges ++ ring }) x }
    ensures outer { (r : Region) (ring : List Edge) (x : ℕ)
        → All HasDirections ring → x < LEAVES → r.outside < LEAVES
        → is_touched (record r { edges = r.edges ++ ring }) r.outside ≡ false
        → outer_leaf (record r { edges = r.edges ++ turned_round ring }) x
        ≡ outer_leaf (record r { edges = r.edges ++ ring }) x }
    ensures inner { (r : Region) (ring : List Edge) (x : ℕ)
        → All HasDirections ring → x < LEAVES → r.outside < LEAVES
        → is_touched (record r { edges = r.edges ++ ring }) r.outside ≡ false
        → inner_leaf (record r { edges = r.edges ++ turned_round ring }) x
        ≡ inner_leaf (record r { edges = r.edges ++ ring }) x }
{}

/// Two leaves that share a side, and that no edge touches, lie on one side of a polygon: both are inside, or neither
/// is. So 'inside' doesn't depend on the way by which crossings are counted: whoever goes from leaf to leaf, over
/// borders of faces and around corners of the cube too, and over no leaf that is touched, stays inside or stays
/// outside.
///
/// On a face, leaves share a side where they are one step apart (`faces`). Each side of a leaf is a side of another
/// leaf, on its face or over a border (`shared`). Of the three leaves at the corner of faces 0, 1 and 2, each two share
/// a side (`known`).
pub fn law_of_neighbors()
    ensures inside { (r : Region) (corners : List Point) (ends : List ℕ) (x y : ℕ)
        → r.edges ≡ rings_edges corners ends (length ends) → AreRings corners ends → All IsDirection corners
        → x < LEAVES → y < LEAVES → ShareASide x y → is_touched r x ≡ false → is_touched r y ≡ false
        → inside r x ≡ inside r y }
    ensures faces { (x y : ℕ) → x / 4 ^ 30 ≡ y / 4 ^ 30 → AreNeighbours (i_of x) (j_of x) (i_of y) (j_of y)
        → ShareASide x y }
    ensures shared { (x : ℕ) (p : Point) → x < LEAVES → IsMiddleOfSide x p
        → (y : ℕ) × (y < LEAVES) × (y ≢ x) × IsMiddleOfSide y p }
    ensures known { ShareASide 768614336404564650 2305843009213693951
        × ShareASide 768614336404564650 2305843009213693952 × ShareASide 2305843009213693951 2305843009213693952 }
{}

/// How much is lost by rounding corners, and the margin that pays for it. `moved` are the true corners, on a grid as
/// fine as you like, and `corners` those that the library is given: each coordinate of these is at most `num / den`
/// away from the true one, for corners from degrees 501 / 1000. With the greater margin, the given edges touch each
/// leaf that the true ones touch.
///
/// The inside is the same too: two leaves that the given edges don't touch with the greater margin, on whatever faces,
/// lie on one side of the given polygon if, and only if, they lie on one side of the true one. So where the leaf
/// outside is such a leaf, each outer leaf of the true polygon is an outer leaf of the given one, and each inner leaf
/// of the given polygon is an inner leaf of the true one. True corners have to lie off the lines through the middles
/// of rows and columns of leaves, where crossings are counted. Directions do (`directions`), and so does each point
/// whose coordinates are odd numbers (`odd`), of which there is one as near as you like to any place.
///
/// The margin grows with the longest edge, by how near it comes to the center (`height`). For 501 / 1000 it has 1.02
/// leaves of a face's middle where edges are short, 1.5 for a right angle, 2.1 for 120 degrees, and 117 for 179.
pub fn law_of_moved_corners()
    ensures touched { (num den height : ℕ) (r : Region) (corners moved : List Point) (ends : List ℕ) (x : ℕ)
        → AreNearRings num den height r.margin corners moved ends → is_touched (of_rings r moved ends) x ≡ true
        → is_touched (paid_for num den height (of_rings r corners ends)) x ≡ true }
    ensures sides { (num den height : ℕ) (r : Region) (corners moved : List Point) (ends : List ℕ) (x y : ℕ)
        → AreNearRings num den height r.margin corners moved ends → AreOffMiddles corners moved ends
        → x < LEAVES → y < LEAVES
        → is_touched (paid_for num den height (of_rings r corners ends)) x ≡ false
        → is_touched (paid_for num den height (of_rings r corners ends)) y ≡ false
        → (inside (of_rings r corners ends) x ≡ inside (of_rings r corners ends) y)
        ↔ (inside (of_rings r moved ends) x ≡ inside (of_rings r moved ends) y) }
    ensures outer { (num den height : ℕ) (r : Region) (corners moved : List Point) (ends : List ℕ) (x : ℕ)
        → AreNearRings num den height r.margin corners moved ends → AreOffMiddles corners moved ends
        → x < LEAVES → r.outside < LEAVES
        → is_touched (paid_for num den height (of_rings r corners ends)) r.outside ≡ false
        → outer_leaf (of_rings r moved ends) x ≡ true
        → outer_leaf (paid_for num den height (of_rings r corners ends)) x ≡ true }
    ensures inner { (num den height : ℕ) (r : Region) (corners moved : List Point) (ends : List ℕ) (x : ℕ)
        → AreNearRings num den height r.margin corners moved ends → AreOffMiddles corners moved ends
        → x < LEAVES → r.outside < LEAVES
        → is_touched (paid_for num den height (of_rings r corners ends)) r.outside ≡ false
        → inner_leaf (paid_for num den height (of_rings r corners ends)) x ≡ true
        → inner_leaf (of_rings r moved ends) x ≡ true }
    ensures directions { (p : Point) → IsDirection p → IsOffMiddles p }
    ensures odd { (p : Point) → IsOdd p → IsOffMiddles p }
    ensures known { StaysClear 1073741823 (record {
      a = record { x = pos 2147483647; y = pos 0; z = pos 0 };
      b = record { x = pos 0; y = pos 2147483647; z = pos 0 };
    }) × (margin_of_moved 501 1000 1073741823 7 ≡ 5020816784) }
{}

/// Edges that are listed twice change nothing of what lies inside, so that they are lines: lines alone have no inside,
/// and nor have points alone, edges that end where they begin. The outer leaves are then those that are touched.
///
/// It isn't enough to list an edge there and back: a leaf whose middle lies on it, which is touched, counts as inside.
pub fn law_of_lines()
    ensures twice { (r : Region) (lines : List Edge) (x : ℕ)
        → inside (record r { edges = r.edges ++ (lines ++ lines) }) x ≡ inside r x }
    ensures lines { (r : Region) (lines : List Edge) (x : ℕ)
        → inside (record r { edges = lines ++ lines }) x ≡ false }
    ensures points { (r : Region) (x : ℕ) → All (λ e. e.a ≡ e.b) r.edges → inside r x ≡ false }
{}

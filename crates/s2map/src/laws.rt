//! Laws about the definitions themselves: functions that do nothing, whose clauses are proved.
ghost use Rattle.std.specs.Prelude.{◌≡◌, ◌<◌, ◌<ℤ◌, All, List, ℕ, ℤ, false, neg_ℤ, pos, true, unsigned_abs};
ghost use Rattle.s2map.specs.Boxes.{InBox, meets};
ghost use Rattle.s2map.specs.Cells.{HoldsPlace, IsProperPlace};
ghost use Rattle.s2map.specs.Map.{IsMapEdge, IsMapPlace, inside, passes_north, place_turned, turned};
ghost use Rattle.s2map.specs.Edges.{LiesOn};
ghost use Rattle.s2map.specs.Examples.{degrees, inside_cap, inside_dateline, inside_slant, inside_square};
ghost use Rattle.s2map.specs.declared.place.MapBox.{MapBox};
ghost use Rattle.s2map.specs.declared.place.MapEdge.{MapEdge};
ghost use Rattle.s2map.specs.declared.place.Place.{Place};

use s2degrees::laws::law_of_sums;

/// Seven turns are all: an edge of the map passes north of no place of the map on any other.
pub fn law_of_turns()
    ensures { (p : Place) (e : MapEdge) (k : ℤ) → IsMapPlace p → IsMapEdge e → 3 < unsigned_abs k
        → passes_north p (turned k e) ≡ false }
{}

/// A box that has a place of an edge, off its western side, is met by the edge.
pub fn law_of_meetings()
    ensures { (q : MapBox) (e : MapEdge) (p : Place) → InBox q p → q.west <ℤ p.longitude → LiesOn e p
        → meets q e ≡ true }
{}

/// An edge in whichever of its two directions passes north of the same places.
pub fn law_of_directions()
    ensures { (p : Place) (e : MapEdge) → passes_north p (record { a = e.b; b = e.a }) ≡ passes_north p e }
{}

/// Places whose answers are known: in a square and on its sides, beside the date line, beside a slanting side, and in a
/// cap around the pole.
pub fn known_places()
    ensures middle { inside_square (degrees (pos 5) (pos 5)) ≡ true }
    ensures beside { inside_square (degrees (pos 15) (pos 5)) ≡ false }
    ensures above { inside_square (degrees (pos 5) (pos 11)) ≡ false }
    ensures below { inside_square (degrees (pos 5) (neg_ℤ (pos 1))) ≡ false }
    ensures west_side { inside_square (degrees (pos 0) (pos 5)) ≡ true }
    ensures east_side { inside_square (degrees (pos 10) (pos 5)) ≡ false }
    ensures south_side { inside_square (degrees (pos 5) (pos 0)) ≡ true }
    ensures north_side { inside_square (degrees (pos 5) (pos 10)) ≡ false }
    ensures a_turn_on { inside_square (degrees (pos 365) (pos 5)) ≡ true }
    ensures west_of_date_line { inside_dateline (degrees (pos 175) (pos 5)) ≡ true }
    ensures east_of_date_line { inside_dateline (degrees (neg_ℤ (pos 175)) (pos 5)) ≡ true }
    ensures farther_east { inside_dateline (degrees (neg_ℤ (pos 165)) (pos 5)) ≡ false }
    ensures right_of_slant { inside_slant (degrees (pos 6) (pos 5)) ≡ true }
    ensures on_slant { inside_slant (degrees (pos 5) (pos 5)) ≡ false }
    ensures left_of_slant { inside_slant (degrees (pos 4) (pos 5)) ≡ false }
    ensures in_cap { inside_cap (degrees (pos 0) (pos 85)) ≡ true }
    ensures in_cap_at_date_line { inside_cap (degrees (neg_ℤ (pos 180)) (pos 85)) ≡ true }
    ensures south_of_cap { inside_cap (degrees (pos 0) (pos 75)) ≡ false }
{}

/// Places a turn apart are one place: both lie inside a shape, or neither does. The parts are those of closed rings.
pub fn law_of_places_turned()
    ensures { (shape : List (List MapEdge)) (p : Place) → All (All IsMapEdge) shape → IsMapPlace p
        → IsMapPlace (place_turned (pos 1) p) → inside shape (place_turned (pos 1) p) ≡ inside shape p }
{}

/// Each place of the map but the poles is held by a leaf, so no clause about the places of leaves is about nothing.
pub fn law_of_leaves()
    ensures { (p : Place) → IsProperPlace p → (n : ℕ) × HoldsPlace n p }
{
    law_of_sums();
}

//! Laws about the definitions themselves: functions that do nothing, whose clauses are proved.
ghost use Rattle.std.specs.Prelude.{◌≡◌, ℕ, List, [], ◌∷◌, ◌++◌, replicate, Err, Ok};
ghost use Rattle.byteorder.specs.Endian.{big_bytes, little_bytes};
ghost use Rattle.s2shape.specs.GeoJson.{HasGeoJsonFault, IsGeoJson};
ghost use Rattle.s2shape.specs.Reading.{Shape};
ghost use Rattle.s2shape.specs.Wkb.{wkb};
ghost use Rattle.s2shape.specs.declared.fault.Fault.{Fault};
ghost use Rattle.s2shape.specs.Known.{at_byte, at_position, collections, empty_point, point_1_2, triangle, two_points};

use crate::fault::FaultName;

/// A text of GeoJSON stands for one shape or has one first fault. WKB does so because `wkb` is a function.
pub fn one_reading()
    ensures shape { (bytes : List ℕ) (s t : Shape) → IsGeoJson bytes (Ok s) → IsGeoJson bytes (Ok t) → s ≡ t }
    ensures no_fault { (bytes : List ℕ) (s : Shape) (fault : Fault) → IsGeoJson bytes (Ok s)
        → HasGeoJsonFault bytes fault → ⊥ }
    ensures one_fault { (bytes : List ℕ) (fault other : Fault) → HasGeoJsonFault bytes fault
        → HasGeoJsonFault bytes other → fault ≡ other }
{}

/// Known bytes of WKB, and the shapes that they stand for: the point 1 2 with the lowest byte first, with the highest
/// first, with Z and M as ISO writes them, and with an SRID, Z and M as EWKB writes them; the empty point; a triangle;
/// a list of the point and the empty one; and nothing, in 33 collections.
pub fn known_wkb()
    ensures lowest_first { wkb (1 ∷ (little_bytes 4 1 ++ little_bytes 8 0x3ff0000000000000
        ++ little_bytes 8 0x4000000000000000)) ≡ Ok point_1_2 }
    ensures highest_first { wkb (0 ∷ (big_bytes 4 1 ++ big_bytes 8 0x3ff0000000000000
        ++ big_bytes 8 0x4000000000000000)) ≡ Ok point_1_2 }
    ensures iso { wkb (1 ∷ (little_bytes 4 3001 ++ little_bytes 8 0x3ff0000000000000
        ++ little_bytes 8 0x4000000000000000 ++ replicate 16 255)) ≡ Ok point_1_2 }
    ensures ewkb { wkb (1 ∷ (little_bytes 4 0xe0000001 ++ little_bytes 4 4326 ++ little_bytes 8 0x3ff0000000000000
        ++ little_bytes 8 0x4000000000000000 ++ replicate 16 255)) ≡ Ok point_1_2 }
    ensures empty_point { wkb (1 ∷ (little_bytes 4 1 ++ little_bytes 8 0x7ff8000000000000
        ++ little_bytes 8 0x7ff8000000000000)) ≡ Ok empty_point }
    ensures triangle { wkb (1 ∷ (little_bytes 4 3 ++ little_bytes 4 1 ++ little_bytes 4 4 ++ replicate 16 0
        ++ little_bytes 8 0x3ff0000000000000 ++ replicate 16 0 ++ little_bytes 8 0x3ff0000000000000
        ++ replicate 8 0 ++ little_bytes 8 0x8000000000000000)) ≡ Ok triangle }
    ensures points { wkb (1 ∷ (little_bytes 4 4 ++ little_bytes 4 2
        ++ (1 ∷ (little_bytes 4 1 ++ little_bytes 8 0x3ff0000000000000 ++ little_bytes 8 0x4000000000000000))
        ++ (0 ∷ (big_bytes 4 1 ++ replicate 16 255)))) ≡ Ok two_points }
    ensures deepest { wkb (collections 32 ++ (1 ∷ (little_bytes 4 7 ++ little_bytes 4 0)))
        ≡ Ok record { positions = []; rings = []; parts = [] } }
{}

/// Bytes that are no WKB, and the fault of each, with the bytes that come before it: none; another order; a head that
/// is cut off; a circular string; a type that is none; another SRID; a count of 2^32 - 1; a position that is cut off;
/// a line in a list of points; a ring of three positions; an open ring; an infinite longitude; one of 541 degrees;
/// a byte after the end; and 34 collections in each other.
pub fn wkb_faults()
    ensures no_byte { wkb [] ≡ Err (at_byte FaultName.Truncated 0) }
    ensures third_order { wkb (2 ∷ []) ≡ Err (at_byte FaultName.Order 0) }
    ensures cut_head { wkb (1 ∷ 1 ∷ 0 ∷ 0 ∷ []) ≡ Err (at_byte FaultName.Truncated 0) }
    ensures circular_string { wkb (1 ∷ little_bytes 4 8) ≡ Err (at_byte FaultName.Uncovered 0) }
    ensures type_18 { wkb (1 ∷ little_bytes 4 18) ≡ Err (at_byte FaultName.Type 0) }
    ensures type_4001 { wkb (1 ∷ little_bytes 4 4001) ≡ Err (at_byte FaultName.Type 0) }
    ensures fourth_flag { wkb (1 ∷ little_bytes 4 0x10000001) ≡ Err (at_byte FaultName.Type 0) }
    ensures srid { wkb (1 ∷ (little_bytes 4 0x20000001 ++ little_bytes 4 3857)) ≡ Err (at_byte FaultName.Srid 0) }
    ensures cut_srid { wkb (1 ∷ (little_bytes 4 0x20000001 ++ replicate 3 0)) ≡ Err (at_byte FaultName.Truncated 0) }
    ensures count { wkb (1 ∷ (little_bytes 4 2 ++ replicate 4 255 ++ replicate 16 0))
        ≡ Err (at_byte FaultName.Count 5) }
    ensures cut_position { wkb (1 ∷ (little_bytes 4 1 ++ replicate 15 0)) ≡ Err (at_byte FaultName.Truncated 5) }
    ensures member { wkb (1 ∷ (little_bytes 4 4 ++ little_bytes 4 1 ++ (1 ∷ (little_bytes 4 2 ++ replicate 4 0))))
        ≡ Err (at_byte FaultName.Member 9) }
    ensures few { wkb (1 ∷ (little_bytes 4 3 ++ little_bytes 4 1 ++ little_bytes 4 3 ++ replicate 48 0))
        ≡ Err (at_position FaultName.Few 61 3) }
    ensures open { wkb (1 ∷ (little_bytes 4 3 ++ little_bytes 4 1 ++ little_bytes 4 4 ++ replicate 56 0
        ++ little_bytes 8 0x3ff0000000000000)) ≡ Err (at_position FaultName.Open 77 4) }
    ensures infinite { wkb (1 ∷ (little_bytes 4 2 ++ little_bytes 4 2 ++ replicate 16 0
        ++ little_bytes 8 0x7ff0000000000000 ++ replicate 8 0)) ≡ Err (at_position FaultName.NotFinite 25 1) }
    ensures far { wkb (1 ∷ (little_bytes 4 1 ++ little_bytes 8 0x4080e80000000000 ++ replicate 8 0))
        ≡ Err (at_byte FaultName.Range 5) }
    ensures trailing { wkb (1 ∷ (little_bytes 4 2 ++ replicate 5 0)) ≡ Err record {
      name = FaultName.Trailing;
      byte = 9;
      part = 1;
      ring = 0;
      position = 0;
    } }
    ensures deep { wkb (collections 33 ++ (1 ∷ (little_bytes 4 7 ++ little_bytes 4 0)))
        ≡ Err (at_byte FaultName.Deep 297) }
{}

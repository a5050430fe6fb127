//! Rectangles of leaves on one face.
ghost use Rattle.std.specs.Prelude.{◌≡◌, ◌↔◌, ℕ, true, IfSome, SomeIff};
ghost use Rattle.s2cell.specs.Curve.{IsPlaceOf};
ghost use Rattle.s2cell.specs.Rectangles.{IsInRect, IsRect, rect_set};

use crate::SIDE;
use std::marker::Model;

/// The leaves of one face whose coordinates are from `i0` to `i1` and from `j0` to `j1`, inclusive.
#[derive(Clone, Copy, PartialEq, Eq, Debug)]
pub struct FaceRect {
    /// The face, 0 to 5.
    pub face: u8,
    /// The least coordinate i.
    pub i0: u32,
    /// The greatest coordinate i, below 2^30.
    pub i1: u32,
    /// The least coordinate j.
    pub j0: u32,
    /// The greatest coordinate j, below 2^30.
    pub j1: u32,
}

impl Model for FaceRect {
    ghost use Rattle.s2cell.specs.Rectangles.{IsRect, Rect};

    ghost Value = { Rect };

    ghost view = { λ r. record { face = r.face; i0 = r.i0; i1 = r.i1; j0 = r.j0; j1 = r.j1 } };

    ghost inverse = { λ r. record { face = r.face; i0 = r.i0; i1 = r.i1; j0 = r.j0; j1 = r.j1 } };

    ghost invariant = { λ r. IsRect (record { face = r.face; i0 = r.i0; i1 = r.i1; j0 = r.j0; j1 = r.j1 }) };
}

impl FaceRect {
    /// The rectangle of a face, 0 to 5, with these least and greatest coordinates, each below 2^30. None if there is no
    /// such face, a coordinate is too large, or a least one is above its greatest.
    pub fn new(face: u8, i0: u32, i1: u32, j0: u32, j1: u32) -> Option<FaceRect>
        ensures made { SomeIff result (IsRect (record { face = face; i0 = i0; i1 = i1; j0 = j0; j1 = j1 }))
            (record { face = face; i0 = i0; i1 = i1; j0 = j0; j1 = j1 }) }
        ensures leaves { IfSome result (λ r. (n f i j : ℕ) → IsPlaceOf n f i j →
            (rect_set r n ≡ true) ↔ IsInRect r f i j) }
    {
        if face <= 5 && i0 <= i1 && i1 < SIDE && j0 <= j1 && j1 < SIDE {
            Some(FaceRect {
                face,
                i0,
                i1,
                j0,
                j1,
            })
        } else {
            None
        }
    }
}

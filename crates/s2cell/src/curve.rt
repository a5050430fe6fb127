//! Leaves and squares by their places on a face.

ghost use Rattle.std.specs.Prelude.{◌≡◌, ◌+◌, ◌<◌, ℕ};
ghost use Rattle.s2cell.specs.Cell.{level_of, first_leaf};
ghost use Rattle.s2cell.specs.Curve.{IsPlaceOf, AreNeighbours};
ghost use Rattle.s2cell.specs.Square.{IsSquareOf};

use crate::{CellId, FACE_LEAVES, GREATEST_LEVEL, SIDE, way};

/// The square of leaves that a cell covers on its face.
#[derive(Clone, Copy, PartialEq, Eq, Hash, Debug)]
pub struct Square {
    /// The face, 0 to 5.
    pub face: u8,
    /// The least coordinate i of its leaves.
    pub i: u32,
    /// The least coordinate j of its leaves.
    pub j: u32,
    /// The length of its side in leaves.
    pub size: u32,
}

impl CellId {
    /// The leaf at a place of a face (`FromFaceIJ`). The face is 0 to 5, and each coordinate is 0 to 2^30 - 1. Each
    /// place has one leaf, and each leaf one place.
    pub fn from_face_ij(face: u8, i: u32, j: u32) -> CellId
        requires face { face < 6 }
        requires i { i < SIDE }
        requires j { j < SIDE }
        ensures leaf { level_of result ≡ GREATEST_LEVEL }
        ensures place { IsPlaceOf (first_leaf result) face i j }
        ensures only { (n : ℕ) → IsPlaceOf n face i j → n ≡ first_leaf result }
    {
        let leaf = FACE_LEAVES * u64::from(face) + way::leaf_at(face % 2, i, j);
        CellId { id: 2 * leaf + 1 }
    }

    /// The square of the cell: its face, its least coordinates and its side, which is 2^(30 - level) leaves long
    /// (`ToFaceIJOrientation`, which answers some place in the cell, and `GetSizeIJ`).
    ///
    /// The leaves of the cell are at all places of the square, and at no others. The square of a leaf is its one place,
    /// with size 1, and the next leaf of the face is beside it. A walk down through many cells should carry the squares
    /// along (`PlacedCell`) rather than call this for each cell.
    ///
    /// Inlined into its callers, so that the square stays in registers.
    #[inline(always)]
    pub fn square(self) -> Square
        ensures square { IsSquareOf self result.face result.i result.j result.size }
        ensures leaf { level_of self ≡ GREATEST_LEVEL
            → IsPlaceOf (first_leaf self) result.face result.i result.j × (result.size ≡ 1) }
        ensures only { level_of self ≡ GREATEST_LEVEL
            → (face i j : ℕ) → IsPlaceOf (first_leaf self) face i j
            → (face ≡ result.face) × (i ≡ result.i) × (j ≡ result.j) }
        ensures next { level_of self ≡ GREATEST_LEVEL
            → (i j : ℕ) → IsPlaceOf (first_leaf self + 1) result.face i j
            → AreNeighbours result.i result.j i j }
    {
        let face = self.face();
        let (i, j) = way::place_at(face % 2, self.first_leaf() % FACE_LEAVES);
        let size = 1u32 << (GREATEST_LEVEL - self.level());
        Square {
            face,
            i: i & size.wrapping_neg(),
            j: j & size.wrapping_neg(),
            size,
        }
    }
}

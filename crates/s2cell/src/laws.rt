//! Laws about the definitions themselves: functions that do nothing, whose clauses are proved.
ghost use Rattle.std.specs.Prelude.{◌≡◌, ◌+◌, ◌-◌, ◌*◌, ◌/◌, ◌%◌, ◌^◌, ◌<◌, ◌↔◌, ℕ, true, List, [], ◌∷◌};
ghost use Rattle.std.specs.Prelude.{bit_xor, codes};
ghost use Rattle.s2cell.specs.Cell.{IsCell, IsCellAt, level_of, place_of, face_of, child_of, covers};
ghost use Rattle.s2cell.specs.Token.{IsReading, IsToken, token_of};
ghost use Rattle.s2cell.specs.Debug.{IsDebug, debug_of};
ghost use Rattle.s2cell.specs.Example.{IsDescribed};
ghost use Rattle.s2cell.specs.Curve.{At, IsPlaceOf, AreNeighbours, quadrant, turn, i_of, j_of};
ghost use Rattle.s2cell.specs.CurveExample.{StandAt};
ghost use Rattle.s2cell.specs.Square.{InSquare, IsSquareOf, orientation_of};

use crate::{FACE_LEAVES, GREATEST_LEVEL, LEAVES, SIDE};

/// A cell has one level and one place, those that are read from its identifier. It covers the leaves of that place: the
/// leaf `x` is at the place `x / 4^(30 - k)` of level `k`.
pub fn law_of_levels()
    ensures level_and_place { (k m n : ℕ) → IsCellAt k m n
        ↔ (IsCell n × (level_of n ≡ k) × (place_of n ≡ m)) }
    ensures leaves { (k m n x : ℕ) → IsCellAt k m n
        → ((covers n x ≡ true) ↔ (x / 4 ^ (GREATEST_LEVEL - k) ≡ m)) }
{}

/// Each cell has one token and one debug text, and each text stands for at most one cell.
pub fn law_of_texts()
    ensures token { (n : ℕ) (text : List ℕ) → IsCell n
        → (IsToken text n ↔ (text ≡ token_of n)) }
    ensures debug { (n : ℕ) (text : List ℕ) → IsCell n
        → (IsDebug text n ↔ (text ≡ debug_of n)) }
    ensures cell_of_token { (m n : ℕ) (text : List ℕ)
        → IsReading text m → IsReading text n → m ≡ n }
    ensures cell_of_debug { (m n : ℕ) (text : List ℕ)
        → IsDebug text m → IsDebug text n → m ≡ n }
{}

/// Each leaf has one place, each place one leaf, and successive leaves of a face share a side.
pub fn law_of_places()
    ensures place { (n : ℕ) → n < LEAVES → (face i j : ℕ) × (face < 6) × IsPlaceOf n face i j }
    ensures coordinates { (n : ℕ) → IsPlaceOf n (n / FACE_LEAVES) (i_of n) (j_of n) }
    ensures leaf { (face i j : ℕ) → face < 6 → i < SIDE → j < SIDE
        → (n : ℕ) × (n < LEAVES) × IsPlaceOf n face i j }
    ensures one_place { (n face i j other x y : ℕ) → IsPlaceOf n face i j → IsPlaceOf n other x y
        → (face ≡ other) × (i ≡ x) × (j ≡ y) }
    ensures one_leaf { (n m face i j : ℕ) → IsPlaceOf n face i j → IsPlaceOf m face i j → n ≡ m }
    ensures beside { (n face i j x y : ℕ) → IsPlaceOf n face i j → IsPlaceOf (n + 1) face x y
        → AreNeighbours i j x y }
{}

/// A cell has one square, and the leaves in that square are exactly its own. The squares of its children are the
/// quarters of its square, in an order given by the orientation at which the curve enters the cell. The orientation of
/// a face is the last bit of its number, and each child turns it.
pub fn law_of_squares()
    ensures one_square { (c face i j size other x y side : ℕ) → IsCell c
        → IsSquareOf c face i j size → IsSquareOf c other x y side
        → (face ≡ other) × (i ≡ x) × (j ≡ y) × (size ≡ side) }
    ensures within { (c face i j size n x y : ℕ) → IsSquareOf c face i j size → IsPlaceOf n face x y
        → (covers c n ≡ true) ↔ InSquare i j size x y }
    ensures face { (c : ℕ) → IsCell c → level_of c ≡ 0
        → IsSquareOf c (face_of c) 0 0 SIDE × (orientation_of c ≡ face_of c % 2) }
    ensures quarter { (c p face i j size : ℕ) → IsCell c → level_of c < GREATEST_LEVEL → p < 4
        → IsSquareOf c face i j size
        → let half = size / 2 in let picked = quadrant (orientation_of c) p
        in IsSquareOf (child_of c p) face (i + picked / 2 * half) (j + picked % 2 * half) half }
    ensures turn { (c p : ℕ) → IsCell c → level_of c < GREATEST_LEVEL → p < 4
        → orientation_of (child_of c p) ≡ bit_xor (orientation_of c) (turn p) }
{}

/// Cells as S2 has them: the six faces, and one cell each of levels 1, 3, 28 and 30.
pub fn known_cells()
    ensures face_0 { IsDescribed 0x1000000000000000 (codes "1") (codes "0/")
        0 0 0 1152921504606846975 }
    ensures face_1 { IsDescribed 0x3000000000000000 (codes "3") (codes "1/")
        0 1 1152921504606846976 2305843009213693951 }
    ensures face_2 { IsDescribed 0x5000000000000000 (codes "5") (codes "2/")
        0 2 2305843009213693952 3458764513820540927 }
    ensures face_3 { IsDescribed 0x7000000000000000 (codes "7") (codes "3/")
        0 3 3458764513820540928 4611686018427387903 }
    ensures face_4 { IsDescribed 0x9000000000000000 (codes "9") (codes "4/")
        0 4 4611686018427387904 5764607523034234879 }
    ensures face_5 { IsDescribed 0xb000000000000000 (codes "b") (codes "5/")
        0 5 5764607523034234880 6917529027641081855 }
    ensures level_1 { IsDescribed 0x0c00000000000000 (codes "0c") (codes "0/1")
        1 0 288230376151711744 576460752303423487 }
    ensures level_3 { IsDescribed 0x64c0000000000000 (codes "64c") (codes "3/021")
        3 3 3620894100405878784 3638908498915360767 }
    ensures level_28 { IsDescribed 0x0000000000000030 (codes "000000000000003") (codes "0/0000000000000000000000000001")
        28 0 16 31 }
    ensures level_30 { IsDescribed 0x0000000000000003 (codes "0000000000000003")
        (codes "0/000000000000000000000000000001")
        30 0 1 1 }
    ensures capitals_and_zeros { IsReading (codes "0C00") 0x0c00000000000000 }
{}

/// Texts that name no cell.
pub fn refused_texts()
    ensures no_digit { (n : ℕ) → IsReading (codes "X") n → ⊥ }
    ensures no_byte { (n : ℕ) → IsReading (codes "") n → ⊥ }
    ensures face_6 { (n : ℕ) → IsReading (codes "c") n → IsCell n → ⊥ }
    ensures odd_place { (n : ℕ) → IsReading (codes "2") n → IsCell n → ⊥ }
    ensures seventeen_digits { (n : ℕ) → IsReading (codes "10000000000000001") n → ⊥ }
    ensures zeros_kept { (n : ℕ) → IsToken (codes "0c00") n → ⊥ }
    ensures capital { (n : ℕ) → IsToken (codes "0C") n → ⊥ }
    ensures face_6_debug { (n : ℕ) → IsDebug (codes "6/") n → ⊥ }
    ensures digit_4_debug { (n : ℕ) → IsDebug (codes "0/4") n → ⊥ }
{}

/// The first sixteen leaves of an even and of an odd face, and the last leaf of an even one.
pub fn known_places()
    ensures even { StandAt 0 0 ((0, 0) ∷ (1, 0) ∷ (1, 1) ∷ (0, 1) ∷ (0, 2) ∷ (0, 3) ∷ (1, 3) ∷ (1, 2)
        ∷ (2, 2) ∷ (2, 3) ∷ (3, 3) ∷ (3, 2) ∷ (3, 1) ∷ (2, 1) ∷ (2, 0) ∷ (3, 0) ∷ []) }
    ensures odd { StandAt 1 0 ((0, 0) ∷ (0, 1) ∷ (1, 1) ∷ (1, 0) ∷ (2, 0) ∷ (3, 0) ∷ (3, 1) ∷ (2, 1)
        ∷ (2, 2) ∷ (3, 2) ∷ (3, 3) ∷ (2, 3) ∷ (1, 3) ∷ (1, 2) ∷ (0, 2) ∷ (0, 3) ∷ []) }
    ensures last { At 30 0 1152921504606846975 1073741823 0 }
{}

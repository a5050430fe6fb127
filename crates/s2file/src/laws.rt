//! Laws that follow from the definitions of files, and the way back from bytes to a union.
ghost use Rattle.std.specs.Prelude.{◌≡◌, ◌≢◌, ◌<◌, ◌≤◌, ℕ, Bool, List, [], ◌∷◌, ◌++◌, length, take};
ghost use Rattle.std.specs.Prelude.{replicate, MatchResult};
ghost use Rattle.s2list.specs.Union.{has_leaf};
ghost use Rattle.s2file.specs.declared.union_file.TheConstants.{MOST_FILE, MOST_SIZE};
ghost use Rattle.s2file.specs.File.{Bytes, File, HasFault, HasFrameFault, IsFramed, file_text};

use crate::fault::FileFault;
use crate::union_file::{decode, encode};
use s2union::CellUnion;
use std::alloc::Global;

/// Bytes can be read in one way only: a file stands for one set of leaves and has no fault except out of memory, and
/// other bytes have at most one fault besides it. However many numbers a file may have, its frame has one fault at
/// most, and none if it is whole.
pub fn one_reading()
    ensures leaves { (bytes : List ℕ) (S T : ℕ → Bool) → File bytes S → File bytes T → (x : ℕ) → S x ≡ T x }
    ensures no_fault { (bytes : List ℕ) (S : ℕ → Bool) (fault : FileFault) → File bytes S → HasFault bytes fault →
        fault ≡ FileFault.Memory }
    ensures one_fault { (bytes : List ℕ) (fault other : FileFault) → HasFault bytes fault → HasFault bytes other →
        fault ≢ FileFault.Memory → other ≢ FileFault.Memory → fault ≡ other }
    ensures framed { (bytes : List ℕ) (fault : FileFault) → IsFramed bytes → HasFrameFault bytes fault → ⊥ }
    ensures one_frame_fault { (bytes : List ℕ) (fault other : FileFault) → HasFrameFault bytes fault →
        HasFrameFault bytes other → fault ≡ other }
{}

/// The first `n` bytes decide what the whole is if `n` is more than `MOST_SIZE`: if they are a file of a set, so is the
/// whole, and the whole has each fault that they have, except out of memory. A file is never longer than `MOST_SIZE`.
pub fn beginning_decides()
    ensures longest { (bytes : List ℕ) (S : ℕ → Bool) → File bytes S → length bytes ≤ MOST_SIZE }
    ensures file { (bytes : List ℕ) (n : ℕ) (S : ℕ → Bool) → MOST_SIZE < n → File (take n bytes) S → File bytes S }
    ensures fault { (bytes : List ℕ) (n : ℕ) (fault : FileFault) → MOST_SIZE < n → fault ≢ FileFault.Memory →
        HasFault (take n bytes) fault → HasFault bytes fault }
{}

/// Equal sets of leaves have equal bytes.
pub fn one_text()
    ensures { (S T : ℕ → Bool) (bytes others : List ℕ) → ((x : ℕ) → S x ≡ T x) → Bytes S bytes → Bytes T others →
        bytes ≡ others }
{}

/// Known files and the unions that they stand for, and what is written of these unions: none, the face 0, 04 and 0c
/// (read out of order, one of them repeated), and the face 0 by its four children, the last one first.
pub fn known_files()
    ensures no_cell { File (1 ∷ replicate 8 0) (has_leaf []) }
    ensures face { File (1 ∷ 1 ∷ replicate 14 0 ++ 0x10 ∷ []) (has_leaf (0x1000000000000000 ∷ [])) }
    ensures any_order { File (1 ∷ 3 ∷ replicate 14 0 ++ 0x0c ∷ replicate 7 0 ++ 4 ∷ replicate 7 0 ++ 4 ∷ [])
        (has_leaf (0x0400000000000000 ∷ 0x0c00000000000000 ∷ [])) }
    ensures siblings { File (1 ∷ 4 ∷ replicate 14 0 ++ 0x1c ∷ replicate 7 0 ++ 0x14 ∷ replicate 7 0 ++ 0x0c
        ∷ replicate 7 0 ++ 4 ∷ [])
        (has_leaf (0x1000000000000000 ∷ [])) }
    ensures no_cell_written { file_text [] ≡ 1 ∷ replicate 8 0 }
    ensures face_written { file_text (0x1000000000000000 ∷ []) ≡ 1 ∷ 1 ∷ replicate 14 0 ++ 0x10 ∷ [] }
    ensures two_written { file_text (0x0400000000000000 ∷ 0x0c00000000000000 ∷ [])
        ≡ 1 ∷ 2 ∷ replicate 14 0 ++ 4 ∷ replicate 7 0 ++ 0x0c ∷ [] }
{}

/// Bytes that are no file, and the fault of each: the first check that fails.
pub fn refused_bytes()
    ensures no_byte { HasFault [] FileFault.Short }
    ensures version_2 { HasFault (2 ∷ []) FileFault.Version }
    ensures version_2_and_count { HasFault (2 ∷ replicate 8 0) FileFault.Version }
    ensures head_cut_off { HasFault (1 ∷ replicate 7 0) FileFault.Short }
    ensures greatest_count { HasFault (1 ∷ replicate 8 255) FileFault.Count }
    ensures count_1000001 { HasFault (1 ∷ 0x41 ∷ 0x42 ∷ 0x0f ∷ replicate 5 0) FileFault.Count }
    ensures identifier_cut_off { HasFault (1 ∷ 1 ∷ replicate 14 0) FileFault.Short }
    ensures byte_after { HasFault (1 ∷ 1 ∷ replicate 14 0 ++ 0x10 ∷ 0 ∷ []) FileFault.Trailing }
    ensures identifier_0 { HasFault (1 ∷ 1 ∷ replicate 15 0) FileFault.Cell }
    ensures odd_place { HasFault (1 ∷ 1 ∷ replicate 14 0 ++ 0x20 ∷ []) FileFault.Cell }
    ensures face_6 { HasFault (1 ∷ 1 ∷ replicate 14 0 ++ 0xd0 ∷ []) FileFault.Cell }
{}

/// What `decode` answers for the bytes that `encode` wrote: the same union, or out of memory.
pub fn round_trip(alloc: Global, union: &CellUnion) -> Result<CellUnion, FileFault>
    requires { length union.now.cells ≤ MOST_FILE }
    ensures { MatchResult result (λ back. back.cells ≡ union.now.cells) (λ fault. fault ≡ FileFault.Memory) }
{
    let bytes = encode(alloc, union)?;
    // whose cells are a normal form
    let _ = union.cells();
    decode(alloc, bytes.as_slice())
}

//! Regions that are walked down from the faces, and may not know of each cell how it lies.
ghost use Rattle.std.specs.Prelude.{◌≡◌, ◌<◌, IfOk, ℕ};
ghost use Rattle.s2cell.specs.Cell.{child_of, face_of, level_of};
ghost use Rattle.s2cover.specs.Rough.{EachLeaf};

use crate::region::Part;
use s2cell::{CellId, GREATEST_LEVEL};
use std::alloc::{AllocError, Global};

/// A region that a walk enters at the six faces. It says of each cell that it lies outside or inside, which is so of
/// all its leaves, or that it crosses, which a region says too if it doesn't know.
///
/// `outside` is what is so of the leaves of a cell that lies outside, and `inside` of one that lies inside. `crosses`
/// is what is so of a cell that crosses and the work that it takes. `At` is what is known of the region in one cell:
/// `id` is the cell, `work` how much it takes to find what is known in a child, and `sound` says that what is carried
/// of it is right. `extent` is the size of the region.
pub trait RoughRegion {
    ghost outside: { Self → ℕ → Type 0 };

    ghost inside: { Self → ℕ → Type 0 };

    ghost crosses: { Self → ℕ → ℕ → Type 0 };

    ghost extent: { Self → ℕ };

    /// What is known of the region in one cell.
    type At: Drop;

    ghost id: { Self.At → ℕ };

    ghost work: { Self.At → ℕ };

    ghost sound: { Self → Self.At → Type 0 };

    /// How large the region is, by what `size_at` counts, as the number of all its edges.
    fn size(&self) -> usize
        ensures { result ≡ extent self.now };

    /// What is known of the region in a face, 0 to 5. Fails only if there is no memory for it.
    fn face(&self, alloc: Global, face: u8) -> Result<Self::At, AllocError>
        requires { face < 6 }
        ensures sound { IfOk result (λ top. sound self.now top) }
        ensures level { IfOk result (λ top. level_of (id top) ≡ 0) }
        ensures face { IfOk result (λ top. face_of (id top) ≡ face) };

    /// The cell.
    fn cell_at(&self, at: &Self::At) -> CellId
        ensures { result ≡ id at.now };

    /// How much it takes to find what is known in a child, as the number of edges that are tried on it.
    fn size_at(&self, at: &Self::At) -> usize
        requires { sound self.now at.now }
        ensures { result ≡ work at.now };

    /// How the cell lies.
    fn part_at(&self, at: &Self::At) -> Part
        requires { sound self.now at.now }
        ensures out { result ≡ Part.Out → EachLeaf (outside self.now) (id at.now) }
        ensures inside { result ≡ Part.In → EachLeaf (inside self.now) (id at.now) }
        ensures across { result ≡ Part.Cross → crosses self.now (id at.now) (work at.now) };

    /// What is known of the region in the child with this number, 0 to 3 along the curve. The cell must not be a leaf.
    /// Fails only if there is no memory for it.
    fn child_at(&self, alloc: Global, at: &Self::At, digit: u8) -> Result<Self::At, AllocError>
        requires sound { sound self.now at.now }
        requires deep { level_of (id at.now) < GREATEST_LEVEL }
        requires digit { digit < 4 }
        ensures sound { IfOk result (λ child. sound self.now child) }
        ensures cell { IfOk result (λ child. id child ≡ child_of (id at.now) digit) };
}

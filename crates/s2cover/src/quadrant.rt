//! What is known of a region in one cell, and how it goes down to the cell's children.
ghost use Rattle.std.specs.Prelude.{◌≡◌, ◌↔◌, ◌<◌, IfOk, ℕ, Bool};
ghost use Rattle.s2cell.specs.Cell.{level_of, face_of, child_of};
ghost use Rattle.s2list.specs.Union.{LiesIn};
ghost use Rattle.s2cover.specs.Coverings.{LiesOutside};

use crate::region::Part;
use s2cell::{CellId, GREATEST_LEVEL};
use std::alloc::{AllocError, Global};

/// A cell, with what is known of how a region lies in it.
///
/// The region is two sets of leaves, since some leaves may only be touched: `outer` has those that an outer covering
/// has to have, and `inner` those that an inner covering may have. They are one set for a region that is a set of
/// leaves. `id` is the cell, and `sound` says that what is carried of it is right: so it is of a face, and then of the
/// children.
pub trait Quadrant: Drop {
    ghost id: { Self → ℕ };

    ghost sound: { Self → Type 0 };

    ghost outer: { Self → ℕ → Bool };

    ghost inner: { Self → ℕ → Bool };

    ghost work: { Self → ℕ → ℕ };

    /// The cell.
    fn cell(&self) -> CellId
        ensures { result ≡ id self.now };

    /// How much it takes to find what is known in a child, as the number of edges that are tried on it: the `work` of
    /// the cell.
    fn size(&self) -> usize
        requires { sound self.now }
        ensures { result ≡ work self.now (id self.now) };

    /// How the cell lies relative to the region: `Out` if it has no leaf of `outer`, `In` if all its leaves are in
    /// `inner`, else `Cross`. If it is `Out` it has no leaf of `inner` either, and if it is `In` all its leaves are in
    /// `outer` too.
    fn part(&self) -> Part
        requires { sound self.now }
        ensures out { (result ≡ Part.Out) ↔ LiesOutside (outer self.now) (id self.now) }
        ensures inside { (result ≡ Part.In) ↔ LiesIn (inner self.now) (id self.now) }
        ensures none { result ≡ Part.Out → LiesOutside (inner self.now) (id self.now) }
        ensures all { result ≡ Part.In → LiesIn (outer self.now) (id self.now) };

    /// What is known of the region in the child with this number, 0 to 3 along the curve. The cell must not be a leaf.
    /// Fails only if there is no memory for it.
    fn child(&self, alloc: Global, digit: u8) -> Result<Self, AllocError>
    where
        Self: Sized,
        requires sound { sound self.now }
        requires deep { level_of (id self.now) < GREATEST_LEVEL }
        requires digit { digit < 4 }
        ensures sound { IfOk result (λ child. sound child) }
        ensures cell { IfOk result (λ child. id child ≡ child_of (id self.now) digit) }
        ensures outer { IfOk result (λ child. outer child ≡ outer self.now) }
        ensures inner { IfOk result (λ child. inner child ≡ inner self.now) }
        ensures work { IfOk result (λ child. work child ≡ work self.now) };
}

/// A region that a walk enters at the six faces. `outer` and `inner` are its sets of leaves, and `work` is that of each
/// cell, as of its quadrants; `extent` is its size.
pub trait Quartered {
    ghost outer: { Self → ℕ → Bool };

    ghost inner: { Self → ℕ → Bool };

    ghost work: { Self → ℕ → ℕ };

    ghost extent: { Self → ℕ };

    /// What is known of the region in one cell.
    type At: Quadrant;

    /// How large the region is, by what `size` of a quadrant counts, as the number of all its edges.
    fn size(&self) -> usize
        ensures { result ≡ extent self.now };

    /// What is known of the region in a face, 0 to 5. Fails only if there is no memory for it.
    fn face(&self, alloc: Global, face: u8) -> Result<Self::At, AllocError>
        requires { face < 6 }
        ensures sound { IfOk result (λ top. Self.At.sound top) }
        ensures level { IfOk result (λ top. level_of (Self.At.id top) ≡ 0) }
        ensures face { IfOk result (λ top. face_of (Self.At.id top) ≡ face) }
        ensures outer { IfOk result (λ top. Self.At.outer top ≡ outer self.now) }
        ensures inner { IfOk result (λ top. Self.At.inner top ≡ inner self.now) }
        ensures work { IfOk result (λ top. Self.At.work top ≡ work self.now) };
}

//! How a call counts the numbers that it looks at, or doesn't: the counter is a type of its own.
ghost use Rattle.std.specs.Prelude.{◌≡◌, ◌+◌, ◌-◌, ◌^◌, ◌<◌, ℕ, min, length, slice_index};

use crate::cells::{Cells, Listed};

/// What counts the looks of a call.
pub trait Count {
    ghost most: { ℕ };

    ghost looks: { Self → ℕ };

    /// Counts a look, up to the greatest count that there is.
    fn look(&mut self)
        ensures { looks self.new ≡ min (looks self.old + 1) most };
}

/// A count in 64 bits.
#[derive(Clone, Copy)]
pub struct Looks {
    /// How many looks there were, or the greatest number if there were more.
    pub looks: u64,
}

impl Count for Looks {
    ghost most = { 2 ^ 64 - 1 };

    ghost looks = { λ s. s.looks };

    fn look(&mut self) {
        self.looks = self.looks.saturating_add(1);
    }
}

/// No count, so that a call that nobody counts has no code for it.
#[derive(Clone, Copy)]
pub struct Uncounted;

impl Count for Uncounted {
    ghost most = { 0 };

    ghost looks = { λ s. 0 };

    fn look(&mut self) {}
}

/// A list whose numbers are seen only by looks that `K` counts. A function that is written for any such list and any
/// counter has no other way to a number: it can't read one, and it has only the counter that it is given.
pub trait LookedAt<K: Count>: Listed {
    /// The number at an index, counted.
    fn look(&self, at: usize, count: &mut K) -> u64
        requires { at < length (Self.ids self.now) }
        ensures id { result ≡ slice_index (Self.ids self.now) at }
        ensures count { K.looks count.new ≡ min (K.looks count.old + 1) K.most };
}

impl<C: Cells, K: Count> LookedAt<K> for C {
    #[inline(always)]
    fn look(&self, at: usize, count: &mut K) -> u64 {
        count.look();
        self.id(at)
    }
}

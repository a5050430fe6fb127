//! Ranges of leaves, as words give them.
ghost use Rattle.std.specs.Prelude.{◌≡◌, ◌<◌, ◌+◌};
ghost use Rattle.s2cell.specs.Cell.{first_leaf, size_of};

use s2cell::CellId;
use std::marker::Model;

/// The leaves from the first of one cell to the last of another, which doesn't end before the first begins.
#[derive(Clone, Copy)]
pub struct Span {
    first: CellId,
    last: CellId,
}

impl Model for Span {
    ghost use Rattle.std.specs.Prelude.{◌<◌, ◌+◌};
    ghost use Rattle.s2cell.specs.Cell.{first_leaf, size_of};
    ghost use Rattle.s2script.specs.Values.{RangeEnds};

    ghost Value = { RangeEnds };

    ghost view = { λ s. record { first = s.first; last = s.last } };

    ghost inverse = { λ e. record { first = e.first; last = e.last } };

    ghost invariant = { λ s. first_leaf s.first < first_leaf s.last + size_of s.last };
}

impl Span {
    /// The range between these cells.
    pub(crate) fn between(first: CellId, last: CellId) -> Span
        requires { first_leaf first < first_leaf last + size_of last }
        ensures { result ≡ record { first = first; last = last } }
    {
        Span { first, last }
    }

    /// Its two cells.
    pub fn ends(self) -> (CellId, CellId)
        ensures first { result.0 ≡ self.first }
        ensures last { result.1 ≡ self.last }
        ensures order { first_leaf result.0 < first_leaf result.1 + size_of result.1 }
    {
        (self.first, self.last)
    }
}

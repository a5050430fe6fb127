//! A region of its own, as a crate above `s2cover` may have one.
ghost use Rattle.std.specs.Prelude.{◌%◌, ◌==◌};

use s2cell::CellId;
use s2cover::{Part, Region};

/// The leaves with an even number.
pub struct Even;

impl Region for Even {
    ghost holds = { λ _ n. n % 2 == 0 };

    fn part(&self, cell: CellId) -> Part {
        let _ = cell.id();
        if !cell.is_leaf() {
            Part::Cross
        } else if cell.first_leaf() % 2 == 0 {
            Part::In
        } else {
            Part::Out
        }
    }
}

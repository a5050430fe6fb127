//! The cells below a cell, several levels down at once.
ghost use Rattle.std.specs.Prelude.{◌≡◌, ◌<◌, ◌≤◌, ◌-◌, ◌^◌};
ghost use Rattle.s2cell.specs.Cell.{IsCell, level_of};
ghost use Rattle.s2cell.specs.Descendant.{descendant_of};

use crate::{CellId, GREATEST_LEVEL};

impl CellId {
    /// The cell number `i` of level `level` inside this cell, counted from 0 along the curve. The level is at least the
    /// cell's own, and the cell has `4^(level - own)` cells of that level. A few steps, whatever the level.
    pub fn descendant(self, level: u8, i: u64) -> CellId
        requires own { level_of self ≤ level }
        requires deepest { level ≤ GREATEST_LEVEL }
        requires place { i < 4 ^ (level - level_of self) }
        ensures value { result ≡ descendant_of self level i }
        ensures cell { IsCell self }
    {
        let size = 1u64 << (2 * (30 - level as u32));
        CellId {
            id: self.id - self.leaf_count() + (2 * i + 1) * size,
        }
    }
}

//! The cells of a union, cut to levels: those of one cell as a list, and those of all cells, written to a room.
ghost use Rattle.std.specs.Prelude.{◌≡◌, ◌<◌, ◌≤◌, [], drop, length, slice_index};
ghost use Rattle.s2cell.specs.Cell.{level_of};
ghost use Rattle.s2cell.specs.CutLevels.{cells_in, cut_level};
ghost use Rattle.s2list.specs.Union.{IsLocal};
ghost use Rattle.s2list.specs.Denorm.{denormalised};
ghost use Rattle.s2list.specs.Room.{PutsOne};

use crate::cells::{Cells, Listed};
use crate::room::put_run;
use s2cell::{CellId, CutLevels, GREATEST_LEVEL, LEAVES, count_descendants};
use std::marker::Model;

/// The cells of one level inside a cell, or none: a list of cells that takes no memory. A contract sees it as that
/// list.
#[derive(Drop)]
pub struct Descendants {
    cell: CellId,
    level: u8,
    count: usize,
}

impl Model for Descendants {
    ghost use Rattle.std.specs.Prelude.{◌-◌, ◌^◌, ◌≤◌, ℕ, List, take};
    ghost use Rattle.s2cell.specs.Cell.{level_of};
    ghost use Rattle.s2cell.specs.CutLevels.{cells_in};

    ghost Value = { List ℕ };

    ghost view = { λ d. take d.count (cells_in d.level d.cell) };

    ghost invariant = { λ d. (level_of d.cell ≤ d.level) × (d.level ≤ 30)
        × (d.count ≤ 4 ^ (d.level - level_of d.cell)) };
}

impl Descendants {
    /// A list of no cells.
    pub fn none() -> Descendants
        ensures { result ≡ [] }
    {
        let cell = CellId::tile(0, LEAVES);
        Descendants {
            cell,
            level: cell.level(),
            count: 0,
        }
    }

    /// The cells that a cell is cut into.
    pub fn cut(cell: CellId, cuts: &CutLevels) -> Descendants
        ensures { result ≡ cells_in (cut_level (level_of cell) cuts.now.least cuts.now.modulus) cell }
    {
        let own = cell.level();
        let level = cuts.of(own);
        Descendants {
            cell,
            level,
            count: count_descendants(own, level) as usize,
        }
    }

    /// The cell at index `k`.
    #[inline(always)]
    pub fn cell(&self, k: usize) -> CellId
        requires { k < length self.now }
        ensures { result ≡ slice_index self.now k }
    {
        self.cell.descendant(self.level, k as u64)
    }
}

impl Listed for Descendants {
    ghost ids = { λ d. d };

    fn len(&self) -> usize {
        self.count
    }
}

impl Cells for Descendants {
    #[inline(always)]
    fn id(&self, k: usize) -> u64 {
        self.cell(k).id()
    }
}

/// Puts the cells that the cells of a union are cut into at the front of a room, if they fit, and answers how many they
/// are. Each cell is cut to the least level that is at least its own, is at least `min`, and differs from `min` by a
/// multiple of `modulus`; to leaves if there is no such level. `min` is at most 30, and `modulus` 1, 2 or 3. A number
/// that is not a cell is cut into nothing. Linear in what is read and written.
pub fn denormalise<C: Cells>(cells: &C, min: u8, modulus: u8, out: &mut [u64]) -> usize
    requires min { min ≤ GREATEST_LEVEL }
    requires some { 0 < modulus }
    requires modulus { modulus ≤ 3 }
    ensures len { length out.new ≡ length out.old }
    ensures put { IsLocal (C.ids cells.now)
        → PutsOne (λ list. list ≡ denormalised min modulus (C.ids cells.now)) out.old out.new result }
    ensures rest { drop result out.new ≡ drop result out.old }
{
    let cuts = CutLevels::new(min, modulus);
    let mut n = 0;
    for k in 0..cells.len() {
        if let Some(cell) = CellId::from_id(cells.id(k)) {
            let items = Descendants::cut(cell, &cuts);
            n = put_run(out, n, &items, 0, items.len());
        }
    }
    n
}

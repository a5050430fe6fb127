//! Unions cut to the levels that a caller wants.

ghost use Rattle.std.specs.Prelude.{◌≡◌, ◌≤◌, ◌<◌, length};
ghost use Rattle.s2list.specs.Denorm.{denormalised, IsDenormalised};

use crate::union::CellUnion;
use s2cell::{CellId, CutLevels, GREATEST_LEVEL, LEAVES};
use s2list::{Descendants, Listed, denormalise};
use std::marker::Model;

/// The cells of a union, each cut to the level that is wanted: an iterator that borrows the union, holds a few numbers
/// and takes no memory. A contract sees it as the list of the cells that are still to come.
#[derive(Drop)]
pub struct Denorm<'a> {
    items: Descendants,
    number: usize,
    cells: &'a [CellId],
    cuts: CutLevels,
}

impl<'a> Model for Denorm<'a> {
    ghost use Rattle.std.specs.Prelude.{◌≤◌, ◌++◌, ℕ, List, drop, length};
    ghost use Rattle.s2list.specs.Denorm.{denormalised};

    ghost Value = { List ℕ };

    ghost view = { λ d. drop d.number d.items ++ denormalised d.cuts.least d.cuts.modulus d.cells.now };

    ghost invariant = { λ d. d.number ≤ length d.items };
}

impl<'a> Denorm<'a> {
    /// The iterator over the cells that `cells` are cut to, at its first cell.
    fn over(cells: &'a [CellId], cuts: CutLevels) -> Denorm<'a>
        ensures { result ≡ denormalised cuts.least cuts.modulus cells.now }
    {
        Denorm {
            items: Descendants::none(),
            number: 0,
            cells,
            cuts,
        }
    }
}

impl<'a> Iterator for Denorm<'a> {
    ghost use Rattle.std.specs.Iterator.{YieldsFirst, item_count};

    type Item = CellId;

    ghost next_gives = { YieldsFirst (λ items. items) };

    ghost remaining = { item_count (λ items. items) };

    fn next(&mut self) -> Option<CellId> {
        if self.number < self.items.len() {
            let item = self.items.cell(self.number);
            self.number += 1;
            return Some(item);
        }
        if self.cells.is_empty() {
            return None;
        }
        self.items = Descendants::cut(self.cells[0], &self.cuts);
        self.cells = &self.cells[1..];
        self.number = 1;
        Some(self.items.cell(0))
    }
}

impl CellUnion {
    /// The cells, each cut into cells of the least level that is at least its own, is at least `min`, and differs from
    /// `min` by a multiple of `modulus`; into its leaves if there is no such level. The items ascend, and have the
    /// leaves of the union. `min` is at most 30, and `modulus` is 1 to 3. There may be as many items as leaves, `4^30`
    /// for a face: call `denormalized_len` first. S2 calls it `Denormalize`.
    pub fn denormalized(&self, min: u8, modulus: u8) -> Denorm<'_>
        requires min { min ≤ GREATEST_LEVEL }
        requires some { 0 < modulus }
        requires modulus { modulus ≤ 3 }
        ensures items { result ≡ denormalised min modulus self.now.cells }
        ensures meaning { IsDenormalised min modulus self.now.cells result }
        ensures most { length result ≤ LEAVES }
    {
        Denorm::over(self.cells(), CutLevels::new(min, modulus))
    }

    /// How many cells `denormalized` gives, computed without going through them, under the same conditions.
    pub fn denormalized_len(&self, min: u8, modulus: u8) -> u64
        requires min { min ≤ GREATEST_LEVEL }
        requires some { 0 < modulus }
        requires modulus { modulus ≤ 3 }
        ensures { result ≡ length (denormalised min modulus self.now.cells) }
    {
        denormalise(&self.list(), min, modulus, &mut []) as u64
    }
}

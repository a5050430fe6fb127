//! Questions that are asked in order.
ghost use Rattle.std.specs.Prelude.{◌≡◌, ◌≤◌, ◌↔◌, IsTrue, length};
ghost use Rattle.s2cell.specs.Cell.{covers, first_leaf};
ghost use Rattle.s2list.specs.Union.{has_leaf, IsWithin, ShareSome};
ghost use Rattle.s2list.specs.Packed.{IsPacked, FirstEndBy, EndsAfter};

use crate::search::{find, find_from};
use crate::union::CellUnion;
use s2cell::CellId;
use s2list::{CellList, contains_cell_at, first_place, intersects_cell_at};
use std::marker::Model;

/// A union in which one cell after another is searched, and where the last search ended.
///
/// The answers are those of the union itself, whatever the order of the cells. If the cells ascend, each search starts
/// where the one before ended, and its steps are logarithmic in the distance between the two. A contract sees the cells
/// of the union.
#[derive(Drop)]
pub struct Cursor<'a> {
    cells: &'a [CellId],
    at: usize,
}

impl<'a> Model for Cursor<'a> {
    ghost use Rattle.std.specs.Prelude.{ℕ, List};
    ghost use Rattle.s2list.specs.Union.{IsLocal};

    ghost Value = { List ℕ };

    ghost view = { λ c. c.cells.now };

    ghost invariant = { λ c. IsLocal c.cells.now };
}

impl CellUnion {
    /// A cursor for questions about cells in order. Takes no memory.
    pub fn cursor(&self) -> Cursor<'_>
        ensures { result ≡ self.now.cells }
    {
        Cursor {
            cells: self.cells(),
            at: 0,
        }
    }
}

impl<'a> Cursor<'a> {
    /// Whether the union has all leaves of the cell.
    pub fn contains_cell(&mut self, cell: CellId) -> bool
        ensures answer { IsTrue result ↔ IsWithin (covers cell) (has_leaf self.old) }
        ensures same { self.new ≡ self.old }
    {
        let at = find_near(self.cells, self.at, cell.first_leaf());
        self.at = at;
        contains_cell_at(&CellList { cells: self.cells }, at, cell)
    }

    /// Whether the union has a leaf of the cell.
    pub fn intersects_cell(&mut self, cell: CellId) -> bool
        ensures answer { IsTrue result ↔ ShareSome (covers cell) (has_leaf self.old) }
        ensures same { self.new ≡ self.old }
    {
        let at = find_near(self.cells, self.at, cell.first_leaf());
        self.at = at;
        intersects_cell_at(&CellList { cells: self.cells }, at, cell)
    }
}

/// How many cells end by the leaf `lo`. The search starts after the first `near` cells if these do, else from the
/// beginning.
fn find_near(cells: &[CellId], near: usize, lo: u64) -> usize
    requires { IsPacked cells.now }
    ensures within { result ≤ length cells.now }
    ensures ended { FirstEndBy cells.now result lo }
    ensures next { EndsAfter cells.now result lo }
{
    let start = first_place(&CellList { cells }, near, lo);
    if start > 0 {
        find_from(cells, start, lo)
    } else {
        find(cells, lo)
    }
}

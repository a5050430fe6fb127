//! The searches in the cells of a union, which are those of `s2list`, and how a call that is counted looks at a cell
//! itself.
ghost use Rattle.std.specs.Prelude.{◌≡◌, ◌≤◌, ◌<◌, ◌+◌, min, length, slice_index};
ghost use Rattle.s2list.specs.Packed.{IsPacked, FirstEndBy, EndsAfter};

use s2cell::CellId;
use s2list::{CellList, Count, LookedAt, Uncounted};

/// Cells of a list that are seen only by looks that `K` counts: as numbers (`LookedAt`), or as cells.
pub(crate) trait CellsLookedAt<K: Count>: LookedAt<K> {
    /// The cell at an index, counted.
    fn look_at(&self, at: usize, count: &mut K) -> CellId
        requires { at < length (Self.ids self.now) }
        ensures cell { result ≡ slice_index (Self.ids self.now) at }
        ensures count { K.looks count.new ≡ min (K.looks count.old + 1) K.most };
}

impl<'a, K: Count> CellsLookedAt<K> for CellList<'a> {
    #[inline(always)]
    fn look_at(&self, at: usize, count: &mut K) -> CellId {
        count.look();
        self.cells[at]
    }
}

/// How many cells end by the leaf `lo`; these come first. Logarithmic.
pub(crate) fn find(cells: &[CellId], lo: u64) -> usize
    requires { IsPacked cells.now }
    ensures within { result ≤ length cells.now }
    ensures ended { FirstEndBy cells.now result lo }
    ensures next { EndsAfter cells.now result lo }
{
    s2list::find_counted(&CellList { cells }, lo, &mut Uncounted)
}

/// How many cells end by the leaf `lo`, if the first `from` are known to. Logarithmic in how many more do.
#[inline(always)]
pub(crate) fn find_from(cells: &[CellId], from: usize, lo: u64) -> usize
    requires packed { IsPacked cells.now }
    requires within { from ≤ length cells.now }
    requires ended { FirstEndBy cells.now from lo }
    ensures from { from ≤ result }
    ensures within { result ≤ length cells.now }
    ensures ended { FirstEndBy cells.now result lo }
    ensures next { EndsAfter cells.now result lo }
{
    s2list::find_from(&CellList { cells }, from, lo)
}

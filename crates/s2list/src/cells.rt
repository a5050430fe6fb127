//! Numbers by their indexes, and the cells of a list.
ghost use Rattle.std.specs.Prelude.{◌≡◌, ◌<◌, ⊤, ℕ, List, length, slice_index, slice_set};
ghost use Rattle.std.specs.Vec.{vec_capacity};
ghost use Rattle.s2cell.specs.Cell.{IsCell};

use s2cell::CellId;

/// Numbers in a list. Only how many there are can be read.
pub trait Listed {
    ghost ids: { Self → List ℕ };

    /// How many numbers there are.
    fn len(&self) -> usize
        ensures { result ≡ length (ids self.now) };
}

/// Numbers that can be read by their indexes.
pub trait Cells: Listed {
    /// The number at index `k`, counted from 0.
    fn id(&self, k: usize) -> u64
        requires { k < length (Self.ids self.now) }
        ensures { result ≡ slice_index (Self.ids self.now) k };
}

/// Cells in a list, each of which can be replaced by another. How many there are stays.
///
/// `readable` says that the numbers of the list are cells, unless its type says so. `place` names what a change leaves
/// to the list: the reference that it holds, or the memory that it has.
pub trait CellsMut: Cells {
    ghost readable: { Self → Type 0 };

    ghost place: { Self → ℕ };

    /// The cell at index `k`, counted from 0.
    fn cell(&self, k: usize) -> CellId
        requires within { k < length (Self.ids self.now) }
        requires readable { readable self.now }
        ensures { result ≡ slice_index (Self.ids self.now) k };

    /// Replaces the cell at index `k`.
    fn set(&mut self, k: usize, cell: CellId)
        requires { k < length (Self.ids self.old) }
        ensures ids { Self.ids self.new ≡ slice_set (Self.ids self.old) k cell }
        ensures readable { readable self.old → readable self.new }
        ensures place { place self.new ≡ place self.old };
}

/// The numbers of a list.
#[derive(Clone, Copy)]
pub struct IdList<'a> {
    /// The list.
    pub ids: &'a [u64],
}

impl<'a> Listed for IdList<'a> {
    ghost ids = { λ s. s.ids.now };

    fn len(&self) -> usize {
        self.ids.len()
    }
}

impl<'a> Cells for IdList<'a> {
    fn id(&self, k: usize) -> u64 {
        self.ids[k]
    }
}

/// The cells of a list.
#[derive(Clone, Copy)]
pub struct CellList<'a> {
    /// The list.
    pub cells: &'a [CellId],
}

impl<'a> Listed for CellList<'a> {
    ghost ids = { λ s. s.cells.now };

    fn len(&self) -> usize {
        self.cells.len()
    }
}

impl<'a> Cells for CellList<'a> {
    fn id(&self, k: usize) -> u64 {
        self.cells[k].id()
    }
}

impl Listed for Vec<CellId> {
    ghost ids = { λ v. v.items };

    fn len(&self) -> usize {
        self.as_slice().len()
    }
}

impl Cells for Vec<CellId> {
    fn id(&self, k: usize) -> u64 {
        self[k].id()
    }
}

impl CellsMut for Vec<CellId> {
    ghost readable = { λ v. ⊤ };

    ghost place = { vec_capacity };

    fn cell(&self, k: usize) -> CellId {
        self[k]
    }

    fn set(&mut self, k: usize, cell: CellId) {
        self[k] = cell;
    }
}

/// The cell with this identifier.
pub fn cell_of(id: u64) -> CellId
    requires { IsCell id }
    ensures { result ≡ id }
{
    let Some(cell) = CellId::from_id(id) else {
        unreachable!();
    };
    cell
}

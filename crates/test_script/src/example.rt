//! The example of docs/ARCHITECTURE.md.
use s2cell::CellId;
use s2union::{CellUnion, normalise};
use std::alloc::{AllocError, Global};

/// The leaves of the given face, without one of its cells.
fn without_one(alloc: Global, face: CellId, cell: CellId) -> Result<CellUnion, AllocError> {
    let mut cells = Vec::new(alloc);
    cells.push(face)?;
    let whole = normalise(cells);
    let mut taken = Vec::new(alloc);
    taken.push(cell)?;
    whole.difference(&normalise(taken))
}

/// How many cells a cell has without the leaves of another.
pub fn cells_without(alloc: Global, face: CellId, cell: CellId) -> Result<usize, AllocError> {
    Ok(without_one(alloc, face, cell)?.len())
}

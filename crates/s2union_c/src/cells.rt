//! Cells. The calls take any number, and answer 0, which is not a cell, if there is no cell to answer.
ghost use Rattle.std.specs.Prelude.{◌≡◌, ◌+◌, ◌-◌, ◌*◌, ◌^◌, ◌<◌, ◌≤◌, ◌⊎◌, pos, MatchOption};
ghost use Rattle.s2cell.specs.Cell.{IsCell, IsInside, ShareLeaf, child_of, face_of, first_leaf, level_of, parent_of};
ghost use Rattle.s2cell.specs.Cell.{size_of};
ghost use Rattle.s2cell.specs.Curve.{IsPlaceOf};
ghost use Rattle.s2cell.specs.Neighbours.{IsCommonAncestor, IsFirst, IsLast, IsNext};
ghost use Rattle.s2cell.specs.Square.{IsSquareOf};
ghost use Rattle.s2union_c.specs.Status.{IsAnswerTo, made, no_cell};

use crate::status::{MADE, NO_CELL, answer};
use s2cell::{CellId, SIDE};

/// The square of a cell on its face: its least coordinates and its side, in leaves.
#[repr(C)]
#[derive(Clone, Copy)]
pub struct Square {
    /// The face, 0 to 5.
    pub face: u32,
    /// The least coordinate i.
    pub i: u32,
    /// The least coordinate j.
    pub j: u32,
    /// The length of the side.
    pub size: u32,
}

/// The version of the library: 10,000 times the major number, 100 times the minor one and the patch.
#[unsafe(no_mangle)]
pub extern "C" fn s2u_version() -> u32
    ensures { result ≡ 10401 }
{
    10401
}

/// Whether the number is the identifier of a cell.
#[unsafe(no_mangle)]
pub extern "C" fn s2u_is_cell(id: u64) -> i32
    ensures { IsAnswerTo result (IsCell id) }
{
    match CellId::from_id(id) {
        Some(_) => 1,
        None => 0,
    }
}

/// The level of a cell, 0 to 30.
#[unsafe(no_mangle)]
pub extern "C" fn s2u_level(id: u64) -> i32
    ensures level { IsCell id → result ≡ pos (level_of id) }
    ensures no_cell { (IsCell id → ⊥) → result ≡ no_cell }
{
    match CellId::from_id(id) {
        Some(cell) => i32::from(cell.level()),
        None => NO_CELL,
    }
}

/// The face of a cell, 0 to 5.
#[unsafe(no_mangle)]
pub extern "C" fn s2u_face(id: u64) -> i32
    ensures face { IsCell id → result ≡ pos (face_of id) }
    ensures no_cell { (IsCell id → ⊥) → result ≡ no_cell }
{
    match CellId::from_id(id) {
        Some(cell) => i32::from(cell.face()),
        None => NO_CELL,
    }
}

/// The cell of the level that contains the cell. 0 if the number is not a cell, or the level is deeper than its own.
#[unsafe(no_mangle)]
pub extern "C" fn s2u_parent(id: u64, level: u32) -> u64
    ensures parent { IsCell id → level ≤ level_of id → result ≡ parent_of id level }
    ensures none { (IsCell id → level_of id < level) → result ≡ 0 }
{
    match CellId::from_id(id) {
        Some(cell) if level <= u32::from(cell.level()) => cell.parent(level as u8).id(),
        _ => 0,
    }
}

/// The child of the cell with this number, 0 to 3 along the curve. 0 if `cell` is not a cell, or is a leaf, or the
/// number is not from 0 to 3.
#[unsafe(no_mangle)]
pub extern "C" fn s2u_child(id: u64, child: u32) -> u64
    ensures child { IsCell id → level_of id < 30 → child < 4 → result ≡ child_of id child }
    ensures none { (IsCell id → level_of id < 30 → 4 ≤ child) → result ≡ 0 }
{
    match CellId::from_id(id) {
        Some(cell) if child < 4 && cell.level() < 30 => cell.child(child as u8).id(),
        _ => 0,
    }
}

/// The first leaf of the cell. 0 if the number is not a cell.
#[unsafe(no_mangle)]
pub extern "C" fn s2u_range_min(id: u64) -> u64
    ensures leaf { IsCell id → result ≡ 2 * first_leaf id + 1 }
    ensures none { (IsCell id → ⊥) → result ≡ 0 }
{
    match CellId::from_id(id) {
        Some(cell) => cell.range_min().id(),
        None => 0,
    }
}

/// The last leaf of the cell. 0 if the number is not a cell.
#[unsafe(no_mangle)]
pub extern "C" fn s2u_range_max(id: u64) -> u64
    ensures leaf { IsCell id → result ≡ 2 * (first_leaf id + size_of id) - 1 }
    ensures none { (IsCell id → ⊥) → result ≡ 0 }
{
    match CellId::from_id(id) {
        Some(cell) => cell.range_max().id(),
        None => 0,
    }
}

/// How many leaves the cell has, 1 to 4^30. 0 if the number is not a cell.
#[unsafe(no_mangle)]
pub extern "C" fn s2u_size(id: u64) -> u64
    ensures size { IsCell id → result ≡ size_of id }
    ensures none { (IsCell id → ⊥) → result ≡ 0 }
{
    match CellId::from_id(id) {
        Some(cell) => cell.leaf_count(),
        None => 0,
    }
}

/// The next cell of its level along the curve, across faces. 0 after the last, and if the number is not a cell.
#[unsafe(no_mangle)]
pub extern "C" fn s2u_next(id: u64) -> u64
    ensures next { IsCell id → (IsLast id → ⊥) → IsNext id result }
    ensures none { (IsCell id → IsLast id) → result ≡ 0 }
{
    match CellId::from_id(id) {
        Some(cell) => match cell.next() {
            Some(next) => next.id(),
            None => 0,
        },
        None => 0,
    }
}

/// The cell of its level before it along the curve, across faces. 0 before the first, and if the number is not a cell.
#[unsafe(no_mangle)]
pub extern "C" fn s2u_prev(id: u64) -> u64
    ensures cell { IsCell id → (IsFirst id → ⊥) → IsCell result }
    ensures previous { IsCell id → (IsFirst id → ⊥) → IsNext result id }
    ensures none { (IsCell id → IsFirst id) → result ≡ 0 }
{
    match CellId::from_id(id) {
        Some(cell) => id_or_zero(cell.prev()),
        None => 0,
    }
}

/// The smallest cell that contains both. 0 if they lie on two faces, or one of the numbers is not a cell.
#[unsafe(no_mangle)]
pub extern "C" fn s2u_common_ancestor(a: u64, b: u64) -> u64
    ensures ancestor { IsCell a → IsCell b → face_of a ≡ face_of b → IsCommonAncestor a b result }
    ensures none { (IsCell a → IsCell b → face_of a ≡ face_of b → ⊥) → result ≡ 0 }
{
    match (CellId::from_id(a), CellId::from_id(b)) {
        (Some(first), Some(second)) => id_or_zero(first.common_ancestor(second)),
        _ => 0,
    }
}

/// Whether each leaf of `part` is a leaf of `whole`.
#[unsafe(no_mangle)]
pub extern "C" fn s2u_cell_contains(whole: u64, part: u64) -> i32
    ensures answer { IsCell whole → IsCell part → IsAnswerTo result (IsInside part whole) }
    ensures no_cell { (IsCell whole → IsCell part → ⊥) → result ≡ no_cell }
{
    match (CellId::from_id(whole), CellId::from_id(part)) {
        (Some(outer), Some(inner)) => answer(outer.contains(inner)),
        _ => NO_CELL,
    }
}

/// Whether two cells share a leaf.
#[unsafe(no_mangle)]
pub extern "C" fn s2u_cell_intersects(a: u64, b: u64) -> i32
    ensures answer { IsCell a → IsCell b → IsAnswerTo result (ShareLeaf a b) }
    ensures no_cell { (IsCell a → IsCell b → ⊥) → result ≡ no_cell }
{
    match (CellId::from_id(a), CellId::from_id(b)) {
        (Some(first), Some(second)) if first.intersects(second) => 1,
        (Some(_), Some(_)) => 0,
        _ => NO_CELL,
    }
}

/// The leaf at a place on a face. 0 if there is no such face or place.
#[unsafe(no_mangle)]
pub extern "C" fn s2u_from_face_ij(face: u32, i: u32, j: u32) -> u64
    ensures cell { face < 6 → i < SIDE → j < SIDE → IsCell result }
    ensures leaf { face < 6 → i < SIDE → j < SIDE → level_of result ≡ 30 }
    ensures place { face < 6 → i < SIDE → j < SIDE → IsPlaceOf (first_leaf result) face i j }
    ensures none { (6 ≤ face) ⊎ ((SIDE ≤ i) ⊎ (SIDE ≤ j)) → result ≡ 0 }
{
    if face >= 6 || i >= SIDE || j >= SIDE {
        return 0;
    }
    CellId::from_face_ij(face as u8, i, j).id()
}

/// The square of a cell.
#[unsafe(no_mangle)]
pub extern "C" fn s2u_square_of(id: u64, square: &mut Square) -> i32
    ensures made { IsCell id → (result ≡ made)
        × IsSquareOf id square.new.face square.new.i square.new.j square.new.size }
    ensures no_cell { (IsCell id → ⊥) → (result ≡ no_cell) × (square.new ≡ square.old) }
{
    let Some(cell) = CellId::from_id(id) else {
        return NO_CELL;
    };
    let found = cell.square();
    *square = Square {
        face: u32::from(found.face),
        i: found.i,
        j: found.j,
        size: found.size,
    };
    MADE
}

/// The identifier of a cell, or 0.
fn id_or_zero(found: Option<CellId>) -> u64
    ensures some { MatchOption found (result ≡ 0) (λ cell. (result ≡ cell) × IsCell result) }
{
    match found {
        Some(cell) => cell.id(),
        None => 0,
    }
}

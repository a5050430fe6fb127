//! What the calls of `cells` answer about one cell, for many cells at once: an entry for each number, at its index.
ghost use Rattle.std.specs.Prelude.{◌≡◌, ◌+◌, ◌-◌, ◌*◌, ◌<◌, ◌≤◌, ℕ, MatchOption, drop, length, slice_index};
ghost use Rattle.std.specs.Prelude.{◌↔◌, IsTrue, slice_index_or};
ghost use Rattle.std.specs.List.{between};
ghost use Rattle.s2cell.specs.Cell.{IsCell, first_leaf, level_of, parent_of, size_of};
ghost use Rattle.s2union_c.specs.ManyCells.{HasParent, IsFirstWithout, IsLeafAt, IsOnFace, IsTokenField};
ghost use Rattle.s2union_c.specs.Working.ManyCells.{HasRelative};
ghost use Rattle.s2union_c.specs.ManyCells.{IsValueOr};
ghost use Rattle.s2union_c.specs.Working.ManyCells.{relative_of};
ghost use Rattle.s2union_c.specs.Status.{made, no_room};

use crate::status::{MADE, NO_ROOM};
use s2cell::{CellId, SIDE};

/// A cell that is found from another one.
#[derive(Clone, Copy, PartialEq, Eq)]
pub(crate) enum Relative {
    /// The cell of this level that contains it.
    Parent(u32),
    /// The first leaf in it.
    FirstLeaf,
    /// The last leaf in it.
    LastLeaf,
}

/// A leaf's face and its coordinates there.
#[repr(C)]
#[derive(Clone, Copy)]
pub struct Point {
    /// The face, 0 to 5.
    pub face: u32,
    /// The coordinate i.
    pub i: u32,
    /// The coordinate j.
    pub j: u32,
}

/// The entry of a number that is not a cell, among levels.
const NO_LEVEL: u8 = 255;

/// How many bytes a token's field has.
const FIELD: usize = 16;

/// For each number the cell of one level that contains it, as `s2u_parent` answers it. `bad` is the first index that
/// has none, or how many numbers there are.
#[unsafe(no_mangle)]
pub extern "C" fn s2u_parents(ids: &[u64], level: u32, out: &mut [u64], bad: &mut usize) -> i32
    ensures made { length ids.now ≤ length out.old → result ≡ made }
    ensures exact { length ids.now ≤ length out.old → (k : ℕ) → k < length ids.now
        → IsValueOr (HasParent level (slice_index ids.now k)) (parent_of (slice_index ids.now k) level) 0
        (slice_index out.new k) }
    ensures bad { length ids.now ≤ length out.old → IsFirstWithout (HasParent level) ids.now bad.new }
    ensures rest { drop (length ids.now) out.new ≡ drop (length ids.now) out.old }
    ensures room { length out.old < length ids.now
        → (result ≡ no_room) × (bad.new ≡ length ids.now) × (out.new ≡ out.old) }
{
    put_relatives(Relative::Parent(level), ids, out, bad)
}

/// For each number the first leaf of the cell, as `s2u_range_min` answers it. `bad` is as in `s2u_parents`.
#[unsafe(no_mangle)]
pub extern "C" fn s2u_range_mins(ids: &[u64], out: &mut [u64], bad: &mut usize) -> i32
    ensures made { length ids.now ≤ length out.old → result ≡ made }
    ensures exact { length ids.now ≤ length out.old → (k : ℕ) → k < length ids.now
        → IsValueOr (IsCell (slice_index ids.now k)) (2 * first_leaf (slice_index ids.now k) + 1) 0
        (slice_index out.new k) }
    ensures bad { length ids.now ≤ length out.old → IsFirstWithout IsCell ids.now bad.new }
    ensures rest { drop (length ids.now) out.new ≡ drop (length ids.now) out.old }
    ensures room { length out.old < length ids.now
        → (result ≡ no_room) × (bad.new ≡ length ids.now) × (out.new ≡ out.old) }
{
    put_relatives(Relative::FirstLeaf, ids, out, bad)
}

/// For each number the last leaf of the cell, as `s2u_range_max` answers it. `bad` is as in `s2u_parents`.
#[unsafe(no_mangle)]
pub extern "C" fn s2u_range_maxes(ids: &[u64], out: &mut [u64], bad: &mut usize) -> i32
    ensures made { length ids.now ≤ length out.old → result ≡ made }
    ensures exact { length ids.now ≤ length out.old → (k : ℕ) → k < length ids.now
        → IsValueOr (IsCell (slice_index ids.now k))
        (2 * (first_leaf (slice_index ids.now k) + size_of (slice_index ids.now k)) - 1) 0 (slice_index out.new k) }
    ensures bad { length ids.now ≤ length out.old → IsFirstWithout IsCell ids.now bad.new }
    ensures rest { drop (length ids.now) out.new ≡ drop (length ids.now) out.old }
    ensures room { length out.old < length ids.now
        → (result ≡ no_room) × (bad.new ≡ length ids.now) × (out.new ≡ out.old) }
{
    put_relatives(Relative::LastLeaf, ids, out, bad)
}

/// For each number the level of the cell, 0 to 30, or 255 if it is not a cell. `bad` is the index of the first that is
/// not, or how many numbers there are.
#[unsafe(no_mangle)]
pub extern "C" fn s2u_levels(ids: &[u64], out: &mut [u8], bad: &mut usize) -> i32
    ensures made { length ids.now ≤ length out.old → result ≡ made }
    ensures exact { length ids.now ≤ length out.old → (k : ℕ) → k < length ids.now
        → IsValueOr (IsCell (slice_index ids.now k)) (level_of (slice_index ids.now k)) NO_LEVEL
        (slice_index out.new k) }
    ensures bad { length ids.now ≤ length out.old → IsFirstWithout IsCell ids.now bad.new }
    ensures rest { drop (length ids.now) out.new ≡ drop (length ids.now) out.old }
    ensures room { length out.old < length ids.now
        → (result ≡ no_room) × (bad.new ≡ length ids.now) × (out.new ≡ out.old) }
{
    *bad = ids.len();
    if ids.len() > out.len() {
        return NO_ROOM;
    }
    let mut first = ids.len();
    for k in 0..ids.len() {
        match CellId::from_id(ids[k]) {
            Some(cell) => out[k] = cell.level(),
            None => {
                out[k] = NO_LEVEL;
                first = first.min(k);
            }
        }
    }
    *bad = first;
    MADE
}

/// For each number the token of the cell in a field of 16 bytes, with zeros after it; zeros alone if it is not a cell.
/// `bad` is as in `s2u_levels`.
#[unsafe(no_mangle)]
pub extern "C" fn s2u_token_fields(ids: &[u64], text: &mut [u8], bad: &mut usize) -> i32
    ensures made { 16 * length ids.now ≤ length text.old → result ≡ made }
    ensures exact { 16 * length ids.now ≤ length text.old → (k : ℕ) → k < length ids.now
        → IsTokenField (slice_index ids.now k) (between (16 * k) (16 * k + 16) text.new) }
    ensures bad { 16 * length ids.now ≤ length text.old → IsFirstWithout IsCell ids.now bad.new }
    ensures rest { drop (16 * length ids.now) text.new ≡ drop (16 * length ids.now) text.old }
    ensures room { length text.old < 16 * length ids.now
        → (result ≡ no_room) × (bad.new ≡ length ids.now) × (text.new ≡ text.old) }
{
    *bad = ids.len();
    if ids.len() > text.len() / FIELD {
        return NO_ROOM;
    }
    *bad = first_without(Relative::FirstLeaf, ids);
    for k in 0..ids.len() {
        put_field(ids[k], &mut text[FIELD * k..FIELD * k + FIELD]);
    }
    MADE
}

/// For each point its leaf, as `s2u_from_face_ij` answers it, or 0. `bad` is the index in the list of the first point
/// that is on no face, or how many points there are.
#[unsafe(no_mangle)]
pub extern "C" fn s2u_from_points(points: &[Point], out: &mut [u64], bad: &mut usize) -> i32
    ensures made { length points.now ≤ length out.old → result ≡ made }
    ensures exact { length points.now ≤ length out.old → (k : ℕ) (p : Point) → k < length points.now
        → IsLeafAt (slice_index_or points.now k p) (slice_index out.new k) }
    ensures bad { length points.now ≤ length out.old → IsFirstWithout IsOnFace points.now bad.new }
    ensures rest { drop (length points.now) out.new ≡ drop (length points.now) out.old }
    ensures room { length out.old < length points.now
        → (result ≡ no_room) × (bad.new ≡ length points.now) × (out.new ≡ out.old) }
{
    *bad = points.len();
    if points.len() > out.len() {
        return NO_ROOM;
    }
    *bad = first_off_its_face(points);
    for k in 0..points.len() {
        out[k] = leaf_at(points[k]);
    }
    MADE
}

/// The index in the list of the first point that is on no face, or how many points there are.
fn first_off_its_face(points: &[Point]) -> usize
    ensures { IsFirstWithout IsOnFace points.now result }
{
    for k in 0..points.len() {
        if !is_on_face(points[k]) {
            return k;
        }
    }
    points.len()
}

/// Whether the face and the coordinates are in range.
fn is_on_face(point: Point) -> bool
    ensures { IsTrue result ↔ IsOnFace point }
{
    point.face < 6 && point.i < SIDE && point.j < SIDE
}

/// The leaf at a point, or 0.
fn leaf_at(point: Point) -> u64
    ensures { IsLeafAt point result }
{
    if !is_on_face(point) {
        return 0;
    }
    CellId::from_face_ij(point.face as u8, point.i, point.j).id()
}

/// Writes the token of a cell and zeros after it; zeros alone if the number is not a cell.
fn put_field(id: u64, field: &mut [u8])
    requires { length field.old ≡ 16 }
    ensures token { IsTokenField id field.new }
    ensures len { length field.new ≡ 16 }
{
    match CellId::from_id(id) {
        Some(cell) => {
            cell.write_digits(field);
            field[cell.token_len()..].fill(0);
        }
        None => field.fill(0),
    }
}

/// The relatives of cells, where they have room; 0 for a number that has none.
fn put_relatives(which: Relative, ids: &[u64], out: &mut [u64], bad: &mut usize) -> i32
    ensures made { length ids.now ≤ length out.old → result ≡ made }
    ensures exact { length ids.now ≤ length out.old → (k : ℕ) → k < length ids.now
        → IsValueOr (HasRelative which (slice_index ids.now k)) (relative_of which (slice_index ids.now k)) 0
        (slice_index out.new k) }
    ensures bad { length ids.now ≤ length out.old → IsFirstWithout (HasRelative which) ids.now bad.new }
    ensures rest { drop (length ids.now) out.new ≡ drop (length ids.now) out.old }
    ensures room { length out.old < length ids.now
        → (result ≡ no_room) × (bad.new ≡ length ids.now) × (out.new ≡ out.old) }
{
    *bad = ids.len();
    if ids.len() > out.len() {
        return NO_ROOM;
    }
    let mut first = ids.len();
    for k in 0..ids.len() {
        match related(which, ids[k]) {
            Some(cell) => out[k] = cell.id(),
            None => {
                out[k] = 0;
                first = first.min(k);
            }
        }
    }
    *bad = first;
    MADE
}

/// The index of the first number that has no such relative, or how many numbers there are.
fn first_without(which: Relative, ids: &[u64]) -> usize
    ensures { IsFirstWithout (HasRelative which) ids.now result }
{
    for k in 0..ids.len() {
        if related(which, ids[k]).is_none() {
            return k;
        }
    }
    ids.len()
}

/// The relative of a cell.
fn related(which: Relative, id: u64) -> Option<CellId>
    ensures { MatchOption result (HasRelative which id → ⊥)
        (λ cell. HasRelative which id × (cell ≡ relative_of which id)) }
{
    let cell = CellId::from_id(id)?;
    match which {
        Relative::Parent(level) if level <= u32::from(cell.level()) => Some(cell.parent(
            level as u8,
        )),
        Relative::Parent(_) => None,
        Relative::FirstLeaf => Some(cell.range_min()),
        Relative::LastLeaf => Some(cell.range_max()),
    }
}

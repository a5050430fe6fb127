//! Making unions from a list or a range, the ancestors of a union's cells, and its cells cut to levels.
ghost use Rattle.std.specs.Prelude.{◌≡◌, ◌+◌, ◌*◌, ◌<◌, ◌≤◌, ◌↔◌, ℕ, IsTrue, All, List, length};
ghost use Rattle.s2cell.specs.Cell.{IsCell, first_leaf, size_of};
ghost use Rattle.s2list.specs.Union.{IsLocal, IsNormalForm, between, has_leaf};
ghost use Rattle.s2list.specs.Denorm.{denormalised};
ghost use Rattle.s2list.specs.Search.{IsFirstWrong};
ghost use Rattle.s2room.specs.Ancestors.{AreHolders};
ghost use Rattle.s2room.specs.Normalising.{IsNormalisedIn};
ghost use Rattle.s2union_c.specs.Ends.{AreEnds};
ghost use Rattle.s2union_c.specs.Results.{KeepsRest, Made, MadeInPlace, MadeOne, Refused};
ghost use Rattle.s2union_c.specs.Cutting.{IsCutting};
ghost use Rattle.s2union_c.specs.Status.{bad_argument, made, no_cell};

use crate::results::{bound, put, put_cells, room_status};
use crate::status::{BAD_ARGUMENT, MADE, NO_CELL, NO_MEMORY};
use s2cell::CellId;
use s2list::{IdList, denormalise, first_wrong};
use s2room::{ancestors, union_of_many};
use s2union::CellUnion;
use std::alloc::Global;

/// How many levels there are.
pub(crate) const LEVELS: usize = 31;

/// Normalizes a list of cells in place, without taking memory. The cells may be in any order, repeated, or one in
/// another. `len` is then the number of cells at its front, or the index of the first number that is not a cell. What
/// follows the cells has no meaning.
#[unsafe(no_mangle)]
pub extern "C" fn s2u_normalise(ids: &mut [u64], len: &mut usize) -> i32
    ensures made { All IsCell ids.old → (result ≡ made) × IsNormalisedIn ids.old ids.new len.new }
    ensures no_cell { (All IsCell ids.old → ⊥)
        → (result ≡ no_cell) × (ids.new ≡ ids.old) × IsFirstWrong ids.old len.new }
{
    if let Some(k) = first_wrong(&IdList { ids: &*ids }) {
        *len = k;
        return NO_CELL;
    }
    *len = s2room::normalise(ids);
    MADE
}

/// The union of many lists of cells that lie one after another in `ids`: each ends at the next of `ends`, and the last
/// one with `ids`. Lists that ascend, as those of unions do, are merged in pairs; others are sorted first, and short
/// ones together. `work` is room for twice as many numbers as `ids` has, and means nothing afterward. If a number is
/// not a cell, `len` is the place of the first.
#[unsafe(no_mangle)]
pub extern "C" fn s2u_union_of_many(
    ids: &[u64],
    ends: &[usize],
    work: &mut [u64],
    out: &mut [u64],
    len: &mut usize,
) -> i32
    ensures made { AreEnds ends.now (length ids.now) → 2 * length ids.now ≤ length work.old → All IsCell ids.now
        → (xs : List ℕ) × IsNormalForm (has_leaf ids.now) xs × Made result xs out.old out.new len.new }
    ensures no_cell { AreEnds ends.now (length ids.now) → 2 * length ids.now ≤ length work.old
        → (All IsCell ids.now → ⊥) → (result ≡ no_cell) × (out.new ≡ out.old) × IsFirstWrong ids.now len.new }
    ensures argument { (AreEnds ends.now (length ids.now) → 2 * length ids.now ≤ length work.old → ⊥)
        → Refused result bad_argument out.old out.new len.new }
    ensures most { len.new ≤ length ids.now }
{
    *len = 0;
    let n = ids.len();
    if !are_ends(ends, n) {
        return BAD_ARGUMENT;
    }
    if work.len() / 2 < n {
        return BAD_ARGUMENT;
    }
    if let Some(k) = first_wrong(&IdList { ids }) {
        *len = k;
        return NO_CELL;
    }
    let (room, rest) = work.split_at_mut(n);
    let made = union_of_many(ids, ends, room, &mut rest[..n]);
    put(&room[..made], out, len)
}

/// Whether lists that lie one after another can end at these places, the last one at the place `n`.
fn are_ends(ends: &[usize], n: usize) -> bool
    ensures { IsTrue result ↔ AreEnds ends.now n }
{
    let mut start = 0;
    for end in ends {
        if *end < start {
            return false;
        }
        start = *end;
    }
    start == n
}

/// All leaves from the first of one cell to the last of another, across faces too.
#[unsafe(no_mangle)]
pub extern "C" fn s2u_range(
    alloc: Global,
    first: u64,
    last: u64,
    out: &mut [u64],
    len: &mut usize,
) -> i32
    ensures made { IsCell first → IsCell last → first_leaf first < first_leaf last + size_of last
        → MadeOne result (IsNormalForm (between (first_leaf first) (first_leaf last + size_of last)))
        out.old out.new len.new }
    ensures no_cell { (IsCell first → IsCell last → ⊥) → Refused result no_cell out.old out.new len.new }
    ensures order { IsCell first → IsCell last → first_leaf last + size_of last ≤ first_leaf first
        → Refused result bad_argument out.old out.new len.new }
    ensures most { len.new ≤ 184 }
{
    *len = 0;
    let (Some(x), Some(y)) = (CellId::from_id(first), CellId::from_id(last)) else {
        return NO_CELL;
    };
    if x.first_leaf() >= y.end_leaf() {
        return BAD_ARGUMENT;
    }
    match CellUnion::from_range(alloc, x, y) {
        Ok(union) => put_cells(union.cells(), out, len),
        Err(_) => NO_MEMORY,
    }
}

/// The cells of a union and all their ancestors, ascending, each once: the keys of an index, by
/// `s2room::laws::law_of_indexes`. Of a list that is not a union the result means nothing.
#[unsafe(no_mangle)]
pub extern "C" fn s2u_ancestors(ids: &[u64], out: &mut [u64], len: &mut usize) -> i32
    ensures made { IsLocal ids.now → MadeInPlace result (AreHolders ids.now) out.old out.new len.new }
    ensures any { KeepsRest result out.old out.new len.new }
    ensures most { len.new ≤ 31 * length ids.now }
{
    let most = bound(0, LEVELS, ids.len());
    let room = most.min(out.len());
    let n = ancestors(&IdList { ids }, &mut out[..room]);
    *len = n.min(most);
    room_status(*len, out.len())
}

/// How many cells `s2u_denormalised` gives.
#[unsafe(no_mangle)]
pub extern "C" fn s2u_denormalised_len(ids: &[u64], min: u32, modulus: u32, len: &mut u64) -> i32
    ensures made { IsLocal ids.now → IsCutting min modulus → len.new ≡ length (denormalised min modulus ids.now) }
    ensures status { IsCutting min modulus → result ≡ made }
    ensures argument { (IsCutting min modulus → ⊥) → (result ≡ bad_argument) × (len.new ≡ 0) }
{
    *len = 0;
    if !is_cutting(min, modulus) {
        return BAD_ARGUMENT;
    }
    *len = denormalise(&IdList { ids }, min as u8, modulus as u8, &mut []) as u64;
    MADE
}

/// The cells of a union, each cut to the least level that is at least its own, is at least `min`, and differs from
/// `min` by a multiple of `modulus`; to leaves if there is no such level. `min` is at most 30, `modulus` 1 to 3. Of a
/// list that is not a union the result means nothing.
#[unsafe(no_mangle)]
pub extern "C" fn s2u_denormalised(
    ids: &[u64],
    min: u32,
    modulus: u32,
    out: &mut [u64],
    len: &mut usize,
) -> i32
    ensures made { IsLocal ids.now → IsCutting min modulus
        → MadeInPlace result (λ list. list ≡ denormalised min modulus ids.now) out.old out.new len.new }
    ensures any { IsCutting min modulus → KeepsRest result out.old out.new len.new }
    ensures argument { (IsCutting min modulus → ⊥) → Refused result bad_argument out.old out.new len.new }
{
    *len = 0;
    if !is_cutting(min, modulus) {
        return BAD_ARGUMENT;
    }
    *len = denormalise(&IdList { ids }, min as u8, modulus as u8, out);
    room_status(*len, out.len())
}

/// Whether these numbers are in range, so that a union can be cut by them.
fn is_cutting(min: u32, modulus: u32) -> bool
    ensures { IsTrue result ↔ IsCutting min modulus }
{
    min <= 30 && 0 < modulus && modulus <= 3
}

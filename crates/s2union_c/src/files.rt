//! Union files, which S2's `S2CellUnion::Encode` writes too: the byte 1, the number of cells in eight bytes, and eight
//! bytes for each cell, the lowest byte first. Questions are answered from a file's bytes where they lie, at any
//! address.
ghost use Rattle.std.specs.Prelude.{◌≡◌, ◌+◌, ◌*◌, ◌<◌, ◌≤◌, ℕ, All, MatchResult, length, slice_index, drop};
ghost use Rattle.s2cell.specs.Cell.{IsCell, covers};
ghost use Rattle.s2list.specs.Union.{IsLocal, IsNormalForm, IsWithin, ShareSome, has_leaf};
ghost use Rattle.s2list.specs.Count.{count_below};
ghost use Rattle.s2list.specs.Search.{IsFirstWrong};
ghost use Rattle.s2file.specs.File.{IsCellFile, IsFramed, file_ids, file_text};
ghost use Rattle.s2room.specs.Ancestors.{AreHolders};
ghost use Rattle.s2room.specs.Normalising.{IsNormalisedIn};
ghost use Rattle.s2file.specs.Numbers.{numbers_in};
ghost use Rattle.s2union_c.specs.Files.{Decoded, IsFrameFault};
ghost use Rattle.s2union_c.specs.Results.{KeepsRest, Made, MadeInPlace, MadeOne, Refused};
ghost use Rattle.s2union_c.specs.Status.{IsAnswerTo, IsAnswer, IsBit, bad_argument, made, no_cell};
ghost use Rattle.s2union_c.specs.Status.{file_cell, no_room};

use crate::many::answer_cells;
use crate::results::{bound, put_cells, room_status};
use crate::status::{
    BAD_ARGUMENT, FILE_CELL, FILE_SHORT, FILE_TRAILING, FILE_VERSION, MADE, NO_CELL, NO_MEMORY,
    NO_ROOM, answer,
};
use crate::unions::LEVELS;
use byteorder::{ByteOrder, LittleEndian};
use s2cell::{CellId, LEAVES};
use s2file::{FileFault, FileIds, HEAD_SIZE, VERSION, cells_of, numbers_of, read_numbers};
use s2list::{Cells, Listed, NUMBER_SIZE, Question, first_wrong, is_union};
use s2room::ancestors;
use s2union::normalise;
use std::alloc::Global;

/// The bytes of a file with these numbers, `9 + 8 n` of them for n numbers: of the cells of a union, the union's file.
/// Takes no memory, and checks nothing.
#[unsafe(no_mangle)]
pub extern "C" fn s2u_encode(ids: &[u64], out: &mut [u8], len: &mut usize) -> i32
    ensures made { Made result (file_text ids.now) out.old out.new len.new }
    ensures size { len.new ≡ 9 + 8 * length ids.now }
{
    let size = HEAD_SIZE + NUMBER_SIZE * ids.len();
    *len = size;
    if size > out.len() {
        return NO_ROOM;
    }
    write_file(ids, &mut out[..size]);
    MADE
}

/// Fills a list with the bytes of a file with these numbers, which are as many.
fn write_file(ids: &[u64], out: &mut [u8])
    requires { length out.old ≡ 9 + 8 * length ids.now }
    ensures { out.new ≡ file_text ids.now }
{
    out[0] = VERSION;
    LittleEndian::write_u64(&mut out[1..], ids.len() as u64);
    LittleEndian::write_u64_into(ids, &mut out[HEAD_SIZE..]);
}

/// The union that a file stands for. The file's cells may be in any order. If they are not a union already, they are
/// normalized in the room, if it has room for all of them; else in memory of the call. The numbers after the result,
/// up to as many as the file has, then have no meaning.
#[unsafe(no_mangle)]
pub extern "C" fn s2u_decode(alloc: Global, bytes: &[u8], out: &mut [u64], len: &mut usize) -> i32
    ensures made { IsCellFile bytes.now → Decoded result (file_ids bytes.now) out.old out.new len.new }
    ensures fault { (IsFramed bytes.now → ⊥) → IsFrameFault bytes.now result × (len.new ≡ 0) × (out.new ≡ out.old) }
    ensures wrong { IsFramed bytes.now → (All IsCell (file_ids bytes.now) → ⊥)
        → Refused result file_cell out.old out.new len.new }
    ensures most { len.new ≤ length (file_ids bytes.now) }
{
    *len = 0;
    match bytes_after_head(bytes) {
        Ok(numbers) => decode_numbers(alloc, numbers, out, len),
        Err(status) => status,
    }
}

/// The union of the cells in bytes, as `s2u_decode` answers it.
fn decode_numbers(alloc: Global, bytes: &[u8], out: &mut [u64], len: &mut usize) -> i32
    requires len { len.old ≡ 0 }
    requires whole { length bytes.now ≡ 8 * length (numbers_in bytes.now) }
    ensures made { All IsCell (numbers_in bytes.now) → Decoded result (numbers_in bytes.now) out.old out.new len.new }
    ensures wrong { (All IsCell (numbers_in bytes.now) → ⊥) → Refused result file_cell out.old out.new len.new }
    ensures most { len.new ≤ length (numbers_in bytes.now) }
{
    let ids = FileIds { bytes };
    if is_union(&ids) {
        return put_numbers(bytes, out, len);
    }
    if let Some(_) = first_wrong(&ids) {
        return FILE_CELL;
    }
    let n = ids.len();
    if n <= out.len() {
        *len = normalise_numbers(bytes, &mut out[..n]);
        return MADE;
    }
    put_normalised(alloc, bytes, out, len)
}

/// Writes the numbers of bytes to the front of the room, if they fit, and tells how many there are.
fn put_numbers(bytes: &[u8], out: &mut [u64], len: &mut usize) -> i32
    requires { length bytes.now ≡ 8 * length (numbers_in bytes.now) }
    ensures { Made result (numbers_in bytes.now) out.old out.new len.new }
{
    let n = FileIds { bytes }.len();
    *len = n;
    if n > out.len() {
        return NO_ROOM;
    }
    read_numbers(bytes, &mut out[..n]);
    MADE
}

/// Fills a list with the cells of bytes, which are as many, makes its front the union that has their leaves, and
/// answers how many cells that union has.
fn normalise_numbers(bytes: &[u8], out: &mut [u64]) -> usize
    requires size { length bytes.now ≡ 8 * length out.old }
    requires cells { All IsCell (numbers_in bytes.now) }
    ensures { IsNormalisedIn (numbers_in bytes.now) out.new result }
{
    read_numbers(bytes, out);
    s2room::normalise(out)
}

/// Writes the union of the cells in bytes to the front of the room, if it fits, and tells how many cells it has. Takes
/// memory for all cells of the bytes.
fn put_normalised(alloc: Global, bytes: &[u8], out: &mut [u64], len: &mut usize) -> i32
    requires len { len.old ≡ 0 }
    requires cells { All IsCell (numbers_in bytes.now) }
    ensures { MadeOne result (IsNormalForm (has_leaf (numbers_in bytes.now))) out.old out.new len.new }
{
    match cells_of(alloc, bytes) {
        Ok(cells) => put_cells(normalise(cells).cells(), out, len),
        Err(_) => NO_MEMORY,
    }
}

/// Whether the bytes are the file that `s2u_encode` writes for some union: 1 if they are, 0 for any other file that
/// `s2u_decode` takes.
#[unsafe(no_mangle)]
pub extern "C" fn s2u_file_check(bytes: &[u8]) -> i32
    ensures answer { IsCellFile bytes.now → IsAnswerTo result (IsLocal (file_ids bytes.now)) }
    ensures fault { (IsFramed bytes.now → ⊥) → IsFrameFault bytes.now result }
    ensures wrong { IsFramed bytes.now → (All IsCell (file_ids bytes.now) → ⊥) → result ≡ file_cell }
{
    match bytes_after_head(bytes) {
        Ok(numbers) => {
            let ids = FileIds { bytes: numbers };
            match first_wrong(&ids) {
                Some(_) => FILE_CELL,
                None => answer(is_union(&ids)),
            }
        }
        Err(status) => status,
    }
}

/// How many cells a file has.
#[unsafe(no_mangle)]
pub extern "C" fn s2u_file_count(bytes: &[u8], count: &mut u64) -> i32
    ensures made { IsFramed bytes.now → (result ≡ made) × (count.new ≡ length (file_ids bytes.now)) }
    ensures fault { (IsFramed bytes.now → ⊥) → IsFrameFault bytes.now result × (count.new ≡ 0) }
{
    *count = 0;
    match bytes_after_head(bytes) {
        Ok(numbers) => {
            *count = FileIds { bytes: numbers }.len() as u64;
            MADE
        }
        Err(status) => status,
    }
}

/// How many of the `6 * 4^30` leaves the union of a file has.
#[unsafe(no_mangle)]
pub extern "C" fn s2u_file_leaf_count(bytes: &[u8], leaves: &mut u64) -> i32
    ensures made { IsFramed bytes.now → result ≡ made }
    ensures exact { IsFramed bytes.now → IsLocal (file_ids bytes.now)
        → leaves.new ≡ count_below (has_leaf (file_ids bytes.now)) LEAVES }
    ensures fault { (IsFramed bytes.now → ⊥) → IsFrameFault bytes.now result × (leaves.new ≡ 0) }
{
    *leaves = 0;
    match bytes_after_head(bytes) {
        Ok(numbers) => {
            *leaves = s2list::leaf_count(&FileIds { bytes: numbers });
            MADE
        }
        Err(status) => status,
    }
}

/// The identifier at index `k` in a file.
#[unsafe(no_mangle)]
pub extern "C" fn s2u_file_cell(bytes: &[u8], k: u64, id: &mut u64) -> i32
    ensures made { IsFramed bytes.now → k < length (file_ids bytes.now) → (result ≡ made)
        × (id.new ≡ slice_index (file_ids bytes.now) k) }
    ensures argument { IsFramed bytes.now → length (file_ids bytes.now) ≤ k → (result ≡ bad_argument) × (id.new ≡ 0) }
    ensures fault { (IsFramed bytes.now → ⊥) → IsFrameFault bytes.now result × (id.new ≡ 0) }
{
    *id = 0;
    match bytes_after_head(bytes) {
        Ok(numbers) => {
            let ids = FileIds { bytes: numbers };
            if k >= ids.len() as u64 {
                return BAD_ARGUMENT;
            }
            *id = ids.id(k as usize);
            MADE
        }
        Err(status) => status,
    }
}

/// Whether the union of a file has all leaves of a cell. Logarithmic.
#[unsafe(no_mangle)]
pub extern "C" fn s2u_file_contains_cell(bytes: &[u8], cell: u64) -> i32
    ensures exact { IsFramed bytes.now → IsLocal (file_ids bytes.now) → IsCell cell
        → IsAnswerTo result (IsWithin (covers cell) (has_leaf (file_ids bytes.now))) }
    ensures answer { IsFramed bytes.now → IsCell cell → IsAnswer result }
    ensures no_cell { IsFramed bytes.now → (IsCell cell → ⊥) → result ≡ no_cell }
    ensures fault { (IsFramed bytes.now → ⊥) → IsFrameFault bytes.now result }
{
    match bytes_after_head(bytes) {
        Ok(numbers) => match CellId::from_id(cell) {
            Some(part) => answer(s2list::contains_cell(&FileIds { bytes: numbers }, part)),
            None => NO_CELL,
        },
        Err(status) => status,
    }
}

/// Whether the union of a file has all leaves of each cell in turn, as `s2u_contains_cells`. `bad` is 0 if the frame of
/// the file is wrong.
#[unsafe(no_mangle)]
pub extern "C" fn s2u_file_contains_cells(
    bytes: &[u8],
    cells: &[u64],
    answers: &mut [u8],
    bad: &mut usize,
) -> i32
    ensures made { IsFramed bytes.now → All IsCell cells.now → length cells.now ≤ length answers.old
        → (result ≡ made) × (bad.new ≡ length cells.now) }
    ensures exact { IsFramed bytes.now → IsLocal (file_ids bytes.now) → All IsCell cells.now
        → length cells.now ≤ length answers.old → (k : ℕ) → k < length cells.now
        → IsBit (slice_index answers.new k)
        (IsWithin (covers (slice_index cells.now k)) (has_leaf (file_ids bytes.now))) }
    ensures bits { IsFramed bytes.now → All IsCell cells.now → length cells.now ≤ length answers.old
        → (k : ℕ) → k < length cells.now → slice_index answers.new k ≤ 1 }
    ensures rest { drop (length cells.now) answers.new ≡ drop (length cells.now) answers.old }
    ensures no_cell { IsFramed bytes.now → (All IsCell cells.now → ⊥) → (result ≡ no_cell)
        × IsFirstWrong cells.now bad.new × (answers.new ≡ answers.old) }
    ensures room { IsFramed bytes.now → All IsCell cells.now → length answers.old < length cells.now
        → (result ≡ no_room) × (bad.new ≡ length cells.now) × (answers.new ≡ answers.old) }
    ensures fault { (IsFramed bytes.now → ⊥) → IsFrameFault bytes.now result × (bad.new ≡ 0)
        × (answers.new ≡ answers.old) }
{
    *bad = 0;
    match bytes_after_head(bytes) {
        Ok(numbers) => {
            let ids = FileIds { bytes: numbers };
            answer_cells(Question::Contains, &ids, cells, answers, bad)
        }
        Err(status) => status,
    }
}

/// Whether the union of a file has a leaf of a cell. Logarithmic.
#[unsafe(no_mangle)]
pub extern "C" fn s2u_file_intersects_cell(bytes: &[u8], cell: u64) -> i32
    ensures exact { IsFramed bytes.now → IsLocal (file_ids bytes.now) → IsCell cell
        → IsAnswerTo result (ShareSome (covers cell) (has_leaf (file_ids bytes.now))) }
    ensures answer { IsFramed bytes.now → IsCell cell → IsAnswer result }
    ensures no_cell { IsFramed bytes.now → (IsCell cell → ⊥) → result ≡ no_cell }
    ensures fault { (IsFramed bytes.now → ⊥) → IsFrameFault bytes.now result }
{
    match bytes_after_head(bytes) {
        Ok(numbers) => match CellId::from_id(cell) {
            Some(part) => answer(s2list::intersects_cell(&FileIds { bytes: numbers }, part)),
            None => NO_CELL,
        },
        Err(status) => status,
    }
}

/// Whether the union of one file has all leaves of the union of another.
#[unsafe(no_mangle)]
pub extern "C" fn s2u_file_contains(xs: &[u8], ys: &[u8]) -> i32
    ensures exact { IsFramed xs.now → IsFramed ys.now → IsLocal (file_ids xs.now) → IsLocal (file_ids ys.now)
        → IsAnswerTo result (IsWithin (has_leaf (file_ids ys.now)) (has_leaf (file_ids xs.now))) }
    ensures answer { IsFramed xs.now → IsFramed ys.now → IsAnswer result }
    ensures first { (IsFramed xs.now → ⊥) → IsFrameFault xs.now result }
    ensures second { IsFramed xs.now → (IsFramed ys.now → ⊥) → IsFrameFault ys.now result }
{
    let whole = match bytes_after_head(xs) {
        Ok(numbers) => FileIds { bytes: numbers },
        Err(status) => return status,
    };
    let part = match bytes_after_head(ys) {
        Ok(numbers) => FileIds { bytes: numbers },
        Err(status) => return status,
    };
    answer(s2list::contains(&whole, &part))
}

/// Whether the unions of two files share a leaf.
#[unsafe(no_mangle)]
pub extern "C" fn s2u_file_intersects(xs: &[u8], ys: &[u8]) -> i32
    ensures exact { IsFramed xs.now → IsFramed ys.now → IsLocal (file_ids xs.now) → IsLocal (file_ids ys.now)
        → IsAnswerTo result (ShareSome (has_leaf (file_ids xs.now)) (has_leaf (file_ids ys.now))) }
    ensures answer { IsFramed xs.now → IsFramed ys.now → IsAnswer result }
    ensures first { (IsFramed xs.now → ⊥) → IsFrameFault xs.now result }
    ensures second { IsFramed xs.now → (IsFramed ys.now → ⊥) → IsFrameFault ys.now result }
{
    let first = match bytes_after_head(xs) {
        Ok(numbers) => FileIds { bytes: numbers },
        Err(status) => return status,
    };
    let second = match bytes_after_head(ys) {
        Ok(numbers) => FileIds { bytes: numbers },
        Err(status) => return status,
    };
    answer(s2list::intersects(&first, &second))
}

/// The cells of a file's union and all their ancestors, ascending, each once. Of a file that is not the file of a union
/// the result means nothing.
#[unsafe(no_mangle)]
pub extern "C" fn s2u_file_ancestors(bytes: &[u8], out: &mut [u64], len: &mut usize) -> i32
    ensures made { IsFramed bytes.now → IsLocal (file_ids bytes.now)
        → MadeInPlace result (AreHolders (file_ids bytes.now)) out.old out.new len.new }
    ensures any { IsFramed bytes.now → KeepsRest result out.old out.new len.new }
    ensures most { len.new ≤ 31 * length (file_ids bytes.now) }
    ensures fault { (IsFramed bytes.now → ⊥) → IsFrameFault bytes.now result × (len.new ≡ 0) × (out.new ≡ out.old) }
{
    *len = 0;
    match bytes_after_head(bytes) {
        Ok(numbers) => {
            let ids = FileIds { bytes: numbers };
            let most = bound(0, LEVELS, ids.len());
            let room = most.min(out.len());
            let n = ancestors(&ids, &mut out[..room]);
            *len = n.min(most);
            room_status(*len, out.len())
        }
        Err(status) => status,
    }
}

/// The bytes after the head of a file, if there are as many as the head says.
fn bytes_after_head(bytes: &[u8]) -> Result<&[u8], i32>
    ensures { MatchResult result (λ numbers. IsFramed bytes.now × (numbers.now ≡ drop 9 bytes.now))
        (λ status. IsFrameFault bytes.now status) }
{
    match numbers_of(bytes) {
        Ok(numbers) => Ok(numbers),
        Err(FileFault::Version) => Err(FILE_VERSION),
        Err(FileFault::Trailing) => Err(FILE_TRAILING),
        Err(_) => Err(FILE_SHORT),
    }
}

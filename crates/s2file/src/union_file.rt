//! The union file: a union of cells as bytes.
ghost use Rattle.std.specs.Prelude.{◌≡◌, ◌≤◌, ◌⊎◌, ℕ, All, Bool, length, drop, MatchResult, IfOk};
ghost use Rattle.s2cell.specs.Cell.{IsCell};
ghost use Rattle.s2list.specs.Union.{has_leaf, IsLocal};
ghost use Rattle.s2file.specs.declared.union_file.TheConstants.{MOST_FILE};
ghost use Rattle.s2file.specs.File.{Bytes, File, HasFault, HasFrame, HasFrameFault, HasHead, HasWrongNumber, IsFramed};
ghost use Rattle.s2file.specs.File.{file_text, stated_count};
ghost use Rattle.s2file.specs.Numbers.{numbers_in};

use crate::fault::FileFault;
use crate::file_ids::FileIds;
use s2cell::CellId;
use s2list::{Cells, Listed, NUMBER_SIZE, number, put_number};
use s2union::{CellUnion, normalise};
use std::alloc::{AllocError, Global};

/// The byte that a file begins with.
pub const VERSION: u8 = 1;

/// How many bytes come before the identifiers: the version and the count.
pub const HEAD_SIZE: usize = 9;

/// How many identifiers a file may hold: the greatest count that `decode` accepts.
pub const MOST_FILE: u64 = 1_000_000;

/// The size of the longest file, in bytes: the head and `MOST_FILE` identifiers.
pub const MOST_SIZE: usize = HEAD_SIZE + NUMBER_SIZE * MOST_FILE as usize;

/// The union that a file stands for: the normal form of the leaves of its cells.
///
/// The cells may be in any order, repeated, contained in one another or unmerged. All other bytes are refused, and the
/// fault says which check failed first: there is a first byte, and it is 1; there are at least nine bytes; the count is
/// at most `MOST_FILE`; exactly that many identifiers follow; each is the identifier of a cell. Takes one list of
/// cells, once the first four checks have passed. One pass over the bytes, and a sort, which costs almost nothing if
/// the cells ascend.
pub fn decode(alloc: Global, bytes: &[u8]) -> Result<CellUnion, FileFault>
    ensures answer { MatchResult result (λ union. File bytes.now (has_leaf union.cells))
        (λ fault. HasFault bytes.now fault) }
    ensures exact { (S : ℕ → Bool) → File bytes.now S →
        MatchResult result (λ union. (x : ℕ) → has_leaf union.cells x ≡ S x) (λ fault. fault ≡ FileFault.Memory) }
    ensures local { IfOk result (λ union. IsLocal union.cells) }
{
    let numbers = checked_numbers(bytes)?;
    let cells = cells_of(alloc, numbers)?;
    Ok(normalise(cells))
}

/// The bytes after the head, of a file of at most `MOST_FILE` numbers. Checks all but these numbers.
fn checked_numbers(bytes: &[u8]) -> Result<&[u8], FileFault>
    ensures { MatchResult result (λ numbers. HasFrame bytes.now × (numbers.now ≡ drop 9 bytes.now))
        (λ fault. HasFault bytes.now fault) }
{
    let count = count_of(bytes)?;
    if count > MOST_FILE {
        return Err(FileFault::Count);
    }
    after_head(bytes, count)
}

/// The bytes after the head of a file, if there are as many as the head says: eight for each number, however many they
/// are. The fault says which check failed first: there is a first byte, and it is 1; there are at least nine bytes;
/// exactly the stated number of identifiers follow. Whether these are cells isn't looked at.
#[inline(always)]
pub fn numbers_of(bytes: &[u8]) -> Result<&[u8], FileFault>
    ensures { MatchResult result (λ numbers. IsFramed bytes.now × (numbers.now ≡ drop 9 bytes.now))
        (λ fault. HasFrameFault bytes.now fault) }
{
    let count = count_of(bytes)?;
    after_head(bytes, count)
}

/// The count that the head of a file states.
#[inline(always)]
fn count_of(bytes: &[u8]) -> Result<u64, FileFault>
    ensures { MatchResult result (λ count. HasHead bytes.now × (count ≡ stated_count bytes.now))
        (λ fault. HasFrameFault bytes.now fault × (HasHead bytes.now → ⊥)) }
{
    match bytes.first() {
        None => return Err(FileFault::Short),
        Some(&version) if version != VERSION => return Err(FileFault::Version),
        Some(_) => {}
    }
    if bytes.len() < HEAD_SIZE {
        return Err(FileFault::Short);
    }
    Ok(number(&bytes[1..]))
}

/// The bytes after the head, if they are `count` numbers, as the head states.
#[inline(always)]
fn after_head(bytes: &[u8], count: u64) -> Result<&[u8], FileFault>
    requires head { HasHead bytes.now }
    requires count { count ≡ stated_count bytes.now }
    ensures { MatchResult result (λ numbers. IsFramed bytes.now × (numbers.now ≡ drop 9 bytes.now))
        (λ fault. HasFrameFault bytes.now fault) }
{
    let numbers = &bytes[HEAD_SIZE..];
    let size = numbers.len() as u64;
    if count > size / 8 {
        return Err(FileFault::Short);
    }
    if size > 8 * count {
        return Err(FileFault::Trailing);
    }
    Ok(numbers)
}

/// The cells with these identifiers, in the order of the bytes.
pub fn cells_of(alloc: Global, numbers: &[u8]) -> Result<Vec<CellId>, FileFault>
    ensures { MatchResult result
        (λ cells. (cells.items ≡ numbers_in numbers.now) × All IsCell (numbers_in numbers.now))
        (λ fault. (fault ≡ FileFault.Memory) ⊎ ((fault ≡ FileFault.Cell) × HasWrongNumber (numbers_in numbers.now))) }
{
    let ids = FileIds { bytes: numbers };
    let len = ids.len();
    let mut cells = Vec::with_capacity(alloc, len)?;
    for k in 0..len {
        match CellId::from_id(ids.id(k)) {
            Some(cell) => cells.push_reserved(cell),
            None => return Err(FileFault::Cell),
        }
    }
    Ok(cells)
}

/// The file of a union: its cells in ascending order, however many they are.
///
/// Two unions with the same leaves have the same file. `decode` reads it back, if the union has at most `MOST_FILE`
/// cells. Takes one list of nine bytes plus eight for each cell.
pub fn encode(alloc: Global, union: &CellUnion) -> Result<Vec<u8>, AllocError>
    ensures text { IfOk result (λ bytes. bytes.items ≡ file_text union.now.cells) }
    ensures bytes { IfOk result (λ bytes. Bytes (has_leaf union.now.cells) bytes.items) }
    ensures back { length union.now.cells ≤ MOST_FILE →
        IfOk result (λ bytes. File bytes.items (has_leaf union.now.cells)) }
{
    let cells = union.cells();
    let size = cells
        .len()
        .saturating_mul(NUMBER_SIZE)
        .saturating_add(HEAD_SIZE);
    let mut bytes = Vec::with_capacity(alloc, size)?;
    bytes.push(VERSION)?;
    put_number(&mut bytes, cells.len() as u64)?;
    for cell in cells {
        put_number(&mut bytes, cell.id())?;
    }
    Ok(bytes)
}

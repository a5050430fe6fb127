//! The parts of a session file, each taken from the front of the bytes that are left.
ghost use Rattle.std.specs.Prelude.{◌≡◌, ◌*◌, ◌+◌, ◌<◌, ◌≤◌, length, map, drop};
ghost use Rattle.std.specs.Prelude.{MatchResult, MatchBool, OnOk, vec_len};
ghost use Rattle.std.specs.Vec.{vec_capacity};
ghost use Rattle.std.specs.List.Sorted.{IsStrictlyIncreasing};
ghost use Rattle.s2list.specs.Union.{Union};
ghost use Rattle.s2list.specs.Numbers.{number_text};
ghost use Rattle.s2shelf.specs.OpenedFile.{Left};
ghost use Rattle.s2session.specs.Session.{list_text, move_text, moves_text};
ghost use Rattle.s2edit.specs.Content.{diff_of, AreCells, IsMove, IsRegisterList};
ghost use Rattle.s2edit.specs.Diff.{AreApart};
ghost use Rattle.s2session.specs.Working.SessionParts.{Begins, AreCounted, AreMoves, AreRegisters, IsRow};
ghost use Rattle.s2session.specs.Working.SessionParts.{registers_text, row_text, byte_text, identifiers_text, IsByte};
ghost use Rattle.s2session.specs.Working.SessionParts.{IsNumber, SpellsMore, SpellsWrong};
ghost use Rattle.s2session.specs.Working.Taking.{Reads, Refuses};
ghost use Rattle.s2session.specs.Working.Source.{Ahead};

use crate::fault::ReadFault;
use crate::source::Buffer;
use s2cell::CellId;
use s2edit::{Move, SESSION_CELLS, SESSION_CHANGES, SESSION_REGISTERS};
use s2list::{NUMBER_SIZE, number};
use s2shelf::OpenedFile;
use s2union::{CellUnion, is_normalized};
use std::alloc::{AllocError, Global};
use std::cmp::Ordering;
use std::io::Read;

/// The next byte.
pub(crate) fn byte_at<F: Read>(
    buffer: &mut Buffer,
    file: &mut OpenedFile<F>,
) -> Result<u8, ReadFault>
    ensures { Reads byte_text IsByte (λ byte. byte) (Ahead buffer.old (Left F.remaining file.old))
        (Ahead buffer.new (Left F.remaining file.new)) result }
{
    if !buffer.has(file, 1)? {
        return Err(ReadFault::Form);
    }
    let byte = buffer.as_slice()[0];
    buffer.consume(1);
    Ok(byte)
}

/// The next number.
fn number_at<F: Read>(buffer: &mut Buffer, file: &mut OpenedFile<F>) -> Result<u64, ReadFault>
    ensures { Reads number_text IsNumber (λ number. number) (Ahead buffer.old (Left F.remaining file.old))
        (Ahead buffer.new (Left F.remaining file.new)) result }
{
    if !buffer.has(file, NUMBER_SIZE)? {
        return Err(ReadFault::Form);
    }
    let value = number_spelled(buffer.as_slice());
    buffer.consume(NUMBER_SIZE);
    Ok(value)
}

/// The number in the first eight bytes, which are its text.
fn number_spelled(bytes: &[u8]) -> u64
    requires { 8 ≤ length bytes.now }
    ensures { Begins number_text IsNumber bytes.now result (drop 8 bytes.now) }
{
    number(bytes)
}

/// The cells of the next list, in any order.
fn cells_at<F: Read>(
    alloc: Global,
    buffer: &mut Buffer,
    file: &mut OpenedFile<F>,
) -> Result<Vec<CellId>, ReadFault>
    ensures { Reads list_text AreCells (λ cells. cells.items)
        (Ahead buffer.old (Left F.remaining file.old)) (Ahead buffer.new (Left F.remaining file.new)) result }
{
    let count = number_at(buffer, file)?;
    if count > SESSION_CELLS as u64 {
        return Err(ReadFault::Form);
    }
    let cells = cells_counted(alloc, count as usize, buffer, file)?;
    Ok(cells)
}

/// The next cells, as many as were counted. Asks for memory only for identifiers that were read.
fn cells_counted<F: Read>(
    alloc: Global,
    count: usize,
    buffer: &mut Buffer,
    file: &mut OpenedFile<F>,
) -> Result<Vec<CellId>, ReadFault>
    ensures { Reads identifiers_text (AreCounted count) (λ cells. cells.items)
        (Ahead buffer.old (Left F.remaining file.old)) (Ahead buffer.new (Left F.remaining file.new)) result }
{
    let mut cells = Vec::new(alloc);
    'pieces: while cells.len() < count {
        if !buffer.has(file, NUMBER_SIZE)? {
            return Err(ReadFault::Form);
        }
        let bytes = buffer.as_slice();
        let left = count - cells.len();
        let here = (bytes.len() / NUMBER_SIZE).min(left);
        let size = NUMBER_SIZE * here;
        push_cells(&mut cells, &bytes[..size], here, left)?;
        buffer.consume(size);
    }
    Ok(cells)
}

/// Adds the cells whose identifiers are the bytes, one after another. `left` cells of the list are still to come, with
/// these.
fn push_cells(
    cells: &mut Vec<CellId>,
    numbers: &[u8],
    count: usize,
    left: usize,
) -> Result<(), ReadFault>
    requires whole { length numbers.now ≡ 8 * count }
    requires more { count ≤ left }
    ensures { MatchResult result (λ _. SpellsMore numbers.now cells.old.items cells.new.items)
        (λ fault. Refuses fault (SpellsWrong numbers.now)) }
{
    make_room(cells, count, left)?;
    for chunk in numbers.chunks_exact(NUMBER_SIZE) {
        match CellId::from_id(number(chunk)) {
            Some(cell) => cells.push_reserved(cell),
            None => return Err(ReadFault::Form),
        }
    }
    Ok(())
}

/// Makes room for `count` more cells of the `left` that are still to come. If room is missing, makes the list twice as
/// long, but never longer than it is to be in the end.
fn make_room(cells: &mut Vec<CellId>, count: usize, left: usize) -> Result<(), AllocError>
    requires { count ≤ left }
    ensures items { cells.new.items ≡ cells.old.items }
    ensures len { vec_len cells.new ≡ vec_len cells.old }
    ensures ok { OnOk result (vec_len cells.new + count ≤ vec_capacity cells.new) }
{
    if cells.capacity() - cells.len() < count {
        cells.reserve_exact(cells.len().max(count).min(left))?;
    }
    Ok(())
}

/// The union of the next register.
fn register_at<F: Read>(
    alloc: Global,
    buffer: &mut Buffer,
    file: &mut OpenedFile<F>,
) -> Result<CellUnion, ReadFault>
    ensures { Reads list_text IsRegisterList (λ union. union.cells) (Ahead buffer.old (Left F.remaining file.old))
        (Ahead buffer.new (Left F.remaining file.new)) result }
{
    let cells = cells_at(alloc, buffer, file)?;
    if !is_normalized(&cells) {
        return Err(ReadFault::Form);
    }
    Ok(CellUnion::from_normalized(cells))
}

/// The unions of all registers.
pub(crate) fn registers_at<F: Read>(
    alloc: Global,
    buffer: &mut Buffer,
    file: &mut OpenedFile<F>,
) -> Result<Vec<CellUnion>, ReadFault>
    ensures { Reads registers_text AreRegisters (λ unions. map (λ (u : Union). u.cells) unions.items)
        (Ahead buffer.old (Left F.remaining file.old)) (Ahead buffer.new (Left F.remaining file.new)) result }
{
    let mut registers = Vec::new(alloc);
    for _i in 0..SESSION_REGISTERS {
        registers.push(register_at(alloc, buffer, file)?)?;
    }
    Ok(registers)
}

/// The next change.
fn move_at<F: Read>(
    alloc: Global,
    buffer: &mut Buffer,
    file: &mut OpenedFile<F>,
) -> Result<Move, ReadFault>
    ensures { Reads move_text IsMove diff_of (Ahead buffer.old (Left F.remaining file.old))
        (Ahead buffer.new (Left F.remaining file.new)) result }
{
    let register = byte_at(buffer, file)?;
    let out = cells_at(alloc, buffer, file)?;
    let put = cells_at(alloc, buffer, file)?;
    if !is_change(register, &out, &put) {
        return Err(ReadFault::Form);
    }
    Ok(Move { register, out, put })
}

/// Whether a register and two lists of cells are a change: the register exists, and the lists ascend, share no cell and
/// are not both empty.
fn is_change(register: u8, out: &[CellId], put: &[CellId]) -> bool
    requires out { AreCells out.now }
    requires put { AreCells put.now }
    ensures { MatchBool result (IsMove (record { register = register; out = out.now; put = put.now }))
        (IsMove (record { register = register; out = out.now; put = put.now }) → ⊥) }
{
    if (register as usize) >= SESSION_REGISTERS {
        return false;
    }
    if out.len() + put.len() == 0 {
        return false;
    }
    if !ascend(out) {
        return false;
    }
    if !ascend(put) {
        return false;
    }
    are_apart(out, put)
}

/// The next changes, after their count.
pub(crate) fn moves_at<F: Read>(
    alloc: Global,
    buffer: &mut Buffer,
    file: &mut OpenedFile<F>,
) -> Result<Vec<Move>, ReadFault>
    ensures { Reads moves_text AreMoves (λ moves. map diff_of moves.items)
        (Ahead buffer.old (Left F.remaining file.old)) (Ahead buffer.new (Left F.remaining file.new)) result }
{
    let count = number_at(buffer, file)?;
    if count > SESSION_CHANGES as u64 {
        return Err(ReadFault::Form);
    }
    let moves = row_at(alloc, count as usize, buffer, file)?;
    Ok(moves)
}

/// The next changes, as many as were counted.
fn row_at<F: Read>(
    alloc: Global,
    count: usize,
    buffer: &mut Buffer,
    file: &mut OpenedFile<F>,
) -> Result<Vec<Move>, ReadFault>
    ensures { Reads row_text (IsRow count) (λ moves. map diff_of moves.items)
        (Ahead buffer.old (Left F.remaining file.old)) (Ahead buffer.new (Left F.remaining file.new)) result }
{
    let mut moves = Vec::new(alloc);
    for _i in 0..count {
        moves.push(move_at(alloc, buffer, file)?)?;
    }
    Ok(moves)
}

/// Whether each cell is above the one before it.
fn ascend(cells: &[CellId]) -> bool
    ensures { MatchBool result (IsStrictlyIncreasing cells.now) (IsStrictlyIncreasing cells.now → ⊥) }
{
    for i in 1..cells.len() {
        if cells[i] <= cells[i - 1] {
            return false;
        }
    }
    true
}

/// Whether no cell is in both lists, which ascend. One walk along them.
fn are_apart(out: &[CellId], put: &[CellId]) -> bool
    requires out_ascends { IsStrictlyIncreasing out.now }
    requires put_ascends { IsStrictlyIncreasing put.now }
    ensures { MatchBool result (AreApart out.now put.now) (AreApart out.now put.now → ⊥) }
{
    let mut i = 0;
    let mut j = 0;
    while i < out.len() && j < put.len() {
        match out[i].cmp(&put[j]) {
            Ordering::Less => i += 1,
            Ordering::Equal => return false,
            Ordering::Greater => j += 1,
        }
    }
    true
}

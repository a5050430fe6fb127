//! The session file: registers and both sides of their history as bytes.
ghost use Rattle.std.specs.Prelude.{◌≡◌, ◌≢◌, ℕ, List, [], ◌∷◌, ◌++◌, map, replicate};
ghost use Rattle.std.specs.Prelude.{true, MatchResult, IfOk, IsErrOf, OnOk};
ghost use Rattle.s2list.specs.Union.{Union};
ghost use Rattle.s2shelf.specs.OpenedFile.{Left, has_ended, has_failed};
ghost use Rattle.s2edit.specs.Content.{Content, content_of, content_of_parts, IsContent};
ghost use Rattle.s2session.specs.Session.{content_of_list, list_text, move_text, moves_text, session_text};
ghost use Rattle.s2session.specs.Session.{IsSessionFile, IsUnionFile, Spells};
ghost use Rattle.s2session.specs.Working.SessionParts.{registers_text};
ghost use Rattle.s2session.specs.Working.Taking.{Refuses};
ghost use Rattle.s2session.specs.Working.Source.{Ahead, Passes};
ghost use Rattle.s2session.specs.Working.Reading.{Judges};
ghost use Rattle.s2session.specs.Reading.{RefusesToRead, WasLeft};

use crate::fault::{ReadFault, SessionFault};
use crate::parts::{byte_at, moves_at, registers_at};
use crate::source::Buffer;
use s2cell::CellId;
use s2edit::{BorrowedMove, Changes, SESSION_CHANGES, SESSION_REGISTERS, Session};
use s2file::{FileFault, MOST_SIZE, VERSION, decode};
use s2list::{NUMBER_SIZE, put_number};
use s2shelf::OpenedFile;
use s2union::CellUnion;
use std::alloc::{AllocError, Global};
use std::io::Read;

/// The bytes that a session file begins with.
const FIRST: u8 = 0x73;

const SECOND: u8 = 1;

/// The session that bytes spell: a session file, or a union file. A union file is a session with its union in register
/// a and nothing else.
///
/// A session file is the bytes 73 and 01, and the lists of the 26 registers. Then come the number of changes in the
/// past and these changes, the oldest first, and the same of the future, the nearest to now first. A list is its count
/// and its identifiers. A change is one byte for its register (0 to 25), the list of the cells that are taken out, and
/// the list of those that are put in. The list of a register is normalized. The lists of a change ascend, share no cell
/// and are not both empty. No list has more than 1,000,000 cells, and there are at most 10,000 changes. Whether the
/// changes can be made one after another is not checked. If the first byte is 1, the bytes are a union file.
///
/// Answers `Form` for all other bytes, and `Memory` if an allocation fails. One pass over the bytes, as `read_session`.
pub fn decode_session(alloc: Global, bytes: &[u8]) -> Result<Session, SessionFault>
    ensures found { IfOk result (λ session. Spells bytes.now (content_of session)) }
    ensures content { IfOk result (λ session. IsContent (content_of session)) }
    ensures only { (s : Content) → Spells bytes.now s →
        MatchResult result (λ session. content_of session ≡ s) (λ fault. fault ≡ SessionFault.Memory) }
{
    let mut file = OpenedFile::of("", bytes);
    match read_session(alloc, &mut file) {
        Ok(session) => Ok(session),
        Err(ReadFault::Form) => Err(SessionFault::Form),
        // To read bytes in memory never fails.
        Err(ReadFault::Device | ReadFault::Memory) => Err(SessionFault::Memory),
    }
}

/// Reads a session: a session file or a union file, as `decode_session` describes them.
///
/// Answers `Form` if what was read is neither, `Memory` if an allocation failed or a read found no memory, and `Device`
/// if a read failed otherwise. If 2^64 - 1 reads have given too little and none failed, that is `Memory`
/// too. After a fault some bytes may have been read. A read that was interrupted is tried again; after one that failed
/// otherwise nothing more is read. Reads pieces of 64 KiB: a session file to its end and one piece more at most, and of
/// a union file at most one piece more than the longest has (`MOST_SIZE`). Never asks for more memory than a piece and
/// about twice what the bytes that were read can fill.
pub fn read_session<F: Read>(alloc: Global, file: &mut OpenedFile<F>) -> Result<Session, ReadFault>
    ensures content { IfOk result (λ session. IsContent (content_of session)) }
    ensures ended { OnOk result (has_ended file.new ≡ true) }
    ensures answer { WasLeft (Left F.remaining file.old) (Left F.remaining file.new) (λ bytes. MatchResult result
        (λ session. Spells bytes (content_of session)) (λ fault. RefusesToRead fault bytes)) }
    ensures device { IsErrOf result ReadFault.Device → has_failed file.new ≡ true }
{
    let read = read_form(alloc, file);
    match read {
        Err(ReadFault::Device) if !file.has_failed() => Err(ReadFault::Memory),
        _ => read,
    }
}

/// Reads a session, by what its first byte says of its form. Answers `Device` also if 2^64 - 1 reads have given too
/// little.
fn read_form<F: Read>(alloc: Global, file: &mut OpenedFile<F>) -> Result<Session, ReadFault>
    ensures content { IfOk result (λ session. IsContent (content_of session)) }
    ensures ended { OnOk result (has_ended file.new ≡ true) }
    ensures answer { WasLeft (Left F.remaining file.old) (Left F.remaining file.new) (λ bytes. MatchResult result
        (λ session. Spells bytes (content_of session)) (λ fault. RefusesToRead fault bytes)) }
{
    let mut buffer = Buffer::new(alloc)?;
    if !buffer.has(file, 1)? {
        return Err(ReadFault::Form);
    }
    if buffer.as_slice()[0] == VERSION {
        session_of_union(alloc, &mut buffer, file)
    } else {
        session_of_parts(alloc, &mut buffer, file)
    }
}

/// The session of a union file. More bytes than the longest file has are none.
fn session_of_union<F: Read>(
    alloc: Global,
    buffer: &mut Buffer,
    file: &mut OpenedFile<F>,
) -> Result<Session, ReadFault>
    ensures judges { Judges IsUnionFile (Ahead buffer.old (Left F.remaining file.old))
        (Ahead buffer.new (Left F.remaining file.new)) result }
    ensures ended { OnOk result (has_ended file.new ≡ true) }
{
    let mut bytes = Vec::new(alloc);
    'pieces: while bytes.len() <= MOST_SIZE {
        if !buffer.has(file, 1)? {
            return session_of_bytes(alloc, &bytes);
        }
        bytes.extend_from_slice(buffer.as_slice())?;
        buffer.consume_all();
    }
    Err(ReadFault::Form)
}

/// The session of a union file that is wholly in memory.
fn session_of_bytes(alloc: Global, bytes: &[u8]) -> Result<Session, ReadFault>
    ensures { MatchResult result (λ session. IsUnionFile bytes.now (content_of session))
        (λ fault. Refuses fault ((s : Content) → IsUnionFile bytes.now s → ⊥)) }
{
    match decode(alloc, bytes) {
        Ok(union) => session_with(alloc, union),
        Err(fault) => Err(fault_of(fault)),
    }
}

/// The fault of a session when its union file is refused.
fn fault_of(fault: FileFault) -> ReadFault
    ensures { Refuses result (fault ≢ FileFault.Memory) }
{
    match fault {
        FileFault::Memory => ReadFault::Memory,
        _ => ReadFault::Form,
    }
}

/// The session whose register a has the union, and nothing else.
fn session_with(alloc: Global, union: CellUnion) -> Result<Session, ReadFault>
    ensures { MatchResult result (λ session. content_of session ≡ content_of_list union.cells)
        (λ fault. fault ≡ ReadFault.Memory) }
{
    let mut registers = Vec::new(alloc);
    registers.push(union)?;
    add_empty(alloc, &mut registers, SESSION_REGISTERS - 1)?;
    Ok(Session {
        registers,
        past: Vec::new(alloc),
        future: Vec::new(alloc),
    })
}

/// Adds empty unions.
fn add_empty(alloc: Global, registers: &mut Vec<CellUnion>, count: usize) -> Result<(), ReadFault>
    ensures { MatchResult result (λ _. map (λ (u : Union). u.cells) registers.new.items
        ≡ map (λ (u : Union). u.cells) registers.old.items ++ replicate count [])
        (λ fault. fault ≡ ReadFault.Memory) }
{
    for _i in 0..count {
        registers.push(CellUnion::empty(alloc))?;
    }
    Ok(())
}

/// The session of a session file.
fn session_of_parts<F: Read>(
    alloc: Global,
    buffer: &mut Buffer,
    file: &mut OpenedFile<F>,
) -> Result<Session, ReadFault>
    ensures judges { Judges IsSessionFile (Ahead buffer.old (Left F.remaining file.old))
        (Ahead buffer.new (Left F.remaining file.new)) result }
    ensures ended { OnOk result (has_ended file.new ≡ true) }
{
    take_head(buffer, file)?;
    let registers = registers_at(alloc, buffer, file)?;
    let past = moves_at(alloc, buffer, file)?;
    let future = moves_at(alloc, buffer, file)?;
    if buffer.has(file, 1)? {
        return Err(ReadFault::Form);
    }
    if past.len() + future.len() > SESSION_CHANGES {
        return Err(ReadFault::Form);
    }
    Ok(Session {
        registers,
        past,
        future,
    })
}

/// Takes the two bytes that a session file begins with.
fn take_head<F: Read>(buffer: &mut Buffer, file: &mut OpenedFile<F>) -> Result<(), ReadFault>
    ensures { MatchResult result (λ _. Passes (Ahead buffer.old (Left F.remaining file.old))
        (Ahead buffer.new (Left F.remaining file.new)) (0x73 ∷ 1 ∷ []))
        (λ fault. WasLeft (Ahead buffer.old (Left F.remaining file.old)) (Ahead buffer.new (Left F.remaining file.new))
        (λ bytes. Refuses fault ((rest : List ℕ) → bytes ≡ 0x73 ∷ 1 ∷ rest → ⊥))) }
{
    if byte_at(buffer, file)? != FIRST {
        return Err(ReadFault::Form);
    }
    if byte_at(buffer, file)? != SECOND {
        return Err(ReadFault::Form);
    }
    Ok(())
}

/// The session file of a session. `decode_session` reads it back, if the session is one that a file may hold.
///
/// Takes one list of as many bytes as the file has.
pub fn encode_session(alloc: Global, session: &Session) -> Result<Vec<u8>, AllocError>
    ensures text { IfOk result (λ bytes. bytes.items ≡ session_text (content_of session.now)) }
    ensures spells { IsContent (content_of session.now) →
        IfOk result (λ bytes. Spells bytes.items (content_of session.now)) }
{
    encode_parts(alloc, &session.registers, &session.past, &session.future)
}

/// The session file of registers, of a past with the oldest change first, and of a future with the nearest to now
/// first, which stay where they are.
///
/// Takes one list of as many bytes as the file has. Reads each change twice.
pub fn encode_parts<P: Changes, F: Changes>(
    alloc: Global,
    registers: &[CellUnion],
    past: &P,
    future: &F,
) -> Result<Vec<u8>, AllocError>
    ensures { IfOk result (λ bytes. bytes.items
        ≡ session_text (content_of_parts registers.now (P.list past.now) (F.list future.now))) }
{
    let mut bytes = Vec::with_capacity(alloc, text_size(registers, past, future))?;
    bytes.push(FIRST)?;
    bytes.push(SECOND)?;
    put_registers(&mut bytes, registers)?;
    put_changes(&mut bytes, past)?;
    put_changes(&mut bytes, future)?;
    Ok(bytes)
}

/// Adds the lists of the registers.
fn put_registers(bytes: &mut Vec<u8>, registers: &[CellUnion]) -> Result<(), AllocError>
    ensures { OnOk result (bytes.new.items ≡ bytes.old.items
        ++ registers_text (map (λ (u : Union). u.cells) registers.now)) }
{
    for union in registers {
        put_cells(bytes, union.cells())?;
    }
    Ok(())
}

/// Adds a count and the changes.
fn put_changes<C: Changes>(bytes: &mut Vec<u8>, changes: &C) -> Result<(), AllocError>
    ensures { OnOk result (bytes.new.items ≡ bytes.old.items ++ moves_text (C.list changes.now)) }
{
    let count = changes.count();
    put_number(bytes, count as u64)?;
    let mut k = 0usize;
    while let Some(change) = changes.at(k) {
        put_change(bytes, &change)?;
        k += 1;
    }
    Ok(())
}

/// Adds a change.
fn put_change(bytes: &mut Vec<u8>, change: &BorrowedMove<'_>) -> Result<(), AllocError>
    ensures { OnOk result (bytes.new.items ≡ bytes.old.items ++ move_text change.now) }
{
    bytes.push(change.register)?;
    put_cells(bytes, change.out)?;
    put_cells(bytes, change.put)
}

/// Adds a count and the identifiers of the cells.
fn put_cells(bytes: &mut Vec<u8>, cells: &[CellId]) -> Result<(), AllocError>
    ensures { OnOk result (bytes.new.items ≡ bytes.old.items ++ list_text cells.now) }
{
    put_number(bytes, cells.len() as u64)?;
    for cell in cells {
        put_number(bytes, cell.id())?;
    }
    Ok(())
}

/// How many bytes the file has.
fn text_size<P: Changes, F: Changes>(registers: &[CellUnion], past: &P, future: &F) -> usize {
    let mut size = 2usize;
    for union in registers {
        size = size.saturating_add(list_size(union.cells()));
    }
    size.saturating_add(changes_size(past))
        .saturating_add(changes_size(future))
}

/// How many bytes changes take, with their count.
fn changes_size<C: Changes>(changes: &C) -> usize {
    let mut size = NUMBER_SIZE;
    for k in 0..changes.count() {
        if let Some(change) = changes.at(k) {
            size = size
                .saturating_add(1)
                .saturating_add(list_size(change.out))
                .saturating_add(list_size(change.put));
        }
    }
    size
}

/// How many bytes a list of cells takes.
fn list_size(cells: &[CellId]) -> usize {
    cells.len().saturating_add(1).saturating_mul(NUMBER_SIZE)
}

//! Sessions: the calls of `s2session` on session files, and those of `s2edit` that make and take sessions.
use crate::texts::{add_bytes, add_change, add_tokens};
use s2edit::{Editor, Move, RestoreFault, Session};
use s2session::{SessionFault, decode_session, encode_parts, encode_session};
use std::alloc::{AllocError, Global};
use test_table::{add_line, bytes_of};

/// Makes a call over an editor, and adds its answer. False for the name of another call.
pub fn answer(
    alloc: Global,
    editor: &mut Editor,
    name: &str,
    words: &str,
    found: &mut Vec<u8>,
) -> Result<bool, AllocError> {
    let added = match name {
        "session" => add_session(alloc, editor, words, found),
        "decode_session" => add_decoded(alloc, words, found),
        "restore" => add_restored(alloc, editor, words, found),
        _ => return Ok(false),
    };
    added?;
    Ok(true)
}

/// Adds how many bytes the editor's session file has, by both calls that make one; then `as given` if they are those
/// that are given, or else the bytes.
fn add_session(
    alloc: Global,
    editor: &Editor,
    digits: &str,
    found: &mut Vec<u8>,
) -> Result<(), AllocError> {
    let wanted = bytes_of(alloc, digits)?;
    let bytes = encode_session(alloc, &editor.session()?)?;
    let sides = editor.sides();
    let file = encode_parts(alloc, sides.registers, &sides.past, &sides.future)?;
    let (first, second) = (bytes.len(), file.len());
    add_line(found, &format!(in alloc; "bytes {first} {second}")?)?;
    if bytes.as_slice() == wanted.as_slice() && file.as_slice() == wanted.as_slice() {
        return add_line(found, "as given");
    }
    add_bytes(found, &bytes)
}

/// Adds what the bytes of a session file spell: each register that is not empty, and both sides of the history.
fn add_decoded(alloc: Global, digits: &str, found: &mut Vec<u8>) -> Result<(), AllocError> {
    match decode_session(alloc, &bytes_of(alloc, digits)?) {
        Ok(session) => add_spelled(alloc, &session, found),
        Err(SessionFault::Form) => add_line(found, "Form"),
        Err(SessionFault::Memory) => add_line(found, "Memory"),
    }
}

fn add_spelled(alloc: Global, session: &Session, found: &mut Vec<u8>) -> Result<(), AllocError> {
    for n in 0..session.registers.len() {
        let cells = session.registers[n].cells();
        if !cells.is_empty() {
            let head = format!(in alloc; "register {n}")?;
            found.extend_from_slice(head.as_bytes())?;
            add_tokens(found, cells)?;
            found.push(b'\n')?;
        }
    }
    add_moves(alloc, "past", &session.past, found)?;
    add_moves(alloc, "future", &session.future, found)
}

/// Adds the changes of one side of a history, in the order of the file.
fn add_moves(
    alloc: Global,
    side: &str,
    moves: &[Move],
    found: &mut Vec<u8>,
) -> Result<(), AllocError> {
    for change in moves {
        found.extend_from_slice(side.as_bytes())?;
        let register = u64::from(change.register);
        add_change(alloc, found, register, &change.out, &change.put)?;
    }
    Ok(())
}

/// Restores the session that bytes spell, and adds how that ended.
fn add_restored(
    alloc: Global,
    editor: &mut Editor,
    digits: &str,
    found: &mut Vec<u8>,
) -> Result<(), AllocError> {
    let session = match decode_session(alloc, &bytes_of(alloc, digits)?) {
        Ok(session) => session,
        Err(SessionFault::Form) => return add_line(found, "Form"),
        Err(SessionFault::Memory) => return add_line(found, "Memory"),
    };
    match editor.restore(session) {
        Ok(()) => add_line(found, "ok"),
        Err(RestoreFault::Fit) => add_line(found, "Fit"),
        Err(RestoreFault::TooDeep) => add_line(found, "TooDeep"),
        Err(RestoreFault::TooMany) => add_line(found, "TooMany"),
        Err(RestoreFault::Memory) => add_line(found, "Memory"),
    }
}

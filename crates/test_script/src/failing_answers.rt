//! The answers to a cell and to a file, over a writer that fails at each of its calls in turn.
use crate::failing_runs::MANY_CALLS;
use crate::known::count_of;
use crate::left::writer_of;
use crate::narrow::{Mishap, Narrow};
use crate::row::shelf_of;
use s2calc::{RunFault, cell_answer, check_answer};
use std::alloc::{AllocError, Global};

/// What is asked besides a run.
#[derive(Clone, Copy)]
pub enum Asked<'a> {
    /// What is known of the cell that a word names.
    Cell(&'a str),
    /// How many cells and leaves the file of a name has.
    Check(&'a str),
}

/// Answers over the files of a row.
fn answer(
    alloc: Global,
    lines: &[&str],
    asked: Asked<'_>,
    writer: &mut Narrow,
) -> Result<Result<bool, RunFault>, AllocError> {
    match asked {
        Asked::Cell(word) => Ok(cell_answer(word.as_bytes(), writer)),
        Asked::Check(name) => {
            let mut shelf = shelf_of(alloc, lines)?;
            Ok(check_answer(alloc, &mut shelf, name, writer))
        }
    }
}

/// Makes each write of at most `size` bytes, and the flush, go wrong in turn. Answers how many calls failed, or None if
/// one of them did not leave what it must.
pub fn answers_fail(
    alloc: Global,
    lines: &[&str],
    asked: Asked<'_>,
    size: usize,
    mishap: Mishap,
) -> Result<Option<u64>, AllocError> {
    let mut whole = writer_of(alloc, 4096, 0, mishap)?;
    if answer(alloc, lines, asked, &mut whole)?.is_err() {
        return Ok(None);
    }
    for call in 1..MANY_CALLS {
        let mut writer = writer_of(alloc, size, call, mishap)?;
        match answer(alloc, lines, asked, &mut writer)? {
            Ok(_) => return Ok(Some(call - 1)),
            Err(fault) => {
                let is_told = fault == RunFault::Output && count_of(writer.made())? == call;
                if !is_told || !is_part_of(&writer, whole.contents()) {
                    return Ok(None);
                }
            }
        }
    }
    Ok(None)
}

/// Whether a writer took a beginning of the bytes that lacks some, or all of them if its flush failed.
fn is_part_of(writer: &Narrow, whole: &[u8]) -> bool {
    let out = writer.contents();
    whole.starts_with(out) && (out.len() == whole.len()) == writer.is_flushed()
}

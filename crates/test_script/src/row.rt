//! A row: its script is run, its calls are made, and what they answered is found.

use crate::calls::make;
use crate::pieces::Pieces;
use s2calc::{RunFault, Sink, Tally, run};
use s2edit::{Editor, MOST_REGISTER, MOST_STATES};
use s2shelf::{MemoryShelf, Shelf};
use std::alloc::{AllocError, Global};
use std::io;
use test_table::{Table, add_line, bytes_of, option, script_of, wanted_of};

/// How many bytes a read gives.
const SIZES: [usize; 4] = [1, 2, 7, 5000];

/// Answers rows by `run` and the other calls of `s2calc`.
#[derive(Drop)]
pub struct Rows<'a, R> {
    /// Where answers go that are shown.
    pub rt: &'a R,
}

/// What the run of a row leaves for its calls.
#[derive(Drop)]
pub struct Done {
    pub ended: Result<Tally, RunFault>,
    pub shelf: MemoryShelf,
}

impl<R: Print> Table for Rows<'_, R> {
    fn answers_of(&mut self, alloc: Global, lines: &[&str]) -> Result<Vec<u8>, AllocError> {
        if option(lines, "shown", 0) == 1 {
            let done = run_row(alloc, lines, 4096, &mut io::writer(self.rt))?;
            return with_calls(alloc, lines, Vec::new(alloc), done);
        }
        match option(lines, "pieces", 0) as usize {
            0 => answers_in_each_size(alloc, lines),
            size => answers_in_pieces(alloc, lines, size),
        }
    }
}

/// The answers to a row in pieces of each size: those for the first size with other answers than the row's.
fn answers_in_each_size(alloc: Global, lines: &[&str]) -> Result<Vec<u8>, AllocError> {
    let wanted = wanted_of(alloc, lines)?;
    for size in SIZES {
        let found = answers_in_pieces(alloc, lines, size)?;
        if found.as_slice() != wanted.as_slice() {
            return Ok(found);
        }
    }
    Ok(wanted)
}

/// The answers to a row's script and calls, if a read gives this many bytes.
fn answers_in_pieces(alloc: Global, lines: &[&str], size: usize) -> Result<Vec<u8>, AllocError> {
    let mut answers = Vec::new(alloc);
    let done = run_row(alloc, lines, size, &mut answers)?;
    match option(lines, "last", 0) as usize {
        0 => with_calls(alloc, lines, answers, done),
        count => with_calls(alloc, lines, ending_of(alloc, &answers, count)?, done),
    }
}

/// Runs the script of a row.
fn run_row<W: Sink>(
    alloc: Global,
    lines: &[&str],
    size: usize,
    writer: &mut W,
) -> Result<Done, AllocError> {
    let script = script_of(alloc, lines)?;
    let mut editor = editor_of(alloc, lines)?;
    let mut shelf = shelf_of(alloc, lines)?;
    let mut reader = Pieces::of(alloc, &script, size, fails_at(lines, script.len(), size));
    let ended = run(alloc, &mut editor, &mut reader, writer, &mut shelf);
    Ok(Done { ended, shelf })
}

/// The read that fails: the one after those that give all bytes, or none.
fn fails_at(lines: &[&str], len: usize, size: usize) -> u64 {
    match option(lines, "reader", 0) {
        0 => 0,
        _ => (len.div_ceil(size.max(1)) as u64).saturating_add(1),
    }
}

/// The answers, with those to a row's calls.
fn with_calls(
    alloc: Global,
    lines: &[&str],
    answers: Vec<u8>,
    mut done: Done,
) -> Result<Vec<u8>, AllocError> {
    let mut found = answers;
    for line in lines {
        if let Some(call) = line.strip_prefix("? ") {
            make(alloc, lines, call, &mut done, &mut found)?;
        }
    }
    Ok(found)
}

/// How many lines there are, and the last of them.
fn ending_of(alloc: Global, answers: &[u8], count: usize) -> Result<Vec<u8>, AllocError> {
    let all = lines_in(answers);
    let mut ending = Vec::new(alloc);
    add_line(&mut ending, &format!(in alloc; "{all}")?)?;
    let mut passed = 0usize;
    for line in answers.split_inclusive(|byte| *byte == b'\n') {
        passed = passed.saturating_add(1);
        if passed.saturating_add(count) > all {
            ending.extend_from_slice(line)?;
        }
    }
    Ok(ending)
}

/// How many lines end in the bytes.
pub fn lines_in(bytes: &[u8]) -> usize {
    bytes.iter().filter(|byte| **byte == b'\n').count()
}

/// An editor with the limit and the depth of a row.
pub fn editor_of(alloc: Global, lines: &[&str]) -> Result<Editor, AllocError> {
    let limit = option(lines, "limit", 10_000) as usize;
    let depth = option(lines, "depth", 100) as usize;
    Editor::open(
        alloc,
        limit.clamp(1, MOST_REGISTER),
        depth.clamp(1, MOST_STATES),
    )
}

/// A shelf with the files of a row, one of whose calls may fail.
pub fn shelf_of(alloc: Global, lines: &[&str]) -> Result<MemoryShelf, AllocError> {
    let mut shelf = MemoryShelf::new(alloc);
    for line in lines {
        if let Some(file) = line.strip_prefix("@ ") {
            put_file(alloc, &mut shelf, file)?;
        }
    }
    let call = option(lines, "shelf", 0);
    if call > 0 {
        shelf.fail_at(call);
    }
    Ok(shelf)
}

/// Puts a file on a shelf that does not fail.
fn put_file(alloc: Global, shelf: &mut MemoryShelf, file: &str) -> Result<(), AllocError> {
    let (name, digits) = file.split_once(" ").unwrap_or((file, ""));
    match shelf.put(name, &bytes_of(alloc, digits)?) {
        Ok(()) => Ok(()),
        Err(_) => Err(AllocError),
    }
}

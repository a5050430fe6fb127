//! What runs of a row's script leave.
use crate::known::count_of;
use crate::narrow::{Mishap, Narrow};
use crate::pieces::Pieces;
use crate::row::{editor_of, shelf_of};
use s2calc::{
    AnswerBuffer, NoNotes, Promptly, RunFault, Tally, Unobserved, run, run_with, session_file,
};
use s2shelf::{MemoryShelf, Shelf};
use std::alloc::{AllocError, Global};

/// The room for all answers of a row whose calls fail.
const ROOM: usize = 1 << 15;

/// The names of the files that such a row may use.
const NAMES: [&str; 7] = ["f", "g", "h", "s", "w", "z", "missing"];

/// When a run is flushed.
#[derive(Clone, Copy, PartialEq, Eq, Debug)]
pub enum Flushing {
    AtTheEnd,
    Promptly,
}

/// What a run left.
#[derive(Drop)]
pub struct Left {
    /// How it ended.
    pub ended: Result<Tally, RunFault>,
    /// What the writer took.
    pub answers: Vec<u8>,
    /// The session file of the editor: the registers and both sides of the history.
    session: Vec<u8>,
    /// The files of the shelf in one text.
    files: Vec<u8>,
    /// How many calls the reader had.
    pub reads: u64,
    /// How many calls the writer had.
    pub writes: u64,
    /// Whether the writer's last call was a flush.
    pub is_flushed: bool,
}

impl Left {
    /// Whether registers, history and files are those that another run left.
    pub fn stands_as(&self, other: &Left) -> bool {
        self.session.as_slice() == other.session.as_slice()
            && self.files.as_slice() == other.files.as_slice()
    }
}

/// A writer with room for all answers, one of whose calls may fail.
pub fn writer_of(
    alloc: Global,
    size: usize,
    fails_at: u64,
    mishap: Mishap,
) -> Result<Narrow, AllocError> {
    Narrow::new(alloc, ROOM, size, fails_at, mishap)
}

/// Runs a script over the editor and the files of a row, and a shelf one of whose calls may fail.
pub fn run_over(
    alloc: Global,
    lines: &[&str],
    flushing: Flushing,
    mut reader: Pieces<'_>,
    writer: Narrow,
    shelf_fails_at: u64,
) -> Result<Left, AllocError> {
    let mut editor = editor_of(alloc, lines)?;
    let mut shelf = shelf_of(alloc, lines)?;
    if shelf_fails_at > 0 {
        shelf.fail_at(shelf_fails_at);
    }
    let (ended, writer) = match flushing {
        Flushing::AtTheEnd => {
            let mut writer = writer;
            let ended = run(alloc, &mut editor, &mut reader, &mut writer, &mut shelf);
            (ended, writer)
        }
        Flushing::Promptly => {
            let Ok(mut buffer) = AnswerBuffer::new(alloc, writer) else {
                return Err(AllocError);
            };
            let ended = run_with::<_, _, Promptly, _, _>(
                alloc,
                &mut editor,
                &mut reader,
                &mut buffer,
                &mut shelf,
                &mut NoNotes,
                &mut Unobserved::<Pieces<'_>>::new(),
                false,
            );
            (ended, buffer.into_writer())
        }
    };
    let mut answers = Vec::new(alloc);
    answers.extend_from_slice(writer.contents())?;
    Ok(Left {
        ended,
        answers,
        session: session_file(alloc, &editor)?,
        files: files_of(alloc, &mut shelf)?,
        reads: count_of(reader.reads())?,
        writes: count_of(writer.made())?,
        is_flushed: writer.is_flushed(),
    })
}

/// The files of a shelf in one text.
fn files_of(alloc: Global, shelf: &mut MemoryShelf) -> Result<Vec<u8>, AllocError> {
    let mut files = Vec::new(alloc);
    for name in NAMES {
        add_file(shelf, name, &mut files)?;
    }
    Ok(files)
}

/// Adds the name of a file and its bytes, if it is there.
fn add_file(shelf: &mut MemoryShelf, name: &str, files: &mut Vec<u8>) -> Result<(), AllocError> {
    match shelf.get(name) {
        Ok(Some(bytes)) => {
            files.extend_from_slice(name.as_bytes())?;
            files.push(b' ')?;
            files.extend_from_slice(&bytes)
        }
        Ok(None) => Ok(()),
        Err(_) => Err(AllocError),
    }
}

/// What is left of a script if nothing fails.
pub fn run_well(alloc: Global, lines: &[&str], script: &[u8]) -> Result<Left, AllocError> {
    let writer = writer_of(alloc, 4096, 0, Mishap::Fails)?;
    let reader = Pieces::of(alloc, script, 4096, 0);
    run_over(alloc, lines, Flushing::AtTheEnd, reader, writer, 0)
}

/// What is left after no line of a script, after its first line, and so on; at last after all of it.
pub fn ways_of(alloc: Global, lines: &[&str], script: &[u8]) -> Result<Vec<Left>, AllocError> {
    let mut ways = Vec::new(alloc);
    ways.push(run_well(alloc, lines, b"")?)?;
    for at in 0..script.len() {
        if script[at] == b'\n' {
            ways.push(run_well(alloc, lines, &script[..at + 1])?)?;
        }
    }
    if !script.ends_with(b"\n") {
        ways.push(run_well(alloc, lines, script)?)?;
    }
    Ok(ways)
}

//! The program over a row: `program` of `s2process`, which the calculator's `main` calls, over streams and a folder in
//! memory, whose calls are listed.
use crate::calls::words_of;
use crate::left::writer_of;
use crate::narrow::{Mishap, Narrow};
use crate::pieces::Pieces;
use crate::row::shelf_of;
use s2calc::{Sink, job};
use s2process::{Folders, ListedObserver, ListedShelf, Streams, program};
use s2shelf::MemoryShelf;
use std::alloc::{AllocError, Global};
use std::cell::RefCell;
use std::io;
use std::io::ErrorKind;
use test_table::{add_line, option, script_of};

/// A call that fails: its number, from 1 on, of the calls of a stream or of the folder.
#[derive(Clone, Copy)]
pub struct Failing<'a> {
    /// `input`, `output`, `errors` or `files`. Another name is none of them, so no call fails.
    pub of: &'a str,
    pub call: u64,
}

impl Failing<'_> {
    /// The number of the call that fails of these, or 0.
    fn among(&self, calls: &str) -> u64 {
        if self.of == calls { self.call } else { 0 }
    }
}

/// A writer that can be read when the program has ended.
#[derive(Clone, Copy)]
struct Shared<'a> {
    writer: &'a RefCell<Narrow>,
}

impl Sink for Shared<'_> {
    #[tactic(auto, using(s2calc::proofs::CallLemmas::unknown_last))]
    fn write(&mut self, buf: &[u8]) -> io::Result<usize> {
        match self.writer.try_borrow_mut() {
            Ok(mut writer) => writer.write(buf),
            Err(_) => Err(io::Error::from(ErrorKind::ResourceBusy)),
        }
    }

    #[tactic(auto, using(s2calc::proofs::CallLemmas::unknown_last))]
    fn flush(&mut self) -> io::Result<()> {
        match self.writer.try_borrow_mut() {
            Ok(mut writer) => writer.flush(),
            Err(_) => Err(io::Error::from(ErrorKind::ResourceBusy)),
        }
    }
}

/// A folder with the files of a row, at each path.
#[derive(Drop)]
struct RowFolders<'a> {
    alloc: Global,
    lines: &'a [&'a str],
    fails_at: u64,
}

impl Folders for RowFolders<'_> {
    ghost use Rattle.std.specs.Prelude.{◌≡◌, []};
    ghost use Rattle.s2process.specs.Listed.{calls_of_shelf};

    type Folder = ListedShelf<MemoryShelf>;

    ghost opened = { λ folder _. calls_of_shelf folder ≡ [] };

    fn open(self, _path: &str) -> Result<ListedShelf<MemoryShelf>, AllocError> {
        let mut shelf = shelf_of(self.alloc, self.lines)?;
        if self.fails_at > 0 {
            shelf.fail_at(self.fails_at);
        }
        Ok(ListedShelf::new(shelf))
    }
}

/// Adds what the program does that gets these words and the row's script: what the output took, the lines that standard
/// error took, each after `!`, and the exit status.
pub fn add_process(
    alloc: Global,
    lines: &[&str],
    words: &str,
    failing: Failing<'_>,
    found: &mut Vec<u8>,
) -> Result<(), AllocError> {
    let script = script_of(alloc, lines)?;
    let size = option(lines, "pieces", 4096) as usize;
    let output = RefCell::new(writer_of(alloc, 4096, failing.among("output"), Mishap::Fails)?);
    let errors = RefCell::new(writer_of(alloc, 4096, failing.among("errors"), Mishap::Fails)?);
    let streams = Streams::new(
        Pieces::of(alloc, &script, size, failing.among("input")),
        Shared { writer: &output },
        Shared { writer: &errors },
    );
    let folders = RowFolders {
        alloc,
        lines,
        fails_at: failing.among("files"),
    };
    let asked = job(alloc, words_of(alloc, words)?);
    let ended = program(alloc, asked, streams, folders, &mut ListedObserver::new());
    add_taken(&output, b"", found)?;
    add_taken(&errors, b"!", found)?;
    add_line(found, &format!(in alloc; "status {}", ended.status)?)
}

/// Adds the lines that a writer took, each after a mark. The last may have no newline.
fn add_taken(writer: &RefCell<Narrow>, mark: &[u8], found: &mut Vec<u8>) -> Result<(), AllocError> {
    let Ok(writer) = writer.try_borrow() else {
        return Err(AllocError);
    };
    for line in writer.contents().split_inclusive(|byte| *byte == b'\n') {
        found.extend_from_slice(mark)?;
        found.extend_from_slice(line)?;
        if !line.ends_with(b"\n") {
            found.push(b'\n')?;
        }
    }
    Ok(())
}

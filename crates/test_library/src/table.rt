//! The calls of a row, made in turn.
use crate::{
    cells, changes, counted, coverings, curve, differing, directions, edits, files, maps, polygons,
    rectangles, sessions, shapes, shelves, unions, written,
};
use s2edit::{Editor, MOST_REGISTER, MOST_STATES};
use s2shelf::{DirShelf, MemoryShelf};
use std::alloc::{AllocError, Global};
use std::rt::Files;
use test_table::{Table, add_line, option};

/// The libraries, and a folder for files.
#[derive(Drop)]
pub struct Libraries<R: Files + AllocGlobal> {
    pub folder: DirShelf<R>,
}

impl<R: Files + AllocGlobal> Table for Libraries<R> {
    /// Makes the calls of a row, over an editor and a shelf in memory of its own.
    fn answers_of(&mut self, alloc: Global, lines: &[&str]) -> Result<Vec<u8>, AllocError> {
        let mut found = Vec::new(alloc);
        let Some(mut editor) = editor_of(alloc, lines)? else {
            add_line(&mut found, "no such editor")?;
            return Ok(found);
        };
        let mut memory = MemoryShelf::new(alloc);
        for line in lines {
            if let Some(call) = line.strip_prefix("? ") {
                self.make(alloc, call, &mut editor, &mut memory, &mut found)?;
            }
        }
        Ok(found)
    }
}

impl<R: Files + AllocGlobal> Libraries<R> {
    /// Makes a call, and adds its answer.
    fn make(
        &mut self,
        alloc: Global,
        call: &str,
        editor: &mut Editor,
        memory: &mut MemoryShelf,
        found: &mut Vec<u8>,
    ) -> Result<(), AllocError> {
        let (name, words) = call.split_once(" ").unwrap_or((call, ""));
        if name == "folder" {
            shelves::add_answer(alloc, &mut self.folder, words, found)
        } else if name == "memory" {
            shelves::add_answer(alloc, memory, words, found)
        } else if name == "fail" {
            shelves::fail(memory, words);
            Ok(())
        } else if answer_of_editor(alloc, editor, name, words, found)? {
            Ok(())
        } else {
            add_answer(alloc, name, words, found)
        }
    }
}

/// An editor with the limit and the depth of a row.
fn editor_of(alloc: Global, lines: &[&str]) -> Result<Option<Editor>, AllocError> {
    let limit = option(lines, "limit", 10_000) as usize;
    let depth = option(lines, "depth", 100) as usize;
    if limit < 1 || limit > MOST_REGISTER || depth < 1 || depth > MOST_STATES {
        return Ok(None);
    }
    Ok(Some(Editor::open(alloc, limit, depth)?))
}

/// Makes a call over an editor, and adds its answer. False for the name of another call.
fn answer_of_editor(
    alloc: Global,
    editor: &mut Editor,
    name: &str,
    words: &str,
    found: &mut Vec<u8>,
) -> Result<bool, AllocError> {
    if edits::answer(alloc, editor, name, words, found)? {
        return Ok(true);
    }
    if changes::answer(alloc, editor, name, words, found)? {
        return Ok(true);
    }
    sessions::answer(alloc, editor, name, words, found)
}

/// Makes a call over nothing else, and adds its answer.
fn add_answer(
    alloc: Global,
    name: &str,
    words: &str,
    found: &mut Vec<u8>,
) -> Result<(), AllocError> {
    if answer_on_cells(alloc, name, words, found)? || answer_on_values(alloc, name, words, found)? {
        return Ok(());
    }
    if name == "curve" {
        return curve::add_agreed(alloc, found);
    }
    if name == "rectangles" {
        return rectangles::add_agreed(alloc, found);
    }
    if name == "differing" {
        return differing::add_agreed(alloc, words, found);
    }
    add_line(found, "no such call")
}

/// The same for a call of `s2cell` or `s2union`. False for the name of another call.
fn answer_on_cells(
    alloc: Global,
    name: &str,
    words: &str,
    found: &mut Vec<u8>,
) -> Result<bool, AllocError> {
    if cells::answer(alloc, name, words, found)? {
        return Ok(true);
    }
    if unions::answer(alloc, name, words, found)? {
        return Ok(true);
    }
    counted::answer(alloc, name, words, found)
}

/// The same for a call of `s2cover`, `s2polygon`, `s2degrees`, `s2map`, `s2shape`, `s2written` or `s2file`.
fn answer_on_values(
    alloc: Global,
    name: &str,
    words: &str,
    found: &mut Vec<u8>,
) -> Result<bool, AllocError> {
    if coverings::answer(alloc, name, words, found)? {
        return Ok(true);
    }
    if polygons::answer(alloc, name, words, found)? {
        return Ok(true);
    }
    if directions::answer(alloc, name, words, found)? {
        return Ok(true);
    }
    if maps::answer(alloc, name, words, found)? {
        return Ok(true);
    }
    if shapes::answer(alloc, name, words, found)? {
        return Ok(true);
    }
    if written::answer(alloc, name, words, found)? {
        return Ok(true);
    }
    if written::answer_up_to(alloc, name, words, found)? {
        return Ok(true);
    }
    if written::answer_geodesic(alloc, name, words, found)? {
        return Ok(true);
    }
    files::answer(alloc, name, words, found)
}

//! Calls of `s2edit` that edit registers, go back and go forward.
use crate::texts::{add_cells, cut, union_of};
use s2edit::{Edit, EditFault, Editor, Register, run_edits};
use std::alloc::{AllocError, Global};
use test_table::add_line;

/// Makes a call over an editor, and adds its answer. False for the name of another call.
pub fn answer(
    alloc: Global,
    editor: &mut Editor,
    name: &str,
    words: &str,
    found: &mut Vec<u8>,
) -> Result<bool, AllocError> {
    let added = match name {
        "assign" | "add" | "remove" => add_edited(alloc, editor, name, words, found),
        "copy" => add_copied(alloc, editor, words, found),
        "undo" => add_moved(alloc, found, editor.undo()),
        "redo" => add_moved(alloc, found, editor.redo()),
        "register" => add_register(editor, words, found),
        "run_edits" => add_tally(alloc, editor, words, found),
        _ => return Ok(false),
    };
    added?;
    Ok(true)
}

/// The register of a letter.
pub fn register_of(word: &str) -> Option<Register> {
    match word.as_bytes() {
        [letter] => Register::from_letter(*letter),
        _ => None,
    }
}

/// Adds how an edit of a register by cells ended, `LETTER CELLS`.
fn add_edited(
    alloc: Global,
    editor: &mut Editor,
    name: &str,
    words: &str,
    found: &mut Vec<u8>,
) -> Result<(), AllocError> {
    let (letter, cells) = words.split_once(" ").unwrap_or((words, ""));
    let Some(register) = register_of(letter) else {
        return add_line(found, "no register");
    };
    let union = union_of(alloc, cells)?;
    let edited = if name == "add" {
        editor.add(register, &union)
    } else if name == "remove" {
        editor.remove(register, &union)
    } else {
        editor.assign(register, union)
    };
    match edited {
        Ok(numbers) => add_moved(alloc, found, Some(numbers)),
        Err(EditFault::TooMany) => add_line(found, "too many"),
        Err(EditFault::Memory) => add_line(found, "memory"),
    }
}

/// Adds how a copy between registers ended, `LETTER LETTER`.
fn add_copied(
    alloc: Global,
    editor: &mut Editor,
    letters: &str,
    found: &mut Vec<u8>,
) -> Result<(), AllocError> {
    let (to, from) = letters.split_once(" ").unwrap_or((letters, ""));
    let (Some(register), Some(other)) = (register_of(to), register_of(from)) else {
        return add_line(found, "no register");
    };
    let numbers = editor.copy(register, other)?;
    add_moved(alloc, found, Some(numbers))
}

/// Adds how many cells were taken out and put in.
fn add_moved(
    alloc: Global,
    found: &mut Vec<u8>,
    numbers: Option<(usize, usize)>,
) -> Result<(), AllocError> {
    match numbers {
        Some((out, put)) => add_line(found, &format!(in alloc; "out {out} put {put}")?),
        None => add_line(found, "nothing"),
    }
}

/// Adds the cells of a register.
fn add_register(editor: &Editor, letter: &str, found: &mut Vec<u8>) -> Result<(), AllocError> {
    match register_of(letter) {
        Some(register) => add_cells(found, editor.register(register).cells()),
        None => add_line(found, "no register"),
    }
}

/// Adds how a list of edits ended, `EDIT / EDIT ..`.
fn add_tally(
    alloc: Global,
    editor: &mut Editor,
    words: &str,
    found: &mut Vec<u8>,
) -> Result<(), AllocError> {
    let mut edits = Vec::new(alloc);
    let mut rest = words;
    for _ in 0..words.len() {
        let (edit, others) = cut(rest);
        if let Some(edit) = edit_of(alloc, edit)? {
            edits.push(edit)?;
        }
        rest = others;
    }
    let tally = run_edits(editor, &edits);
    let (done, refused, memory) = (tally.done, tally.refused, tally.memory);
    let line = format!(in alloc; "done {done} refused {refused} memory {memory}")?;
    add_line(found, &line)
}

/// The edit `assign LETTER CELLS`, `undo` or `redo`.
fn edit_of(alloc: Global, text: &str) -> Result<Option<Edit>, AllocError> {
    let (name, words) = text.split_once(" ").unwrap_or((text, ""));
    if name == "undo" {
        return Ok(Some(Edit::Undo));
    }
    if name == "redo" {
        return Ok(Some(Edit::Redo));
    }
    let (letter, cells) = words.split_once(" ").unwrap_or((words, ""));
    let Some(register) = register_of(letter) else {
        return Ok(None);
    };
    Ok(Some(Edit::Assign(register, union_of(alloc, cells)?)))
}

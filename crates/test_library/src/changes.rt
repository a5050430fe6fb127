//! Changes of a register: those that an editor keeps, and those between two unions.
use crate::edits::register_of;
use crate::texts;
use crate::texts::{add_cells, cut, union_of};
use s2edit::{Change, Editor, Register};
use s2union::CellUnion;
use std::alloc::{AllocError, Global};
use test_table::add_line;

/// Makes a call, and adds its answer. False for the name of another call.
pub fn answer(
    alloc: Global,
    editor: &Editor,
    name: &str,
    words: &str,
    found: &mut Vec<u8>,
) -> Result<bool, AllocError> {
    let added = match name {
        "kept" => add_kept(alloc, editor, found),
        "between" => add_between(alloc, words, found),
        _ => return Ok(false),
    };
    added?;
    Ok(true)
}

/// Adds the kept changes of both sides, the nearest to now first.
fn add_kept(alloc: Global, editor: &Editor, found: &mut Vec<u8>) -> Result<(), AllocError> {
    for n in 0..=editor.undoable() {
        add_change(
            alloc,
            found,
            &format!(in alloc; "back {n}")?,
            editor.change_back(n),
        )?;
    }
    for n in 0..=editor.redoable() {
        add_change(
            alloc,
            found,
            &format!(in alloc; "ahead {n}")?,
            editor.change_ahead(n),
        )?;
    }
    Ok(())
}

/// Adds a change: the number of its register, and both lists.
fn add_change(
    alloc: Global,
    found: &mut Vec<u8>,
    name: &str,
    change: Option<&Change>,
) -> Result<(), AllocError> {
    found.extend_from_slice(name.as_bytes())?;
    match change {
        Some(change) => {
            let register = change.register.index() as u64;
            texts::add_change(alloc, found, register, &change.out, &change.put)
        }
        None => add_line(found, " none"),
    }
}

/// Adds the change of register a from one union to another, `CELLS / CELLS`, which of the two it fits, and what it
/// makes of the first; then its inverse, and which of the two that fits.
fn add_between(alloc: Global, words: &str, found: &mut Vec<u8>) -> Result<(), AllocError> {
    let (old, new) = cut(words);
    let old = union_of(alloc, old)?;
    let new = union_of(alloc, new)?;
    let Some(register) = register_of("a") else {
        return add_line(found, "no register");
    };
    let change = Change::between(alloc, register, &old, &new)?;
    add_change(alloc, found, "change", Some(&change))?;
    add_fits(found, &change, &old, &new)?;
    add_cells(found, changed(alloc, register, &old, &new)?.cells())?;
    let inverse = change.inverse();
    add_change(alloc, found, "inverse", Some(&inverse))?;
    add_fits(found, &inverse, &old, &new)
}

/// The union that the change from one union to another makes of the first, in one with room for no more cells; an empty
/// one if the change can't be made.
#[tactic(auto, using(crate::proofs::Between::between_length))]
fn changed(
    alloc: Global,
    register: Register,
    old: &CellUnion,
    new: &CellUnion,
) -> Result<CellUnion, AllocError> {
    let _ = old.cells();
    let _ = new.cells();
    let change = Change::between(alloc, register, old, new)?;
    let mut into = CellUnion::with_room(alloc, new.len())?;
    let (out, put) = (change.out.as_slice(), change.put.as_slice());
    if old.can_apply(out, put) {
        old.apply_into(out, put, &mut into);
    }
    Ok(into)
}

/// Adds which of two unions a change fits.
fn add_fits(
    found: &mut Vec<u8>,
    change: &Change,
    old: &CellUnion,
    new: &CellUnion,
) -> Result<(), AllocError> {
    let fits = match (change.fits(old), change.fits(new)) {
        (true, true) => "fits both",
        (true, false) => "fits the first",
        (false, true) => "fits the second",
        (false, false) => "fits none",
    };
    add_line(found, fits)
}

//! Registers and files.
ghost use Rattle.std.specs.Prelude.{List, ℕ};
ghost use Rattle.s2calc.specs.Working.Answer.{reply_of};
ghost use Rattle.s2calc.specs.Step.{Loads, Saves, WritesBytes};
ghost use Rattle.s2calc.specs.World.{world};
ghost use Rattle.s2edit.specs.History.{History};

use crate::answer::Answer;
use crate::edits::assign;
use crate::fetch::fetch_union;
use crate::refusal::Refusal;
use s2edit::{Editor, Register};
use s2file::encode;
use s2script::Name;
use s2shelf::{Shelf, ShelfFault};
use std::alloc::Global;

/// Gives a register what a file holds. The file is fetched and read first; the limit is checked after that.
pub(crate) fn load<S: Shelf>(
    alloc: Global,
    editor: &mut Editor,
    register: Register,
    name: &Name<'_>,
    shelf: &mut S,
) -> Answer
    ensures { Loads register name.now (world editor.old (S.files shelf.old)) (reply_of result editor.new)
        (world editor.new (S.files shelf.new)) }
{
    match fetch_union(alloc, shelf, name.as_str()) {
        Ok(union) => assign(editor, register, union),
        Err(refusal) => Answer::Refused(refusal),
    }
}

/// Writes a register to a file.
pub(crate) fn save<S: Shelf>(
    alloc: Global,
    editor: &Editor,
    register: Register,
    name: &Name<'_>,
    shelf: &mut S,
) -> Answer
    ensures { Saves register name.now (world editor.now (S.files shelf.old)) (reply_of result editor.now)
        (world editor.now (S.files shelf.new)) }
{
    let Ok(bytes) = encode(alloc, editor.register(register)) else {
        return Answer::Refused(Refusal::Memory);
    };
    store(shelf, name, bytes.as_slice())
}

/// Writes bytes to a file.
pub(crate) fn store<S: Shelf>(shelf: &mut S, name: &Name<'_>, bytes: &[u8]) -> Answer
    ensures { (state : History (List ℕ)) → WritesBytes name.now bytes.now (S.files shelf.old) (reply_of result state)
        (S.files shelf.new) }
{
    match shelf.put(name.as_str(), bytes) {
        Ok(()) => Answer::Done,
        Err(ShelfFault::Device) => Answer::Refused(Refusal::File),
        Err(ShelfFault::Memory) => Answer::Refused(Refusal::Memory),
    }
}

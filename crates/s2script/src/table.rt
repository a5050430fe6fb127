//! The table of commands: each name, the form of the words after it, and what they ask for.
ghost use Rattle.std.specs.Prelude.{◌≡◌};
ghost use Rattle.std.specs.Str.{bytes_eq};
ghost use Rattle.s2script.specs.declared.command.Command.TheVariants.{Edit as EditOf};
ghost use Rattle.s2script.specs.declared.command.Question.TheVariants.{Compares};
ghost use Rattle.s2script.specs.Table.{combination_of, command_of, covering_of, fact_of, file_or_move_of, question_of};

use crate::command::{Command, Comparison, Question, RegisterEdit};
use crate::forms::{
    one_cell, one_name, one_place, one_register, register_and_cell, register_and_cells,
    register_and_name, register_and_span, register_level_modulus, register_level_rect,
    registers_level_rect, two_registers,
};
use crate::misfit::{Misfit, Wanted};
use crate::register::Register;
use crate::words::Words;

/// The help on a script: the commands of this table, with the forms of their words.
pub const HELP: &str =
    "The script has one command a line. Registers r and s are letters from a to z; a CELL is a token (64c) or a debug
text (3/021).

  add r CELL..                             adds the cells
  remove r CELL..                          takes the cells out
  keep r CELL..                            keeps what the register shares with the cells
  union r s                                adds register s
  subtract r s                             takes register s out
  intersect r s                            keeps what both registers share
  copy r s                                 holds what register s holds
  clear r                                  empties the register
  range r CELL CELL                        holds all leaves from one cell to another
  outer r LEVEL FACE I0 I1 J0 J1           holds the cells of the level that meet the rectangle
  inner r LEVEL FACE I0 I1 J0 J1           holds the cells of the level that lie in it
  outerof r s LEVEL [FACE I0 I1 J0 J1]     holds those that meet register s, or what a rectangle has of it
  innerof r s LEVEL [FACE I0 I1 J0 J1]     holds those that lie in it
  show r                                   lists its cells
  count r                                  counts its cells and their leaves
  denorm r MIN MOD                         lists its cells, cut to levels MIN, MIN + MOD, .. or 30
  has r CELL                               yes or no: it has all leaves of the cell
  touches r CELL                           yes or no: it has a leaf of the cell
  covers r s                               yes or no: it has all leaves of register s
  meets r s                                yes or no: it has a leaf of register s
  cell CELL                                describes the cell
  at FACE I J                              describes the leaf at a place
  square CELL                              where the cell's square lies, and how wide it is
  load r NAME                              holds the union of a file in S2's own encoding
  save r NAME                              writes the register to such a file
  undo                                     goes back to the state before the last edit
  redo                                     goes forward again
  history                                  counts what can be undone and redone
  dump NAME                                writes all registers and their history to a file
  restore NAME                             goes on from what such a file holds

A line that can't be carried out is answered 'error NAME' and changes no register.";

/// What the command with this name asks for, by the words after it: an edit of a register by cells, or another command.
#[inline(always)]
#[tactic(auto, unfolding(crate::specs::Table::command_of))]
pub(crate) fn command_of<'a>(name: &'a [u8], words: Words<'a>) -> Result<Command<'a>, Misfit<'a>>
    ensures { result ≡ command_of name.now words.entry }
{
    if is(name, b"add") {
        let (register, cells) = register_and_cells(words)?;
        Ok(edit_of(register, RegisterEdit::Add(cells)))
    } else if is(name, b"remove") {
        let (register, cells) = register_and_cells(words)?;
        Ok(edit_of(register, RegisterEdit::Remove(cells)))
    } else if is(name, b"keep") {
        let (register, cells) = register_and_cells(words)?;
        Ok(edit_of(register, RegisterEdit::Keep(cells)))
    } else if is(name, b"clear") {
        let register = one_register(words)?;
        Ok(edit_of(register, RegisterEdit::Clear))
    } else if is(name, b"range") {
        let (register, span) = register_and_span(words)?;
        Ok(edit_of(register, RegisterEdit::Range(span)))
    } else {
        combination_of(name, words)
    }
}

/// What a command asks for: an edit of a register by another register, or another command.
#[inline(always)]
#[tactic(auto, unfolding(crate::specs::Table::combination_of))]
fn combination_of<'a>(name: &'a [u8], words: Words<'a>) -> Result<Command<'a>, Misfit<'a>>
    ensures { result ≡ combination_of name.now words.entry }
{
    if is(name, b"copy") {
        let (register, other) = two_registers(words)?;
        Ok(edit_of(register, RegisterEdit::Copy(other)))
    } else if is(name, b"union") {
        let (register, other) = two_registers(words)?;
        Ok(edit_of(register, RegisterEdit::Union(other)))
    } else if is(name, b"intersect") {
        let (register, other) = two_registers(words)?;
        Ok(edit_of(register, RegisterEdit::Intersect(other)))
    } else if is(name, b"subtract") {
        let (register, other) = two_registers(words)?;
        Ok(edit_of(register, RegisterEdit::Subtract(other)))
    } else {
        covering_of(name, words)
    }
}

/// What a command asks for: an edit of a register by a covering, or another command.
#[inline(always)]
#[tactic(auto, unfolding(crate::specs::Table::covering_of))]
fn covering_of<'a>(name: &'a [u8], words: Words<'a>) -> Result<Command<'a>, Misfit<'a>>
    ensures { result ≡ covering_of name.now words.entry }
{
    if is(name, b"outer") {
        let (register, level, rect) = register_level_rect(words)?;
        Ok(edit_of(register, RegisterEdit::Outer { level, rect }))
    } else if is(name, b"inner") {
        let (register, level, rect) = register_level_rect(words)?;
        Ok(edit_of(register, RegisterEdit::Inner { level, rect }))
    } else if is(name, b"outerof") {
        let (register, other, level, rect) = registers_level_rect(words)?;
        Ok(edit_of(register, RegisterEdit::OuterOf { other, level, rect }))
    } else if is(name, b"innerof") {
        let (register, other, level, rect) = registers_level_rect(words)?;
        Ok(edit_of(register, RegisterEdit::InnerOf { other, level, rect }))
    } else {
        file_or_move_of(name, words)
    }
}

/// What a command asks for: a file, a move in the history, or an answer.
#[inline(always)]
#[tactic(auto, unfolding(crate::specs::Table::file_or_move_of))]
fn file_or_move_of<'a>(name: &'a [u8], mut words: Words<'a>) -> Result<Command<'a>, Misfit<'a>>
    ensures { result ≡ file_or_move_of name.now words.entry }
{
    if is(name, b"load") {
        let (register, name) = register_and_name(words)?;
        Ok(Command::Load { register, name })
    } else if is(name, b"save") {
        let (register, name) = register_and_name(words)?;
        Ok(Command::Save { register, name })
    } else if is(name, b"dump") {
        let name = one_name(words)?;
        Ok(Command::Dump { name })
    } else if is(name, b"restore") {
        let name = one_name(words)?;
        Ok(Command::Restore { name })
    } else if is(name, b"undo") {
        words.end()?;
        Ok(Command::Undo)
    } else if is(name, b"redo") {
        words.end()?;
        Ok(Command::Redo)
    } else {
        let question = question_of(name, words)?;
        Ok(Command::Ask(question))
    }
}

/// What the question with this name asks, by the words after it: a question about registers, or another one.
#[inline(always)]
#[tactic(auto, unfolding(crate::specs::Table::question_of))]
fn question_of<'a>(name: &'a [u8], words: Words<'a>) -> Result<Question, Misfit<'a>>
    ensures { result ≡ question_of name.now words.entry }
{
    if is(name, b"show") {
        let register = one_register(words)?;
        Ok(Question::Show(register))
    } else if is(name, b"count") {
        let register = one_register(words)?;
        Ok(Question::Count(register))
    } else if is(name, b"has") {
        let (register, cell) = register_and_cell(words)?;
        Ok(Question::Has { register, cell })
    } else if is(name, b"touches") {
        let (register, cell) = register_and_cell(words)?;
        Ok(Question::Touches { register, cell })
    } else if is(name, b"covers") {
        let (register, other) = two_registers(words)?;
        Ok(compares(Comparison::Covers, register, other))
    } else if is(name, b"meets") {
        let (register, other) = two_registers(words)?;
        Ok(compares(Comparison::Meets, register, other))
    } else if is(name, b"denorm") {
        let (register, least, modulus) = register_level_modulus(words)?;
        Ok(Question::Denorm {
            register,
            least,
            modulus,
        })
    } else {
        fact_of(name, words)
    }
}

/// What a question asks for: a cell, a place or the history.
#[inline(always)]
#[tactic(auto, unfolding(crate::specs::Table::fact_of))]
fn fact_of<'a>(name: &'a [u8], mut words: Words<'a>) -> Result<Question, Misfit<'a>>
    ensures { result ≡ fact_of name.now words.entry }
{
    if is(name, b"cell") {
        let cell = one_cell(words)?;
        Ok(Question::Cell(cell))
    } else if is(name, b"at") {
        let place = one_place(words)?;
        Ok(Question::At(place))
    } else if is(name, b"square") {
        let cell = one_cell(words)?;
        Ok(Question::Square(cell))
    } else if is(name, b"history") {
        words.end()?;
        Ok(Question::History)
    } else {
        Err(Misfit::unfit(name, Wanted::CommandName))
    }
}

/// An edit of a register, as a command.
fn edit_of<'a>(register: Register, edit: RegisterEdit<'a>) -> Command<'a>
    ensures { result ≡ EditOf register edit.entry }
{
    Command::Edit { register, edit }
}

/// A comparison of two registers, as a question.
fn compares(comparison: Comparison, register: Register, other: Register) -> Question
    ensures { result ≡ Compares comparison register other }
{
    Question::Compares {
        comparison,
        register,
        other,
    }
}

/// Whether a name is this one. With two calls in each arm, of `as_slice` and `==`, the functions of the table took a
/// third longer to prove.
#[inline(always)]
fn is(name: &[u8], this: &[u8]) -> bool
    ensures { result ≡ bytes_eq name.now this.now }
{
    name == this
}

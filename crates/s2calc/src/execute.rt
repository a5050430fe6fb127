//! Carrying out a line.
ghost use Rattle.std.specs.Prelude.{◌≡◌, true};
ghost use Rattle.s2calc.specs.Working.Calls.{FailedIfErr};
ghost use Rattle.s2calc.specs.Working.Execute.{Executes, outcome_of};
ghost use Rattle.s2calc.specs.Working.Answer.{reply_of};
ghost use Rattle.s2calc.specs.Step.{StepBy, Acts, uses_file, asks_for_file};
ghost use Rattle.s2calc.specs.World.{world};

use crate::answer::{Answer, write_answer};
use crate::edits::{edit_register, redo, undo};
use crate::fault::RunFault;
use crate::files::{load, save};
use crate::flushing::Flushing;
use crate::questions::answer_to;
use crate::refusal::Refusal;
use crate::sessions::{dump, restore};
use crate::streams::Sink;
use s2edit::Editor;
use s2script::{Command, Parsed};
use s2shelf::Shelf;
use std::alloc::Global;

/// How a line was answered.
#[derive(Clone, Copy, Debug, PartialEq, Eq)]
pub enum Outcome {
    /// Nothing was written.
    Silent,
    /// An answer was written.
    Answered,
    /// This refusal was written.
    Refused(Refusal),
}

/// Carries out what a line says, and writes its answer. If the writer fails, it was still carried out. Nothing waits in
/// the writer when a command with a file is carried out.
pub(crate) fn execute<W: Sink, S: Shelf, F: Flushing<W>>(
    alloc: Global,
    editor: &mut Editor,
    said: Parsed<'_>,
    writer: &mut W,
    shelf: &mut S,
) -> Result<Outcome, RunFault>
    requires { asks_for_file said ≡ true → F.is_sent writer.old }
    ensures executes { Executes (world editor.old (S.files shelf.old)) said.entry
        (world editor.new (S.files shelf.new)) (W.contents writer.old) (W.contents writer.new) result }
    ensures calls { FailedIfErr ⊥ (W.calls writer.old) (W.calls writer.new) result }
{
    let answer = carry_out(alloc, editor, said, shelf);
    write_answer(writer, &answer, editor)?;
    Ok(outcome_of(&answer, editor))
}

fn outcome_of(answer: &Answer, editor: &Editor) -> Outcome
    ensures { result ≡ outcome_of (reply_of answer.now editor.now) }
{
    let _ = editor;
    match answer {
        Answer::Nothing => Outcome::Silent,
        Answer::Refused(refusal) => Outcome::Refused(*refusal),
        _ => Outcome::Answered,
    }
}

/// Whether a line that says this asks for a command with a file.
pub(crate) fn asks_for_file(said: &Parsed<'_>) -> bool
    ensures { result ≡ asks_for_file said.now }
{
    match said {
        Parsed::Does(command) => uses_file(command),
        Parsed::Nothing | Parsed::Fails(_) => false,
    }
}

/// Whether a command reads or writes a file.
fn uses_file(command: &Command<'_>) -> bool
    ensures { result ≡ uses_file command.now }
{
    match command {
        Command::Load { .. }
        | Command::Save { .. }
        | Command::Dump { .. }
        | Command::Restore { .. } => true,
        Command::Edit { .. } | Command::Undo | Command::Redo | Command::Ask(_) => false,
    }
}

/// Carries out what a line says. The answer must be written before the next line.
fn carry_out<S: Shelf>(
    alloc: Global,
    editor: &mut Editor,
    said: Parsed<'_>,
    shelf: &mut S,
) -> Answer
    ensures { StepBy said.entry (world editor.old (S.files shelf.old)) (reply_of result editor.new)
        (world editor.new (S.files shelf.new)) }
{
    match said {
        Parsed::Nothing => Answer::Nothing,
        Parsed::Fails(refusal) => Answer::Refused(Refusal::Words(refusal)),
        Parsed::Does(command) => act(alloc, editor, command, shelf),
    }
}

/// Carries out a command.
fn act<S: Shelf>(alloc: Global, editor: &mut Editor, command: Command<'_>, shelf: &mut S) -> Answer
    ensures { Acts command.entry (world editor.old (S.files shelf.old)) (reply_of result editor.new)
        (world editor.new (S.files shelf.new)) }
{
    match command {
        Command::Edit { register, edit } => edit_register(alloc, editor, register, edit),
        Command::Load { register, name } => load(alloc, editor, register, &name, shelf),
        Command::Save { register, name } => save(alloc, editor, register, &name, shelf),
        Command::Dump { name } => dump(alloc, editor, &name, shelf),
        Command::Restore { name } => restore(alloc, editor, &name, shelf),
        Command::Undo => undo(editor),
        Command::Redo => redo(editor),
        Command::Ask(question) => answer_to(editor, &question),
    }
}

//! What a line says, and where it does not fit.
ghost use Rattle.std.specs.Prelude.{◌≡◌, MatchOption};
ghost use Rattle.s2script.specs.Words.{is_comment, without_cr};
ghost use Rattle.s2script.specs.Misfits.{refusal_of};
ghost use Rattle.s2script.specs.Line.{line_of, misfit_of, reading_of, read_within, command_in};
ghost use Rattle.s2script.specs.declared.refusal.Refusal.{Refusal};
ghost use Rattle.s2script.specs.declared.command.Parsed.TheVariants.{Fails};

use crate::command::{Command, Parsed};
use crate::limits::LONGEST_LINE;
use crate::misfit::Misfit;
use crate::table::command_of;
use crate::words::Words;

/// What a line says. The line is given without its newline; one CR at its end is dropped.
#[tactic(auto, unfolding(crate::specs::Line::line_of))]
pub fn parse(line: &[u8]) -> Parsed<'_>
    ensures { result ≡ line_of line.now }
{
    match read(line) {
        Ok(None) => Parsed::Nothing,
        Ok(Some(command)) => Parsed::Does(command),
        Err(misfit) => Parsed::Fails(misfit.refusal()),
    }
}

/// Where a line does not fit: the first word, from the left, that is not what is wanted in its place, and what is
/// wanted there. `None` if `parse` does not refuse the line; otherwise `parse` refuses it with the refusal of this
/// misfit. Takes no memory.
#[tactic(auto, unfolding(crate::specs::Line::line_of, crate::specs::Line::misfit_of))]
pub fn misfit_of(line: &[u8]) -> Option<Misfit<'_>>
    ensures value { result ≡ misfit_of line.now }
    ensures refusal { MatchOption result ((refusal : Refusal) → line_of line.now ≡ Fails refusal → ⊥)
        (λ misfit. line_of line.now ≡ Fails (refusal_of misfit)) }
{
    match read(line) {
        Ok(_) => None,
        Err(misfit) => Some(misfit),
    }
}

/// The command that a line asks for, if it asks for one, or where the line does not fit.
#[tactic(auto, unfolding(crate::specs::Line::reading_of))]
fn read(line: &[u8]) -> Result<Option<Command<'_>>, Misfit<'_>>
    ensures { result ≡ reading_of line.now }
{
    if line.len() > LONGEST_LINE {
        Err(Misfit::LongLine)
    } else {
        read_within(line)
    }
}

/// The command of a line that is not too long. None for a comment.
fn read_within(line: &[u8]) -> Result<Option<Command<'_>>, Misfit<'_>>
    ensures { result ≡ read_within line.now }
{
    if is_comment(line) {
        Ok(None)
    } else {
        command_in(Words::of(without_cr(line)))
    }
}

fn is_comment(line: &[u8]) -> bool
    ensures { result ≡ is_comment line.now }
{
    match line {
        [first, ..] => *first == b'#',
        [] => false,
    }
}

/// The line without one CR at its end.
fn without_cr(line: &[u8]) -> &[u8]
    ensures { result.now ≡ without_cr line.now }
{
    if !line.is_empty() && line[line.len() - 1] == b'\r' {
        &line[..line.len() - 1]
    } else {
        line
    }
}

/// The command of a line's words, by the first word. None if there are no words.
fn command_in(mut words: Words<'_>) -> Result<Option<Command<'_>>, Misfit<'_>>
    ensures { result ≡ command_in words.entry }
{
    let Some(name) = words.next() else {
        return Ok(None);
    };
    let command = command_of(name, words)?;
    Ok(Some(command))
}

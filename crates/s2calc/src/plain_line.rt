//! Command lines that clap is proved to read: the command is known by the first word, and each has a parser of its own,
//! which takes no value that begins with a hyphen. Words that it doesn't take are left to the parser of all commands.
ghost use Rattle.std.specs.Prelude.{◌≡◌, IfOk, IfSome, IsSomeAnd, true, map, string_bytes};
ghost use Rattle.clap.specs.Words.{HasMatchesOf, app_of, takes};
ghost use Rattle.s2calc.specs.Program.{IsInRange};
ghost use Rattle.s2calc.specs.Working.CommandLine.{FindsCell, FindsCheck, FindsRun, PlainCell, PlainCheck, PlainRun};
ghost use Rattle.s2calc.specs.Working.CommandLine.{cell_app, check_app, run_app};

use crate::arguments::{cell, depth, explain, file, folder, limit, prompt, stop};
use crate::jobs::{cell_job, check_job, run_job};
use crate::task::Job;
use clap::error::ErrorKind;
use clap::{ArgMatches, Command};
use std::alloc::{AllocError, Global};

/// The job, if the words are those of a plain command line.
pub(crate) fn plain_job(alloc: Global, words: &[String]) -> Result<Option<Job>, AllocError>
    ensures range { IfOk result (λ job. IfSome job IsInRange) }
    ensures run { PlainRun (map string_bytes words.now) result }
    ensures cell { PlainCell (map string_bytes words.now) result }
    ensures check { PlainCheck (map string_bytes words.now) result }
{
    match words.get(1) {
        Some(name) if name.as_str() == "run" => plain_run(alloc, &words[1..]),
        Some(name) if name.as_str() == "cell" => plain_cell(alloc, &words[1..]),
        Some(name) if name.as_str() == "check" => plain_check(alloc, &words[1..]),
        _ => Ok(None),
    }
}

/// The run that the words ask for, the first of which is `run`.
fn plain_run(alloc: Global, words: &[String]) -> Result<Option<Job>, AllocError>
    ensures range { IfOk result (λ job. IfSome job IsInRange) }
    ensures run { FindsRun (map string_bytes words.now) result }
{
    let command = run_line(alloc)?;
    match taken(command, words)? {
        Some(matches) => run_job(alloc, &matches),
        None => Ok(None),
    }
}

/// The cell that the words ask about, the first of which is `cell`.
fn plain_cell(alloc: Global, words: &[String]) -> Result<Option<Job>, AllocError>
    ensures range { IfOk result (λ job. IfSome job IsInRange) }
    ensures cell { FindsCell (map string_bytes words.now) result }
{
    let command = cell_line(alloc)?;
    match taken(command, words)? {
        Some(matches) => cell_job(alloc, &matches),
        None => Ok(None),
    }
}

/// The file that the words ask to check, the first of which is `check`.
fn plain_check(alloc: Global, words: &[String]) -> Result<Option<Job>, AllocError>
    ensures range { IfOk result (λ job. IfSome job IsInRange) }
    ensures check { FindsCheck (map string_bytes words.now) result }
{
    let command = check_line(alloc)?;
    match taken(command, words)? {
        Some(matches) => check_job(alloc, &matches),
        None => Ok(None),
    }
}

/// The values that clap reads in the words, if the command takes them.
fn taken<'a>(
    command: Command<'a>,
    words: &'a [String],
) -> Result<Option<ArgMatches<'a>>, AllocError>
    ensures { takes (app_of command.entry) (map string_bytes words.entry.now) ≡ true → IfOk result (λ matches.
        IsSomeAnd matches (HasMatchesOf (app_of command.entry) (map string_bytes words.entry.now))) }
{
    match command.try_get_matches_from(words) {
        Ok(matches) => Ok(Some(matches)),
        Err(error) if error.kind() == ErrorKind::OutOfMemory => Err(AllocError),
        Err(_) => Ok(None),
    }
}

/// The command `run`.
fn run_line<'a>(alloc: Global) -> Result<Command<'a>, AllocError>
    ensures { IfOk result (λ command. app_of command ≡ run_app) }
{
    Command::new(alloc, "run")
        .arg(limit(alloc))?
        .arg(depth(alloc))?
        .arg(folder(alloc))?
        .arg(explain(alloc))?
        .arg(prompt(alloc))?
        .arg(stop(alloc))
}

/// The command `cell`.
fn cell_line<'a>(alloc: Global) -> Result<Command<'a>, AllocError>
    ensures { IfOk result (λ command. app_of command ≡ cell_app) }
{
    Command::new(alloc, "cell").arg(cell(alloc))
}

/// The command `check`.
fn check_line<'a>(alloc: Global) -> Result<Command<'a>, AllocError>
    ensures { IfOk result (λ command. app_of command ≡ check_app) }
{
    Command::new(alloc, "check")
        .arg(folder(alloc))?
        .arg(file(alloc))
}

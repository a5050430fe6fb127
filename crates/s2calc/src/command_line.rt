//! The command line.
ghost use Rattle.std.specs.Prelude.{IfOk, IfSome, map, string_bytes};
ghost use Rattle.clap.specs.Values.{kind_of};
ghost use Rattle.s2calc.specs.CommandLine.{AsksForCell, AsksForCheck, AsksForRun};
ghost use Rattle.s2calc.specs.Program.{IsInRange};
ghost use Rattle.s2calc.specs.Working.Program.{IsStopOf};

use crate::arguments::{cell, depth, explain, file, folder, limit, prompt, stop};
use crate::help::{ABOUT, AFTER, PICTURE};
use crate::jobs::{cell_job, check_job, draw_job, run_job};
use crate::plain_line::plain_job;
use crate::task::{Job, Stop};
use clap::error::ErrorKind;
use clap::{Arg, ArgAction, ArgGroup, ArgMatches, Command, Error};
use s2script::HELP;
use std::alloc::{AllocError, Global};

/// What the words of the command line ask for. The first word is the name of the program.
///
/// `Stop::Memory` may come in place of any answer.
pub fn job(alloc: Global, words: Vec<String>) -> Result<Job, Stop>
    ensures range { IfOk result IsInRange }
    ensures run { AsksForRun (map string_bytes words.items) result }
    ensures cell { AsksForCell (map string_bytes words.items) result }
    ensures check { AsksForCheck (map string_bytes words.items) result }
{
    match plain_job(alloc, words.as_slice()) {
        Ok(Some(job)) => Ok(job),
        Ok(None) => any_job(alloc, words),
        Err(_) => Err(Stop::Memory),
    }
}

/// The job that words of any form ask for.
fn any_job(alloc: Global, words: Vec<String>) -> Result<Job, Stop>
    ensures { IfOk result IsInRange }
{
    match parse(alloc, words) {
        Ok(job) => Ok(job),
        Err(error) => Err(stop_of(alloc, &error)),
    }
}

/// The same, with clap's own error.
fn parse(alloc: Global, words: Vec<String>) -> Result<Job, Error>
    ensures { IfOk result IsInRange }
{
    let mut command = command(alloc)?;
    let matches = command.try_get_matches_from_mut(words.as_slice())?;
    match job_of(alloc, &matches)? {
        Some(job) => Ok(job),
        None => Err(command.error(ErrorKind::MissingSubcommand, "a command is missing")?),
    }
}

/// What clap's error stops the program with.
fn stop_of(alloc: Global, error: &Error) -> Stop
    ensures { IsStopOf (kind_of error.now) result }
{
    if error.kind() == ErrorKind::OutOfMemory {
        return Stop::Memory;
    }
    match format!(in alloc; "{error}") {
        Ok(text) if error.use_stderr() => Stop::Usage(text),
        Ok(text) => Stop::Help(text),
        Err(_) => Stop::Memory,
    }
}

/// The job that words of the right form ask for.
fn job_of(alloc: Global, matches: &ArgMatches<'_>) -> Result<Option<Job>, AllocError>
    ensures { IfOk result (λ job. IfSome job IsInRange) }
{
    if let Some(run) = matches.subcommand_matches("run") {
        return run_job(alloc, run);
    }
    if let Some(cell) = matches.subcommand_matches("cell") {
        return cell_job(alloc, cell);
    }
    if let Some(check) = matches.subcommand_matches("check") {
        return check_job(alloc, check);
    }
    if let Some(draw) = matches.subcommand_matches("draw") {
        return draw_job(alloc, draw);
    }
    Ok(None)
}

/// The program with its commands.
fn command<'a>(alloc: Global) -> Result<Command<'a>, AllocError> {
    let command = Command::new(alloc, "s2calc")
        .bin_name("s2calc")?
        .about(ABOUT)
        .after_help(AFTER)
        .version("1.4.1")
        .subcommand_required(true);
    with_commands(
        alloc,
        command,
        &[
            CommandName::Run,
            CommandName::Cell,
            CommandName::Check,
            CommandName::Draw,
        ],
    )
}

/// A command.
#[derive(Clone, Copy)]
enum CommandName {
    Run,
    Cell,
    Check,
    Draw,
}

/// An argument.
#[derive(Clone, Copy)]
enum ArgumentName {
    Limit,
    Depth,
    Dir,
    DirOfFiles,
    Explain,
    Prompt,
    Stop,
    Cell,
    File,
    Cells,
    Curve,
    Fit,
    Files,
}

/// A command with more commands.
fn with_commands<'a>(
    alloc: Global,
    command: Command<'a>,
    names: &[CommandName],
) -> Result<Command<'a>, AllocError> {
    let mut command = command;
    for named in names {
        command = command.subcommand(command_of(alloc, *named)?)?;
    }
    Ok(command)
}

fn command_of<'a>(alloc: Global, named: CommandName) -> Result<Command<'a>, AllocError> {
    match named {
        CommandName::Run => run_command(alloc),
        CommandName::Cell => cell_command(alloc),
        CommandName::Check => check_command(alloc),
        CommandName::Draw => draw_command(alloc),
    }
}

/// A command with more arguments.
fn with_arguments<'a>(
    alloc: Global,
    command: Command<'a>,
    names: &[ArgumentName],
) -> Result<Command<'a>, AllocError> {
    let mut command = command;
    for named in names {
        command = command.arg(arg_of(alloc, *named)?)?;
    }
    Ok(command)
}

fn arg_of<'a>(alloc: Global, named: ArgumentName) -> Result<Arg<'a>, AllocError> {
    match named {
        ArgumentName::Limit => Ok(limit(alloc)),
        ArgumentName::Depth => Ok(depth(alloc)),
        ArgumentName::Dir => Ok(dir(alloc)),
        ArgumentName::DirOfFiles => dir(alloc).conflicts_with("cells"),
        ArgumentName::Explain => Ok(explain(alloc)),
        ArgumentName::Prompt => Ok(prompt(alloc)),
        ArgumentName::Stop => Ok(stop(alloc)),
        ArgumentName::Cell => Ok(cell(alloc).allow_hyphen_values(true)),
        ArgumentName::File => Ok(file(alloc).allow_hyphen_values(true)),
        ArgumentName::Cells => Ok(cells(alloc)),
        ArgumentName::Curve => Ok(curve(alloc)),
        ArgumentName::Fit => fit(alloc),
        ArgumentName::Files => Ok(files(alloc)),
    }
}

/// The command `run`.
fn run_command<'a>(alloc: Global) -> Result<Command<'a>, AllocError> {
    let command = Command::new(alloc, "run")
        .about("Answers the script on standard input")
        .after_help(HELP);
    with_arguments(
        alloc,
        command,
        &[
            ArgumentName::Limit,
            ArgumentName::Depth,
            ArgumentName::Dir,
            ArgumentName::Explain,
            ArgumentName::Prompt,
            ArgumentName::Stop,
        ],
    )
}

/// The command `cell`.
fn cell_command<'a>(alloc: Global) -> Result<Command<'a>, AllocError> {
    let command = Command::new(alloc, "cell").about("Tells what is known of a cell");
    with_arguments(alloc, command, &[ArgumentName::Cell])
}

/// The command `check`.
fn check_command<'a>(alloc: Global) -> Result<Command<'a>, AllocError> {
    let command = Command::new(alloc, "check").about(
        "Tells how many cells and leaves a union file has",
    );
    with_arguments(alloc, command, &[ArgumentName::Dir, ArgumentName::File])
}

/// The command `draw`. Either files or cells are required.
fn draw_command<'a>(alloc: Global) -> Result<Command<'a>, AllocError> {
    let command = Command::new(alloc, "draw")
        .about("Draws union files, or cells, as an SVG image")
        .after_help(PICTURE);
    let command = with_arguments(
        alloc,
        command,
        &[
            ArgumentName::DirOfFiles,
            ArgumentName::Cells,
            ArgumentName::Curve,
            ArgumentName::Fit,
            ArgumentName::Files,
        ],
    )?;
    command.group(drawn(alloc)?)
}

/// What is drawn.
fn drawn<'a>(alloc: Global) -> Result<ArgGroup<'a>, AllocError> {
    let drawn = ArgGroup::new(alloc, "drawn").arg("FILE")?.arg("cells")?;
    Ok(drawn.required(true))
}

/// The files to draw.
fn files<'a>(alloc: Global) -> Arg<'a> {
    Arg::new(alloc, "FILE")
        .help("The name of a file in the folder; of several, each has its own color")
        .num_args(1..)
        .action(ArgAction::Set)
}

/// The cells to draw.
fn cells<'a>(alloc: Global) -> Arg<'a> {
    Arg::new(alloc, "cells")
        .long("cells")
        .value_name("CELL")
        .help("Draws these cells in this order, by tokens or debug texts")
        .num_args(1..)
        .action(ArgAction::Set)
}

/// Whether the line through the cells is drawn too.
fn curve<'a>(alloc: Global) -> Arg<'a> {
    Arg::new(alloc, "curve")
        .long("curve")
        .help("Joins the middles of the cells by a line, in their order")
        .action(ArgAction::SetTrue)
}

/// Whether only the part is drawn in which the files' unions lie.
fn fit<'a>(alloc: Global) -> Result<Arg<'a>, AllocError> {
    Arg::new(alloc, "fit")
        .long("fit")
        .help("Draws the part of the faces in which the files' cells lie, with a margin")
        .action(ArgAction::SetTrue)
        .conflicts_with("cells")?
        .conflicts_with("curve")
}

/// The path of the folder of files, whatever it begins with.
fn dir<'a>(alloc: Global) -> Arg<'a> {
    folder(alloc).allow_hyphen_values(true)
}

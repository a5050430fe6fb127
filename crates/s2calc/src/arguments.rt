//! The arguments of the program's commands.
ghost use Rattle.std.specs.Prelude.{◌≡◌, false, codes};
ghost use Rattle.clap.specs.Words.{rule_of};
ghost use Rattle.s2calc.specs.Working.CommandLine.{depth_rule, folder_rule, limit_rule, wish_rule, word_rule};
ghost use Rattle.s2calc.specs.Working.CommandLine.{setting_rule};

use clap::builder::ValueParser;
use clap::{Arg, ArgAction, value_parser};
use s2edit::{MOST_REGISTER, MOST_STATES};
use std::alloc::Global;

/// The most cells of a register.
pub(crate) fn limit<'a>(alloc: Global) -> Arg<'a>
    ensures rule { rule_of result ≡ limit_rule }
    ensures local { result.global ≡ false }
{
    number(
        alloc,
        "limit",
        "10000",
        "The most cells of a register, 1 to 1000000",
    )
    .value_parser(value_parser!(usize).range(1..=MOST_REGISTER as i64))
}

/// The most states that undo can go back.
pub(crate) fn depth<'a>(alloc: Global) -> Arg<'a>
    ensures rule { rule_of result ≡ depth_rule }
    ensures local { result.global ≡ false }
{
    number(
        alloc,
        "depth",
        "100",
        "The most states that undo can go back, 1 to 10000",
    )
    .value_parser(value_parser!(usize).range(1..=MOST_STATES as i64))
}

/// A number, of which it isn't said yet in which range.
fn number<'a>(alloc: Global, name: &'a str, usual: &'a str, help: &'a str) -> Arg<'a>
    ensures rule { (parser : _) → rule_of (record result { value_parser = Some parser })
        ≡ setting_rule name.entry.now parser usual.entry.now }
    ensures local { result.global ≡ false }
{
    Arg::new(alloc, name)
        .long(name)
        .value_name("N")
        .help(help)
        .action(ArgAction::Set)
        .default_value(usual)
}

/// The path of the folder of files, which begins with no hyphen unless it follows an equals sign. An empty path is
/// refused, since it would name the root folder.
pub(crate) fn folder<'a>(alloc: Global) -> Arg<'a>
    ensures rule { rule_of result ≡ folder_rule }
    ensures local { result.global ≡ false }
{
    Arg::new(alloc, "dir")
        .long("dir")
        .value_name("PATH")
        .help("The folder of the files")
        .action(ArgAction::Set)
        .value_parser(ValueParser::NonEmptyString)
        .default_value(".")
}

/// The flag that asks why lines are refused.
pub(crate) fn explain<'a>(alloc: Global) -> Arg<'a>
    ensures rule { rule_of result ≡ wish_rule (codes "explain") }
    ensures local { result.global ≡ false }
{
    Arg::new(alloc, "explain")
        .long("explain")
        .help("Says on standard error why lines are refused")
        .action(ArgAction::SetTrue)
}

/// The flag that asks for a prompt.
pub(crate) fn prompt<'a>(alloc: Global) -> Arg<'a>
    ensures rule { rule_of result ≡ wish_rule (codes "prompt") }
    ensures local { result.global ≡ false }
{
    Arg::new(alloc, "prompt")
        .long("prompt")
        .help(
            "Shows a prompt on standard error, and explains; 'rlwrap s2calc run --prompt' edits lines",
        )
        .action(ArgAction::SetTrue)
}

/// The flag that asks for an end at the first error.
pub(crate) fn stop<'a>(alloc: Global) -> Arg<'a>
    ensures rule { rule_of result ≡ wish_rule (codes "stop") }
    ensures local { result.global ≡ false }
{
    Arg::new(alloc, "stop")
        .long("stop")
        .help(
            "Stops at the first line with an error; without it a script goes on, and save replaces a file",
        )
        .action(ArgAction::SetTrue)
}

/// The cell that is asked about.
pub(crate) fn cell<'a>(alloc: Global) -> Arg<'a>
    ensures rule { rule_of result ≡ word_rule (codes "CELL") }
    ensures local { result.global ≡ false }
{
    word(
        alloc,
        "CELL",
        "The token (64c) or the debug text (3/021) of a cell",
    )
}

/// The file that is asked about.
pub(crate) fn file<'a>(alloc: Global) -> Arg<'a>
    ensures rule { rule_of result ≡ word_rule (codes "FILE") }
    ensures local { result.global ≡ false }
{
    word(alloc, "FILE", "The name of a file in the folder")
}

/// A required word.
fn word<'a>(alloc: Global, name: &'a str, help: &'a str) -> Arg<'a>
    ensures rule { rule_of result ≡ word_rule name.entry.now }
    ensures local { result.global ≡ false }
{
    Arg::new(alloc, name)
        .help(help)
        .required(true)
        .action(ArgAction::Set)
}

//! The jobs that the words of a command ask for, once clap has read them.
ghost use Rattle.std.specs.Prelude.{◌≡◌, ◌≤◌, ◌↔◌, IsTrue, IfOk, IfSome, ℕ, List, [], Some, codes, string_bytes};
ghost use Rattle.std.specs.Prelude.{unwrap_or};
ghost use Rattle.clap.specs.Words.{first_value, found_of, one_text};
ghost use Rattle.s2calc.specs.CommandLine.{AreChoices, Choice, IsCellOf, IsCheckOf, IsNumberTo, IsRunWith};
ghost use Rattle.s2calc.specs.CommandLine.{number_read};
ghost use Rattle.s2calc.specs.Program.{IsInRange};
ghost use Rattle.s2calc.specs.Working.CommandLine.{Finds, HasChoices};

use crate::task::Job;
use clap::ArgMatches;
use s2edit::{MOST_REGISTER, MOST_STATES};
use std::alloc::{AllocError, Global};

/// The run that is asked for.
pub(crate) fn run_job(alloc: Global, run: &ArgMatches<'_>) -> Result<Option<Job>, AllocError>
    ensures range { IfOk result (λ job. IfSome job IsInRange) }
    ensures run { (choices : List Choice) → AreChoices choices → HasChoices choices run.now
        → Finds (IsRunWith choices) result }
{
    let limit = number(run, "limit");
    let depth = number(run, "depth");
    let explain = run.get_flag("explain");
    let prompt = run.get_flag("prompt");
    if !is_in_range(limit, depth) {
        return Ok(None);
    }
    Ok(Some(Job::Run {
        limit,
        depth,
        dir: text(alloc, run, "dir")?,
        explain: explain || prompt,
        prompt,
        stop: run.get_flag("stop"),
    }))
}

/// The number of an option, which clap has checked.
fn number(matches: &ArgMatches<'_>, id: &str) -> usize
    ensures { (word : List ℕ) → one_text (found_of matches.now) id.now ≡ Some word
        → IsNumberTo MOST_REGISTER word → result ≡ number_read word }
{
    matches.get_one::<usize>(id).unwrap_or(0)
}

fn is_in_range(limit: usize, depth: usize) -> bool
    ensures { IsTrue result ↔ ((1 ≤ limit) × (limit ≤ MOST_REGISTER) × (1 ≤ depth) × (depth ≤ MOST_STATES)) }
{
    limit >= 1 && limit <= MOST_REGISTER && depth >= 1 && depth <= MOST_STATES
}

/// The answer about a cell that is asked for.
pub(crate) fn cell_job(alloc: Global, cell: &ArgMatches<'_>) -> Result<Option<Job>, AllocError>
    ensures range { IfOk result (λ job. IfSome job IsInRange) }
    ensures cell { (word : List ℕ) → first_value (found_of cell.now) (codes "CELL") ≡ Some word
        → Finds (IsCellOf word) result }
{
    Ok(Some(Job::Cell {
        word: text(alloc, cell, "CELL")?,
    }))
}

/// The check that is asked for.
pub(crate) fn check_job(alloc: Global, check: &ArgMatches<'_>) -> Result<Option<Job>, AllocError>
    ensures range { IfOk result (λ job. IfSome job IsInRange) }
    ensures check { (folder file : List ℕ) → first_value (found_of check.now) (codes "dir") ≡ Some folder
        → first_value (found_of check.now) (codes "FILE") ≡ Some file → Finds (IsCheckOf folder file) result }
{
    Ok(Some(Job::Check {
        dir: text(alloc, check, "dir")?,
        name: text(alloc, check, "FILE")?,
    }))
}

/// The picture that is asked for.
pub(crate) fn draw_job(alloc: Global, draw: &ArgMatches<'_>) -> Result<Option<Job>, AllocError>
    ensures { IfOk result (λ job. IfSome job IsInRange) }
{
    let curve = draw.get_flag("curve");
    match draw.get_strs("cells") {
        Some(words) => Ok(Some(Job::DrawCells {
            words: texts(alloc, words)?,
            curve,
        })),
        None => file_job(alloc, draw, curve),
    }
}

/// The picture of one file, or of several.
fn file_job(alloc: Global, draw: &ArgMatches<'_>, curve: bool) -> Result<Option<Job>, AllocError>
    ensures { IfOk result (λ job. IfSome job IsInRange) }
{
    let dir = text(alloc, draw, "dir")?;
    match draw.get_strs("FILE") {
        Some(names) if draw.get_flag("fit") => Ok(Some(Job::Fit {
            dir,
            names: texts(alloc, names)?,
        })),
        Some(names) if names.len() > 1 => Ok(Some(Job::Overlay {
            dir,
            names: texts(alloc, names)?,
            curve,
        })),
        _ => Ok(Some(Job::Draw {
            dir,
            name: text(alloc, draw, "FILE")?,
            curve,
        })),
    }
}

/// Copies of the words.
fn texts(alloc: Global, words: &[&str]) -> Result<Vec<String>, AllocError> {
    let mut texts = Vec::with_capacity(alloc, words.len())?;
    for word in words {
        texts.push(String::from_str(alloc, word)?)?;
    }
    Ok(texts)
}

/// The word of an argument that is required or has a default.
fn text(alloc: Global, matches: &ArgMatches<'_>, id: &str) -> Result<String, AllocError>
    ensures { IfOk result (λ text. string_bytes text ≡ unwrap_or (first_value (found_of matches.now) id.now) []) }
{
    String::from_str(alloc, matches.get_str(id).unwrap_or(""))
}

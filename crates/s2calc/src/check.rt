//! The answer about a file.
ghost use Rattle.std.specs.Prelude.{OnOk, OnErr};
ghost use Rattle.s2calc.specs.Calls.{LastFlushed, LastFailed};
ghost use Rattle.s2calc.specs.Check.{Checks, ChecksFile, ChecksAndTells};
ghost use Rattle.s2calc.specs.Working.Check.{check_reply};

use crate::answer::count_line;
use crate::fault::RunFault;
use crate::fetch::fetch_union;
use crate::program::{refuse, say};
use crate::refusal::Refusal;
use crate::streams::Sink;
use s2script::name_in;
use s2shelf::Shelf;
use std::alloc::Global;

/// Writes how many cells and leaves the union in a file has, or why there is none, and flushes. Answers false in the
/// second case. Out of memory is an answer of the second kind, the line `error memory`.
pub fn check_answer<S: Shelf, W: Sink>(
    alloc: Global,
    shelf: &mut S,
    name: &str,
    writer: &mut W,
) -> Result<bool, RunFault>
    ensures answer { ChecksAndTells name.now (S.files shelf.old) (S.files shelf.new) (W.contents writer.old)
        (W.contents writer.new) result }
    ensures flushed { OnOk result (LastFlushed ⊥ (W.calls writer.old) (W.calls writer.new)) }
    ensures failed { OnErr result (LastFailed ⊥ (W.calls writer.old) (W.calls writer.new)) }
{
    match check(alloc, shelf, name) {
        Ok((cells, leaves)) => say(count_line(cells, leaves).as_slice(), writer),
        Err(refusal) => refuse(refusal, writer),
    }
}

/// How many cells and leaves the union in the file has.
fn check<S: Shelf>(alloc: Global, shelf: &mut S, name: &str) -> Result<(u64, u64), Refusal>
    ensures { Checks name.now (S.files shelf.old) (check_reply result) (S.files shelf.new) }
{
    match name_in(name.as_bytes()) {
        Some(_) => check_file(alloc, shelf, name),
        None => Err(Refusal::Words(s2script::Refusal::Name)),
    }
}

fn check_file<S: Shelf>(alloc: Global, shelf: &mut S, name: &str) -> Result<(u64, u64), Refusal>
    ensures { ChecksFile name.now (S.files shelf.old) (check_reply result) (S.files shelf.new) }
{
    let union = fetch_union(alloc, shelf, name)?;
    Ok((union.len() as u64, union.leaf_count()))
}

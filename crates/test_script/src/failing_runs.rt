//! Runs of a row's script in which each read, each write and flush, or each call of the shelf fails in turn. Each
//! function answers how many runs failed, or None if one of them did not leave what it must.
ghost use Rattle.std.specs.Prelude.{◌<◌, length};

use crate::left::{Flushing, Left, run_over, run_well, ways_of, writer_of};
use crate::narrow::Mishap;
use crate::pieces::Pieces;
use crate::row::lines_in;
use s2calc::RunFault;
use std::alloc::{AllocError, Global};
use test_table::script_of;

/// More calls than a run of a row has.
pub const MANY_CALLS: u64 = 100_000;

/// Makes each read fail in turn. The lines that were read whole are carried out, and exactly their answers are out.
pub fn reads_fail(
    alloc: Global,
    lines: &[&str],
    flushing: Flushing,
    size: usize,
) -> Result<Option<u64>, AllocError> {
    let script = script_of(alloc, lines)?;
    let ways = ways_of(alloc, lines, &script)?;
    let mut read = 0usize;
    for call in 1..MANY_CALLS {
        let reader = Pieces::of(alloc, &script, size, call);
        let writer = writer_of(alloc, 512, 0, Mishap::Fails)?;
        let left = run_over(alloc, lines, flushing, reader, writer, 0)?;
        if left.ended.is_ok() {
            return Ok(Some(call - 1));
        }
        match ways.get(lines_in(&script[..read.min(script.len())])) {
            Some(way) if left.reads == call && is_input_after(&left, way) => {}
            _ => return Ok(None),
        }
        read = read.saturating_add(size);
    }
    Ok(None)
}

/// Whether a run ended by `Input`, with the answers and the state of another.
fn is_input_after(left: &Left, way: &Left) -> bool {
    left.ended == Err(RunFault::Input)
        && left.answers.as_slice() == way.answers.as_slice()
        && left.stands_as(way)
}

/// How many bytes a read gives while writes fail: several lines, if they are answered before the next read.
fn piece_of(flushing: Flushing) -> usize {
    match flushing {
        Flushing::AtTheEnd => 7,
        Flushing::Promptly => 61,
    }
}

/// Makes each write of at most `size` bytes, and each flush, go wrong in turn.
pub fn writes_fail(
    alloc: Global,
    lines: &[&str],
    flushing: Flushing,
    size: usize,
    mishap: Mishap,
) -> Result<Option<u64>, AllocError> {
    let script = script_of(alloc, lines)?;
    let ways = ways_of(alloc, lines, &script)?;
    let piece = piece_of(flushing);
    for call in 1..MANY_CALLS {
        let reader = Pieces::of(alloc, &script, piece, 0);
        let writer = writer_of(alloc, size, call, mishap)?;
        let left = run_over(alloc, lines, flushing, reader, writer, 0)?;
        if left.ended.is_ok() {
            return Ok(Some(call - 1));
        }
        let is_well = match flushing {
            Flushing::AtTheEnd => is_output_after(&left, &ways),
            Flushing::Promptly => is_prompt_output_after(&left, &ways),
        };
        if left.writes != call || !is_well {
            return Ok(None);
        }
    }
    Ok(None)
}

/// Whether a run ended by `Output`, and a beginning of all answers is out. If the flush failed, all are, and all lines
/// were carried out. Else the last line that was carried out is the one to whose answer the next byte belongs.
fn is_output_after(left: &Left, ways: &[Left]) -> bool {
    let Some(whole) = whole_after(left, ways) else {
        return false;
    };
    if left.is_flushed {
        return left.answers.len() == whole.answers.len() && left.stands_as(whole);
    }
    match ways.get(lines_answered(ways, left.answers.len()).saturating_add(1)) {
        Some(way) => left.stands_as(way),
        None => false,
    }
}

/// The same for a run over a buffer. Answers wait in it, so more lines may be carried out than those whose answers are
/// out. If the flush below failed, these are the same.
fn is_prompt_output_after(left: &Left, ways: &[Left]) -> bool {
    if whole_after(left, ways).is_none() {
        return false;
    }
    let first = lines_answered(ways, left.answers.len());
    for at in 0..ways.len() {
        let way = &ways[at];
        if left.is_flushed && way.answers.len() != left.answers.len() {
            continue;
        }
        if at >= first && left.stands_as(way) {
            return true;
        }
    }
    false
}

/// What is left of the whole script, if a run ended by `Output` and what is out is a beginning of all answers.
fn whole_after<'a>(left: &Left, ways: &'a [Left]) -> Option<&'a Left> {
    let whole = ways.last()?;
    if left.ended == Err(RunFault::Output) && whole.answers.starts_with(left.answers.as_slice()) {
        Some(whole)
    } else {
        None
    }
}

/// How many lines have their whole answers among the first bytes of the answers, with those that have none.
fn lines_answered(ways: &[Left], size: usize) -> usize {
    let mut count = 0usize;
    for way in ways {
        if way.answers.len() <= size {
            count = count.saturating_add(1);
        }
    }
    count.saturating_sub(1)
}

/// Makes each call of the shelf fail in turn. Its line is answered `error file`, and all else is as without this line.
pub fn shelf_fails(alloc: Global, lines: &[&str]) -> Result<Option<u64>, AllocError> {
    let mut calls = 0u64;
    for at in 0..lines.len() {
        if calls_the_shelf(lines[at]) {
            calls = calls.saturating_add(1);
            if !is_file_error(alloc, lines, at, calls)? {
                return Ok(None);
            }
        }
    }
    Ok(Some(calls))
}

/// Whether a line of a row calls the shelf. One whose file name is refused doesn't.
fn calls_the_shelf(line: &str) -> bool {
    for command in ["> load ", "> save ", "> dump ", "> restore "] {
        if line.starts_with(command) {
            return !line.ends_with("../f");
        }
    }
    false
}

/// Whether a run in which this call of the shelf fails leaves what a run without its line leaves, with `error file` for
/// the answer to that line.
fn is_file_error(alloc: Global, lines: &[&str], at: usize, call: u64) -> Result<bool, AllocError>
    requires { at < length lines.now }
{
    let before = script_of(alloc, &lines[..at])?;
    let mut others = script_of(alloc, &lines[..at])?;
    others.extend_from_slice(&script_of(alloc, &lines[at + 1..])?)?;
    let begun = run_well(alloc, lines, &before)?;
    let without = run_well(alloc, lines, &others)?;
    let left = run_with_fault(alloc, lines, call)?;
    let mut wanted = Vec::new(alloc);
    wanted.extend_from_slice(&begun.answers)?;
    wanted.extend_from_slice(b"error file\n")?;
    let Some(rest) = without.answers.strip_prefix(begun.answers.as_slice()) else {
        return Ok(false);
    };
    wanted.extend_from_slice(rest)?;
    Ok(
        left.ended.is_ok()
            && left.answers.as_slice() == wanted.as_slice()
            && left.stands_as(&without),
    )
}

/// A run of a row's script in which this call of the shelf fails.
fn run_with_fault(alloc: Global, lines: &[&str], call: u64) -> Result<Left, AllocError> {
    let script = script_of(alloc, lines)?;
    let reader = Pieces::of(alloc, &script, 4096, 0);
    let writer = writer_of(alloc, 4096, 0, Mishap::Fails)?;
    run_over(alloc, lines, Flushing::AtTheEnd, reader, writer, call)
}

//! The calls of a row, after its script, and their answers as text.
use crate::example::cells_without;
use crate::failing_answers::{Asked, answers_fail};
use crate::failing_runs::{reads_fail, shelf_fails, writes_fail};
use crate::left::Flushing;
use crate::logged::{add_log, add_seen};
use crate::narrow::Mishap;
use crate::process::{Failing, add_process};
use crate::row::Done;
use s2calc::{RunFault, Stop, Tally, cell_answer, check_answer, job, status};
use s2cell::CellId;
use s2shelf::{MemoryShelf, Shelf};
use std::alloc::{AllocError, Global};
use test_table::{add_line, bytes_of, number};

const DIGITS: &[u8; 16] = b"0123456789abcdef";

/// Makes a call, and adds its answer.
pub fn make(
    alloc: Global,
    lines: &[&str],
    call: &str,
    done: &mut Done,
    found: &mut Vec<u8>,
) -> Result<(), AllocError> {
    let (name, rest) = call.split_once(" ").unwrap_or((call, ""));
    match name {
        "status" => add_number(alloc, u64::from(status(&done.ended)), found),
        "ended" => add_end(alloc, &done.ended, found),
        "file" => add_file(alloc, &mut done.shelf, rest, found),
        "cell" => {
            let told = cell_answer(rest.as_bytes(), found);
            add_line(found, name_of(&told))
        }
        "check" => {
            let told = check_answer(alloc, &mut done.shelf, rest, found);
            add_line(found, name_of(&told))
        }
        _ => make_other(alloc, lines, name, rest, found),
    }
}

/// Makes a call that doesn't ask for what the row's run left.
fn make_other(
    alloc: Global,
    lines: &[&str],
    name: &str,
    rest: &str,
    found: &mut Vec<u8>,
) -> Result<(), AllocError> {
    match name {
        "log" => add_log(alloc, lines, flushing_of(rest), found),
        "seen" => add_seen(alloc, lines, number(rest) as usize, found),
        "without" => add_rest(alloc, rest, found),
        "job" => add_job(alloc, rest, found),
        "program" => add_process(alloc, lines, rest, Failing { of: "", call: 0 }, found),
        "failing" => add_failing(alloc, lines, rest, found),
        _ => make_runs(alloc, lines, name, rest, found),
    }
}

/// Makes runs in which calls of a stream or of the shelf fail in turn.
fn make_runs(
    alloc: Global,
    lines: &[&str],
    name: &str,
    rest: &str,
    found: &mut Vec<u8>,
) -> Result<(), AllocError> {
    let failed = match name {
        "reads" => {
            let (size, more) = sized(rest);
            reads_fail(alloc, lines, flushing_of(more), size)
        }
        "writes" => writes_of(alloc, lines, rest, Mishap::Fails),
        "takes" => writes_of(alloc, lines, rest, Mishap::TakesNothing),
        "shelf" => shelf_fails(alloc, lines),
        _ => return add_line(found, "no such call"),
    };
    match failed? {
        Some(count) => add_number(alloc, count, found),
        None => add_line(found, "wrong"),
    }
}

/// Makes writes go wrong, of a run or of another answer.
fn writes_of(
    alloc: Global,
    lines: &[&str],
    rest: &str,
    mishap: Mishap,
) -> Result<Option<u64>, AllocError> {
    let (size, more) = sized(rest);
    if let Some(word) = more.strip_prefix("cell ") {
        return answers_fail(alloc, lines, Asked::Cell(word), size, mishap);
    }
    if let Some(name) = more.strip_prefix("check ") {
        return answers_fail(alloc, lines, Asked::Check(name), size, mishap);
    }
    writes_fail(alloc, lines, flushing_of(more), size, mishap)
}

/// A number of bytes, and the words after it.
fn sized(rest: &str) -> (usize, &str) {
    let (size, more) = rest.split_once(" ").unwrap_or((rest, ""));
    (number(size) as usize, more)
}

/// When a run is flushed, by the word that a call has for it.
fn flushing_of(word: &str) -> Flushing {
    if word == "promptly" {
        Flushing::Promptly
    } else {
        Flushing::AtTheEnd
    }
}

fn add_number(alloc: Global, number: u64, found: &mut Vec<u8>) -> Result<(), AllocError> {
    add_line(found, &format!(in alloc; "{number}")?)
}

/// Adds how a run ended.
fn add_end(
    alloc: Global,
    ended: &Result<Tally, RunFault>,
    found: &mut Vec<u8>,
) -> Result<(), AllocError> {
    match ended {
        Ok(tally) => {
            let counts = format!(in alloc; "ok {} {}", tally.commands, tally.refused)?;
            add_line(found, &counts)
        }
        Err(RunFault::Input) => add_line(found, "input"),
        Err(RunFault::Output) => add_line(found, "output"),
        Err(RunFault::Memory) => add_line(found, "memory"),
    }
}

/// What a call answered besides the line that it wrote.
fn name_of(told: &Result<bool, RunFault>) -> &'static str {
    match told {
        Ok(true) => "true",
        Ok(false) => "false",
        Err(_) => "fault",
    }
}

/// Compares a file with the bytes that stand after its name. Adds those that it has, if they are others.
fn add_file(
    alloc: Global,
    shelf: &mut MemoryShelf,
    rest: &str,
    found: &mut Vec<u8>,
) -> Result<(), AllocError> {
    let (name, digits) = rest.split_once(" ").unwrap_or((rest, ""));
    match shelf.get(name) {
        Ok(Some(bytes)) if bytes.as_slice() == bytes_of(alloc, digits)?.as_slice() => {
            add_line(found, "same")
        }
        Ok(Some(bytes)) => add_digits(&bytes, found),
        Ok(None) => add_line(found, "no file"),
        Err(_) => add_line(found, "fault"),
    }
}

/// Adds bytes as hexadecimal digits.
fn add_digits(bytes: &[u8], found: &mut Vec<u8>) -> Result<(), AllocError> {
    for byte in bytes {
        found.push(DIGITS[usize::from(byte / 16)])?;
        found.push(DIGITS[usize::from(byte % 16)])?;
    }
    add_line(found, "")
}

/// Adds how many cells the first cell has without the second.
fn add_rest(alloc: Global, tokens: &str, found: &mut Vec<u8>) -> Result<(), AllocError> {
    let (whole, taken) = tokens.split_once(" ").unwrap_or((tokens, ""));
    let (Some(whole), Some(taken)) = (
        CellId::from_token(whole.as_bytes()),
        CellId::from_token(taken.as_bytes()),
    ) else {
        return add_line(found, "no cells");
    };
    add_number(alloc, cells_without(alloc, whole, taken)? as u64, found)
}

/// Adds what words after the program's name ask for, or why they ask for nothing, with the exit status.
fn add_job(alloc: Global, words: &str, found: &mut Vec<u8>) -> Result<(), AllocError> {
    match job(alloc, words_of(alloc, words)?) {
        Ok(asked) => add_line(found, &format!(in alloc; "{asked:?}")?),
        Err(stop) => {
            let name = stop_name(&stop);
            add_line(found, &format!(in alloc; "{name} {}", stop.status())?)
        }
    }
}

/// The words of a command line: the program's name, and those after it.
pub fn words_of(alloc: Global, words: &str) -> Result<Vec<String>, AllocError> {
    let mut all = Vec::new(alloc);
    all.push(String::from_str(alloc, "s2calc")?)?;
    for word in words.split_whitespace() {
        all.push(String::from_str(alloc, word)?)?;
    }
    Ok(all)
}

/// Adds what the program does if a call fails: `STREAM N` and the words of the command line.
fn add_failing(
    alloc: Global,
    lines: &[&str],
    rest: &str,
    found: &mut Vec<u8>,
) -> Result<(), AllocError> {
    let (of, rest) = rest.split_once(" ").unwrap_or((rest, ""));
    let (call, words) = rest.split_once(" ").unwrap_or((rest, ""));
    let failing = Failing {
        of,
        call: number(call),
    };
    add_process(alloc, lines, words, failing, found)
}

fn stop_name(stop: &Stop) -> &'static str {
    match stop {
        Stop::Help(_) => "help",
        Stop::Usage(_) => "usage",
        Stop::Memory => "memory",
    }
}

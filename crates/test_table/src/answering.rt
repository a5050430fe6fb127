//! Answering all rows of a table.
use crate::lines::{option, wanted_of};
use std::alloc::{AllocError, Global};
use std::io;
use std::io::Read;

/// The beginning of a row, before its title.
const BEFORE_TITLE: &str = "\n## ";

/// Answers the rows of a table.
pub trait Table {
    /// Answers a row, by the lines below its title. The answers found are to be equal to those that `wanted_of` gives.
    /// Fails if memory runs out.
    fn answers_of(&mut self, alloc: Global, lines: &[&str]) -> Result<Vec<u8>, AllocError>;
}

/// Has each row of standard input answered. Prints the title of each row with other answers than those that stand in
/// it, and what was found; and at the end that all rows have theirs, if they are as many as the table says, or how many
/// do. Fails if a read, a write or an allocation fails.
pub fn answer_rows(
    rt: &(impl Input + Print + AllocGlobal),
    table: &mut impl Table,
) -> io::Result<()> {
    let mut text = String::from_str(rt.alloc(), "\n")?;
    rt.reader().read_to_string(&mut text)?;
    answer_all(rt, table, &text)
}

/// Has each row of a table answered, whose text has a newline before its first line.
fn answer_all(
    rt: &(impl Print + AllocGlobal),
    table: &mut impl Table,
    text: &str,
) -> io::Result<()> {
    let mut rows = text.split(BEFORE_TITLE);
    let wanted = rows_said(rt.alloc(), rows.next().unwrap_or(""))?;
    let mut met = 0u64;
    for row in rows {
        met = met.saturating_add(answer_row(rt, table, row)?);
    }
    if met == wanted {
        return println!(rt; "all rows have their answers");
    }
    println!(rt; "{met} rows have their answers")
}

/// How many rows there are, as the lines before the first say.
fn rows_said(alloc: Global, head: &str) -> Result<u64, AllocError> {
    Ok(option(&lines_of(alloc, head)?, "rows", u64::MAX))
}

/// The lines of a text. Fails if any allocation fails: a list that `collect` makes can do without some.
fn lines_of<'a>(alloc: Global, text: &'a str) -> Result<Vec<&'a str>, AllocError> {
    let mut lines = Vec::new(alloc);
    for line in text.lines() {
        lines.push(line)?;
    }
    Ok(lines)
}

/// One if the row has its answers, and zero if it has others, which are shown.
fn answer_row(
    rt: &(impl Print + AllocGlobal),
    table: &mut impl Table,
    row: &str,
) -> io::Result<u64> {
    let (title, text) = row.split_once("\n").unwrap_or((row, ""));
    match other_answers(rt.alloc(), table, text)? {
        None => Ok(1),
        Some(found) => show(rt, title, &found),
    }
}

/// The answers found to a row with this text, if they are others than those that stand in it.
fn other_answers(
    alloc: Global,
    table: &mut impl Table,
    text: &str,
) -> Result<Option<Vec<u8>>, AllocError> {
    found_and_not_wanted(alloc, table, &lines_of(alloc, text)?)
}

/// The answers found to a row with these lines, if they are others than those that stand in it.
fn found_and_not_wanted(
    alloc: Global,
    table: &mut impl Table,
    lines: &[&str],
) -> Result<Option<Vec<u8>>, AllocError> {
    let wanted = wanted_of(alloc, lines)?;
    let found = table.answers_of(alloc, lines)?;
    Ok((found.as_slice() != wanted.as_slice()).then_some(found))
}

/// Shows the answers found to a row that has others. Zero.
fn show(rt: &(impl Print + AllocGlobal), title: &str, found: &[u8]) -> io::Result<u64> {
    println!(rt;
        "other answers: {title}\n{}",
        String::from_utf8_lossy(rt.alloc(), found)?
    )?;
    Ok(0)
}

//! The words of calls, and the lines of their answers.
use s2cell::CellId;
use s2union::{CellUnion, normalise};
use std::alloc::{AllocError, Global};
use test_table::{add_line, number};

/// What stands before the first slash of a text, and what stands behind it.
pub fn cut(text: &str) -> (&str, &str) {
    let (first, rest) = text.split_once("/").unwrap_or((text, ""));
    (first.trim(), rest.trim())
}

/// The first five numbers of a text; 0 where it has fewer.
pub fn numbers_of(text: &str) -> [u64; 5] {
    let mut words = text.split_whitespace();
    let mut numbers = [0u64; 5];
    for k in 0..5 {
        numbers[k] = number(words.next().unwrap_or(""));
    }
    numbers
}

/// A number as a coordinate, or the greatest `u32` if that is less.
pub fn coordinate(number: u64) -> u32 {
    u32::try_from(number).unwrap_or(u32::MAX)
}

/// A number as a face or a level, or the greatest byte if that is less.
pub fn small(number: u64) -> u8 {
    u8::try_from(number).unwrap_or(u8::MAX)
}

/// The cells that tokens name.
pub fn cells_of(alloc: Global, tokens: &str) -> Result<Vec<CellId>, AllocError> {
    let mut cells = Vec::new(alloc);
    for token in tokens.split_whitespace() {
        if let Some(cell) = CellId::from_token(token.as_bytes()) {
            cells.push(cell)?;
        }
    }
    Ok(cells)
}

/// The union of the cells that tokens name, without the cells behind a `-`.
pub fn union_of(alloc: Global, tokens: &str) -> Result<CellUnion, AllocError> {
    let (tokens, taken) = tokens.split_once("-").unwrap_or((tokens, ""));
    let union = normalise(cells_of(alloc, tokens)?);
    union.difference(&normalise(cells_of(alloc, taken)?))
}

/// Adds the tokens of cells, with a blank before each.
pub fn add_tokens(found: &mut Vec<u8>, cells: &[CellId]) -> Result<(), AllocError> {
    for cell in cells {
        found.push(b' ')?;
        found.extend_from_slice(cell.token().as_slice())?;
    }
    Ok(())
}

/// Adds a line of a cell's token, or of the word `none`.
pub fn add_token(found: &mut Vec<u8>, cell: Option<CellId>) -> Result<(), AllocError> {
    match cell {
        Some(cell) => {
            found.extend_from_slice(cell.token().as_slice())?;
            found.push(b'\n')?;
            Ok(())
        }
        None => add_line(found, "none"),
    }
}

/// Adds a line of the word `cells` and tokens.
pub fn add_cells(found: &mut Vec<u8>, cells: &[CellId]) -> Result<(), AllocError> {
    found.extend_from_slice(b"cells")?;
    add_tokens(found, cells)?;
    found.push(b'\n')?;
    Ok(())
}

/// Adds the number of a register, and the tokens of the cells that a change takes out and puts in.
pub fn add_change(
    alloc: Global,
    found: &mut Vec<u8>,
    register: u64,
    out: &[CellId],
    put: &[CellId],
) -> Result<(), AllocError> {
    let head = format!(in alloc; " register {register} out")?;
    found.extend_from_slice(head.as_bytes())?;
    add_tokens(found, out)?;
    found.extend_from_slice(b" put")?;
    add_tokens(found, put)?;
    found.push(b'\n')?;
    Ok(())
}

/// Adds a line of a number.
pub fn add_number(alloc: Global, found: &mut Vec<u8>, number: u64) -> Result<(), AllocError> {
    add_line(found, &format!(in alloc; "{number}")?)
}

/// Adds a line of the hexadecimal digits of bytes.
pub fn add_bytes(found: &mut Vec<u8>, bytes: &[u8]) -> Result<(), AllocError> {
    for byte in bytes {
        found.push(digit(byte / 16))?;
        found.push(digit(byte % 16))?;
    }
    found.push(b'\n')?;
    Ok(())
}

/// A hexadecimal digit.
fn digit(number: u8) -> u8 {
    let letters = b"0123456789abcdef";
    letters.get(number as usize).copied().unwrap_or(b'?')
}

/// An answer to a question.
pub fn yes_or_no(answer: bool) -> &'static str {
    if answer { "yes" } else { "no" }
}

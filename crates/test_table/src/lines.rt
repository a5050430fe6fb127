//! What the lines of a row say: its script, its options, the bytes of its files, and the answers that it must have.
use std::alloc::{AllocError, Global};

/// The text between lines that are repeated.
const BETWEEN: &str = " ; ";

/// How the lines below a title begin that are no answers, beside blank ones.
const MARKS: [&str; 8] = ["> ", "< ", "* ", "^ ", "$ ", "@ ", "? ", "# "];

/// The number of decimal digits, or the greatest `u64` if that is less.
pub fn number(digits: &str) -> u64 {
    let mut number = 0u64;
    for digit in digits.as_bytes() {
        number = number
            .saturating_mul(10)
            .saturating_add(u64::from(digit.wrapping_sub(b'0')));
    }
    number
}

/// The number that a row has for an option, or the usual one.
pub fn option(lines: &[&str], name: &str, usual: u64) -> u64 {
    for line in lines {
        if let Some(text) = line.strip_prefix("$ ") {
            let (named, digits) = first_word(text);
            if named == name {
                return number(digits);
            }
        }
    }
    usual
}

/// The bytes of pairs of hexadecimal digits, in words. A word `DIGITS*N` stands for its bytes N times. Fails if memory
/// runs out.
pub fn bytes_of(alloc: Global, digits: &str) -> Result<Vec<u8>, AllocError> {
    let mut bytes = Vec::new(alloc);
    for word in digits.split_whitespace() {
        add_word(&mut bytes, word)?;
    }
    Ok(bytes)
}

/// Adds the bytes of one word.
fn add_word(bytes: &mut Vec<u8>, word: &str) -> Result<(), AllocError> {
    let (digits, count) = word.split_once("*").unwrap_or((word, "1"));
    for _ in 0..number(count) {
        add_bytes(bytes, digits)?;
    }
    Ok(())
}

/// Adds the bytes of pairs of hexadecimal digits.
fn add_bytes(bytes: &mut Vec<u8>, digits: &str) -> Result<(), AllocError> {
    let mut high = None;
    for byte in digits.as_bytes() {
        if let Some(digit) = (*byte as char).to_digit(16) {
            let digit = digit as u8;
            match high {
                None => high = Some(digit),
                Some(first) => {
                    bytes.push(digit.wrapping_add(16u8.wrapping_mul(first)))?;
                    high = None;
                }
            }
        }
    }
    Ok(())
}

/// The script of a row. Fails if memory runs out.
pub fn script_of(alloc: Global, lines: &[&str]) -> Result<Vec<u8>, AllocError> {
    let mut script = Vec::new(alloc);
    for line in lines {
        let (kind, text) = first_word(line);
        add_script(&mut script, kind, text)?;
    }
    Ok(script)
}

/// Adds what a line of a row says of the script.
fn add_script(script: &mut Vec<u8>, kind: &str, text: &str) -> Result<(), AllocError> {
    if kind == ">" {
        return add_script_line(script, text);
    }
    if kind == "<" {
        return add_text(script, text);
    }
    if kind == "*" {
        return add_repeated(script, text);
    }
    if kind == "^" {
        return add_long_line(script, text);
    }
    Ok(())
}

/// Adds a line, in which `\r` at the end is a carriage return.
fn add_script_line(script: &mut Vec<u8>, text: &str) -> Result<(), AllocError> {
    add_text(script, text)?;
    script.extend_from_slice(b"\n")
}

/// Adds a text, in which `\r` at the end is a carriage return.
fn add_text(script: &mut Vec<u8>, text: &str) -> Result<(), AllocError> {
    let (rest, end) = match text.strip_suffix("\\r") {
        Some(rest) => (rest, "\r"),
        None => (text, ""),
    };
    script.extend_from_slice(rest.as_bytes())?;
    script.extend_from_slice(end.as_bytes())
}

/// Adds the lines of `N TEXT`, all of them N times.
fn add_repeated(script: &mut Vec<u8>, text: &str) -> Result<(), AllocError> {
    let (count, texts) = first_word(text);
    for _ in 0..number(count) {
        add_lines(script, texts)?;
    }
    Ok(())
}

/// Adds lines.
fn add_lines(script: &mut Vec<u8>, texts: &str) -> Result<(), AllocError> {
    for line in texts.split(BETWEEN) {
        add_script_line(script, line)?;
    }
    Ok(())
}

/// Adds the line that `FIRST COUNT LAST` says.
fn add_long_line(script: &mut Vec<u8>, text: &str) -> Result<(), AllocError> {
    let (first, rest) = first_word(text);
    let (count, last) = first_word(rest);
    add_end(script, first)?;
    for _ in 0..number(count) {
        script.push(b'x')?;
    }
    add_end(script, last)?;
    script.extend_from_slice(b"\n")
}

/// Adds the beginning or the end of a long line.
fn add_end(script: &mut Vec<u8>, text: &str) -> Result<(), AllocError> {
    if text == "-" {
        return Ok(());
    }
    add_text(script, text)
}

/// The answers that a row must have, each with a newline. Fails if memory runs out.
pub fn wanted_of(alloc: Global, lines: &[&str]) -> Result<Vec<u8>, AllocError> {
    let mut wanted = Vec::new(alloc);
    for line in lines {
        if is_answer(line) {
            add_answer(&mut wanted, line)?;
        }
    }
    Ok(wanted)
}

/// Whether a line of a row is an answer, or `= N TEXT`.
fn is_answer(line: &str) -> bool {
    for mark in MARKS {
        if line.starts_with(mark) {
            return false;
        }
    }
    !line.is_empty()
}

/// Adds an answer as often as it is wanted.
fn add_answer(wanted: &mut Vec<u8>, line: &str) -> Result<(), AllocError> {
    match line.strip_prefix("= ") {
        Some(counted) => add_repeated(wanted, counted),
        None => add_line(wanted, line),
    }
}

/// Adds a line to the answers found. Fails if memory runs out.
pub fn add_line(found: &mut Vec<u8>, line: &str) -> Result<(), AllocError> {
    found.extend_from_slice(line.as_bytes())?;
    found.extend_from_slice(b"\n")
}

/// The first word of a text, and what follows the blank after it.
fn first_word(text: &str) -> (&str, &str) {
    text.split_once(" ").unwrap_or((text, ""))
}

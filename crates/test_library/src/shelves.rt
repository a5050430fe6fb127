//! Calls of `s2shelf`, over a shelf in memory and over a folder.
use crate::files::add_decoded;
use crate::texts::add_bytes;
use s2file::decode;
use s2shelf::{MemoryShelf, Shelf, ShelfFault};
use std::alloc::{AllocError, Global};
use test_table::{add_line, bytes_of, number};

/// Makes a call over a shelf, `put NAME HEX`, `get NAME`, `beginning NAME MOST` or `decode NAME`, and adds its answer.
pub fn add_answer<S: Shelf>(
    alloc: Global,
    shelf: &mut S,
    call: &str,
    found: &mut Vec<u8>,
) -> Result<(), AllocError> {
    let (call, words) = call.split_once(" ").unwrap_or((call, ""));
    let (name, rest) = words.split_once(" ").unwrap_or((words, ""));
    if call == "put" {
        return add_put(found, shelf.put(name, &bytes_of(alloc, rest)?));
    }
    let content = if call == "beginning" {
        shelf.get_beginning(name, number(rest) as usize)
    } else {
        shelf.get(name)
    };
    add_content(alloc, found, call, content)
}

/// Makes the call of that number from now on fail.
pub fn fail(memory: &mut MemoryShelf, words: &str) {
    let turn = number(words);
    if turn >= 1 {
        memory.fail_at(turn);
    }
}

/// Adds how a `put` ended.
fn add_put(found: &mut Vec<u8>, done: Result<(), ShelfFault>) -> Result<(), AllocError> {
    match done {
        Ok(()) => add_line(found, "ok"),
        Err(fault) => add_line(found, name_of(fault)),
    }
}

/// Adds the bytes that a call found, or what it decodes.
fn add_content(
    alloc: Global,
    found: &mut Vec<u8>,
    call: &str,
    content: Result<Option<Vec<u8>>, ShelfFault>,
) -> Result<(), AllocError> {
    match content {
        Ok(Some(bytes)) if call == "decode" => add_decoded(found, decode(alloc, &bytes)),
        Ok(Some(bytes)) => add_bytes(found, &bytes),
        Ok(None) => add_line(found, "missing"),
        Err(fault) => add_line(found, name_of(fault)),
    }
}

/// The name of a fault.
fn name_of(fault: ShelfFault) -> &'static str {
    match fault {
        ShelfFault::Device => "Device",
        ShelfFault::Memory => "Memory",
    }
}

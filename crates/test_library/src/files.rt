//! Calls of `s2file` on union files.
use crate::texts::{add_bytes, add_cells, union_of};
use s2file::{FileFault, decode, encode};
use s2union::CellUnion;
use std::alloc::{AllocError, Global};
use test_table::{add_line, bytes_of};

/// Makes a call, and adds its answer. False for the name of another call.
pub fn answer(
    alloc: Global,
    name: &str,
    words: &str,
    found: &mut Vec<u8>,
) -> Result<bool, AllocError> {
    if name == "decode" {
        add_decoded(found, decode(alloc, &bytes_of(alloc, words)?))?;
    } else if name == "encode" {
        add_bytes(found, &encode(alloc, &union_of(alloc, words)?)?)?;
    } else if name == "beginnings" {
        add_beginnings(alloc, &bytes_of(alloc, words)?, found)?;
    } else {
        return Ok(false);
    }
    Ok(true)
}

/// Adds the cells of a union file, or what is wrong with its bytes.
pub fn add_decoded(
    found: &mut Vec<u8>,
    decoded: Result<CellUnion, FileFault>,
) -> Result<(), AllocError> {
    match decoded {
        Ok(union) => add_cells(found, union.cells()),
        Err(fault) => add_line(found, name_of(fault)),
    }
}

/// The name of a fault.
pub fn name_of(fault: FileFault) -> &'static str {
    match fault {
        FileFault::Version => "Version",
        FileFault::Count => "Count",
        FileFault::Short => "Short",
        FileFault::Trailing => "Trailing",
        FileFault::Cell => "Cell",
        FileFault::Memory => "Memory",
    }
}

/// Adds what is wrong with each beginning of the bytes but the whole, the shortest first.
fn add_beginnings(alloc: Global, bytes: &[u8], found: &mut Vec<u8>) -> Result<(), AllocError> {
    for count in 0..bytes.len() {
        add_decoded(found, decode(alloc, &bytes[..count]))?;
    }
    Ok(())
}

//! Calls of `s2union` on unions and lists of cells.
use crate::texts::{
    add_cells, add_number, add_token, cells_of, cut, numbers_of, union_of, yes_or_no,
};
use s2cell::CellId;
use s2union::{CellUnion, is_normalized};
use std::alloc::{AllocError, Global};
use test_table::add_line;

/// Makes a call, and adds its answer. False for the name of another call.
pub fn answer(
    alloc: Global,
    name: &str,
    words: &str,
    found: &mut Vec<u8>,
) -> Result<bool, AllocError> {
    let added = match name {
        "normalized" => add_whether_normalized(alloc, words, found),
        "count" => add_counted_leaves(alloc, words, found),
        "range" => add_range(alloc, words, found),
        "denormalized" => add_denormalized(alloc, words, found),
        "same" => add_compared(alloc, words, found),
        "symmetric_difference" => add_difference(alloc, words, found),
        _ => return Ok(false),
    };
    added?;
    Ok(true)
}

/// Adds whether cells are a union's list.
fn add_whether_normalized(
    alloc: Global,
    tokens: &str,
    found: &mut Vec<u8>,
) -> Result<(), AllocError> {
    let cells = cells_of(alloc, tokens)?;
    add_line(found, yes_or_no(is_normalized(&cells)))
}

/// Adds how many cells and leaves a union has.
fn add_counted_leaves(alloc: Global, tokens: &str, found: &mut Vec<u8>) -> Result<(), AllocError> {
    let union = union_of(alloc, tokens)?;
    let (cells, leaves) = (union.len(), union.leaf_count());
    add_line(found, &format!(in alloc; "cells {cells} leaves {leaves}")?)
}

/// Adds the cells of the range from one cell to another.
fn add_range(alloc: Global, tokens: &str, found: &mut Vec<u8>) -> Result<(), AllocError> {
    match cells_of(alloc, tokens)?.as_slice() {
        [x, y] if x.first_leaf() < y.end_leaf() => {
            add_cells(found, CellUnion::from_range(alloc, *x, *y)?.cells())
        }
        _ => add_line(found, "no range"),
    }
}

/// Adds what a union is cut to, `MIN MODULUS / CELLS`, and how many cells these are to be.
fn add_denormalized(alloc: Global, words: &str, found: &mut Vec<u8>) -> Result<(), AllocError> {
    let (levels, tokens) = cut(words);
    let [min, modulus, ..] = numbers_of(levels);
    if min > 30 || modulus < 1 || modulus > 3 {
        return add_line(found, "no levels");
    }
    let union = union_of(alloc, tokens)?;
    let count = union.denormalized_len(min as u8, modulus as u8);
    add_number(alloc, found, count)?;
    if count > 1000 {
        return Ok(());
    }
    let mut cells = Vec::new(alloc);
    for cell in union.denormalized(min as u8, modulus as u8) {
        cells.push(cell)?;
    }
    add_cells(found, &cells)
}

/// Adds whether two lists of cells make the same union, `CELLS / CELLS`, and the first as a collection.
fn add_compared(alloc: Global, words: &str, found: &mut Vec<u8>) -> Result<(), AllocError> {
    let (one, other) = cut(words);
    let one = union_of(alloc, one)?;
    let other = CellUnion::from_cells(cells_of(alloc, other)?);
    add_line(found, yes_or_no(one == other))?;
    add_collected(alloc, found, one)
}

/// Adds what only one of two unions has, `CELLS / CELLS`.
fn add_difference(alloc: Global, words: &str, found: &mut Vec<u8>) -> Result<(), AllocError> {
    let (one, other) = cut(words);
    let one = union_of(alloc, one)?;
    let other = union_of(alloc, other)?;
    add_cells(found, one.symmetric_difference(&other)?.cells())
}

/// Adds whether a union is empty, its last cell, how many cells it has, and then all of them.
fn add_collected(alloc: Global, found: &mut Vec<u8>, union: CellUnion) -> Result<(), AllocError> {
    let mut last = None;
    for cell in &union {
        last = Some(*cell);
    }
    add_line(found, yes_or_no(union.is_empty()))?;
    add_token(found, last)?;
    add_number(alloc, found, union.iter().count() as u64)?;
    let cells: Vec<CellId> = union.into_iter().collect(alloc)?;
    add_cells(found, &cells)
}

//! The curve by bit steps, beside the calls that go by tables.
use s2cell::{CellId, FACE_LEAVES, SIDE};
use std::alloc::{AllocError, Global};
use test_table::add_line;

/// The number of a leaf on its face by its place, a bit of each coordinate at a time.
fn number_by_bits(face: u8, i: u32, j: u32) -> u64 {
    let mut number = 0u64;
    let mut swaps = u32::from(face) & 1;
    let mut flips = 0;
    for level in 0..30u32 {
        let x = ((i >> (29 - level)) & 1) ^ flips;
        let y = ((j >> (29 - level)) & 1) ^ flips;
        let differ = x ^ y;
        let high = x ^ (swaps & differ);
        number = number << 2 | u64::from(high << 1 | differ);
        let turns = high ^ differ ^ 1;
        swaps ^= turns;
        flips ^= high & turns;
    }
    number
}

/// Whether both calls agree with the bit steps at a leaf.
fn agree(face: u8, number: u64) -> bool {
    let Some(leaf) = CellId::from_id(u64::from(face) << 61 | number << 1 | 1) else {
        return false;
    };
    let square = leaf.square();
    let (i, j) = (square.i, square.j);
    if square.face != face || face > 5 || i >= SIDE || j >= SIDE || square.size != 1 {
        return false;
    }
    number_by_bits(face, i, j) == number && CellId::from_face_ij(face, i, j) == leaf
}

/// The leaf in a place of a list of 10,000 leaves of a face, which begins with its first leaf and ends with its last.
fn number_in(place: u64) -> u64 {
    if place == 9_999 {
        return FACE_LEAVES - 1;
    }
    place.wrapping_mul(0x9e37_79b9_7f4a_7c15) >> 4
}

/// Adds how many of 10,000 leaves of each face both calls and the bit steps agree on.
pub fn add_agreed(alloc: Global, found: &mut Vec<u8>) -> Result<(), AllocError> {
    for face in 0..6u8 {
        let mut count = 0u64;
        for place in 0..10_000u64 {
            if agree(face, number_in(place)) {
                count = count.saturating_add(1);
            }
        }
        add_line(found, &format!(in alloc; "face {face} agree {count}")?)?;
    }
    Ok(())
}

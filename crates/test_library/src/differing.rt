//! Union files that differ from one in a byte, by `decode` and by a plain reading of the format.
use crate::files::name_of;
use s2file::decode;
use s2union::CellUnion;
use std::alloc::{AllocError, Global};
use test_table::{add_line, bytes_of};

/// What is wrong with a union file, or `none`, by the checks of the format in their order.
fn fault_by_hand(bytes: &[u8]) -> &'static str {
    let Some(version) = bytes.first() else {
        return "Short";
    };
    let count = number_at(bytes, 1);
    if *version != 1 {
        "Version"
    } else if bytes.len() < 9 {
        "Short"
    } else if count > 1_000_000 {
        "Count"
    } else if (bytes.len() as u64) < 9 + 8 * count {
        "Short"
    } else if (bytes.len() as u64) > 9 + 8 * count {
        "Trailing"
    } else if !(0..count as usize).all(|n| is_cell(number_at(bytes, 9 + 8 * n))) {
        "Cell"
    } else {
        "none"
    }
}

/// The eight bytes from a place on as a number, the lowest first.
fn number_at(bytes: &[u8], place: usize) -> u64 {
    let mut number = 0u64;
    for n in 0..8usize {
        let byte = bytes.get(place.saturating_add(7 - n)).copied().unwrap_or(0);
        number = number << 8 | u64::from(byte);
    }
    number
}

/// Whether a number is an identifier: its face is below 6, and its lowest set bit in an even place up to 60.
fn is_cell(id: u64) -> bool {
    let place = id.trailing_zeros();
    id >> 61 < 6 && place <= 60 && place % 2 == 0
}

/// The numbers from the first leaf of a cell to its last, as identifiers.
fn range_of(id: u64) -> (u64, u64) {
    let size = id & id.wrapping_neg();
    (
        id.wrapping_sub(size).wrapping_add(1),
        id.wrapping_add(size).wrapping_sub(1),
    )
}

/// Whether one cell lies in the other.
fn lies_in(one: u64, other: u64) -> bool {
    let (first, last) = range_of(other);
    first <= one && one <= last
}

/// Whether a union is that of two cells, which are no siblings of two others.
fn is_of_two(union: &CellUnion, one: u64, other: u64) -> bool {
    match union.cells() {
        [only] => {
            only.id() == one && lies_in(other, one) || only.id() == other && lies_in(one, other)
        }
        [first, second] => {
            let apart = !lies_in(one, other) && !lies_in(other, one);
            apart && first.id() == one.min(other) && second.id() == one.max(other)
        }
        _ => false,
    }
}

/// Whether `decode` answers as the plain reading does.
fn agree(alloc: Global, bytes: &[u8]) -> bool {
    let wanted = fault_by_hand(bytes);
    match decode(alloc, bytes) {
        Ok(union) => {
            wanted == "none" && is_of_two(&union, number_at(bytes, 9), number_at(bytes, 17))
        }
        Err(fault) => name_of(fault) == wanted,
    }
}

/// Adds for each place of the bytes of a union file of two cells for how many of the 255 other bytes there `decode` and
/// the plain reading agree.
pub fn add_agreed(alloc: Global, digits: &str, found: &mut Vec<u8>) -> Result<(), AllocError> {
    let mut bytes = bytes_of(alloc, digits)?;
    for place in 0..bytes.len() {
        let byte = bytes[place];
        let mut count = 0u64;
        for other in 0..=255u8 {
            bytes[place] = other;
            if other != byte && agree(alloc, &bytes) {
                count = count.saturating_add(1);
            }
        }
        bytes[place] = byte;
        add_line(found, &format!(in alloc; "place {place} agree {count}")?)?;
    }
    Ok(())
}

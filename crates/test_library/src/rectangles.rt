//! Rectangles by the calls that walk their grid, beside the calls that cover any region.
ghost use Rattle.std.specs.Prelude.{◌≤◌};

use s2cover::{CoverFault, FaceRect, Looks, inner, outer, rect_inner, rect_outer};
use s2union::CellUnion;
use std::alloc::{AllocError, Global};
use test_table::add_line;

/// Whether two coverings have the same cells.
fn are_same(one: Result<CellUnion, CoverFault>, other: Result<CellUnion, CoverFault>) -> bool {
    match (one, other) {
        (Ok(one), Ok(other)) => one.cells() == other.cells(),
        _ => false,
    }
}

/// Whether both calls for rectangles answer what the calls for regions do.
fn agree(alloc: Global, rect: &FaceRect, level: u8) -> bool
    requires { level ≤ 30 }
{
    let mut looks = Looks::default();
    let found = rect_outer(alloc, rect, level, 100, &mut looks);
    let held = rect_inner(alloc, rect, level, 100, &mut looks);
    are_same(found, outer(alloc, rect, level, 100))
        && are_same(held, inner(alloc, rect, level, 100))
}

/// Adds for each level from 27 to 30 on how many of all rectangles with coordinates 0 to 7 of face 0 and of face 1 the
/// calls agree.
pub fn add_agreed(alloc: Global, found: &mut Vec<u8>) -> Result<(), AllocError> {
    for level in 27..31u8 {
        let mut count = 0u64;
        for n in 0..8192u32 {
            let face = (n / 4096) as u8;
            let rect = FaceRect::new(face, n % 8, n / 8 % 8, n / 64 % 8, n / 512 % 8);
            if rect.is_some_and(|rect| agree(alloc, &rect, level)) {
                count = count.saturating_add(1);
            }
        }
        add_line(found, &format!(in alloc; "level {level} agree {count}")?)?;
    }
    Ok(())
}

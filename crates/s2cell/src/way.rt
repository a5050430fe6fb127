//! The way along the curve from a face down to a leaf, in both directions: from a place to the
//! leaf's digits, and from the digits to the place.
//!
//! The curve enters a square at one of four orientations and passes its quadrants in turn; the digits 0 to 3 number
//! them in that order:
//!
//! ```text
//!     orientation      0         1         2         3
//!         j  1        1 2       3 2       3 0       1 0
//!            0        0 3       0 1       2 1       2 3
//!         i           0 1       0 1       0 1       0 1
//! ```
//!
//! Each quadrant is passed in the same way, at an orientation of its own, 30 levels down to the leaves. The code takes
//! the first two levels one at a time, and the other 28 four at a time, by tables. A step waits only for the
//! orientation that the step before it leaves: a word of a table has the entries for all four orientations, so it is
//! loaded first and then shifted to the right one.
//!
//! Both coordinates are kept in two numbers, each of which has every second four bits of i and of j side by side:
//!
//! ```text
//!     odd     i7 j7 i5 j5 i3 j3 i1 j1        i7 to i0: the bits of i by fours, the lowest i0; j likewise
//!     even    i6 j6 i4 j4 i2 j2 i0 j0
//! ```

ghost use Rattle.std.specs.Prelude.{◌≡◌, ◌+◌, ◌-◌, ◌*◌, ◌/◌, ◌%◌, ◌^◌, ◌<◌};
ghost use Rattle.s2cell.specs.Curve.{At};
ghost use Rattle.s2cell.specs.Working.Entries.{fours};

use crate::{FACE_LEAVES, SIDE, tables};

/// The four bits from bit 0, from bit 8, from bit 16 and from bit 24 on, each left in its place.
fn every_second_four(x: u32) -> u32
    ensures { result ≡ fours x }
{
    x % 16
        + x / (1 << 8) % 16 * (1 << 8)
        + x / (1 << 16) % 16 * (1 << 16)
        + x / (1 << 24) % 16 * (1 << 24)
}

/// The quadrant that has the place, where its coordinates have `after` more bits.
fn quadrant_at(i: u32, j: u32, after: u32) -> u32
    requires { after < 32 }
    ensures { result ≡ 2 * (i / 2 ^ after % 2) + j / 2 ^ after % 2 }
{
    2 * ((i >> after) % 2) + (j >> after) % 2
}

/// The four bits of each coordinate that the step number `step` over the table takes, as `16 * i + j`.
fn four_of_each(odd: u32, even: u32, step: u32) -> u32
    requires { step < 7 }
    ensures even { step % 2 ≡ 0 → result ≡ even / 2 ^ (24 - 4 * step) % 256 }
    ensures odd { step % 2 ≡ 1 → result ≡ odd / 2 ^ (20 - 4 * step) % 256 }
{
    let pairs = if step % 2 == 0 { even } else { odd };
    (pairs >> (8 * ((6 - step) / 2))) % 256
}

/// A leaf without its last `count` digits.
fn without_digits(leaf: u64, count: u32) -> u64
    requires { count < 32 }
    ensures { result ≡ leaf / 4 ^ count }
{
    leaf >> (2 * count)
}

/// The leaf at a place of a face, counted from the first leaf of the face. The curve enters the face at the orientation
/// `start`.
pub(crate) fn leaf_at(start: u8, i: u32, j: u32) -> u64
    requires start { start < 4 }
    requires i { i < SIDE }
    requires j { j < SIDE }
    ensures place { At 30 start result i j }
    ensures leaf { result < FACE_LEAVES }
{
    let odd = 16 * every_second_four(i / 16) + every_second_four(j / 16);
    let even = 16 * every_second_four(i) + every_second_four(j);
    let mut leaf: u64 = 0;
    let mut shift = 16 * u32::from(start);
    for level in 0..2u32 {
        let entry = tables::leaf_step(shift, quadrant_at(i, j, 29 - level));
        leaf = 4 * leaf + u64::from(tables::held_by(entry));
        shift = tables::next_shift(entry);
    }
    for step in 0..7u32 {
        let entry = tables::leaf_entry(shift, four_of_each(odd, even, step));
        leaf = 256 * leaf + u64::from(tables::held_by(entry));
        shift = tables::next_shift(entry);
    }
    leaf
}

/// The place of a leaf that is counted from the first leaf of its face. The curve enters the face at the orientation
/// `start`.
pub(crate) fn place_at(start: u8, leaf: u64) -> (u32, u32)
    requires start { start < 4 }
    requires leaf { leaf < FACE_LEAVES }
    ensures place { At 30 start leaf result.0 result.1 }
    ensures i { result.0 < SIDE }
    ensures j { result.1 < SIDE }
{
    let mut i: u32 = 0;
    let mut j: u32 = 0;
    let mut shift = 16 * u32::from(start);
    for level in 0..2u32 {
        let entry = tables::place_step(shift, (without_digits(leaf, 29 - level) % 4) as u32);
        let quadrant = tables::held_by(entry);
        i = 2 * i + quadrant / 2;
        j = 2 * j + quadrant % 2;
        shift = tables::next_shift(entry);
    }
    // The two numbers take turns: `last` has the four bits of each coordinate that came last.
    let mut before: u32 = 0;
    let mut last = 16 * i + j;
    for step in 0..7u32 {
        let entry = tables::place_entry(shift, (without_digits(leaf, 24 - 4 * step) % 256) as u32);
        let longer = 256 * before + tables::held_by(entry);
        before = last;
        last = longer;
        shift = tables::next_shift(entry);
    }
    (
        16 * every_second_four(before / 16) + every_second_four(last / 16),
        16 * every_second_four(before) + every_second_four(last),
    )
}

//! Bounds of angles by their tangents: guessed by two steps from a first guess, and then checked by sines.
ghost use Rattle.std.specs.Prelude.{◌≤◌, ◌<◌, ◌*◌, ◌^◌, ◌≡◌, ℕ};
ghost use Rattle.s2degrees.specs.Degrees.{quarter};
ghost use Rattle.s2degrees.specs.Tangents.{HasTangentAtLeast, HasTangentAtMost};

use crate::angle::{QUARTER, quarter_sine};
use crate::bounds::{sine_at_least, sine_at_most};

/// How far a guess is set off before it is checked, in femtodegrees: more than the bounds of sines are off.
const OFF: u64 = 2_000;

/// The angle of 1 in radians, in femtodegrees.
const RADIAN: u128 = 57_295_779_513_082_320;

/// A product, which always fits.
fn product(a: u64, b: u64) -> u128
    requires a { a ≤ 2 ^ 62 }
    requires b { b ≤ 2 ^ 62 }
    ensures exact { result ≡ a * b }
    ensures small { result ≤ 2 ^ 124 }
{
    a as u128 * b as u128
}

/// The angle whose tangent is n / d, at most 0.3 degrees off, where n is at most d.
fn rough(n: u64, d: u64) -> u64
    requires n { n ≤ d }
    requires d { d ≤ 2 ^ 62 }
    requires some { 0 < d }
    ensures { result ≤ quarter }
{
    let one: u128 = 1 << 30;
    let ratio = ((n as u128) * one / d as u128).min(one);
    let angle = ratio * (4500 * one + 1566 * (one - ratio)) * 10_000_000_000_000 / (one * one);
    angle.min(QUARTER as u128) as u64
}

/// The same for any two numbers.
fn first_guess(n: u64, d: u64) -> u64
    requires n { n ≤ 2 ^ 62 }
    requires d { d ≤ 2 ^ 62 }
    ensures { result ≤ quarter }
{
    if n <= d {
        if d == 0 { 0 } else { rough(n, d) }
    } else {
        QUARTER - rough(d, n)
    }
}

/// An angle nearer to that whose tangent is n / d, by the tangent of the difference, which is nearly the difference.
fn nearer(angle: u64, n: u64, d: u64) -> u64
    requires angle { angle ≤ quarter }
    requires n { n ≤ 2 ^ 62 }
    requires d { d ≤ 2 ^ 62 }
    ensures { result ≤ quarter }
{
    let sine = quarter_sine(angle);
    let cosine = quarter_sine(QUARTER - angle);
    let want = product(n, cosine);
    let have = product(d, sine);
    let unit = (product(d, cosine) + product(n, sine)) / RADIAN + 1;
    if want >= have {
        let step = (want - have) / unit;
        (angle as u128 + step.min(QUARTER as u128)).min(QUARTER as u128) as u64
    } else {
        let step = (have - want) / unit;
        angle - step.min(angle as u128) as u64
    }
}

/// The angle whose tangent is n / d, some femtodegrees off. Nothing rests on it.
fn guess(n: u64, d: u64) -> u64
    requires n { n ≤ 2 ^ 62 }
    requires d { d ≤ 2 ^ 62 }
    ensures { result ≤ quarter }
{
    let first = first_guess(n, d);
    let second = nearer(first, n, d);
    nearer(second, n, d)
}

/// An angle of at most 90 degrees, in femtodegrees, that each angle whose tangent is at most n / d is at most. It is
/// some thousand femtodegrees more than the arc tangent: a guess that is checked, and 90 degrees if the check fails.
/// It takes the time of six sines.
pub fn angle_at_most(n: u64, d: u64) -> u64
    requires n { n ≤ 2 ^ 62 }
    requires d { d ≤ 2 ^ 62 }
    ensures within { result ≤ quarter }
    ensures most { (x : ℕ) → HasTangentAtMost x n d → x ≤ result }
{
    let angle = (guess(n, d) + OFF).min(QUARTER);
    if product(n, sine_at_most(QUARTER - angle)) < product(d, sine_at_least(angle)) {
        angle
    } else {
        QUARTER
    }
}

/// An angle of at most 90 degrees, in femtodegrees, that each angle whose tangent is at least n / d is at least. It is
/// some thousand femtodegrees less than the arc tangent: a guess that is checked, and 0 if the check fails. It takes
/// the time of six sines.
pub fn angle_at_least(n: u64, d: u64) -> u64
    requires n { n ≤ 2 ^ 62 }
    requires d { d ≤ 2 ^ 62 }
    ensures within { result ≤ quarter }
    ensures least { (x : ℕ) → HasTangentAtLeast x n d → result ≤ x }
{
    let angle = guess(n, d).saturating_sub(OFF);
    if product(d, sine_at_most(angle)) < product(n, sine_at_least(QUARTER - angle)) {
        angle
    } else {
        0
    }
}

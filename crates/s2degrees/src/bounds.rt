//! Bounds of the sines of all angles up to one, and from one on. The cosine of an angle is the sine of what is left to
//! 90 degrees, so these are bounds of cosines too.
ghost use Rattle.std.specs.Prelude.{◌≤◌, ◌*◌, ◌^◌, ℕ};
ghost use Rattle.s2degrees.specs.Degrees.{IsEitherSine, quarter};

use crate::angle::quarter_sine;
use crate::series::ONE;

/// How far a sine is set off, in numbers of 62 places: sums of two angles and what is computed of one are each within
/// 13,000 of what they stand for.
const OFF: u64 = 40_000;

/// A number of 62 places that is at least the sine of each angle up to this one, of at most 90 degrees. It is less
/// than 10^-13 above the sine of the angle itself. It takes the time of one sine.
pub fn sine_at_most(angle: u64) -> u64
    requires { angle ≤ quarter }
    ensures small { result ≤ 2 ^ 62 }
    ensures most { (x p d : ℕ) → x ≤ angle → IsEitherSine x p d → 2 ^ 62 * p ≤ result * d }
{
    (quarter_sine(angle) + OFF).min(ONE)
}

/// A number of 62 places that is at most the sine of each angle from this one on, up to 90 degrees. It is less than
/// 10^-13 below the sine of the angle itself. It takes the time of one sine.
pub fn sine_at_least(angle: u64) -> u64
    requires { angle ≤ quarter }
    ensures small { result ≤ 2 ^ 62 }
    ensures least { (x p d : ℕ) → angle ≤ x → x ≤ quarter → IsEitherSine x p d → result * d ≤ 2 ^ 62 * p }
{
    quarter_sine(angle).saturating_sub(OFF)
}

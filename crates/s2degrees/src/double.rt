//! The femtodegrees of a double.
ghost use Rattle.std.specs.Prelude.{◌≤◌, ◌<◌, ◌*◌, ◌/◌, ◌%◌, ◌^◌, Bool, IfErr, IfNone, IfOk, IfSome, unsigned_abs};
ghost use Rattle.std.specs.Float.{binary64};
ghost use Rattle.std.specs.Float.Ieee.{of_fields};
ghost use Rattle.s2degrees.specs.Femtodegrees.{DoubleFaultIs, IsFemtodegreesOf, IsWithin};
ghost use Rattle.s2degrees.specs.Working.Near.{IsNearestUpTo};
ghost use lib.Ieee.Exact.{HasValue};

use crate::fault::NumberFault;
use crate::signed::whole;

/// Femtodegrees of a degree.
const DEGREE: u128 = 1_000_000_000_000_000;

/// The bit of the sign.
const SIGN: u64 = 1 << 63;

/// The digits of a double that its bits have.
const DIGITS: u64 = 1 << 52;

/// A number of degrees in femtodegrees: the nearest whole number, and where two are as near, the one that is farther
/// from 0. `NotFinite` if it is infinite or not a number, `TooFar` if it is beyond some 9,223 degrees.
pub fn femtodegrees_of(degrees: f64) -> Result<i64, NumberFault>
    ensures exact { IfOk result (λ z. IsFemtodegreesOf degrees z) }
    ensures fault { IfErr result (λ fault. DoubleFaultIs degrees fault) }
{
    if !degrees.is_finite() {
        return Err(NumberFault::NotFinite);
    }
    let bits = degrees.to_bits();
    let x = parts_of(bits % SIGN);
    let size = size_of(x.digits, x.place);
    if size >= SIGN {
        return Err(NumberFault::TooFar);
    }
    Ok(whole(bits >= SIGN, size))
}

/// The same; nothing if there are more than `most`, or fewer than `-most`.
pub(crate) fn femtodegrees_within(degrees: f64, most: u64) -> Option<i64>
    requires { most < 2 ^ 63 }
    ensures some { IfSome result (λ z. IsFemtodegreesOf degrees z × (unsigned_abs z ≤ most)) }
    ensures none { IfNone result (¬ (IsWithin most degrees)) }
{
    let Ok(femtodegrees) = femtodegrees_of(degrees) else {
        return None;
    };
    if femtodegrees.unsigned_abs() > most {
        return None;
    }
    Some(femtodegrees)
}

/// A finite double as `digits` * 2^`place` of its smallest ones, of which 1 has 2^1074.
#[derive(Drop)]
struct Scaled {
    /// Its digits, of which there are at most 53.
    digits: u64,
    /// How far they are shifted.
    place: u64,
}

/// The digits and the place of a finite double, by its bits without the sign.
fn parts_of(bits: u64) -> Scaled
    requires { bits < 2047 * 2 ^ 52 }
    ensures few { result.digits < 2 ^ 53 }
    ensures place { result.place < 2046 }
    ensures large { 0 < result.place → 2 ^ 52 ≤ result.digits }
    ensures worth { (s : Bool) → HasValue (of_fields binary64 s (bits / 2 ^ 52) (bits % 2 ^ 52)) s
        (result.digits * 2 ^ result.place) (2 ^ 1074) }
{
    let field = bits / DIGITS;
    let digits = bits % DIGITS;
    if field == 0 {
        Scaled { digits, place: 0 }
    } else {
        Scaled {
            digits: digits + DIGITS,
            place: field - 1,
        }
    }
}

/// Femtodegrees of a finite double of degrees, to the nearest whole number; 2^63 or more if there are that many.
fn size_of(digits: u64, place: u64) -> u64
    requires few { digits < 2 ^ 53 }
    requires place { place < 2046 }
    requires large { 0 < place → 2 ^ 52 ≤ digits }
    ensures { IsNearestUpTo (digits * 2 ^ place * 10 ^ 15) (2 ^ 1074) result }
{
    if place > 1035 {
        return SIGN;
    }
    let halves = (digits as u128 * DEGREE) >> (1073 - place).min(119);
    ((halves + 1) / 2) as u64
}

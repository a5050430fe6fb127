//! The femtodegrees of a decimal number.
ghost use Rattle.std.specs.Prelude.{◌≡◌, ◌≤◌, ◌<◌, ◌+◌, ◌-◌, ◌*◌, ◌^◌, ◌++◌, Bool, IfErr, IfOk, IsTrue, get_or, length};
ghost use Rattle.std.specs.Prelude.{min};
ghost use Rattle.std.specs.Char.{digit_value};
ghost use Rattle.std.specs.Float.Numeral.{numeral_digits, tens_down, tens_up};
ghost use Rattle.std.specs.Str.Parse.{AllDigits};
ghost use Rattle.s2degrees.specs.Decimals.{IsDecimal, IsFemtodegreesOfParts, IsFemtodegreesOfText, TextFaultIs};
ghost use Rattle.s2degrees.specs.Decimals.{has_minus};
ghost use Rattle.s2degrees.specs.Femtodegrees.{IsTooFar};
ghost use Rattle.s2degrees.specs.Working.Digits.{padded};
ghost use Rattle.s2degrees.specs.Working.Near.{IsNearestUpTo};

use crate::fault::TextFault;
use crate::signed::whole;
use fast_float::Numeral;

/// 2^63, which no size reaches.
const MOST: u128 = 1 << 63;

/// A number of degrees in femtodegrees: the nearest whole number, and where two are as near, the one that is farther
/// from 0. The text is a minus or none, digits, a point with digits or none, and an exponent or none, as JSON has them;
/// there may be any number of digits, in the exponent too. `NotDecimal` if it is something else, `TooFar` if the number
/// is beyond some 9,223 degrees. Time: that of reading the text.
pub fn femtodegrees_of_text(text: &[u8]) -> Result<i64, TextFault>
    ensures exact { IfOk result (λ z. IsFemtodegreesOfText text.now z) }
    ensures decimal { IfOk result (λ _. IsDecimal text.now) }
    ensures fault { IfErr result (λ fault. TextFaultIs text.now fault) }
{
    let negative = begins_with_minus(text);
    let unsigned = if negative { &text[1..] } else { text };
    let numeral = Numeral::scan(unsigned);
    if numeral.len() < unsigned.len() || !numeral.has_digits() {
        return Err(TextFault::NotDecimal);
    }
    let size = size_of_numeral(&numeral);
    if size >= MOST as u64 {
        return Err(TextFault::TooFar);
    }
    Ok(whole(negative, size))
}

/// Whether a text begins with a minus.
fn begins_with_minus(text: &[u8]) -> bool
    ensures minus { result ≡ has_minus text.now }
    ensures some { IsTrue result → 1 ≤ length text.now }
{
    !text.is_empty() && text[0] == b'-'
}

/// The femtodegrees of a numeral, to the nearest whole number; 2^63 if there are that many or more.
fn size_of_numeral(numeral: &Numeral) -> u64
    requires { length numeral.now.whole + length numeral.now.fraction < 2 ^ 63 }
    ensures near { IsNearestUpTo (numeral_digits numeral.now * 10 ^ 15 * 10 ^ tens_up numeral.now)
        (10 ^ tens_down numeral.now) result }
    ensures far { 2 ^ 63 ≤ result → (s : Bool) → IsTooFar (IsFemtodegreesOfParts s numeral.now) }
{
    let tenths = digits_before(numeral.whole(), numeral.fraction(), places_of(numeral));
    ((tenths + 5) / 10).min(MOST) as u64
}

/// How many digits a numeral has before the place of tenths of femtodegrees and there; 40 beyond the last, if that is
/// less.
fn places_of(numeral: &Numeral) -> usize
    requires { length numeral.now.whole + length numeral.now.fraction < 2 ^ 63 }
    ensures { result ≡ min (length numeral.now.whole + length numeral.now.fraction + 16 + tens_up numeral.now
        - tens_down numeral.now) (length numeral.now.whole + length numeral.now.fraction + 40) }
{
    let whole = numeral.whole().len() as u128;
    let count = whole + numeral.fraction().len() as u128;
    let power = digits_before(numeral.exponent(), &[], numeral.exponent().len());
    let places = if numeral.is_exponent_negative() {
        (whole + 16).saturating_sub(power)
    } else {
        whole + 16 + power
    };
    places.min(count + 40) as usize
}

/// The number that the first digits write, with zeros after the last; 2^120 if it is more.
fn digits_before(whole: &[u8], fraction: &[u8], places: usize) -> u128
    requires digits { AllDigits 10 (whole.now ++ fraction.now) }
    ensures { result ≡ min (padded (whole.now ++ fraction.now) places) (2 ^ 120) }
{
    let mut value = 0u128;
    for at in 0..places {
        value = (value * 10 + u128::from(digit_at(whole, fraction, at))).min(1 << 120);
    }
    value
}

/// The digit at a place of two rows, one after the other; 0 after the last.
fn digit_at(whole: &[u8], fraction: &[u8], at: usize) -> u8
    requires digits { AllDigits 10 (whole.now ++ fraction.now) }
    ensures within { at < length (whole.now ++ fraction.now)
        → result ≡ digit_value (get_or (whole.now ++ fraction.now) at 0) }
    ensures beyond { length (whole.now ++ fraction.now) ≤ at → result ≡ 0 }
    ensures few { result < 10 }
{
    if at < whole.len() {
        return whole[at] - b'0';
    }
    if at - whole.len() < fraction.len() {
        return fraction[at - whole.len()] - b'0';
    }
    0
}

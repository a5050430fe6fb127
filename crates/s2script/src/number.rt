//! Numbers in decimal digits.
ghost use Rattle.std.specs.Prelude.{◌≡◌, ◌≤◌, IfSome};
ghost use Rattle.s2script.specs.Number.{number_up_to, number_within};

use crate::limits::MOST_DIGITS;

/// The number that 1 to `most` decimal digits stand for.
pub(crate) fn number_in(word: &[u8], most: usize) -> Option<u128>
    requires { most ≤ 20 }
    ensures { result ≡ number_up_to most word.now }
{
    if word.is_empty() || word.len() > most {
        return None;
    }
    let mut number = 0u128;
    for digit in word {
        if !digit.is_ascii_digit() {
            return None;
        }
        number = 10 * number + u128::from(*digit - b'0');
    }
    Some(number)
}

/// The number that 1 to 10 decimal digits stand for, if it lies between two numbers, these included.
pub(crate) fn number_within(word: &[u8], low: u64, high: u64) -> Option<u64>
    ensures value { result ≡ number_within low high word.now }
    ensures bounds { IfSome result (λ n. (low ≤ n) × (n ≤ high)) }
{
    match number_in(word, MOST_DIGITS) {
        Some(number) if u128::from(low) <= number && number <= u128::from(high) => {
            Some(number as u64)
        }
        _ => None,
    }
}

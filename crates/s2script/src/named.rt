//! The cell that a word names.
ghost use Rattle.std.specs.Prelude.{◌≡◌, MatchOption, ℕ, Some};
ghost use Rattle.s2cell.specs.Cell.{IsCell};
ghost use Rattle.s2cell.specs.Token.{IsReading};
ghost use Rattle.s2cell.specs.Debug.{IsDebug};
ghost use Rattle.s2cell.specs.Words.{NamesCell};
ghost use Rattle.s2script.specs.Named.{cell_named, token_cell, debug_cell};
ghost use Rattle.s2script.specs.Named.{decimal_cell, signed_number, negated, cell_with};

use crate::number::number_in;
use s2cell::CellId;

/// The cell that a word names: as a token, or else by its debug text. No word is both, since a token has no slash.
#[tactic(auto, unfolding(crate::specs::Named::cell_named))]
pub fn cell_in(word: &[u8]) -> Option<CellId>
    ensures value { result ≡ cell_named word.now }
    ensures names { MatchOption result ((n : ℕ) → NamesCell word.now n → ⊥) (λ c. NamesCell word.now c) }
{
    match token_in(word) {
        Some(cell) => Some(cell),
        None => debug_in(word),
    }
}

/// The cell whose identifier a word has in decimal, signed or not, as databases and other languages print it. A word
/// of at most 16 bytes has none, since it may be meant as a token.
#[tactic(auto, unfolding(crate::specs::Named::decimal_cell))]
pub(crate) fn decimal_cell_in(word: &[u8]) -> Option<CellId>
    ensures { result ≡ decimal_cell word.now }
{
    if word.len() <= 16 {
        return None;
    }
    match signed_number_in(word) {
        Some(id) => cell_with(id),
        None => None,
    }
}

/// The number that decimal digits stand for, with or without a minus before them.
fn signed_number_in(word: &[u8]) -> Option<u128>
    ensures { result ≡ signed_number word.now }
{
    if word.is_empty() {
        return None;
    }
    if word[0] == b'-' {
        negated(number_in(&word[1..], 19))
    } else {
        number_in(word, 20)
    }
}

/// The number of 64 bits that stands for a negative one, of which this is the absolute value.
fn negated(number: Option<u128>) -> Option<u128>
    ensures { result ≡ negated number }
{
    match number {
        Some(number) if number <= 1 << 63 => Some((1 << 64) - number),
        _ => None,
    }
}

/// The cell with this identifier, if there is one.
#[tactic(auto, using(crate::proofs::NamedLemmas::identified))]
fn cell_with(id: u128) -> Option<CellId>
    ensures { result ≡ cell_with (Some id) }
{
    match u64::try_from(id) {
        Ok(id) => CellId::from_id(id),
        Err(_) => None,
    }
}

/// The cell that a word names as a token.
#[tactic(auto, using(crate::proofs::NamedLemmas::token_some, crate::proofs::NamedLemmas::token_none))]
fn token_in(word: &[u8]) -> Option<CellId>
    ensures value { result ≡ token_cell word.now }
    ensures names { MatchOption result ((n : ℕ) → IsReading word.now n × IsCell n → ⊥) (λ c. IsReading word.now c
        × IsCell c) }
{
    match CellId::from_token(word) {
        Some(cell) => {
            let _ = cell.id();
            Some(cell)
        }
        None => None,
    }
}

/// The cell that a word names as a debug text.
#[tactic(auto, using(crate::proofs::NamedLemmas::debug_some, crate::proofs::NamedLemmas::debug_none))]
fn debug_in(word: &[u8]) -> Option<CellId>
    ensures value { result ≡ debug_cell word.now }
    ensures names { MatchOption result ((n : ℕ) → IsDebug word.now n → ⊥) (λ c. IsDebug word.now c) }
{
    CellId::from_debug(word)
}

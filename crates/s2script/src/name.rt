//! The names of files.
ghost use Rattle.std.specs.Prelude.{◌≡◌, ◌<◌, IfSome, length};
ghost use Rattle.std.specs.List.{list_all};
ghost use Rattle.s2script.specs.FileName.{is_name_byte, is_first_byte, is_name, name_of_word, fits_at, unfit_index};

use crate::limits::LONGEST_NAME;
use std::marker::Model;
use std::str;

/// The name of a file, as it is in a line.
#[derive(Drop)]
pub struct Name<'a> {
    text: &'a str,
}

impl<'a> Model for Name<'a> {
    ghost use Rattle.std.specs.Prelude.{List, ℕ};

    ghost Value = { List ℕ };

    ghost view = { λ n. n.text.now };
}

impl<'a> Name<'a> {
    /// Its text.
    pub fn as_str(&self) -> &str
        ensures { result.now ≡ self.now }
    {
        self.text
    }
}

/// Whether a name may hold the byte: an ASCII letter, a digit, `.`, `_` or `-`.
fn is_name_byte(byte: u8) -> bool
    ensures { result ≡ is_name_byte byte }
{
    byte.is_ascii_alphanumeric() || byte == b'.' || byte == b'_' || byte == b'-'
}

/// Whether a name may hold each of the bytes.
fn are_name_bytes(word: &[u8]) -> bool
    ensures { result ≡ list_all is_name_byte word.now }
{
    word.iter().all(|b| is_name_byte(*b))
}

/// Whether a name may begin with the byte.
fn is_first_byte(byte: u8) -> bool
    ensures { result ≡ is_first_byte byte }
{
    byte != b'.' && byte != b'-'
}

/// Whether a word is a name: 1 to 64 such bytes, the first of which is not `.` or `-`.
fn is_name(word: &[u8]) -> bool
    ensures { result ≡ is_name word.now }
{
    if word.is_empty() || word.len() > LONGEST_NAME {
        return false;
    }
    is_first_byte(word[0]) && are_name_bytes(word)
}

/// A word as the name of a file, if it is one.
#[tactic(auto, using(crate::proofs::NameLemmas::not_utf8))]
pub fn name_in(word: &[u8]) -> Option<Name<'_>>
    ensures { result ≡ name_of_word word.now }
{
    match str::from_utf8(word) {
        Ok(text) if is_name(word) => Some(Name { text }),
        _ => None,
    }
}

/// Whether a byte may stand in a name at this index.
fn fits_at(index: usize, byte: u8) -> bool
    ensures { result ≡ fits_at index byte }
{
    index < LONGEST_NAME && is_name_byte(byte) && (index > 0 || is_first_byte(byte))
}

/// The index of the first byte of a word that may not stand there in a name.
pub(crate) fn unfit_index(word: &[u8]) -> Option<usize>
    ensures index { result ≡ unfit_index word.now }
    ensures within { IfSome result (λ index. index < length word.now) }
{
    let mut index = 0;
    for byte in word {
        if !fits_at(index, *byte) {
            return Some(index);
        }
        index += 1;
    }
    None
}

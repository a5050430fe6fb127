//! The words of a line.
ghost use Rattle.std.specs.Prelude.{◌≡◌, ◌↔◌, IsTrue, [], ◌∷◌, IfSome, IfNone, MatchOption, false};
ghost use Rattle.std.specs.List.{AllByRecursion};
ghost use Rattle.s2script.specs.Words.{words, is_blank};
ghost use Rattle.s2cell.specs.Working.Words.{EndsWordAt};

use std::marker::Model;

/// The words that are left of a line.
#[derive(Drop)]
pub struct Words<'a> {
    rest: &'a [u8],
}

impl<'a> Model for Words<'a> {
    ghost use Rattle.std.specs.Prelude.{List, ℕ};
    ghost use Rattle.s2script.specs.Words.{words};

    ghost Value = { List (List ℕ) };

    ghost view = { λ w. words w.rest.now };
}

/// A word, as it is in a line. A contract sees its bytes.
#[derive(Drop)]
pub struct Word<'a> {
    bytes: &'a [u8],
}

impl<'a> Model for Word<'a> {
    ghost use Rattle.std.specs.Prelude.{List, ℕ};

    ghost Value = { List ℕ };

    ghost view = { λ w. w.bytes.now };
}

impl<'a> Word<'a> {
    /// The word with these bytes.
    pub(crate) fn of(bytes: &'a [u8]) -> Word<'a>
        ensures { result ≡ bytes.now }
    {
        Word { bytes }
    }

    /// Its bytes.
    pub fn as_bytes(&self) -> &'a [u8]
        ensures { result.now ≡ self.now }
    {
        self.bytes
    }
}

/// Whether a byte separates words.
fn is_blank(byte: u8) -> bool
    ensures { result ≡ is_blank byte }
{
    byte == b' ' || byte == b'\t'
}

/// Where the first blank is.
fn blank_in(bytes: &[u8]) -> Option<usize>
    ensures none { IfNone result (AllByRecursion (λ b. is_blank b ≡ false) bytes.now) }
    ensures some { IfSome result (λ at. EndsWordAt is_blank bytes.now at) }
{
    bytes.iter().position(|b| is_blank(*b))
}

impl<'a> Words<'a> {
    /// The words of a line.
    pub fn of(line: &'a [u8]) -> Words<'a>
        ensures { result ≡ words line.now }
    {
        Words { rest: line }
    }

    /// The same words, to go through them again.
    pub fn again(&self) -> Words<'a>
        ensures { result ≡ self.now }
    {
        Words { rest: self.rest }
    }

    /// Whether no word is left.
    pub fn is_empty(&self) -> bool
        ensures { IsTrue result ↔ (self.now ≡ []) }
    {
        match self.again().next() {
            Some(_) => false,
            None => true,
        }
    }

    /// The next word, if one is left. Looks at each byte once.
    pub fn next(&mut self) -> Option<&'a [u8]>
        ensures { MatchOption result ((self.old ≡ []) × (self.new ≡ [])) (λ word. self.old ≡ word.now ∷ self.new) }
    {
        while let Some(at) = blank_in(self.rest) {
            let word = &self.rest[..at];
            self.rest = &self.rest[at + 1..];
            if !word.is_empty() {
                return Some(word);
            }
        }
        let word = self.rest;
        self.rest = &[];
        if word.is_empty() {
            return None;
        }
        Some(word)
    }
}

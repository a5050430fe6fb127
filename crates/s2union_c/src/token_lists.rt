//! Lists of cells as texts: their tokens with blanks between them, and words that name cells.
ghost use Rattle.std.specs.Prelude.{◌≡◌, ◌+◌, ◌*◌, ◌/◌, ◌%◌, ◌^◌, ◌<◌, ◌≤◌, ◌⊎◌, ℕ, List, [], ◌++◌, All};
ghost use Rattle.std.specs.Prelude.{length, drop, take};
ghost use Rattle.std.specs.Prelude.{true, false, ◌↔◌, IfNone, IfSome, IsTrue, MatchOption, MatchResult, slice_index};
ghost use Rattle.std.specs.List.{AllByRecursion, AllZip};
ghost use Rattle.s2cell.specs.Cell.{IsCell};
ghost use Rattle.s2cell.specs.Token.{token_of};
ghost use Rattle.s2cell.specs.Words.{NamesCell};
ghost use Rattle.s2cell.specs.Working.Words.{EndsWordAt};
ghost use Rattle.s2union_c.specs.Results.{Made, Refused};
ghost use Rattle.s2union_c.specs.Status.{no_cell, too_many};
ghost use Rattle.s2union_c.specs.Working.Texts.{IsFilled, IsNextWord, piece};
ghost use Rattle.s2union_c.specs.Texts.{IsFirstNameless, is_between, tokens_of, words_of_text};

use crate::status::{MADE, NO_CELL, NO_ROOM, TOO_MANY};
use s2cell::CellId;
use s2list::{IdList, cell_of, first_wrong};

/// How many hexadecimal digits an identifier has.
const DIGITS: usize = 16;

/// The tokens of cells, with one blank between each two.
#[unsafe(no_mangle)]
pub extern "C" fn s2u_tokens(ids: &[u64], text: &mut [u8], len: &mut usize) -> i32
    ensures made { All IsCell ids.now → length (tokens_of ids.now) < 2 ^ 64
        → Made result (tokens_of ids.now) text.old text.new len.new }
    ensures no_cell { (All IsCell ids.now → ⊥) → Refused result no_cell text.old text.new len.new }
    ensures many { All IsCell ids.now → 2 ^ 64 ≤ length (tokens_of ids.now)
        → Refused result too_many text.old text.new len.new }
    ensures most { len.new ≤ 17 * length ids.now }
{
    *len = 0;
    if let Some(_) = first_wrong(&IdList { ids }) {
        return NO_CELL;
    }
    let Some(need) = tokens_len(ids) else {
        return TOO_MANY;
    };
    *len = need;
    if need > text.len() {
        return NO_ROOM;
    }
    write_tokens(ids, &mut text[..need]);
    MADE
}

/// The cells that the words of a text name, in the order of the text. Blanks, tabs, line ends and commas separate
/// words; a word is a token or a debug text. With `no_cell`, the length is the place of the first word that names no
/// cell.
#[unsafe(no_mangle)]
pub extern "C" fn s2u_from_tokens(text: &[u8], out: &mut [u64], len: &mut usize) -> i32
    ensures answer { ((ids : List ℕ) × AllZip NamesCell (words_of_text text.now) ids
        × Made result ids out.old out.new len.new)
        ⊎ ((result ≡ no_cell) × IsFirstNameless text.now len.new × (out.new ≡ out.old)) }
    ensures most { (result ≡ no_cell → ⊥) → len.new ≤ length text.now / 2 + length text.now % 2 }
{
    let count = match count_cells(text) {
        Ok(count) => count,
        Err(place) => {
            *len = place;
            return NO_CELL;
        }
    };
    *len = count;
    if count > out.len() {
        return NO_ROOM;
    }
    write_cells(text, out);
    MADE
}

/// How many bytes the tokens of cells take, with the blanks between them. None if the number is too great for a length.
fn tokens_len(ids: &[u64]) -> Option<usize>
    requires { All IsCell ids.now }
    ensures { MatchOption result (2 ^ 64 ≤ length (tokens_of ids.now)) (λ n. n ≡ length (tokens_of ids.now)) }
{
    let mut len = 0usize;
    for k in 0..ids.len() {
        match len.checked_add(piece_len(k, ids[k])) {
            Some(longer) => len = longer,
            None => return None,
        }
    }
    Some(len)
}

/// How many bytes the token of a cell adds after `k` others.
fn piece_len(k: usize, id: u64) -> usize
    requires { IsCell id }
    ensures { result ≡ length (piece k (token_of id)) }
{
    let len = cell_of(id).token_len();
    if k == 0 { len } else { len + 1 }
}

/// Writes the tokens of cells with the blanks between them. They fill the text.
fn write_tokens(ids: &[u64], text: &mut [u8])
    requires cells { All IsCell ids.now }
    requires room { length (tokens_of ids.now) ≡ length text.old }
    ensures { text.new ≡ tokens_of ids.now }
{
    let mut at = 0;
    for k in 0..ids.len() {
        at = append_piece(text, at, k, cell_of(ids[k]));
    }
}

/// Adds a cell's token to the first `at` bytes of a text, after a blank unless it is the first token (`k` is 0).
/// Answers how many bytes there are then; those after them may change.
fn append_piece(text: &mut [u8], at: usize, k: usize, cell: CellId) -> usize
    requires { at + length (piece k (token_of cell)) ≤ length text.old }
    ensures end { result ≡ at + length (piece k (token_of cell)) }
    ensures len { length text.new ≡ length text.old }
    ensures front { take result text.new ≡ take at text.old ++ piece k (token_of cell) }
{
    if k == 0 {
        return append_token(text, at, cell);
    }
    text[at] = b' ';
    append_token(text, at + 1, cell)
}

/// Adds a cell's token to the first `at` bytes of a text, and answers how many there are then; those after them may
/// change. Writes all the digits of the identifier if they have room: this is faster than a copy of some of them.
fn append_token(text: &mut [u8], at: usize, cell: CellId) -> usize
    requires { at + length (token_of cell) ≤ length text.old }
    ensures end { result ≡ at + length (token_of cell) }
    ensures len { length text.new ≡ length text.old }
    ensures front { take result text.new ≡ take at text.old ++ token_of cell }
{
    let end = at + cell.token_len();
    if text.len() - at >= DIGITS {
        cell.write_digits(&mut text[at..at + DIGITS]);
    } else {
        text[at..end].copy_from_slice(cell.token().as_slice());
    }
    end
}

/// How many cells the words of a text name, or the place of the first word that names no cell.
fn count_cells(text: &[u8]) -> Result<usize, usize>
    ensures { MatchResult result
        (λ count. (ids : List ℕ) × AllZip NamesCell (words_of_text text.now) ids × (count ≡ length ids))
        (λ place. IsFirstNameless text.now place) }
{
    let mut count = 0;
    let mut at = 0;
    while let Some((start, end)) = next_word(text, at) {
        let Some(cell) = cell_in(&text[start..end]) else {
            return Err(start);
        };
        let _ = cell.id();
        count += 1;
        at = end;
    }
    Ok(count)
}

/// Writes the cells that the words of a text name. They have room.
fn write_cells(text: &[u8], out: &mut [u64])
    requires { (ids : List ℕ) × AllZip NamesCell (words_of_text text.now) ids × (length ids ≤ length out.old) }
    ensures { (ids : List ℕ) × AllZip NamesCell (words_of_text text.now) ids × IsFilled out.old out.new ids }
{
    let mut count = 0;
    let mut at = 0;
    while let Some((start, end)) = next_word(text, at) {
        let Some(cell) = cell_in(&text[start..end]) else {
            unreachable!();
        };
        out[count] = cell.id();
        count += 1;
        at = end;
    }
}

/// Where the next word, from an index on, begins and ends.
fn next_word(text: &[u8], from: usize) -> Option<(usize, usize)>
    requires { from ≤ length text.now }
    ensures { MatchOption result (words_of_text (drop from text.now) ≡ []) (λ r. IsNextWord text.now from r.0 r.1) }
{
    let mut start = from;
    while stands_between(text, start) {
        start += 1;
    }
    if start == text.len() {
        return None;
    }
    match word_end(&text[start..]) {
        Some(len) => Some((start, start + len)),
        None => Some((start, text.len())),
    }
}

/// Whether the byte at an index of a text separates words.
fn stands_between(text: &[u8], place: usize) -> bool
    ensures { IsTrue result ↔ ((place < length text.now) × (is_between (slice_index text.now place) ≡ true)) }
{
    place < text.len() && is_between(text[place])
}

/// Where the first byte that separates words is.
fn word_end(bytes: &[u8]) -> Option<usize>
    ensures none { IfNone result (AllByRecursion (λ b. is_between b ≡ false) bytes.now) }
    ensures some { IfSome result (λ at. EndsWordAt is_between bytes.now at) }
{
    bytes.iter().position(|b| is_between(*b))
}

/// Whether a byte separates words.
fn is_between(byte: u8) -> bool
    ensures { result ≡ is_between byte }
{
    byte == b' ' || byte == b'\t' || byte == b'\n' || byte == b'\r' || byte == b','
}

/// The cell that a word names.
fn cell_in(word: &[u8]) -> Option<CellId>
    ensures { MatchOption result ((id : ℕ) → NamesCell word.now id → ⊥) (λ cell. NamesCell word.now cell) }
{
    match CellId::from_token(word) {
        Some(cell) => {
            let _ = cell.id();
            Some(cell)
        }
        None => CellId::from_debug(word),
    }
}

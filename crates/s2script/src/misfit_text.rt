//! What is said of a line that does not fit. Each function puts the text that the definitions give.
#![tactic(auto, using(crate::proofs::TextLemmas::parts))]

ghost use Rattle.std.specs.Prelude.{◌≡◌, ◌++◌, ◌<◌, codes, flat_map, filter, length, Some};
ghost use Rattle.std.specs.Fmt.{WritesInCalls};
ghost use Rattle.s2script.specs.FileName.{unfit_index};
ghost use Rattle.s2script.specs.MisfitTexts.{shown_byte, word_text, ranged, byte_text, other_text, question_text};
ghost use Rattle.s2script.specs.MisfitTexts.{wanted_text, unfit_text, misfit_text, has_mark, command_hint};
ghost use Rattle.s2script.specs.MisfitTexts.{identifier_text};
ghost use Rattle.s2script.specs.Named.{decimal_cell};
ghost use Rattle.s2script.specs.Similar.{is_like, commands_like};

use crate::limits::{
    GREATEST_COORDINATE, GREATEST_FACE, GREATEST_LEVEL, GREATEST_MODULUS, LONGEST_LINE,
    LONGEST_NAME,
};
use crate::misfit::{Misfit, Wanted};
use crate::name::unfit_index;
use crate::named::decimal_cell_in;
use crate::similar::{names, next_like};
use crate::text::{TextSink, put_char, put_number, put_part};
use crate::words::Words;
use s2cell::CellId;

/// Puts a byte as `escape_ascii` does.
fn put_byte<T: TextSink>(byte: u8, text: &mut T)
    ensures { WritesInCalls T.puts text.old (shown_byte byte) text.new }
{
    let mut rest = byte.escape_ascii();
    'escape: while let Some(escaped) = rest.next() {
        put_char(char::from(escaped), text);
    }
}

/// Puts each of the bytes as `escape_ascii` does.
pub(crate) fn put_bytes<T: TextSink>(bytes: &[u8], text: &mut T)
    ensures { WritesInCalls T.puts text.old (flat_map shown_byte bytes.now) text.new }
{
    for byte in bytes {
        put_byte(*byte, text);
    }
}

/// Puts a word between quotes.
fn put_word<T: TextSink>(word: &[u8], text: &mut T)
    ensures { WritesInCalls T.puts text.old (word_text word.now) text.new }
{
    put_part(b"'", text);
    put_bytes(word, text);
    put_part(b"'", text);
}

/// Puts which byte of a word is the first that may not stand there in a file's name, if there is one.
fn put_unfit_byte<T: TextSink>(word: &[u8], text: &mut T)
    ensures { WritesInCalls T.puts text.old (byte_text word.now (unfit_index word.now)) text.new }
{
    match unfit_index(word) {
        None => {}
        Some(index) => put_byte_at(word, index, text),
    }
}

/// Puts the byte of a word at an index: its place, counted from 1, and the byte.
fn put_byte_at<T: TextSink>(word: &[u8], index: usize, text: &mut T)
    requires { index < length word.now }
    ensures { WritesInCalls T.puts text.old (byte_text word.now (Some index)) text.new }
{
    put_part(b": byte ", text);
    put_number(index as u64 + 1, text);
    put_part(b" is '", text);
    put_byte(word[index], text);
    put_part(b"'", text);
}

/// Puts another name that may be meant.
fn put_other<T: TextSink>(name: &[u8], text: &mut T)
    ensures { WritesInCalls T.puts text.old (other_text name.now) text.new }
{
    put_part(b", ", text);
    put_word(name, text);
}

/// Puts each of these names that a word is like, after a comma.
fn put_others<T: TextSink>(word: &[u8], mut names: Words<'_>, text: &mut T)
    ensures { WritesInCalls T.puts text.old (flat_map other_text (filter (is_like word.now) names.entry)) text.new }
{
    while let Some(name) = next_like(word, &mut names) {
        put_other(name, text);
    }
}

/// Puts the question whether a command is meant whose name a word is like, if there is one.
fn put_question<T: TextSink>(word: &[u8], text: &mut T)
    ensures { WritesInCalls T.puts text.old (question_text (commands_like word.now)) text.new }
{
    let mut names = names();
    let Some(name) = next_like(word, &mut names) else {
        return;
    };
    put_part(b"; did you mean ", text);
    put_word(name, text);
    put_others(word, names, text);
    put_part(b"?", text);
}

/// Whether a word begins with a byte order mark.
fn has_mark(word: &[u8]) -> bool
    ensures { result ≡ has_mark word.now }
{
    word.starts_with(b"\xef\xbb\xbf")
}

/// Puts what may be wrong with a word that names no command.
fn put_command_hint<T: TextSink>(word: &[u8], text: &mut T)
    ensures { WritesInCalls T.puts text.old (command_hint word.now) text.new }
{
    if has_mark(word) {
        put_part(
            b"; it begins with a byte order mark: save the script without that",
            text,
        );
    } else {
        put_question(word, text);
    }
}

/// Puts of which cell a word is the identifier in decimal, if it is one.
fn put_decimal_cell<T: TextSink>(word: &[u8], text: &mut T)
    ensures { WritesInCalls T.puts text.old (identifier_text (decimal_cell word.now)) text.new }
{
    match decimal_cell_in(word) {
        Some(cell) => put_identified(cell, text),
        None => {}
    }
}

/// Puts that a word is the identifier of this cell.
fn put_identified<T: TextSink>(cell: CellId, text: &mut T)
    ensures { WritesInCalls T.puts text.old (identifier_text (Some cell)) text.new }
{
    put_part(b"; in decimal it is the identifier of the cell ", text);
    put_part(cell.token().as_slice(), text);
}

/// Puts what a number stands for, and its least and greatest value.
fn put_ranged<T: TextSink>(what: &[u8], least: u64, most: u64, text: &mut T)
    ensures { WritesInCalls T.puts text.old (ranged what.now least most) text.new }
{
    put_part(what, text);
    put_part(b" (", text);
    put_number(least, text);
    put_part(b" to ", text);
    put_number(most, text);
    put_part(b")", text);
}

/// Puts what the name of a file is.
fn put_name_form<T: TextSink>(text: &mut T)
    ensures { WritesInCalls T.puts text.old (wanted_text Wanted.FileName) text.new }
{
    put_part(b"a file name (1 to ", text);
    put_number(LONGEST_NAME as u64, text);
    put_part(
        b" letters, digits, '.', '_' or '-'; it must not begin with '.' or '-'; --dir names the folder)",
        text,
    );
}

/// Puts what is wanted in the place of a word.
fn put_wanted<T: TextSink>(wanted: Wanted, text: &mut T)
    ensures { WritesInCalls T.puts text.old (wanted_text wanted) text.new }
{
    match wanted {
        Wanted::CommandName => put_part(b"a command", text),
        Wanted::EndOfLine => put_part(b"the end of the line", text),
        Wanted::Register => put_part(b"a register (a to z)", text),
        Wanted::Cell => put_part(b"a cell (a token or a debug text)", text),
        Wanted::RangeEnd => put_part(b"a second cell", text),
        Wanted::Level => put_ranged(b"a level", 0, GREATEST_LEVEL, text),
        Wanted::Modulus => put_ranged(b"a modulus", 1, GREATEST_MODULUS, text),
        Wanted::Face => put_ranged(b"a face", 0, GREATEST_FACE, text),
        Wanted::Coordinate { least } => {
            put_ranged(b"a coordinate", u64::from(least), GREATEST_COORDINATE, text)
        }
        Wanted::FileName => put_name_form(text),
    }
}

/// Puts that a word is not what is wanted.
fn put_is_not<T: TextSink>(word: &[u8], wanted: Wanted, text: &mut T)
    ensures { WritesInCalls T.puts text.old (word_text word.now ++ codes " is not " ++ wanted_text wanted) text.new }
{
    put_word(word, text);
    put_part(b" is not ", text);
    put_wanted(wanted, text);
}

/// Puts that the second cell of a range ends before the first begins.
fn put_range_end<T: TextSink>(word: &[u8], text: &mut T)
    ensures { WritesInCalls T.puts text.old (unfit_text word.now Wanted.RangeEnd) text.new }
{
    put_part(b"the second cell ", text);
    put_word(word, text);
    put_part(b" ends before the first begins", text);
}

/// Puts what is said about a word that is not what is wanted.
pub(crate) fn put_unfit<T: TextSink>(word: &[u8], wanted: Wanted, text: &mut T)
    ensures { WritesInCalls T.puts text.old (unfit_text word.now wanted) text.new }
{
    match wanted {
        Wanted::CommandName => {
            put_is_not(word, wanted, text);
            put_command_hint(word, text);
        }
        Wanted::EndOfLine => {
            put_word(word, text);
            put_part(b" is a word too many", text);
        }
        Wanted::Cell => {
            put_is_not(word, wanted, text);
            put_decimal_cell(word, text);
        }
        Wanted::RangeEnd => put_range_end(word, text),
        Wanted::FileName => {
            put_is_not(word, wanted, text);
            put_unfit_byte(word, text);
        }
        _ => put_is_not(word, wanted, text),
    }
}

impl<'a> Misfit<'a> {
    /// Puts the text that tells where the line does not fit.
    pub fn put_text<T: TextSink>(&self, text: &mut T)
        ensures { WritesInCalls T.puts text.old (misfit_text self.now) text.new }
    {
        match self {
            Misfit::LongLine => put_long_line(text),
            Misfit::Missing { wanted } => {
                put_wanted(*wanted, text);
                put_part(b" is missing", text);
            }
            Misfit::Unfit { word, wanted } => put_unfit(word.as_bytes(), *wanted, text),
        }
    }
}

/// Puts that a line is too long.
fn put_long_line<T: TextSink>(text: &mut T)
    ensures { WritesInCalls T.puts text.old (misfit_text Misfit.LongLine) text.new }
{
    put_part(b"the line has more than ", text);
    put_number(LONGEST_LINE as u64, text);
    put_part(b" bytes: write several shorter lines", text);
}

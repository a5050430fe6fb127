//! The answers with pictures.
ghost use Rattle.std.specs.Prelude.{◌≡◌, MatchResult, OnOk, OnErr, IfOk, map, string_bytes};
ghost use Rattle.s2calc.specs.Calls.{LastFlushed, LastFailed};
ghost use Rattle.s2draw.specs.Picture.{picture};
ghost use Rattle.s2script.specs.CellList.{cells_of};
ghost use Rattle.s2calc.specs.Draw.{all_name_cells, Draws, DrawsFile, DrawsWords, DrawsAndTells, DrawsWordsAndTells};
ghost use Rattle.s2calc.specs.Replies.{Says, Refuses};

use crate::fault::RunFault;
use crate::fetch::fetch_union;
use crate::program::{refuse, say};
use crate::refusal::Refusal;
use crate::streams::Sink;
use s2cell::CellId;
use s2draw::picture;
use s2script::{cell_in, name_in};
use s2shelf::Shelf;
use std::alloc::{AllocError, Global};

/// Writes the picture of the union in a file, or why there is none, and flushes. Answers false in the second case. If
/// `curve`, the picture has the line through the middles of the cells. Out of memory is an answer of the second kind,
/// the line `error memory`; a picture is complete before its first byte is written.
pub fn draw_answer<S: Shelf, W: Sink>(
    alloc: Global,
    shelf: &mut S,
    name: &str,
    curve: bool,
    writer: &mut W,
) -> Result<bool, RunFault>
    ensures answer { DrawsAndTells name.now curve (S.files shelf.old) (S.files shelf.new) (W.contents writer.old)
        (W.contents writer.new) result }
    ensures flushed { OnOk result (LastFlushed ⊥ (W.calls writer.old) (W.calls writer.new)) }
    ensures failed { OnErr result (LastFailed ⊥ (W.calls writer.old) (W.calls writer.new)) }
{
    match draw(alloc, shelf, name, curve) {
        Ok(picture) => say(picture.as_slice(), writer),
        Err(refusal) => refuse(refusal, writer),
    }
}

/// Writes the picture of the cells that words name, in their order, or `error cell` if one of the words names none, and
/// flushes. Otherwise as `draw_answer`.
pub fn draw_cells_answer<W: Sink>(
    alloc: Global,
    words: &[String],
    curve: bool,
    writer: &mut W,
) -> Result<bool, RunFault>
    ensures answer { DrawsWordsAndTells (map string_bytes words.now) curve (W.contents writer.old)
        (W.contents writer.new) result }
    ensures flushed { OnOk result (LastFlushed ⊥ (W.calls writer.old) (W.calls writer.new)) }
    ensures failed { OnErr result (LastFailed ⊥ (W.calls writer.old) (W.calls writer.new)) }
{
    match draw_words(alloc, words, curve) {
        Ok(picture) => say(picture.as_slice(), writer),
        Err(refusal) => refuse(refusal, writer),
    }
}

/// The picture of the union in the file, or why there is none.
fn draw<S: Shelf>(alloc: Global, shelf: &mut S, name: &str, curve: bool) -> Result<Vec<u8>, Refusal>
    ensures { MatchResult result
        (λ p. Draws name.now curve (S.files shelf.old) (Says p.items) (S.files shelf.new))
        (λ refusal. Draws name.now curve (S.files shelf.old) (Refuses refusal) (S.files shelf.new)) }
{
    match name_in(name.as_bytes()) {
        Some(_) => draw_file(alloc, shelf, name, curve),
        None => Err(Refusal::Words(s2script::Refusal::Name)),
    }
}

fn draw_file<S: Shelf>(
    alloc: Global,
    shelf: &mut S,
    name: &str,
    curve: bool,
) -> Result<Vec<u8>, Refusal>
    ensures { MatchResult result
        (λ p. DrawsFile name.now curve (S.files shelf.old) (Says p.items) (S.files shelf.new))
        (λ refusal. DrawsFile name.now curve (S.files shelf.old) (Refuses refusal) (S.files shelf.new)) }
{
    let union = fetch_union(alloc, shelf, name)?;
    draw_cells(alloc, union.cells(), curve)
}

/// The picture of the cells that the words name, or why there is none.
fn draw_words(alloc: Global, words: &[String], curve: bool) -> Result<Vec<u8>, Refusal>
    ensures { MatchResult result (λ p. DrawsWords (map string_bytes words.now) curve (Says p.items))
        (λ refusal. DrawsWords (map string_bytes words.now) curve (Refuses refusal)) }
{
    if !all_name_cells(words) {
        return Err(Refusal::Words(s2script::Refusal::Cell));
    }
    let cells = cells_named(alloc, words)?;
    draw_cells(alloc, cells.as_slice(), curve)
}

/// The picture of cells, if there is memory for it.
fn draw_cells(alloc: Global, cells: &[CellId], curve: bool) -> Result<Vec<u8>, Refusal>
    ensures { MatchResult result (λ p. p.items ≡ picture curve cells.now) (λ refusal. refusal ≡ Refusal.Memory) }
{
    Ok(picture(alloc, cells, curve)?)
}

/// Whether each of the words names a cell.
fn all_name_cells(words: &[String]) -> bool
    ensures { result ≡ all_name_cells (map string_bytes words.now) }
{
    words.iter().all(|word| cell_in(word.as_bytes()).is_some())
}

/// The cells that the words name.
fn cells_named(alloc: Global, words: &[String]) -> Result<Vec<CellId>, AllocError>
    ensures { IfOk result (λ cells. cells.items ≡ cells_of (map string_bytes words.now)) }
{
    let mut cells = Vec::with_capacity(alloc, words.len())?;
    for word in words {
        if let Some(cell) = cell_in(word.as_bytes()) {
            cells.push(cell)?;
        }
    }
    Ok(cells)
}

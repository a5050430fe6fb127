//! The answer with the picture of several files.
ghost use Rattle.std.specs.Prelude.{◌≡◌, ◌++◌, MatchResult, OnOk, OnErr, ℕ, List, length, map, string_bytes};
ghost use Rattle.std.specs.Prelude.{Err, ◌⊎◌};
ghost use Rattle.s2calc.specs.Calls.{LastFlushed, LastFailed};
ghost use Rattle.s2draw.specs.Overlay.{layer};
ghost use Rattle.s2calc.specs.Fetch.{FetchesUnion};
ghost use Rattle.s2calc.specs.Overlay.{all_are_names, ReadsCells, Overlays, OverlaysFiles, OverlaysAndTells};
ghost use Rattle.s2calc.specs.Replies.{Says, Refuses};
ghost use Rattle.s2calc.specs.declared.refusal.Refusal.TheVariants.{Memory};

use crate::fault::RunFault;
use crate::fetch::fetch_union;
use crate::program::{refuse, say};
use crate::refusal::Refusal;
use crate::streams::Sink;
use s2draw::{add_layer, begin_overlay, end_overlay};
use s2script::name_in;
use s2shelf::Shelf;
use std::alloc::Global;

/// Writes one picture of the unions in the files, each in a color of its own and drawn over those before it, with a
/// legend of the files' names and numbers of cells; or why there is none; and flushes. Answers false in the second
/// case. If `curve`, a line joins the middles of the cells of each file.
///
/// More than 65,535 names are refused as `error too-many`. A name that no file can have is refused before any file is
/// read. Files are read in the order of the names, one at a time, up to the first that is refused; the refusal is that
/// of this file. Out of memory is the line `error memory`. A picture is complete before its first byte is written.
pub fn overlay_answer<S: Shelf, W: Sink>(
    alloc: Global,
    shelf: &mut S,
    names: &[String],
    curve: bool,
    writer: &mut W,
) -> Result<bool, RunFault>
    ensures answer { OverlaysAndTells (map string_bytes names.now) curve (S.files shelf.old) (S.files shelf.new)
        (W.contents writer.old) (W.contents writer.new) result }
    ensures flushed { OnOk result (LastFlushed ⊥ (W.calls writer.old) (W.calls writer.new)) }
    ensures failed { OnErr result (LastFailed ⊥ (W.calls writer.old) (W.calls writer.new)) }
{
    match overlay(alloc, shelf, names, curve) {
        Ok(picture) => say(picture.as_slice(), writer),
        Err(refusal) => refuse(refusal, writer),
    }
}

/// The picture of the files, or why there is none.
fn overlay<S: Shelf>(
    alloc: Global,
    shelf: &mut S,
    names: &[String],
    curve: bool,
) -> Result<Vec<u8>, Refusal>
    ensures { MatchResult result
        (λ p. Overlays (map string_bytes names.now) curve (S.files shelf.old) (Says p.items) (S.files shelf.new))
        (λ refusal. Overlays (map string_bytes names.now) curve (S.files shelf.old) (Refuses refusal)
        (S.files shelf.new)) }
{
    let Ok(count) = u16::try_from(names.len()) else {
        return Err(Refusal::TooMany);
    };
    if !all_are_names(names) {
        return Err(Refusal::Words(s2script::Refusal::Name));
    }
    overlay_files(alloc, shelf, names, count, curve)
}

fn overlay_files<S: Shelf>(
    alloc: Global,
    shelf: &mut S,
    names: &[String],
    count: u16,
    curve: bool,
) -> Result<Vec<u8>, Refusal>
    requires { count ≡ length names.now }
    ensures { MatchResult result
        (λ p. OverlaysFiles (map string_bytes names.now) curve (S.files shelf.old) (Says p.items) (S.files shelf.new))
        (λ refusal. OverlaysFiles (map string_bytes names.now) curve (S.files shelf.old) (Refuses refusal)
        (S.files shelf.new)) }
{
    let mut text = begin_overlay(alloc, count)?;
    let mut index: u16 = 0;
    for name in names {
        add_file(alloc, shelf, &mut text, index, name.as_str(), curve)?;
        index += 1;
    }
    end_overlay(&mut text)?;
    Ok(text)
}

/// Adds a file to a picture, or says why not.
fn add_file<S: Shelf>(
    alloc: Global,
    shelf: &mut S,
    text: &mut Vec<u8>,
    index: u16,
    name: &str,
    curve: bool,
) -> Result<(), Refusal>
    ensures { MatchResult result
        (λ _. (cells : List ℕ) × ReadsCells name.now (S.files shelf.old) cells (S.files shelf.new)
        × (text.new.items ≡ text.old.items ++ layer curve index (record { name = name.now; cells = cells })))
        (λ refusal. FetchesUnion name.now (S.files shelf.old) (Err refusal) (S.files shelf.new)
        ⊎ ((cells : List ℕ) × ReadsCells name.now (S.files shelf.old) cells (S.files shelf.new)
        × (refusal ≡ Memory))) }
{
    let union = fetch_union(alloc, shelf, name)?;
    add_layer(alloc, text, index, name.as_bytes(), union.cells(), curve)?;
    Ok(())
}

/// Whether each of the words has the form of a file's name.
pub(crate) fn all_are_names(names: &[String]) -> bool
    ensures { result ≡ all_are_names (map string_bytes names.now) }
{
    names.iter().all(|name| name_in(name.as_bytes()).is_some())
}

//! The answer with the picture of the part of the faces in which the unions of files lie.
ghost use Rattle.std.specs.Prelude.{◌≡◌, ◌<◌, ◌++◌, ◌∷◌, [], ◌^◌, MatchResult, OnOk, OnErr, IfOk, ℕ, List, length, map};
ghost use Rattle.std.specs.Prelude.{string_bytes, Err, ◌⊎◌};
ghost use Rattle.s2calc.specs.Calls.{LastFlushed, LastFailed};
ghost use Rattle.s2draw.specs.Zoom.{IsOnFaces, IsPart, zoomed, nowhere, bounds_from, zoom_layers_from};
ghost use Rattle.s2calc.specs.Fetch.{FetchesUnion};
ghost use Rattle.s2calc.specs.Overlay.{ReadsCells, ReadsLayers, RefusesFiles};
ghost use Rattle.s2calc.specs.Fit.{Fits, FitsFiles, FitsAndTells};
ghost use Rattle.s2calc.specs.Replies.{Says, Refuses};
ghost use Rattle.s2calc.specs.declared.refusal.Refusal.TheVariants.{Memory};

use crate::fault::RunFault;
use crate::fetch::fetch_union;
use crate::overlay::all_are_names;
use crate::program::{refuse, say};
use crate::refusal::Refusal;
use crate::streams::Sink;
use s2draw::{Bounds, Part, add_zoomed, begin_zoom, end_zoom, part_around};
use s2shelf::Shelf;
use s2union::CellUnion;
use std::alloc::{AllocError, Global};
use std::marker::Model;

/// A union that was read, and the name of its file.
#[derive(Drop)]
struct Named<'a> {
    name: &'a str,
    union: CellUnion,
}

impl<'a> Model for Named<'a> {
    ghost use Rattle.s2draw.specs.Overlay.{Layer};

    ghost Value = { Layer };

    ghost view = { λ n. record { name = n.name.now; cells = n.union.cells } };
}

/// Writes one picture of the part of the faces in which the unions of the files lie, with a margin, each in a color of
/// its own and drawn over those before it, with a legend of the files' names and numbers of cells; or why there is
/// none; and flushes. Answers false in the second case.
///
/// Names are refused, and files read, as `overlay_answer` has it; all unions are in memory at a time.
pub fn fit_answer<S: Shelf, W: Sink>(
    alloc: Global,
    shelf: &mut S,
    names: &[String],
    writer: &mut W,
) -> Result<bool, RunFault>
    ensures answer { FitsAndTells (map string_bytes names.now) (S.files shelf.old) (S.files shelf.new)
        (W.contents writer.old) (W.contents writer.new) result }
    ensures flushed { OnOk result (LastFlushed ⊥ (W.calls writer.old) (W.calls writer.new)) }
    ensures failed { OnErr result (LastFailed ⊥ (W.calls writer.old) (W.calls writer.new)) }
{
    match fit(alloc, shelf, names) {
        Ok(picture) => say(picture.as_slice(), writer),
        Err(refusal) => refuse(refusal, writer),
    }
}

/// The picture of the files, or why there is none.
fn fit<S: Shelf>(alloc: Global, shelf: &mut S, names: &[String]) -> Result<Vec<u8>, Refusal>
    ensures { MatchResult result
        (λ p. Fits (map string_bytes names.now) (S.files shelf.old) (Says p.items) (S.files shelf.new))
        (λ refusal. Fits (map string_bytes names.now) (S.files shelf.old) (Refuses refusal) (S.files shelf.new)) }
{
    let Ok(count) = u16::try_from(names.len()) else {
        return Err(Refusal::TooMany);
    };
    if !all_are_names(names) {
        return Err(Refusal::Words(s2script::Refusal::Name));
    }
    fit_files(alloc, shelf, names, count)
}

fn fit_files<S: Shelf>(
    alloc: Global,
    shelf: &mut S,
    names: &[String],
    count: u16,
) -> Result<Vec<u8>, Refusal>
    requires { count ≡ length names.now }
    ensures { MatchResult result
        (λ p. FitsFiles (map string_bytes names.now) (S.files shelf.old) (Says p.items) (S.files shelf.new))
        (λ refusal. FitsFiles (map string_bytes names.now) (S.files shelf.old) (Refuses refusal) (S.files shelf.new)) }
{
    let unions = read_all(alloc, shelf, names)?;
    Ok(draw(alloc, unions.as_slice(), count)?)
}

/// The unions in the files, or why there are none.
fn read_all<'a, S: Shelf>(
    alloc: Global,
    shelf: &mut S,
    names: &'a [String],
) -> Result<Vec<Named<'a>>, Refusal>
    ensures { MatchResult result
        (λ unions. ReadsLayers (map string_bytes names.now) (S.files shelf.old) unions.items (S.files shelf.new))
        (λ refusal. RefusesFiles (map string_bytes names.now) (S.files shelf.old) refusal (S.files shelf.new)) }
{
    let mut unions = Vec::new(alloc);
    for name in names {
        add_union(alloc, shelf, &mut unions, name.as_str())?;
    }
    Ok(unions)
}

/// Adds the union in a file to those that were read, or says why not.
fn add_union<'a, S: Shelf>(
    alloc: Global,
    shelf: &mut S,
    unions: &mut Vec<Named<'a>>,
    name: &'a str,
) -> Result<(), Refusal>
    ensures { MatchResult result
        (λ _. (cells : List ℕ) × ReadsCells name.now (S.files shelf.old) cells (S.files shelf.new)
        × (unions.new.items ≡ unions.old.items ++ (record { name = name.now; cells = cells }) ∷ []))
        (λ refusal. FetchesUnion name.now (S.files shelf.old) (Err refusal) (S.files shelf.new)
        ⊎ ((cells : List ℕ) × ReadsCells name.now (S.files shelf.old) cells (S.files shelf.new)
        × (refusal ≡ Memory))) }
{
    let union = fetch_union(alloc, shelf, name)?;
    put_union(unions, name, union)?;
    Ok(())
}

/// Adds a union and its name.
fn put_union<'a>(
    unions: &mut Vec<Named<'a>>,
    name: &'a str,
    union: CellUnion,
) -> Result<(), AllocError>
    ensures { IfOk result (λ _. unions.new.items
        ≡ unions.old.items ++ (record { name = name.now; cells = union.cells }) ∷ []) }
{
    unions.push(Named { name, union })?;
    Ok(())
}

/// The picture of the part in which the unions lie.
fn draw(alloc: Global, unions: &[Named<'_>], count: u16) -> Result<Vec<u8>, AllocError>
    requires { count ≡ length unions.now }
    ensures { IfOk result (λ text. text.items ≡ zoomed unions.now) }
{
    let part = part_around(bounds_of(unions));
    let mut text = begin_zoom(alloc, part, count)?;
    add_all(alloc, &mut text, part, unions)?;
    end_zoom(&mut text)?;
    Ok(text)
}

/// The bounds of all cells of the unions.
fn bounds_of(unions: &[Named<'_>]) -> Bounds
    ensures bounds { result ≡ bounds_from nowhere unions.now }
    ensures within { IsOnFaces result }
{
    let mut bounds = Bounds::nowhere();
    for one in unions {
        bounds = bounds.and(one.union.cells());
    }
    bounds
}

/// Adds each of the unions to a picture of a part.
fn add_all(
    alloc: Global,
    text: &mut Vec<u8>,
    part: Part,
    unions: &[Named<'_>],
) -> Result<(), AllocError>
    requires part { IsPart part }
    requires few { length unions.now < 2 ^ 16 }
    ensures { IfOk result (λ _. text.new.items ≡ text.old.items ++ zoom_layers_from part 0 unions.now) }
{
    let mut index: u16 = 0;
    for one in unions {
        add_zoomed(
            alloc,
            text,
            part,
            index,
            one.name.as_bytes(),
            one.union.cells(),
        )?;
        index = index.saturating_add(1);
    }
    Ok(())
}

//! The program's answers about files.
ghost use Rattle.std.specs.Prelude.{◌≡◌, OnOk, OnErr, string_bytes, map};
ghost use Rattle.s2calc.specs.Calls.{LastFlushed, LastFailed};
ghost use Rattle.s2calc.specs.Program.{ShowsReply};
ghost use Rattle.s2calc.specs.Replies.{Reply};
ghost use Rattle.s2process.specs.Errors.{misnamed_lines};
ghost use Rattle.s2process.specs.Program.{AsksFolder};
ghost use Rattle.s2process.specs.Streams.{AreNew};
ghost use Rattle.s2process.specs.Working.Answers.{may_be, names_of};

use crate::ended::{Ended, end_answer, not_begun};
use crate::folders::{Folders, Opening};
use crate::streams::Streams;
use s2calc::{RunFault, Sink, check_answer, draw_answer, fit_answer, overlay_answer};
use s2shelf::Shelf;
use std::alloc::Global;
use std::slice;

/// What is asked of the files of a folder.
#[derive(Clone, Copy)]
pub(crate) enum FileQuestion<'a> {
    /// How many cells and leaves a file has.
    Check(&'a String),
    /// The picture of a file, with the curve or without.
    Draw(&'a String, bool),
    /// One picture of several files, with the curve or without.
    Overlay(&'a [String], bool),
    /// The picture of the part of the faces in which files lie.
    Fit(&'a [String]),
}

impl<'a> FileQuestion<'a> {
    /// The names of the files.
    fn names(self) -> &'a [String]
        ensures { map string_bytes result.now ≡ names_of self.entry }
    {
        match self {
            FileQuestion::Check(name) => slice::from_ref(name),
            FileQuestion::Draw(name, _) => slice::from_ref(name),
            FileQuestion::Overlay(names, _) => names,
            FileQuestion::Fit(names) => names,
        }
    }
}

/// Answers a question about files of the folder at a path.
pub(crate) fn answer_of_files<R: Drop, W: Sink + Drop, E: Sink + Drop, F: Folders + Drop>(
    alloc: Global,
    dir: &str,
    question: FileQuestion<'_>,
    mut streams: Streams<R, W, E>,
    folders: F,
) -> Ended<R, W, E, F, F::Folder>
    requires { AreNew streams }
    ensures { AsksFolder F.Folder.files F.opened result dir.now (may_be question.entry)
        (misnamed_lines (names_of question.entry)) }
{
    let Ok(mut folder) = folders.open(dir) else {
        return not_begun(streams, Opening::Failed);
    };
    let outcome = ask(alloc, &mut folder, question, &mut streams.output);
    end_answer(
        alloc,
        &outcome,
        question.names(),
        streams,
        Opening::Opened(folder),
    )
}

/// Writes the answer to a question about files.
fn ask<S: Shelf, W: Sink>(
    alloc: Global,
    folder: &mut S,
    question: FileQuestion<'_>,
    writer: &mut W,
) -> Result<bool, RunFault>
    ensures answer { (reply : Reply) × may_be question.entry (S.files folder.old) reply (S.files folder.new)
        × ShowsReply reply (W.contents writer.old) (W.contents writer.new) result }
    ensures flushed { OnOk result (LastFlushed ⊥ (W.calls writer.old) (W.calls writer.new)) }
    ensures failed { OnErr result (LastFailed ⊥ (W.calls writer.old) (W.calls writer.new)) }
{
    match question {
        FileQuestion::Check(name) => check_answer(alloc, folder, name.as_str(), writer),
        FileQuestion::Draw(name, curve) => draw_answer(alloc, folder, name.as_str(), curve, writer),
        FileQuestion::Overlay(names, curve) => overlay_answer(alloc, folder, names, curve, writer),
        FileQuestion::Fit(names) => fit_answer(alloc, folder, names, writer),
    }
}

//! The program, but for its words and its streams.
ghost use Rattle.std.specs.Prelude.{◌≡◌, [], IfOk};
ghost use Rattle.s2calc.specs.Program.{IsInRange};
ghost use Rattle.s2process.specs.Listed.{moments_of};
ghost use Rattle.s2process.specs.Streams.{AreNew};
ghost use Rattle.s2process.specs.Program.{Does, DoesJob, Stops};

use crate::answers::{FileQuestion, answer_of_files};
use crate::ended::{Ended, end_answer, end_usage, not_begun};
use crate::folders::{Folders, Opening};
use crate::observer::ListedObserver;
use crate::reader::ListedReader;
use crate::scripts::run_script;
use crate::streams::Streams;
use crate::writer::ListedWriter;
use s2calc::{AnswerBuffer, Job, Sink, Source, Stop, cell_answer, draw_cells_answer, say};
use s2edit::Editor;
use std::alloc::Global;

/// Does what the program is asked for, over streams of which nothing was called, and gives the exit status.
///
/// Whatever the streams and the folders are, the contract says which bytes the reads gave and the writes took, in which
/// order reads, lines and writes came, how all this ended, what standard error got, and the status.
pub fn program<R: Source + Drop, W: Sink + Drop, E: Sink + Drop, F: Folders + Drop>(
    alloc: Global,
    asked: Result<Job, Stop>,
    streams: Streams<R, W, E>,
    folders: F,
    observer: &mut ListedObserver<ListedReader<R>, AnswerBuffer<ListedWriter<W>>, F::Folder>,
) -> Ended<R, W, E, F, F::Folder>
    requires range { IfOk asked IsInRange }
    requires nothing_called { AreNew streams }
    requires nothing_seen { moments_of observer.old ≡ [] }
    ensures { Does F.Folder.files F.opened (moments_of observer.new) result asked }
{
    match asked {
        Ok(job) => answer(alloc, job, streams, folders, observer),
        Err(stop) => answer_stop(alloc, stop, streams, folders),
    }
}

/// Does a job.
fn answer<R: Source + Drop, W: Sink + Drop, E: Sink + Drop, F: Folders + Drop>(
    alloc: Global,
    job: Job,
    mut streams: Streams<R, W, E>,
    folders: F,
    observer: &mut ListedObserver<ListedReader<R>, AnswerBuffer<ListedWriter<W>>, F::Folder>,
) -> Ended<R, W, E, F, F::Folder>
    requires range { IsInRange job }
    requires nothing_called { AreNew streams }
    requires nothing_seen { moments_of observer.old ≡ [] }
    ensures { DoesJob F.Folder.files F.opened (moments_of observer.new) result job }
{
    match job {
        Job::Run {
            limit,
            depth,
            dir,
            explain,
            prompt: _,
            stop,
        } => match Editor::open(alloc, limit, depth) {
            Ok(editor) => run_script(
                alloc,
                editor,
                dir.as_str(),
                explain,
                stop,
                streams,
                folders,
                observer,
            ),
            Err(_) => not_begun(streams, Opening::Unopened(folders)),
        },
        Job::Cell { word } => {
            let outcome = cell_answer(word.as_bytes(), &mut streams.output);
            end_answer(alloc, &outcome, &[], streams, Opening::Unopened(folders))
        }
        Job::DrawCells { words, curve } => {
            let outcome = draw_cells_answer(alloc, words.as_slice(), curve, &mut streams.output);
            end_answer(alloc, &outcome, &[], streams, Opening::Unopened(folders))
        }
        Job::Check { dir, name } => {
            let question = FileQuestion::Check(&name);
            answer_of_files(alloc, dir.as_str(), question, streams, folders)
        }
        Job::Draw { dir, name, curve } => {
            let question = FileQuestion::Draw(&name, curve);
            answer_of_files(alloc, dir.as_str(), question, streams, folders)
        }
        Job::Overlay { dir, names, curve } => {
            let question = FileQuestion::Overlay(names.as_slice(), curve);
            answer_of_files(alloc, dir.as_str(), question, streams, folders)
        }
        Job::Fit { dir, names } => {
            let question = FileQuestion::Fit(names.as_slice());
            answer_of_files(alloc, dir.as_str(), question, streams, folders)
        }
    }
}

/// Shows the help that was asked for, or says what is wrong with the words.
fn answer_stop<R: Drop, W: Sink + Drop, E: Sink + Drop, F: Drop, S: Drop>(
    alloc: Global,
    stop: Stop,
    mut streams: Streams<R, W, E>,
    folders: F,
) -> Ended<R, W, E, F, S>
    requires nothing_called { AreNew streams }
    ensures { Stops result stop }
{
    match stop {
        Stop::Help(text) => {
            let outcome = say(text.as_bytes(), &mut streams.output);
            end_answer(alloc, &outcome, &[], streams, Opening::Unopened(folders))
        }
        Stop::Usage(wrong) => end_usage(wrong.as_bytes(), streams, folders),
        Stop::Memory => not_begun(streams, Opening::Unopened(folders)),
    }
}

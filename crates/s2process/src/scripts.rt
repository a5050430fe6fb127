//! The program's run of a script.
ghost use Rattle.std.specs.Prelude.{◌≡◌, List, [], ℕ, Bool, not};
ghost use Rattle.s2process.specs.Listed.{calls_of, calls_of_reader, moments_of};
ghost use Rattle.s2process.specs.Program.{MayRunFrom, RunsFrom};
ghost use Rattle.s2process.specs.Streams.{AreNew};

use crate::ended::{Ended, end_run, not_begun};
use crate::folders::{Folders, Opening};
use crate::observer::ListedObserver;
use crate::reader::ListedReader;
use crate::run::run_listed;
use crate::streams::Streams;
use crate::writer::ListedWriter;
use s2calc::{AnswerBuffer, NoteWriter, Sink, Source};
use s2edit::Editor;
use std::alloc::Global;

/// Runs the script on standard input, from this state of an editor, over the folder at a path; and if asked, says why
/// lines are refused, and `stops` at the first of these.
pub(crate) fn run_script<R: Source + Drop, W: Sink + Drop, E: Sink + Drop, F: Folders + Drop>(
    alloc: Global,
    editor: Editor,
    dir: &str,
    explain: bool,
    stops: bool,
    streams: Streams<R, W, E>,
    folders: F,
    observer: &mut ListedObserver<ListedReader<R>, AnswerBuffer<ListedWriter<W>>, F::Folder>,
) -> Ended<R, W, E, F, F::Folder>
    requires nothing_called { AreNew streams }
    requires nothing_seen { moments_of observer.old ≡ [] }
    ensures { MayRunFrom F.Folder.files F.opened (moments_of observer.new) result editor dir.now explain
        stops }
{
    let Ok(folder) = folders.open(dir) else {
        return not_begun(streams, Opening::Failed);
    };
    let Streams {
        input,
        output,
        errors,
    } = streams;
    match AnswerBuffer::new(alloc, output) {
        Ok(answers) => match NoteWriter::new(alloc, errors, explain) {
            Ok(notes) => run_over(
                alloc, editor, folder, input, answers, notes, observer, stops,
            ),
            Err(errors) => not_begun(
                Streams {
                    input,
                    output: answers.into_writer(),
                    errors,
                },
                Opening::Opened(folder),
            ),
        },
        Err(output) => not_begun(
            Streams {
                input,
                output,
                errors,
            },
            Opening::Opened(folder),
        ),
    }
}

/// Runs the script over a folder, a buffer in which nothing waits, and a writer of notes, which has stopped if none are
/// wanted.
fn run_over<R: Source + Drop, W: Sink + Drop, E: Sink + Drop, F: Folders + Drop>(
    alloc: Global,
    mut editor: Editor,
    mut folder: F::Folder,
    mut input: ListedReader<R>,
    mut answers: AnswerBuffer<ListedWriter<W>>,
    mut notes: NoteWriter<ListedWriter<E>>,
    observer: &mut ListedObserver<ListedReader<R>, AnswerBuffer<ListedWriter<W>>, F::Folder>,
    stops: bool,
) -> Ended<R, W, E, F, F::Folder>
    requires nothing_read { calls_of_reader input ≡ [] }
    requires nothing_written { calls_of answers.writer ≡ [] }
    requires nothing_waits { answers.waiting ≡ [] }
    requires no_notes { calls_of notes.writer ≡ [] }
    requires nothing_seen { moments_of observer.old ≡ [] }
    ensures { (path : List ℕ) (explains : Bool) → F.opened folder path → notes.stopped ≡ not explains →
        RunsFrom F.Folder.files F.opened (moments_of observer.new) result editor path explains stops }
{
    let result = run_listed(
        alloc,
        &mut editor,
        &mut input,
        &mut answers,
        &mut folder,
        &mut notes,
        observer,
        stops,
    );
    let mut errors = notes.into_writer();
    let status = end_run(&result, &mut errors);
    Ended {
        status,
        streams: Streams {
            input,
            output: answers.into_writer(),
            errors,
        },
        folder: Opening::Opened(folder),
    }
}

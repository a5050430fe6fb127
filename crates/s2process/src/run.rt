//! A run over streams whose calls are all known.
ghost use Rattle.std.specs.Prelude.{◌≡◌, false, true, []};
ghost use Rattle.s2calc.specs.World.{world};
ghost use Rattle.s2process.specs.Listed.{calls_of_reader, given, reads, calls_of, taken, called, moments_of};
ghost use Rattle.s2process.specs.Process.{RunsListed};
ghost use Rattle.s2process.specs.Explained.{Explains};

use crate::observer::ListedObserver;
use crate::reader::ListedReader;
use crate::writer::ListedWriter;
use s2calc::{AnswerBuffer, NoteWriter, Promptly, RunFault, Sink, Source, Tally, run_with};
use s2edit::Editor;
use s2shelf::Shelf;
use std::alloc::Global;

/// Runs a script as `s2calc::run_with` does, promptly, over streams that nothing was read from or written to. It says
/// why lines are refused, unless the writer of notes has stopped before: then nothing of that is called. It `stops` at
/// its first refused line, if that is wanted.
///
/// Whatever the reader and the writer are, the contract says which bytes the reads gave and the writes took, in which
/// order reads, lines and writes came, and how all this ended. Over a `ListedShelf` it says too which bytes of files
/// the shelf handed over, for which each `load` is right.
pub fn run_listed<R: Source, W: Sink, S: Shelf, N: Sink>(
    alloc: Global,
    editor: &mut Editor,
    reader: &mut ListedReader<R>,
    writer: &mut AnswerBuffer<ListedWriter<W>>,
    shelf: &mut S,
    notes: &mut NoteWriter<ListedWriter<N>>,
    observer: &mut ListedObserver<ListedReader<R>, AnswerBuffer<ListedWriter<W>>, S>,
    stops: bool,
) -> Result<Tally, RunFault>
    requires nothing_read { calls_of_reader reader.old ≡ [] }
    requires nothing_written { calls_of writer.old.writer ≡ [] }
    requires nothing_waits { writer.old.waiting ≡ [] }
    requires no_notes { calls_of notes.old.writer ≡ [] }
    requires nothing_seen { moments_of observer.old ≡ [] }
    ensures { (runs : RunsListed taken called S.files stops (given reader.new) (reads reader.new)
        (world editor.old (S.files shelf.old)) (world editor.new (S.files shelf.new)) (moments_of observer.new)
        writer.new.writer writer.new.waiting result)
        × (notes.old.stopped ≡ false →
        Explains runs.did (taken notes.new.writer) (called notes.new.writer) notes.new.stopped)
        × (notes.old.stopped ≡ true → (taken notes.new.writer ≡ []) × (called notes.new.writer ≡ [])) }
{
    let result = run_with::<_, _, Promptly, _, _>(
        alloc, editor, reader, writer, shelf, notes, observer, stops,
    );
    let _ = writer.waiting_len();
    result
}

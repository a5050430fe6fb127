//! What a run says of the lines that it refuses.
ghost use Rattle.std.specs.Prelude.{◌≡◌, not, IfOk, IfErr, [], ◌∷◌, ◌++◌, codes, decimal};
ghost use Rattle.std.specs.Fmt.{WritesInCalls};
ghost use Rattle.s2script.specs.Line.{misfit_of};
ghost use Rattle.s2calc.specs.Replies.{Reply};
ghost use Rattle.s2calc.specs.Working.Execute.{IsOutcome};
ghost use Rattle.s2calc.specs.Notes.{WritesNotes, note_of, note_text, reason_of, misfit_reason};
ghost use Rattle.s2calc.specs.Noting.{noted_by};
ghost use Rattle.s2calc.specs.Refusals.{name_of};
ghost use Rattle.s2calc.specs.Working.Noting.{noted_below};

use crate::execute::Outcome;
use crate::limits::NOTE_ROOM;
use crate::output::emit;
use crate::refusal::Refusal;
use crate::streams::Sink;
use s2script::{TextSink, misfit_of, put_number, put_part};
use std::alloc::Global;
use std::marker::Model;

/// Where notes on refused lines go.
pub trait Notes {
    ghost use Rattle.s2calc.specs.Notes.{Noted};

    // what is known of the notes that were written
    ghost noted: { Self → Noted };

    /// Says why the line with this number is refused.
    fn note(&mut self, number: u64, line: &[u8], refusal: Refusal)
        ensures { WritesNotes (noted self.old) (note_text number line.now refusal ++ 10 ∷ []) (noted self.new) };
}

/// Says why the line with this number is refused, if it is.
pub(crate) fn note<N: Notes>(notes: &mut N, number: u64, line: &[u8], outcome: Outcome)
    ensures { (reply : Reply) → IsOutcome outcome reply →
        WritesNotes (N.noted notes.old) (note_of number line.now reply) (N.noted notes.new) }
{
    if let Outcome::Refused(refusal) = outcome {
        notes.note(number, line, refusal);
    }
}

/// No note is written.
#[derive(Drop)]
pub struct NoNotes;

impl Notes for NoNotes {
    ghost use Rattle.s2calc.specs.Run.{no_notes};

    ghost noted = { λ _. no_notes };

    fn note(&mut self, _number: u64, _line: &[u8], _refusal: Refusal) {}
}

/// Puts the note on a line: `line 7: error cell: 'zz' is not a cell (a token or a debug text)`.
#[tactic(auto, using(s2script::proofs::TextLemmas::parts))]
fn put_note<T: TextSink>(number: u64, line: &[u8], refusal: Refusal, text: &mut T)
    ensures { WritesInCalls T.puts text.old (note_text number line.now refusal ++ 10 ∷ []) text.new }
{
    put_head(number, refusal, text);
    put_reason(line, refusal, text);
    put_part(b"\n", text);
}

/// Puts the number of a line, and the name of its refusal.
#[tactic(auto, using(s2script::proofs::TextLemmas::parts))]
fn put_head<T: TextSink>(number: u64, refusal: Refusal, text: &mut T)
    ensures { WritesInCalls T.puts text.old
        (codes "line " ++ decimal number ++ codes ": error " ++ name_of refusal ++ codes ": ") text.new }
{
    put_part(b"line ", text);
    put_number(number, text);
    put_part(b": error ", text);
    put_part(refusal.name().as_bytes(), text);
    put_part(b": ", text);
}

/// Puts why a line is refused.
fn put_reason<T: TextSink>(line: &[u8], refusal: Refusal, text: &mut T)
    ensures { WritesInCalls T.puts text.old (reason_of line.now refusal) text.new }
{
    match refusal {
        Refusal::Words(_) => put_misfit(line, text),
        Refusal::Missing => put_part(b"there is no file of that name", text),
        Refusal::File => put_part(b"the file could not be read or written", text),
        Refusal::Format => put_part(b"the file is not a union file", text),
        Refusal::Session => put_part(b"the file is not a session file", text),
        Refusal::TooDeep => put_part(b"the session has more states than the depth", text),
        Refusal::TooMany => put_part(
            b"too many cells: a register has up to 10000 (regions of the Earth: --limit 1000000), denorm lists 1000000",
            text,
        ),
        Refusal::Nothing => put_part(b"there is nothing to undo or redo", text),
        Refusal::Memory => put_part(b"out of memory", text),
    }
}

/// Puts where a line does not fit, if it does not.
#[tactic(auto, using(s2script::proofs::TextLemmas::parts))]
fn put_misfit<T: TextSink>(line: &[u8], text: &mut T)
    ensures { WritesInCalls T.puts text.old (misfit_reason (misfit_of line.now)) text.new }
{
    match misfit_of(line) {
        Some(misfit) => misfit.put_text(text),
        None => {}
    }
}

/// Notes on their way to a writer. The parts of a note wait until it is complete, so that one write has all of it.
#[derive(Drop)]
struct NoteText<W> {
    writer: W,
    waiting: Vec<u8>,
    stopped: bool,
}

/// Writes bytes, unless a write has failed before.
fn pass<W: Sink>(writer: &mut W, stopped: &mut bool, bytes: &[u8])
    ensures { WritesNotes (noted_below W.contents W.calls writer.old stopped.old) bytes.now
        (noted_below W.contents W.calls writer.new stopped.new) }
{
    if *stopped {
        return;
    }
    match emit(writer, bytes) {
        Ok(()) => {}
        Err(_) => *stopped = true,
    }
}

impl<W: Sink> NoteText<W> {
    /// Writes what waits.
    fn pass_on(&mut self)
        ensures passes { WritesNotes (noted_below W.contents W.calls self.old.writer self.old.stopped)
            self.old.waiting.items (noted_below W.contents W.calls self.new.writer self.new.stopped) }
        ensures nothing_waits { self.new.waiting.items ≡ [] }
    {
        pass(&mut self.writer, &mut self.stopped, self.waiting.as_slice());
        self.waiting.clear();
    }

    /// Writes what waits, and then a part.
    fn pass_with(&mut self, part: &[u8])
        ensures passes { WritesNotes (noted_below W.contents W.calls self.old.writer self.old.stopped)
            (self.old.waiting.items ++ part.now) (noted_below W.contents W.calls self.new.writer self.new.stopped) }
        ensures nothing_waits { self.new.waiting.items ≡ [] }
    {
        self.pass_on();
        pass(&mut self.writer, &mut self.stopped, part);
    }
}

impl<W: Sink> TextSink for NoteText<W> {
    ghost use Rattle.s2calc.specs.Working.Noting.{Puts};

    ghost puts = { Puts W.contents W.calls };

    /// Has a part wait. If there is no memory for it, what waits is written first, and then the part, at once.
    fn put(&mut self, part: &[u8]) {
        match self.waiting.extend_from_slice(part) {
            Ok(()) => {}
            Err(_) => self.pass_with(part),
        }
    }
}

/// A writer of notes: one line for each refused line of a run, with its number, the refusal and the reason.
///
/// If a call of the writer below fails, this stops: it calls that no more, and the run goes on. So a note is missing
/// only if such a call failed.
#[derive(Drop)]
pub struct NoteWriter<W> {
    notes: NoteText<W>,
}

impl<W> Model for NoteWriter<W> {
    ghost use Rattle.std.specs.Prelude.{◌≡◌, []};
    ghost use Rattle.s2calc.specs.Noting.{Noting};
    ghost use Rattle.s2calc.specs.Working.Noting.{noting_code};

    ghost Value = { Noting W };

    ghost coded = { noting_code W.code };

    ghost view = { λ n. record { writer = n.notes.writer; stopped = n.notes.stopped } };

    ghost invariant = { λ n. n.notes.waiting.items ≡ [] };
}

impl<W: Sink + Drop> NoteWriter<W> {
    /// A writer of notes over a writer. Takes room for the longest note. If there is no memory, the writer is given
    /// back. If no notes are wanted, it has stopped from the beginning, and takes no memory.
    pub fn new(alloc: Global, writer: W, wanted: bool) -> Result<NoteWriter<W>, W>
        ensures writer { IfOk result (λ n. n.writer ≡ writer) }
        ensures writes { IfOk result (λ n. n.stopped ≡ not wanted) }
        ensures given_back { IfErr result (λ w. w ≡ writer) }
    {
        let room = if wanted {
            Vec::with_capacity(alloc, NOTE_ROOM)
        } else {
            Ok(Vec::new(alloc))
        };
        match room {
            Ok(waiting) => Ok(NoteWriter {
                notes: NoteText {
                    writer,
                    waiting,
                    stopped: !wanted,
                },
            }),
            Err(_) => Err(writer),
        }
    }
}

impl<W> NoteWriter<W> {
    /// The writer below.
    pub fn into_writer(self) -> W
        ensures { result ≡ self.writer }
    {
        self.notes.writer
    }
}

impl<W: Sink> Notes for NoteWriter<W> {
    ghost noted = { noted_by W.contents W.calls };

    /// Writes a note, unless it has stopped.
    fn note(&mut self, number: u64, line: &[u8], refusal: Refusal) {
        if self.notes.stopped {
            return;
        }
        put_note(number, line, refusal, &mut self.notes);
        self.notes.pass_on();
    }
}

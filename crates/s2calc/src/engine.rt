//! The run of a script.
ghost use Rattle.std.specs.Prelude.{◌≡◌, ◌<◌, ◌+◌, ℕ, List, [], ◌∷◌, ◌++◌, OnOk, IfOk, IfErr, IfSome, IfNone};
ghost use Rattle.std.specs.Prelude.{length, take, MatchResult, true, false, IsTrue};
ghost use Rattle.std.specs.Io.KnownBytes.{Keeps};
ghost use Rattle.s2list.specs.Union.{IsNormalForm, has_leaf};
ghost use Rattle.s2edit.specs.History.{EachList};
ghost use Rattle.s2calc.specs.Replies.{Reply, tally_of};
ghost use Rattle.s2calc.specs.Working.Execute.{IsOutcome};
ghost use Rattle.s2script.specs.Lines.{IsUnbroken};
ghost use Rattle.s2script.specs.Working.Lines.{EndsLineAt};
ghost use Rattle.s2calc.specs.Run.{Runs, known, no_notes};
ghost use Rattle.s2calc.specs.Reads.{input_of};
ghost use Rattle.s2calc.specs.World.{world};
ghost use Rattle.s2calc.specs.Flushing.{FlushedIfOk};
ghost use Rattle.s2calc.specs.Working.Calls.{FailedIfErr};
ghost use Rattle.s2calc.specs.Working.Desk.{SameReferences, AnswersKept, TakesIn, Finishes, RunsOver};
ghost use Rattle.s2calc.specs.Working.Stands.{keeping};
ghost use Rattle.s2calc.specs.Order.{Ordered};
ghost use Rattle.s2calc.specs.Notes.{number_of};

use crate::desk::Desk;
use crate::execute::{Outcome, asks_for_file, execute};
use crate::fault::RunFault;
use crate::flushing::{AtTheEnd, Flushing};
use crate::kept::beginning;
use crate::limits::{KEPT, READ_SIZE};
use crate::notes::{NoNotes, Notes, note};
use crate::observer::{Observer, Unobserved, begin_line, end_line};
use crate::progress::Progress;
use crate::streams::{Sink, Source};
use s2edit::Editor;
use s2script::parse;
use s2shelf::Shelf;
use std::alloc::Global;

/// How many lines were answered, and how many of them were refused. Each number stops at its greatest value.
#[derive(Clone, Copy, Debug, PartialEq, Eq)]
pub struct Tally {
    /// The lines that were answered, refused ones among them.
    pub commands: u64,
    /// The lines that were refused.
    pub refused: u64,
}

impl Tally {
    /// Counts one line.
    pub(crate) fn count(&mut self, outcome: Outcome)
        ensures { (reply : Reply) (before : List Reply) → IsOutcome outcome reply → self.old ≡ tally_of before →
            self.new ≡ tally_of (before ++ reply ∷ []) }
    {
        match outcome {
            Outcome::Silent => {}
            Outcome::Answered => self.commands = self.commands.saturating_add(1),
            Outcome::Refused(_) => {
                self.commands = self.commands.saturating_add(1);
                self.refused = self.refused.saturating_add(1);
            }
        }
    }
}

/// The place of the newline.
fn newline_in(bytes: &[u8]) -> Option<usize>
    ensures none { IfNone result (IsUnbroken bytes.now) }
    ensures some { IfSome result (λ at. EndsLineAt bytes.now at) }
{
    bytes.iter().position(|b| *b == b'\n')
}

/// Takes the next bytes of a script, and carries out each line that ends in them. If the run `stops` at a refused line,
/// nothing after the first of these is carried out, and it answers that the run is halted.
fn take_in<W: Sink, S: Shelf, F: Flushing<W>, N: Notes, O: Observer<W, S>>(
    desk: &mut Desk<'_, '_, '_, '_, '_, W, S, N, O>,
    progress: &mut Progress,
    chunk: &[u8],
    stops: bool,
) -> Result<bool, RunFault>
    ensures same { SameReferences desk.old desk.new }
    ensures takes_in { TakesIn W.contents W.calls F.is_sent F.may_fail S.files N.noted O.seen stops desk.old
        progress.old chunk.now desk.new progress.new result }
    ensures calls { FailedIfErr F.may_fail (W.calls desk.old.writer.now) (W.calls desk.new.writer.now) result }
{
    let mut rest = chunk;
    while let Some(at) = newline_in(rest) {
        answer_next::<W, S, F, N, O>(desk, progress, &rest[..at])?;
        if is_halted(stops, progress.tally) {
            return Ok(true);
        }
        rest = &rest[at + 1..];
    }
    progress.kept.keep(rest);
    Ok(false)
}

/// Whether a run ends there: it `stops` at a refused line, and has refused one.
fn is_halted(stops: bool, tally: Tally) -> bool
    ensures halted { IsTrue result → (stops ≡ true) × (0 < tally.refused) }
    ensures goes_on { result ≡ false → stops ≡ true → tally.refused ≡ 0 }
{
    stops && tally.refused > 0
}

/// Carries out the line that these bytes end, as `answer_line` does. A line that was read at once isn't copied.
fn answer_next<W: Sink, S: Shelf, F: Flushing<W>, N: Notes, O: Observer<W, S>>(
    desk: &mut Desk<'_, '_, '_, '_, '_, W, S, N, O>,
    progress: &mut Progress,
    end: &[u8],
) -> Result<(), RunFault>
    ensures same { SameReferences desk.old desk.new }
    ensures answers { AnswersKept W.contents W.calls F.is_sent F.may_fail S.files N.noted O.seen desk.old
        (keeping (take KEPT (progress.old.kept ++ end.now)) progress.old) desk.new
        (keeping (take KEPT (progress.old.kept ++ end.now)) progress.new) result }
    ensures cleared { OnOk result (progress.new.kept ≡ []) }
    ensures calls { FailedIfErr F.may_fail (W.calls desk.old.writer.now) (W.calls desk.new.writer.now) result }
{
    if progress.kept.as_slice().is_empty() {
        let line = beginning(end);
        answer_line::<W, S, F, N, O>(desk, &mut progress.tally, &mut progress.lines, line)
    } else {
        answer_cut::<W, S, F, N, O>(desk, progress, end)
    }
}

/// Carries out the line of which earlier reads have kept the beginning, and which these bytes end.
fn answer_cut<W: Sink, S: Shelf, F: Flushing<W>, N: Notes, O: Observer<W, S>>(
    desk: &mut Desk<'_, '_, '_, '_, '_, W, S, N, O>,
    progress: &mut Progress,
    end: &[u8],
) -> Result<(), RunFault>
    ensures same { SameReferences desk.old desk.new }
    ensures answers { AnswersKept W.contents W.calls F.is_sent F.may_fail S.files N.noted O.seen desk.old
        (keeping (take KEPT (progress.old.kept ++ end.now)) progress.old) desk.new
        (keeping (take KEPT (progress.old.kept ++ end.now)) progress.new) result }
    ensures cleared { OnOk result (progress.new.kept ≡ []) }
    ensures calls { FailedIfErr F.may_fail (W.calls desk.old.writer.now) (W.calls desk.new.writer.now) result }
{
    progress.kept.keep(end);
    let line = progress.kept.as_slice();
    answer_line::<W, S, F, N, O>(desk, &mut progress.tally, &mut progress.lines, line)?;
    progress.kept.clear();
    Ok(())
}

/// Carries out a line, of which at most the first `KEPT` bytes are given, writes its answer, counts it, and says why it
/// is refused, if it is. If it asks for a command with a file, all earlier answers are handed over before it is carried
/// out, and its own after that.
fn answer_line<W: Sink, S: Shelf, F: Flushing<W>, N: Notes, O: Observer<W, S>>(
    desk: &mut Desk<'_, '_, '_, '_, '_, W, S, N, O>,
    tally: &mut Tally,
    lines: &mut u64,
    line: &[u8],
) -> Result<(), RunFault>
    ensures same { SameReferences desk.old desk.new }
    ensures answers { (kept : List ℕ) → line.now ≡ kept → AnswersKept W.contents W.calls F.is_sent F.may_fail S.files
        N.noted O.seen desk.old (record { kept = kept; tally = tally.old; lines = lines.old }) desk.new
        (record { kept = kept; tally = tally.new; lines = lines.new }) result }
    ensures calls { FailedIfErr F.may_fail (W.calls desk.old.writer.now) (W.calls desk.new.writer.now) result }
{
    let said = parse(line);
    let has_file = asks_for_file(&said);
    begin_line::<W, S, F, O>(has_file, desk.writer, desk.shelf, desk.observer)?;
    let outcome = execute::<W, S, F>(desk.alloc, desk.editor, said, desk.writer, desk.shelf)?;
    tally.count(outcome);
    *lines = next_number(*lines);
    note(desk.notes, *lines, line, outcome);
    end_line::<W, S, F, O>(has_file, desk.writer, desk.shelf, desk.observer)
}

/// How many lines were carried out, with one more. It stops at its greatest value.
fn next_number(lines: u64) -> u64
    ensures { result ≡ number_of (lines + 1) }
{
    lines.saturating_add(1)
}

/// Runs a script: its lines come from the reader, its answers go to the writer, and its files are on the shelf.
///
/// The answer to each line is written before the next line is carried out, a long one piece by piece. The writer is
/// flushed once, at the end. Takes 64 KiB at the start, and nothing more; each byte is looked at a bounded number of
/// times.
///
/// `Memory` is answered before anything is read, written or changed. After `Input` (a read failed, or 2^64 - 1 reads
/// have not come to the end) exactly the lines that were read whole were carried out, and exactly their answers were
/// written. After `Output`, either a write failed or took nothing, and then some bytes of an answer are missing and the
/// line that it answers was carried out; or the flush failed, and then all lines were carried out and all answers were
/// written. Each of the two is answered only if a call failed so. Nothing is called after a failed call, so none is
/// retried.
///
/// Each list of the editor is the normal form of its leaves, before and after the run, and so are the lists in the
/// answers.
pub fn run<R: Source, W: Sink, S: Shelf>(
    alloc: Global,
    editor: &mut Editor,
    reader: &mut R,
    writer: &mut W,
    shelf: &mut S,
) -> Result<Tally, RunFault>
    ensures runs { Runs false ⊥
        (known (world editor.old (S.files shelf.old)) (input_of R.remaining R.given reader.old) (R.reads reader.old)
        (W.contents writer.old) (W.calls writer.old) no_notes)
        (known (world editor.new (S.files shelf.new)) (input_of R.remaining R.given reader.new) (R.reads reader.new)
        (W.contents writer.new) (W.calls writer.new) no_notes) result }
    ensures before { EachList (λ u. IsNormalForm (has_leaf u) u) editor.old }
    ensures after { EachList (λ u. IsNormalForm (has_leaf u) u) editor.new }
{
    run_with::<W, S, AtTheEnd, NoNotes, Unobserved<R>>(
        alloc,
        editor,
        reader,
        writer,
        shelf,
        &mut NoNotes,
        &mut Unobserved::new(),
        false,
    )
}

/// Runs a script as [`run`] does, with notes on refused lines and an observer. `F` says when it is flushed.
///
/// If it `stops` at a refused line, the first line that is refused is the last that is carried out and answered.
/// Nothing is read after it, what follows it in the bytes that were read is not used, and the run ends as at the end of
/// its script. A last line without a newline is carried out only at the end of the script, so nothing follows it.
///
/// With `AtTheEnd` the writer is flushed once, at the end. With `Promptly` it is a buffer of answers, which is flushed
/// before each read too, and before and after each command with a file. So the answers go out before the run waits for
/// more of the script, and whoever typed a line sees its answer; and the answer to a command with a file goes out
/// before the next line is carried out. After `Ok` all answers have then reached the writer below, and after `Input`
/// exactly those to the lines that were read whole: in both cases nothing waits. After `Output` what was written is as
/// [`run`] says; or a flush before a read failed, and then it is exactly the answers to the lines that were read whole;
/// or a flush before or after a command with a file failed, and then it is exactly the answers to the lines before the
/// command, or to the command too. All of that has reached the writer below, except for the bytes that wait, at most
/// 64 KiB, which are lost when the buffer is dropped.
///
/// The notes are those on the lines that were carried out, with the replies that they had: one line for each refused
/// line, with its number, the refusal and the reason. If the output failed inside an answer, there is none on that last
/// line. If a note can't be written, the run goes on, and no more notes are written; the notes that were written are
/// then a beginning of those.
///
/// The observer sees reads and lines in the order in which they come. A read comes only where exactly the answers to
/// all lines that were read whole have been written. A line is carried out only where exactly the answers to the lines
/// before it have been written, and with the files that these have left, so no answer is held back, and no file is
/// touched before all earlier answers are out. Each line begins once, and ends once before the next one begins. After
/// `Output` this holds of all reads and lines before the call that failed, and nothing comes after it. With `Promptly`,
/// nothing waits in the buffer and the last call of the writer below is a flush wherever a read comes, and before and
/// after each line that asks for a command with a file.
pub fn run_with<W: Sink, S: Shelf, F: Flushing<W>, N: Notes, O: Observer<W, S>>(
    alloc: Global,
    editor: &mut Editor,
    reader: &mut O::Reader,
    writer: &mut W,
    shelf: &mut S,
    notes: &mut N,
    observer: &mut O,
    stops: bool,
) -> Result<Tally, RunFault>
    ensures runs { (run : Runs stops F.may_fail
        (known (world editor.old (S.files shelf.old)) (input_of O.Reader.remaining O.Reader.given reader.old)
        (O.Reader.reads reader.old) (W.contents writer.old) (W.calls writer.old) (N.noted notes.old))
        (known (world editor.new (S.files shelf.new)) (input_of O.Reader.remaining O.Reader.given reader.new)
        (O.Reader.reads reader.new) (W.contents writer.new) (W.calls writer.new) (N.noted notes.new)) result)
        × Ordered W.contents W.calls F.is_sent S.files F.may_fail (world editor.old (S.files shelf.old)) writer.old
        run.ran (O.seen observer.old) (O.seen observer.new) result }
    ensures sent { MatchResult result (λ _. F.is_sent writer.new) (λ fault. fault ≡ RunFault.Input →
        F.is_sent writer.new) }
    ensures before { EachList (λ u. IsNormalForm (has_leaf u) u) editor.old }
    ensures after { EachList (λ u. IsNormalForm (has_leaf u) u) editor.new }
{
    let _ = editor.limit();
    let mut input = input_buffer(alloc)?;
    let result = run_over::<W, S, F, N, O>(
        &mut input,
        reader,
        &mut Desk {
            alloc,
            editor,
            writer,
            shelf,
            notes,
            observer,
        },
        stops,
    );
    let _ = editor.limit();
    result
}

/// A buffer for the reader.
fn input_buffer(alloc: Global) -> Result<Vec<u8>, RunFault>
    ensures some { IfOk result (λ input. 0 < length input.items) }
    ensures fault { IfErr result (λ fault. fault ≡ RunFault.Memory) }
{
    Ok(vec![in alloc; 0u8; READ_SIZE]?)
}

/// The run, over a buffer for the reader.
fn run_over<W: Sink, S: Shelf, F: Flushing<W>, N: Notes, O: Observer<W, S>>(
    input: &mut [u8],
    reader: &mut O::Reader,
    desk: &mut Desk<'_, '_, '_, '_, '_, W, S, N, O>,
    stops: bool,
) -> Result<Tally, RunFault>
    requires { 0 < length input.old }
    ensures same { SameReferences desk.old desk.new }
    ensures runs { RunsOver W.contents W.calls F.is_sent F.may_fail S.files N.noted O.seen stops desk.old
        (input_of O.Reader.remaining O.Reader.given reader.old) (O.Reader.reads reader.old) desk.new
        (input_of O.Reader.remaining O.Reader.given reader.new) (O.Reader.reads reader.new) result }
    ensures sent { MatchResult result (λ _. F.is_sent desk.new.writer.now) (λ fault. fault ≡ RunFault.Input →
        F.is_sent desk.new.writer.now) }
{
    let mut progress = Progress::new();
    for _ in 0..u64::MAX {
        F::in_between(desk.writer)?;
        match desk.observer.read(reader, desk.writer, desk.shelf, input) {
            Ok(0) => return finish::<W, S, F, N, O>(desk, progress),
            Ok(count) => {
                if take_in::<W, S, F, N, O>(desk, &mut progress, &input[..count], stops)? {
                    return flush_at_the_end::<W, F>(progress.tally, desk.writer);
                }
            }
            Err(_) => return Err(RunFault::Input),
        }
    }
    // 2^64 - 1 reads have not come to the end.
    F::in_between(desk.writer)?;
    Err(RunFault::Input)
}

/// Carries out a last line without a newline, and flushes.
fn finish<W: Sink, S: Shelf, F: Flushing<W>, N: Notes, O: Observer<W, S>>(
    desk: &mut Desk<'_, '_, '_, '_, '_, W, S, N, O>,
    mut progress: Progress,
) -> Result<Tally, RunFault>
    ensures same { SameReferences desk.old desk.new }
    ensures finishes { Finishes W.contents W.calls F.is_sent F.may_fail S.files N.noted O.seen desk.old progress
        desk.new result }
    ensures sent { MatchResult result (λ _. F.is_sent desk.new.writer.now) (λ fault. fault ≡ RunFault.Output) }
    ensures calls { FlushedIfOk F.may_fail (W.calls desk.old.writer.now) (W.calls desk.new.writer.now) result }
{
    if progress.kept.as_slice().is_empty() {
        return flush_at_the_end::<W, F>(progress.tally, desk.writer);
    }
    let last = progress.kept.as_slice();
    answer_line::<W, S, F, N, O>(desk, &mut progress.tally, &mut progress.lines, last)?;
    flush_at_the_end::<W, F>(progress.tally, desk.writer)
}

/// Flushes the writer, and answers how many lines were answered.
fn flush_at_the_end<W: Sink, F: Flushing<W>>(
    tally: Tally,
    writer: &mut W,
) -> Result<Tally, RunFault>
    ensures kept { Keeps (W.contents writer.old) (W.contents writer.new) }
    ensures result { MatchResult result (λ told. told ≡ tally) (λ fault. fault ≡ RunFault.Output) }
    ensures sent { OnOk result (F.is_sent writer.new) }
    ensures calls { FlushedIfOk F.may_fail (W.calls writer.old) (W.calls writer.new) result }
{
    F::at_the_end(writer)?;
    Ok(tally)
}

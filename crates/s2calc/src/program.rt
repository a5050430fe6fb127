//! What the program answers besides runs.
ghost use Rattle.std.specs.Prelude.{◌≡◌, OnOk, OnErr, IfOk, IfErr, not};
ghost use Rattle.std.specs.Io.KnownBytes.{Appends};
ghost use Rattle.s2calc.specs.Output.{AppendsUnflushed};
ghost use Rattle.s2calc.specs.Calls.{LastFlushed, LastFailed};
ghost use Rattle.s2calc.specs.Replies.{Says, Refuses, text_of, is_refusal};
ghost use Rattle.s2calc.specs.Program.{ShowsReply, cell_reply, status_of, status_of_answer};

use crate::answer::{cell_line, error_line};
use crate::engine::Tally;
use crate::fault::RunFault;
use crate::output::{emit, flush};
use crate::refusal::Refusal;
use crate::streams::Sink;
use s2script::cell_in;

/// Writes what is known of the cell that the word names, and flushes. If it names none, writes that and answers false.
/// Takes no memory.
pub fn cell_answer<W: Sink>(word: &[u8], writer: &mut W) -> Result<bool, RunFault>
    ensures ok { OnOk result (Appends (W.contents writer.old) (W.contents writer.new) (text_of (cell_reply word.now))) }
    ensures named { IfOk result (λ named. named ≡ not (is_refusal (cell_reply word.now))) }
    // Bytes of the line are missing, or all of it was written and the flush failed.
    ensures err { OnErr result (AppendsUnflushed (W.contents writer.old) (W.contents writer.new)
        (text_of (cell_reply word.now))) }
    ensures fault { IfErr result (λ fault. fault ≡ RunFault.Output) }
    ensures flushed { OnOk result (LastFlushed ⊥ (W.calls writer.old) (W.calls writer.new)) }
    ensures failed { OnErr result (LastFailed ⊥ (W.calls writer.old) (W.calls writer.new)) }
{
    match cell_in(word) {
        Some(cell) => say(cell_line(cell).as_slice(), writer),
        None => refuse(Refusal::Words(s2script::Refusal::Cell), writer),
    }
}

/// Writes an answer that is not a refusal, and flushes.
pub fn say<W: Sink>(text: &[u8], writer: &mut W) -> Result<bool, RunFault>
    ensures shows { ShowsReply (Says text.now) (W.contents writer.old) (W.contents writer.new) result }
    ensures flushed { OnOk result (LastFlushed ⊥ (W.calls writer.old) (W.calls writer.new)) }
    ensures failed { OnErr result (LastFailed ⊥ (W.calls writer.old) (W.calls writer.new)) }
{
    write_line(text, writer)?;
    Ok(true)
}

/// Writes why there is no other answer, and flushes.
pub(crate) fn refuse<W: Sink>(refusal: Refusal, writer: &mut W) -> Result<bool, RunFault>
    ensures shows { ShowsReply (Refuses refusal) (W.contents writer.old) (W.contents writer.new) result }
    ensures flushed { OnOk result (LastFlushed ⊥ (W.calls writer.old) (W.calls writer.new)) }
    ensures failed { OnErr result (LastFailed ⊥ (W.calls writer.old) (W.calls writer.new)) }
{
    write_line(error_line(refusal).as_slice(), writer)?;
    Ok(false)
}

/// Writes bytes and flushes.
fn write_line<W: Sink>(line: &[u8], writer: &mut W) -> Result<(), RunFault>
    ensures ok { OnOk result (Appends (W.contents writer.old) (W.contents writer.new) line.now) }
    ensures err { OnErr result (AppendsUnflushed (W.contents writer.old) (W.contents writer.new) line.now) }
    ensures fault { IfErr result (λ fault. fault ≡ RunFault.Output) }
    ensures flushed { OnOk result (LastFlushed ⊥ (W.calls writer.old) (W.calls writer.new)) }
    ensures failed { OnErr result (LastFailed ⊥ (W.calls writer.old) (W.calls writer.new)) }
{
    emit(writer, line)?;
    flush(writer)
}

/// The exit status of a run: 0 if nothing was refused, 1 if something was, 2 if the input or the output failed, 3 if
/// there was no memory at the start.
pub fn status(outcome: &Result<Tally, RunFault>) -> u8
    ensures { result ≡ status_of outcome.now }
{
    match outcome {
        Ok(tally) if tally.refused == 0 => 0,
        Ok(_) => 1,
        Err(RunFault::Input | RunFault::Output) => 2,
        Err(RunFault::Memory) => 3,
    }
}

/// The exit status after one answer: 0 for true, 1 for false, that of a run where it failed.
pub fn answer_status(outcome: &Result<bool, RunFault>) -> u8
    ensures { result ≡ status_of_answer outcome.now }
{
    match outcome {
        Ok(true) => 0,
        Ok(false) => 1,
        Err(fault) => status(&Err(*fault)),
    }
}

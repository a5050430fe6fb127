//! When a run flushes its writer.
ghost use Rattle.std.specs.Prelude.{◌≡◌, true, [], OnOk, IfErr};
ghost use Rattle.std.specs.Io.KnownBytes.{Keeps};
ghost use Rattle.s2calc.specs.Buffered.{written_to};
ghost use Rattle.s2calc.specs.Flushing.{FlushedIfOk, Settles};

use crate::answer_buffer::AnswerBuffer;
use crate::fault::RunFault;
use crate::output::flush;
use crate::streams::Sink;

/// When a run flushes its writer besides at the end, and what is known of the writer then.
pub trait Flushing<W: Sink> {
    // nothing that was written waits in the writer
    ghost is_sent: { W → Type 0 };

    // there may be flushes before the end, and they may fail
    ghost may_fail: { Type 0 };

    /// What happens before each read, and before and after each command with a file.
    fn in_between(writer: &mut W) -> Result<(), RunFault>
        ensures settles { Settles W.contents W.calls is_sent may_fail true writer.old writer.new result };

    /// The flush at the end.
    fn at_the_end(writer: &mut W) -> Result<(), RunFault>
        ensures kept { Keeps (W.contents writer.old) (W.contents writer.new) }
        ensures sent { OnOk result (is_sent writer.new) }
        ensures fault { IfErr result (λ fault. fault ≡ RunFault.Output) }
        ensures calls { FlushedIfOk may_fail (W.calls writer.old) (W.calls writer.new) result };
}

/// Nothing happens before the end. It isn't known what waits in a writer of any kind.
pub struct AtTheEnd;

impl<W: Sink> Flushing<W> for AtTheEnd {
    ghost is_sent = { λ _. Unit {0} };

    ghost may_fail = { ⊥ };

    fn in_between(_writer: &mut W) -> Result<(), RunFault> {
        Ok(())
    }

    fn at_the_end(writer: &mut W) -> Result<(), RunFault> {
        flush(writer)
    }
}

/// The buffer is flushed each time.
pub struct Promptly;

impl<W: Sink> Flushing<AnswerBuffer<W>> for Promptly {
    ghost is_sent = { λ b. b.waiting ≡ [] };

    ghost may_fail = { Unit {0} };

    fn in_between(writer: &mut AnswerBuffer<W>) -> Result<(), RunFault> {
        flush_buffer(writer)
    }

    fn at_the_end(writer: &mut AnswerBuffer<W>) -> Result<(), RunFault> {
        flush_buffer(writer)
    }
}

/// Flushes the buffer.
fn flush_buffer<W: Sink>(writer: &mut AnswerBuffer<W>) -> Result<(), RunFault>
    ensures kept { Keeps (written_to W.contents writer.old) (written_to W.contents writer.new) }
    ensures sent { OnOk result (writer.new.waiting ≡ []) }
    ensures fault { IfErr result (λ fault. fault ≡ RunFault.Output) }
    ensures calls { FlushedIfOk ⊥ (W.calls writer.old.writer) (W.calls writer.new.writer) result }
{
    match writer.flush() {
        Ok(()) => Ok(()),
        Err(_) => Err(RunFault::Output),
    }
}

/// What happens before and after a line, if it asks for a command with a file.
pub(crate) fn around_file_command<W: Sink, F: Flushing<W>>(
    has_file: bool,
    writer: &mut W,
) -> Result<(), RunFault>
    ensures settles { Settles W.contents W.calls F.is_sent F.may_fail has_file writer.old writer.new result }
{
    if has_file {
        F::in_between(writer)
    } else {
        Ok(())
    }
}

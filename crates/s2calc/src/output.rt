//! Writing all bytes, in a loop of its own.
ghost use Rattle.std.specs.Prelude.{◌≡◌, ◌<◌, ◌≤◌, OnOk, OnErr, IfErr, length, take};
ghost use Rattle.std.specs.Io.KnownBytes.{Appends, Keeps};
ghost use Rattle.s2calc.specs.Output.{AppendsPart};
ghost use Rattle.s2calc.specs.Calls.{NoneFailed, LastFlushed, LastFailed};

use crate::fault::RunFault;
use crate::streams::Sink;
use std::io;
use std::io::ErrorKind;

/// Writes all of the bytes, in as many calls as the writer needs.
pub fn emit<W: Sink>(writer: &mut W, bytes: &[u8]) -> Result<(), RunFault>
    ensures ok { OnOk result (Appends (W.contents writer.old) (W.contents writer.new) bytes.now) }
    // A beginning of the bytes was written.
    ensures err { OnErr result (AppendsPart (W.contents writer.old) (W.contents writer.new) bytes.now) }
    ensures fault { IfErr result (λ fault. fault ≡ RunFault.Output) }
    ensures none_failed { OnOk result (NoneFailed ⊥ (W.calls writer.old) (W.calls writer.new)) }
    ensures failed { OnErr result (LastFailed ⊥ (W.calls writer.old) (W.calls writer.new)) }
{
    let (_, ended) = write_out(writer, bytes);
    match ended {
        Ok(()) => Ok(()),
        Err(_) => Err(RunFault::Output),
    }
}

/// Writes the bytes until all are written, or until a call fails or takes nothing, which is not retried. Answers how
/// many were written.
pub(crate) fn write_out<W: Sink>(writer: &mut W, bytes: &[u8]) -> (usize, io::Result<()>)
    ensures within { result.0 ≤ length bytes.now }
    ensures written { Appends (W.contents writer.old) (W.contents writer.new) (take result.0 bytes.now) }
    ensures all { OnOk result.1 (result.0 ≡ length bytes.now) }
    ensures lacking { OnErr result.1 (result.0 < length bytes.now) }
    ensures none_failed { OnOk result.1 (NoneFailed ⊥ (W.calls writer.old) (W.calls writer.new)) }
    ensures failed { OnErr result.1 (LastFailed ⊥ (W.calls writer.old) (W.calls writer.new)) }
{
    let mut written = 0;
    while written < bytes.len() {
        match writer.write(&bytes[written..]) {
            Ok(0) => return (written, Err(io::Error::from(ErrorKind::WriteZero))),
            Ok(n) => written += n,
            Err(error) => return (written, Err(error)),
        }
    }
    (written, Ok(()))
}

/// Flushes the writer.
pub fn flush<W: Sink>(writer: &mut W) -> Result<(), RunFault>
    ensures kept { Keeps (W.contents writer.old) (W.contents writer.new) }
    ensures fault { IfErr result (λ fault. fault ≡ RunFault.Output) }
    ensures flushed { OnOk result (LastFlushed ⊥ (W.calls writer.old) (W.calls writer.new)) }
    ensures failed { OnErr result (LastFailed ⊥ (W.calls writer.old) (W.calls writer.new)) }
{
    match writer.flush() {
        Ok(()) => Ok(()),
        Err(_) => Err(RunFault::Output),
    }
}

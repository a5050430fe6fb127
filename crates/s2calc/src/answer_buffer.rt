//! A writer that buffers answers.
ghost use Rattle.std.specs.Prelude.{◌≡◌, ◌+◌, ◌<◌, ◌≤◌, [], ◌++◌, length, drop, OnOk, OnErr, IfOk, IfErr};
ghost use Rattle.std.specs.Prelude.{vec_len, vec_capacity};
ghost use Rattle.std.specs.Io.{WritesAtMost};
ghost use Rattle.std.specs.Io.KnownBytes.{Keeps, WriteAppends};
ghost use Rattle.s2calc.specs.Buffered.{written_to};
ghost use Rattle.s2calc.specs.Calls.{NoneFailed, LastFlushed, LastFailed};

use crate::limits::MOST_WAITING;
use crate::output::write_out;
use crate::streams::Sink;
use std::alloc::Global;
use std::io;
use std::marker::Model;

/// A writer that buffers what is written to it, and passes it to the writer below when it is flushed or when 64 KiB are
/// waiting.
///
/// A contract sees both the writer below, with what has reached it, and the bytes that wait. Unlike a `BufWriter`, it
/// does not retry a failed call, and writes nothing when it is dropped. Bytes that a failed call didn't take wait on.
#[derive(Drop)]
pub struct AnswerBuffer<W> {
    writer: W,
    waiting: Vec<u8>,
}

impl<W> Model for AnswerBuffer<W> {
    ghost use Rattle.std.specs.Prelude.{◌≤◌, vec_len, vec_capacity};
    ghost use Rattle.s2calc.specs.Buffered.{Buffered};
    ghost use Rattle.s2calc.specs.Working.Buffered.{buffered_code};
    ghost use Rattle.s2calc.specs.declared.limits.TheConstants.{MOST_WAITING};

    ghost Value = { Buffered W };

    ghost coded = { buffered_code W.code };

    ghost view = { λ b. record { writer = b.writer; waiting = b.waiting.items } };

    ghost invariant = { λ b. (vec_len b.waiting ≤ MOST_WAITING) × (MOST_WAITING ≤ vec_capacity b.waiting) };
}

impl<W: Sink + Drop> AnswerBuffer<W> {
    /// An empty buffer over a writer. If there is no memory, the writer is given back.
    pub fn new(alloc: Global, writer: W) -> Result<AnswerBuffer<W>, W>
        ensures writer { IfOk result (λ b. b.writer ≡ writer) }
        ensures nothing_waits { IfOk result (λ b. b.waiting ≡ []) }
        ensures given_back { IfErr result (λ w. w ≡ writer) }
    {
        match Vec::with_capacity(alloc, MOST_WAITING) {
            Ok(waiting) => Ok(AnswerBuffer { writer, waiting }),
            Err(_) => Err(writer),
        }
    }
}

impl<W> AnswerBuffer<W> {
    /// The writer below. Bytes that wait are lost.
    pub fn into_writer(self) -> W
        ensures { result ≡ self.writer }
    {
        self.writer
    }

    /// How many bytes are waiting.
    pub fn waiting_len(&self) -> usize
        ensures count { result ≡ length self.now.waiting }
        ensures few { length self.now.waiting ≤ MOST_WAITING }
    {
        self.waiting.len()
    }
}

impl<W: Sink> AnswerBuffer<W> {
    /// Passes on what is waiting. If that fails, some of it still waits.
    fn hand_over(&mut self) -> io::Result<()>
        ensures kept { Keeps (written_to W.contents self.old) (written_to W.contents self.new) }
        ensures ok { OnOk result (self.new.waiting ≡ []) }
        ensures err { OnErr result (0 < length self.new.waiting) }
        ensures none_failed { OnOk result (NoneFailed ⊥ (W.calls self.old.writer) (W.calls self.new.writer)) }
        ensures failed { OnErr result (LastFailed ⊥ (W.calls self.old.writer) (W.calls self.new.writer)) }
    {
        let (written, ended) = write_out(&mut self.writer, self.waiting.as_slice());
        drop_front(&mut self.waiting, written);
        ended
    }
}

impl<W: Sink> Sink for AnswerBuffer<W> {
    ghost contents = { written_to W.contents };

    ghost calls = { λ b. W.calls b.writer };

    /// Takes at least one byte, if there are any. Fails only if 64 KiB are waiting and can't be passed on.
    fn write(&mut self, bytes: &[u8]) -> io::Result<usize>
        ensures bound { WritesAtMost result bytes.now }
        ensures appends { WriteAppends (written_to W.contents self.old) (written_to W.contents self.new) result
            bytes.now }
        ensures some { 0 < length bytes.now → IfOk result (λ count. 0 < count) }
        ensures full { OnErr result (MOST_WAITING ≤ length self.old.waiting) }
        ensures takes { 0 < length bytes.now → IfOk result (λ count. 0 < count → NoneFailed ⊥ (W.calls self.old.writer)
            (W.calls self.new.writer)) }
        ensures takes_nothing { 0 < length bytes.now → IfOk result (λ count. count ≡ 0 →
            LastFailed ⊥ (W.calls self.old.writer) (W.calls self.new.writer)) }
        ensures failed { 0 < length bytes.now → OnErr result (LastFailed ⊥ (W.calls self.old.writer)
            (W.calls self.new.writer)) }
    {
        if self.waiting.len() >= MOST_WAITING {
            self.hand_over()?;
        }
        let taken = bytes.len().min(MOST_WAITING - self.waiting.len());
        append(&mut self.waiting, &bytes[..taken]);
        Ok(taken)
    }

    fn flush(&mut self) -> io::Result<()>
        ensures bytes { Keeps (written_to W.contents self.old) (written_to W.contents self.new) }
        ensures ok { OnOk result (self.new.waiting ≡ []) }
        ensures flushed { OnOk result (LastFlushed ⊥ (W.calls self.old.writer) (W.calls self.new.writer)) }
        ensures failed { OnErr result (LastFailed ⊥ (W.calls self.old.writer) (W.calls self.new.writer)) }
    {
        self.hand_over()?;
        self.writer.flush()
    }
}

/// Removes the first bytes.
fn drop_front(bytes: &mut Vec<u8>, count: usize)
    requires { count ≤ vec_len bytes.old }
    ensures items { bytes.new.items ≡ drop count bytes.old.items }
    ensures few { vec_len bytes.new ≤ vec_len bytes.old }
    ensures room { vec_capacity bytes.new ≡ vec_capacity bytes.old }
{
    let len = bytes.len();
    bytes.as_mut_slice().copy_within(count..len, 0);
    bytes.truncate(len - count);
}

/// Appends bytes, if there is room for them.
fn append(bytes: &mut Vec<u8>, more: &[u8])
    requires { vec_len bytes.old + length more.now ≤ vec_capacity bytes.old }
    ensures items { bytes.new.items ≡ bytes.old.items ++ more.now }
    ensures room { vec_capacity bytes.old ≤ vec_capacity bytes.new }
{
    if bytes.extend_from_slice(more).is_err() {
        unreachable!();
    }
}

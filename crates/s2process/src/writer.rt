//! A writer whose calls stand in a list.
ghost use Rattle.std.specs.Prelude.{◌≡◌, ◌<◌, [], ◌∷◌, ◌++◌, Some, OnOk, OnErr, IfOk, length};
ghost use Rattle.std.specs.Io.{WritesAtMost};
ghost use Rattle.std.specs.Io.KnownBytes.{WriteAppends, Keeps};
ghost use Rattle.s2calc.specs.Calls.{NoneFailed, LastFlushed, LastFailed};
ghost use Rattle.s2process.specs.StreamCalls.{write_call, flush_call};
ghost use Rattle.s2process.specs.Listed.{calls_of, taken, called};

use crate::calls::{CallList, OneCall};
use s2calc::Sink;
use std::io;

/// A writer. Each call of it stands in a list that only proofs read, in order: which bytes a write took, that it was
/// flushed, or that one of the two failed.
#[derive(Drop)]
pub struct ListedWriter<W> {
    writer: W,
    calls: CallList,
}

impl<W: Drop> ListedWriter<W> {
    /// Nothing was called yet.
    pub fn new(writer: W) -> ListedWriter<W>
        ensures { calls_of result ≡ [] }
    {
        ListedWriter {
            writer,
            calls: CallList::new(),
        }
    }
}

impl<W: Sink> Sink for ListedWriter<W> {
    ghost contents = { λ w. Some (taken w) };

    ghost calls = { λ w. Some (called w) };

    fn write(&mut self, bytes: &[u8]) -> io::Result<usize>
        ensures below { WriteAppends (W.contents self.old.writer) (W.contents self.new.writer) result bytes.now }
        ensures below_takes { 0 < length bytes.now → IfOk result (λ count. 0 < count →
            NoneFailed ⊥ (W.calls self.old.writer) (W.calls self.new.writer)) }
        ensures below_takes_nothing { 0 < length bytes.now → IfOk result (λ count. count ≡ 0 →
            LastFailed ⊥ (W.calls self.old.writer) (W.calls self.new.writer)) }
        ensures below_failed { 0 < length bytes.now → OnErr result (LastFailed ⊥ (W.calls self.old.writer)
            (W.calls self.new.writer)) }
        ensures listed { calls_of self.new ≡ calls_of self.old ++ write_call result bytes.now ∷ [] }
        ensures bound { WritesAtMost result bytes.now }
        ensures bytes { WriteAppends (Some (taken self.old)) (Some (taken self.new)) result bytes.now }
        ensures takes { 0 < length bytes.now → IfOk result (λ count. 0 < count →
            NoneFailed ⊥ (Some (called self.old)) (Some (called self.new))) }
        ensures takes_nothing { 0 < length bytes.now → IfOk result (λ count. count ≡ 0 →
            LastFailed ⊥ (Some (called self.old)) (Some (called self.new))) }
        ensures failed { 0 < length bytes.now → OnErr result (LastFailed ⊥ (Some (called self.old))
            (Some (called self.new))) }
    {
        let result = self.writer.write(bytes);
        match &result {
            Ok(count) => self.calls = self.calls.and(&OneCall::Took(&bytes[..*count])),
            Err(_) => self.calls = self.calls.and(&OneCall::WriteFailed),
        }
        result
    }

    fn flush(&mut self) -> io::Result<()>
        ensures below_keeps { Keeps (W.contents self.old.writer) (W.contents self.new.writer) }
        ensures below { OnOk result (LastFlushed ⊥ (W.calls self.old.writer) (W.calls self.new.writer)) }
        ensures below_failed { OnErr result (LastFailed ⊥ (W.calls self.old.writer) (W.calls self.new.writer)) }
        ensures listed { calls_of self.new ≡ calls_of self.old ++ flush_call result ∷ [] }
        ensures bytes { Keeps (Some (taken self.old)) (Some (taken self.new)) }
        ensures flushed { OnOk result (LastFlushed ⊥ (Some (called self.old)) (Some (called self.new))) }
        ensures failed { OnErr result (LastFailed ⊥ (Some (called self.old)) (Some (called self.new))) }
    {
        let result = self.writer.flush();
        match &result {
            Ok(()) => self.calls = self.calls.and(&OneCall::Flushed),
            Err(_) => self.calls = self.calls.and(&OneCall::FlushFailed),
        }
        result
    }
}

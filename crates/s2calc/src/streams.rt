//! What a run reads from and writes to: readers and writers whose calls a contract can see.
ghost use Rattle.std.specs.Prelude.{◌≡◌, ◌<◌, ℕ, List, [], ◌∷◌, Option, None, OnOk, OnErr, IfOk, length};
ghost use Rattle.std.specs.Io.{ReadsAtMost, WritesAtMost};
ghost use Rattle.std.specs.Io.KnownBytes.{ReadConsumes, WriteAppends, Keeps};
ghost use Rattle.s2calc.specs.Calls.{Call, Gains, NoneFailed, LastFlushed, LastFailed, bytes_given, what_came};

use std::io;
use std::io::{Read, Write};

/// A reader, as std's `Read`, whose calls a contract can see.
pub trait Source {
    // the bytes that reads will give from here on, if they are known
    ghost remaining: { Self → Option (List ℕ) } = { λ _. None };

    // all bytes that its calls gave so far, if they are known
    ghost given: { Self → Option (List ℕ) } = { λ _. None };

    // what each call gave so far, if that is known: a number of bytes, or None if it failed
    ghost reads: { Self → Option (List (Option ℕ)) } = { λ _. None };

    /// Reads some bytes; 0 of them only at the end, or if there is no room.
    fn read(&mut self, buf: &mut [u8]) -> io::Result<usize>
        ensures bound { ReadsAtMost result buf.new }
        ensures bytes { ReadConsumes (remaining self.old) (remaining self.new) result buf.new }
        ensures given { Gains (given self.old) (given self.new) (bytes_given result buf.new) }
        ensures call { Gains (reads self.old) (reads self.new) (what_came result ∷ []) };
}

/// A writer, as std's `Write`, whose calls a contract can see: each write of some bytes and each flush, in order, and
/// which of them failed. A call may make several, as that of a buffer does, whose calls are those of the writer below.
pub trait Sink {
    // the bytes that the writer holds, if they are known
    ghost contents: { Self → Option (List ℕ) } = { λ _. None };

    // its calls so far, if they are known
    ghost calls: { Self → Option (List Call) } = { λ _. None };

    /// Takes some of the bytes. To take none of them is to fail.
    fn write(&mut self, bytes: &[u8]) -> io::Result<usize>
        ensures bound { WritesAtMost result bytes.now }
        ensures bytes { WriteAppends (contents self.old) (contents self.new) result bytes.now }
        ensures takes { 0 < length bytes.now → IfOk result (λ count. 0 < count → NoneFailed ⊥ (calls self.old)
            (calls self.new)) }
        ensures takes_nothing { 0 < length bytes.now → IfOk result (λ count. count ≡ 0 → LastFailed ⊥ (calls self.old)
            (calls self.new)) }
        ensures failed { 0 < length bytes.now → OnErr result (LastFailed ⊥ (calls self.old) (calls self.new)) };

    /// Passes on what it has taken.
    fn flush(&mut self) -> io::Result<()>
        ensures bytes { Keeps (contents self.old) (contents self.new) }
        ensures flushed { OnOk result (LastFlushed ⊥ (calls self.old) (calls self.new)) }
        ensures failed { OnErr result (LastFailed ⊥ (calls self.old) (calls self.new)) };
}

/// Every reader of std. Its bytes are known to a contract if std knows them, and its calls are not.
impl<R: Read> Source for R {
    ghost remaining = { λ stream. R.remaining stream };

    fn read(&mut self, buf: &mut [u8]) -> io::Result<usize> {
        Read::read(self, buf)
    }
}

/// Every writer of std. Its bytes are known to a contract if std knows them, and its calls are not.
impl<W: Write> Sink for W {
    ghost contents = { λ stream. W.contents stream };

    #[tactic(auto, using(crate::proofs::CallLemmas::unknown_last))]
    fn write(&mut self, bytes: &[u8]) -> io::Result<usize> {
        Write::write(self, bytes)
    }

    #[tactic(auto, using(crate::proofs::CallLemmas::unknown_last))]
    fn flush(&mut self) -> io::Result<()> {
        Write::flush(self)
    }
}

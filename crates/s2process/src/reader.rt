//! A reader whose calls stand in a list.
ghost use Rattle.std.specs.Prelude.{◌≡◌, ◌<◌, [], ◌∷◌, ◌++◌, Some, OnOk, length};
ghost use Rattle.std.specs.Io.{ReadsAtMost};
ghost use Rattle.std.specs.Io.KnownBytes.{ReadConsumes};
ghost use Rattle.s2calc.specs.Calls.{Gains, bytes_given, what_came};
ghost use Rattle.s2process.specs.StreamCalls.{read_call};
ghost use Rattle.s2process.specs.Listed.{calls_of_reader, given, reads};

use crate::calls::{CallList, OneCall};
use s2calc::Source;
use std::io;
use std::io::ErrorKind;

/// A reader. Each call of it stands in a list that only proofs read, in order: how much room a read had and which bytes
/// it gave, or that it failed. A read without room fails, so one that gives nothing is at the end.
#[derive(Drop)]
pub struct ListedReader<R> {
    reader: R,
    calls: CallList,
}

impl<R: Drop> ListedReader<R> {
    /// Nothing was called yet.
    pub fn new(reader: R) -> ListedReader<R>
        ensures { calls_of_reader result ≡ [] }
    {
        ListedReader {
            reader,
            calls: CallList::new(),
        }
    }
}

impl<R: Source> Source for ListedReader<R> {
    ghost remaining = { λ r. R.remaining r.reader };

    ghost given = { λ r. Some (given r) };

    ghost reads = { λ r. Some (reads r) };

    fn read(&mut self, buf: &mut [u8]) -> io::Result<usize>
        ensures bound { ReadsAtMost result buf.new }
        ensures bytes { ReadConsumes (R.remaining self.old.reader) (R.remaining self.new.reader) result buf.new }
        ensures below { 0 < length buf.old
            → Gains (R.reads self.old.reader) (R.reads self.new.reader) (what_came result ∷ []) }
        ensures below_given { 0 < length buf.old
            → Gains (R.given self.old.reader) (R.given self.new.reader) (bytes_given result buf.new) }
        ensures below_unasked { length buf.old ≡ 0 → self.new.reader ≡ self.old.reader }
        ensures listed { calls_of_reader self.new
            ≡ calls_of_reader self.old ++ read_call result (length buf.old) buf.new ∷ [] }
        ensures room { OnOk result (0 < length buf.old) }
        ensures given { Gains (Some (given self.old)) (Some (given self.new)) (bytes_given result buf.new) }
        ensures call { Gains (Some (reads self.old)) (Some (reads self.new)) (what_came result ∷ []) }
    {
        if buf.is_empty() {
            self.calls = self.calls.and(&OneCall::ReadFailed);
            return Err(io::Error::from(ErrorKind::InvalidInput));
        }
        let room = buf.len();
        let result = self.reader.read(buf);
        match &result {
            Ok(count) => self.calls = self.calls.and(&OneCall::Gave(&buf[..*count], room)),
            Err(_) => self.calls = self.calls.and(&OneCall::ReadFailed),
        }
        result
    }
}

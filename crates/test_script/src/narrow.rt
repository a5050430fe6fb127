//! A writer that takes a few bytes per call, and may fail.
ghost use Rattle.std.specs.Prelude.{◌≡◌, ◌<◌, Some, [], IfOk, OnOk, OnErr, length};
ghost use Rattle.std.specs.Io.{WritesAtMost};
ghost use Rattle.std.specs.Io.KnownBytes.{WriteAppends};
ghost use Rattle.test_script.specs.Working.Known.{HasMade, calls_of};

use crate::known::{Made, add};
use s2calc::Sink;
use std::alloc::{AllocError, Global};
use std::io;
use std::io::ErrorKind;

/// How a call of `Narrow` fails.
#[derive(Clone, Copy, PartialEq, Eq, Debug)]
pub enum Mishap {
    /// It answers an error.
    Fails,
    /// It takes no byte. A flush answers an error.
    TakesNothing,
}

/// Takes a few bytes per call, and may fail at one call. A contract sees its bytes, and its calls as long as there is
/// memory to list them.
#[derive(Drop)]
pub struct Narrow {
    written: Vec<u8>,
    size: usize,
    calls: u64,
    fails_at: u64,
    mishap: Mishap,
    is_flushed: bool,
    made: Option<Vec<Made>>,
    ghost takes_some: { 0 < size },
}

impl Narrow {
    /// A writer with room for a number of bytes, which takes a number of bytes per call, at least one. The call with
    /// the given number fails; 0 is none.
    pub fn new(
        alloc: Global,
        room: usize,
        size: usize,
        fails_at: u64,
        mishap: Mishap,
    ) -> Result<Narrow, AllocError>
        ensures { IfOk result (λ narrow. narrow.written.items ≡ []) }
    {
        let written = Vec::with_capacity(alloc, room)?;
        Ok(Narrow {
            written,
            size: size.max(1),
            calls: 0,
            fails_at,
            mishap,
            is_flushed: false,
            made: Some(Vec::new(alloc)),
        })
    }

    /// What it has taken.
    pub fn contents(&self) -> &[u8]
        ensures { result.now ≡ self.now.written.items }
    {
        &self.written
    }

    /// Whether the last call was a flush.
    pub fn is_flushed(&self) -> bool {
        self.is_flushed
    }

    /// Its calls, if there was memory to list them.
    pub fn made(&self) -> Option<&[Made]> {
        match &self.made {
            Some(made) => Some(made.as_slice()),
            None => None,
        }
    }

    /// Lists a call.
    fn list(&mut self, call: Made)
        ensures made { HasMade call (calls_of self.old.made) (calls_of self.new.made) }
        ensures written { self.new.written ≡ self.old.written }
    {
        add(&mut self.made, call);
    }

    /// Takes some of the bytes, if it has room.
    fn take(&mut self, buf: &[u8]) -> io::Result<usize>
        ensures bound { WritesAtMost result buf.now }
        ensures bytes { WriteAppends (Some self.old.written.items) (Some self.new.written.items) result buf.now }
        ensures some { 0 < length buf.now → IfOk result (λ count. 0 < count) }
        ensures made { OnOk result (HasMade Made.Write (calls_of self.old.made) (calls_of self.new.made)) }
        ensures failed { OnErr result (HasMade Made.Failure (calls_of self.old.made) (calls_of self.new.made)) }
    {
        let count = buf.len().min(self.size);
        match self.written.extend_from_slice(&buf[..count]) {
            Ok(()) => {
                self.list(Made::Write);
                Ok(count)
            }
            Err(error) => {
                self.list(Made::Failure);
                Err(io::Error::from(error))
            }
        }
    }

    /// Counts a call, and answers how it fails, if it does.
    fn mishap_now(&mut self) -> Option<Mishap>
        ensures written { self.new.written ≡ self.old.written }
        ensures made { self.new.made ≡ self.old.made }
    {
        self.calls = self.calls.saturating_add(1);
        if self.fails_at == self.calls {
            Some(self.mishap)
        } else {
            None
        }
    }
}

impl Sink for Narrow {
    ghost contents = { λ n. Some n.written.items };

    ghost calls = { λ n. calls_of n.made };

    /// Fails as a call that was interrupted, which may be tried again in other places.
    fn write(&mut self, buf: &[u8]) -> io::Result<usize> {
        self.is_flushed = false;
        match self.mishap_now() {
            Some(Mishap::Fails) => {
                self.list(Made::Failure);
                Err(io::Error::from(ErrorKind::Interrupted))
            }
            Some(Mishap::TakesNothing) => {
                self.list(Made::Failure);
                Ok(0)
            }
            None => self.take(buf),
        }
    }

    fn flush(&mut self) -> io::Result<()> {
        self.is_flushed = true;
        match self.mishap_now() {
            Some(_) => {
                self.list(Made::Failure);
                Err(io::Error::from(ErrorKind::Interrupted))
            }
            None => {
                self.list(Made::Flush);
                Ok(())
            }
        }
    }
}

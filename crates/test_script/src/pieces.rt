//! A reader that cuts its bytes into pieces, and may fail.
ghost use Rattle.std.specs.Prelude.{◌≡◌, ◌<◌, Some};
ghost use Rattle.test_script.specs.Working.Known.{entries};

use crate::known::add;
use s2calc::Source;
use std::alloc::Global;
use std::io;
use std::io::ErrorKind;

/// Gives its bytes in pieces of one size, and may fail at one call. A contract sees its bytes, and its calls as long as
/// there is memory to list them.
#[derive(Drop)]
pub struct Pieces<'a> {
    rest: &'a [u8],
    size: usize,
    calls: u64,
    fails_at: u64,
    reads: Option<Vec<Option<usize>>>,
    ghost takes_some: { 0 < size },
}

impl<'a> Pieces<'a> {
    /// A reader of these bytes, with a number of bytes per call, at least one. The call with the given number fails; 0
    /// is none.
    pub fn of(alloc: Global, bytes: &'a [u8], size: usize, fails_at: u64) -> Pieces<'a>
        ensures { result.rest.now ≡ bytes.now }
    {
        Pieces {
            rest: bytes,
            size: size.max(1),
            calls: 0,
            fails_at,
            reads: Some(Vec::new(alloc)),
        }
    }

    /// What each call gave: a number of bytes, or None if it failed. Or None, if there was no memory to list them.
    pub fn reads(&self) -> Option<&[Option<usize>]> {
        match &self.reads {
            Some(reads) => Some(reads.as_slice()),
            None => None,
        }
    }
}

impl Source for Pieces<'_> {
    ghost remaining = { λ p. Some p.rest.now };

    ghost reads = { λ p. entries p.reads };

    /// Fails as a call that was interrupted, which may be tried again in other places.
    fn read(&mut self, buf: &mut [u8]) -> io::Result<usize> {
        self.calls = self.calls.saturating_add(1);
        if self.fails_at == self.calls {
            add(&mut self.reads, None);
            return Err(io::Error::from(ErrorKind::Interrupted));
        }
        let count = self.rest.len().min(buf.len()).min(self.size);
        buf[..count].copy_from_slice(&self.rest[..count]);
        self.rest = &self.rest[count..];
        add(&mut self.reads, Some(count));
        Ok(count)
    }
}

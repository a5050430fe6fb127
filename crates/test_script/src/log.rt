//! A writer and a shelf that log their calls in one text, in the order in which they come.
ghost use Rattle.std.specs.Prelude.{◌≡◌, IfErr, MatchResult};
ghost use Rattle.s2shelf.specs.Shelf.{Closes, FailsToClose};
ghost use Rattle.test_script.specs.Working.Logged.{unknown_files};

use s2calc::Sink;
use s2shelf::{OpenedFile, Shelf, ShelfFault};
use std::alloc::Global;
use std::cell::RefCell;
use std::io;
use std::io::{Empty, ErrorKind};

/// A writer that logs the bytes that it takes, and a bar for each flush.
#[derive(Clone, Copy)]
pub struct LoggedWriter<'a> {
    pub log: &'a RefCell<Vec<u8>>,
}

impl Sink for LoggedWriter<'_> {
    #[tactic(auto, using(s2calc::proofs::CallLemmas::unknown_last))]
    fn write(&mut self, buf: &[u8]) -> io::Result<usize> {
        match self.log.try_borrow_mut() {
            Ok(mut log) => {
                log.extend_from_slice(buf)?;
                Ok(buf.len())
            }
            Err(_) => Err(io::Error::from(ErrorKind::ResourceBusy)),
        }
    }

    #[tactic(auto, using(s2calc::proofs::CallLemmas::unknown_last))]
    fn flush(&mut self) -> io::Result<()> {
        self.write(b"|")?;
        Ok(())
    }
}

/// A shelf that logs its calls. It has no files, keeps none, and no call of it fails unless memory runs out, or it is
/// to close a file of which a read failed.
#[derive(Clone, Copy)]
pub struct LoggedShelf<'a> {
    pub alloc: Global,
    pub log: &'a RefCell<Vec<u8>>,
    pub failures: u64,
}

impl LoggedShelf<'_> {
    /// Logs a call.
    fn note(&self, call: &str, name: &str) -> Result<(), ShelfFault>
        ensures { IfErr result (λ fault. fault ≡ ShelfFault.Memory) }
    {
        match self.log.try_borrow_mut() {
            Ok(mut log) => {
                log.extend_from_slice(call.as_bytes())?;
                log.extend_from_slice(name.as_bytes())?;
                log.extend_from_slice(b"\n")?;
                Ok(())
            }
            Err(_) => Err(ShelfFault::Memory),
        }
    }
}

impl Shelf for LoggedShelf<'_> {
    ghost files = { λ shelf. unknown_files shelf.failures };

    type File = Empty;

    fn open(&mut self, name: &str) -> Result<Option<OpenedFile<Empty>>, ShelfFault> {
        self.note("OPEN ", name)?;
        Ok(None)
    }

    fn close(&mut self, file: OpenedFile<Empty>) -> Result<(), ShelfFault>
        ensures { MatchResult result
            (λ _. Closes (unknown_files self.old.failures) file (unknown_files self.new.failures))
            (λ fault. FailsToClose (unknown_files self.old.failures) file (unknown_files self.new.failures) fault) }
    {
        if file.has_failed() {
            self.failures = self.failures.wrapping_add(1);
            return Err(ShelfFault::Device);
        }
        Ok(())
    }

    fn get_beginning(&mut self, name: &str, _most: usize) -> Result<Option<Vec<u8>>, ShelfFault> {
        self.note("GET ", name)?;
        Ok(None)
    }

    fn put(&mut self, name: &str, _bytes: &[u8]) -> Result<(), ShelfFault> {
        self.note("PUT ", name)?;
        Ok(())
    }
}

//! A file that was opened for reading.
ghost use Rattle.std.specs.Prelude.{◌≡◌, ◌≢◌, ℕ, ◌+◌, ◌<◌, ◌⊎◌, ◌↔◌, [], ◌++◌, true, false, Ok, length, take};
ghost use Rattle.std.specs.Prelude.{IfErr, IfOk, IsTrue, OnErr, OnOk};
ghost use Rattle.std.specs.Io.{ReadsAtMost};
ghost use Rattle.std.specs.Io.KnownBytes.{ReadConsumes};
ghost use Rattle.std.specs.IoError.{error_kind};
ghost use Rattle.s2shelf.specs.OpenedFile.{joined, below, name_of, given, has_ended, has_failed};

use crate::ghost_list::{GhostList, Shows};
use std::io;
use std::io::{ErrorKind, Read};
use std::marker::Model;

/// The type of an entry, a list of bytes. It has no other use.
pub struct Piece;

impl Model for Piece {
    ghost use Rattle.std.specs.Prelude.{ℕ, List, []};
    ghost use Rattle.std.specs.Coded.{coded_list, coded_ℕ};

    ghost Value = { List ℕ };

    ghost coded = { coded_list coded_ℕ };

    ghost view = { λ _. [] };
}

impl<'a> Shows<Piece> for &'a [u8] {
    ghost shown = { λ bytes. bytes.now };
}

impl<'a> Shows<Piece> for &'a GhostList<Piece> {
    ghost use Rattle.s2shelf.specs.OpenedFile.{joined};

    ghost shown = { λ list. joined list.now.entries };
}

/// A file that was opened for reading, over the reader that gives its bytes. It remembers under which name it was
/// opened, which bytes its reads gave, whether its end was reached, and whether a read of it failed, neither out of
/// memory nor interrupted. The name and the bytes are lists that only clauses read.
#[derive(Drop)]
pub struct OpenedFile<F> {
    file: F,
    failed: bool,
    ended: bool,
    name: GhostList<Piece>,
    given: GhostList<Piece>,
}

impl<F> OpenedFile<F> {
    /// The file of that name, whose bytes a reader gives. Nothing was read yet.
    pub fn of(name: &str, file: F) -> OpenedFile<F>
        ensures below { below result ≡ file }
        ensures name { name_of result ≡ name.now }
        ensures given { given result ≡ [] }
        ensures ended { has_ended result ≡ false }
        ensures failed { has_failed result ≡ false }
    {
        OpenedFile {
            file,
            failed: false,
            ended: false,
            name: GhostList::new().and(&name.as_bytes()),
            given: GhostList::new(),
        }
    }

    /// The name under which the file was opened, for clauses.
    pub fn name(&self) -> GhostList<Piece>
        ensures { joined result.entries ≡ name_of self.now }
    {
        GhostList::new().and(&&self.name)
    }

    /// The bytes that its reads gave, for clauses.
    pub fn given(&self) -> GhostList<Piece>
        ensures { joined result.entries ≡ given self.now }
    {
        GhostList::new().and(&&self.given)
    }

    /// Whether its end was reached: a read that had room for some bytes gave none.
    pub fn has_ended(&self) -> bool
        ensures { result ≡ has_ended self.now }
    {
        self.ended
    }

    /// Whether a read of it failed, neither out of memory nor interrupted.
    pub fn has_failed(&self) -> bool
        ensures { result ≡ has_failed self.now }
    {
        self.failed
    }
}

/// Whether a read that failed so tells of a failure of the device.
fn is_failure(kind: ErrorKind) -> bool
    ensures { IsTrue result ↔ ((kind ≢ ErrorKind.OutOfMemory) × (kind ≢ ErrorKind.Interrupted)) }
{
    !matches!(kind, ErrorKind::OutOfMemory | ErrorKind::Interrupted)
}

impl<F: Read> OpenedFile<F> {
    /// Reads into a buffer, and answers how many bytes came. Reads once from the reader below; but once the end was
    /// reached, nothing more comes, and nothing is read. After an error no byte has come.
    pub fn read(&mut self, buf: &mut [u8]) -> io::Result<usize>
        ensures bound { ReadsAtMost result buf.new }
        ensures name { name_of self.new ≡ name_of self.old }
        ensures given { IfOk result (λ count. given self.new ≡ given self.old ++ take count buf.new) }
        ensures below { has_ended self.old ≡ false →
            ReadConsumes (F.remaining (below self.old)) (F.remaining (below self.new)) result buf.new }
        ensures end { has_ended self.old ≡ false → IfOk result (λ count.
            (has_ended self.new ≡ true) ↔ ((count ≡ 0) × (0 < length buf.new))) }
        ensures ended { has_ended self.old ≡ true → (result ≡ Ok 0) × (self.new ≡ self.old) }
        ensures err { OnErr result ((given self.new ≡ given self.old) × (has_ended self.new ≡ has_ended self.old)) }
        ensures well { OnOk result (has_failed self.new ≡ has_failed self.old) }
        ensures failed { IfErr result (λ error. error_kind error ≢ ErrorKind.OutOfMemory
            → error_kind error ≢ ErrorKind.Interrupted → has_failed self.new ≡ true) }
        ensures passed_over { IfErr result (λ error. (error_kind error ≡ ErrorKind.OutOfMemory)
            ⊎ (error_kind error ≡ ErrorKind.Interrupted) → has_failed self.new ≡ has_failed self.old) }
    {
        if self.ended {
            return Ok(0);
        }
        match self.file.read(buf) {
            Ok(count) => {
                self.given = self.given.and(&&buf[..count]);
                self.ended = count == 0 && !buf.is_empty();
                Ok(count)
            }
            Err(error) => {
                if is_failure(error.kind()) {
                    self.failed = true;
                }
                Err(error)
            }
        }
    }
}

//! Named files that may fail.
ghost use Rattle.std.specs.Prelude.{◌≡◌, MatchResult, option_map, take};
ghost use Rattle.s2shelf.specs.Shelf.{Files, Finds, FindsBeginning, Opens, Closes, PutsFile, Fails};
ghost use Rattle.s2shelf.specs.Shelf.{FailsToClose, FailsToGet, FailsToPut, one_more};
ghost use Rattle.s2shelf.specs.declared.shelf.ShelfFault.TheVariants.{Memory};

use crate::opened_file::OpenedFile;
use std::alloc::AllocError;
use std::io::Read;
use thiserror::Error;

/// Why a file was not read or not written.
#[derive(Clone, Copy, Debug, PartialEq, Eq, Error)]
pub enum ShelfFault {
    /// The place that holds the files failed. The shelf counts these.
    #[error("the device failed")]
    Device,
    /// An allocation failed; nothing has changed.
    #[error("out of memory")]
    Memory,
}

impl From<AllocError> for ShelfFault {
    ghost from_gives = { λ _ fault. fault ≡ Memory };

    fn from(_error: AllocError) -> ShelfFault {
        ShelfFault::Memory
    }
}

/// Counts a failure of the device.
pub(crate) fn count_failure(failures: &mut u64) -> ShelfFault
    ensures count { failures.new ≡ one_more failures.old }
    ensures fault { result ≡ ShelfFault.Device }
{
    *failures = failures.wrapping_add(1);
    ShelfFault::Device
}

/// The first `most` bytes of a file, if there is one.
pub(crate) fn beginning_of(content: Option<Vec<u8>>, most: usize) -> Option<Vec<u8>>
    ensures { option_map (λ v. v.items) result ≡ option_map (take most) (option_map (λ v. v.items) content) }
{
    let mut bytes = content?;
    bytes.truncate(most);
    Some(bytes)
}

/// Files by their names.
///
/// A contract sees a shelf as `Files`: whether it exposes its contents, those contents, what came of each call, in
/// order and under the name that it was made with, and how many failures of the device were counted (a u64, which
/// starts again at 0 after its greatest value): each call that answers `Device` is one, and nothing else is, so code
/// for any shelf can't count one by itself. The list has what a call found, that it stored bytes, that it failed, and
/// that a file was opened and isn't closed yet. A shelf about which nothing is known doesn't expose its contents,
/// and the list is None. Code for any shelf can't know that: only the clauses of the calls below show what was found,
/// so the code has to make one of them, and makes none that isn't in the list.
pub trait Shelf {
    ghost files: { Self → Files };

    /// The reader that gives the bytes of an opened file.
    type File: Read + Drop;

    /// Opens the file of that name for reading from its beginning, or answers None if there is none. Either is found;
    /// what reads of an opened file give is found when it is closed. No content changes; the count rises by one exactly
    /// when the answer is `Device`. A read may fail later, which `close` tells.
    fn open(&mut self, name: &str) -> Result<Option<OpenedFile<Self::File>>, ShelfFault>
        ensures { MatchResult result
            (λ opened. Opens Self.File.remaining (files self.old) name.now opened (files self.new))
            (λ fault. Fails (files self.old) name.now (files self.new) fault) };

    /// Closes an opened file. The bytes that its reads gave are found, in the place of its opening: they are the whole
    /// file if a read gave nothing, and else its beginning. Answers `Device` exactly if a read of it failed for another
    /// reason than that memory ran out or that it was interrupted, and then that is found in their place. It fails in
    /// no other way. No content changes; the count rises by one exactly when the answer is `Device`.
    fn close(&mut self, file: OpenedFile<Self::File>) -> Result<(), ShelfFault>
        ensures { MatchResult result (λ _. Closes (files self.old) file (files self.new))
            (λ fault. FailsToClose (files self.old) file (files self.new) fault) };

    /// All bytes of the file of that name, or None if there is none. No content changes; the count rises by one exactly
    /// when the answer is `Device`.
    fn get(&mut self, name: &str) -> Result<Option<Vec<u8>>, ShelfFault>
        ensures { MatchResult result
            (λ content. Finds (files self.old) name.now (option_map (λ v. v.items) content) (files self.new))
            (λ fault. FailsToGet (files self.old) name.now (files self.new) fault) }
    {
        // No list of bytes is so long.
        self.get_within(name, usize::MAX)
    }

    /// The same of a file of fewer than `most` bytes. For another one there is no memory.
    #[tactic(auto, using(crate::proofs::Begun::begun_none, crate::proofs::Begun::whole, crate::proofs::Begun::fails))]
    fn get_within(&mut self, name: &str, most: usize) -> Result<Option<Vec<u8>>, ShelfFault>
        ensures { MatchResult result
            (λ content. Finds (files self.old) name.now (option_map (λ v. v.items) content) (files self.new))
            (λ fault. FailsToGet (files self.old) name.now (files self.new) fault) }
    {
        let Some(bytes) = self.get_beginning(name, most)? else {
            return Ok(None);
        };
        if bytes.len() == most {
            return Err(ShelfFault::Memory);
        }
        Ok(Some(bytes))
    }

    /// The first `most` bytes of the file of that name, the whole file if it has no more, or None if there is none. If
    /// that many come, they are found as its beginning, and else as its content. Otherwise like `get`.
    fn get_beginning(&mut self, name: &str, most: usize) -> Result<Option<Vec<u8>>, ShelfFault>
        ensures { MatchResult result
            (λ beginning. FindsBeginning (files self.old) name.now most (option_map (λ v. v.items) beginning)
            (files self.new))
            (λ fault. FailsToGet (files self.old) name.now (files self.new) fault) };

    /// Overwrites the file of that name, so that it holds exactly these bytes, and they are what was stored; no other
    /// file changes. After `Device` the content of that one file is not known, nothing counts as stored, and the count
    /// has risen by one; a folder of the system has tried to write these bytes and no others, if it came so far. After
    /// `Memory` no file has changed, and the system was asked for nothing. Each is in the list.
    fn put(&mut self, name: &str, bytes: &[u8]) -> Result<(), ShelfFault>
        ensures { MatchResult result
            (λ _. PutsFile (files self.old) (files self.new) name.now bytes.now)
            (λ fault. FailsToPut (files self.old) name.now bytes.now (files self.new) fault) };
}

//! A shelf in memory.
ghost use Rattle.std.specs.Prelude.{◌≡◌, ◌≤◌, ◌-◌, ◌≢◌, ◌↔◌, ℕ, List, None, false, IsErrOf, IsOk, OnErr};
ghost use Rattle.std.specs.Prelude.{MatchResult, is_ok, option_map, if◌then◌else◌};
ghost use Rattle.s2shelf.specs.OpenedFile.{has_failed};
ghost use Rattle.s2shelf.specs.Shelf.{one_more, KeepsFiles, SameFiles, Finds, FindsBeginning, Opens, Closes, PutsFile};
ghost use Rattle.s2shelf.specs.Shelf.{Fails, FailsToClose, FailsToGet, FailsToPut};
ghost use Rattle.s2shelf.specs.MemoryShelf.{files_of, failing_of};

use crate::opened_file::OpenedFile;
use crate::shelf::{Shelf, ShelfFault, beginning_of, count_failure};
use std::alloc::Global;
use std::collections::BTreeMap;
use std::io::{Cursor, Read};

/// A shelf in memory, which exposes its contents and can be made to fail.
#[derive(Drop)]
pub struct MemoryShelf {
    alloc: Global,
    named: BTreeMap<String, Vec<u8>>,
    /// Which call from now on fails: 1 is the next one, 0 means none.
    failing: u64,
    failures: u64,
}

impl MemoryShelf {
    /// An empty shelf. Takes no memory; its files will be allocated from `alloc`.
    pub fn new(alloc: Global) -> MemoryShelf
        ensures empty { (name : List ℕ) → (files_of result).at name ≡ None }
        ensures failures { (files_of result).failures ≡ 0 }
        ensures failing { failing_of result ≡ 0 }
    {
        MemoryShelf {
            alloc,
            named: BTreeMap::new(alloc),
            failing: 0,
            failures: 0,
        }
    }

    /// Makes the call number `n` from now on answer `Device`, once; this replaces an earlier order. Takes no memory,
    /// and does not count as a call.
    pub fn fail_at(&mut self, n: u64)
        requires { 1 ≤ n }
        ensures failing { failing_of self.new ≡ n }
        ensures files { SameFiles (files_of self.old) (files_of self.new) }
    {
        self.failing = n;
    }
}

/// Counts a call, and fails it if its turn has come.
fn take_turn(failing: &mut u64, failures: &mut u64) -> Result<(), ShelfFault>
    ensures turn { MatchResult result (λ _. failing.old ≢ 1) (λ fault. (fault ≡ ShelfFault.Device)
        × (failing.old ≡ 1)) }
    ensures failing { failing.new ≡ failing.old - 1 }
    ensures failures { failures.new ≡ (if is_ok result then failures.old else one_more failures.old) }
{
    let fails = *failing == 1;
    *failing = failing.saturating_sub(1);
    if fails {
        return Err(count_failure(failures));
    }
    Ok(())
}

impl MemoryShelf {
    /// A copy of the file of that name. Counts as a call, and answers `Device` if this is the call that was made to
    /// fail.
    fn copy_of(&mut self, name: &str) -> Result<Option<Vec<u8>>, ShelfFault>
        ensures answer { MatchResult result
            (λ content. Finds (files_of self.old) name.now (option_map (λ v. v.items) content) (files_of self.new))
            (λ fault. Fails (files_of self.old) name.now (files_of self.new) fault) }
        ensures turn { IsErrOf result ShelfFault.Device ↔ (failing_of self.old ≡ 1) }
        ensures failing { failing_of self.new ≡ failing_of self.old - 1 }
    {
        take_turn(&mut self.failing, &mut self.failures)?;
        match self.named.get(name) {
            None => Ok(None),
            Some(bytes) => Ok(Some(bytes.clone()?)),
        }
    }
}

impl Shelf for MemoryShelf {
    ghost files = { files_of };

    type File = Cursor<Vec<u8>>;

    /// A reader of a copy of the file. Answers `Device` if this is the call that was made to fail.
    fn open(&mut self, name: &str) -> Result<Option<OpenedFile<Cursor<Vec<u8>>>>, ShelfFault>
        ensures answer { MatchResult result
            (λ opened. Opens ⟦<Cursor<Vec<u8>> as Read>⟧.remaining (files_of self.old) name.now opened
            (files_of self.new))
            (λ fault. Fails (files_of self.old) name.now (files_of self.new) fault) }
        ensures turn { IsErrOf result ShelfFault.Device ↔ (failing_of self.old ≡ 1) }
        ensures failing { failing_of self.new ≡ failing_of self.old - 1 }
    {
        let Some(bytes) = self.copy_of(name)? else {
            return Ok(None);
        };
        Ok(Some(OpenedFile::of(name, Cursor::new(bytes))))
    }

    /// Answers `Ok` for a file of which no read failed, as none of a copy does. Does not count as a call.
    fn close(&mut self, file: OpenedFile<Cursor<Vec<u8>>>) -> Result<(), ShelfFault>
        ensures answer { MatchResult result (λ _. Closes (files_of self.old) file (files_of self.new))
            (λ fault. FailsToClose (files_of self.old) file (files_of self.new) fault) }
        ensures well { has_failed file ≡ false → IsOk result × (self.new ≡ self.old) }
        ensures failing { failing_of self.new ≡ failing_of self.old }
    {
        if file.has_failed() {
            return Err(count_failure(&mut self.failures));
        }
        Ok(())
    }

    /// A copy of the file. Answers `Device` if this is the call that was made to fail.
    fn get(&mut self, name: &str) -> Result<Option<Vec<u8>>, ShelfFault>
        ensures answer { MatchResult result
            (λ content. Finds (files_of self.old) name.now (option_map (λ v. v.items) content) (files_of self.new))
            (λ fault. FailsToGet (files_of self.old) name.now (files_of self.new) fault) }
        ensures turn { IsErrOf result ShelfFault.Device ↔ (failing_of self.old ≡ 1) }
        ensures failing { failing_of self.new ≡ failing_of self.old - 1 }
    {
        self.copy_of(name)
    }

    /// The first bytes of a copy of the file. Answers `Device` if this is the call that was made to fail.
    fn get_beginning(&mut self, name: &str, most: usize) -> Result<Option<Vec<u8>>, ShelfFault>
        ensures answer { MatchResult result
            (λ beginning. FindsBeginning (files_of self.old) name.now most (option_map (λ v. v.items) beginning)
            (files_of self.new))
            (λ fault. FailsToGet (files_of self.old) name.now (files_of self.new) fault) }
        ensures turn { IsErrOf result ShelfFault.Device ↔ (failing_of self.old ≡ 1) }
        ensures failing { failing_of self.new ≡ failing_of self.old - 1 }
    {
        let content = self.copy_of(name)?;
        Ok(beginning_of(content, most))
    }

    /// Copies name and bytes first, so that a fault changes no file. Answers `Device` if this is the call that was made
    /// to fail.
    fn put(&mut self, name: &str, bytes: &[u8]) -> Result<(), ShelfFault>
        ensures answer { MatchResult result
            (λ _. PutsFile (files_of self.old) (files_of self.new) name.now bytes.now)
            (λ fault. FailsToPut (files_of self.old) name.now bytes.now (files_of self.new) fault) }
        ensures kept { OnErr result (KeepsFiles (files_of self.old) (files_of self.new)) }
        ensures turn { IsErrOf result ShelfFault.Device ↔ (failing_of self.old ≡ 1) }
        ensures failing { failing_of self.new ≡ failing_of self.old - 1 }
    {
        take_turn(&mut self.failing, &mut self.failures)?;
        let name = String::from_str(self.alloc, name)?;
        let bytes = Vec::from_slice(self.alloc, bytes)?;
        match self.named.insert(name, bytes) {
            Ok(_) => Ok(()),
            Err(_) => Err(ShelfFault::Memory),
        }
    }
}

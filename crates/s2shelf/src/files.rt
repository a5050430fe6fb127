//! The files of the system, whose calls stand in a list.
ghost use Rattle.std.specs.Prelude.{◌≡◌, [], ◌∷◌, ◌++◌, IfSome, OnOk, option_map, take};
ghost use Rattle.std.specs.Io.KnownBytes.{Appends};
ghost use Rattle.s2shelf.specs.OpenedFile.{joined, name_of, given};
ghost use Rattle.s2shelf.specs.FileCalls.{Looked, LookedAgain, Gave, Wrote, Closed, path_to};
ghost use Rattle.s2shelf.specs.Working.FileCalls.{shown};
ghost use Rattle.s2shelf.specs.Working.Files.{calls_so_far, open_call, make_call};

use crate::file_calls::{FileEntry, OneFileCall};
use crate::ghost_list::GhostList;
use crate::opened_file::{OpenedFile, Piece};
use std::alloc::Global;
use std::fs::{File, Metadata, OpenFile};
use std::io::{Read, Write};
use std::rt::Files;
use std::{fs, io};

/// The files of the system. Each call stands in a list that only proofs read, in order. A method makes the call that
/// it lists, and no other; to read or write many bytes may take several calls of the system.
#[derive(Drop)]
pub(crate) struct ListedFiles<R> {
    rt: R,
    calls: GhostList<FileEntry>,
}

impl<R: Files + AllocGlobal> ListedFiles<R> {
    /// Nothing was called yet.
    pub(crate) fn new(rt: R) -> ListedFiles<R>
    where
        R: Drop,
        ensures { calls_so_far result ≡ [] }
    {
        ListedFiles {
            rt,
            calls: GhostList::new(),
        }
    }

    /// What memory is taken from.
    pub(crate) fn alloc(&self) -> Global {
        self.rt.alloc()
    }

    /// Lists a call.
    #[inline(always)]
    fn list(&mut self, call: OneFileCall<'_>)
        ensures { calls_so_far self.new ≡ calls_so_far self.old ++ shown call.entry ∷ [] }
    {
        self.calls = self.calls.and(&call);
    }

    /// Asks what lies at a path.
    pub(crate) fn look(&mut self, path: &str) -> io::Result<Metadata>
        ensures { calls_so_far self.new ≡ calls_so_far self.old ++ Looked path.now ∷ [] }
    {
        self.list(OneFileCall::Looked(path));
        fs::metadata(&self.rt, path)
    }

    /// Opens the file at a path for reading.
    pub(crate) fn open(&mut self, path: &str) -> io::Result<R::File>
        ensures { calls_so_far self.new ≡ calls_so_far self.old ++ open_call path.now result ∷ [] }
    {
        let result = File::open(&self.rt, path);
        match &result {
            Ok(_) => self.list(OneFileCall::Opened(path)),
            Err(_) => self.list(OneFileCall::OpenedNot(path)),
        }
        result
    }

    /// Asks what was opened at a path.
    pub(crate) fn look_again(&mut self, path: &str, file: &R::File) -> io::Result<Metadata>
        ensures { calls_so_far self.new ≡ calls_so_far self.old ++ LookedAgain path.now ∷ [] }
    {
        self.list(OneFileCall::LookedAgain(path));
        file.metadata()
    }

    /// The first `most` bytes that reads of a file give that was opened at a path. Nothing is read after them.
    pub(crate) fn read(
        &mut self,
        path: &str,
        file: &mut R::File,
        most: usize,
        bytes: &mut Vec<u8>,
    ) -> io::Result<()>
        requires { bytes.old.items ≡ [] }
        ensures listed { calls_so_far self.new ≡ calls_so_far self.old ++ Gave path.now bytes.new.items ∷ [] }
        ensures read { OnOk result (IfSome (option_map (take most) (R.File.remaining file.old))
            (λ known. bytes.new.items ≡ known)) }
    {
        let result = file.take(most as u64).read_to_end(bytes);
        self.list(OneFileCall::Gave(path, bytes.as_slice()));
        result?;
        Ok(())
    }

    /// Makes a file at a path, in the place of one that lies there.
    pub(crate) fn make(&mut self, path: &str) -> io::Result<R::File>
        ensures { calls_so_far self.new ≡ calls_so_far self.old ++ make_call path.now result ∷ [] }
    {
        let result = File::create(&self.rt, path);
        match &result {
            Ok(_) => self.list(OneFileCall::Made(path)),
            Err(_) => self.list(OneFileCall::MadeNot(path)),
        }
        result
    }

    /// Writes all bytes to a file that was made at a path.
    pub(crate) fn write_all(
        &mut self,
        path: &str,
        file: &mut R::File,
        bytes: &[u8],
    ) -> io::Result<()>
        ensures listed { calls_so_far self.new ≡ calls_so_far self.old ++ Wrote path.now bytes.now ∷ [] }
        ensures written { OnOk result (Appends (R.File.contents file.old) (R.File.contents file.new) bytes.now) }
    {
        self.list(OneFileCall::Wrote(path, bytes));
        file.write_all(bytes)
    }

    /// Closes a file that was opened or made at a path.
    pub(crate) fn close(&mut self, path: &str, file: R::File)
        ensures { calls_so_far self.new ≡ calls_so_far self.old ++ Closed path.now ∷ [] }
    {
        drop(file);
        self.list(OneFileCall::Closed(path));
    }

    /// Closes a file of a folder, and lists what its reads have given.
    pub(crate) fn close_read(&mut self, folder: &str, file: OpenedFile<R::File>)
        ensures { calls_so_far self.new ≡ calls_so_far self.old ++ Gave (path_to folder.now (name_of file)) (given file)
            ∷ Closed (path_to folder.now (name_of file)) ∷ [] }
    {
        let read = (file.name(), file.given());
        drop(file);
        self.list_given(folder, &read);
        self.list_closed(folder, &read);
    }

    /// Lists what reads of a file of a folder have given.
    #[inline(always)]
    fn list_given(&mut self, folder: &str, read: &(GhostList<Piece>, GhostList<Piece>))
        ensures { calls_so_far self.new ≡ calls_so_far self.old
            ++ Gave (path_to folder.now (joined read.now.0.entries)) (joined read.now.1.entries) ∷ [] }
    {
        self.list(OneFileCall::GaveInPieces(folder, read));
    }

    /// Lists the closing of a file of a folder.
    #[inline(always)]
    fn list_closed(&mut self, folder: &str, read: &(GhostList<Piece>, GhostList<Piece>))
        ensures { calls_so_far self.new ≡ calls_so_far self.old
            ++ Closed (path_to folder.now (joined read.now.0.entries)) ∷ [] }
    {
        self.list(OneFileCall::ClosedNamed(folder, read));
    }
}

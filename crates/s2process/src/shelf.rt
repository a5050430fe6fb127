//! A shelf whose calls stand in a list.
ghost use Rattle.std.specs.Prelude.{◌≡◌, [], ◌∷◌, ◌++◌, option_map, MatchResult};
ghost use Rattle.s2shelf.specs.Shelf.{FindsBeginning, Opens, Closes, PutsFile, Fails, FailsToClose, FailsToGet};
ghost use Rattle.s2shelf.specs.Shelf.{FailsToPut};
ghost use Rattle.s2process.specs.ShelfCalls.{get_call, open_call, close_call, put_call};
ghost use Rattle.s2process.specs.StreamCalls.{OfShelf};
ghost use Rattle.s2process.specs.Listed.{calls_of_shelf, listed_files, shelf_below};
ghost use Rattle.s2process.specs.Working.Shown.{shown_by_shelf};

use crate::calls::{CallList, OneCall, OneShelfCall};
use s2shelf::{OpenedFile, Shelf, ShelfFault};

/// A shelf. Each call of it stands in a list that only proofs read, in order: the name of the file, what was answered,
/// and the bytes that were handed over or stored. A contract sees what was found by these calls.
#[derive(Drop)]
pub struct ListedShelf<S> {
    shelf: S,
    calls: CallList,
}

impl<S: Drop> ListedShelf<S> {
    /// Nothing was called yet.
    pub fn new(shelf: S) -> ListedShelf<S>
        ensures below { shelf_below result ≡ shelf }
        ensures calls { calls_of_shelf result ≡ [] }
    {
        ListedShelf {
            shelf,
            calls: CallList::new(),
        }
    }
}

impl<S> ListedShelf<S> {
    /// Lists a call.
    #[inline(always)]
    fn list(&mut self, call: OneShelfCall<'_>)
        ensures listed { calls_of_shelf self.new ≡ calls_of_shelf self.old ++ OfShelf (shown_by_shelf call.entry) ∷ [] }
        ensures kept { self.new.shelf ≡ self.old.shelf }
    {
        self.calls = self.calls.and(&OneCall::OfShelf(call));
    }
}

impl<S: Shelf> Shelf for ListedShelf<S> {
    ghost files = { listed_files S.files };

    type File = S::File;

    fn open(&mut self, name: &str) -> Result<Option<OpenedFile<S::File>>, ShelfFault>
        ensures below { MatchResult result
            (λ opened. Opens S.File.remaining (S.files self.old.shelf) name.now opened (S.files self.new.shelf))
            (λ fault. Fails (S.files self.old.shelf) name.now (S.files self.new.shelf) fault) }
        ensures listed { calls_of_shelf self.new ≡ calls_of_shelf self.old ++ OfShelf (open_call name.now result) ∷ [] }
        ensures answer { MatchResult result
            (λ opened. Opens S.File.remaining (listed_files S.files self.old) name.now opened
            (listed_files S.files self.new))
            (λ fault. Fails (listed_files S.files self.old) name.now (listed_files S.files self.new) fault) }
    {
        match self.shelf.open(name) {
            Ok(Some(file)) => {
                self.list(OneShelfCall::OpenedFile(name));
                Ok(Some(file))
            }
            Ok(None) => {
                self.list(OneShelfCall::Missing(name));
                Ok(None)
            }
            Err(fault) => {
                self.list(OneShelfCall::Failed(name, fault));
                Err(fault)
            }
        }
    }

    fn close(&mut self, file: OpenedFile<S::File>) -> Result<(), ShelfFault>
        ensures below { MatchResult result (λ _. Closes (S.files self.old.shelf) file (S.files self.new.shelf))
            (λ fault. FailsToClose (S.files self.old.shelf) file (S.files self.new.shelf) fault) }
        ensures listed { calls_of_shelf self.new ≡ calls_of_shelf self.old ++ OfShelf (close_call file result) ∷ [] }
        ensures answer { MatchResult result
            (λ _. Closes (listed_files S.files self.old) file (listed_files S.files self.new))
            (λ fault. FailsToClose (listed_files S.files self.old) file (listed_files S.files self.new) fault) }
    {
        let name = file.name();
        let given = file.given();
        let ended = file.has_ended();
        match self.shelf.close(file) {
            Ok(()) => {
                self.list(OneShelfCall::ClosedFile(&name, &given, ended));
                Ok(())
            }
            Err(fault) => {
                self.list(OneShelfCall::CloseFailed(&name, &given, fault));
                Err(fault)
            }
        }
    }

    fn get_beginning(&mut self, name: &str, most: usize) -> Result<Option<Vec<u8>>, ShelfFault>
        ensures below { MatchResult result
            (λ beginning. FindsBeginning (S.files self.old.shelf) name.now most (option_map (λ v. v.items) beginning)
            (S.files self.new.shelf))
            (λ fault. FailsToGet (S.files self.old.shelf) name.now (S.files self.new.shelf) fault) }
        ensures listed { calls_of_shelf self.new
            ≡ calls_of_shelf self.old ++ OfShelf (get_call (λ v. v.items) name.now most result) ∷ [] }
        ensures answer { MatchResult result
            (λ beginning. FindsBeginning (listed_files S.files self.old) name.now most
            (option_map (λ v. v.items) beginning) (listed_files S.files self.new))
            (λ fault. FailsToGet (listed_files S.files self.old) name.now (listed_files S.files self.new) fault) }
    {
        match self.shelf.get_beginning(name, most) {
            Ok(Some(bytes)) => {
                self.list(OneShelfCall::HandedOver(name, most, bytes.as_slice()));
                Ok(Some(bytes))
            }
            Ok(None) => {
                self.list(OneShelfCall::Missing(name));
                Ok(None)
            }
            Err(fault) => {
                self.list(OneShelfCall::Failed(name, fault));
                Err(fault)
            }
        }
    }

    fn put(&mut self, name: &str, bytes: &[u8]) -> Result<(), ShelfFault>
        ensures below { MatchResult result
            (λ _. PutsFile (S.files self.old.shelf) (S.files self.new.shelf) name.now bytes.now)
            (λ fault. FailsToPut (S.files self.old.shelf) name.now bytes.now (S.files self.new.shelf) fault) }
        ensures listed { calls_of_shelf self.new
            ≡ calls_of_shelf self.old ++ OfShelf (put_call name.now bytes.now result) ∷ [] }
        ensures answer { MatchResult result
            (λ _. PutsFile (listed_files S.files self.old) (listed_files S.files self.new) name.now bytes.now)
            (λ fault. FailsToPut (listed_files S.files self.old) name.now bytes.now (listed_files S.files self.new)
            fault) }
    {
        let result = self.shelf.put(name, bytes);
        match result {
            Ok(()) => self.list(OneShelfCall::Stored(name, bytes)),
            Err(fault) => self.list(OneShelfCall::Failed(name, fault)),
        }
        result
    }
}

//! Where the folders are that a program is given by their paths.
ghost use Rattle.std.specs.Prelude.{List, ℕ, IfOk};

use s2shelf::Shelf;
use std::alloc::AllocError;

/// Opens a folder of files by its path. It is used up by that, so who is given it opens no second one.
pub trait Folders {
    /// A folder.
    type Folder: Shelf + Drop;

    // this folder was opened at this path, and nothing was asked of it yet
    ghost opened: { Self.Folder → List ℕ → Type 0 };

    /// Opens the folder at this path.
    fn open(self, path: &str) -> Result<Self::Folder, AllocError>
        ensures { IfOk result (λ folder. opened folder path.now) };
}

/// What became of the folders that a program was given.
#[derive(Drop)]
pub enum Opening<F, S> {
    /// None was opened: this is who would have opened one.
    Unopened(F),
    /// There was no memory to open one.
    Failed,
    /// This one was opened.
    Opened(S),
}

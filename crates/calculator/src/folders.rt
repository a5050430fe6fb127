//! Folders of the system.
use s2process::{Folders, ListedShelf};
use s2shelf::DirShelf;
use std::alloc::AllocError;

/// A folder of the system, whose calls stand in a list.
pub type SystemFolder<'a> = ListedShelf<DirShelf<&'a HostRuntime>>;

/// The folders of the system.
#[derive(Drop)]
pub struct SystemFolders<'a> {
    pub(crate) rt: &'a HostRuntime,
}

impl<'a> Folders for SystemFolders<'a> {
    ghost use Rattle.calculator.specs.System.{IsMadeAt};

    type Folder = SystemFolder<'a>;

    ghost opened = { IsMadeAt };

    fn open(self, path: &str) -> Result<SystemFolder<'a>, AllocError> {
        Ok(ListedShelf::new(DirShelf::at(self.rt, path)?))
    }
}

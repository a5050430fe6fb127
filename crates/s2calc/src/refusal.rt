//! Why a line is refused.
ghost use Rattle.std.specs.Prelude.{◌≡◌, ◌≤◌, length};
ghost use Rattle.s2calc.specs.Refusals.{name_of};
ghost use Rattle.s2calc.specs.declared.refusal.Refusal.TheVariants.{Memory};

use std::alloc::AllocError;

/// Why a line is refused. A refused line changes no register, and nothing in the history.
#[derive(Clone, Copy, Debug, PartialEq, Eq)]
pub enum Refusal {
    /// Its words, or its length.
    Words(s2script::Refusal),
    /// No file of that name.
    Missing,
    /// The files' device failed.
    File,
    /// A file that doesn't have the form of a union file.
    Format,
    /// A file that stands for no registers and history.
    Session,
    /// A file with more states than are kept.
    TooDeep,
    /// More cells, or files in one picture, than are allowed.
    TooMany,
    /// Nothing to undo, or to redo.
    Nothing,
    /// Out of memory.
    Memory,
}

impl From<AllocError> for Refusal {
    ghost from_gives = { λ _ refusal. refusal ≡ Memory };

    fn from(_error: AllocError) -> Refusal {
        Refusal::Memory
    }
}

impl Refusal {
    /// The name that is printed.
    pub(crate) fn name(self) -> &'static str
        ensures name { result.now ≡ name_of self }
        ensures short { length result.now ≤ 9 }
    {
        match self {
            Refusal::Words(refusal) => refusal.name(),
            Refusal::Missing => "missing",
            Refusal::File => "file",
            Refusal::Format => "format",
            Refusal::Session => "session",
            Refusal::TooDeep => "too-deep",
            Refusal::TooMany => "too-many",
            Refusal::Nothing => "nothing",
            Refusal::Memory => "memory",
        }
    }
}

//! Why bytes are refused.
ghost use Rattle.std.specs.Prelude.{◌≡◌};
ghost use Rattle.s2file.specs.declared.fault.FileFault.TheVariants.{Memory};

use std::alloc::AllocError;
use thiserror::Error;

/// Why bytes are not a union file: the first check that fails, in the order of this list, except for `Short`, which is
/// answered wherever the bytes end too early.
#[derive(Clone, Copy, Debug, PartialEq, Eq, Error)]
pub enum FileFault {
    /// The first byte is not 1.
    #[error("the version is not 1")]
    Version,
    /// The head states more than `MOST_FILE` identifiers.
    #[error("more than 1000000 identifiers")]
    Count,
    /// There is no byte, or the head or an identifier is cut off.
    #[error("bytes are missing")]
    Short,
    /// Bytes follow the last identifier.
    #[error("bytes after the last identifier")]
    Trailing,
    /// A number is not the identifier of a cell.
    #[error("no identifier of a cell")]
    Cell,
    /// There was no memory for the list of cells; the bytes passed every check except that of the identifiers.
    #[error("out of memory")]
    Memory,
}

impl From<AllocError> for FileFault {
    ghost from_gives = { λ _ fault. fault ≡ Memory };

    fn from(_error: AllocError) -> FileFault {
        FileFault::Memory
    }
}

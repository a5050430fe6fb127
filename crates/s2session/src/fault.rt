//! Why no session is read.
ghost use Rattle.std.specs.Prelude.{◌≡◌};
ghost use Rattle.s2session.specs.declared.fault.ReadFault.{ReadFault};
ghost use Rattle.s2session.specs.declared.fault.SessionFault.TheVariants.{Memory};

use std::alloc::{AllocError, AllocFailed};
use thiserror::Error;

/// Why no session was read.
#[derive(Clone, Copy, Debug, PartialEq, Eq, Error)]
pub enum ReadFault {
    /// The bytes that were read are neither a session file nor a union file.
    #[error("the bytes are no session file")]
    Form,
    /// A read failed.
    #[error("a read failed")]
    Device,
    /// An allocation failed, or a read found no memory.
    #[error("out of memory")]
    Memory,
}

impl From<AllocError> for ReadFault {
    ghost from_gives = { λ _ fault. fault ≡ ReadFault.Memory };

    fn from(_error: AllocError) -> ReadFault {
        ReadFault::Memory
    }
}

impl<T: Drop> From<AllocFailed<T>> for ReadFault {
    ghost from_gives = { λ _ fault. fault ≡ ReadFault.Memory };

    fn from(_error: AllocFailed<T>) -> ReadFault {
        ReadFault::Memory
    }
}

/// Why bytes were not read as a session.
#[derive(Clone, Copy, Debug, PartialEq, Eq, Error)]
pub enum SessionFault {
    /// The bytes are neither a session file nor a union file.
    #[error("the bytes are no session file")]
    Form,
    /// An allocation failed.
    #[error("out of memory")]
    Memory,
}

impl From<AllocError> for SessionFault {
    ghost from_gives = { λ _ fault. fault ≡ Memory };

    fn from(_error: AllocError) -> SessionFault {
        SessionFault::Memory
    }
}

impl<T: Drop> From<AllocFailed<T>> for SessionFault {
    ghost from_gives = { λ _ fault. fault ≡ Memory };

    fn from(_error: AllocFailed<T>) -> SessionFault {
        SessionFault::Memory
    }
}

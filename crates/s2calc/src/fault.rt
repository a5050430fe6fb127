//! What ends a run.
ghost use Rattle.std.specs.Prelude.{◌≡◌};
ghost use Rattle.s2calc.specs.declared.fault.RunFault.TheVariants.{Memory};

use std::alloc::AllocError;
use thiserror::Error;

/// What ends a run before its script does.
#[derive(Clone, Copy, Debug, PartialEq, Eq, Error)]
pub enum RunFault {
    /// A read failed, or the reads ran out.
    #[error("the input failed")]
    Input,
    /// A write failed or took nothing, or a flush failed.
    #[error("the output failed")]
    Output,
    /// There was no memory for the buffers.
    #[error("out of memory")]
    Memory,
}

impl From<AllocError> for RunFault {
    ghost from_gives = { λ _ fault. fault ≡ Memory };

    fn from(_error: AllocError) -> RunFault {
        RunFault::Memory
    }
}

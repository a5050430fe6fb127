//! Why a union was not made.
ghost use Rattle.std.specs.Prelude.{◌≡◌};
ghost use Rattle.s2union.specs.declared.fault.UnionFault.TheVariants.{Memory};

use std::alloc::AllocError;
use thiserror::Error;

/// Why a union was not made.
#[derive(Clone, Copy, Debug, PartialEq, Eq, Drop, Error)]
pub enum UnionFault {
    /// The finished union has more cells than are allowed.
    #[error("the union has too many cells")]
    TooMany,
    /// An allocation was refused.
    #[error("out of memory")]
    Memory,
}

impl From<AllocError> for UnionFault {
    ghost from_gives = { λ _ fault. fault ≡ Memory };

    fn from(_error: AllocError) -> UnionFault {
        UnionFault::Memory
    }
}

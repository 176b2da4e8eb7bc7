//! Terms of the table with their sorts, and why there is none over some arguments.
ghost use Rattle.std.specs.Prelude.{◌≡◌};

use nz_base::Memory;
use nz_term::{Sort, TermId};
use std::alloc::{AllocError, AllocFailed};

/// The number of a normal term, and the sort of the term that it is the normal one of.
#[derive(Clone, Copy, Debug, PartialEq, Eq)]
pub struct Typed {
    pub id: TermId,
    pub sort: Sort,
}

/// Why there is no term over some arguments.
#[derive(Clone, Copy, Debug, PartialEq, Eq)]
pub(crate) enum ApplyError {
    /// Their count or a sort doesn't fit.
    Sort,
    /// There was no memory for it.
    Memory,
}

impl From<Memory> for ApplyError {
    ghost use Rattle.nz_elaborate.specs.declared.typed.ApplyError.TheVariants as errors;

    ghost from_gives = { λ _ r. r ≡ errors.Memory };

    fn from(_memory: Memory) -> ApplyError {
        ApplyError::Memory
    }
}

impl From<AllocError> for ApplyError {
    ghost use Rattle.nz_elaborate.specs.declared.typed.ApplyError.TheVariants as errors;

    ghost from_gives = { λ _ r. r ≡ errors.Memory };

    fn from(_error: AllocError) -> ApplyError {
        ApplyError::Memory
    }
}

impl<T: Drop> From<AllocFailed<T>> for ApplyError {
    ghost use Rattle.nz_elaborate.specs.declared.typed.ApplyError.TheVariants as errors;

    ghost from_gives = { λ _ r. r ≡ errors.Memory };

    fn from(_error: AllocFailed<T>) -> ApplyError {
        ApplyError::Memory
    }
}

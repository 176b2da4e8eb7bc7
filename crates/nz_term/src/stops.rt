//! Why an exact computation over terms has no result.
ghost use Rattle.std.specs.Prelude.{◌≡◌};

use nz_base::Memory;
use nz_frac::Wide;
use std::alloc::{AllocError, AllocFailed};

/// Why an exact computation over terms has no result.
#[derive(Clone, Copy, Debug)]
pub enum ArithmeticStop {
    /// The first operation that leaves the numbers.
    Wide(Wide),
    /// Memory was wanted and refused.
    Memory,
}

impl From<Wide> for ArithmeticStop {
    ghost use Rattle.nz_term.specs.declared.stops.ArithmeticStop.TheVariants as stops;

    ghost from_gives = { λ wide r. r ≡ stops.Wide wide };

    fn from(wide: Wide) -> ArithmeticStop {
        ArithmeticStop::Wide(wide)
    }
}

impl From<Memory> for ArithmeticStop {
    ghost use Rattle.nz_term.specs.declared.stops.ArithmeticStop.TheVariants as stops;

    ghost from_gives = { λ _ r. r ≡ stops.Memory };

    fn from(_memory: Memory) -> ArithmeticStop {
        ArithmeticStop::Memory
    }
}

impl From<AllocError> for ArithmeticStop {
    ghost use Rattle.nz_term.specs.declared.stops.ArithmeticStop.TheVariants as stops;

    ghost from_gives = { λ _ r. r ≡ stops.Memory };

    fn from(_error: AllocError) -> ArithmeticStop {
        ArithmeticStop::Memory
    }
}

impl<T: Drop> From<AllocFailed<T>> for ArithmeticStop {
    ghost use Rattle.nz_term.specs.declared.stops.ArithmeticStop.TheVariants as stops;

    ghost from_gives = { λ _ r. r ≡ stops.Memory };

    fn from(_error: AllocFailed<T>) -> ArithmeticStop {
        ArithmeticStop::Memory
    }
}

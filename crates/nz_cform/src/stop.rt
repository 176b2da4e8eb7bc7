//! Why clauses may not be put.
ghost use Rattle.nz_cform.specs.Stops.{IsStopOf};

use nz_base::Memory;
use nz_frac::Wide;
use nz_term::{ArithmeticStop, TermId};
use std::alloc::{AllocError, AllocFailed};

/// Why the clauses of a term weren't put.
#[derive(Debug, Drop)]
pub enum FormStop {
    /// An operation of the forms of this term's rows leaves the numbers.
    Wide(Wide, TermId),
    /// Memory was wanted and refused.
    Memory,
}

impl FormStop {
    /// What stops a row of this term.
    pub(crate) fn of(stop: ArithmeticStop, term: TermId) -> FormStop
        ensures stop { IsStopOf stop term result }
    {
        match stop {
            ArithmeticStop::Wide(wide) => {
                // Both operands are numbers, as every fraction is.
                wide.a.num();
                wide.b.num();
                FormStop::Wide(wide, term)
            }
            ArithmeticStop::Memory => FormStop::Memory,
        }
    }
}

impl From<Memory> for FormStop {
    ghost use Rattle.std.specs.Prelude.{◌≡◌};
    ghost use Rattle.nz_cform.specs.declared.stop.FormStop.TheVariants as stop;

    ghost from_gives = { λ _ s. s ≡ stop.Memory };

    fn from(_error: Memory) -> FormStop {
        FormStop::Memory
    }
}

impl From<AllocError> for FormStop {
    ghost use Rattle.std.specs.Prelude.{◌≡◌};
    ghost use Rattle.nz_cform.specs.declared.stop.FormStop.TheVariants as stop;

    ghost from_gives = { λ _ s. s ≡ stop.Memory };

    fn from(_error: AllocError) -> FormStop {
        FormStop::Memory
    }
}

impl<T: Drop> From<AllocFailed<T>> for FormStop {
    ghost use Rattle.std.specs.Prelude.{◌≡◌};
    ghost use Rattle.nz_cform.specs.declared.stop.FormStop.TheVariants as stop;

    ghost from_gives = { λ _ s. s ≡ stop.Memory };

    fn from(_error: AllocFailed<T>) -> FormStop {
        FormStop::Memory
    }
}

//! What comes of a check.
use nz_place::Place;

/// Whether the forms have values within their bounds.
#[derive(Clone, Copy, Debug, PartialEq, Eq)]
pub enum Check {
    /// The point is within all bounds.
    Feasible,
    /// Some bounds contradict.
    Clash,
}

/// Why a check was not carried to its end.
#[derive(Debug, Drop)]
pub enum SimplexStop {
    /// An operation left the numbers: of an exchange, or of the value of a basic form.
    Wide(Place),
    /// A step more was wanted, and every unit of work is used.
    Spent,
}

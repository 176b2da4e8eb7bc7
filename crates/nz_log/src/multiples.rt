//! Multiples of literals.
use crate::lits::Lit;
use nz_frac::Frac;

/// A literal that is a bound on a sum, and a number above 0 by which it is multiplied.
#[derive(Clone, Copy, Debug)]
pub struct LitMultiple {
    pub literal: Lit,
    pub multiplier: Frac,
}

//! Exact fractions of 128 bits, the numbers of the whole solver.
//!
//! A [`Frac`] is in lowest terms, with a numerator from -M to M and a denominator from 1 to M, where M is 2^127 - 1.
//! Each operation gives the exact result or a [`Wide`] that names the operation and the operands as they were handed in.
//! Nothing takes memory and nothing wraps.
#![tactic(auto)]

mod frac;
mod magnitude;
mod operation;

pub use frac::{Frac, Op, Wide};
pub use magnitude::greatest_divisor;

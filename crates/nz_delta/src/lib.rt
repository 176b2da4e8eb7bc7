//! Numbers that bounds and points are made of: an ordered vector space over the fractions, and the infinitesimal numbers
//! c + k*δ that stand for strict bounds.
//!
//! [`Scalar`] is what the simplex and its bounds ask of a number; [`nz_frac::Frac`] and [`Delta`] give it.
//! [`choose_delta`] finds a fraction that can stand for δ. Nothing takes memory.
#![tactic(auto)]

mod choose;
mod delta;
mod scalar;

pub use choose::choose_delta;
pub use delta::{Delta, stands_for_infinitesimal};
pub use scalar::Scalar;

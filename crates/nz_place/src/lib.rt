//! Where an operation of a check left the numbers.
#![tactic(auto)]

mod place;

pub use place::{Place, Site};

//! The theory of linear real arithmetic: bounds on sums of units, told one after another, over a simplex.
#![tactic(auto)]

mod arranging;
mod atoms;
mod forms;
mod joins;
pub mod laws;
mod model;
mod neighbours;
mod planning;
mod reals;
mod refute;
mod starts;
mod theory;

pub use reals::{Reals, stored};

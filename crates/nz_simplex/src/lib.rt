//! The check of the simplex method: whether linear forms have values within their bounds.
//!
//! A form is known by its number in a [`Simplex`]. Bounds of forms are asserted and taken back. A check moves the point by exchanges of
//! a basic form with a nonbasic one, by Bland's rule, until each form is within its bounds, or some bounds contradict.
#![tactic(auto)]

mod answer;
mod choice;
mod coordinate;
mod helper;
pub mod laws;
mod lists;
mod multipliers;
mod room;
mod simplex;
mod steps;
mod values;

pub use answer::{Check, SimplexStop};
pub use coordinate::Coordinate;
pub use simplex::{Simplex, known_state};
pub use steps::Steps;

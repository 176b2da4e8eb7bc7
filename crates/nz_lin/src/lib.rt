//! Linear forms: sums of units with coefficients, and a number that is added.
//!
//! A unit is a term whose value linear arithmetic takes as it is. [`lin`] makes the form of a term. Along lines, numbers may get as
//! large or come as near as need be: a [`Family`] is an assignment for each s of a range.
#![tactic(auto)]

mod bound;
mod combine;
mod form;
pub mod laws;
mod line;
mod linear;
mod subtract;
mod tight;

pub use bound::{Bound, BoundMultiple, sum_of_multiples};
pub use form::{Form, Part};
pub use line::{Course, Family, Line, Range};
pub use linear::lin;
pub use subtract::lin_difference;

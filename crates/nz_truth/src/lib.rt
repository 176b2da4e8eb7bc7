//! The values of the terms of a table, where its constants have given values.
#![tactic(auto)]

mod arithmetic;
mod bools;
mod chains;
mod heads;
mod integers;
mod value;
mod walk;

pub use heads::default_value;
pub use value::{Values, eval};
pub use walk::{Outcome, outcomes};

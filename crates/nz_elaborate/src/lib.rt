//! Elaboration: the normal term of a parsed term, made in the table in one pass, or the first rule that it breaks.
//!
//! The order of the rules is that of their errors: a name that isn't in scope, then names that clash, then a count of arguments or
//! a sort that doesn't fit.
#![tactic(auto)]

mod apply;
mod definitions;
mod elaboration;
mod faults;
mod frames;
mod meanings;
mod names;
mod normal;
mod operators;
mod sorts;
mod typed;

pub use definitions::elaborate_body;
pub use elaboration::{elaborate, elaborate_all};
pub use faults::ElaborateError;
pub use names::{Definition, Named, Names};
pub use operators::Operator;
pub use sorts::{is_unknown_sort, written_sort};
pub use typed::Typed;

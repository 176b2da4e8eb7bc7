//! Bounds of linear forms with undo, as a simplex uses them.
//!
//! A form is a variable of the [`Trail`]. Bounds of it are asserted, from below and from above, and taken back to a mark, the newest
//! first. The tightest ones stand. A lower one and an upper one that leave no value clash, and the caller's two reasons are told.
#![tactic(auto)]

mod limits;
mod trail;

pub use limits::{AssertOutcome, Limit, Reason, Side, Var};
pub use trail::Trail;

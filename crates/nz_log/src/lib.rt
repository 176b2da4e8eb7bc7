//! The proof kernel: the only place where a clause can come from. Each clause of a log follows, by given assertions, gates, linear
//! arithmetic and resolution, from the assertions that are live at its level, and the log tells how.
#![tactic(auto)]

mod atoms;
mod axioms;
mod integers;
pub mod laws;
mod lits;
mod log;
mod marks;
mod multiples;
mod origins;
mod resolvent;
mod rows;
mod sets;
mod steps;
mod sums;

pub use atoms::Atom;
pub use lits::{AtomId, Lit};
pub use log::Log;
pub use multiples::LitMultiple;
pub use origins::{ClauseId, Link, Subject};
pub use steps::{Literal, LiteralMultiple, Step};

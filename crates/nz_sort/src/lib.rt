//! The live state: which commands are accepted, and what they leave of it.
//!
//! A term is made in the one table of terms, whose numbers the live state keeps. A refused command leaves both as they were.
#![tactic(auto)]

mod acts;
mod assuming;
mod items;
mod levels;
mod limits;
mod live;

pub use acts::{Act, Info};
pub use items::{Accepted, Goal, Wish};
pub use levels::Level;
pub use live::Live;

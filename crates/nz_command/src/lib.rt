//! Commands as they are written: what a tree is as a command and as a term, if it is one.
//!
//! What comes of a tree borrows its names and its trees from it.
#![tactic(auto)]

mod command;
mod expression;
mod grammar;
mod lists;
mod names;
mod numbers;
mod parts;
mod terms;

pub use command::{
    Assumption, Attributes, Command, Direction, InfoKey, LevelCount, Parameter, Priority, Question,
    Setting, WrittenSort,
};
pub use expression::{Expression, Local, Number};
pub use grammar::parse;
pub use numbers::{NumberFaults, number_faults};

//! On which basis, and where on it, a simplex is to begin so that its first check finds no bound broken, or a few.
//!
//! A start is found by exchanges in doubles, several times, each time by another rule; the cheapest is taken. Doubles are near enough, since a simplex may
//! begin on any basis: a start is advice, and what it leaves broken a check mends, in exact numbers.
#![tactic(auto)]

mod choice;
mod elimination;
mod start;
mod system;
mod tableau;

pub use elimination::Exchange;
pub use start::{Stand, Start};
pub use system::{Cell, Form, System};

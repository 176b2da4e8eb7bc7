//! What decides and what climbs: the traits of searches and of theories, the lines that they note in a work list, and why they may end
//! with no answer.
#![tactic(auto)]

mod climb;
mod decide;
pub mod laws;
mod note;
mod stop;
mod theory;

pub use climb::{Climb, Peak, Route};
pub use decide::{Decide, Verdict};
pub use note::{Boxed, Note, StartNote};
pub use stop::Stop;
pub use theory::{NoNumbers, Theory};

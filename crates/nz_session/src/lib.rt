//! Commands in, replies out: the session of a script.
#![tactic(auto)]

mod assumed;
mod desk;
mod models;
mod session;
mod told;
mod values;

pub use session::{Fed, Session};

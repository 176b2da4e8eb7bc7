//! The engine: it decides whether asserted terms and assumed literals can all be true, by a search over their clauses.
#![tactic(auto)]

mod check;
mod engine;
mod joining;
pub mod laws;
mod levels;
mod prepared;
mod truths;

pub use engine::Engine;

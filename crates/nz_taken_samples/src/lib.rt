//! What checks ask of terms, for tests that make terms of their own.
#![tactic(auto)]

mod taken;

pub use taken::need_taken;

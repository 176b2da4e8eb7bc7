//! Laws of integers that the crates above rest on.
#![tactic(auto)]

//! Tests of `nz_command` and `nz_sort`, by public calls alone: a crate that has its tests inside is proved twice.
//!
//! Cases are tables that one loop walks, and what a call promises ends in a small function around the call: that is what makes
//! a test quick to prove.
#![tactic(auto)]

#[cfg(test)]
mod cases;
#[cfg(test)]
mod commands;
#[cfg(test)]
mod levels;
#[cfg(test)]
mod sort;
#[cfg(test)]
mod steps;
#[cfg(test)]
mod trial;

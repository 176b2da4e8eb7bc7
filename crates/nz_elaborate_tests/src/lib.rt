//! Tests of `nz_elaborate`, by public calls alone: a crate that has its tests inside is proved twice.
#![tactic(auto)]

#[cfg(test)]
mod elaborate;

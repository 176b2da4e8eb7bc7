//! Tests of the bounds with undo, by public calls alone: a crate that has its tests inside is proved twice.
#![tactic(auto)]

#[cfg(test)]
mod bounds;
#[cfg(test)]
mod plain;

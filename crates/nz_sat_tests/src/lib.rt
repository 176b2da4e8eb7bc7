//! Tests of the search by clause learning, by public calls alone: a crate that has its tests inside is proved twice.
#![tactic(auto)]

#[cfg(test)]
mod acts;
#[cfg(test)]
mod problem;
#[cfg(test)]
mod sat;

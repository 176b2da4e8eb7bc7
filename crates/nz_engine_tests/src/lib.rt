//! Tests of the engine, by public calls alone: a crate that has its tests inside is proved twice.
#![tactic(auto)]

#[cfg(test)]
mod bench;
#[cfg(test)]
mod build;
#[cfg(test)]
mod formula;
#[cfg(test)]
mod levels;
#[cfg(test)]
mod lists;
#[cfg(test)]
mod rows;
#[cfg(test)]
mod trial;

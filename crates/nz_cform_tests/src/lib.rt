//! Tests of clause form, by public calls alone: a crate that has its tests inside is proved twice.
#![tactic(auto)]

#[cfg(test)]
mod acts;
#[cfg(test)]
mod bounds;
#[cfg(test)]
mod companions;
#[cfg(test)]
mod cover;
#[cfg(test)]
mod form;
#[cfg(test)]
mod rows;

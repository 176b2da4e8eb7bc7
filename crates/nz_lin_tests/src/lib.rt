//! Tests of linear forms and of bounds on them, by public calls alone: a crate that has its tests inside is proved twice.
#![tactic(auto)]

#[cfg(test)]
mod bounds;
#[cfg(test)]
mod made;
#[cfg(test)]
mod stops;
#[cfg(test)]
mod terms;

//! Tests of `nz_truth`, by public calls alone: a crate that has its tests inside is proved twice.
#![tactic(auto)]

#[cfg(test)]
mod acts;
#[cfg(test)]
mod calls;
#[cfg(test)]
mod numbers;
#[cfg(test)]
mod truth;

//! Tests of the simplex, by public calls alone.
#![tactic(auto)]

#[cfg(test)]
mod acts;
#[cfg(test)]
mod bounds;
#[cfg(test)]
mod checks;
#[cfg(test)]
mod limits;
#[cfg(test)]
mod numbers;
#[cfg(test)]
mod random;
#[cfg(test)]
mod seeded;
#[cfg(test)]
mod sums;
#[cfg(test)]
mod system;

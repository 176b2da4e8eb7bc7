//! Tests of rows, by public calls alone.
#![tactic(auto)]

#[cfg(test)]
mod exact;
#[cfg(test)]
mod seeded;
#[cfg(test)]
mod tables;

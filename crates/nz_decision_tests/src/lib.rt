//! Tests of whole runs over Bool and Real: seeded scripts against a plain second decision, by public calls alone.
#![tactic(auto)]

#[cfg(test)]
mod elimination;
#[cfg(test)]
mod patterns;
#[cfg(test)]
mod problem;
#[cfg(test)]
mod runs;
#[cfg(test)]
mod seeded;
#[cfg(test)]
mod text;

//! Tests of the theory of linear real arithmetic, by public calls alone.
#![tactic(auto)]

#[cfg(test)]
mod acts;
#[cfg(test)]
mod reals;
#[cfg(test)]
mod system;
#[cfg(test)]
mod values;

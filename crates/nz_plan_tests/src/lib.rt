//! Tests of starts, by public calls alone: no clause says which start is found.
#![tactic(auto)]

#[cfg(test)]
mod starts;

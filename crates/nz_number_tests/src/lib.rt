//! The tests of the number crates, `nz_frac` and `nz_delta`. A crate with tests in it is proved twice, with them and without;
//! here they stand alone, and try public calls.
#![tactic(auto)]

#[cfg(test)]
mod delta;
#[cfg(test)]
mod frac;

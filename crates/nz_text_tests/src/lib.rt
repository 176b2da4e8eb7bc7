//! The tests of the crates that read and write texts. A crate with tests in it is proved twice, with them and without; here they
//! stand alone, and try public calls.
#![tactic(auto)]

#[cfg(test)]
mod base;
#[cfg(test)]
mod checks;
#[cfg(test)]
mod packed;
#[cfg(test)]
mod reply;
#[cfg(test)]
mod sexpr;

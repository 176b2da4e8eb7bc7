//! The tests of the session and of whole runs, by public calls alone: a crate that has its tests inside is proved twice.
#![tactic(auto)]

#[cfg(test)]
mod checks;
#[cfg(test)]
mod command_line;
#[cfg(test)]
mod examples;
#[cfg(test)]
mod levels;
#[cfg(test)]
mod run;
#[cfg(test)]
mod session;

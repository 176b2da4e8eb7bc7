//! The definitions that every contract of this repository cites, but those of scripts and replies (`nz_script`), and the laws about them.
//!
//! A definition stands in `specs/`, over plain data, in folders by subject. A law is the contract of a function with nothing to compute.
#![tactic(auto)]

pub mod arithmetic;
pub mod basis;
pub mod climb;
pub mod computation;
pub mod deciding;
pub mod derivation;
pub mod form;
pub mod infinitesimal;
pub mod pivots;
pub mod table;
pub mod term;
pub mod work;

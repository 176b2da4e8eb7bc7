//! The definitions of scripts and of what is right to reply to them, and the laws about them.
//!
//! A definition stands in `specs/`, over plain data, in folders by subject. A law is the contract of a function with nothing to compute.
//!
//! # What a reader must believe
//!
//! `run` of `nz_run` claims that what it wrote is right for what it read. What that means stands in the files below, in the order in which they are read; with no
//! crate before them they are of `specs/` here.
//!
//! | for | files |
//! |---|---|
//! | everybody: what a text says | `text/Tree` (tokens, trees), `text/Text` (the grammar, as a relation between bytes and what is heard in them), `text/Bounds`, `text/ToldAs`, `text/Told` |
//! | whoever writes a script: what a term is, and its value | `nz_spec`: `terms/Term`, `terms/Operators`, `terms/Definitions`, `terms/Model`, `terms/Linear`, `clauses/Literal`; `commands/Expression`, `commands/Elaboration` (names in scope, `let`, uses of definitions) |
//! | whoever writes a script: what a command is, which rule it breaks first, and what it leaves | `commands/Request`, `commands/Parse`, `commands/Scoping`, `commands/Limits`, `live/Live`, `commands/Command`, `commands/Script`, `nz_spec`: `outside/Error` |
//! | whoever reads the replies | `replies/Reply` (replies with their texts), `replies/Right` (which is right where); for a value that leaves the numbers `nz_spec`: `terms/Normal`, `terms/Operations` |
//! | whoever runs the program | `run/Transcript`, `run/Run`, `nz_spec`: `outside/Outside` (sources and sinks) |
//!
//! The cause of an `unknown` alone needs, of `nz_spec`, in this order: `search/Work`, `numbers/Computation`, `terms/Form`, `terms/FormOf`, `terms/Same`, `terms/Order`, `terms/Table`, `clauses/LinearLiteral`, `clauses/Gates`,
//! `clauses/Links`, `clauses/Units`, `clauses/Farkas`, `numbers/Infinitesimal`, `simplex/Basis`, `simplex/BasisMoves`, `simplex/Bland`, `simplex/PositionMoves`, `simplex/LiteralBounds`, `simplex/Pivots`, `search/Notes`,
//! `search/Legal`, `search/Places`; and `live/TermList` here, for the terms that the checks before were asked of. Who doesn't ask why an answer is missing can leave them out.
//!
//! All else defines nothing that `run` claims: `laws` and `worked` test the definitions, `text/Reading` and `commands/Argument` are the same things as a program goes about them, with laws that say so, and `nz_spec` has besides what its
//! proof kernel and the searches promise each other (`clauses/Steps`, `clauses/Cuts`, `search/Decide`, `simplex/Climb`, `terms/WellSorted`, `terms/Taken`, `terms/OverConstants`). What a fraction is stands in `nz_fractions`.
#![tactic(auto)]

pub mod elaboration;
pub mod script;
pub mod text;
pub mod transcript;
pub mod worked;

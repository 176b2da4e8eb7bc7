//! How the clauses of a log were made.
use crate::lits::Lit;
use crate::multiples::LitMultiple;
use crate::sets::Literals;
use nz_term::TermId;

/// The number of a clause in its log.
pub type ClauseId = usize;

/// A link of a chain: the clause so far is resolved on the literal with the clause of this number, which has its negation.
#[derive(Clone, Copy, Debug, PartialEq, Eq)]
pub struct Link {
    pub clause: ClauseId,
    pub literal: Lit,
}

/// How a clause was made that holds by arithmetic alone.
#[derive(Debug, Drop)]
pub enum Axiom {
    /// It is the clause of this number of the link table of a term.
    Link(TermId, usize),
    /// It is the clause of this number of the unit table of a term.
    Unit(TermId, usize),
    /// One of these literals is false, since the sum of their multiples is a contradiction.
    Farkas(Vec<LitMultiple>),
    /// The literal says that a sum of integers is at most an integer; or it is at least the next one.
    Branch(Lit),
    /// One of these literals is false, or the sum of their multiples, which is one of integers, is within its rounded limit.
    Cut(Vec<LitMultiple>),
}

/// How a clause was made.
#[derive(Debug, Drop)]
pub enum Origin {
    /// It is the live assertion of this place.
    Assertion(usize),
    /// It is the clause of this number of a term.
    Gate(TermId, usize),
    /// It holds by arithmetic alone.
    Axiom(Axiom),
    /// It is the last of the resolvents of a clause with those of the links.
    Chain(ClauseId, Vec<Link>),
}

/// What a clause is about.
#[derive(Clone, Copy, Debug, PartialEq, Eq)]
pub enum Subject {
    /// The truth of this comparison, of which it says which bounds follow.
    Truth(TermId),
    /// It has to be true as it is: an assertion, one of a gate, or one that says what a unit is.
    Itself,
    /// It follows from others, or from arithmetic.
    Derived,
}

/// A clause as a log holds it.
#[derive(Debug, Drop)]
pub struct Stored {
    pub literals: Literals,
    pub level: usize,
    pub origin: Origin,
}

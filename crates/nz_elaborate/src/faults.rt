//! The rules that a term may break, in their order, and what is found of one.
ghost use Rattle.std.specs.Prelude.{◌≡◌, [], None, Some, IfOk, OnOk};
ghost use Rattle.nz_elaborate.specs.Faults.{Answers, after, clash_fault, error_of, fault_in, first, joined as joined_by, term_in_found, terms_with};

use crate::typed::{ApplyError, Typed};
use nz_base::{Error, Memory};
use std::alloc::{AllocFailed, Global};

/// Why a term isn't elaborated: the first rule that it breaks.
#[derive(Clone, Copy, Debug, PartialEq, Eq)]
pub enum ElaborateError {
    /// A name isn't in scope.
    Unknown,
    /// Names that are bound together clash: two are one, or one is an operator's.
    Clash,
    /// A count of arguments or a sort doesn't fit.
    Sort,
    /// There was no memory for it.
    Memory,
}

impl From<Memory> for ElaborateError {
    ghost use Rattle.nz_elaborate.specs.declared.faults.ElaborateError.TheVariants as errors;

    ghost from_gives = { λ _ r. r ≡ errors.Memory };

    fn from(_memory: Memory) -> ElaborateError {
        ElaborateError::Memory
    }
}

impl<T: Drop> From<AllocFailed<T>> for ElaborateError {
    ghost use Rattle.nz_elaborate.specs.declared.faults.ElaborateError.TheVariants as errors;

    ghost from_gives = { λ _ r. r ≡ errors.Memory };

    fn from(_error: AllocFailed<T>) -> ElaborateError {
        ElaborateError::Memory
    }
}

impl From<ElaborateError> for Error {
    ghost use Rattle.nz_elaborate.specs.Faults.{refusal_by};

    ghost from_gives = { λ error refusal. refusal ≡ refusal_by error };

    fn from(error: ElaborateError) -> Error {
        match error {
            ElaborateError::Unknown => Error::UnknownSymbol,
            ElaborateError::Clash => Error::AlreadyDeclared,
            ElaborateError::Sort => Error::Sort,
            ElaborateError::Memory => Error::OutOfMemory,
        }
    }
}

/// A rule that a term breaks, the first first.
#[derive(Clone, Copy, Debug, PartialEq, Eq)]
pub(crate) enum Fault {
    Unknown,
    Clash,
    Sort,
}

impl Fault {
    /// The first of the faults.
    pub(crate) fn first(self, other: Option<Fault>) -> Fault
        ensures first { result ≡ first self other }
    {
        match (self, other) {
            (Fault::Unknown, _) | (_, Some(Fault::Unknown)) => Fault::Unknown,
            (Fault::Clash, _) | (_, Some(Fault::Clash)) => Fault::Clash,
            (Fault::Sort, _) => Fault::Sort,
        }
    }

    /// The error that it is.
    pub(crate) fn error(self) -> ElaborateError
        ensures error { result ≡ error_of self }
    {
        match self {
            Fault::Unknown => ElaborateError::Unknown,
            Fault::Clash => ElaborateError::Clash,
            Fault::Sort => ElaborateError::Sort,
        }
    }
}

/// The first of the faults, if there is one.
pub(crate) fn joined(left: Option<Fault>, right: Option<Fault>) -> Option<Fault>
    ensures joined { result ≡ joined_by left right }
{
    match left {
        Some(fault) => Some(fault.first(right)),
        None => right,
    }
}

/// The fault of names of which some clash, or none do.
pub(crate) fn clashing(clash: bool) -> Option<Fault>
    ensures fault { result ≡ clash_fault clash }
{
    clash.then_some(Fault::Clash)
}

/// What is found of a term that is written: its normal term, or the first rule that it breaks.
#[derive(Clone, Copy, Debug, PartialEq, Eq)]
pub(crate) enum Found {
    Term(Typed),
    Fault(Fault),
}

impl Found {
    pub(crate) fn fault(self) -> Option<Fault>
        ensures fault { result ≡ fault_in self }
    {
        match self {
            Found::Term(_) => None,
            Found::Fault(fault) => Some(fault),
        }
    }

    pub(crate) fn term(self) -> Option<Typed>
        ensures term { result ≡ term_in_found self }
    {
        match self {
            Found::Term(term) => Some(term),
            Found::Fault(_) => None,
        }
    }

    /// The same behind what may have a fault.
    pub(crate) fn after(self, fault: Option<Fault>) -> Found
        ensures after { result ≡ after fault self }
    {
        match fault {
            Some(fault) => Found::Fault(fault.first(self.fault())),
            None => self,
        }
    }

    /// The term, or the error of its fault.
    pub(crate) fn settled(self) -> Result<Typed, ElaborateError>
        ensures answer { Answers (fault_in self) result }
        ensures term { IfOk result (λ x. term_in_found self ≡ Some x) }
    {
        match self {
            Found::Term(term) => Ok(term),
            Found::Fault(fault) => Err(fault.error()),
        }
    }
}

/// Terms one after another, and the first fault that was found among them.
#[derive(Drop)]
pub(crate) struct FoundAll {
    pub terms: Vec<Typed>,
    pub fault: Option<Fault>,
}

impl FoundAll {
    /// None yet. The memory for so many is asked for at once.
    pub(crate) fn with_capacity(alloc: Global, count: usize) -> Result<FoundAll, Memory>
        ensures empty { IfOk result (λ all. all.terms.items ≡ []) }
        ensures fault { IfOk result (λ all. all.fault ≡ None) }
    {
        Ok(FoundAll {
            terms: Vec::with_capacity(alloc, count)?,
            fault: None,
        })
    }

    /// Puts what is found of one more term behind these.
    pub(crate) fn add(&mut self, found: Found) -> Result<(), Memory>
        ensures fault { OnOk result (self.new.fault ≡ joined_by self.old.fault (fault_in found)) }
        ensures terms { OnOk result (self.new.terms.items ≡ terms_with self.old.terms.items found) }
    {
        match found {
            Found::Term(term) => self.terms.push(term)?,
            Found::Fault(fault) => self.fault = joined(self.fault, Some(fault)),
        }
        Ok(())
    }

    /// The terms, or the error of the first fault.
    pub(crate) fn settled(self) -> Result<Vec<Typed>, ElaborateError>
        ensures answer { Answers self.fault result }
        ensures terms { IfOk result (λ xs. xs.items ≡ self.terms.items) }
    {
        let FoundAll { terms, fault } = self;
        match fault {
            Some(fault) => Err(fault.error()),
            None => Ok(terms),
        }
    }
}

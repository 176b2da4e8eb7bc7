//! The log of clauses.
ghost use Rattle.std.specs.Prelude.{◌≡◌, ℕ, ◌^◌, ◌<◌, ◌≤◌, List, length, false, option_copied, Some, OnOk, OnErr, IfOk, IfSome, IsOkAnd, slice_get};
ghost use Rattle.nz_spec.specs.terms.Table.{Node};
ghost use Rattle.nz_lin.specs.Bounds.{HasUnits, literal_over};
ghost use Rattle.nz_log.specs.declared.atoms.Atom.TheVariants.{AtMost};
ghost use Rattle.nz_log.specs.Atoms.{AreAtoms, HasTerm, IsFoundTerm, IsLitIn, JoinOnly, literal_in, term_place};
ghost use Rattle.nz_log.specs.Logs.{IsLive, JoinsAtoms, Puts, RestsOn, empty_log, entry_at, level_at, literals_at, subject_at};
ghost use Rattle.nz_log.specs.Spelling.{AreStepsOf, literal_read};
ghost use Rattle.nz_log.specs.Stored.{entry_of, origin_of};

mod chains;
mod dropping;
mod leaves;
mod levels;
mod names;

use crate::atoms::{Atom, Atoms};
use crate::lits::{AtomId, Lit};
use crate::origins::{Axiom, ClauseId, Origin, Stored, Subject};
use crate::resolvent::Resolvent;
use crate::steps::{Literal, Step, spelled};
use nz_base::Memory;
use nz_lin::Bound;
use nz_term::{TermId, TermLit};
use std::alloc::Global;
use std::marker::Model;

/// A log of clauses. A contract sees the clauses by number, the levels told of terms, and the atoms by number.
#[derive(Debug, Drop)]
pub struct Log {
    // In the order in which they were made, with a gap where one was dropped: a clause rests on earlier ones.
    clauses: Vec<Option<Stored>>,
    // By the numbers of terms.
    told: Vec<Option<usize>>,
    // What literals name. They stay when clauses are dropped.
    atoms: Atoms,
    // Of a chain while it is made. Between calls it has no literals.
    resolvent: Resolvent,
}

impl Model for Log {
    ghost use Rattle.nz_log.specs.Logs.{IsOrdered, LogState};

    ghost Value = { LogState };

    ghost use Rattle.std.specs.Prelude.{◌≡◌, []};
    ghost use Rattle.nz_log.specs.Stored.{log_of};

    ghost view = { λ l. log_of l.clauses.items l.told.items l.atoms };

    ghost invariant = { λ l. IsOrdered (log_of l.clauses.items l.told.items l.atoms) × (l.resolvent ≡ []) };
}

impl Log {
    /// A log without clauses and atoms, in which no level was told. Takes no memory.
    pub fn new(alloc: Global) -> Result<Log, Memory>
        ensures empty { IsOkAnd result (λ l. l ≡ empty_log) }
    {
        Ok(Log {
            clauses: Vec::new(alloc),
            told: Vec::new(alloc),
            atoms: Atoms::new(alloc),
            resolvent: Resolvent::new(alloc),
        })
    }

    /// Where memory comes from.
    pub(crate) fn alloc(&self) -> Global {
        *self.clauses.allocator()
    }

    /// The number of the atom that a Boolean term is true, which joins the others where it isn't there.
    ///
    /// # Errors
    ///
    /// `Memory`. Then the log is as before.
    pub fn term_atom(&mut self, term: TermId) -> Result<AtomId, Memory>
        ensures number { IfOk result (λ id. id ≡ term_place self.new.atoms term) }
        ensures small { IfOk result (λ id. id < 2 ^ 31) }
        ensures there { OnOk result (HasTerm self.new.atoms term) }
        ensures joins { JoinsAtoms self.old self.new }
        ensures only { IfOk result (λ id. JoinOnly self.old.atoms self.new.atoms (λ i. i ≡ id)) }
        ensures atoms { AreAtoms self.new.atoms }
        ensures unchanged { OnErr result (self.new ≡ self.old) }
    {
        self.atoms.put(Atom::Term(term))
    }

    /// The literal of a bound. Where that isn't strict, it is on its atom, and else on that of its negation; the atom joins the others where
    /// it isn't there.
    ///
    /// # Errors
    ///
    /// `Memory`. Then the log is as before.
    pub fn bound_literal(&mut self, bound: Bound) -> Result<Lit, Memory>
        ensures literal { IfOk result (λ l. (ns : List Node) → literal_in ns self.new.atoms l ≡ literal_over ns bound) }
        ensures within { IfOk result (λ l. (ns : List Node) → HasUnits ns bound → IsLitIn ns self.new.atoms l) }
        ensures joins { JoinsAtoms self.old self.new }
        ensures only { IfOk result (λ l. JoinOnly self.old.atoms self.new.atoms (λ i. i ≡ l.atom)) }
        ensures atoms { AreAtoms self.new.atoms }
        ensures unchanged { OnErr result (self.new ≡ self.old) }
    {
        self.atom_count();
        if bound.is_strict() {
            let other = bound.not(self.alloc())?;
            let atom = self.bound_atom(other)?;
            Ok(Lit::new(atom, false))
        } else {
            let atom = self.bound_atom(bound)?;
            Ok(Lit::new(atom, true))
        }
    }

    /// The number of the atom that a sum is at most a limit, which joins the others where it isn't there.
    fn bound_atom(&mut self, bound: Bound) -> Result<AtomId, Memory>
        requires normal { bound.strict ≡ false }
        ensures small { IfOk result (λ id. id < 2 ^ 31) }
        ensures there { IfOk result (λ id. slice_get self.new.atoms id ≡ Some (AtMost bound)) }
        ensures joins { JoinsAtoms self.old self.new }
        ensures only { IfOk result (λ id. JoinOnly self.old.atoms self.new.atoms (λ i. i ≡ id)) }
        ensures atoms { AreAtoms self.new.atoms }
        ensures unchanged { OnErr result (self.new ≡ self.old) }
    {
        self.atoms.put(Atom::AtMost(bound))
    }

    /// The number of the atom that a Boolean term is true, where it is there.
    pub fn find_term(&self, term: TermId) -> Option<AtomId>
        ensures found { IsFoundTerm self.now.atoms term result }
        ensures small { IfSome result (λ id. id < 2 ^ 31) }
    {
        self.atoms.find_term(term)
    }

    /// The atom of a number.
    pub fn atom(&self, id: AtomId) -> &Atom
        requires within { id < length self.now.atoms }
        ensures atom { slice_get self.now.atoms id ≡ Some result.now }
    {
        self.atoms.at(id)
    }

    /// How many atoms there are. Their numbers are those below it.
    pub fn atom_count(&self) -> usize
        ensures count { result ≡ length self.now.atoms }
        ensures small { result ≤ 2 ^ 31 }
        ensures atoms { AreAtoms self.now.atoms }
    {
        self.atoms.len()
    }

    /// The atom of a literal, if it is there.
    pub(crate) fn atom_of(&self, literal: Lit) -> Option<&Atom>
        ensures atom { option_copied result ≡ slice_get self.now.atoms literal.atom }
    {
        self.atoms.get(literal.atom())
    }

    /// What a literal says. A number past the end stands for the first term.
    pub fn literal(&self, literal: Lit) -> Literal<'_>
        ensures reads { (ns : List Node) → literal_read ns result ≡ literal_in ns self.now.atoms literal }
    {
        match self.atom_of(literal) {
            Some(atom) => Literal::of(atom, literal.sign()),
            None => Literal::Term(TermLit {
                term: 0,
                sign: literal.sign(),
            }),
        }
    }

    /// Puts a clause under a number that had none.
    fn put(&mut self, stored: Stored) -> Result<ClauseId, Memory>
        requires rests { (id : ℕ) → ((i : ℕ) → IsLive self.old i → i < id) → RestsOn self.old id stored.level (origin_of stored.origin) }
        ensures made { IfOk result (λ id. Puts self.old id (entry_of stored) self.new) }
        ensures unchanged { OnErr result (self.new ≡ self.old) }
        ensures atoms { self.new.atoms ≡ self.old.atoms }
    {
        let id = self.clauses.len();
        self.clauses.push(Some(stored))?;
        Ok(id)
    }

    /// How many numbers of clauses there are.
    pub(crate) fn places(&self) -> usize
        ensures places { result ≡ length self.now.entries }
    {
        self.clauses.len()
    }

    /// The clause of a number.
    pub(crate) fn stored(&self, id: ClauseId) -> &Stored
        requires live { IsLive self.now id }
        ensures stored { entry_at self.now id ≡ Some (entry_of result.now) }
        ensures inside { id < length self.now.entries }
        ensures rests { RestsOn self.now id result.now.level (origin_of result.now.origin) }
    {
        match &self.clauses[id] {
            Some(stored) => stored,
            None => unreachable!(),
        }
    }

    /// The literals of a clause, each of them once.
    pub fn clause(&self, id: ClauseId) -> &[Lit]
        requires live { IsLive self.now id }
        ensures literals { result.now ≡ literals_at self.now id }
    {
        self.stored(id).literals.as_slice()
    }

    /// The level of a clause: it follows from the assertions that are live there.
    pub fn level(&self, id: ClauseId) -> usize
        requires live { IsLive self.now id }
        ensures level { result ≡ level_at self.now id }
    {
        self.stored(id).level
    }

    /// What a clause is about.
    pub fn subject(&self, id: ClauseId) -> Subject
        requires live { IsLive self.now id }
        ensures subject { result ≡ subject_at self.now id }
    {
        match &self.stored(id).origin {
            Origin::Assertion(_) | Origin::Gate(..) | Origin::Axiom(Axiom::Unit(..)) => {
                Subject::Itself
            }
            Origin::Axiom(Axiom::Link(term, _)) => Subject::Truth(*term),
            Origin::Axiom(_) | Origin::Chain(..) => Subject::Derived,
        }
    }

    /// The derivation of a clause: steps, numbered from 0, of which the last gives the clause, and each other one a clause that it
    /// rests on.
    ///
    /// # Errors
    ///
    /// `Memory`.
    pub fn steps(&self, id: ClauseId) -> Result<Vec<Step<'_>>, Memory>
        requires live { IsLive self.now id }
        ensures derives { IfOk result (λ steps. AreStepsOf self.now id steps.items) }
    {
        spelled(self.alloc(), self, id)
    }
}

//! Levels told of terms, and the level that a clause has by the terms that it names.
ghost use Rattle.std.specs.Prelude.{◌≡◌, ◌≢◌, ℕ, List, slice_index_or, None, Some, OnOk, OnErr};
ghost use Rattle.nz_spec.specs.terms.Table.{Node};
ghost use Rattle.nz_log.specs.Atoms.{terms_at, unit_numbers};
ghost use Rattle.nz_log.specs.Logs.{level_of_terms, level_with, lowest, told_level, told_of};
ghost use Rattle.nz_log.specs.Sound.{IsLog};

use super::Log;
use crate::atoms::Atom;
use crate::lits::Lit;
use nz_base::Memory;
use nz_lin::Part;
use nz_term::TermId;

impl Log {
    /// Tells the level of a term, before a rule names it. The lowest level told stands.
    ///
    /// # Errors
    ///
    /// `Memory`. Then what was told before stands.
    pub fn place(&mut self, term: TermId, level: usize) -> Result<(), Memory>
        ensures told { OnOk result (told_of self.new term ≡ Some (lowest (told_of self.old term) level)) }
        ensures others { (t : ℕ) → t ≢ term → told_of self.new t ≡ told_of self.old t }
        ensures clauses { self.new.entries ≡ self.old.entries }
        ensures atoms { self.new.atoms ≡ self.old.atoms }
        ensures unchanged { OnErr result (self.new ≡ self.old) }
        // The log stays in order.
        ensures sound { (ns : List Node) (levels : List (List ℕ)) → IsLog ns levels self.old → IsLog ns levels self.new }
    {
        tell(&mut self.told, term, level)
    }

    /// The greatest of a level and those told of the terms that the literals name.
    pub(super) fn level_with(&self, level: usize, literals: &[Lit]) -> usize
        ensures level { result ≡ level_with self.now level literals.now }
    {
        let mut greatest = level;
        for literal in literals {
            greatest = self.level_of_literal(greatest, *literal);
        }
        greatest
    }

    /// The greatest of a level and those told of the terms that a literal names.
    fn level_of_literal(&self, level: usize, literal: Lit) -> usize
        ensures level { result ≡ level_of_terms self.now level (terms_at self.now.atoms literal) }
    {
        match self.atom_of(literal) {
            Some(Atom::Term(term)) => level.max(self.told_level(*term)),
            Some(Atom::AtMost(bound)) => self.level_of_units(level, bound.parts()),
            None => level,
        }
    }

    /// The greatest of a level and those told of these units.
    fn level_of_units(&self, level: usize, parts: &[Part]) -> usize
        ensures level { result ≡ level_of_terms self.now level (unit_numbers parts.now) }
    {
        let mut greatest = level;
        for part in parts {
            greatest = greatest.max(self.told_level(part.unit));
        }
        greatest
    }

    /// The level told of a term, 0 where none was told.
    fn told_level(&self, term: TermId) -> usize
        ensures told { result ≡ told_level self.now term }
    {
        match self.told.get(term) {
            Some(Some(level)) => *level,
            _ => 0,
        }
    }
}

/// Tells a level of a term, where none lower was told.
fn tell(told: &mut Vec<Option<usize>>, term: TermId, level: usize) -> Result<(), Memory>
    ensures told { OnOk result (slice_index_or told.new.items term None ≡ Some (lowest (slice_index_or told.old.items term None) level)) }
    ensures others { (t : ℕ) → t ≢ term → slice_index_or told.new.items t None ≡ slice_index_or told.old.items t None }
    ensures unchanged { OnErr result (told.new.items ≡ told.old.items) }
{
    let Some(count) = term.checked_add(1) else {
        return Err(Memory);
    };
    if told.len() < count {
        told.resize(count, None)?;
    }
    told[term] = Some(match told[term] {
        Some(lower) => lower.min(level),
        None => level,
    });
    Ok(())
}

//! Atoms of terms, and literals on them, as they join the log's atoms.
ghost use Rattle.std.specs.Prelude.{◌≡◌, map, All, Contains, OnOk, IfOk};
ghost use Rattle.nz_log.specs.Atoms.{AreAtoms, HasTerm, IsAtomOf, JoinOnly, lit_of, lits_of, term_place};
ghost use Rattle.nz_log.specs.Logs.{JoinsAtoms};

use super::Log;
use crate::lits::{AtomId, Lit};
use nz_base::Memory;
use nz_term::{TermId, TermLit};

impl Log {
    /// The numbers of the atoms of these terms, which join the others where they aren't there.
    ///
    /// # Errors
    ///
    /// `Memory`. Then at most atoms have joined the others.
    pub fn term_atoms(&mut self, terms: &[TermId]) -> Result<Vec<AtomId>, Memory>
        ensures numbers { IfOk result (λ v. v.items ≡ map (term_place self.new.atoms) terms.now) }
        ensures there { OnOk result (All (HasTerm self.new.atoms) terms.now) }
        ensures joins { JoinsAtoms self.old self.new }
        ensures only { IfOk result (λ v. JoinOnly self.old.atoms self.new.atoms (Contains v.items)) }
        ensures atoms { AreAtoms self.new.atoms }
    {
        self.atom_count();
        let mut atoms = Vec::new(self.alloc());
        for term in terms {
            let atom = self.term_atom(*term)?;
            atoms.push(atom)?;
        }
        Ok(atoms)
    }

    /// The literals on these terms, whose atoms join the others where they aren't there.
    ///
    /// # Errors
    ///
    /// `Memory`. Then at most atoms have joined the others.
    #[tactic(auto, using(crate::proofs::JoinedAtoms::joins_twice))]
    pub fn lits_of(&mut self, clause: &[TermLit]) -> Result<Vec<Lit>, Memory>
        ensures literals { IfOk result (λ v. v.items ≡ lits_of self.new.atoms clause.now) }
        ensures there { OnOk result (All (λ l. HasTerm self.new.atoms l.term) clause.now) }
        ensures joins { JoinsAtoms self.old self.new }
        ensures only { IfOk result (λ v. JoinOnly self.old.atoms self.new.atoms (IsAtomOf v.items)) }
        ensures atoms { AreAtoms self.new.atoms }
    {
        self.atom_count();
        let mut literals = Vec::new(self.alloc());
        for literal in clause {
            let next = self.term_lit(*literal)?;
            literals.push(next)?;
        }
        Ok(literals)
    }

    /// The literal on a term.
    pub(crate) fn term_lit(&mut self, literal: TermLit) -> Result<Lit, Memory>
        ensures literal { IfOk result (λ l. l ≡ lit_of self.new.atoms literal) }
        ensures there { OnOk result (HasTerm self.new.atoms literal.term) }
        ensures joins { JoinsAtoms self.old self.new }
        ensures only { IfOk result (λ l. JoinOnly self.old.atoms self.new.atoms (λ i. i ≡ l.atom)) }
        ensures atoms { AreAtoms self.new.atoms }
    {
        let atom = self.term_atom(literal.term)?;
        Ok(Lit::new(atom, literal.sign))
    }
}

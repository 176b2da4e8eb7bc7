//! Clauses by the rows of the link table and of the unit table.
ghost use Rattle.std.specs.Prelude.{◌<◌, ◌≡◌, ℕ, List, length, IfOk, OnErr};
ghost use Rattle.nz_spec.specs.clauses.Links.{IsArithmetic};
ghost use Rattle.nz_spec.specs.terms.Order.{HasCompanions};
ghost use Rattle.nz_spec.specs.terms.Table.{Node, term_in};
ghost use Rattle.nz_rows.specs.Rows.{AreRowLiteralsIn, IsRowAt, IsRowLiteralIn, link_rows, row_literal_in, unit_rows};
ghost use Rattle.nz_log.specs.Atoms.{AreAtoms, IsAtomOf, IsLitIn, JoinOnly, literal_in};
ghost use Rattle.nz_log.specs.Axioms.{link_of, unit_of};
ghost use Rattle.nz_log.specs.Logs.{AreLitsOf, JoinsAtoms, PutsAxiom, PutsRow, literals_at};
ghost use Rattle.nz_log.specs.Sound.{IsLog};
ghost use Rattle.nz_log.specs.Stored.{axiom_in};

use crate::lits::Lit;
use crate::log::Log;
use crate::origins::{Axiom, ClauseId};
use nz_base::Memory;
use nz_rows::RowLiteral;
use nz_spec::derivation::tells_literals;
use nz_spec::form::term_has_its_number;
use nz_spec::table::{one_number, term_of_node, term_stays};
use nz_term::{TermId, Terms, known_table};

impl Log {
    /// The clause of this row, of this number, of a term of the link table.
    ///
    /// # Errors
    ///
    /// `Memory`. Then at most atoms have joined the others.
    pub fn link(
        &mut self,
        terms: &Terms,
        term: TermId,
        j: usize,
        row: Vec<RowLiteral>,
    ) -> Result<ClauseId, Memory>
        requires within { term < length terms.now }
        requires companions { HasCompanions terms.now }
        requires row { IsRowAt terms.now (link_rows terms.now (term_in terms.now term)) j row.items }
        ensures made { IfOk result (λ id. PutsAxiom terms.now self.old id (link_of term j) self.new) }
        ensures atoms { AreAtoms self.new.atoms }
        ensures only { IfOk result (λ id. JoinOnly self.old.atoms self.new.atoms (IsAtomOf (literals_at self.new id))) }
        ensures unchanged { OnErr result (JoinsAtoms self.old self.new) }
        // Where the arguments have values of their sorts, the log stays in order.
        ensures sound { (levels : List (List ℕ)) → IsArithmetic (term_in terms.now term) → IsLog terms.now levels self.old → IsLog terms.now levels self.new }
    {
        tells_literals();
        one_number();
        term_has_its_number();
        term_of_node();
        term_stays();
        known_table(terms);
        self.put_row(row, Axiom::Link(term, j))
    }

    /// The clause of this row, of this number, of a term of the unit table.
    ///
    /// # Errors
    ///
    /// `Memory`. Then at most atoms have joined the others.
    pub fn unit_axiom(
        &mut self,
        terms: &Terms,
        term: TermId,
        j: usize,
        row: Vec<RowLiteral>,
    ) -> Result<ClauseId, Memory>
        requires within { term < length terms.now }
        requires companions { HasCompanions terms.now }
        requires row { IsRowAt terms.now (unit_rows terms.now (term_in terms.now term)) j row.items }
        ensures made { IfOk result (λ id. PutsAxiom terms.now self.old id (unit_of term j) self.new) }
        ensures atoms { AreAtoms self.new.atoms }
        ensures only { IfOk result (λ id. JoinOnly self.old.atoms self.new.atoms (IsAtomOf (literals_at self.new id))) }
        ensures unchanged { OnErr result (JoinsAtoms self.old self.new) }
        // Where the arguments have values of their sorts, the log stays in order.
        ensures sound { (levels : List (List ℕ)) → IsArithmetic (term_in terms.now term) → IsLog terms.now levels self.old → IsLog terms.now levels self.new }
    {
        tells_literals();
        one_number();
        term_has_its_number();
        term_of_node();
        term_stays();
        known_table(terms);
        self.put_row(row, Axiom::Unit(term, j))
    }

    /// Puts the clause of a row, whose atoms join the others where they aren't there.
    fn put_row(&mut self, row: Vec<RowLiteral>, reason: Axiom) -> Result<ClauseId, Memory>
        ensures made { IfOk result (λ id. PutsRow self.old id (axiom_in reason) row.items self.new) }
        ensures atoms { AreAtoms self.new.atoms }
        ensures only { IfOk result (λ id. JoinOnly self.old.atoms self.new.atoms (IsAtomOf (literals_at self.new id))) }
        ensures unchanged { OnErr result (JoinsAtoms self.old self.new) }
    {
        let literals = self.row_lits(row)?;
        self.put_axiom(&literals, reason)
    }

    /// The literals of a row, whose atoms join the others where they aren't there.
    #[tactic(auto, using(crate::proofs::JoinedAtoms::joins_twice))]
    fn row_lits(&mut self, row: Vec<RowLiteral>) -> Result<Vec<Lit>, Memory>
        ensures literals { IfOk result (λ v. (ns : List Node) → AreRowLiteralsIn ns row.items → AreLitsOf ns self.new.atoms row.items v.items) }
        ensures joins { JoinsAtoms self.old self.new }
        ensures only { IfOk result (λ v. JoinOnly self.old.atoms self.new.atoms (IsAtomOf v.items)) }
        ensures atoms { AreAtoms self.new.atoms }
    {
        self.atom_count();
        let mut literals = Vec::new(self.alloc());
        for said in row {
            let literal = self.row_lit(said)?;
            literals.push(literal)?;
        }
        Ok(literals)
    }

    /// The literal of a row.
    fn row_lit(&mut self, said: RowLiteral) -> Result<Lit, Memory>
        ensures literal { IfOk result (λ l. (ns : List Node) → literal_in ns self.new.atoms l ≡ row_literal_in ns said) }
        ensures within { IfOk result (λ l. (ns : List Node) → IsRowLiteralIn ns said → IsLitIn ns self.new.atoms l) }
        ensures joins { JoinsAtoms self.old self.new }
        ensures only { IfOk result (λ l. JoinOnly self.old.atoms self.new.atoms (λ i. i ≡ l.atom)) }
        ensures atoms { AreAtoms self.new.atoms }
    {
        match said {
            RowLiteral::Term(literal) => self.term_lit(literal),
            RowLiteral::Bound(bound) => self.bound_literal(bound),
        }
    }
}

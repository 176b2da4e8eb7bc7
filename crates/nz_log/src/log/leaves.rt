//! Clauses that rest on no other: live assertions, and clauses of the gate table.
ghost use Rattle.std.specs.Prelude.{◌≡◌, ℕ, ◌<◌, [], List, length, All, Some, OnOk, OnErr, IfOk, slice_get, unwrap_or};
ghost use Rattle.nz_spec.specs.terms.Table.{Node, term_in};
ghost use Rattle.nz_spec.specs.clauses.Gates.{HasBooleanArguments};
ghost use Rattle.nz_spec.specs.clauses.Literal.{once};
ghost use Rattle.nz_log.specs.Atoms.{AreAtoms, HasTerm, IsAtomOf, JoinOnly};
ghost use Rattle.nz_log.specs.Lits.{are_same_lit};
ghost use Rattle.nz_log.specs.Logs.{IsLeaf, JoinsAtoms, Puts, gate_entry, given_entry, literals_at, made_entry};
ghost use Rattle.nz_log.specs.Sound.{IsLog, live_at};
ghost use Rattle.nz_log.specs.Stored.{origin_of};
ghost use Rattle.nz_rows.specs.GateRows.{gates_at};

use super::Log;
use crate::lits::Lit;
use crate::origins::{ClauseId, Origin, Stored};
use crate::sets::set_of;
use nz_base::Memory;
use nz_spec::derivation::tells_literals;
use nz_spec::table::{one_number, term_of_node};
use nz_term::{TermId, TermLit, Terms};

impl Log {
    /// The clause that the live assertion of this place and level is true.
    ///
    /// # Errors
    ///
    /// `Memory`. Then at most an atom has joined the others.
    pub fn given(&mut self, k: usize, term: TermId, level: usize) -> Result<ClauseId, Memory>
        ensures made { IfOk result (λ id. Puts self.old id (given_entry self.new k term level) self.new) }
        ensures there { OnOk result (HasTerm self.new.atoms term) }
        ensures atoms { AreAtoms self.new.atoms }
        ensures only { IfOk result (λ id. JoinOnly self.old.atoms self.new.atoms (IsAtomOf (literals_at self.new id))) }
        ensures unchanged { OnErr result (JoinsAtoms self.old self.new) }
        // Where the assertion is the one of this place that is live at the level, the log stays in order.
        ensures sound { (ns : List Node) (levels : List (List ℕ)) → term < length ns → slice_get (live_at levels level) k ≡ Some term → IsLog ns levels self.old → IsLog ns levels self.new }
    {
        let literal = self.term_lit(TermLit::holds(term))?;
        self.put_leaf(&[literal], level, Origin::Assertion(k))
    }

    /// The clause of this row, of this number, of a term of the gate table.
    ///
    /// # Errors
    ///
    /// `Memory`. Then at most atoms have joined the others.
    pub fn gate(
        &mut self,
        terms: &Terms,
        term: TermId,
        j: usize,
        row: Vec<TermLit>,
    ) -> Result<ClauseId, Memory>
        requires within { term < length terms.now }
        requires row { slice_get (gates_at terms.now term) j ≡ Some row.items }
        ensures made { IfOk result (λ id. Puts self.old id (gate_entry terms.now self.new term j) self.new) }
        ensures there { OnOk result (All (λ l. HasTerm self.new.atoms l.term) (unwrap_or (slice_get (gates_at terms.now term) j) [])) }
        ensures atoms { AreAtoms self.new.atoms }
        ensures only { IfOk result (λ id. JoinOnly self.old.atoms self.new.atoms (IsAtomOf (literals_at self.new id))) }
        ensures unchanged { OnErr result (JoinsAtoms self.old self.new) }
        // Where the term is over Boolean ones, the log stays in order.
        ensures sound { (levels : List (List ℕ)) → HasBooleanArguments (term_in terms.now term) → IsLog terms.now levels self.old → IsLog terms.now levels self.new }
    {
        tells_literals();
        one_number();
        term_of_node();
        let within = term < terms.len();
        prove!(within);
        self.atom_count();
        let literals = self.lits_of(&row)?;
        self.put_leaf(&literals, 0, Origin::Gate(term, j))
    }

    /// Puts the clause of these literals, which rests on no other, at the greatest of a level and those told of the terms that it names.
    pub(crate) fn put_leaf(
        &mut self,
        literals: &[Lit],
        level: usize,
        origin: Origin,
    ) -> Result<ClauseId, Memory>
        requires leaf { IsLeaf (origin_of origin) }
        ensures made { IfOk result (λ id. Puts self.old id (made_entry self.old level (once are_same_lit literals.now) (origin_of origin)) self.new) }
        ensures unchanged { OnErr result (self.new ≡ self.old) }
        ensures atoms { self.new.atoms ≡ self.old.atoms }
    {
        let literals = set_of(self.alloc(), literals)?;
        let level = self.level_with(level, literals.as_slice());
        self.put(Stored {
            literals,
            level,
            origin,
        })
    }
}

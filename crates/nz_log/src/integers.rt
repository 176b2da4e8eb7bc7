//! Clauses on sums of integers: branches, and cuts by rounded sums.
ghost use Rattle.std.specs.Prelude.{◌≡◌, ℕ, List, false, IfErr, IfOk, IsTrue, OnErr};
ghost use Rattle.std.specs.List.{AllByRecursion};
ghost use Rattle.nz_spec.specs.clauses.LinearLiteral.{HaveSortedUnits, are_integral, is_whole, parts_of};
ghost use Rattle.nz_spec.specs.clauses.Steps.{branch_step, cut_step};
ghost use Rattle.nz_spec.specs.terms.Table.{IsTable, Node};
ghost use Rattle.nz_lin.specs.Bounds.{HasUnits, IsLiteral};
ghost use Rattle.nz_lin.specs.Comes.{IsOperated};
ghost use Rattle.nz_lin.specs.Forms.{parts_over};
ghost use Rattle.nz_term.specs.Stops.{IsStopAt};
ghost use Rattle.nz_log.specs.Atoms.{AreAtoms, IsAtomOf, JoinOnly, literal_in};
ghost use Rattle.nz_log.specs.Axioms.{AreMultiples, AreMultiplesIn, above_literal, first_wide_in_step, multiples_in, next_limit, sum_in};
ghost use Rattle.nz_log.specs.Logs.{JoinsAtoms, PutsBranch, PutsCut, literals_at};
ghost use Rattle.nz_log.specs.Sound.{IsLog};

use crate::log::Log;
use crate::multiples::LitMultiple;
use crate::origins::{Axiom, ClauseId};
use crate::sums::negations;
use nz_frac::{Frac, Wide};
use nz_lin::Bound;
use nz_spec::derivation::tells_literals;
use nz_spec::table::{one_number, term_stays};
use nz_term::ArithmeticStop;
use std::alloc::Global;

impl Log {
    /// The clause that a sum of integers is at most an integer, the limit of this bound, or at least the next one.
    ///
    /// # Errors
    ///
    /// `Wide` where the next integer leaves the numbers; `Memory`. Then at most atoms have joined the others.
    pub fn branch(&mut self, bound: Bound) -> Result<ClauseId, ArithmeticStop>
        requires normal { bound.strict ≡ false }
        requires integral { (ns : List Node) → HasUnits ns bound → IsTrue (are_integral (parts_over ns bound.sides.parts)) }
        requires whole { IsTrue (is_whole bound.sides.offset) }
        ensures made { IfOk result (λ id. PutsBranch self.old id bound self.new) }
        ensures stop { IfErr result (λ s. (ns : List Node) → HasUnits ns bound → IsStopAt (first_wide_in_step ns (branch_step (parts_over ns bound.sides.parts) bound.sides.offset)) s) }
        ensures atoms { AreAtoms self.new.atoms }
        ensures only { IfOk result (λ id. JoinOnly self.old.atoms self.new.atoms (IsAtomOf (literals_at self.new id))) }
        ensures unchanged { OnErr result (JoinsAtoms self.old self.new) }
        // Over a table that has the units, with values of their sorts, the log stays in order.
        ensures sound { (ns : List Node) (levels : List (List ℕ)) → HasUnits ns bound → HaveSortedUnits (parts_over ns bound.sides.parts) → IsLog ns levels self.old → IsLog ns levels self.new }
    {
        tells_literals();
        one_number();
        term_stays();
        self.atom_count();
        let other = above(self.alloc(), &bound)?;
        let first = self.bound_literal(bound)?;
        let second = self.bound_literal(other)?;
        Ok(self.put_axiom(&[first, second], Axiom::Branch(first))?)
    }

    /// The clause that one of these literals is false, or the sum of their multiples, which is one of integers, is within its rounded limit.
    ///
    /// # Errors
    ///
    /// `Wide` with the first operation of the sum, or of its rounding, that leaves the numbers; `Memory`. Then at most an atom has joined the
    /// others.
    pub fn cut(&mut self, multiples: &[LitMultiple]) -> Result<ClauseId, ArithmeticStop>
        requires multiples { (ns : List Node) → IsTable ns → AreMultiplesIn ns self.old.atoms multiples.now → AreMultiples ns self.old.atoms multiples.now }
        requires integral { (ns : List Node) → IsTable ns → AreMultiplesIn ns self.old.atoms multiples.now → IsTrue (are_integral (sum_in ns self.old.atoms multiples.now).result.parts) }
        ensures made { IfOk result (λ id. PutsCut self.old id multiples.now self.new) }
        ensures stop { IfErr result (λ s. (ns : List Node) → IsTable ns → AreMultiplesIn ns self.old.atoms multiples.now → IsStopAt (first_wide_in_step ns (cut_step (multiples_in ns self.old.atoms multiples.now))) s) }
        ensures atoms { AreAtoms self.new.atoms }
        ensures only { IfOk result (λ id. JoinOnly self.old.atoms self.new.atoms (IsAtomOf (literals_at self.new id))) }
        ensures unchanged { OnErr result (JoinsAtoms self.old self.new) }
        // Over a table that has the terms of the literals, where their units have values of their sorts, the log stays in order.
        ensures sound { (ns : List Node) (levels : List (List ℕ)) → AreMultiplesIn ns self.old.atoms multiples.now → AllByRecursion (λ m. HaveSortedUnits (parts_of (literal_in ns self.old.atoms m.literal))) multiples.now → IsLog ns levels self.old → IsLog ns levels self.new }
    {
        tells_literals();
        one_number();
        term_stays();
        self.atom_count();
        let alloc = self.alloc();
        let sum = self.sum(multiples)?;
        let limit = sum.rounded_limit()?;
        let mut literals = negations(alloc, multiples)?;
        let multiples = Vec::from_slice(alloc, multiples)?;
        let last = self.bound_literal(sum.with_limit(limit))?;
        literals.push(last)?;
        Ok(self.put_axiom(&literals, Axiom::Cut(multiples))?)
    }
}

/// A sum of integers isn't at most an integer, the limit of this bound: it is at least the next one.
fn above(alloc: Global, bound: &Bound) -> Result<Bound, ArithmeticStop>
    ensures literal { (ns : List Node) → HasUnits ns bound.now → IsLiteral ns (above_literal ns bound.now) result }
    ensures normal { IfOk result (λ b. b.strict ≡ false) }
{
    let limit = next_limit(bound.limit())?;
    Ok(bound.not(alloc)?.with_limit(limit))
}

/// What the negative of an integer is at most where the integer is above this one.
#[tactic(auto, unfolding(nz_fractions::specs::Fraction::first_wide))]
fn next_limit(limit: Frac) -> Result<Frac, Wide>
    ensures next { IsOperated (next_limit limit) result }
{
    limit.neg().sub(Frac::whole(1))
}

//! Clauses by sums of multiples of bounds.
ghost use Rattle.std.specs.Prelude.{◌≡◌, ℕ, List, IfErr, IfOk, IsTrue, OnErr, OnOk};
ghost use Rattle.nz_spec.specs.numbers.Computation.{and_then};
ghost use Rattle.nz_spec.specs.clauses.Farkas.{bound_of, bound_scaled, bounds_joined, is_contradiction};
ghost use Rattle.nz_spec.specs.terms.FormOf.{number_in};
ghost use Rattle.nz_spec.specs.clauses.Literal.{once};
ghost use Rattle.nz_spec.specs.clauses.Steps.{farkas_step};
ghost use Rattle.nz_spec.specs.terms.Table.{IsTable, Node};
ghost use Rattle.nz_lin.specs.Bounds.{HasUnits, IsBounded, bound_over};
ghost use Rattle.nz_lin.specs.Comes.{Comes};
ghost use Rattle.nz_term.specs.Stops.{IsStopAt};
ghost use Rattle.nz_log.specs.Atoms.{IsLitIn, literal_in};
ghost use Rattle.nz_log.specs.Axioms.{AreMultiples, AreMultiplesIn, IsClauseOf, farkas_of, first_wide_in_step, multiples_in, negated_lits, sum_in};
ghost use Rattle.nz_log.specs.Leveled.{AreTold};
ghost use Rattle.nz_log.specs.Lits.{are_same_lit};
ghost use Rattle.nz_log.specs.Logs.{Puts, axiom_entry};
ghost use Rattle.nz_log.specs.Sound.{IsLog};
ghost use Rattle.nz_log.specs.Growth.{Grows};

use crate::atoms::Atom;
use crate::lits::Lit;
use crate::log::Log;
use crate::multiples::LitMultiple;
use crate::origins::{Axiom, ClauseId};
use nz_base::Memory;
use nz_lin::Bound;
use nz_spec::derivation::tells_literals;
use nz_spec::table::{one_number, term_stays};
use nz_term::ArithmeticStop;
use std::alloc::Global;

impl Log {
    /// The clause that one of these literals is false, since the sum of their multiples is a contradiction.
    ///
    /// # Errors
    ///
    /// `Wide` with the first operation of the sum that leaves the numbers; `Memory`. Then the log is as before.
    pub fn farkas(&mut self, multiples: &[LitMultiple]) -> Result<ClauseId, ArithmeticStop>
        requires multiples { (ns : List Node) → IsTable ns → AreMultiplesIn ns self.old.atoms multiples.now → AreMultiples ns self.old.atoms multiples.now }
        requires contradiction { (ns : List Node) → IsTable ns → AreMultiplesIn ns self.old.atoms multiples.now → IsTrue (is_contradiction (sum_in ns self.old.atoms multiples.now).result) }
        ensures made { IfOk result (λ id. Puts self.old id (axiom_entry self.new (farkas_of multiples.now) (once are_same_lit (negated_lits multiples.now))) self.new) }
        ensures clause { OnOk result ((ns : List Node) → IsTable ns → AreMultiplesIn ns self.old.atoms multiples.now → IsClauseOf ns self.new.atoms (farkas_of multiples.now) (once are_same_lit (negated_lits multiples.now))) }
        ensures stop { IfErr result (λ s. (ns : List Node) → IsTable ns → AreMultiplesIn ns self.old.atoms multiples.now → IsStopAt (first_wide_in_step ns (farkas_step (multiples_in ns self.old.atoms multiples.now))) s) }
        ensures atoms { self.new.atoms ≡ self.old.atoms }
        ensures unchanged { OnErr result (self.new ≡ self.old) }
        ensures grows { OnOk result (AreTold self.new (once are_same_lit (negated_lits multiples.now)) → Grows self.old self.new) }
        // Over a table that has the terms of the literals the log stays in order.
        ensures sound { (ns : List Node) (levels : List (List ℕ)) → AreMultiplesIn ns self.old.atoms multiples.now → IsLog ns levels self.old → IsLog ns levels self.new }
    {
        tells_literals();
        one_number();
        term_stays();
        self.atom_count();
        let _sum = self.sum(multiples)?;
        let alloc = self.alloc();
        let literals = negations(alloc, multiples)?;
        let multiples = Vec::from_slice(alloc, multiples)?;
        Ok(self.put_axiom(&literals, Axiom::Farkas(multiples))?)
    }

    /// The sum of these multiples. A literal on a term says nothing of a sum.
    pub(crate) fn sum(&self, multiples: &[LitMultiple]) -> Result<Bound, ArithmeticStop>
        ensures sum { (ns : List Node) → IsTable ns → AreMultiplesIn ns self.now.atoms multiples.now → IsBounded ns (sum_in ns self.now.atoms multiples.now) result }
        ensures units { IfOk result (λ b. (ns : List Node) → AreMultiplesIn ns self.now.atoms multiples.now → HasUnits ns b) }
    {
        let mut sum = Bound::empty(self.alloc());
        for multiple in multiples {
            self.add_multiple(&mut sum, *multiple)?;
        }
        Ok(sum)
    }

    /// Adds a multiple to a sum.
    fn add_multiple(&self, sum: &mut Bound, multiple: LitMultiple) -> Result<(), ArithmeticStop>
        ensures comes { (ns : List Node) → IsTable ns → HasUnits ns sum.old → IsLitIn ns self.now.atoms multiple.literal → Comes (and_then (bound_scaled multiple.multiplier (bound_of (literal_in ns self.now.atoms multiple.literal))) (λ y. bounds_joined (number_in ns) (bound_over ns sum.old) y)) (bound_over ns sum.new) result }
        ensures units { OnOk result ((ns : List Node) → HasUnits ns sum.old → IsLitIn ns self.now.atoms multiple.literal → HasUnits ns sum.new) }
    {
        let alloc = self.alloc();
        let factor = multiple.multiplier;
        match self.atom_of(multiple.literal) {
            Some(Atom::AtMost(bound)) => {
                if multiple.literal.sign() {
                    sum.join_multiple(alloc, factor, bound)
                } else {
                    sum.join_multiple(alloc, factor, &bound.not(alloc)?)
                }
            }
            Some(Atom::Term(_)) => sum.join_multiple(alloc, factor, &Bound::empty(alloc)),
            None => sum.join_multiple(alloc, factor, &Bound::empty(alloc)),
        }
    }
}

/// The negations of the literals.
pub(crate) fn negations(alloc: Global, multiples: &[LitMultiple]) -> Result<Vec<Lit>, Memory>
    ensures literals { IfOk result (λ v. v.items ≡ negated_lits multiples.now) }
{
    let mut literals = Vec::new(alloc);
    for multiple in multiples {
        literals.push(multiple.literal.not())?;
    }
    Ok(literals)
}

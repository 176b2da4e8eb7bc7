//! On which basis, and where on it, a theory begins its first search.
ghost use Rattle.std.specs.Prelude.{◌≡◌, ◌<◌, ◌≤◌, List, [], All, Contains, IfOk, IfSome, Some, false, true, length, slice_get, suc, if◌then◌else◌};
ghost use Rattle.nz_delta.specs.DeltaSpace.{infinitesimal_of};
ghost use Rattle.nz_simplex.specs.Moves.{KnowsNonbasicAlone};
ghost use Rattle.nz_spec.specs.terms.Table.{Node};
ghost use Rattle.nz_spec.specs.terms.Term.{Term};
ghost use Rattle.nz_tab.specs.Units.{is_unit_form, unit_of};
ghost use Rattle.nz_lin.specs.declared.form.Part.{Part};
ghost use Rattle.nz_reals.specs.Arranging.{AreAtomsIn, IsArranged, IsBoundAmong, IsTabledAtom, KeepsForms, MayArrange, MayExchangeOne, MayHaveExchanged, MayHaveJoined, MayHaveStood, sum_count};
ghost use Rattle.nz_reals.specs.Joins.{MayAddSum};
ghost use Rattle.nz_reals.specs.Stands.{IsOver};
ghost use Rattle.nz_reals.specs.Starts.{MayRestart};
ghost use Rattle.nz_reals.specs.Sums.{turned_sum, zero_bound};

use crate::forms::{is_unit, zeroed};
use crate::planning::{Exchanged, Plan, UnitAt, plan_start, said_at};
use crate::reals::{Reals, stored};
use nz_base::Memory;
use nz_delta::Delta;
use nz_frac::Frac;
use nz_lin::{Bound, Form, Part};
use nz_log::{Atom, AtomId, Log};
use nz_search::Stop;
use nz_spec::derivation::tells_literals;
use nz_spec::table::one_number;
use nz_trail::Var;

impl Reals {
    /// Puts a theory without forms where its first check finds no bound broken, or a few, of those that are true from the start: lets sums of these atoms
    /// join, exchanges them with units, and puts forms at bounds. Truths are by the numbers of atoms in the log. Nothing is noted, since a theory that begins
    /// anew notes its forms and where they stand. Answers how many exchanges were made: at most one for each sum that joined.
    ///
    /// # Errors
    ///
    /// `Memory`.
    pub fn arrange(
        &mut self,
        log: &Log,
        atoms: &[AtomId],
        truths: &[Option<bool>],
    ) -> Result<usize, Memory>
        requires may { MayArrange log.now.atoms atoms.now }
        // A theory that has a form is left as it is.
        ensures fresh { 0 < length self.old.simplex.forms → self.new ≡ self.old }
        ensures exchanges { IfOk result (λ n. n ≤ sum_count self.new.simplex.forms) }
        ensures over { (ns : List Node) → AreAtomsIn ns log.now.atoms atoms.now → IsOver self.old ns → IsOver self.new ns }
        // Where each bound is one of the tables of these terms, a search that might begin with the theory may do so still.
        ensures restarts { (ns : List Node) (ts : List Term) → AreAtomsIn ns log.now.atoms atoms.now → All (IsTabledAtom ns ts log.now.atoms) atoms.now → IsOver self.old ns → MayRestart self.old ns ts → MayRestart self.new ns ts }
    {
        stored(self);
        one_number();
        tells_literals();
        log.atom_count();
        if !self.is_fresh() {
            return Ok(0);
        }
        let plan = plan_start(self.alloc, log, atoms, truths)?;
        let followed = self.follow(log, atoms, truths, &plan);
        stored(self);
        followed
    }

    /// Whether there is no form yet, and no bound.
    fn is_fresh(&self) -> bool
        ensures fresh { result ≡ true → (length self.now.simplex.forms ≡ 0) × (length self.now.simplex.asserted ≡ 0) }
    {
        self.simplex.len() == 0 && self.simplex.mark() == 0
    }

    /// Lets what is planned join and exchanges it, and puts forms at their bounds. Answers how many exchanges were made.
    fn follow(
        &mut self,
        log: &Log,
        atoms: &[AtomId],
        truths: &[Option<bool>],
        plan: &Plan,
    ) -> Result<usize, Memory>
        requires may { MayArrange log.now.atoms atoms.now }
        requires arranged { IsArranged log.now.atoms atoms.now self.old }
        ensures arranged { IsArranged log.now.atoms atoms.now self.new }
        ensures exchanges { IfOk result (λ n. n ≤ sum_count self.new.simplex.forms) }
    {
        let mut exchanges: usize = 0;
        for exchanged in &plan.exchanges {
            let is_exchanged = self.exchange_joined(log, atoms, exchanged)?;
            exchanges = counted(exchanges, is_exchanged);
        }
        for place in &plan.stands {
            self.stand_at(log, atoms, truths, *place)?;
        }
        Ok(exchanges)
    }

    /// Lets a sum and a unit join, and exchanges them, where the sum wasn't there. Answers whether they were exchanged.
    fn exchange_joined(
        &mut self,
        log: &Log,
        atoms: &[AtomId],
        exchanged: &Exchanged,
    ) -> Result<bool, Memory>
        requires may { MayArrange log.now.atoms atoms.now }
        requires arranged { IsArranged log.now.atoms atoms.now self.old }
        ensures arranged { IsArranged log.now.atoms atoms.now self.new }
        ensures one { IfOk result (MayExchangeOne self.old self.new) }
    {
        let count = self.form_count();
        let Some(sum) = self.join_sum(log, atoms, exchanged.sum)? else {
            return Ok(false);
        };
        let Some(unit) = self.join_unit(log, atoms, exchanged.unit)? else {
            return Ok(false);
        };
        if sum < count {
            return Ok(false);
        }
        Ok(self.exchange(sum, unit))
    }

    /// Exchanges a sum with a unit, where the sum is basic and the unit isn't, unless a number would leave the fractions. Answers whether it did.
    fn exchange(&mut self, leaves: Var, enters: Var) -> bool
        requires unbounded { self.old.simplex.asserted ≡ [] }
        requires unknown { KnowsNonbasicAlone self.old.simplex }
        ensures exchanged { MayHaveExchanged self.old self.new }
        ensures sum { result ≡ true → (f : List Part) × (slice_get self.old.simplex.forms leaves ≡ Some f) × (is_unit_form f ≡ false) }
    {
        let count = self.simplex.len();
        if leaves >= count || enters >= count || is_unit(self.simplex.form(leaves)) {
            return false;
        }
        if !self.simplex.is_basic(leaves) || self.simplex.is_basic(enters) {
            return false;
        }
        self.is_known_feasible = false;
        matches!(self.simplex.exchange(leaves, enters), Ok(true))
    }

    /// Puts a form at the bound that the atom of a place says of it, where it is nonbasic.
    fn stand_at(
        &mut self,
        log: &Log,
        atoms: &[AtomId],
        truths: &[Option<bool>],
        place: usize,
    ) -> Result<(), Memory>
        requires may { MayArrange log.now.atoms atoms.now }
        requires arranged { IsArranged log.now.atoms atoms.now self.old }
        ensures arranged { IsArranged log.now.atoms atoms.now self.new }
        ensures kept { KeepsForms self.old self.new }
    {
        let Some((bound, said)) = said_at(log, atoms, truths, place) else {
            return Ok(());
        };
        if let Some(var) = self.add_bound(log, atoms, bound)? {
            self.stand(var, said.value);
        }
        Ok(())
    }

    /// Puts a form at a value, where it is nonbasic.
    fn stand(&mut self, var: Var, value: Delta)
        requires listed { var < length self.old.simplex.forms }
        requires unbounded { self.old.simplex.asserted ≡ [] }
        requires unknown { KnowsNonbasicAlone self.old.simplex }
        ensures stood { MayHaveStood self.old self.new var (infinitesimal_of value) }
    {
        if !self.simplex.is_basic(var) {
            self.is_known_feasible = false;
            self.simplex.stand(var, value);
        }
    }

    /// Lets a unit of a sum join, where it is there, and answers its number.
    fn join_unit(&mut self, log: &Log, atoms: &[AtomId], at: UnitAt) -> Result<Option<Var>, Memory>
        requires may { MayArrange log.now.atoms atoms.now }
        requires arranged { IsArranged log.now.atoms atoms.now self.old }
        ensures arranged { IsArranged log.now.atoms atoms.now self.new }
        ensures kept { KeepsForms self.old self.new }
    {
        let Some(bound) = bound_at(log, atoms, at.place) else {
            return Ok(None);
        };
        let Some(part) = part_at(bound, at.part) else {
            return Ok(None);
        };
        self.add_unit(part).map(Some)
    }

    /// Lets the sum that an atom bounds join, and answers its number. One whose row leaves the numbers is left out.
    fn join_sum(&mut self, log: &Log, atoms: &[AtomId], place: usize) -> Result<Option<Var>, Memory>
        requires may { MayArrange log.now.atoms atoms.now }
        requires arranged { IsArranged log.now.atoms atoms.now self.old }
        ensures arranged { IsArranged log.now.atoms atoms.now self.new }
        ensures kept { KeepsForms self.old self.new }
    {
        match bound_at(log, atoms, place) {
            Some(bound) => self.add_bound(log, atoms, bound),
            None => Ok(None),
        }
    }

    /// Lets the sum of one of the bounds of these atoms join, and answers its number.
    fn add_bound(
        &mut self,
        log: &Log,
        atoms: &[AtomId],
        bound: &Bound,
    ) -> Result<Option<Var>, Memory>
        requires may { MayArrange log.now.atoms atoms.now }
        requires among { IsBoundAmong log.now.atoms atoms.now bound.now }
        requires arranged { IsArranged log.now.atoms atoms.now self.old }
        ensures arranged { IsArranged log.now.atoms atoms.now self.new }
        ensures kept { KeepsForms self.old self.new }
        ensures form { IfOk result (λ r. IfSome r (λ v. slice_get self.new.simplex.forms v ≡ Some (turned_sum bound.now.sides.parts))) }
    {
        let sum = zeroed(self.alloc, bound)?;
        self.add_sum(sum)
    }

    /// Adds the unit of a part, alone.
    fn add_unit(&mut self, part: Part) -> Result<Var, Memory>
        requires may { MayAddSum self.old (unit_of part) }
        ensures joined { MayHaveJoined self.old self.new (unit_of part) }
    {
        one_number();
        let form = Form::times_unit(self.alloc, Frac::whole(1), part.unit, part.sort)?;
        self.is_known_feasible = false;
        match self.simplex.add_form(&form) {
            Ok(var) => Ok(var),
            // A unit alone has no row, so no operation leaves the numbers.
            Err(_) => Err(Memory),
        }
    }

    /// Adds a sum, where it is none of the forms, and answers its number. One whose row leaves the numbers is left out.
    fn add_sum(&mut self, sum: Bound) -> Result<Option<Var>, Memory>
        requires zero { sum ≡ zero_bound sum.sides.parts }
        requires may { MayAddSum self.old sum.sides.parts }
        ensures joined { MayHaveJoined self.old self.new sum.sides.parts }
        ensures form { IfOk result (λ r. IfSome r (λ v. slice_get self.new.simplex.forms v ≡ Some sum.sides.parts)) }
    {
        if let Some(var) = self.find(&sum)? {
            return Ok(Some(var));
        }
        match self.join(sum) {
            Ok(var) => Ok(Some(var)),
            Err(Stop::Wide(_)) => Ok(None),
            Err(_) => Err(Memory),
        }
    }
}

/// A count, with one more where something is counted.
fn counted(count: usize, is_counted: bool) -> usize
    ensures counted { result ≤ (if is_counted then suc count else count) }
{
    if is_counted {
        count.saturating_add(1)
    } else {
        count
    }
}

/// The bound of an atom, by the place of the atom in a list.
fn bound_at<'a>(log: &'a Log, atoms: &[AtomId], place: usize) -> Option<&'a Bound>
    requires within { All (λ i. i < length log.now.atoms) atoms.now }
    ensures among { IfSome result (λ b. IsBoundAmong log.now.atoms atoms.now b.now) }
{
    let id = *atoms.get(place)?;
    match log.atom(id) {
        Atom::AtMost(bound) => Some(bound),
        Atom::Term(_) => None,
    }
}

/// A part of the sum of a bound.
fn part_at(bound: &Bound, part: usize) -> Option<Part>
    ensures part { IfSome result (λ p. Contains bound.now.sides.parts p) }
{
    let part = bound.parts().get(part)?;
    Some(*part)
}

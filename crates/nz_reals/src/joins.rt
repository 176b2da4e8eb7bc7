//! Atoms that the theory learns of, and the forms that join for them.
ghost use Rattle.std.specs.Prelude.{◌≡◌, ◌==◌, ◌<◌, ◌≤◌, ◌++◌, ℕ, List, [], ◌∷◌, IfErr, IfOk, IfSome, None, Ok, OnErr, OnOk, Some, length, slice_get, false, true, if◌then◌else◌};
ghost use Rattle.nz_spec.specs.search.Search.{Task};
ghost use Rattle.nz_spec.specs.terms.Table.{Node};
ghost use Rattle.nz_lin.specs.Forms.{AreUnits};
ghost use Rattle.nz_search.specs.declared.stop.Stop.TheVariants as stop;
ghost use Rattle.nz_log.specs.Atoms.{IsLitIn};
ghost use Rattle.nz_search.specs.Standing.{Stands};
ghost use Rattle.nz_simplex.specs.Moves.{joined_over};
ghost use Rattle.nz_simplex.specs.State.{position_over};
ghost use Rattle.nz_reals.specs.Arranging.{HasMoved, IsAtZero};
ghost use Rattle.nz_reals.specs.Joins.{AddsForm, EndsJoining, IsAtomFor, IsFree, IsNamedSum, IsNumberIn, MayAddSum, NotesForm, StopsJoining};
ghost use Rattle.nz_reals.specs.Known.{known_of};
ghost use Rattle.nz_reals.specs.Stands.{HasTold, IsAt, IsOf, IsOver};
ghost use Rattle.nz_reals.specs.State.{known_at};
ghost use Rattle.nz_reals.specs.Sums.{zero_bound};
ghost use Rattle.nz_tab.specs.Units.{is_unit_form};

use crate::forms::{Bounded, is_unit, zeroed};
use crate::reals::{Reals, stored};
use crate::refute::stopped;
use nz_base::{Memory, Work};
use nz_lin::Bound;
use nz_log::{Atom, AtomId, Log};
use nz_place::Site;
use nz_search::{Note, Stop};
use nz_simplex::laws::joins_stop_at_rows;
use nz_spec::derivation::tells_literals;
use nz_spec::table::one_number;
use nz_spec::work::legal_work_goes_on;
use nz_term::ArithmeticStop;
use nz_trail::Var;

impl Reals {
    /// Learns of an atom, before it is told anything; the work list knows the atom by a number. Where the sum of a bound isn't a form of the simplex, it
    /// joins, which is noted.
    ///
    /// # Errors
    ///
    /// `Wide` where the row of the form leaves the numbers; `Memory`.
    pub fn add_atom(
        &mut self,
        log: &Log,
        id: AtomId,
        number: usize,
        work: &mut Work<Note>,
    ) -> Result<(), Stop>
        requires atom { IsAtomFor self.old log.now.atoms id }
        requires untold { HasTold self.old [] }
        ensures untold { HasTold self.new [] }
        ensures of { (ids : List ℕ) → IsOf self.old log.now.atoms ids → OnOk result (IsOf self.new log.now.atoms (ids ++ id ∷ [])) }
        ensures over { (ns : List Node) → IsLitIn ns log.now.atoms (record { atom = id; sign = true }) → IsOver self.old ns → IsOver self.new ns }
        ensures lines { NotesForm number work.old work.new }
        ensures unspent { IfErr result (λ e. e ≡ stop.Spent → ⊥) }
        // Over a table, where the theory stands where the list leads, it does so again.
        ensures ends { (ns : List Node) (q : Task) → IsLitIn ns log.now.atoms (record { atom = id; sign = true }) → IsNumberIn ns log.now.atoms id number work.old → Stands (IsAt self.old ns) ns q work.old → EndsJoining (IsAt self.new ns) ns q work.new result }
    {
        log.atom_count();
        let Atom::AtMost(bound) = log.atom(id) else {
            return Ok(());
        };
        let sum = zeroed(self.alloc, bound)?;
        let var = self.form_for(sum, number, work)?;
        self.keep(id, Bounded::new(var, bound))?;
        Ok(())
    }

    /// The number of a sum that is a form. Where it is none, it joins, which is noted.
    fn form_for(&mut self, sum: Bound, number: usize, work: &mut Work<Note>) -> Result<Var, Stop>
        requires zero { sum ≡ zero_bound sum.sides.parts }
        requires may { MayAddSum self.old sum.sides.parts }
        requires untold { HasTold self.old [] }
        ensures form { IfOk result (λ v. slice_get self.new.simplex.forms v ≡ Some sum.sides.parts) }
        ensures adds { AddsForm self.old self.new sum.sides.parts }
        ensures lines { NotesForm number work.old work.new }
        ensures unspent { IfErr result (λ e. e ≡ stop.Spent → ⊥) }
        ensures ends { (ns : List Node) (q : Task) → AreUnits ns sum.sides.parts → IsNamedSum ns sum.sides.parts number work.old → Stands (IsAt self.old ns) ns q work.old → EndsJoining (IsAt self.new ns) ns q work.new result }
    {
        joins_stop_at_rows();
        tells_literals();
        one_number();
        legal_work_goes_on();
        stored(self);
        if let Some(var) = self.find(&sum)? {
            return Ok(var);
        }
        if is_unit(sum.parts()) {
            return self.unit_for(sum, number, work);
        }
        work.note(Note::Form { atom: number })?;
        self.join(sum)
    }

    /// The number of a unit alone, which may be a form. Where it is none, it joins, which is noted; it has no row, so no operation leaves the numbers.
    fn unit_for(&mut self, sum: Bound, number: usize, work: &mut Work<Note>) -> Result<Var, Stop>
        requires zero { sum ≡ zero_bound sum.sides.parts }
        requires alone { is_unit_form sum.sides.parts ≡ true }
        requires may { MayAddSum self.old sum.sides.parts }
        requires untold { HasTold self.old [] }
        ensures form { IfOk result (λ v. slice_get self.new.simplex.forms v ≡ Some sum.sides.parts) }
        ensures adds { AddsForm self.old self.new sum.sides.parts }
        ensures lines { NotesForm number work.old work.new }
        ensures unspent { IfErr result (λ e. e ≡ stop.Spent → ⊥) }
        ensures ends { (ns : List Node) (q : Task) → AreUnits ns sum.sides.parts → IsNamedSum ns sum.sides.parts number work.old → Stands (IsAt self.old ns) ns q work.old → EndsJoining (IsAt self.new ns) ns q work.new result }
    {
        tells_literals();
        one_number();
        legal_work_goes_on();
        stored(self);
        let count = self.form_count();
        let var = self.join(sum)?;
        if !self.has_more(count) {
            return Ok(var);
        }
        work.note(Note::Form { atom: number })?;
        Ok(var)
    }

    /// How many forms there are.
    pub(crate) fn form_count(&self) -> usize
        ensures count { result ≡ length self.now.simplex.forms }
    {
        self.simplex.len()
    }

    /// Whether there are more forms than so many.
    fn has_more(&self, count: usize) -> bool
        ensures more { result ≡ true → count < length self.now.simplex.forms }
        ensures none { result ≡ false → length self.now.simplex.forms ≤ count }
    {
        self.simplex.len() > count
    }

    /// The number of a sum among the forms. A unit alone may be missing.
    pub(crate) fn find(&self, sum: &Bound) -> Result<Option<Var>, Memory>
        requires zero { sum.now ≡ zero_bound sum.now.sides.parts }
        ensures found { IfOk result (λ r. IfSome r (λ v. slice_get self.now.simplex.forms v ≡ Some sum.now.sides.parts)) }
        ensures free { result ≡ Ok None → IsFree self.now sum.now.sides.parts }
    {
        let key = Atom::AtMost(sum.copied(self.alloc)?);
        match self.forms.get(&key) {
            Some(var) => Ok(Some(*var)),
            None => Ok(None),
        }
    }

    /// Adds a sum to the forms.
    pub(crate) fn join(&mut self, sum: Bound) -> Result<Var, Stop>
        requires zero { sum ≡ zero_bound sum.sides.parts }
        requires may { MayAddSum self.old sum.sides.parts }
        requires free { IsFree self.old sum.sides.parts }
        ensures form { IfOk result (λ v. slice_get self.new.simplex.forms v ≡ Some sum.sides.parts) }
        ensures adds { AddsForm self.old self.new sum.sides.parts }
        ensures position { OnOk result ((ns : List Node) → IsOver self.old ns → AreUnits ns sum.sides.parts → position_over ns self.new.simplex ≡ joined_over ns self.old.simplex sum.sides.parts) }
        ensures moves { OnOk result (HasMoved self.old self.new IsAtZero) }
        ensures stops { IfErr result (StopsJoining self.old sum.sides.parts) }
        ensures unspent { IfErr result (λ e. e ≡ stop.Spent → ⊥) }
        ensures unchanged { OnErr result (self.new ≡ self.old) }
    {
        one_number();
        stored(self);
        // Room comes first, so that nothing has changed where there is none.
        self.forms.reserve(1)?;
        self.is_known_feasible = false;
        let var = match self.simplex.add_form(sum.form()) {
            Ok(var) => var,
            Err(ArithmeticStop::Wide(wide)) => return Err(stopped(wide, Site::Joining)),
            Err(ArithmeticStop::Memory) => return Err(Stop::Memory),
        };
        self.forms.insert(Atom::AtMost(sum), var).unwrap();
        Ok(var)
    }

    /// Keeps what an atom bounds.
    fn keep(&mut self, id: AtomId, bounded: Bounded) -> Result<(), Memory>
        requires form { bounded.var < length self.old.simplex.forms }
        requires untold { HasTold self.old [] }
        ensures kept { OnOk result ((i : ℕ) → known_at self.new i ≡ (if i == id then Some (known_of bounded) else known_at self.old i)) }
        ensures simplex { self.new.simplex ≡ self.old.simplex }
        ensures told { self.new.told ≡ self.old.told }
    {
        stored(self);
        self.bounded.put(id, bounded)
    }
}

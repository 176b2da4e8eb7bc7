//! A theory with the log and the terms that it speaks of. What a call asks of its arguments is tested here, so that the tests have nothing to prove: the
//! system's invariant is known to no other file.
ghost use Rattle.std.specs.Prelude.{◌≡◌, ◌<◌, ℕ, [], All, IfOk, IfSome, IsSome, OnOk, false};
ghost use Rattle.std.specs.Bool.{OnTrue};
ghost use Rattle.nz_spec.specs.terms.Term.{is_zero};
ghost use Rattle.nz_lin.specs.Bounds.{HasUnits};
ghost use Rattle.nz_log.specs.Logs.{IsLive, told_of};
ghost use Rattle.nz_reals_tests.specs.Systems.{IsInOrder, IsSum};

use nz_base::{Memory, Work};
use nz_frac::Frac;
use nz_lin::{Bound, Part, lin};
use nz_log::{Atom, AtomId, ClauseId, Lit, Literal, Log};
use nz_reals::Reals;
use nz_search::{Note, Stop, Theory};
use nz_term::{ArithmeticStop, Assign, NumberSort, Operator, Sort, TermId, Terms, known_table};
use nz_term_samples::{constant, multiple, operation};
use std::alloc::Global;
use std::marker::Model;
use std::test::Fail;

/// That a sum of multiples of the three units is at most a number: the multipliers, and the number.
#[derive(Clone, Copy, Debug)]
pub struct Row(pub [i64; 3], pub i64);

/// How many units a check may take.
const UNITS: u64 = 100;

/// A theory that learned of bounds, and was told literals on them.
#[derive(Drop)]
pub struct System {
    alloc: Global,
    terms: Terms,
    log: Log,
    reals: Reals,
    atoms: Vec<AtomId>,
    // The sums that are bounded, and by which number each.
    bounds: Vec<(TermId, i64)>,
    // What a failed call was about to do isn't known, so no other follows it.
    known: bool,
}

impl Model for System {
    ghost use Rattle.std.specs.Bool.{OnTrue};
    ghost use Rattle.nz_reals_tests.specs.Systems.{IsInOrder, SystemState};

    ghost Value = { SystemState };

    ghost view = { λ s. record { terms = s.terms; log = s.log; reals = s.reals; atoms = s.atoms.items; known = s.known } };

    ghost invariant = { λ s. OnTrue s.known (IsInOrder s.terms s.log s.reals s.atoms.items) };
}

/// What stands after a call that failed.
fn failed() -> Fail {
    Fail::new("a call that failed before")
}

impl System {
    /// The theory that learned of these bounds, in their order.
    pub fn over(alloc: Global, rows: &[Row]) -> Result<System, Fail> {
        let mut terms = Terms::new(alloc)?;
        let bounds = bounds_of(alloc, &mut terms, rows)?;
        let mut system = System::new(alloc, terms, bounds)?;
        system.learn_all()?;
        Ok(system)
    }

    /// The theory that knows of no bound yet, over these terms.
    fn new(alloc: Global, terms: Terms, bounds: Vec<(TermId, i64)>) -> Result<System, Memory> {
        known_table(&terms);
        let mut log = Log::new(alloc)?;
        place_all(&mut log, terms.len())?;
        Ok(System {
            alloc,
            terms,
            log,
            reals: Reals::new(alloc),
            atoms: Vec::new(alloc),
            bounds,
            known: true,
        })
    }

    /// Learns of all bounds.
    fn learn_all(&mut self) -> Result<(), Fail> {
        let bounds = Vec::from_slice(self.alloc, &self.bounds)?;
        for (sum, limit) in &bounds {
            self.learn(*sum, *limit)?;
        }
        Ok(())
    }

    /// Begins anew over the forms that are there, and learns of all bounds again.
    pub fn restart(&mut self) -> Result<(), Fail> {
        if !self.known {
            return Err(failed());
        }
        self.known = false;
        let mut work = Work::new(self.alloc)?;
        self.reals.restart(&mut work)?;
        self.atoms.clear();
        self.known = true;
        self.learn_all()
    }

    /// Begins anew over forms that are arranged under these truths of atoms from the start, and learns of all bounds again.
    pub fn arrange(&mut self, truths: &[Option<bool>]) -> Result<(), Fail> {
        if !self.known {
            return Err(failed());
        }
        self.known = false;
        arrange(
            self.alloc,
            &self.terms,
            &self.log,
            &mut self.reals,
            &self.atoms,
            truths,
        )?;
        self.atoms.clear();
        self.known = true;
        self.learn_all()
    }

    /// Learns that a term is at most a number.
    fn learn(&mut self, term: TermId, limit: i64) -> Result<(), Fail> {
        if !self.known {
            return Err(failed());
        }
        let bound = bound_on(self.alloc, &self.terms, term, limit)?;
        self.known = false;
        learn(
            self.alloc,
            &self.terms,
            &mut self.log,
            &mut self.reals,
            &mut self.atoms,
            bound,
        )?;
        self.known = true;
        Ok(())
    }

    /// The literal of a number: that the bound of this place, counted from 1, holds; of a negative number, that it doesn't.
    pub fn literal(&self, number: i32) -> Option<Lit> {
        let place = (number.unsigned_abs() as usize).checked_sub(1)?;
        let atom = *self.atoms.get(place)?;
        if self.log.atom_count() <= atom {
            return None;
        }
        Some(Lit::new(atom, number > 0))
    }

    /// What a literal says.
    pub fn says(&self, literal: Lit) -> Literal<'_> {
        self.log.literal(literal)
    }

    /// Tells the theory a literal. Answers the clause that refutes it, if there is one.
    pub fn tell(&mut self, literal: Lit) -> Result<Option<Vec<Lit>>, Fail> {
        if !self.known {
            return Err(failed());
        }
        self.known = false;
        let clause = tell(
            &self.terms,
            &self.atoms,
            &mut self.log,
            &mut self.reals,
            literal,
        )?;
        self.known = true;
        Ok(literals(self.alloc, &self.log, clause)?)
    }

    /// Looks for values that meet what the theory was told, and puts them into an assignment. Answers the clause that says why there are none, if there
    /// is one.
    pub fn settle(&mut self, values: &mut Assign) -> Result<Option<Vec<Lit>>, Fail> {
        if !self.known {
            return Err(failed());
        }
        self.known = false;
        let mut work = Work::new(self.alloc)?;
        work.reserve(UNITS)?;
        let clause = settle(
            self.alloc,
            &self.terms,
            &self.atoms,
            &mut self.log,
            &mut self.reals,
            &mut work,
            values,
        )?;
        self.known = true;
        Ok(literals(self.alloc, &self.log, clause)?)
    }

    /// How many literals the theory was told.
    pub fn mark(&self) -> usize {
        self.reals.mark()
    }

    /// Takes back all but so many literals.
    pub fn undo(&mut self, mark: usize) {
        if self.known && mark <= self.reals.mark() {
            self.reals.undo(mark);
        }
    }

    /// The clauses for neighbouring bounds that are added where the first so many of all are held.
    pub fn exclusions(&mut self, count: usize) -> Result<Vec<Vec<Lit>>, Fail> {
        if !self.known {
            return Err(failed());
        }
        let clauses = exclude_behind(&self.terms, &self.atoms, &mut self.log, &self.reals, count)?;
        Ok(all_literals(self.alloc, &self.log, &clauses)?)
    }
}

/// The sums of multiples of the three units, one a row, each with its number.
fn bounds_of(alloc: Global, terms: &mut Terms, rows: &[Row]) -> Result<Vec<(TermId, i64)>, Memory> {
    let units = [
        constant(alloc, terms, b"x", Sort::Real)?,
        constant(alloc, terms, b"y", Sort::Real)?,
        constant(alloc, terms, b"z", Sort::Real)?,
    ];
    let mut bounds = Vec::new(alloc);
    for row in rows {
        bounds.push((sum_of(alloc, terms, &units, &row.0)?, row.1))?;
    }
    Ok(bounds)
}

/// The sum of multiples of units.
fn sum_of(
    alloc: Global,
    terms: &mut Terms,
    units: &[TermId],
    coefficients: &[i64],
) -> Result<TermId, Memory> {
    let mut parts = Vec::new(alloc);
    for (unit, coefficient) in units.iter().zip(coefficients) {
        parts.push(multiple(terms, NumberSort::Real, *coefficient, *unit)?)?;
    }
    operation(terms, Operator::Sum(NumberSort::Real), &parts)
}

/// Tells the lowest level of so many terms.
fn place_all(log: &mut Log, count: usize) -> Result<(), Memory>
    ensures placed { OnOk result ((t : ℕ) → t < count → IsSome (told_of log.new t)) }
    ensures atoms { log.new.atoms ≡ log.old.atoms }
{
    for term in 0..count {
        log.place(term, 0)?;
    }
    Ok(())
}

/// That a term is at most a number. A term that isn't linear fails the test.
fn bound_on(alloc: Global, terms: &Terms, term: TermId, limit: i64) -> Result<Bound, ArithmeticStop>
    ensures units { IfOk result (HasUnits terms.now) }
{
    if terms.len() <= term || !terms.is_linear(term) {
        return Err(ArithmeticStop::Memory);
    }
    let form = lin(alloc, terms, term)?;
    Ok(Bound::at_most_zero(form).with_limit(Frac::whole(limit)))
}

/// Puts a new theory in place of one, arranged over the atoms that this one knows, under these truths of atoms from the start. It knows of no atom.
fn arrange(
    alloc: Global,
    terms: &Terms,
    log: &Log,
    reals: &mut Reals,
    atoms: &[AtomId],
    truths: &[Option<bool>],
) -> Result<(), Memory>
    requires order { IsInOrder terms.now log.now reals.old atoms.now }
    ensures order { OnOk result (IsInOrder terms.now log.now reals.new []) }
{
    terms.len();
    *reals = Reals::new(alloc);
    reals.arrange(log, atoms, truths)?;
    let mut work = Work::new(alloc)?;
    reals.restart(&mut work)?;
    Ok(())
}

/// Learns of a bound, before the theory is told anything.
fn learn(
    alloc: Global,
    terms: &Terms,
    log: &mut Log,
    reals: &mut Reals,
    atoms: &mut Vec<AtomId>,
    bound: Bound,
) -> Result<(), Stop>
    requires order { IsInOrder terms.now log.old reals.old atoms.old.items }
    requires units { HasUnits terms.now bound }
    ensures order { OnOk result (IsInOrder terms.now log.new reals.new atoms.new.items) }
{
    terms.len();
    let literal = log.bound_literal(bound)?;
    let atom = literal.atom();
    if reals.mark() != 0 || !is_sum(log, atom) {
        return Err(Stop::Memory);
    }
    atoms.reserve(1)?;
    let mut work = Work::new(alloc)?;
    reals.add_atom(log, atom, atoms.len(), &mut work)?;
    atoms.push(atom)?;
    Ok(())
}

/// Whether an atom is a bound whose coefficients aren't 0.
fn is_sum(log: &Log, atom: AtomId) -> bool
    ensures sum { OnTrue result (IsSum log.now atom) }
{
    if log.atom_count() <= atom {
        return false;
    }
    match log.atom(atom) {
        Atom::Term(_) => false,
        Atom::AtMost(bound) => are_nonzero(bound.parts()),
    }
}

/// Whether no coefficient is 0.
fn are_nonzero(parts: &[Part]) -> bool
    ensures nonzero { OnTrue result (All (λ p. is_zero p.coefficient ≡ false) parts.now) }
{
    for i in 0..parts.len() {
        if parts[i].coefficient.is_zero() {
            return false;
        }
    }
    true
}

/// Tells a theory a literal on an atom that it knows.
fn tell(
    terms: &Terms,
    atoms: &[AtomId],
    log: &mut Log,
    reals: &mut Reals,
    literal: Lit,
) -> Result<Option<ClauseId>, Stop>
    requires order { IsInOrder terms.now log.old reals.old atoms.now }
    ensures order { OnOk result (IsInOrder terms.now log.new reals.new atoms.now) }
    ensures live { IfOk result (λ r. IfSome r (IsLive log.new)) }
{
    terms.len();
    let atom = literal.atom();
    if !atoms.contains(&atom) || !is_sum(log, atom) {
        return Err(Stop::Memory);
    }
    let clause = reals.assert_lit(log, literal)?;
    Ok(clause)
}

/// Looks for values that meet what a theory was told, and adds those of all constants to others.
fn settle(
    alloc: Global,
    terms: &Terms,
    atoms: &[AtomId],
    log: &mut Log,
    reals: &mut Reals,
    work: &mut Work<Note>,
    values: &mut Assign,
) -> Result<Option<ClauseId>, Stop>
    requires order { IsInOrder terms.now log.old reals.old atoms.now }
    ensures order { OnOk result (IsInOrder terms.now log.new reals.new atoms.now) }
    ensures live { IfOk result (λ r. IfSome r (IsLive log.new)) }
{
    atoms.len();
    let clause = reals.check(log, work)?;
    if clause.is_none() {
        let mut is_listed = Vec::new(alloc);
        is_listed.resize(terms.len(), true)?;
        reals.add_values(terms, &is_listed, values)?;
    }
    Ok(clause)
}

/// Adds the clauses for neighbouring bounds that aren't held.
fn exclude(
    terms: &Terms,
    atoms: &[AtomId],
    log: &mut Log,
    reals: &Reals,
    held: &[ClauseId],
) -> Result<Vec<ClauseId>, Memory>
    requires order { IsInOrder terms.now log.old reals.now atoms.now }
    requires live { All (IsLive log.old) held.now }
    ensures order { IsInOrder terms.now log.new reals.now atoms.now }
    ensures live { IfOk result (λ cs. All (IsLive log.new) cs.items) }
{
    terms.len();
    reals.exclusions(log, atoms, held)
}

/// Adds the clauses for neighbouring bounds, and then those that are missing where only the first so many are held.
fn exclude_behind(
    terms: &Terms,
    atoms: &[AtomId],
    log: &mut Log,
    reals: &Reals,
    count: usize,
) -> Result<Vec<ClauseId>, Memory>
    requires order { IsInOrder terms.now log.old reals.now atoms.now }
    ensures order { IsInOrder terms.now log.new reals.now atoms.now }
    ensures live { IfOk result (λ cs. All (IsLive log.new) cs.items) }
{
    let mut held = exclude(terms, atoms, log, reals, &[])?;
    held.truncate(count);
    exclude(terms, atoms, log, reals, &held)
}

/// The literals of a clause, if it is one.
fn literals(alloc: Global, log: &Log, clause: Option<ClauseId>) -> Result<Option<Vec<Lit>>, Memory>
    requires live { IfSome clause (IsLive log.now) }
{
    match clause {
        None => Ok(None),
        Some(id) => Ok(Some(Vec::from_slice(alloc, log.clause(id))?)),
    }
}

/// The literals of clauses.
fn all_literals(alloc: Global, log: &Log, clauses: &[ClauseId]) -> Result<Vec<Vec<Lit>>, Memory>
    requires live { All (IsLive log.now) clauses.now }
{
    let mut all = Vec::new(alloc);
    for clause in clauses {
        all.push(Vec::from_slice(alloc, log.clause(*clause))?)?;
    }
    Ok(all)
}

//! What a theory is told of a trail, and what it answers.
ghost use Rattle.std.specs.Prelude.{◌≡◌, ◌+◌, ◌<◌, ◌^◌, ◌++◌, ◌∷◌, [], All, Contains, List, None, length, min, IfErr, IfOk, OnErr, OnOk};
ghost use Rattle.nz_spec.specs.search.Work.{IsSpent, with_line};
ghost use Rattle.nz_search.specs.declared.stop.Stop.TheVariants as stop;
ghost use Rattle.nz_log.specs.Leveled.{AreToldAtoms};
ghost use Rattle.nz_search.specs.Theories.{IsBoundIn};
ghost use Rattle.nz_sat.specs.declared.trail.Assigned.{Assigned};
ghost use Rattle.nz_sat.specs.Conflicts.{is_marked};
ghost use Rattle.nz_sat.specs.Theories.{Consults, IsMet, IsTrailOn, TellsOne, TellsTrail, is_bound_at, state_of, told_line, told_lits, told_on};

use crate::atoms::Atoms;
use crate::trail::Trail;
use nz_base::{Memory, Work};
use nz_log::laws::{clauses_are_true, tells_lits};
use nz_log::{Atom, AtomId, ClauseId, Lit, Log};
use nz_search::{Note, Stop, Theory};
use nz_spec::derivation::negation_is_other;
use nz_spec::work::{legal_work_does_not_repeat, legal_work_goes_on, pivots_are_legal};
use std::alloc::Global;

/// Which atoms are bounds, and up to which place of a trail a theory was told those.
#[derive(Debug, Drop)]
pub struct Bounds {
    // By the numbers of atoms in the log.
    marks: Vec<bool>,
    /// How many entries of the trail the theory was asked about.
    pub told: usize,
}

impl Bounds {
    /// The bounds among these atoms of a log, which are below a size, with nothing told.
    pub fn among(alloc: Global, log: &Log, ids: &[AtomId], size: usize) -> Result<Bounds, Memory>
        requires there { AreToldAtoms log.now ids.now }
        requires within { All (λ t. t < size) ids.now }
        ensures marked { IfOk result (λ b. All (λ t. is_marked b.marks.items t ≡ is_bound_at log.now.atoms t) ids.now) }
        ensures none { IfOk result (λ b. b.told ≡ 0) }
    {
        let mut marks = vec![in alloc; false; size]?;
        for id in ids {
            marks[*id] = is_bound(log, *id);
        }
        Ok(Bounds { marks, told: 0 })
    }

    /// Whether an atom is a bound.
    fn has(&self, atom: AtomId) -> bool
        ensures has { result ≡ is_marked self.now.marks.items atom }
    {
        match self.marks.get(atom) {
            Some(mark) => *mark,
            None => false,
        }
    }

    /// How many bounds the theory was told with the entry of an atom at a place: 1 or 0.
    pub fn told_at(&self, place: usize, atom: AtomId) -> usize
        ensures one { (es : List Assigned) (e : Assigned) → length es ≡ place → e.literal.atom ≡ atom → length (told_on self.now (es ++ e ∷ [])) ≡ length (told_on self.now es) + result }
        ensures few { (es : List Assigned) → length (told_on self.now es) < 2 ^ 64 }
    {
        let told = self.told;
        if place < told && self.has(atom) {
            return 1;
        }
        0
    }

    /// Forgets what was told behind the first places, so many of them.
    pub fn cut(&mut self, places: usize)
        ensures cut { self.new ≡ record self.old { told = min self.old.told places } }
    {
        if places < self.told {
            self.told = places;
        }
    }
}

/// Whether an atom of a log is a bound.
fn is_bound(log: &Log, id: AtomId) -> bool
    requires within { id < length log.now.atoms }
    ensures bound { result ≡ is_bound_at log.now.atoms id }
{
    match log.atom(id) {
        Atom::Term(_) => false,
        Atom::AtMost(_) => true,
    }
}

/// Notes that a theory was told a literal.
fn note_told(atoms: &Atoms, literal: Lit, work: &mut Work<Note>) -> Result<(), Memory>
    requires named { Contains atoms.now literal.atom }
    ensures noted { OnOk result (work.new ≡ with_line work.old (told_line atoms.now literal)) }
    ensures err { OnErr result (work.new ≡ work.old) }
{
    match atoms.number(literal.atom()) {
        Some(atom) => work.note(Note::Told {
            atom,
            sign: literal.sign(),
        }),
        None => unreachable!(),
    }
}

/// Tells a theory a bound, and notes it where the theory takes it, or finds no numbers for why not.
fn tell_one<T: Theory>(
    log: &mut Log,
    atoms: &Atoms,
    literal: Lit,
    theory: &mut T,
    work: &mut Work<Note>,
) -> Result<Option<ClauseId>, Stop>
    requires named { Contains atoms.now literal.atom }
    requires bound { IsBoundIn log.old literal }
    requires of { T.is_of theory.old log.old.atoms atoms.now }
    ensures comes { TellsOne (state_of T.is_over T.has_told T.is_feasible T.is_of T.is_at theory.old) (state_of T.is_over T.has_told T.is_feasible T.is_of T.is_at theory.new)
        log.old log.new atoms.now literal work.old work.new result }
    ensures unspent { IfErr result (λ e. e ≡ stop.Spent → ⊥) }
{
    legal_work_goes_on();
    match theory.assert_lit(log, literal) {
        Ok(Some(clash)) => Ok(Some(clash)),
        Ok(None) => {
            note_told(atoms, literal, work)?;
            Ok(None)
        }
        Err(stop) => {
            note_told(atoms, literal, work)?;
            Err(stop)
        }
    }
}

/// Tells a theory the bounds of a trail from a place on, up to which it was told, and notes each that it takes. Answers a clause that says that they
/// can't be true, if the theory sees that.
fn tell<T: Theory>(
    log: &mut Log,
    atoms: &Atoms,
    trail: &Trail,
    bounds: &mut Bounds,
    theory: &mut T,
    work: &mut Work<Note>,
) -> Result<Option<ClauseId>, Stop>
    requires trail { IsTrailOn log.old atoms.now bounds.old trail.now }
    requires of { T.is_of theory.old log.old.atoms atoms.now }
    requires told { T.has_told theory.old (told_lits bounds.old trail.now.entries) }
    requires noted { TellsTrail log.old atoms.now bounds.old trail.now.entries work.old }
    ensures comes { Consults (state_of T.is_over T.has_told T.is_feasible T.is_of T.is_at theory.old) (state_of T.is_over T.has_told T.is_feasible T.is_of T.is_at theory.new)
        log.old log.new atoms.now bounds.old bounds.new trail.now work.old work.new result }
    ensures all { IfOk result (λ r. r ≡ None → bounds.new.told ≡ length trail.now.entries) }
    ensures unspent { IfErr result (λ e. e ≡ stop.Spent → ⊥) }
{
    tells_lits();
    clauses_are_true();
    negation_is_other();
    legal_work_does_not_repeat();
    while bounds.told < trail.len() {
        let literal = trail.entry(bounds.told).literal;
        if bounds.has(literal.atom()) {
            let clash = tell_one(log, atoms, literal, theory, work)?;
            if clash.is_some() {
                return Ok(clash);
            }
        }
        bounds.told += 1;
    }
    Ok(None)
}

/// Tells a theory the bounds of a trail that it wasn't told, and has it look for values that meet them. Answers a clause that says that there are
/// none.
pub fn consult<T: Theory>(
    log: &mut Log,
    atoms: &Atoms,
    trail: &Trail,
    bounds: &mut Bounds,
    theory: &mut T,
    work: &mut Work<Note>,
) -> Result<Option<ClauseId>, Stop>
    requires trail { IsTrailOn log.old atoms.now bounds.old trail.now }
    requires of { T.is_of theory.old log.old.atoms atoms.now }
    requires told { T.has_told theory.old (told_lits bounds.old trail.now.entries) }
    requires noted { TellsTrail log.old atoms.now bounds.old trail.now.entries work.old }
    ensures comes { Consults (state_of T.is_over T.has_told T.is_feasible T.is_of T.is_at theory.old) (state_of T.is_over T.has_told T.is_feasible T.is_of T.is_at theory.new)
        log.old log.new atoms.now bounds.old bounds.new trail.now work.old work.new result }
    ensures met { IfOk result (λ r. r ≡ None → IsMet (state_of T.is_over T.has_told T.is_feasible T.is_of T.is_at theory.new) bounds.new trail.now.entries) }
    ensures spent { IfErr result (λ e. e ≡ stop.Spent → IsSpent work.new) }
{
    pivots_are_legal();
    legal_work_goes_on();
    let clash = tell(log, atoms, trail, bounds, theory, work)?;
    if clash.is_some() {
        return Ok(clash);
    }
    theory.check(log, work)
}

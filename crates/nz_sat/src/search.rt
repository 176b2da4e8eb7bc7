//! The search: decisions, and what follows from them.
ghost use Rattle.std.specs.Prelude.{◌≡◌, ℕ, ◌^◌, ◌<◌, ◌+◌, ◌++◌, ◌∷◌, [], All, Contains, List, None, length, map, min, take, vec_capacity, vec_len, IfErr, IfOk, IfSome, OnErr, OnOk};
ghost use Rattle.nz_spec.specs.simplex.Bland.{Point};
ghost use Rattle.nz_spec.specs.terms.Form as form;
ghost use Rattle.nz_spec.specs.clauses.Literal as spec;
ghost use Rattle.nz_spec.specs.terms.Table.{Node};
ghost use Rattle.nz_spec.specs.search.Work.{IsSpent, UnitLine, unit_count, with_line};
ghost use Rattle.nz_base.specs.Entries.{entry_of};
ghost use Rattle.nz_log.specs.declared.lits.Lit.{Lit};
ghost use Rattle.nz_search.specs.declared.stop.Stop.TheVariants as stop;
ghost use Rattle.nz_log.specs.Logs.{IsLive, LogState, literals_at};
ghost use Rattle.nz_sat.specs.declared.clauses.Held.{Held};
ghost use Rattle.nz_sat.specs.Clauses.{IsImplied};
ghost use Rattle.nz_search.specs.Places.{OnWide};
ghost use Rattle.nz_log.specs.Growth.{Grows};
ghost use Rattle.nz_sat.specs.Conflicts.{GoesBackTo, RefutesFrom, StaysSound};
ghost use Rattle.nz_log.specs.Leveled.{AreToldAtoms};
ghost use Rattle.nz_sat.specs.Sats.{AreConsistent, AreHeld};
ghost use Rattle.nz_sat.specs.Searching.{Advances, AreFirst, Assumes, AssumesAll, ComesTo, Decides, Follows, HaveTrue, IsConflict, IsReady, IsSearch, Learns, MayAssume, MayFollow, Starts, WasNoted, after_learned, learned_line};
ghost use Rattle.nz_sat.specs.Theories.{AddsLines, IsMet, IsOfTheory, Keeps, TellsTrail, state_of, told_lits, told_on};
ghost use Rattle.nz_sat.specs.Trails.{EachBehind, GoesOn, IsFrontOf, IsTrail, assigned, below, depth};
ghost use Rattle.nz_sat.specs.Watched.{AreTwoOf, AreWatched, HoldsWatched, IsKept, watch_state};

mod learning;

use crate::analyze::{greatest_level, refutation};
use crate::atoms::Atoms;
use crate::clauses::Held;
use crate::consult::{Bounds, consult};
use crate::kept::Kept;
use crate::open::first_undecided;
use crate::order::Order;
use crate::propagation::Propagation;
use crate::redundancy::Redundancy;
use crate::restarts::Restarts;
use crate::trail::Trail;
use nz_base::{Entry, Memory, Work};
use nz_log::laws::{clauses_are_true, tells_lits};
use nz_log::{AtomId, ClauseId, Lit, Log};
use nz_search::{Note, Stop, Theory};
use nz_spec::derivation::negation_is_other;
use nz_spec::work::legal_work_goes_on;
use std::alloc::Global;

/// A search under way.
#[derive(Debug, Drop)]
pub struct Search {
    pub atoms: Atoms,
    pub trail: Trail,
    /// The clauses that are held, by the literals that are watched in them.
    pub propagation: Propagation,
    order: Order,
    // By the numbers of atoms, the marks of the conflict analysis: none between two conflicts.
    seen: Vec<bool>,
    redundancy: Redundancy,
    restarts: Restarts,
    bounds: Bounds,
}

impl Search {
    /// A search over these clauses, of which the first ones were kept, with nothing decided.
    pub fn new(
        alloc: Global,
        log: &Log,
        held: &[Held],
        atoms: &[AtomId],
        kept: Kept,
    ) -> Result<Search, Memory>
        requires held { AreHeld log.now held.now }
        requires named { All (λ h. All (λ l. Contains atoms.now l.atom) (literals_at log.now h.id)) held.now }
        requires there { AreToldAtoms log.now atoms.now }
        requires kept { IsKept log.now held.now kept }
        ensures search { IfOk result (λ s. IsSearch log.now held.now s) }
        ensures atoms { IfOk result (λ s. s.atoms ≡ atoms.now) }
        ensures none { IfOk result (λ s. s.trail.entries ≡ []) }
    {
        let atoms = Atoms::of(alloc, atoms)?;
        let size = atoms.size();
        let bounds = Bounds::among(alloc, log, atoms.ids(), size)?;
        let Kept {
            mut propagation,
            count,
            mut order,
        } = kept;
        order.fit(&atoms)?;
        propagation.fit(size)?;
        for clause in &held[count..] {
            propagation.hold(log, *clause, two_of(log.clause(clause.id)))?;
        }
        Ok(Search {
            atoms,
            trail: Trail::new(alloc, size)?,
            propagation,
            order,
            seen: vec![in alloc; false; size]?,
            redundancy: Redundancy::new(alloc, size)?,
            restarts: Restarts::new(),
            bounds,
        })
    }

    /// What is kept for the next search, which holds so many clauses of those that were held.
    pub fn rest(self, count: usize) -> Kept
        ensures kept { (log : LogState) (held : List Held) → length held ≡ count → HoldsWatched log held self.propagation → IsKept log held result }
    {
        let Search {
            mut propagation,
            order,
            ..
        } = self;
        propagation.cut(0);
        Kept {
            propagation,
            count,
            order,
        }
    }

    /// Puts what the clauses alone make true on the trail. Answers a falsified clause.
    fn start(&mut self, log: &Log) -> Result<Option<ClauseId>, Memory>
        requires watched { AreWatched log.now (watch_state self.old.propagation self.old.trail) }
        requires none { self.old.trail.entries ≡ [] }
        ensures rest { self.new ≡ record self.old { trail = self.new.trail; propagation = self.new.propagation } }
        ensures comes { (held : List Held) → IsSearch log.now held self.old → IfOk result (Starts log.now held self.new) }
    {
        let falsified = self.propagation.assert_lone(log, &mut self.trail);
        if falsified.is_some() {
            return Ok(falsified);
        }
        self.propagation.propagate(log, &mut self.trail)
    }

    /// Puts an assumed literal on the trail, and what the clauses make true with it. Answers a clause in which each literal is false
    /// or the negation of the assumed one.
    fn assume(&mut self, log: &Log, literal: Lit) -> Result<Option<ClauseId>, Memory>
        requires watched { AreWatched log.now (watch_state self.old.propagation self.old.trail) }
        requires within { literal.atom < self.old.trail.size }
        requires undecided { depth self.old.trail.entries ≡ 0 }
        ensures rest { self.new ≡ record self.old { trail = self.new.trail; propagation = self.new.propagation } }
        ensures comes { (held : List Held) (assumed : List Lit) → MayAssume log.now held assumed literal self.old → IfOk result (Assumes log.now held assumed literal self.old.trail.entries self.new) }
    {
        tells_lits();
        match self.trail.assigned(literal.atom()) {
            Some(entry) if entry.literal.is(literal) => Ok(None),
            Some(entry) => Ok(entry.reason),
            None => {
                self.trail.assume(literal);
                self.propagation.propagate(log, &mut self.trail)
            }
        }
    }

    /// Puts what the clauses alone make true on the trail, and then each assumed literal with what the clauses make true. Answers a
    /// clause in which each literal is false or the negation of an assumed one.
    pub(crate) fn assume_all(
        &mut self,
        log: &Log,
        assumed: &[Lit],
    ) -> Result<Option<ClauseId>, Memory>
        requires search { (held : List Held) × IsSearch log.now held self.old }
        requires none { self.old.trail.entries ≡ [] }
        requires named { All (λ l. Contains self.old.atoms l.atom) assumed.now }
        requires consistent { AreConsistent assumed.now }
        ensures rest { self.new ≡ record self.old { trail = self.new.trail; propagation = self.new.propagation } }
        ensures comes { (held : List Held) → IsSearch log.now held self.old → IfOk result (AssumesAll log.now held assumed.now self.new) }
    {
        let falsified = self.start(log)?;
        if falsified.is_some() {
            return Ok(falsified);
        }
        for literal in assumed {
            let falsified = self.assume(log, *literal)?;
            if falsified.is_some() {
                return Ok(falsified);
            }
        }
        Ok(None)
    }

    /// The clause of the log that refutes the assumed literals, from a falsified one under no decision.
    pub(crate) fn refute(
        &mut self,
        alloc: Global,
        log: &mut Log,
        falsified: ClauseId,
    ) -> Result<ClauseId, Memory>
        requires live { IsLive log.old falsified }
        requires implied { EachBehind (IsImplied log.old) self.old.trail.entries }
        requires undecided { depth self.old.trail.entries ≡ 0 }
        requires size { length self.old.seen.items ≡ self.old.trail.size }
        ensures rest { self.new ≡ record self.old { order = self.new.order; seen = self.new.seen } }
        ensures grows { Grows log.old log.new }
        ensures sound { StaysSound self.old.trail.entries log.old log.new }
        ensures live { IfOk result (IsLive log.new) }
        ensures refutes { IfOk result (λ id. RefutesFrom self.old.trail.entries (literals_at log.old falsified) (literals_at log.new id)) }
    {
        refutation(
            alloc,
            log,
            &self.trail,
            &mut self.order,
            &mut self.seen,
            falsified,
        )
    }

    /// Takes the literals above a level off the trail. Answers how many of them the theory was told.
    fn jump(&mut self, level: usize) -> usize
        ensures rest { self.new ≡ record self.old { trail = self.new.trail; propagation = self.new.propagation; order = self.new.order; bounds = self.new.bounds } }
        ensures size { self.new.trail.size ≡ self.old.trail.size }
        ensures below { self.new.trail.entries ≡ below level self.old.trail.entries }
        ensures front { IsFrontOf self.new.trail.entries self.old.trail.entries }
        ensures looked { self.new.propagation ≡ record self.old.propagation { head = min self.old.propagation.head (length self.new.trail.entries) } }
        ensures bounds { self.new.bounds ≡ record self.old.bounds { told = min self.old.bounds.told (length self.new.trail.entries) } }
        ensures untold { length (told_on self.old.bounds self.old.trail.entries) ≡ length (told_on self.new.bounds self.new.trail.entries) + result }
    {
        let mut untold = 0;
        while let Some(literal) = self.trail.pop_above(level) {
            untold += self.bounds.told_at(self.trail.len(), literal.atom());
            self.order.keep(literal);
        }
        self.order.go_back(level);
        self.bounds.cut(self.trail.len());
        self.propagation.cut(self.trail.len());
        untold
    }

    /// Takes the literals above a level off the trail, and back from the theory.
    fn cut<T: Theory>(&mut self, theory: &mut T, level: usize)
        requires told { T.has_told theory.old (told_lits self.old.bounds self.old.trail.entries) }
        ensures rest { self.new ≡ record self.old { trail = self.new.trail; propagation = self.new.propagation; order = self.new.order; bounds = self.new.bounds } }
        ensures size { self.new.trail.size ≡ self.old.trail.size }
        ensures below { self.new.trail.entries ≡ below level self.old.trail.entries }
        ensures front { IsFrontOf self.new.trail.entries self.old.trail.entries }
        ensures looked { self.new.propagation ≡ record self.old.propagation { head = min self.old.propagation.head (length self.new.trail.entries) } }
        ensures bounds { self.new.bounds ≡ record self.old.bounds { told = min self.old.bounds.told (length self.new.trail.entries) } }
        ensures told { T.has_told theory.new (told_lits self.new.bounds self.new.trail.entries) }
        ensures keeps { Keeps (state_of T.is_over T.has_told T.is_feasible T.is_of T.is_at theory.old) (state_of T.is_over T.has_told T.is_feasible T.is_of T.is_at theory.new) }
        // The theory stands where it stood, at what it is still told.
        ensures at { (ns : List Node) (fs : List (List form.Part)) (ls : List spec.Literal) (x : Point) → T.is_at theory.old ns fs ls x → length ls ≡ length (told_lits self.old.bounds self.old.trail.entries)
            → T.is_at theory.new ns fs (take (length (told_lits self.new.bounds self.new.trail.entries)) ls) x }
    {
        let untold = self.jump(level);
        theory.undo(theory.mark() - untold);
    }

    /// Goes back to the last level of which a clause has a literal, and answers it. At the first one, where the search ends, the theory is left as it
    /// is.
    pub(crate) fn back_to<T: Theory>(
        &mut self,
        log: &Log,
        theory: &mut T,
        clause: ClauseId,
    ) -> usize
        requires live { IsLive log.now clause }
        requires told { T.has_told theory.old (told_lits self.old.bounds self.old.trail.entries) }
        ensures rest { self.new ≡ record self.old { trail = self.new.trail; propagation = self.new.propagation; order = self.new.order; bounds = self.new.bounds } }
        ensures size { self.new.trail.size ≡ self.old.trail.size }
        ensures back { GoesBackTo (literals_at log.now clause) self.old.trail.entries self.new.trail.entries result }
        ensures looked { self.new.propagation ≡ record self.old.propagation { head = min self.old.propagation.head (length self.new.trail.entries) } }
        ensures bounds { self.new.bounds ≡ record self.old.bounds { told = min self.old.bounds.told (length self.new.trail.entries) } }
        ensures left { result ≡ 0 → theory.new ≡ theory.old }
        ensures told { 0 < result → T.has_told theory.new (told_lits self.new.bounds self.new.trail.entries) }
        ensures keeps { Keeps (state_of T.is_over T.has_told T.is_feasible T.is_of T.is_at theory.old) (state_of T.is_over T.has_told T.is_feasible T.is_of T.is_at theory.new) }
        ensures at { 0 < result → (ns : List Node) (fs : List (List form.Part)) (ls : List spec.Literal) (x : Point) → T.is_at theory.old ns fs ls x → length ls ≡ length (told_lits self.old.bounds self.old.trail.entries)
            → T.is_at theory.new ns fs (take (length (told_lits self.new.bounds self.new.trail.entries)) ls) x }
    {
        let level = greatest_level(&self.trail, log.clause(clause));
        if level == 0 {
            self.jump(level);
            return level;
        }
        self.cut(theory, level);
        level
    }

    /// Makes true what the clauses make true, up to the first falsified clause.
    fn follow(&mut self, log: &Log) -> Result<Option<ClauseId>, Memory>
        requires watched { AreWatched log.now (watch_state self.old.propagation self.old.trail) }
        ensures rest { self.new ≡ record self.old { trail = self.new.trail; propagation = self.new.propagation } }
        ensures goes_on { GoesOn self.old.trail.entries self.new.trail.entries }
        ensures comes { (held : List Held) → MayFollow log.now held self.old → IfOk result (Follows log.now held self.old self.new) }
    {
        self.propagation.propagate(log, &mut self.trail)
    }

    /// Makes true what the clauses make true, and has the theory check that. Answers a clause in
    /// which each literal is false.
    pub(crate) fn conflict<T: Theory>(
        &mut self,
        log: &mut Log,
        theory: &mut T,
        work: &mut Work<Note>,
    ) -> Result<Option<ClauseId>, Stop>
        requires follow { (held : List Held) × MayFollow log.old held self.old }
        requires of { T.is_of theory.old log.old.atoms self.old.atoms }
        requires told { T.has_told theory.old (told_lits self.old.bounds self.old.trail.entries) }
        requires noted { TellsTrail log.old self.old.atoms self.old.bounds self.old.trail.entries work.old }
        ensures rest { self.new ≡ record self.old { trail = self.new.trail; propagation = self.new.propagation; bounds = self.new.bounds } }
        ensures advances { (held : List Held) → MayFollow log.old held self.old → Advances (state_of T.is_over T.has_told T.is_feasible T.is_of T.is_at theory.old) (state_of T.is_over T.has_told T.is_feasible T.is_of T.is_at theory.new)
            self.old self.old.trail.entries log.old log.new held held work.old work.new result }
        ensures comes { (held : List Held) → MayFollow log.old held self.old → IfOk result (ComesTo log.new held self.old self.new) }
        ensures adds { AddsLines IsOfTheory work.old work.new }
        ensures told { OnOk result (T.has_told theory.new (told_lits self.new.bounds self.new.trail.entries)) }
        ensures noted { OnOk result (TellsTrail log.new self.new.atoms self.new.bounds self.new.trail.entries work.new) }
        ensures met { IfOk result (λ r. r ≡ None → IsMet (state_of T.is_over T.has_told T.is_feasible T.is_of T.is_at theory.new) self.new.bounds self.new.trail.entries) }
        ensures spent { IfErr result (λ e. e ≡ stop.Spent → IsSpent work.new) }
    {
        let falsified = self.follow(log)?;
        if falsified.is_some() {
            return Ok(falsified);
        }
        consult(
            log,
            &self.atoms,
            &self.trail,
            &mut self.bounds,
            theory,
            work,
        )
    }

    /// An undecided atom of a clause that needs a true literal and has none: the one that took most part in conflicts, as far as the order knows.
    pub(crate) fn next(&mut self, log: &Log, held: &[Held]) -> Option<AtomId>
        requires search { IsSearch log.now held.now self.old }
        requires ready { IsReady log.now self.old }
        ensures rest { self.new ≡ record self.old { order = self.new.order } }
        ensures undecided { IfSome result (λ t. Contains self.new.atoms t × (assigned self.new.trail.entries t ≡ None)) }
        ensures none { result ≡ None → HaveTrue log.now held.now self.new.trail.entries }
    {
        match self
            .order
            .next(log, &self.atoms, &self.propagation, &self.trail)
        {
            Some(atom) => Some(atom),
            None => first_undecided(log, held, &self.trail, &mut self.order),
        }
    }

    /// Decides an atom, with the sign that it had last, or as it holds where the theory stands.
    pub(crate) fn decide<T: Theory>(
        &mut self,
        theory: &T,
        work: &mut Work<Note>,
        atom: AtomId,
    ) -> Result<(), Stop>
        requires free { assigned self.old.trail.entries atom ≡ None }
        requires named { Contains self.old.atoms atom }
        requires within { atom < self.old.trail.size }
        requires small { atom < 2 ^ 31 }
        ensures rest { self.new ≡ record self.old { trail = self.new.trail } }
        ensures decides { OnOk result (Decides self.old self.new atom work.old work.new) }
        ensures free { OnOk result (unit_count work.old.lines < work.old.limit) }
        ensures err { OnErr result (work.new ≡ work.old) }
        ensures spent { IfErr result (λ e. e ≡ stop.Spent → IsSpent work.new) }
        ensures narrow { IfErr result (λ e. OnWide e (λ _. ⊥)) }
    {
        let Some(number) = self.atoms.number(atom) else {
            unreachable!()
        };
        let sign = match self.order.sign(atom) {
            Some(sign) => sign,
            None => theory.holds(Lit::new(atom, true)).unwrap_or(false),
        };
        note(work, Entry::Decision { atom: number, sign })?;
        self.trail.decide(Lit::new(atom, sign));
        Ok(())
    }
}

/// Two different ones of these literals, the first two, where there are any.
fn two_of(literals: &[Lit]) -> Option<(Lit, Lit)>
    ensures two { AreTwoOf literals.now result }
{
    tells_lits();
    let first = literals.first()?;
    for literal in literals {
        if !literal.is(*first) {
            return Some((*first, *literal));
        }
    }
    None
}

/// Notes a step that counts.
fn note(work: &mut Work<Note>, entry: Entry) -> Result<(), Stop>
    ensures noted { OnOk result (work.new ≡ with_line work.old (UnitLine (entry_of entry))) }
    ensures free { OnOk result (unit_count work.old.lines < work.old.limit) }
    ensures err { OnErr result (work.new ≡ work.old) }
    ensures spent { IfErr result (λ e. e ≡ stop.Spent → IsSpent work.new) }
    ensures narrow { IfErr result (λ e. OnWide e (λ _. ⊥)) }
{
    if work.left() == 0 {
        return Err(Stop::Spent);
    }
    work.unit(entry)?;
    Ok(())
}

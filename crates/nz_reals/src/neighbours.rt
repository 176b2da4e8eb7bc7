//! Clauses by which neighbouring bounds of one form know each other: one that is true makes the weaker ones true, and those against it false.
ghost use Rattle.std.specs.Prelude.{◌≡◌, ◌^◌, ◌<◌, ◌++◌, ℕ, List, [], ◌∷◌, All, Contains, IfOk, IfSome, IsSome, None, OnOk, Some, length, option_map, slice_get, true, false};
ghost use Rattle.nz_log.specs.declared.atoms.Atom.{Atom};
ghost use Rattle.nz_log.specs.declared.lits.Lit.{Lit};
ghost use Rattle.nz_log.specs.Logs.{IsLive, LogState};
ghost use Rattle.nz_search.specs.Theories.{IsClash};
ghost use Rattle.nz_reals.specs.Exclusions.{AddsOn, AreExcluded, AreJoined, AreLowers, AreMarked, AreOpen, AreOpposed, HasJoint, HasNeighbours, HasNoJoint, HasNoSum, HasNone, IsExclusion, IsFresh, IsKnownOn, IsLower, IsNoted, IsPair, IsSaidLower, Joins, Marks, lits_of, place_in};
ghost use Rattle.nz_reals.specs.Known.{known_of};
ghost use Rattle.nz_reals.specs.Stands.{IsOf};
ghost use Rattle.nz_reals.specs.State.{known_at};
ghost use Rattle.nz_reals.specs.Tells.{AreKnown, both};

use crate::forms::Bounded;
use crate::reals::{Reals, stored};
use crate::refute::{both_once, refute};
use nz_base::Memory;
use nz_delta::Delta;
use nz_log::laws::tells_lits;
use nz_log::{AtomId, ClauseId, Lit, Log};
use nz_search::Stop;
use nz_simplex::laws::{clashes_contradict, literals_say_bounds, sums_stay};
use nz_spec::derivation::tells_literals;
use nz_spec::form::term_has_its_number;
use nz_trail::Var;
use std::alloc::Global;

/// A lower bound of a form, and the literal that says it.
#[derive(Clone, Copy, Debug)]
struct Lower {
    literal: Lit,
    var: Var,
    value: Delta,
}

impl Reals {
    /// Adds the clauses that a lower bound of a form and the negation of the next weaker one aren't both true, for the bounds that these atoms say. Two
    /// that have theirs among the clauses that are held get none, nor do two whose sum leaves the numbers.
    ///
    /// # Errors
    ///
    /// `Memory`.
    pub fn exclusions(
        &self,
        log: &mut Log,
        atoms: &[AtomId],
        held: &[ClauseId],
    ) -> Result<Vec<ClauseId>, Memory>
        requires of { (ids : List ℕ) × IsOf self.now log.old.atoms ids }
        requires held { All (IsLive log.old) held.now }
        ensures clauses { IfOk result (λ cs. All (IsExclusion log.new atoms.now) cs.items) }
        ensures adds { AddsOn atoms.now log.old log.new }
        ensures neighbours { IfOk result (λ cs. HasNeighbours self.now log.new atoms.now (held.now ++ cs.items)) }
        ensures fresh { IfOk result (λ cs. All (IsFresh log.old log.new held.now) cs.items) }
    {
        log.atom_count();
        let lowers = self.lowers(atoms)?;
        let places = self.places_of(&lowers)?;
        let joined = joined(
            self.alloc,
            log,
            held,
            &lowers,
            self.bounded.places(),
            &places,
        )?;
        let mut clauses = Vec::new(self.alloc);
        for i in 1..lowers.len() {
            if !joined[i] {
                let weaker = lowers[i - 1].literal;
                self.add_exclusion(log, lowers[i].literal, weaker.not(), &mut clauses)?;
            }
        }
        Ok(clauses)
    }

    /// The lower bounds that these atoms say, those of a form beside each other, the weakest first.
    fn lowers(&self, atoms: &[AtomId]) -> Result<Vec<Lower>, Memory>
        requires of { (list : List Atom) × (ids : List ℕ) × IsOf self.now list ids }
        requires small { (i : ℕ) → IsSome (known_at self.now i) → i < 2 ^ 31 }
        ensures known { IfOk result (λ ls. All (λ l. IsKnownOn self.now atoms.now l.literal) ls.items) }
        ensures lowers { IfOk result (λ ls. AreLowers self.now atoms.now (lits_of ls.items)) }
    {
        let mut lowers = Vec::new(self.alloc);
        for atom in atoms {
            if let Some(lower) = self.lower(*atom) {
                lowers.push(lower)?;
            }
        }
        lowers.sort_by_key(|lower| (lower.var, lower.value.c, lower.value.k))?;
        Ok(lowers)
    }

    /// The lower bound that an atom says, or its negation.
    fn lower(&self, atom: AtomId) -> Option<Lower>
        requires small { IsSome (known_at self.now atom) → atom < 2 ^ 31 }
        ensures atom { IfSome result (λ l. l.literal.atom ≡ atom) }
        ensures known { IfSome result (λ l. IsSome (known_at self.now atom)) }
        ensures lower { IfSome result (IsSaidLower self.now) }
        ensures none { result ≡ None → (l : Lit) → l.atom ≡ atom → IsLower self.now l → ⊥ }
    {
        let bounded = self.known_if(atom)?;
        let sign = bounded.lower_sign()?;
        Some(Lower {
            literal: Lit::new(atom, sign),
            var: bounded.var,
            value: bounded.said(sign).value,
        })
    }

    /// By the slots of atoms, where the bounds stand that they say; of an atom that says two, the last one.
    fn places_of(&self, lowers: &[Lower]) -> Result<Vec<usize>, Memory> {
        let slots = self.bounded.places();
        let mut places = Vec::new(self.alloc);
        if lowers.len() > 1 {
            places.resize(self.bounded.len(), 0)?;
        }
        for (place, lower) in lowers.iter().enumerate() {
            if let Some(slot) = slots.get(lower.literal.atom()) {
                if let Some(at) = places.get_mut(*slot) {
                    *at = place;
                }
            }
        }
        Ok(places)
    }

    /// What is known of an atom, where anything is.
    fn known_if(&self, atom: AtomId) -> Option<Bounded>
        ensures known { option_map known_of result ≡ known_at self.now atom }
    {
        self.bounded.get(atom)
    }

    /// Adds the clause that two literals aren't both true, where their bounds leave a form no value.
    fn add_exclusion(
        &self,
        log: &mut Log,
        literal: Lit,
        other: Lit,
        clauses: &mut Vec<ClauseId>,
    ) -> Result<(), Memory>
        requires of { (ids : List ℕ) × IsOf self.now log.old.atoms ids }
        requires known { AreKnown self.now (both literal other) }
        ensures clauses { (ids : List ℕ) → Contains ids literal.atom → Contains ids other.atom → All (IsExclusion log.old ids) clauses.old.items → OnOk result (All (IsExclusion log.new ids) clauses.new.items) }
        ensures adds { (ids : List ℕ) → Contains ids literal.atom → Contains ids other.atom → AddsOn ids log.old log.new }
        ensures fresh { (start : LogState) (held : List ℕ) → HasNone start held literal other → All (IsFresh start log.old held) clauses.old.items → OnOk result (All (IsFresh start log.new held) clauses.new.items) }
        ensures kept { (id : ℕ) → Contains clauses.old.items id → Contains clauses.new.items id }
        ensures excluded { OnOk result (AreExcluded self.now log.new clauses.new.items literal other) }
    {
        if let Some(clause) = self.exclusion(log, literal, other)? {
            clauses.push(clause)?;
        }
        Ok(())
    }

    /// The clause that two literals aren't both true, where their bounds leave a form no value, and their sum doesn't leave the numbers.
    fn exclusion(&self, log: &mut Log, literal: Lit, other: Lit) -> Result<Option<ClauseId>, Memory>
        requires of { (ids : List ℕ) × IsOf self.now log.old.atoms ids }
        requires known { AreKnown self.now (both literal other) }
        ensures clash { IfOk result (λ r. IfSome r (IsClash log.new (literal ∷ other ∷ []))) }
        ensures adds { (ids : List ℕ) → Contains ids literal.atom → Contains ids other.atom → AddsOn ids log.old log.new }
        ensures none { IfOk result (λ r. r ≡ None → AreOpposed self.now literal other → HasNoSum self.now literal other) }
    {
        clashes_contradict();
        literals_say_bounds();
        sums_stay();
        term_has_its_number();
        tells_literals();
        stored(self);
        if !self.are_opposed(literal, other) {
            return Ok(None);
        }
        match refute(self, log, &both_once(literal, other)) {
            Ok(clause) => Ok(Some(clause)),
            Err(Stop::Memory) => Err(Memory),
            // The search is right without the clause.
            Err(Stop::Wide(_)) => Ok(None),
            Err(Stop::Spent) => unreachable!(),
        }
    }

    /// Whether the one literal says a lower bound of a form, and the other an upper one below it.
    fn are_opposed(&self, literal: Lit, other: Lit) -> bool
        requires known { AreKnown self.now (both literal other) }
        ensures apart { result ≡ true → AreOpposed self.now literal other }
        ensures together { result ≡ false → AreOpposed self.now literal other → ⊥ }
    {
        let low = self.known(literal.atom());
        let high = self.known(other.atom());
        low.var == high.var && low.said(literal.sign()).is_above(&high.said(other.sign()))
    }
}

/// Which of these lower bounds have their clause with the one before them among these clauses.
fn joined(
    alloc: Global,
    log: &Log,
    held: &[ClauseId],
    lowers: &[Lower],
    slots: &[usize],
    places: &[usize],
) -> Result<Vec<bool>, Memory>
    requires live { All (IsLive log.now) held.now }
    ensures long { IfOk result (λ v. length v.items ≡ length lowers.now) }
    ensures joined { IfOk result (λ v. AreJoined log.now held.now lowers.now v.items) }
    ensures others { IfOk result (λ v. AreOpen log.now held.now lowers.now v.items) }
{
    let marks = marked(alloc, log, held, lowers, slots, places)?;
    let mut joined = Vec::new(alloc);
    for place in 0..lowers.len() {
        joined.push(is_joined(log, held, lowers, slots, places, &marks, place))?;
    }
    Ok(joined)
}

/// Where the bound of an atom stands, by the slots of atoms, if it is noted.
fn place_of(slots: &[usize], places: &[usize], atom: AtomId) -> Option<usize>
    ensures place { result ≡ place_in slots.now places.now atom }
{
    let slot = slots.get(atom)?;
    places.get(*slot).copied()
}

/// Marks bounds that have their clause among these: each that is noted has its mark then.
fn marked(
    alloc: Global,
    log: &Log,
    held: &[ClauseId],
    lowers: &[Lower],
    slots: &[usize],
    places: &[usize],
) -> Result<Vec<bool>, Memory>
    requires live { All (IsLive log.now) held.now }
    ensures joined { IfOk result (λ v. AreJoined log.now held.now lowers.now v.items) }
    ensures noted { IfOk result (λ v. AreMarked log.now held.now lowers.now slots.now places.now v.items) }
{
    let mut marks = Vec::new(alloc);
    marks.resize(lowers.len(), false)?;
    for id in held {
        mark(lowers, slots, places, log.clause(*id), &mut marks);
    }
    Ok(marks)
}

/// Marks what a clause joins, where the bound is noted.
fn mark(lowers: &[Lower], slots: &[usize], places: &[usize], clause: &[Lit], marks: &mut Vec<bool>)
    requires long { length marks.old.items ≡ length lowers.now }
    ensures marks { Marks lowers.now clause.now marks.old.items marks.new.items }
    ensures noted { (i : ℕ) → 0 < i → IsNoted lowers.now slots.now places.now i → Joins lowers.now i clause.now → slice_get marks.new.items i ≡ Some true }
{
    let [first, second] = clause else {
        return;
    };
    mark_by(lowers, slots, places, *first, clause, marks);
    mark_by(lowers, slots, places, *second, clause, marks);
}

/// Marks the bound that is noted for the atom of a literal, if the clause joins it.
fn mark_by(
    lowers: &[Lower],
    slots: &[usize],
    places: &[usize],
    negated: Lit,
    clause: &[Lit],
    marks: &mut Vec<bool>,
)
    requires long { length marks.old.items ≡ length lowers.now }
    ensures marks { Marks lowers.now clause.now marks.old.items marks.new.items }
    ensures noted { (i : ℕ) → 0 < i → place_in slots.now places.now negated.atom ≡ Some i → Joins lowers.now i clause.now → slice_get marks.new.items i ≡ Some true }
{
    let Some(place) = place_of(slots, places, negated.atom()) else {
        return;
    };
    if !joins(lowers, place, clause) {
        return;
    }
    marks[place] = true;
}

/// Whether one of these clauses says that a bound and the negation of the one before it aren't both true.
fn is_joined(
    log: &Log,
    held: &[ClauseId],
    lowers: &[Lower],
    slots: &[usize],
    places: &[usize],
    marks: &[bool],
    place: usize,
) -> bool
    requires live { All (IsLive log.now) held.now }
    requires joined { AreJoined log.now held.now lowers.now marks.now }
    requires noted { AreMarked log.now held.now lowers.now slots.now places.now marks.now }
    ensures yes { result ≡ true → HasJoint log.now held.now lowers.now place }
    ensures no { result ≡ false → HasNoJoint log.now held.now lowers.now place }
{
    if is_marked(marks, place) {
        return true;
    }
    if is_noted(lowers, slots, places, place) {
        return false;
    }
    has_joint(log, held, lowers, place)
}

/// Whether a place is marked.
fn is_marked(marks: &[bool], place: usize) -> bool
    ensures marked { result ≡ true → slice_get marks.now place ≡ Some true }
    ensures unmarked { result ≡ false → slice_get marks.now place ≡ Some true → ⊥ }
{
    match marks.get(place) {
        Some(mark) => *mark,
        None => false,
    }
}

/// Whether a bound is the one that is noted for its atom.
fn is_noted(lowers: &[Lower], slots: &[usize], places: &[usize], place: usize) -> bool
    ensures noted { result ≡ true → IsNoted lowers.now slots.now places.now place }
{
    let Some(lower) = lowers.get(place) else {
        return false;
    };
    match place_of(slots, places, lower.literal.atom()) {
        Some(at) => at == place,
        None => false,
    }
}

/// Whether one of these clauses joins a bound with the one before it. Asked only of an atom that says two bounds.
fn has_joint(log: &Log, held: &[ClauseId], lowers: &[Lower], place: usize) -> bool
    requires live { All (IsLive log.now) held.now }
    ensures yes { result ≡ true → HasJoint log.now held.now lowers.now place }
    ensures no { result ≡ false → HasNoJoint log.now held.now lowers.now place }
{
    for id in held {
        if joins(lowers, place, log.clause(*id)) {
            return true;
        }
    }
    false
}

/// Whether a clause says that a bound and the negation of the one before it aren't both true.
fn joins(lowers: &[Lower], place: usize, clause: &[Lit]) -> bool
    ensures within { result ≡ true → place < length lowers.now }
    ensures yes { result ≡ true → Joins lowers.now place clause.now }
    ensures no { result ≡ false → 0 < place → Joins lowers.now place clause.now → ⊥ }
{
    let [first, second] = clause else {
        return false;
    };
    is_pair(lowers, place, *first, *second) || is_pair(lowers, place, *second, *first)
}

/// Whether the one literal is the negation of the bound of a place, and the other one says the bound before it.
fn is_pair(lowers: &[Lower], place: usize, negated: Lit, weaker: Lit) -> bool
    ensures within { result ≡ true → place < length lowers.now }
    ensures yes { result ≡ true → IsPair lowers.now place negated weaker }
    ensures no { result ≡ false → 0 < place → IsPair lowers.now place negated weaker → ⊥ }
{
    tells_lits();
    let Some(last) = place.checked_sub(1) else {
        return false;
    };
    let Some(stronger) = lowers.get(place) else {
        return false;
    };
    let Some(before) = lowers.get(last) else {
        return false;
    };
    negated.is(stronger.literal.not()) && weaker.is(before.literal) && !weaker.is(negated)
}

//! Propagation: what a clause makes true whose other literals are false.
ghost use Rattle.std.specs.Prelude.{◌≡◌, ◌≢◌, ℕ, ◌<◌, Contains, IfNone, IfOk, IfSome, None, OnOk, length, Some};
ghost use Rattle.nz_log.specs.Logs.{literals_at};
ghost use Rattle.nz_sat.specs.declared.clauses.WatchedClause.{WatchedClause};
ghost use Rattle.nz_sat.specs.declared.propagate.Visit.TheVariants.{Moved};
ghost use Rattle.nz_sat.specs.Clauses.{AreFalseBut, HasTrue, IsFalsified, IsWatchedIn, Visits};
ghost use Rattle.nz_sat.specs.Lists.{TakesOut, list_of};
ghost use Rattle.nz_sat.specs.Trails.{IsFalseOn, IsTrail};
ghost use Rattle.nz_sat.specs.Watched.{AreWatched, ComesOf, HasClause, IsConflictIn, IsLastOf, KeepsClauses, MayRewatch, Settles, held_at, watch_state};
ghost use Rattle.slab.specs.Slab.{ContainsKey, Updates};

use crate::clauses::WatchedClause;
use crate::propagation::{Propagation, watch};
use crate::trail::Trail;
use nz_base::Memory;
use nz_log::laws::tells_lits;
use nz_log::{ClauseId, Lit, Log};
use slab::Slab;

/// What came of a look at a clause in which a false literal is watched.
enum Visit {
    /// It stays in the list of the literal: it has a true literal.
    Stays,
    /// Another literal is watched in its place.
    Moved,
    /// Each literal is false.
    Falsified(ClauseId),
}

impl Propagation {
    /// Makes true what the clauses make true, up to the first clause in which each literal is false.
    ///
    /// # Errors
    ///
    /// `Memory`. Then some literals may have become true.
    pub fn propagate(&mut self, log: &Log, trail: &mut Trail) -> Result<Option<ClauseId>, Memory>
        requires watched { AreWatched log.now (watch_state self.old trail.old) }
        ensures watched { AreWatched log.now (watch_state self.new trail.new) }
        ensures visits { Visits log.now (λ us. (i : ℕ) → HasClause self.old i → Contains us i) trail.old trail.new }
        ensures keeps { KeepsClauses self.old self.new }
        ensures all { IfOk result (λ o. o ≡ None → self.new.head ≡ length trail.new.entries) }
        ensures falsified { IfOk result (λ o. IfSome o (λ id. HasClause self.new id × IsFalsified trail.new.entries (literals_at log.now id))) }
    {
        while self.head < trail.len() {
            let literal = trail.entry(self.head).literal;
            let falsified = self.visit_all(log, trail, literal.not())?;
            if falsified.is_some() {
                return Ok(falsified);
            }
            self.head += 1;
        }
        Ok(None)
    }

    /// Looks at the clauses in which a literal is watched that has become false, up to the first one in which each literal is.
    fn visit_all(
        &mut self,
        log: &Log,
        trail: &mut Trail,
        literal: Lit,
    ) -> Result<Option<ClauseId>, Memory>
        requires watched { AreWatched log.now (watch_state self.old trail.old) }
        requires order { IsTrail trail.old }
        requires falls { IsFalseOn trail.old.entries literal }
        requires within { literal.atom < trail.old.size }
        ensures watched { AreWatched log.now (watch_state self.new trail.new) }
        ensures visits { Visits log.now (λ us. (i : ℕ) → HasClause self.old i → Contains us i) trail.old trail.new }
        ensures keeps { KeepsClauses self.old self.new }
        ensures head { self.new.head ≡ self.old.head }
        // What comes true later leaves no clause behind in which the literal is watched.
        ensures visited { IfOk result (λ o. IfNone o ((key : ℕ) (h : WatchedClause) → held_at self.new key ≡ Some h → IsWatchedIn h literal → HasTrue trail.new.entries (literals_at log.now h.id))) }
        ensures falsified { IfOk result (λ o. IfSome o (IsConflictIn log.now (watch_state self.new trail.new))) }
    {
        let mut i = 0;
        while i < self.watches.count(literal) {
            match self.visit(log, trail, literal, i)? {
                Visit::Stays => i += 1,
                Visit::Moved => {}
                Visit::Falsified(id) => return Ok(Some(id)),
            }
        }
        Ok(None)
    }

    /// Looks at the clause of a place in the list of a literal.
    fn visit(
        &mut self,
        log: &Log,
        trail: &mut Trail,
        literal: Lit,
        i: usize,
    ) -> Result<Visit, Memory>
        requires watched { AreWatched log.now (watch_state self.old trail.old) }
        requires order { IsTrail trail.old }
        requires falls { IsFalseOn trail.old.entries literal }
        requires within { literal.atom < trail.old.size }
        requires inside { i < length (list_of self.old.watches literal) }
        ensures watched { AreWatched log.now (watch_state self.new trail.new) }
        ensures visits { Visits log.now (λ us. (i : ℕ) → HasClause self.old i → Contains us i) trail.old trail.new }
        ensures keeps { KeepsClauses self.old self.new }
        ensures head { self.new.head ≡ self.old.head }
        ensures comes { IfOk result (ComesOf log.now (watch_state self.old trail.old) (watch_state self.new trail.new) literal i) }
    {
        let watch = self.watches.at(literal, i);
        if trail.value(watch.blocker) == Some(true) {
            return Ok(Visit::Stays);
        }
        let key = watch.key as usize;
        if watch.is_short {
            return Ok(self.settle(log, trail, key, watch.blocker));
        }
        let clause = self.clauses[key];
        let other = clause.other(literal);
        if trail.value(other) == Some(true) {
            self.watches.block(literal, i, other);
            return Ok(Visit::Stays);
        }
        match another(trail, log.clause(clause.id), other) {
            Some(next) => self.rewatch(log, trail, literal, i, next, other),
            None => Ok(self.settle(log, trail, key, other)),
        }
    }

    /// Watches another literal in the place of a false one, beside the other one that is watched.
    fn rewatch(
        &mut self,
        log: &Log,
        trail: &Trail,
        literal: Lit,
        i: usize,
        next: Lit,
        other: Lit,
    ) -> Result<Visit, Memory>
        requires watched { AreWatched log.now (watch_state self.old trail.now) }
        requires order { IsTrail trail.now }
        requires falls { IsFalseOn trail.now.entries literal }
        requires moves { MayRewatch log.now (watch_state self.old trail.now) literal i next other }
        ensures watched { AreWatched log.now (watch_state self.new trail.now) }
        ensures keeps { KeepsClauses self.old self.new }
        ensures head { self.new.head ≡ self.old.head }
        ensures moved { IfOk result (λ v. v ≡ Moved) }
        ensures list { OnOk result (TakesOut i (list_of self.old.watches literal) (list_of self.new.watches literal)) }
    {
        let key = self.watches.at(literal, i).key;
        self.watches.reserve(next)?;
        self.watches.put(next, watch(key, other, false));
        self.watches.remove(literal, i);
        let key = key as usize;
        let clause = self.clauses[key].with(literal, next);
        replace(&mut self.clauses, key, clause);
        Ok(Visit::Moved)
    }

    /// A clause each of whose literals is false but maybe this one makes it true, if it isn't false too.
    fn settle(&self, log: &Log, trail: &mut Trail, key: usize, last: Lit) -> Visit
        requires watched { AreWatched log.now (watch_state self.now trail.old) }
        requires last { IsLastOf log.now (watch_state self.now trail.old) key last }
        ensures watched { AreWatched log.now (watch_state self.now trail.new) }
        ensures visits { Visits log.now (λ us. (i : ℕ) → HasClause self.now i → Contains us i) trail.old trail.new }
        ensures settled { Settles log.now (watch_state self.now trail.new) key result }
    {
        let id = self.clauses[key].id;
        match trail.value(last) {
            Some(true) => Visit::Stays,
            Some(false) => Visit::Falsified(id),
            None => {
                trail.imply(last, id);
                Visit::Stays
            }
        }
    }
}

/// Puts another clause under a key that has one.
fn replace(clauses: &mut Slab<WatchedClause>, key: usize, clause: WatchedClause)
    requires there { ContainsKey clauses.old key }
    ensures updates { Updates clauses.old clauses.new key (Some clause) }
{
    clauses[key] = clause;
}

/// A literal of these that isn't false, beside this one.
fn another(trail: &Trail, literals: &[Lit], but: Lit) -> Option<Lit>
    ensures found { IfSome result (λ l. Contains literals.now l) }
    ensures other { IfSome result (λ l. l ≢ but) }
    ensures stands { IfSome result (λ l. IsFalseOn trail.now.entries l → ⊥) }
    ensures none { IfNone result (AreFalseBut trail.now.entries but literals.now) }
{
    tells_lits();
    for literal in literals {
        if !literal.is(but) && trail.value(*literal) != Some(false) {
            return Some(*literal);
        }
    }
    None
}

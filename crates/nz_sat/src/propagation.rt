//! What clauses make true: the clauses by the literals that are watched in them, and how far a trail was looked at.
ghost use Rattle.std.specs.Prelude.{◌≡◌, ◌≢◌, ℕ, ◌*◌, ◌<◌, ◌≤◌, ◌⊎◌, true, false, [], ◌∷◌, ◌++◌, All, Contains, IfSome, None, OnErr, OnOk, Some, length, min};
ghost use Rattle.nz_log.specs.declared.lits.Lit.{Lit};
ghost use Rattle.nz_log.specs.Logs.{IsLive, LogState, literals_at};
ghost use Rattle.nz_sat.specs.declared.clauses.Held.{Held};
ghost use Rattle.nz_sat.specs.Clauses.{HasTrue, IsFalsified, IsLoneIn, Visits, watched_as};
ghost use Rattle.nz_log.specs.Codes.{code_of};
ghost use Rattle.nz_sat.specs.Trails.{TrailState, empty_trail};
ghost use Rattle.nz_sat.specs.Watched.{AreWatched, HoldsAs, MayHold, PutsClause, held_at, lone_ids, watch_state};

use crate::clauses::{Held, WatchedClause};
use crate::trail::Trail;
use crate::watches::{Watch, Watches};
use nz_base::Memory;
use nz_log::{ClauseId, Lit, Log};
use slab::Slab;
use std::alloc::Global;

// How many clauses there are at most that are watched.
const MOST_WATCHED: usize = 1 << 32;

/// The clauses of a search, each with two watched literals, or with none where it has no two different ones.
#[derive(Debug, Drop)]
pub struct Propagation {
    pub(crate) watches: Watches,
    // By keys, which are used again where clauses went.
    pub(crate) clauses: Slab<WatchedClause>,
    // Those that have no two different literals.
    pub(crate) lone: Vec<Held>,
    /// How many entries of the trail were looked at.
    pub head: usize,
}

impl Propagation {
    /// No clauses, for no atoms. Takes no memory.
    pub fn new(alloc: Global) -> Propagation
        ensures none { (h : Held) → HoldsAs result h → ⊥ }
        ensures head { result.head ≡ 0 }
        ensures watched { (s : LogState) → AreWatched s (watch_state result (empty_trail 0)) }
    {
        Propagation {
            watches: Watches::new(alloc),
            clauses: Slab::new(alloc),
            lone: Vec::new(alloc),
            head: 0,
        }
    }

    /// Makes room for atoms below a number.
    ///
    /// # Errors
    ///
    /// `Memory`. Then there may be room for some more.
    pub fn fit(&mut self, size: usize) -> Result<(), Memory>
        ensures room { OnOk result (2 * size ≤ length self.new.watches.lists.items) }
        ensures same { (s : LogState) (t : TrailState) → AreWatched s (watch_state self.old t) → AreWatched s (watch_state self.new t) }
        ensures kept { (h : Held) → HoldsAs self.old h → HoldsAs self.new h }
        ensures only { (h : Held) → HoldsAs self.new h → HoldsAs self.old h }
        ensures head { self.new.head ≡ self.old.head }
    {
        let Some(literals) = size.checked_mul(2) else {
            return Err(Memory);
        };
        self.watches.fit(literals)
    }

    /// Holds a clause, of which these two literals are watched, or none where it has no two different ones.
    ///
    /// # Errors
    ///
    /// `Memory`.
    pub fn hold(&mut self, log: &Log, held: Held, pair: Option<(Lit, Lit)>) -> Result<(), Memory>
        requires live { IsLive log.now held.id }
        requires within { IfSome pair (λ p. (code_of p.0 < length self.old.watches.lists.items) × (code_of p.1 < length self.old.watches.lists.items)) }
        requires differ { IfSome pair (λ p. p.0 ≢ p.1) }
        ensures watched { OnOk result ((t : TrailState) → AreWatched log.now (watch_state self.old t) → MayHold log.now t self.old.head held pair → AreWatched log.now (watch_state self.new t)) }
        ensures has { OnOk result (HoldsAs self.new held) }
        ensures kept { (h : Held) → HoldsAs self.old h → HoldsAs self.new h }
        ensures only { (h : Held) → HoldsAs self.new h → HoldsAs self.old h ⊎ (held ≡ h) }
        ensures room { length self.new.watches.lists.items ≡ length self.old.watches.lists.items }
        ensures head { self.new.head ≡ self.old.head }
        // Where none are watched.
        ensures lone { OnOk result (pair ≡ None → self.new.lone.items ≡ self.old.lone.items ++ held ∷ []) }
        ensures no_more_lone { IfSome pair (λ p. self.new.lone ≡ self.old.lone) }
    {
        match pair {
            Some((first, second)) => self.watch(log, held, first, second),
            None => {
                self.lone.push(held)?;
                Ok(())
            }
        }
    }

    /// Holds a clause, of which these two literals are watched.
    ///
    /// # Errors
    ///
    /// `Memory`, also where there are as many as keys. Then the same clauses are held as before.
    fn watch(&mut self, log: &Log, held: Held, first: Lit, second: Lit) -> Result<(), Memory>
        requires live { IsLive log.now held.id }
        requires first { code_of first < length self.old.watches.lists.items }
        requires second { code_of second < length self.old.watches.lists.items }
        requires differ { first ≢ second }
        ensures watched { OnOk result ((t : TrailState) → AreWatched log.now (watch_state self.old t) → MayHold log.now t self.old.head held (Some (first, second)) → AreWatched log.now (watch_state self.new t)) }
        ensures puts { OnOk result (PutsClause (held_at self.old) (held_at self.new) self.old.clauses.vacant_key (watched_as held (first, second))) }
        ensures unchanged { OnErr result ((key : ℕ) → held_at self.new key ≡ held_at self.old key) }
        ensures room { length self.new.watches.lists.items ≡ length self.old.watches.lists.items }
        ensures lone { self.new.lone ≡ self.old.lone }
        ensures head { self.new.head ≡ self.old.head }
    {
        let key = self.clauses.vacant_key();
        if key >= MOST_WATCHED {
            return Err(Memory);
        }
        self.clauses.reserve(1)?;
        self.watches.reserve(first)?;
        self.watches.reserve(second)?;
        let is_short = log.clause(held.id).len() == 2;
        self.clauses
            .insert_reserved(WatchedClause::of(held, first, second));
        self.watches.put(first, watch(key as u32, second, is_short));
        self.watches.put(second, watch(key as u32, first, is_short));
        Ok(())
    }

    /// Makes the literals true of the clauses that have but one. Answers such a clause whose literal is false, or one that has no literal.
    pub fn assert_lone(&self, log: &Log, trail: &mut Trail) -> Option<ClauseId>
        requires lone { All (IsLoneIn log.now trail.old.size) (lone_ids self.now) }
        ensures visits { Visits log.now (λ us. All (Contains us) (lone_ids self.now)) trail.old trail.new }
        ensures hold { result ≡ None → All (λ i. HasTrue trail.new.entries (literals_at log.now i)) (lone_ids self.now) }
        ensures falsified { IfSome result (λ id. Contains (lone_ids self.now) id × IsFalsified trail.new.entries (literals_at log.now id)) }
    {
        for held in &self.lone {
            if !assert_one(log, trail, held.id) {
                return Some(held.id);
            }
        }
        None
    }

    /// Forgets what was looked at behind the first places of the trail, so many of them.
    pub fn cut(&mut self, places: usize)
        ensures cut { self.new ≡ record self.old { head = min self.old.head places } }
    {
        if places < self.head {
            self.head = places;
        }
    }
}

/// Makes the literal of a clause true that has but one. Answers whether it is true then.
fn assert_one(log: &Log, trail: &mut Trail, id: ClauseId) -> bool
    requires lone { IsLoneIn log.now trail.old.size id }
    ensures visits { Visits log.now (λ us. Contains us id) trail.old trail.new }
    ensures holds { result ≡ true → HasTrue trail.new.entries (literals_at log.now id) }
    ensures falsified { result ≡ false → IsFalsified trail.new.entries (literals_at log.now id) }
{
    let Some(literal) = log.clause(id).first() else {
        return false;
    };
    match trail.value(*literal) {
        Some(truth) => truth,
        None => {
            trail.imply(*literal, id);
            true
        }
    }
}

/// A watch of the clause of this key.
pub(crate) fn watch(key: u32, blocker: Lit, is_short: bool) -> Watch
    ensures watch { result ≡ record { key = key; blocker = blocker; is_short = is_short } }
{
    Watch {
        key,
        blocker,
        is_short,
    }
}

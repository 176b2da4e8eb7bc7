//! The trail: which literals are true, in the order in which they became so.
ghost use Rattle.std.specs.Prelude.{◌≡◌, ◌^◌, ◌<◌, ◌≤◌, [], ◌∷◌, ◌++◌, length, map, IfOk, MatchOption, option_map, slice_get};
ghost use Rattle.nz_sat.specs.Trails.{AreTruthsOn, AreUpTo, DropsLast, HasValue, IsTrail, assigned, decided, depth, empty_trail, implied, level_on, with_entry};

use nz_base::Memory;
use nz_log::{AtomId, ClauseId, Lit};
use std::alloc::{AllocError, Global};
use std::marker::Model;

/// A literal that is true on a trail.
#[derive(Clone, Copy, Debug, PartialEq, Eq)]
pub struct Assigned {
    pub literal: Lit,
    /// How many decisions it stands under, itself among them.
    pub level: usize,
    /// The clause that made it true, by the literals before it. One that is assumed or decided has none.
    pub reason: Option<ClauseId>,
}

/// The literals that are true. A contract sees them, the oldest first, and below which number all atoms are.
#[derive(Debug, Drop)]
pub struct Trail {
    // Has room for each atom.
    entries: Vec<Assigned>,
    // By the numbers of atoms.
    by_atom: Vec<Option<Assigned>>,
    // By the numbers of literals: whether each is true, where its atom is decided.
    values: Vec<Option<bool>>,
}

impl Model for Trail {
    ghost use Rattle.nz_sat.specs.Trails.{TrailState};

    ghost Value = { TrailState };

    ghost use Rattle.nz_sat.specs.Stored.{IsTabled, trail_of};

    ghost view = { λ t. trail_of t.entries.items t.by_atom.items };

    ghost invariant = { λ t. IsTabled t.entries t.by_atom.items t.values.items };
}

impl Trail {
    /// A trail without entries, for atoms below a number.
    pub fn new(alloc: Global, size: usize) -> Result<Trail, Memory>
        ensures empty { IfOk result (λ t. t ≡ empty_trail size) }
    {
        let Some(literals) = size.checked_mul(2) else {
            return Err(Memory);
        };
        Ok(Trail {
            entries: Vec::with_capacity(alloc, size)?,
            by_atom: vec![in alloc; None; size]?,
            values: vec![in alloc; None; literals]?,
        })
    }

    /// How many literals are true.
    pub fn len(&self) -> usize
        ensures count { result ≡ length self.now.entries }
        ensures within { result ≤ self.now.size }
        ensures trail { IsTrail self.now }
    {
        self.entries.len()
    }

    /// The entry of a place, counted from 0.
    pub fn entry(&self, i: usize) -> Assigned
        requires within { i < length self.now.entries }
        ensures entry { slice_get self.now.entries i ≡ Some result }
    {
        self.entries[i]
    }

    /// The entry of an atom.
    pub fn assigned(&self, atom: AtomId) -> Option<Assigned>
        ensures assigned { result ≡ assigned self.now.entries atom }
    {
        match self.by_atom.get(atom) {
            Some(entry) => *entry,
            None => None,
        }
    }

    /// Whether a literal is true, where its atom is decided.
    pub fn value(&self, literal: Lit) -> Option<bool>
        ensures value { HasValue self.now.entries literal result }
    {
        match self.values.get(literal.code()) {
            Some(value) => *value,
            None => None,
        }
    }

    /// The level at which an atom was decided, 0 where it isn't.
    pub fn level_of(&self, atom: AtomId) -> usize
        ensures level { result ≡ level_on self.now.entries atom }
    {
        match self.assigned(atom) {
            Some(entry) => entry.level,
            None => 0,
        }
    }

    /// How many decisions the trail has.
    pub fn level(&self) -> usize
        ensures level { result ≡ depth self.now.entries }
        ensures small { result < 2 ^ 63 }
    {
        match self.entries.last() {
            Some(entry) => entry.level,
            None => 0,
        }
    }

    /// Puts a literal on the trail.
    fn put(&mut self, entry: Assigned)
        requires free { assigned self.old.entries entry.literal.atom ≡ None }
        requires within { entry.literal.atom < self.old.size }
        requires level { entry.level ≡ depth (self.old.entries ++ entry ∷ []) }
        ensures put { self.new ≡ with_entry self.old entry }
        ensures order { IsTrail self.new }
    {
        let literal = &entry.literal;
        let atom = literal.atom();
        let code = literal.code();
        let opposite = literal.not().code();
        self.by_atom[atom] = Some(entry);
        self.values[code] = Some(true);
        self.values[opposite] = Some(false);
        self.entries.push(entry).unwrap();
    }

    /// Puts an assumed literal on the trail, before the first decision.
    pub fn assume(&mut self, literal: Lit)
        requires free { assigned self.old.entries literal.atom ≡ None }
        requires within { literal.atom < self.old.size }
        requires undecided { depth self.old.entries ≡ 0 }
        ensures put { self.new ≡ with_entry self.old (record { literal = literal; level = 0; reason = None }) }
        ensures order { IsTrail self.new }
    {
        self.put(Assigned {
            literal,
            level: 0,
            reason: None,
        });
    }

    /// Decides a literal.
    pub fn decide(&mut self, literal: Lit)
        requires free { assigned self.old.entries literal.atom ≡ None }
        requires within { literal.atom < self.old.size }
        ensures put { self.new ≡ with_entry self.old (decided self.old.entries literal) }
        ensures order { IsTrail self.new }
    {
        let level = self.level() + 1;
        self.put(Assigned {
            literal,
            level,
            reason: None,
        });
    }

    /// Puts a literal on the trail that a clause makes true.
    pub fn imply(&mut self, literal: Lit, reason: ClauseId)
        requires free { assigned self.old.entries literal.atom ≡ None }
        requires within { literal.atom < self.old.size }
        ensures put { self.new ≡ with_entry self.old (implied self.old.entries literal reason) }
        ensures order { IsTrail self.new }
    {
        let level = self.level();
        self.put(Assigned {
            literal,
            level,
            reason: Some(reason),
        });
    }

    /// Takes the last literal off, if it is above a level.
    pub fn pop_above(&mut self, level: usize) -> Option<Lit>
        ensures size { self.new.size ≡ self.old.size }
        ensures taken { MatchOption result (self.new ≡ self.old) (DropsLast level self.old.entries self.new.entries) }
        ensures below { result ≡ None → AreUpTo level self.new.entries }
    {
        let last = *self.entries.last()?;
        if last.level <= level {
            return None;
        }
        self.entries.pop();
        self.by_atom[last.literal.atom()] = None;
        self.values[last.literal.code()] = None;
        self.values[last.literal.not().code()] = None;
        Some(last.literal)
    }

    /// The truth of each atom, by number.
    pub fn truths(&self, alloc: Global) -> Result<Vec<Option<bool>>, Memory>
        ensures truths { IfOk result (λ v. AreTruthsOn self.now.entries v.items) }
    {
        Ok(signs(alloc, &self.by_atom)?)
    }
}

/// The sign of an entry.
fn sign_of(entry: &Option<Assigned>) -> Option<bool>
    ensures sign { result ≡ option_map (λ e. e.literal.sign) entry.now }
{
    match entry {
        Some(assigned) => Some(assigned.literal.sign()),
        None => None,
    }
}

/// The signs of these entries.
fn signs(alloc: Global, entries: &[Option<Assigned>]) -> Result<Vec<Option<bool>>, AllocError>
    ensures signs { IfOk result (λ v. v.items ≡ map (option_map (λ e. e.literal.sign)) entries.now) }
{
    entries.iter().map(sign_of).collect(alloc)
}

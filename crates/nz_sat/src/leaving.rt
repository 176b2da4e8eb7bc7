//! Clauses of a search that go, each out of its two lists.
ghost use Rattle.std.specs.Prelude.{◌≡◌, ◌<◌, ℕ, true, false, length, None, Some};
ghost use Rattle.slab.specs.Slab.{ContainsKey, Updates};
ghost use Rattle.nz_sat.specs.declared.clauses.WatchedClause.{WatchedClause};
ghost use Rattle.nz_sat.specs.Clauses.{held_as};
ghost use Rattle.nz_sat.specs.Sats.{held_part, is_in};
ghost use Rattle.nz_sat.specs.Watched.{HaveLists, KeepsPart, KeepsWatched, StayListed, held_at};

use crate::clauses::{Held, Part};
use crate::propagation::Propagation;

impl Propagation {
    /// Leaves just the clauses of a part. Takes no memory.
    pub fn keep(&mut self, part: Part)
        requires listed { HaveLists self.old }
        ensures keeps { KeepsPart part self.old self.new }
    {
        for key in (0..self.keys()).rev() {
            self.keep_one(key, part);
        }
        self.keep_lone(part);
    }

    /// All keys that have a clause are below it.
    fn keys(&self) -> usize
        ensures all { (key : ℕ) (c : WatchedClause) → held_at self.now key ≡ Some c → key < result }
    {
        self.clauses.capacity()
    }

    /// Takes the clause of a key out, if it isn't of a part.
    fn keep_one(&mut self, key: usize, part: Part)
        requires listed { HaveLists self.old }
        ensures keeps { KeepsWatched part (λ k. k ≡ key) self.old self.new }
        ensures lone { self.new.lone ≡ self.old.lone }
    {
        if self.goes(key, part) {
            self.leave(key);
        }
    }

    /// Whether a clause stands under a key that isn't of a part.
    fn goes(&self, key: usize, part: Part) -> bool
        ensures goes { result ≡ true → (c : WatchedClause) × (held_at self.now key ≡ Some c) × (is_in part (held_as c) ≡ false) }
        ensures stays { result ≡ false → (c : WatchedClause) → held_at self.now key ≡ Some c → is_in part (held_as c) ≡ true }
    {
        match self.clauses.get(key) {
            Some(clause) => !part.has(clause.held()),
            None => false,
        }
    }

    /// Takes the clause of a key out of the lists of its two literals.
    fn leave(&mut self, key: usize)
        requires there { ContainsKey self.old.clauses key }
        requires listed { HaveLists self.old }
        ensures gone { Updates self.old.clauses self.new.clauses key None }
        ensures listed { StayListed self.old self.new }
        ensures room { length self.new.watches.lists.items ≡ length self.old.watches.lists.items }
        ensures lone { self.new.lone ≡ self.old.lone }
        ensures head { self.new.head ≡ self.old.head }
    {
        let clause = self.clauses.remove(key);
        self.watches.leave(clause.first, key);
        self.watches.leave(clause.second, key);
    }

    /// Leaves just those of a part that have no two different literals.
    fn keep_lone(&mut self, part: Part)
        ensures rest { self.new ≡ record self.old { lone = self.new.lone } }
        ensures lone { self.new.lone.items ≡ held_part part self.old.lone.items }
    {
        self.lone.retain(
            |held: &Held| -> bool
                ensures { result ≡ is_in part held.now }
            { part.has(*held) },
        );
    }
}

//! What was added by level: asserted terms and numbers.
ghost use Rattle.std.specs.Prelude.{◌≡◌, ◌-◌, ◌<◌, ◌≤◌, [], ◌∷◌, ◌++◌, length, min, take, None, IfSome, OnOk, OnErr};
ghost use Rattle.nz_search.specs.Levels.{empty_level, with_added};
ghost use Rattle.nz_engine.specs.Levels.{IsPlaced, by_level, count_of, level_of, levels_of, of_kind};

use crate::prepared::atoms::is_boolean;
use nz_base::Memory;
use nz_term::{TermId, Terms};
use std::alloc::Global;
use std::marker::Model;

/// Which of the terms of a level.
#[derive(Clone, Copy, Debug, PartialEq, Eq)]
pub enum Kind {
    /// Those of sort `Bool`, which are asserted.
    Asserted,
    /// Those of sort `Int` or `Real`.
    Number,
}

/// A term that was added, and the number of its level.
#[derive(Clone, Copy, Debug, PartialEq, Eq)]
pub struct Placed {
    pub term: TermId,
    pub level: usize,
}

/// The numbers of the terms that were added in a level.
#[derive(Debug, Drop)]
pub struct AddedTerms {
    asserted: Vec<TermId>,
    numbers: Vec<TermId>,
}

impl AddedTerms {
    /// Those of a kind.
    fn of_kind(&self, kind: Kind) -> &[TermId]
        ensures terms { result.now ≡ of_kind kind (level_of self.now) }
    {
        match kind {
            Kind::Asserted => &self.asserted,
            Kind::Number => &self.numbers,
        }
    }
}

/// The numbers of the terms that were added by level, the oldest level first.
#[derive(Debug, Drop)]
pub struct Levels {
    levels: Vec<AddedTerms>,
}

impl Model for Levels {
    ghost use Rattle.std.specs.Prelude.{List};
    ghost use Rattle.nz_search.specs.Levels.{Level};
    ghost use Rattle.nz_engine.specs.Levels.{levels_of};

    ghost Value = { List Level };

    ghost view = { λ l. levels_of l.levels.items };
}

impl Levels {
    /// No level. Takes no memory.
    pub fn new(alloc: Global) -> Levels
        ensures none { result ≡ [] }
    {
        Levels {
            levels: Vec::new(alloc),
        }
    }

    /// How many levels there are.
    pub fn len(&self) -> usize
        ensures count { result ≡ length self.now }
    {
        self.levels.len()
    }

    /// The term of a kind that stands at this place, in the order of the levels.
    pub fn at(&self, kind: Kind, place: usize) -> Option<Placed>
        ensures placed { IfSome result (λ p. IsPlaced (by_level kind self.now) place p.term p.level) }
        ensures none { result ≡ None → count_of (by_level kind self.now) ≤ place }
    {
        placed_in(&self.levels, kind, place)
    }

    /// How many terms of a kind there are, but at most this count.
    pub fn count_up_to(&self, kind: Kind, most: usize) -> usize
        ensures count { result ≡ min most (count_of (by_level kind self.now)) }
    {
        most - left_of(&self.levels, kind, most)
    }

    /// Begins a level, to which nothing was added yet.
    ///
    /// # Errors
    ///
    /// `Memory`. Then the levels are as before.
    pub fn push(&mut self) -> Result<(), Memory>
        ensures ok { OnOk result (self.new ≡ self.old ++ empty_level ∷ []) }
        ensures err { OnErr result (self.new ≡ self.old) }
    {
        let alloc = *self.levels.allocator();
        let level = AddedTerms {
            asserted: Vec::new(alloc),
            numbers: Vec::new(alloc),
        };
        self.levels.push(level)?;
        Ok(())
    }

    /// Takes the last levels off, so many of them. Takes no memory.
    pub fn pop(&mut self, count: usize)
        requires { count ≤ length self.old }
        ensures rest { self.new ≡ take (length self.old - count) self.old }
    {
        self.levels.truncate(self.levels.len() - count);
    }

    /// Adds the term of this number to the last level, by its sort.
    ///
    /// # Errors
    ///
    /// `Memory`. Then the levels are as before.
    pub fn add(&mut self, terms: &Terms, term: TermId) -> Result<(), Memory>
        requires some { 0 < length self.old }
        requires within { term < length terms.now }
        ensures ok { OnOk result (self.new ≡ with_added terms.now self.old term) }
        ensures err { OnErr result (self.new ≡ self.old) }
    {
        let last = self.levels.len() - 1;
        if is_boolean(terms, term) {
            self.levels[last].asserted.push(term)?;
        } else {
            self.levels[last].numbers.push(term)?;
        }
        Ok(())
    }
}

/// The term of a kind that stands at this place in these levels.
fn placed_in(levels: &[AddedTerms], kind: Kind, place: usize) -> Option<Placed>
    ensures placed { IfSome result (λ p. IsPlaced (by_level kind (levels_of levels.now)) place p.term p.level) }
    ensures none { result ≡ None → count_of (by_level kind (levels_of levels.now)) ≤ place }
{
    let mut left = place;
    for (level, added) in levels.iter().enumerate() {
        let terms = added.of_kind(kind);
        match terms.get(left) {
            Some(term) => return Some(Placed { term: *term, level }),
            None => left -= terms.len(),
        }
    }
    None
}

/// What is left of a count when one is taken off for each term of a kind.
fn left_of(levels: &[AddedTerms], kind: Kind, count: usize) -> usize
    ensures left { result ≡ count - count_of (by_level kind (levels_of levels.now)) }
{
    let mut left = count;
    for added in levels {
        left = left.saturating_sub(added.of_kind(kind).len());
    }
    left
}

//! Marks of literals, by the numbers of their atoms.
ghost use Rattle.std.specs.Prelude.{◌≡◌, ℕ, ◌==◌, not, ◌&&◌, ◌||◌, OnErr, OnOk};
ghost use Rattle.nz_log.specs.Lits.{are_same_lit};
ghost use Rattle.nz_log.specs.Marked.{AreNone, has_mark};
ghost use Rattle.nz_log.specs.Spelling.{is_marked};

use crate::lits::Lit;
use nz_base::Memory;
use std::alloc::Global;

/// Which literals are marked. They grow to the greatest number that was marked.
#[derive(Debug, Drop)]
pub struct Marks {
    // By the numbers of atoms, of the literals that are these.
    holds: Vec<bool>,
    // And of those that are their negations.
    fails: Vec<bool>,
}

impl Marks {
    /// None. Takes no memory.
    pub fn new(alloc: Global) -> Marks
        ensures none { AreNone (has_mark result) }
    {
        Marks {
            holds: Vec::new(alloc),
            fails: Vec::new(alloc),
        }
    }

    /// Whether a literal is marked.
    pub fn has(&self, literal: Lit) -> bool
        ensures has { result ≡ has_mark self.now literal }
    {
        if literal.sign() {
            has_at(&self.holds, literal.atom())
        } else {
            has_at(&self.fails, literal.atom())
        }
    }

    /// Marks a literal.
    pub fn mark(&mut self, literal: Lit) -> Result<(), Memory>
        ensures marked { OnOk result ((l : Lit) → has_mark self.new l ≡ (are_same_lit l literal || has_mark self.old l)) }
        ensures unchanged { OnErr result ((l : Lit) → has_mark self.new l ≡ has_mark self.old l) }
    {
        if literal.sign() {
            mark_at(&mut self.holds, literal.atom())
        } else {
            mark_at(&mut self.fails, literal.atom())
        }
    }

    /// Takes the mark of a literal off.
    pub fn unmark(&mut self, literal: Lit)
        ensures unmarked { (l : Lit) → has_mark self.new l ≡ (not (are_same_lit l literal) && has_mark self.old l) }
    {
        if literal.sign() {
            unmark_at(&mut self.holds, literal.atom());
        } else {
            unmark_at(&mut self.fails, literal.atom());
        }
    }
}

/// Whether a number is marked.
fn has_at(marks: &[bool], i: usize) -> bool
    ensures has { result ≡ is_marked marks.now i }
{
    match marks.get(i) {
        Some(mark) => *mark,
        None => false,
    }
}

/// Marks a number.
fn mark_at(marks: &mut Vec<bool>, i: usize) -> Result<(), Memory>
    ensures marked { OnOk result ((k : ℕ) → is_marked marks.new.items k ≡ ((k == i) || is_marked marks.old.items k)) }
    ensures unchanged { OnErr result (marks.new.items ≡ marks.old.items) }
{
    let Some(count) = i.checked_add(1) else {
        return Err(Memory);
    };
    if marks.len() < count {
        marks.resize(count, false)?;
    }
    marks[i] = true;
    Ok(())
}

/// Takes the mark of a number off.
fn unmark_at(marks: &mut Vec<bool>, i: usize)
    ensures unmarked { (k : ℕ) → is_marked marks.new.items k ≡ (not (k == i) && is_marked marks.old.items k) }
{
    if i < marks.len() {
        marks[i] = false;
    }
}

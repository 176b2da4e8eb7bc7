//! Which atom is decided next, and with which sign.
ghost use Rattle.std.specs.Prelude.{◌≡◌, Contains, IfSome};
ghost use Rattle.nz_log.specs.Leveled.{AreToldAtoms};
ghost use Rattle.nz_sat.specs.Trails.{assigned};
ghost use Rattle.nz_sat.specs.Watched.{AreWatched, watch_state};

use crate::atoms::Atoms;
use crate::heap::Heap;
use crate::propagation::Propagation;
use crate::trail::Trail;
use nz_base::Memory;
use nz_log::{AtomId, Lit, Log};
use std::alloc::Global;

// The greatest step: an atom takes part in fewer conflicts than would bring its activity to the type's end.
const GREATEST: u64 = 1 << 60;

/// An atom that isn't wanted, and the level at which that was so.
#[derive(Clone, Copy, Debug)]
struct Unwanted {
    atom: AtomId,
    level: usize,
}

/// How much each atom took part in conflicts of late, and the sign that it had last.
#[derive(Debug, Drop)]
pub struct Order {
    // Has the undecided atoms but unwanted ones, and maybe decided ones; the keys are the activities.
    heap: Heap,
    // By rising level: they stay unwanted until the search goes back from it.
    unwanted: Vec<Unwanted>,
    // By the numbers of atoms. One that was never decided has none.
    signs: Vec<Option<bool>>,
    // What is added where an atom takes part.
    step: u64,
}

impl Order {
    /// No atom. Takes no memory.
    pub fn new(alloc: Global) -> Order {
        Order {
            heap: Heap::new(alloc),
            unwanted: Vec::new(alloc),
            signs: Vec::new(alloc),
            step: 16,
        }
    }

    /// Takes in these atoms, each of which is undecided. One that is new took part in no conflict, and has no sign.
    ///
    /// # Errors
    ///
    /// `Memory`. Then some may be in.
    pub fn fit(&mut self, atoms: &Atoms) -> Result<(), Memory> {
        let size = atoms.size();
        self.heap.fit(size)?;
        if self.signs.len() < size {
            self.signs.resize(size, None)?;
        }
        self.unwanted.clear();
        for atom in atoms.ids() {
            self.heap.insert(*atom);
        }
        Ok(())
    }

    /// The sign that an atom had last, if it was ever decided.
    pub fn sign(&self, atom: AtomId) -> Option<bool> {
        *self.signs.get(atom)?
    }

    /// Keeps the sign of a literal that is taken off the trail: its atom is undecided again.
    pub fn keep(&mut self, literal: Lit) {
        if let Some(sign) = self.signs.get_mut(literal.atom()) {
            *sign = Some(literal.sign());
        }
        self.heap.insert(literal.atom());
    }

    /// An atom takes part in a conflict.
    pub fn raise(&mut self, atom: AtomId) {
        self.heap.raise(atom, self.step);
    }

    /// What took part in the conflicts so far counts less.
    pub fn decay(&mut self) {
        self.step = self.step.saturating_add(self.step / 16);
        if self.step > GREATEST {
            self.step = 16;
            self.heap.lower(56);
        }
    }

    /// The undecided atoms of these literals are wanted.
    pub fn want(&mut self, trail: &Trail, literals: &[Lit]) {
        for literal in literals {
            if trail.value(*literal).is_none() {
                self.heap.insert(literal.atom());
            }
        }
    }

    /// The search goes back to a level: what was unwanted above it may be wanted.
    pub fn go_back(&mut self, level: usize) {
        while let Some(last) = self.unwanted.last().copied() {
            if last.level <= level {
                return;
            }
            self.unwanted.pop();
            self.heap.insert(last.atom);
        }
    }

    /// The undecided atom that took most part, of those that are wanted, as far as the order knows.
    pub fn next(
        &mut self,
        log: &Log,
        atoms: &Atoms,
        propagation: &Propagation,
        trail: &Trail,
    ) -> Option<AtomId>
        requires there { AreToldAtoms log.now atoms.now }
        requires watched { AreWatched log.now (watch_state propagation.now trail.now) }
        ensures undecided { IfSome result (λ t. Contains atoms.now t × (assigned trail.now.entries t ≡ None)) }
    {
        log.atom_count();
        while let Some(atom) = self.heap.take() {
            if atoms.number(atom).is_some() && trail.assigned(atom).is_none() {
                if propagation.is_wanted(log, trail, atom) || !self.set_aside(atom, trail.level()) {
                    return Some(atom);
                }
            }
        }
        None
    }

    /// Sets an atom aside that isn't wanted. Answers false where there is no memory for it.
    fn set_aside(&mut self, atom: AtomId, level: usize) -> bool
        ensures heap { self.new.heap ≡ self.old.heap }
    {
        self.unwanted.push(Unwanted { atom, level }).is_ok()
    }
}

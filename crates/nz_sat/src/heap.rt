//! A binary heap of atoms, the one with the greatest key on top, and of two with one key that of the lesser number.
ghost use Rattle.std.specs.Prelude.{◌≡◌, ◌<◌, ◌≤◌, true, IfSome};

use nz_base::Memory;
use nz_log::AtomId;
use std::alloc::Global;

/// Terms below a number, each with a key, of which some stand in a heap.
#[derive(Debug, Drop)]
pub struct Heap {
    // The first so many are the heap: below each two greater places stand atoms that come behind it.
    atoms: Vec<AtomId>,
    count: usize,
    // By the numbers of atoms: the keys, and the places in the heap.
    keys: Vec<u64>,
    places: Vec<Option<usize>>,
}

impl Heap {
    /// An empty heap for no atoms. Takes no memory.
    pub fn new(alloc: Global) -> Heap {
        Heap {
            atoms: Vec::new(alloc),
            count: 0,
            keys: Vec::new(alloc),
            places: Vec::new(alloc),
        }
    }

    /// Makes room for atoms below a number. New ones have the key 0, and aren't in the heap.
    ///
    /// # Errors
    ///
    /// `Memory`. Then there may be room for some more.
    pub fn fit(&mut self, size: usize) -> Result<(), Memory> {
        if self.places.len() < size {
            self.atoms.resize(size, 0)?;
            self.keys.resize(size, 0)?;
            self.places.resize(size, None)?;
        }
        Ok(())
    }

    /// Puts an atom into the heap, where it isn't there.
    pub fn insert(&mut self, atom: AtomId) {
        let place = self.count;
        if self.place(atom).is_none() && place < self.atoms.len() {
            self.count = place + 1;
            self.put(place, atom);
            self.rise(place);
        }
    }

    /// Takes the first atom out of the heap.
    pub fn take(&mut self) -> Option<AtomId>
        ensures fewer { IfSome result (λ _. self.new.count < self.old.count) }
    {
        let first = self.atom(0)?;
        let last = self.count - 1;
        let moved = self.atom(last);
        self.count = last;
        if let Some(place) = self.places.get_mut(first) {
            *place = None;
        }
        if let Some(atom) = moved {
            if last > 0 {
                self.put(0, atom);
                self.sink(0);
            }
        }
        Some(first)
    }

    /// Adds to the key of an atom.
    pub fn raise(&mut self, atom: AtomId, step: u64) {
        if let Some(key) = self.keys.get_mut(atom) {
            *key = key.saturating_add(step);
        }
        if let Some(place) = self.place(atom) {
            self.rise(place);
        }
    }

    /// Divides each key by this power of 2.
    pub fn lower(&mut self, power: u32)
        requires { power < 64 }
    {
        for key in self.keys.iter_mut() {
            *key >>= power;
        }
    }

    /// The place of an atom in the heap.
    fn place(&self, atom: AtomId) -> Option<usize> {
        *self.places.get(atom)?
    }

    /// The atom at a place of the heap.
    fn atom(&self, place: usize) -> Option<AtomId>
        ensures within { IfSome result (λ _. place < self.now.count) }
    {
        if place < self.count {
            self.atoms.get(place).copied()
        } else {
            None
        }
    }

    /// Whether an atom comes before another.
    fn is_before(&self, atom: AtomId, other: AtomId) -> bool {
        match (self.keys.get(atom), self.keys.get(other)) {
            (Some(key), Some(least)) => key > least || key == least && atom < other,
            _ => false,
        }
    }

    /// Puts an atom at a place.
    fn put(&mut self, place: usize, atom: AtomId)
        ensures count { self.new.count ≡ self.old.count }
    {
        if let Some(at) = self.atoms.get_mut(place) {
            *at = atom;
        }
        if let Some(at) = self.places.get_mut(atom) {
            *at = Some(place);
        }
    }

    /// Moves the atom at a place up, past those that come behind it.
    fn rise(&mut self, from: usize)
        ensures count { self.new.count ≡ self.old.count }
    {
        let Some(atom) = self.atom(from) else {
            return;
        };
        let mut place = from;
        while place > 0 {
            let above = (place - 1) / 2;
            match self.atom(above) {
                Some(other) if self.is_before(atom, other) => self.put(place, other),
                _ => break,
            }
            place = above;
        }
        self.put(place, atom);
    }

    /// Moves the atom at a place down, past those that come before it.
    fn sink(&mut self, from: usize)
        ensures count { self.new.count ≡ self.old.count }
    {
        let Some(atom) = self.atom(from) else {
            return;
        };
        let mut place = from;
        while let Some(below) = self.first_below(place, atom) {
            place = below;
        }
        self.put(place, atom);
    }

    /// Moves the first of the two atoms below a place up to it, where that comes before this atom. Answers the place that is free then.
    fn first_below(&mut self, place: usize, atom: AtomId) -> Option<usize>
        ensures count { self.new.count ≡ self.old.count }
        ensures below { IfSome result (λ below. place < below × below < self.old.count) }
    {
        let left = place.checked_mul(2)?.checked_add(1)?;
        let (mut below, mut first) = (left, self.atom(left)?);
        if let Some(other) = self.atom(left + 1) {
            if self.is_before(other, first) {
                below = left + 1;
                first = other;
            }
        }
        if !self.is_before(first, atom) {
            return None;
        }
        self.put(place, first);
        Some(below)
    }
}

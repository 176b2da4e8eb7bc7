//! What is known of atoms, by their numbers.
ghost use Rattle.std.specs.Prelude.{◌≡◌, ◌==◌, ◌++◌, [], ◌∷◌, ℕ, OnErr, OnOk, Some, if◌then◌else◌, option_map, slice_get, slice_index_or, true};
ghost use Rattle.nz_reals.specs.Known.{known_of};
ghost use Rattle.nz_reals.specs.State.{known_among};
ghost use Rattle.nz_reals.specs.Stored.{AreInPlace};

use crate::forms::Bounded;
use nz_base::Memory;
use nz_log::AtomId;
use std::alloc::Global;
use std::marker::Model;

/// An atom, and what it bounds.
#[derive(Clone, Copy, Debug)]
pub(crate) struct BoundedAtom {
    pub atom: AtomId,
    pub bounded: Bounded,
}

/// What atoms say of forms. To forget it all takes no longer the more atoms there ever were: a place counts only where the entry there is of its atom.
/// A contract sees what is known of each atom.
#[derive(Debug, Drop)]
pub(crate) struct BoundedAtoms {
    entries: Vec<BoundedAtom>,
    // By the numbers of atoms. Those of atoms that have no entry say nothing.
    places: Vec<usize>,
}

impl Model for BoundedAtoms {
    ghost use Rattle.std.specs.Prelude.{List};
    ghost use Rattle.nz_reals.specs.State.{KnownAtom};

    ghost Value = { List KnownAtom };

    ghost use Rattle.nz_reals.specs.State.{known_list};
    ghost use Rattle.nz_reals.specs.Stored.{AreInPlace};

    ghost view = { λ b. known_list b.entries.items };

    ghost invariant = { λ b. AreInPlace b.entries.items b.places.items };
}

impl BoundedAtoms {
    /// Nothing is known. Takes no memory.
    pub fn new(alloc: Global) -> BoundedAtoms
        ensures none { result ≡ [] }
    {
        BoundedAtoms {
            entries: Vec::new(alloc),
            places: Vec::new(alloc),
        }
    }

    /// Whether nothing is known of any atom.
    pub fn is_empty(&self) -> bool
        ensures none { result ≡ true → self.now ≡ [] }
    {
        self.entries.is_empty()
    }

    /// How many atoms there are of which something is known.
    pub fn len(&self) -> usize {
        self.entries.len()
    }

    /// The places of what is known, each below their count, by the numbers of atoms. Those of other atoms say nothing.
    pub fn places(&self) -> &[usize] {
        self.places.as_slice()
    }

    /// What is known of an atom.
    pub fn get(&self, atom: AtomId) -> Option<Bounded>
        ensures known { option_map known_of result ≡ known_among self.now atom }
    {
        let place = *self.places.get(atom)?;
        let entry = self.entries.get(place)?;
        if entry.atom == atom {
            Some(entry.bounded)
        } else {
            None
        }
    }

    /// Notes what an atom says, in place of what is known of it.
    ///
    /// # Errors
    ///
    /// `Memory`. Then all is as before.
    pub fn put(&mut self, atom: AtomId, bounded: Bounded) -> Result<(), Memory>
        ensures put { OnOk result ((i : ℕ) → known_among self.new i ≡ (if i == atom then Some (known_of bounded) else known_among self.old i)) }
        ensures unchanged { OnErr result (self.new ≡ self.old) }
    {
        put_at(&mut self.entries, &mut self.places, atom, bounded)
    }

    /// Forgets what is known. Takes no memory.
    pub fn clear(&mut self)
        ensures none { self.new ≡ [] }
    {
        self.entries.clear();
    }
}

/// Adds an entry for an atom, at which its place points from now on.
fn put_at(
    entries: &mut Vec<BoundedAtom>,
    places: &mut Vec<usize>,
    atom: AtomId,
    bounded: Bounded,
) -> Result<(), Memory>
    ensures put { OnOk result (entries.new.items ≡ entries.old.items ++ record { atom = atom; bounded = bounded } ∷ []) }
    ensures unchanged { OnErr result (entries.new.items ≡ entries.old.items) }
    ensures placed { AreInPlace entries.old.items places.old.items → AreInPlace entries.new.items places.new.items }
{
    // Room comes first, so that nothing has changed where there is none.
    entries.reserve(1)?;
    let place = entries.len();
    put_place(places, atom, place)?;
    entries.push(BoundedAtom { atom, bounded }).unwrap();
    Ok(())
}

/// Puts the place of an atom, which is also that of those before it that are new.
fn put_place(places: &mut Vec<usize>, atom: AtomId, place: usize) -> Result<(), Memory>
    ensures there { OnOk result (slice_get places.new.items atom ≡ Some place) }
    ensures put { OnOk result ((i : ℕ) → slice_index_or places.new.items i place ≡ (if i == atom then place else slice_index_or places.old.items i place)) }
    ensures others { OnErr result ((i : ℕ) → slice_index_or places.new.items i place ≡ slice_index_or places.old.items i place) }
{
    let Some(count) = atom.checked_add(1) else {
        return Err(Memory);
    };
    if places.len() < count {
        places.resize(count, place)?;
    }
    places[atom] = place;
    Ok(())
}

//! The atoms of a search, by the numbers that a work list gives them.
ghost use Rattle.std.specs.Prelude.{◌≡◌, ◌≢◌, ℕ, ◌<◌, true, [], ◌∷◌, ◌++◌, All, None, slice_index_or, IfOk, OnErr, OnOk};
ghost use Rattle.nz_sat.specs.Numbers.{number_of, number_or};

use nz_base::Memory;
use nz_log::AtomId;
use std::alloc::Global;
use std::marker::Model;

/// The atoms, each with its number: how many stand before it. A contract sees them in that order.
#[derive(Debug, Drop)]
pub struct Atoms {
    ids: Vec<AtomId>,
    // By the numbers of atoms in the log.
    numbers: Vec<Option<usize>>,
}

impl Model for Atoms {
    ghost use Rattle.std.specs.Prelude.{List, ℕ};

    ghost Value = { List ℕ };

    ghost use Rattle.nz_sat.specs.Numbers.{IsNumbered};

    ghost view = { λ a. a.ids.items };

    ghost invariant = { λ a. IsNumbered a.ids.items a.numbers.items };
}

impl Atoms {
    /// No atoms.
    fn none(alloc: Global) -> Atoms
        ensures none { result ≡ [] }
    {
        Atoms {
            ids: Vec::new(alloc),
            numbers: Vec::new(alloc),
        }
    }

    /// These atoms, numbered in their order.
    pub fn of(alloc: Global, ids: &[AtomId]) -> Result<Atoms, Memory>
        ensures atoms { IfOk result (λ a. a ≡ ids.now) }
    {
        let mut atoms = Atoms::none(alloc);
        for id in ids {
            atoms.name(*id)?;
        }
        Ok(atoms)
    }

    /// Gives an atom the next number, if it has none.
    fn name(&mut self, atom: AtomId) -> Result<(), Memory>
        ensures named { OnOk result (self.new ≡ self.old ++ atom ∷ []) }
    {
        self.ids.reserve(1)?;
        give(&mut self.numbers, atom, self.ids.len())?;
        self.ids.push(atom).unwrap();
        Ok(())
    }

    /// The atoms in the order of their numbers.
    pub fn ids(&self) -> &[AtomId]
        ensures ids { result.now ≡ self.now }
    {
        self.ids.as_slice()
    }

    /// The number of an atom.
    pub fn number(&self, atom: AtomId) -> Option<usize>
        ensures number { result ≡ number_of self.now atom }
    {
        match self.numbers.get(atom) {
            Some(number) => *number,
            None => None,
        }
    }

    /// A number above all these atoms.
    pub fn size(&self) -> usize
        ensures within { All (λ t. t < result) self.now }
    {
        self.numbers.len()
    }
}

/// Gives an atom a number, if it has none.
fn give(numbers: &mut Vec<Option<usize>>, atom: AtomId, number: usize) -> Result<(), Memory>
    ensures given { OnOk result (slice_index_or numbers.new.items atom None ≡ number_or (slice_index_or numbers.old.items atom None) true number) }
    ensures others { (t : ℕ) → t ≢ atom → slice_index_or numbers.new.items t None ≡ slice_index_or numbers.old.items t None }
    ensures unchanged { OnErr result (numbers.new.items ≡ numbers.old.items) }
{
    let Some(size) = atom.checked_add(1) else {
        return Err(Memory);
    };
    if numbers.len() < size {
        numbers.resize(size, None)?;
    }
    numbers[atom] = Some(match numbers[atom] {
        Some(earlier) => earlier,
        None => number,
    });
    Ok(())
}

//! What a model gives: values of the constants of a table, by their numbers.
ghost use Rattle.std.specs.Prelude.{◌≡◌, ℕ, ◌<◌, ◌==◌, List, [], ◌∷◌, ◌++◌, length, Some, OnOk, OnErr, IsOkAnd, option_map, slice_get};
ghost use Rattle.nz_spec.specs.terms.Term as term;
ghost use Rattle.nz_spec.specs.terms.Table.{listed_value};
ghost use Rattle.nz_term.specs.Values.{value_of, pair_of, HasFirsts};

use crate::nodes::TermId;
use nz_base::Memory;
use nz_frac::Frac;
use std::alloc::Global;
use std::collections::HashMap;
use std::marker::Model;

/// A value.
#[derive(Clone, Copy, Debug, PartialEq, Eq)]
pub enum Value {
    /// Of sort `Bool`.
    Truth(bool),
    /// Of sort `Int` or `Real`; of sort `Int` it is whole.
    Number(Frac),
}

/// Numbers of constants, each with its value, in order. A contract sees them as a list of pairs; by a table they give
/// each constant of the list its value, and any other the default of its sort.
#[derive(Debug, Drop)]
pub struct Assign {
    pairs: Vec<(TermId, Value)>,
    // The first value with each number, to be looked up at once.
    firsts: HashMap<TermId, Value>,
}

impl Model for Assign {
    ghost use Rattle.std.specs.Prelude.{List, ℕ, map};
    ghost use Rattle.nz_spec.specs.terms.Term as spec;

    ghost Value = { List (ℕ × spec.Value) };

    ghost use Rattle.nz_term.specs.Values.{pair_of};

    ghost view = { λ a. map pair_of a.pairs.items };

    ghost use Rattle.nz_term.specs.Values.{HasFirsts};

    ghost invariant = { λ a. HasFirsts a.firsts (map pair_of a.pairs.items) };
}

impl Assign {
    /// No constants yet. Takes no memory.
    pub fn new(alloc: Global) -> Result<Assign, Memory>
        ensures empty { IsOkAnd result (λ a. a ≡ []) }
    {
        Ok(Assign {
            pairs: Vec::new(alloc),
            firsts: HashMap::new(alloc),
        })
    }

    /// Puts a constant with its value at the end.
    pub fn push(&mut self, id: TermId, value: Value) -> Result<(), Memory>
        ensures grown { OnOk result (self.new ≡ self.old ++ pair_of (id, value) ∷ []) }
        ensures unchanged { OnErr result (self.new ≡ self.old) }
    {
        self.pairs.reserve(1)?;
        add_first(&mut self.firsts, id, &value)?;
        self.pairs.push((id, value)).unwrap();
        Ok(())
    }

    /// How many constants there are.
    pub fn len(&self) -> usize
        ensures len { result ≡ length self.now }
    {
        self.pairs.len()
    }

    /// Whether there is none.
    pub fn is_empty(&self) -> bool
        ensures empty { result ≡ (length self.now == 0) }
    {
        self.pairs.is_empty()
    }

    /// The constant at a place of the list, with its value.
    pub fn get(&self, index: usize) -> (TermId, Value)
        requires { index < length self.now }
        ensures pair { slice_get self.now index ≡ Some (pair_of result) }
    {
        self.pairs[index]
    }

    /// The value of a constant: the first in the list with its number. Takes the same time however long the list is.
    pub fn value(&self, id: TermId) -> Option<Value>
        ensures value { option_map value_of result ≡ listed_value self.now id }
    {
        self.firsts.get(&id).copied()
    }
}

/// Adds a value to the first ones with their numbers, where it is the first with its number.
fn add_first(firsts: &mut HashMap<TermId, Value>, id: TermId, value: &Value) -> Result<(), Memory>
    ensures grown { OnOk result ((ps : List (ℕ × term.Value)) → HasFirsts firsts.old ps → HasFirsts firsts.new (ps ++ pair_of (id, value.now) ∷ [])) }
    ensures unchanged { OnErr result (firsts.new.entries ≡ firsts.old.entries) }
{
    if firsts.contains_key(&id) {
        return Ok(());
    }
    firsts.insert(id, *value)?;
    Ok(())
}

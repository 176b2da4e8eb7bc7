//! The live names: those of the operators, which are declared from the start, and those of the constants and definitions.
ghost use Rattle.std.specs.Prelude.{◌≡◌, List, [], ◌∷◌, ◌++◌, length, take, None, Some, IfOk, IfSome, IfNone, OnOk, OnErr};
ghost use Rattle.nz_spec.specs.terms.Table.{Node};
ghost use Rattle.nz_elaborate.specs.Names.{named_by, is_operator_entry, nothing_declared, IsScope};

use crate::operators::{OPERATORS, Operator};
use crate::typed::Typed;
use indexmap::IndexMap;
use nz_base::{Memory, Text};
use nz_term::Sort;
use std::alloc::Global;
use std::marker::Model;

/// What a live name stands for.
#[derive(Drop)]
pub enum Named {
    Operator(Operator),
    Constant(Typed),
    Definition(Definition),
}

/// A definition: the sorts of its parameters, and its body, in which they stand by their places.
#[derive(Drop)]
pub struct Definition {
    pub parameters: Vec<Sort>,
    pub body: Typed,
}

/// Live names, each with what it stands for. A contract sees them as a list, in the order of acceptance, the operators first; no name
/// stands twice.
#[derive(Drop)]
pub struct Names {
    entries: IndexMap<Text, Named>,
}

impl Model for Names {
    ghost use Rattle.std.specs.Prelude.{List, ℕ};
    ghost use Rattle.nz_elaborate.specs.declared.names.Named.{Named};

    ghost Value = { List (List ℕ × Named) };

    ghost view = { λ n. n.entries.entries };
}

impl Names {
    /// The operators alone.
    ///
    /// # Errors
    ///
    /// `Memory`.
    pub fn new(alloc: Global) -> Result<Names, Memory>
        ensures operators { IfOk result (λ names. (ns : List Node) → IsScope ns names [] nothing_declared) }
    {
        let mut names = Names {
            entries: IndexMap::new(alloc),
        };
        for (word, operator) in &OPERATORS {
            let name = Text::from_slice(alloc, word)?;
            names.insert(name, Named::Operator(*operator))?;
        }
        Ok(names)
    }

    /// What a name stands for.
    pub fn get(&self, name: &Text) -> Option<&Named>
        ensures named { IfSome result (λ n. named_by self.now name.now ≡ Some n.now) }
        ensures none { IfNone result (named_by self.now name.now ≡ None) }
    {
        self.entries.get(name)
    }

    /// Whether a name is an operator's.
    pub(crate) fn is_operator(&self, name: &Text) -> bool
        ensures operator { result ≡ is_operator_entry (named_by self.now name.now) }
    {
        match self.get(name) {
            Some(Named::Operator(_)) => true,
            Some(_) => false,
            None => false,
        }
    }

    /// How many names there are.
    pub fn count(&self) -> usize
        ensures count { result ≡ length self.now }
    {
        self.entries.len()
    }

    /// Keeps the first names, so many of them. Takes no memory.
    pub fn truncate(&mut self, count: usize)
        ensures kept { self.new ≡ take count self.old }
    {
        self.entries.truncate(count);
    }

    /// Adds a name that isn't there yet.
    ///
    /// # Errors
    ///
    /// `Memory`. The names are then as before.
    pub fn insert(&mut self, name: Text, named: Named) -> Result<(), Memory>
        requires { named_by self.old name ≡ None }
        ensures added { OnOk result (self.new ≡ self.old ++ (name, named) ∷ []) }
        ensures unchanged { OnErr result (self.new ≡ self.old) }
    {
        self.entries.insert(name, named)?;
        Ok(())
    }
}

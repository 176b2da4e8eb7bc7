//! What is known of the terms of a table, in few bytes for each.
ghost use Rattle.std.specs.Prelude.{◌≡◌, ℕ, ◌<◌, [], ◌∷◌, ◌++◌, true, nat_eq, length, take, OnOk, OnErr, is_some};
ghost use Rattle.std.specs.HashMap.{get};
ghost use Rattle.nz_term.specs.Facts.{fact_at};

use crate::facts::Fact;
use crate::nodes::TermId;
use nz_base::Memory;
use nz_frac::Frac;
use std::alloc::Global;
use std::collections::HashMap;
use std::marker::Model;

/// What is kept of each term. It takes 3 bytes.
#[derive(Clone, Copy, Debug)]
struct Marks {
    is_constant: bool,
    is_linear: bool,
    holds_integer: bool,
}

/// What is known of terms, in order. A contract sees it as a list.
#[derive(Debug, Drop)]
pub(crate) struct Facts {
    marks: Vec<Marks>,
    // The values of constant terms, which are few, by number. Where the marks were cut, values stay that are of no term.
    values: HashMap<TermId, Frac>,
}

impl Model for Facts {
    ghost use Rattle.std.specs.Prelude.{List, nat_eq};
    ghost use Rattle.std.specs.HashMap.{get};
    ghost use Rattle.nz_term.specs.declared.facts.Fact.{Fact};
    ghost use Rattle.nz_term.specs.Marks.{facts_by};

    ghost Value = { List Fact };

    ghost view = { λ s. facts_by (get nat_eq s.values) 0 s.marks.items };
}

impl Facts {
    /// Nothing yet. Takes no memory.
    pub(crate) fn new(alloc: Global) -> Facts
        ensures empty { result ≡ [] }
    {
        Facts {
            marks: Vec::new(alloc),
            values: HashMap::new(alloc),
        }
    }

    /// Puts what is known of a term at the end.
    pub(crate) fn push(&mut self, fact: Fact) -> Result<(), Memory>
        ensures grown { OnOk result (self.new ≡ self.old ++ fact ∷ []) }
        ensures unchanged { OnErr result (self.new ≡ self.old) }
    {
        keep(&mut self.values, self.marks.len(), fact.constant)?;
        self.marks.push(Marks {
            is_constant: fact.constant.is_some(),
            is_linear: fact.is_linear,
            holds_integer: fact.holds_integer,
        })?;
        Ok(())
    }

    /// Leaves the first ones, so many. Takes no memory.
    pub(crate) fn truncate(&mut self, len: usize)
        ensures front { self.new ≡ take len self.old }
    {
        self.marks.truncate(len);
    }

    /// The value of a constant term; none for another.
    pub(crate) fn constant(&self, id: TermId) -> Option<Frac>
        requires within { id < length self.now }
        ensures constant { result ≡ (fact_at self.now id).constant }
    {
        if self.marks[id].is_constant {
            self.values.get(&id).copied()
        } else {
            None
        }
    }

    /// Whether the term is linear.
    pub(crate) fn is_linear(&self, id: TermId) -> bool
        requires within { id < length self.now }
        ensures linear { result ≡ (fact_at self.now id).is_linear }
    {
        self.marks[id].is_linear
    }

    /// Whether the term, or one that it is made of, is a unit of sort `Int`.
    pub(crate) fn holds_integer(&self, id: TermId) -> bool
        requires within { id < length self.now }
        ensures holds { result ≡ (fact_at self.now id).holds_integer }
    {
        self.marks[id].holds_integer
    }
}

/// Keeps the value of the term of this number, if it has one.
fn keep(values: &mut HashMap<TermId, Frac>, id: TermId, value: Option<Frac>) -> Result<(), Memory>
    ensures kept { OnOk result (is_some value ≡ true → get nat_eq values.new id ≡ value) }
    ensures others { (i : ℕ) → i < id → get nat_eq values.new i ≡ get nat_eq values.old i }
{
    if let Some(value) = value {
        values.insert(id, value)?;
    }
    Ok(())
}

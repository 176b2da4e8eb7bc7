//! Frames: the names that one `let` or the parameters of a definition bind.
ghost use Rattle.std.specs.Prelude.{◌≡◌, ◌||◌, ℕ, List, [], ◌∷◌, None, OnOk, is_some};
ghost use Rattle.nz_elaborate.specs.Names.{bound_in, bound_by, first_of, named_by, is_operator_entry};
ghost use Rattle.nz_elaborate.specs.Faults.{joined as joined_by, clash_fault, fault_in, term_in_found};

use crate::faults::{Fault, Found, clashing, joined};
use crate::names::Names;
use crate::typed::Typed;
use indexmap::IndexMap;
use nz_base::{Memory, Text};
use std::alloc::Global;
use std::marker::Model;

/// Names that are bound together, each with its term, or with none where its own term has a fault. A contract sees them as a list.
#[derive(Drop)]
pub(crate) struct Frame<'a> {
    entries: IndexMap<&'a Text, Option<Typed>>,
}

impl<'a> Model for Frame<'a> {
    ghost use Rattle.std.specs.Prelude.{List, ℕ, Option, map};
    ghost use Rattle.nz_elaborate.specs.declared.typed.Typed.{Typed};
    ghost use Rattle.nz_elaborate.specs.Names.{frame_entry};

    ghost Value = { List (List ℕ × Option Typed) };

    ghost view = { λ f. map frame_entry f.entries.entries };
}

impl<'a> Frame<'a> {
    pub(crate) fn new(alloc: Global) -> Frame<'a>
        ensures empty { result ≡ [] }
    {
        Frame {
            entries: IndexMap::new(alloc),
        }
    }

    /// What a name is bound to.
    pub(crate) fn get(&self, name: &'a Text) -> Option<Option<Typed>>
        ensures bound { result ≡ bound_in self.now name.now }
    {
        self.entries.get(&name).copied()
    }

    /// Binds a name. One that is bound already stays as it is.
    pub(crate) fn insert(&mut self, name: &'a Text, term: Option<Typed>) -> Result<(), Memory>
        ensures bound { OnOk result ((other : List ℕ) → bound_in self.new other ≡ first_of (bound_in self.old other) (bound_in ((name.now, term) ∷ []) other)) }
    {
        if self.entries.get(&name).is_some() {
            return Ok(());
        }
        self.entries.insert(name, term)?;
        Ok(())
    }
}

/// What a name is bound to, by the innermost of the frames that has it.
pub(crate) fn bound_term<'a>(frames: &Vec<Frame<'a>>, name: &'a Text) -> Option<Option<Typed>>
    ensures bound { result ≡ bound_by frames.now.items name.now }
{
    for frame in frames.iter().rev() {
        if let Some(term) = frame.get(name) {
            return Some(term);
        }
    }
    None
}

/// A frame in the making, and the first fault of what it binds.
#[derive(Drop)]
pub(crate) struct Binding<'a> {
    pub frame: Frame<'a>,
    pub fault: Option<Fault>,
}

impl<'a> Binding<'a> {
    pub(crate) fn new(alloc: Global) -> Binding<'a>
        ensures empty { result.frame ≡ [] }
        ensures fault { result.fault ≡ None }
    {
        Binding {
            frame: Frame::new(alloc),
            fault: None,
        }
    }

    /// Binds a name to what is found of its term. It clashes where it is bound already, or is an operator's.
    pub(crate) fn bind(&mut self, names: &Names, name: &'a Text, found: Found) -> Result<(), Memory>
        ensures fault { OnOk result (self.new.fault ≡ joined_by (joined_by self.old.fault (clash_fault (is_operator_entry (named_by names.now name.now) || is_some (bound_in self.old.frame name.now)))) (fault_in found)) }
        ensures bound { OnOk result ((other : List ℕ) → bound_in self.new.frame other ≡ first_of (bound_in self.old.frame other) (bound_in ((name.now, term_in_found found) ∷ []) other)) }
    {
        let clashes = names.is_operator(name) || self.frame.get(name).is_some();
        self.fault = joined(joined(self.fault, clashing(clashes)), found.fault());
        self.frame.insert(name, found.term())
    }
}

//! A live state with its table. What calls ask of the two is the trial's invariant, which is known to no other file: so the tests have nothing to
//! prove.

use nz_base::{Error, Memory};
use nz_sexpr::Tree;
use nz_sort::{Act, Live};
use nz_term::{TermId, Terms};
use std::alloc::Global;
use std::marker::Model;

/// A live state with its table, which is what a contract sees of it.
#[derive(Drop)]
pub(crate) struct Trial {
    live: Live,
    terms: Terms,
}

impl Model for Trial {
    ghost use Rattle.std.specs.Prelude.{List};
    ghost use Rattle.nz_spec.specs.terms.Table.{Node};
    ghost use Rattle.nz_script.specs.live.Live.{State};
    ghost use Rattle.nz_sort.specs.Live.{IsLive};

    ghost Value = { List Node };

    ghost view = { λ t. t.terms };

    // Something is live.
    ghost invariant = { λ t. (s : State) × IsLive t.terms t.live s };
}

impl Trial {
    /// The live state of the start, over a table without terms.
    pub(crate) fn new(alloc: Global) -> Result<Trial, Memory> {
        Ok(Trial {
            live: Live::new(alloc)?,
            terms: Terms::new(alloc)?,
        })
    }

    /// What comes of a command.
    pub(crate) fn carry_out(&mut self, tree: &Tree) -> Result<Act, Error> {
        self.live.command(&mut self.terms, tree)
    }

    /// The live state.
    pub(crate) fn live(&self) -> &Live {
        &self.live
    }

    /// How many terms the table has.
    pub(crate) fn term_count(&self) -> usize {
        self.terms.len()
    }

    /// The terms of the live state, as they are numbered.
    pub(crate) fn listed(&self, alloc: Global) -> Result<Vec<TermId>, Memory> {
        self.live.term_list(alloc, &self.terms, &[])
    }
}

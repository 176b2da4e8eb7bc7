//! A level of the live state.
ghost use Rattle.std.specs.Prelude.{◌≡◌, [], ◌+◌, ◌||◌};
ghost use Rattle.nz_sort.specs.Layers.{layer_of, empty_layer};
ghost use Rattle.nz_sort.specs.Items.{table_numbers};

use crate::items::{Accepted, Goal, Wish};
use nz_term::TermId;
use std::alloc::Global;

/// What was accepted in one level, each kind in the order of acceptance. A contract sees it as a layer (`layer_of`).
#[derive(Drop)]
pub struct Level {
    pub(crate) constants: Vec<Accepted>,
    pub(crate) assertions: Vec<Accepted>,
    pub(crate) goals: Vec<Goal>,
    pub(crate) wishes: Vec<Wish>,
    /// The terms of the items that have one, of all kinds.
    pub(crate) accepted: Vec<TermId>,
    /// How many names stood when it began.
    pub(crate) names_before: usize,
    /// How many constants are live, those of the older levels among them.
    pub(crate) constant_count: usize,
    /// Whether a term of it or of an older level holds a unit of sort `Int`.
    pub(crate) holds_integers: bool,
}

impl Level {
    /// A level in which nothing is accepted yet, where so many names and constants are live, and a term holds a unit of sort `Int` or none does.
    pub(crate) fn new(
        alloc: Global,
        names_before: usize,
        constant_count: usize,
        holds_integers: bool,
    ) -> Level
        ensures empty { layer_of result ≡ empty_layer names_before constant_count holds_integers }
    {
        Level {
            constants: Vec::new(alloc),
            assertions: Vec::new(alloc),
            goals: Vec::new(alloc),
            wishes: Vec::new(alloc),
            accepted: Vec::new(alloc),
            names_before,
            constant_count,
            holds_integers,
        }
    }

    /// Its constants, in the order of declaration.
    pub fn constants(&self) -> &[Accepted]
        ensures constants { result.now ≡ (layer_of self.now).constants }
    {
        self.constants.as_slice()
    }

    /// Its assertions.
    pub fn assertions(&self) -> &[Accepted]
        ensures assertions { result.now ≡ (layer_of self.now).assertions }
    {
        self.assertions.as_slice()
    }

    /// Its goals.
    pub fn goals(&self) -> &[Goal]
        ensures goals { result.now ≡ (layer_of self.now).goals }
    {
        self.goals.as_slice()
    }

    /// Its wishes.
    pub fn wishes(&self) -> &[Wish]
        ensures wishes { result.now ≡ (layer_of self.now).wishes }
    {
        self.wishes.as_slice()
    }
}

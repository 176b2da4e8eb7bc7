//! The live state: what becomes of a command, and what it leaves.
ghost use Rattle.std.specs.Prelude.{◌≡◌, All, ◌<◌, ◌+◌, List, [], ◌∷◌, ◌++◌, length, map, flat_map, IfOk};
ghost use Rattle.nz_spec.specs.terms.Table.{Node, term_in};
ghost use Rattle.nz_script.specs.live.Live.{State, pushed_levels, start};
ghost use Rattle.nz_script.specs.live.TermList.{IsTermList};
ghost use Rattle.nz_sort.specs.Layers.{Layer, layer_of};
ghost use Rattle.nz_sort.specs.Live.{IsLive, accepted_by, asserted_by};

mod assertions;
mod checks;
mod commands;
mod declarations;
mod definitions;
mod levels;
mod questions;

use crate::levels::Level;
use nz_base::Memory;
use nz_elaborate::Names;
use nz_term::{TermId, Terms, listing_order};
use std::alloc::Global;
use std::marker::Model;

/// The live state. A contract sees what stands in it: its names, and its levels with their items by kind, in the order of acceptance.
///
/// No command brings a goal or a wish yet.
#[derive(Drop)]
pub struct Live {
    alloc: Global,
    /// The names of the operators, and then those of each level, the oldest first.
    names: Names,
    /// The newest level.
    top: Level,
    /// The others, the oldest first.
    below: Vec<Level>,
    /// The number of the next item, definitions among them.
    next: usize,
}

impl Model for Live {
    ghost use Rattle.std.specs.Coded.{codes};
    ghost use Rattle.nz_sexpr.specs.contracts.tree.Tree as tree;
    ghost use Rattle.nz_sort.specs.Live.{Standing, standing_of};

    ghost Value = { Standing };

    ghost coded = { Prim.hlevel (codes, tree.the_row.coded) };

    ghost view = { λ l. standing_of l.names l.top l.below.items l.next };
}

impl Live {
    /// The live state of the start: no item and no level, and the operators' names.
    ///
    /// # Errors
    ///
    /// `Memory`.
    pub fn new(alloc: Global) -> Result<Live, Memory>
        ensures live { IfOk result (λ live. IsLive [] live start) }
        ensures asserted { IfOk result (λ live. asserted_by live ≡ [] ∷ []) }
    {
        let names = Names::new(alloc)?;
        let top = Level::new(alloc, names.count(), 0, false);
        Ok(Live {
            alloc,
            names,
            top,
            below: Vec::new(alloc),
            next: 0,
        })
    }

    /// The newest level.
    pub fn top(&self) -> &Level
        ensures top { layer_of result.now ≡ self.now.top }
    {
        &self.top
    }

    /// The levels below the newest, the oldest first.
    pub fn below(&self) -> &[Level]
        ensures below { map layer_of result.now ≡ self.now.below }
    {
        self.below.as_slice()
    }

    /// How many levels were pushed.
    pub fn levels(&self) -> usize
        ensures levels { (ns : List Node) (s : State) → IsLive ns self.now s → result ≡ pushed_levels s }
        ensures count { result ≡ length self.now.below }
    {
        self.below.len()
    }

    /// The terms of the live state, by which they are numbered: those of its items, in the order of acceptance, and then the
    /// assumed ones. Each comes once, and behind all that it is made of.
    pub fn term_list(
        &self,
        alloc: Global,
        terms: &Terms,
        assumed: &[TermId],
    ) -> Result<Vec<TermId>, Memory>
        requires live { (s : State) × IsLive terms.now self.now s }
        requires within { All (λ i. i < length terms.now) assumed.now }
        ensures list { IfOk result (λ ids. (s : State) → IsLive terms.now self.now s → IsTermList s (map (term_in terms.now) assumed.now) (map (term_in terms.now) ids.items)) }
        ensures within { IfOk result (λ ids. All (λ i. i < length terms.now) ids.items) }
    {
        let roots = self.roots(alloc, assumed)?;
        listing_order(alloc, terms, roots.as_slice())
    }

    /// The terms of the items, in the order of acceptance, and then the assumed ones.
    fn roots(&self, alloc: Global, assumed: &[TermId]) -> Result<Vec<TermId>, Memory>
        ensures roots { IfOk result (λ ids. ids.items ≡ accepted_by self.now ++ assumed.now) }
    {
        let mut roots = accepted_in(alloc, self.below.as_slice())?;
        roots.extend_from_slice(self.top.accepted.as_slice())?;
        roots.extend_from_slice(assumed)?;
        Ok(roots)
    }
}

/// The terms of the items of these levels.
fn accepted_in(alloc: Global, levels: &[Level]) -> Result<Vec<TermId>, Memory>
    ensures accepted { IfOk result (λ ids. ids.items ≡ flat_map (λ (l : Layer). l.accepted) (map layer_of levels.now)) }
{
    let mut terms = Vec::new(alloc);
    for level in levels {
        terms.extend_from_slice(level.accepted.as_slice())?;
    }
    Ok(terms)
}

/// The number after this one. Where there is none, no item more finds memory.
fn number_after(number: usize) -> Result<usize, Memory>
    ensures next { IfOk result (λ next. next ≡ number + 1) }
{
    match number.checked_add(1) {
        Some(next) => Ok(next),
        None => Err(Memory),
    }
}

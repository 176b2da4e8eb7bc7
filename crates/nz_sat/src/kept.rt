//! What a search keeps from check to check.
ghost use Rattle.std.specs.Prelude.{◌≡◌, List, length};
ghost use Rattle.nz_log.specs.Logs.{LogState};
ghost use Rattle.nz_sat.specs.Watched.{IsKept};
ghost use Rattle.nz_sat.specs.declared.clauses.Held.{Held};
ghost use Rattle.nz_sat.specs.Sats.{held_part};

use crate::clauses::{Held, Part};
use crate::order::Order;
use crate::propagation::Propagation;
use std::alloc::Global;

/// The first clauses of those that are held, with what is watched in them, and the order in which atoms are decided.
#[derive(Debug, Drop)]
pub struct Kept {
    pub propagation: Propagation,
    /// How many clauses these are.
    pub count: usize,
    pub order: Order,
}

impl Kept {
    /// No clause, and no atom. Takes no memory.
    pub fn none(alloc: Global) -> Kept
        ensures kept { (log : LogState) (held : List Held) → IsKept log held result }
    {
        Kept {
            propagation: Propagation::new(alloc),
            count: 0,
            order: Order::new(alloc),
        }
    }

    /// Leaves just the clauses of a part, of those that are held. Takes no memory.
    pub fn keep(&mut self, held: &[Held], part: Part)
        requires kept { (log : LogState) × IsKept log held.now self.old }
        ensures kept { (log : LogState) → IsKept log held.now self.old → IsKept log (held_part part held.now) self.new }
    {
        self.count = count_of(&held[..self.count], part);
        self.propagation.keep(part);
    }
}

/// How many of these clauses are in a part.
fn count_of(held: &[Held], part: Part) -> usize
    ensures count { result ≡ length (held_part part held.now) }
{
    let mut count = 0;
    for one in held {
        if part.has(*one) {
            count += 1;
        }
    }
    count
}

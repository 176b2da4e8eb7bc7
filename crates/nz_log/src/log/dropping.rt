//! Dropping what is above a level.
ghost use Rattle.std.specs.Prelude.{◌≡◌, ℕ, suc, List, option_map, slice_index_or, take, None};
ghost use Rattle.nz_spec.specs.terms.Table.{Node};
ghost use Rattle.nz_log.specs.Logs.{Drops, kept_below, told_below};
ghost use Rattle.nz_log.specs.Sound.{IsLog};
ghost use Rattle.nz_log.specs.Stored.{entry_of};

use super::Log;
use crate::origins::Stored;

impl Log {
    /// Leaves just the clauses whose level is at most this one, what was told of it and of lower ones, and all atoms. Takes no memory.
    pub fn drop_above(&mut self, level: usize)
        ensures drops { Drops self.old level self.new }
        // What stays is in order over the levels that stay.
        ensures sound { (ns : List Node) (levels : List (List ℕ)) → IsLog ns levels self.old → IsLog ns (take (suc level) levels) self.new }
    {
        drop_clauses(&mut self.clauses, level);
        drop_told(&mut self.told, level);
        trim(&mut self.clauses);
    }
}

/// Takes the gaps off the end.
fn trim(clauses: &mut Vec<Option<Stored>>)
    ensures kept { (i : ℕ) → slice_index_or clauses.new.items i None ≡ slice_index_or clauses.old.items i None }
{
    let mut kept = clauses.len();
    while kept > 0 && clauses[kept - 1].is_none() {
        kept -= 1;
    }
    clauses.truncate(kept);
}

/// Takes out the clauses above a level.
fn drop_clauses(clauses: &mut Vec<Option<Stored>>, level: usize)
    ensures kept { (i : ℕ) → option_map entry_of (slice_index_or clauses.new.items i None) ≡ kept_below level (option_map entry_of (slice_index_or clauses.old.items i None)) }
{
    for slot in clauses.iter_mut() {
        drop_clause(slot, level);
    }
}

/// Takes out a clause above a level.
fn drop_clause(slot: &mut Option<Stored>, level: usize)
    ensures kept { option_map entry_of slot.new ≡ kept_below level (option_map entry_of slot.old) }
{
    match slot {
        Some(stored) => {
            if stored.level > level {
                *slot = None;
            }
        }
        None => {}
    }
}

/// Takes out what was told above a level.
fn drop_told(told: &mut Vec<Option<usize>>, level: usize)
    ensures kept { (i : ℕ) → slice_index_or told.new.items i None ≡ told_below level (slice_index_or told.old.items i None) }
{
    for slot in told.iter_mut() {
        *slot = below(*slot, level);
    }
}

/// What was told, if it is at most this level.
fn below(told: Option<usize>, level: usize) -> Option<usize>
    ensures below { result ≡ told_below level told }
{
    match told {
        Some(lowest) => { if lowest <= level { Some(lowest) } else { None } }
        None => None,
    }
}

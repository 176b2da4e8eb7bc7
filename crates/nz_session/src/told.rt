//! What the engine is told of the live assertions.
ghost use Rattle.std.specs.Prelude.{◌≡◌, ◌<◌, ◌≤◌, ◌+◌, ◌^◌, ℕ, List, [], ◌∷◌, ◌++◌, length, map, take, All, OnOk, OnErr};
ghost use Rattle.nz_spec.specs.search.Decide.{asserted_numbers};
ghost use Rattle.nz_spec.specs.terms.Term.{Term};
ghost use Rattle.nz_sort.specs.Items.{table_numbers};
ghost use Rattle.nz_sort.specs.Live.{IsCutBack, asserted_by};
ghost use Rattle.nz_session.specs.Assumed.{IsTakenAt};
ghost use Rattle.nz_session.specs.Told.{IsBegun, IsTold, only_asserted};

use nz_base::Memory;
use nz_search::Decide;
use nz_sort::{Accepted, Live};
use nz_term::Terms;

/// How much of the live assertions the engine has been told: of so many levels all, but of the last of these so many.
#[derive(Clone, Copy, Debug)]
pub(crate) struct ToldExtent {
    pub levels: usize,
    pub last: usize,
}

impl ToldExtent {
    pub const NOTHING: ToldExtent = ToldExtent { levels: 0, last: 0 };
}

/// Takes the levels off the engine that are live no more. Takes no memory.
pub(crate) fn pop_told<E: Decide>(engine: &mut E, told: &mut ToldExtent, live: &Live)
    requires told { (before : List (List ℕ)) × IsTold (E.levels engine.old) told.old before × IsCutBack before (asserted_by live.now) }
    ensures told { IsTold (E.levels engine.new) told.new (asserted_by live.now) }
    ensures table { E.table engine.new ≡ E.table engine.old }
    ensures begins { (ts : List Term) → E.begins engine.old ts → E.begins engine.new ts }
{
    let count = live.below().len() + 1;
    if told.levels <= count {
        return;
    }
    engine.pop(told.levels - count);
    *told = ToldExtent {
        levels: count,
        last: live.top().assertions().len(),
    };
}

/// Tells the engine the levels and the assertions that it hasn't been told.
pub(crate) fn tell<E: Decide>(
    engine: &mut E,
    told: &mut ToldExtent,
    live: &Live,
    terms: &Terms,
) -> Result<(), Memory>
    requires told { IsTold (E.levels engine.old) told.old (asserted_by live.now) }
    requires taken { All (IsTakenAt terms.now) (asserted_numbers (asserted_by live.now)) }
    ensures told { IsTold (E.levels engine.new) told.new (asserted_by live.now) }
    ensures all { OnOk result (E.levels engine.new ≡ map only_asserted (asserted_by live.now)) }
    ensures table { E.table engine.new ≡ E.table engine.old }
    ensures begins { (ts : List Term) → E.begins engine.old ts → E.begins engine.new ts }
{
    begin_first(engine, told)?;
    let below = live.below();
    for place in told.levels - 1..below.len() {
        tell_last(engine, told, below[place].assertions(), terms)?;
        begin_level(engine, told)?;
    }
    tell_last(engine, told, live.top().assertions(), terms)
}

/// Begins the first level in the engine, where it has none.
fn begin_first<E: Decide>(engine: &mut E, told: &mut ToldExtent) -> Result<(), Memory>
    ensures told { (asserted : List (List ℕ)) → 0 < length asserted → IsTold (E.levels engine.old) told.old asserted → IsTold (E.levels engine.new) told.new asserted }
    ensures some { OnOk result (0 < told.new.levels) }
    ensures table { E.table engine.new ≡ E.table engine.old }
    ensures begins { (ts : List Term) → E.begins engine.old ts → E.begins engine.new ts }
{
    if told.levels > 0 {
        return Ok(());
    }
    begin_level(engine, told)
}

/// Begins a level in the engine.
fn begin_level<E: Decide>(engine: &mut E, told: &mut ToldExtent) -> Result<(), Memory>
    requires small { told.old.levels < 2 ^ 63 }
    ensures begun { OnOk result (IsBegun (E.levels engine.old) told.old (E.levels engine.new) told.new) }
    ensures unchanged { OnErr result ((E.levels engine.new ≡ E.levels engine.old) × (told.new ≡ told.old)) }
    ensures table { E.table engine.new ≡ E.table engine.old }
    ensures begins { (ts : List Term) → E.begins engine.old ts → E.begins engine.new ts }
{
    engine.push()?;
    *told = ToldExtent {
        levels: told.levels + 1,
        last: 0,
    };
    Ok(())
}

/// Tells the engine what it hasn't been told of the last level that it knows.
fn tell_last<E: Decide>(
    engine: &mut E,
    told: &mut ToldExtent,
    assertions: &[Accepted],
    terms: &Terms,
) -> Result<(), Memory>
    requires first { (before : List (List ℕ)) × (E.levels engine.old ≡ map only_asserted (before ++ take told.old.last (table_numbers assertions.now) ∷ [])) × (told.old.last ≤ length assertions.now) }
    requires taken { All (IsTakenAt terms.now) (table_numbers assertions.now) }
    ensures told { (before : List (List ℕ)) → E.levels engine.old ≡ map only_asserted (before ++ take told.old.last (table_numbers assertions.now) ∷ []) → E.levels engine.new ≡ map only_asserted (before ++ take told.new.last (table_numbers assertions.now) ∷ []) }
    ensures within { told.new.last ≤ length assertions.now }
    ensures count { told.new.levels ≡ told.old.levels }
    ensures all { OnOk result (told.new.last ≡ length assertions.now) }
    ensures table { E.table engine.new ≡ E.table engine.old }
    ensures begins { (ts : List Term) → E.begins engine.old ts → E.begins engine.new ts }
{
    while told.last < assertions.len() {
        engine.add(terms, assertions[told.last].term)?;
        told.last += 1;
    }
    Ok(())
}

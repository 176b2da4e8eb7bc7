//! Clauses for neighbouring bounds, which exclude each other.
ghost use Rattle.std.specs.Prelude.{◌≡◌, map, IfOk, OnOk};
ghost use Rattle.nz_reals.specs.Stands.{IsOf};
ghost use Rattle.nz_sat.specs.Sats.{AreHeld, AreSameSince};
ghost use Rattle.nz_engine.specs.Preparing.{Excludes};

use super::hold;
use nz_base::Memory;
use nz_log::{AtomId, ClauseId, Log};
use nz_reals::Reals;
use nz_sat::{Held, Sat};
use std::alloc::Global;

/// The numbers of clauses that are held.
fn ids_of(alloc: Global, held: &[Held]) -> Result<Vec<ClauseId>, Memory>
    ensures ids { IfOk result (λ ids. ids.items ≡ map (λ h. h.id) held.now) }
{
    let mut ids = Vec::with_capacity(alloc, held.len())?;
    for one in held {
        ids.push(one.id)?;
    }
    Ok(ids)
}

/// Adds the clauses for neighbouring bounds among these atoms, of which the theory has learned, and holds them as redundant ones. Two whose clause is
/// held get none.
pub(super) fn exclude(
    alloc: Global,
    sat: &mut Sat<Reals>,
    log: &mut Log,
    atoms: &[AtomId],
) -> Result<(), Memory>
    requires of { IsOf sat.old.theory log.old.atoms atoms.now }
    requires held { AreHeld log.old sat.old.clauses }
    requires since { AreSameSince sat.old.seen log.old sat.old.clauses }
    ensures excludes { OnOk result (Excludes log.old sat.old atoms.now log.new sat.new) }
{
    if sat.theory.knows_none() {
        return Ok(());
    }
    let held = ids_of(alloc, sat.clauses())?;
    let exclusions = sat.theory.exclusions(log, atoms, &held)?;
    hold(sat, log, &exclusions)
}

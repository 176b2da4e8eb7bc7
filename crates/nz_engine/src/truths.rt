//! Truths of atoms that hold wherever clauses do.
ghost use Rattle.std.specs.Prelude.{◌<◌, All, length};
ghost use Rattle.nz_sat.specs.Sats.{AreHeld};

use nz_base::Memory;
use nz_log::{Atom, AtomId, Lit, Log};
use nz_reals::Reals;
use nz_sat::Held;
use std::alloc::Global;

/// By the numbers of atoms, the truths that are the same wherever these clauses are true, by which the sums of these atoms are arranged: none where a theory
/// has forms already, or no atom is a bound.
pub(crate) fn truths_for(
    alloc: Global,
    theory: &Reals,
    log: &Log,
    atoms: &[AtomId],
    clauses: &[Held],
) -> Result<Vec<Option<bool>>, Memory>
    requires within { All (λ i. i < length log.now.atoms) atoms.now }
    requires held { AreHeld log.now clauses.now }
{
    if theory.has_forms() || !names_bound(log, atoms) {
        return Ok(Vec::new(alloc));
    }
    truths_from_start(alloc, log, clauses)
}

/// Truths that are the same wherever these clauses are true. An assertion comes behind the clauses of what it is made of, so one look at each, the newest
/// first, leads from it down.
fn truths_from_start(
    alloc: Global,
    log: &Log,
    clauses: &[Held],
) -> Result<Vec<Option<bool>>, Memory>
    requires held { AreHeld log.now clauses.now }
{
    let mut truths = Vec::new(alloc);
    truths.resize(log.atom_count(), None)?;
    for held in clauses.iter().rev() {
        if let Some(literal) = forced(&truths, log.clause(held.id)) {
            put(&mut truths, literal);
        }
    }
    Ok(truths)
}

/// Whether one of these atoms is a bound.
fn names_bound(log: &Log, atoms: &[AtomId]) -> bool
    requires within { All (λ i. i < length log.now.atoms) atoms.now }
{
    for atom in atoms {
        if let Atom::AtMost(_) = log.atom(*atom) {
            return true;
        }
    }
    false
}

/// The literal of a clause of one or two literals that is true where the other one is false.
fn forced(truths: &[Option<bool>], clause: &[Lit]) -> Option<Lit> {
    match clause {
        [only] => Some(*only),
        [first, second] if is_false(truths, *first) => Some(*second),
        [first, second] if is_false(truths, *second) => Some(*first),
        _ => None,
    }
}

/// Whether a literal is known to be false.
fn is_false(truths: &[Option<bool>], literal: Lit) -> bool {
    truths.get(literal.atom()).copied() == Some(Some(!literal.sign()))
}

/// Puts that a literal is true, unless the truth of its atom is known.
fn put(truths: &mut [Option<bool>], literal: Lit) {
    if let Some(truth) = truths.get_mut(literal.atom()) {
        *truth = truth.or(Some(literal.sign()));
    }
}

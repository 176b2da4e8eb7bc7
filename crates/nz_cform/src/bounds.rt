//! The bounds that clauses of a log have.
ghost use Rattle.std.specs.Prelude.{◌≡◌, ℕ, ◌<◌, [], ◌∷◌, length, None, Some, All, OnOk, IsSome, slice_get};
ghost use Rattle.nz_lin.specs.declared.bound.Bound.{Bound};
ghost use Rattle.nz_log.specs.declared.atoms.Atom.TheVariants.{AtMost};
ghost use Rattle.nz_cform.specs.Covering.{AreBoundsListed, AreBoundsOf, IsOnAtoms, IsRowAt};
ghost use Rattle.nz_cform.specs.Listings.{Grows, listed_at};

use crate::listing::Listing;
use nz_base::Memory;
use nz_log::{Atom, AtomId, ClauseId, Log};

/// Lists the bounds of clauses that aren't listed.
pub(crate) fn list_bounds(
    bounds: &mut Listing,
    log: &Log,
    clauses: &[ClauseId],
    level: usize,
) -> Result<(), Memory>
    requires rows { All (λ i. (t : ℕ) × IsRowAt log.now i t) clauses.now }
    requires on_atoms { All (IsOnAtoms log.now) clauses.now }
    ensures listed { OnOk result (AreBoundsListed log.now clauses.now bounds.new) }
    ensures grown { Grows bounds.old level bounds.new }
    ensures only { AreBoundsOf log.now clauses.now bounds.old bounds.new }
{
    for clause in clauses {
        list_clause(bounds, log, *clause, level)?;
    }
    Ok(())
}

/// Lists those of one clause.
fn list_clause(
    bounds: &mut Listing,
    log: &Log,
    clause: ClauseId,
    level: usize,
) -> Result<(), Memory>
    requires row { (t : ℕ) × IsRowAt log.now clause t }
    requires on_atoms { IsOnAtoms log.now clause }
    ensures listed { OnOk result (AreBoundsListed log.now (clause ∷ []) bounds.new) }
    ensures grown { Grows bounds.old level bounds.new }
    ensures only { AreBoundsOf log.now (clause ∷ []) bounds.old bounds.new }
{
    let literals = log.clause(clause);
    for literal in literals {
        list_atom(bounds, log, literal.atom(), level)?;
    }
    Ok(())
}

/// Lists an atom, if it is a bound that isn't listed.
fn list_atom(bounds: &mut Listing, log: &Log, atom: AtomId, level: usize) -> Result<(), Memory>
    requires within { atom < length log.now.atoms }
    ensures listed { OnOk result ((b : Bound) → slice_get log.now.atoms atom ≡ Some (AtMost b) → IsSome (listed_at bounds.new atom)) }
    ensures grown { Grows bounds.old level bounds.new }
    ensures only { (i : ℕ) → listed_at bounds.old i ≡ None → IsSome (listed_at bounds.new i) → (i ≡ atom) × (b : Bound) × (slice_get log.now.atoms i ≡ Some (AtMost b)) }
{
    match log.atom(atom) {
        Atom::AtMost(_) => list_new(bounds, atom, level),
        Atom::Term(_) => Ok(()),
    }
}

/// Lists a number that isn't listed.
fn list_new(bounds: &mut Listing, id: usize, level: usize) -> Result<(), Memory>
    ensures listed { OnOk result (IsSome (listed_at bounds.new id)) }
    ensures grown { Grows bounds.old level bounds.new }
    ensures only { (i : ℕ) → listed_at bounds.old i ≡ None → IsSome (listed_at bounds.new i) → i ≡ id }
{
    if bounds.has(id) {
        return Ok(());
    }
    bounds.put(id, level)
}

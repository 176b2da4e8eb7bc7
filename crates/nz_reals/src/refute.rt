//! Clauses that say why literals aren't true together.
ghost use Rattle.std.specs.Prelude.{◌≡◌, ℕ, List, All, IfErr, IfOk};
ghost use Rattle.nz_fractions.specs.Fraction.{IsNumber};
ghost use Rattle.nz_spec.specs.terms.Table.{Node};
ghost use Rattle.nz_log.specs.declared.lits.Lit.{Lit};
ghost use Rattle.nz_search.specs.declared.stop.Stop.TheVariants as stop;
ghost use Rattle.nz_log.specs.Axioms.{AreMultiplesIn};
ghost use Rattle.nz_log.specs.Leveled.{AreTold};
ghost use Rattle.nz_search.specs.Places.{OnWide};
ghost use Rattle.nz_log.specs.Sound.{IsLog};
ghost use Rattle.nz_search.specs.Theories.{IsBoundIn, IsClash};
ghost use Rattle.nz_log.specs.Growth.{Grows};
ghost use Rattle.nz_lin.specs.Bounds.{HasUnits, literal_over};
ghost use Rattle.nz_log.specs.Atoms.{IsLitIn, literal_in};
ghost use Rattle.nz_reals.specs.Exclusions.{Keeps};
ghost use Rattle.nz_reals.specs.Stands.{IsOf, IsOver};
ghost use Rattle.nz_reals.specs.Tells.{AreBoundsOf, AreKnown, AreOf, IsSumPlace, Refutes, both, literals_of};

use crate::reals::{Reals, stored};
use nz_base::Memory;
use nz_frac::{Frac, Wide};
use nz_lin as lin;
use nz_log::laws::tells_lits;
use nz_log::{Atom, ClauseId, Lit, LitMultiple, Log};
use nz_place::{Place, Site};
use nz_search::Stop;
use nz_simplex::laws::{contradictions_stay, sums_stay};
use nz_spec::derivation::tells_literals;
use nz_spec::form::term_has_its_number;
use nz_term::ArithmeticStop;
use std::alloc::Global;

/// The clause that one of these literals is false, since the sum of their multiples is a contradiction.
pub(crate) fn refute(
    theory: &Reals,
    log: &mut Log,
    multiples: &[LitMultiple],
) -> Result<ClauseId, Stop>
    requires of { (ids : List ℕ) × IsOf theory.now log.old.atoms ids }
    requires known { AreKnown theory.now multiples.now }
    requires refutes { Refutes theory.now multiples.now }
    ensures clash { (ls : List Lit) → AreOf ls multiples.now → IfOk result (IsClash log.new ls) }
    ensures keeps { Keeps log.old log.new }
    ensures grows { AreTold log.old (literals_of multiples.now) → Grows log.old log.new }
    ensures sound { (ns : List Node) (levels : List (List ℕ)) → AreMultiplesIn ns log.old.atoms multiples.now → IsLog ns levels log.old → IsLog ns levels log.new }
    ensures place { (ns : List Node) → IsOver theory.now ns → IfErr result (λ e. OnWide e (IsSumPlace ns theory.now multiples.now)) }
    ensures unspent { IfErr result (λ e. e ≡ stop.Spent → ⊥) }
{
    contradictions_stay();
    sums_stay();
    term_has_its_number();
    tells_literals();
    tells_lits();
    stored(theory);
    match log.farkas(multiples) {
        Ok(clause) => Ok(clause),
        Err(ArithmeticStop::Wide(wide)) => {
            let bounds = bounds_of(theory.alloc, log, multiples)?;
            Err(stopped(wide, Site::Sum(bounds)))
        }
        Err(ArithmeticStop::Memory) => Err(Stop::Memory),
    }
}

/// Each of two literals, once.
pub(crate) fn both_once(literal: Lit, other: Lit) -> [LitMultiple; 2]
    ensures both { result ≡ both literal other }
{
    let one = Frac::whole(1);
    [
        LitMultiple {
            literal,
            multiplier: one,
        },
        LitMultiple {
            literal: other,
            multiplier: one,
        },
    ]
}

/// A stop at a place.
pub(crate) fn stopped(wide: Wide, site: Site) -> Stop
    ensures stop { result ≡ stop.Wide (record { wide = wide; site = site }) }
    ensures left { IsNumber wide.a }
    ensures right { IsNumber wide.b }
{
    Stop::Wide(Place::new(wide, site))
}

/// The bounds of these literals, with their multipliers.
fn bounds_of(
    alloc: Global,
    log: &Log,
    multiples: &[LitMultiple],
) -> Result<Vec<lin::BoundMultiple>, Memory>
    requires bounds { All (λ m. IsBoundIn log.now m.literal) multiples.now }
    ensures bounds { IfOk result (λ bs. (ns : List Node) → AreMultiplesIn ns log.now.atoms multiples.now → AreBoundsOf ns log.now.atoms multiples.now bs.items) }
{
    let mut bounds = Vec::new(alloc);
    for multiple in multiples {
        let bound = bound_of(alloc, log, multiple.literal)?;
        bounds.push(lin::BoundMultiple {
            bound,
            multiplier: multiple.multiplier,
        })?;
    }
    Ok(bounds)
}

/// What a literal bounds.
fn bound_of(alloc: Global, log: &Log, literal: Lit) -> Result<lin::Bound, Memory>
    requires bound { IsBoundIn log.now literal }
    ensures literal { IfOk result (λ b. (ns : List Node) → literal_over ns b ≡ literal_in ns log.now.atoms literal) }
    ensures units { IfOk result (λ b. (ns : List Node) → IsLitIn ns log.now.atoms literal → HasUnits ns b) }
{
    let Atom::AtMost(bound) = log.atom(literal.atom()) else {
        unreachable!()
    };
    if literal.sign() {
        return bound.copied(alloc);
    }
    bound.not(alloc)
}

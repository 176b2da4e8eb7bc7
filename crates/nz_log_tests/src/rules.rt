//! The rules on sums of bounds. What they ask of every table is tested here on the literals' own bounds, whose numbers of units are those of
//! each table, so that the tests have nothing to prove of it: where it doesn't hold, the answer is `Memory`, which fails the test.
ghost use Rattle.std.specs.Prelude.{◌≡◌, ◌∷◌, [], IfOk, OnOk};
ghost use Rattle.std.specs.Bool.{OnTrue};
ghost use Rattle.std.specs.List.{list_all};
ghost use Rattle.nz_spec.specs.clauses.LinearLiteral.{is_whole};
ghost use Rattle.nz_lin.specs.Bounds.{is_integral};
ghost use Rattle.nz_log.specs.Logs.{IsLive};
ghost use Rattle.nz_log_tests.specs.Sums.{AreAllMultiples, AreIntegral, AreRefuted, IsAdded, IsFalse, IsMultiple, IsOfIntegers, IsSum};

use nz_base::Memory;
use nz_frac::Frac;
use nz_lin::{Bound, Part};
use nz_log::{Atom, ClauseId, Lit, LitMultiple, Literal, Log, Step};
use nz_term::{ArithmeticStop, Sort};
use std::alloc::Global;

/// What a log tells of a clause by one of these rules.
#[derive(Debug, Drop)]
pub(crate) struct Made {
    pub(crate) literals: Vec<Lit>,
    pub(crate) level: usize,
    /// How many multiples its only step sums, where that is by a contradiction.
    pub(crate) refuted: Option<usize>,
}

/// The clause that one of these literals is false, since the sum of their multiples is a contradiction.
pub(crate) fn farkas(
    alloc: Global,
    log: &mut Log,
    multiples: &[LitMultiple],
) -> Result<Made, ArithmeticStop> {
    if !are_multiples(log, multiples) || !is_refuted(alloc, log, multiples)? {
        return Err(ArithmeticStop::Memory);
    }
    let id = log.farkas(multiples)?;
    Ok(told_of(alloc, log, id)?)
}

/// The same of a bound on no units that excludes 0: its multiple is a contradiction also where that leaves the numbers.
pub(crate) fn farkas_alone(
    alloc: Global,
    log: &mut Log,
    multiple: LitMultiple,
) -> Result<Made, ArithmeticStop> {
    if !are_multiples(log, &[multiple]) || !is_false(log, multiple) {
        return Err(ArithmeticStop::Memory);
    }
    let id = log.farkas(&[multiple])?;
    Ok(told_of(alloc, log, id)?)
}

/// The clause that a sum of integers is at most an integer, or at least the next one.
pub(crate) fn branch(alloc: Global, log: &mut Log, bound: Bound) -> Result<Made, ArithmeticStop> {
    if bound.is_strict() || !is_of_integers(&bound) || !is_whole(bound.limit()) {
        return Err(ArithmeticStop::Memory);
    }
    let id = log.branch(bound)?;
    Ok(told_of(alloc, log, id)?)
}

/// The clause that one of these literals is false, or the sum of their multiples is within its rounded limit.
pub(crate) fn cut(
    alloc: Global,
    log: &mut Log,
    multiples: &[LitMultiple],
) -> Result<Made, ArithmeticStop> {
    if !are_multiples(log, multiples) || !is_integral_sum(alloc, log, multiples)? {
        return Err(ArithmeticStop::Memory);
    }
    let id = log.cut(multiples)?;
    Ok(told_of(alloc, log, id)?)
}

/// What the log tells of a clause.
fn told_of(alloc: Global, log: &Log, id: ClauseId) -> Result<Made, Memory>
    requires live { IsLive log.now id }
{
    let steps = log.steps(id)?;
    Ok(Made {
        literals: Vec::from_slice(alloc, log.clause(id))?,
        level: log.level(id),
        refuted: refuted(&steps),
    })
}

/// How many multiples the only step sums, where it is by a contradiction.
fn refuted(steps: &[Step<'_>]) -> Option<usize> {
    if steps.len() != 1 {
        return None;
    }
    match &steps[0] {
        Step::Farkas(multiples) => Some(multiples.len()),
        _ => None,
    }
}

/// Whether each is a multiple of a bound, by a number above 0.
fn are_multiples(log: &Log, multiples: &[LitMultiple]) -> bool
    ensures multiples { OnTrue result (AreAllMultiples log.now.atoms multiples.now) }
{
    for i in 0..multiples.len() {
        if !is_multiple(log, multiples[i]) {
            return false;
        }
    }
    true
}

/// Whether it is a multiple of a bound, by a number above 0.
fn is_multiple(log: &Log, multiple: LitMultiple) -> bool
    ensures multiple { OnTrue result (IsMultiple log.now.atoms multiple) }
{
    match log.literal(multiple.literal) {
        Literal::Term(_) => false,
        Literal::AtMost(_, _) => Frac::whole(0) < multiple.multiplier,
    }
}

/// Whether the sum of multiples is a contradiction.
fn is_refuted(alloc: Global, log: &Log, multiples: &[LitMultiple]) -> Result<bool, ArithmeticStop>
    ensures refuted { IfOk result (λ b. OnTrue b (AreRefuted log.now.atoms multiples.now)) }
{
    let sum = sum(alloc, log, multiples)?;
    Ok(sum.is_contradiction())
}

/// Whether it is a multiple, by a number above 0, of a bound on no units that excludes 0: then it excludes 0 too.
fn is_false(log: &Log, multiple: LitMultiple) -> bool
    ensures refuted { OnTrue result (AreRefuted log.now.atoms (multiple ∷ [])) }
{
    let is_above = Frac::whole(0) < multiple.multiplier;
    match log.literal(multiple.literal) {
        Literal::Term(_) => false,
        Literal::AtMost(bound, sign) => {
            if !sign {
                return false;
            }
            if !is_above {
                return false;
            }
            excludes_zero(bound)
        }
    }
}

/// Whether a bound is on no units, and 0 isn't within its limit.
fn excludes_zero(bound: &Bound) -> bool
    ensures excludes { OnTrue result (IsFalse bound.now) }
{
    if !bound.parts().is_empty() {
        return false;
    }
    bound.limit() < Frac::whole(0)
}

/// Whether the sum of multiples is one of integers.
fn is_integral_sum(
    alloc: Global,
    log: &Log,
    multiples: &[LitMultiple],
) -> Result<bool, ArithmeticStop>
    ensures integral { IfOk result (λ b. OnTrue b (AreIntegral log.now.atoms multiples.now)) }
{
    let sum = sum(alloc, log, multiples)?;
    Ok(is_of_integers(&sum))
}

/// The sum of multiples of bounds.
fn sum(alloc: Global, log: &Log, multiples: &[LitMultiple]) -> Result<Bound, ArithmeticStop>
    ensures sum { IfOk result (IsSum log.now.atoms multiples.now) }
{
    let mut sum = Bound::empty(alloc);
    for multiple in multiples {
        add_multiple(alloc, log, &mut sum, *multiple)?;
    }
    Ok(sum)
}

/// Adds a multiple of a bound to a sum.
fn add_multiple(
    alloc: Global,
    log: &Log,
    sum: &mut Bound,
    multiple: LitMultiple,
) -> Result<(), ArithmeticStop>
    ensures added { OnOk result (IsAdded log.now.atoms multiple sum.old sum.new) }
{
    let literal = multiple.literal;
    let atom = literal.atom();
    if log.atom_count() <= atom {
        return Err(ArithmeticStop::Memory);
    }
    match log.atom(atom) {
        Atom::Term(_) => Err(ArithmeticStop::Memory),
        Atom::AtMost(bound) => {
            if literal.sign() {
                sum.join_multiple(alloc, multiple.multiplier, bound)
            } else {
                sum.join_multiple(alloc, multiple.multiplier, &bound.not(alloc)?)
            }
        }
    }
}

/// Whether a bound is one of integers: each coefficient is one, and each unit of sort Int.
fn is_of_integers(bound: &Bound) -> bool
    ensures integers { OnTrue result (IsOfIntegers bound.now) }
{
    are_integral(bound.parts())
}

/// Whether each coefficient is an integer, and each unit of sort Int.
fn are_integral(parts: &[Part]) -> bool
    ensures integral { result ≡ list_all is_integral parts.now }
{
    parts.iter().all(|part| is_integral(part))
}

/// Whether the coefficient is an integer, and the unit of sort Int.
fn is_integral(part: &Part) -> bool
    ensures integral { result ≡ is_integral part.now }
{
    match part.sort {
        Sort::Int => is_whole(part.coefficient),
        Sort::Bool => false,
        Sort::Real => false,
    }
}

/// Whether the number is an integer.
fn is_whole(number: Frac) -> bool
    ensures whole { result ≡ is_whole number }
{
    number == number.floor()
}

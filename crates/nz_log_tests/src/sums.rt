//! Clauses by sums of bounds: contradictions, branches and cuts.
use crate::rules::{Made, branch, cut, farkas, farkas_alone};
use crate::terms::{expect, form};
use crate::values::is_wide;
use nz_base::Memory;
use nz_frac::{Frac, Op};
use nz_lin::Bound;
use nz_log::{Lit, LitMultiple, Literal, Log};
use nz_term::{ArithmeticStop, NumberSort, Operator, Sort, TermId, Terms};
use nz_term_samples::{MOST, constant, numeral, operation};
use std::alloc::Global;
use std::test::Fail;

/// The term `factor * x + y + number`, of integers. In each table `x` is the first term, and `y` the second.
fn sum(terms: &mut Terms, alloc: Global, factor: u128, number: u128) -> Result<TermId, Memory> {
    let x = constant(alloc, terms, b"x", Sort::Int)?;
    let y = constant(alloc, terms, b"y", Sort::Int)?;
    let factor = numeral(terms, factor)?;
    let number = numeral(terms, number)?;
    let times = operation(terms, Operator::Product(NumberSort::Int), &[factor, x])?;
    operation(terms, Operator::Sum(NumberSort::Int), &[times, y, number])
}

/// The bound `factor * x + y + number <= 0`.
fn bound_in(
    alloc: Global,
    terms: &mut Terms,
    factor: u128,
    number: u128,
) -> Result<Bound, ArithmeticStop> {
    let term = sum(terms, alloc, factor, number)?;
    Ok(Bound::at_most_zero(form(alloc, terms, term)?))
}

/// The same over terms of its own.
fn at_most_zero(alloc: Global, factor: u128, number: u128) -> Result<Bound, ArithmeticStop> {
    let mut terms = Terms::new(alloc)?;
    bound_in(alloc, &mut terms, factor, number)
}

/// Its literal.
fn literal(
    alloc: Global,
    log: &mut Log,
    factor: u128,
    number: u128,
) -> Result<Lit, ArithmeticStop> {
    let bound = at_most_zero(alloc, factor, number)?;
    Ok(log.bound_literal(bound)?)
}

/// The literal of its negation.
fn literal_of_not(
    alloc: Global,
    log: &mut Log,
    factor: u128,
    number: u128,
) -> Result<Lit, ArithmeticStop> {
    let bound = at_most_zero(alloc, factor, number)?;
    let negation = bound.not(alloc)?;
    Ok(log.bound_literal(negation)?)
}

/// The bound `x + y <= M`.
fn at_most_largest(alloc: Global) -> Result<Bound, ArithmeticStop> {
    let bound = at_most_zero(alloc, 1, 0)?;
    Ok(bound.with_limit(Frac::integer(MOST as i128)))
}

/// A multiple by an integer.
fn times(literal: Lit, multiplier: i64) -> LitMultiple {
    LitMultiple {
        literal,
        multiplier: Frac::whole(multiplier),
    }
}

/// Whether a clause has just these literals, in this order.
fn says(made: &Made, literals: &[Lit]) -> bool {
    made.literals.as_slice() == literals
}

/// Fails where a bound and its negation have two atoms.
fn have_one_atom(alloc: Global, log: &mut Log) -> Result<(), Fail> {
    let at_most = literal(alloc, log, 1, 0)?;
    let other = literal_of_not(alloc, log, 1, 0)?;
    expect(other.is(at_most.not()), "the literal")?;
    expect(log.atom_count() == 1, "the atoms")
}

#[test]
fn test_a_bound_and_its_negation_have_one_atom(rt: HostRuntime) -> Result<(), Fail> {
    let mut log = Log::new(rt.alloc())?;
    have_one_atom(rt.alloc(), &mut log)
}

/// Fails where `x + y + 1 <= 0`, and that `x + y <= 0` is false, aren't refuted: their sum says `0 < -1`.
fn are_refuted(alloc: Global, log: &mut Log) -> Result<(), Fail> {
    let first = literal(alloc, log, 1, 1)?;
    let second = literal(alloc, log, 1, 0)?.not();
    let made = farkas(alloc, log, &[times(first, 1), times(second, 1)])?;
    expect(says(&made, &[first.not(), second.not()]), "the literals")?;
    expect(made.level == 0 && made.refuted == Some(2), "the step")
}

#[test]
fn test_bounds_with_a_false_sum_are_refuted(rt: HostRuntime) -> Result<(), Fail> {
    let mut log = Log::new(rt.alloc())?;
    are_refuted(rt.alloc(), &mut log)
}

/// Fails unless a contradiction is named whose multiple is no number: 0 is at most the least number, and so at most twice that.
fn is_sum_named(alloc: Global, log: &mut Log) -> Result<(), Fail> {
    let least = Bound::empty(alloc).with_limit(Frac::integer(-(MOST as i128)));
    let first = log.bound_literal(least)?;
    let made = farkas_alone(alloc, log, times(first, 2));
    expect(is_wide(&made, Op::Mul, 2, -(MOST as i128)), "the operation")
}

#[test]
fn test_a_wide_sum_is_named(rt: HostRuntime) -> Result<(), Fail> {
    let mut log = Log::new(rt.alloc())?;
    is_sum_named(rt.alloc(), &mut log)
}

/// Whether a literal says that a sum is at most this number.
fn is_limit(log: &Log, literal: Lit, limit: i64) -> bool {
    match log.literal(literal) {
        Literal::AtMost(bound, true) => bound.limit() == Frac::whole(limit),
        _ => false,
    }
}

/// Whether the literals of a clause say that a sum is at most the one number, and another at most the other.
fn has_limits(log: &Log, made: &Made, first: i64, second: i64) -> bool {
    match made.literals.as_slice() {
        [one, other] => is_limit(log, *one, first) && is_limit(log, *other, second),
        _ => false,
    }
}

/// Fails unless a branch is on `2x + y <= -3`, or `2x + y >= -2`.
fn branches(alloc: Global, log: &mut Log) -> Result<(), Fail> {
    let bound = at_most_zero(alloc, 2, 3)?;
    let made = branch(alloc, log, bound)?;
    expect(has_limits(log, &made, -3, 2), "the limits")
}

#[test]
fn test_a_branch_is_on_an_integer(rt: HostRuntime) -> Result<(), Fail> {
    let mut log = Log::new(rt.alloc())?;
    branches(rt.alloc(), &mut log)
}

/// Fails unless a branch is named whose other side is no number.
fn is_branch_named(alloc: Global, log: &mut Log) -> Result<(), Fail> {
    let bound = at_most_largest(alloc)?;
    let made = branch(alloc, log, bound);
    expect(is_wide(&made, Op::Sub, -(MOST as i128), 1), "the operation")
}

#[test]
fn test_a_wide_branch_is_named(rt: HostRuntime) -> Result<(), Fail> {
    let mut log = Log::new(rt.alloc())?;
    is_branch_named(rt.alloc(), &mut log)
}

/// The bound `2x + 2y <= -1`.
fn doubled(alloc: Global) -> Result<Bound, ArithmeticStop> {
    let bound = at_most_zero(alloc, 1, 0)?;
    let twice = bound.scaled(alloc, Frac::whole(2))?;
    Ok(twice.with_limit(Frac::whole(-1)))
}

/// Its literal.
fn doubled_literal(alloc: Global, log: &mut Log) -> Result<Lit, ArithmeticStop> {
    let bound = doubled(alloc)?;
    Ok(log.bound_literal(bound)?)
}

/// Fails unless half of it, `x + y <= -1/2`, is cut to at most -1.
fn cuts(alloc: Global, log: &mut Log) -> Result<(), Fail> {
    let first = literal(alloc, log, 1, 1)?;
    let doubled = doubled_literal(alloc, log)?;
    let half = LitMultiple {
        literal: doubled,
        multiplier: Frac::of(1, 2).unwrap_or(Frac::whole(1)),
    };
    let made = cut(alloc, log, &[half])?;
    expect(says(&made, &[doubled.not(), first]), "the literals")
}

#[test]
fn test_a_cut_is_rounded(rt: HostRuntime) -> Result<(), Fail> {
    let mut log = Log::new(rt.alloc())?;
    cuts(rt.alloc(), &mut log)
}

/// Fails unless a cut is named whose limit is no number: above the greatest number, its negative is below the least one, so at most one less.
fn is_cut_named(alloc: Global, log: &mut Log) -> Result<(), Fail> {
    let bound = at_most_largest(alloc)?;
    let above = log.bound_literal(bound)?.not();
    let made = cut(alloc, log, &[times(above, 1)]);
    expect(is_wide(&made, Op::Sub, -(MOST as i128), 1), "the operation")
}

#[test]
fn test_a_wide_cut_is_named(rt: HostRuntime) -> Result<(), Fail> {
    let mut log = Log::new(rt.alloc())?;
    is_cut_named(rt.alloc(), &mut log)
}
